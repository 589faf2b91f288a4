//! Records and sorted sets of them: in order, printed, over other types of octets, and in groups by
//! owner and by type (RFC 2181, section 5; RFC 4034, section 6).
use super::*;

/// Inserts a record, and adds what the set returns. Returns false if it is out of memory.
fn put(record: OwnedRecord, zone: &mut Zone, answers: &mut Answers) -> bool {
    match zone.insert(record) {
        Ok(()) => answers.show("records", &zone.len()),
        Err(InsertError::Present(back)) => answers.show("present", &back),
        Err(InsertError::OutOfMemory(_back)) => {
            answers.debug("refused", &OutOfMemory);
            return false;
        }
    };
    true
}

/// Adds what a sorted set returns when each record is inserted, and the records that it then holds.
fn insert(words: &[&str], answers: &mut Answers) -> Answered {
    let records = answers.records(words)?;
    let mut zone = Zone::default(answers.alloc);
    answers.show("empty", &zone.is_empty());
    let mut goes_on = true;
    for record in records {
        if goes_on {
            goes_on = put(record, &mut zone, answers);
        }
    }
    answers.show_records(zone.as_slice())
}

/// Returns whether a record has a TTL of 61 seconds.
fn is_marked(record: &OwnedRecord) -> bool {
    record.ttl() == Ttl::from_secs(61)
}

/// Replaces the data of the marked record, or removes the first record or all records of an owner,
/// class and type.
fn change(form: &str, asked: &[&str], zone: &mut Zone, answers: &mut Answers) -> Answered {
    if form == "update" {
        zone.update_data(is_marked, answers.data(asked)?);
        return Some(());
    }
    let name = answers.name(word(asked, 0))?;
    let class = value::<Class>(word(asked, 1));
    let rtype = value::<Rtype>(word(asked, 2));
    let removed = match form {
        "remove-all" => zone.remove_all_by_name_class_rtype(&name, class, rtype),
        _ => zone.remove_first_by_name_class_rtype(&name, class, rtype),
    };
    answers.show("removed", &removed)
}

/// Adds copies of sorted records, and of records one by one. Each record may equal the one before
/// it.
fn copy(words: &[&str], answers: &mut Answers) -> Answered {
    let addresses = records_of!(answers, A, words);
    for pair in addresses.windows(2) {
        if let [a, b] = pair {
            answers.debug("eq", &(a == b));
            answers.show_made("copy", &a.try_clone());
        }
    }
    let made = SortedRecords::<OwnName, A>::from_iter(answers.alloc, addresses);
    let zone = answers.ok(made)?;
    let copy = answers.ok(zone.clone())?;
    answers.show_records(copy.as_slice())
}

/// Adds copies of sorted records of any type.
fn copy_all(zone: &Zone, answers: &mut Answers) -> Answered {
    let copy = answers.ok(zone.clone())?;
    answers.show_records(copy.as_slice())
}

/// Adds a record whose data is replaced in place.
fn with_data(words: &[&str], answers: &mut Answers) -> Answered {
    let (record, data) = halves(words, "/");
    let (mut record, data) = (answers.record(record)?, answers.data(data)?);
    *record.data_mut() = data;
    answers.show("record", &record)
}

/// Adds the first two values, the number of values up to the first, and the number after it.
fn parts(all: &SliceRefsOrOwned<'_, OwnedRecord>, answers: &mut Answers) -> Answered {
    if all.len() < 2 {
        return answers.echo("  fewer than two");
    }
    say!(
        answers, show "first": all.at(0), show "second": all.at(1),
        show "in front": all.front(1).len(), show "behind": all.back(1).len()
    )
}

/// Adds records and references to them, as slices and as groups by owner.
fn slices(words: &[&str], answers: &mut Answers) -> Answered {
    let records = answers.records(words)?;
    let mut references = Vec::new(answers.alloc);
    for record in &records {
        answers.own(references.push(record))?;
    }
    parts(&SliceRefsOrOwned::new_from_owned(&records), answers);
    parts(&SliceRefsOrOwned::new_from_refs(&references), answers);
    let groups = RecordsIter::new(SliceRefsOrOwned::new_from_refs(&references));
    say!(
        answers, show "owners": RecordsIter::new_from_owned(&records).count(),
        show "owners of references": groups.count()
    )
}

/// Adds the TTL that the SOA record of the apex gives to a chain, and the first owners that are not
/// occluded.
fn unoccluded(zone: &Zone, asked: &[&str], answers: &mut Answers) -> Answered {
    let apex = answers.name(word(asked, 0))?;
    let groups = zone.owner_rrs();
    if let Some(soa) = find_soa(&apex, groups.records()) {
        answers.show("TTL of the chain", &soa.chain_ttl());
    }
    if !groups.is_in_order() {
        return answers.echo("  not in order");
    }
    let mut owners = UnoccludedOwners::new(&apex, groups, false, false);
    for _ in 0..4 {
        match owners.next() {
            Some(owner) => say!(
                answers, show "owner": owner.name, show "zone cut": owner.is_zone_cut,
                show "unsigned": owner.is_unsigned_cut()
            ),
            None => answers.echo("  no further owner"),
        };
    }
    Some(())
}

/// An SOA record.
type Start<O> = Record<Name<O>, Soa<Name<O>>>;

/// Adds SOA records over other types of octets.
fn held(words: &[&str], answers: &mut Answers) -> Answered {
    for start in &records_of!(answers, Soa, words) {
        say_each!(answers.show_made, start, Start);
        let flat = flattened::<_, Start<Bytes>>(answers.alloc, start);
        answers.show_made("flattened", &flat);
    }
    Some(())
}

/// A writer that takes a given number of characters, and fails if there are more.
#[derive(Drop)]
struct Narrow(usize);

impl Write for Narrow {
    fn write_str(&mut self, text: &str) -> Printed {
        self.0 = self.0.checked_sub(text.len()).ok_or(Error)?;
        Ok(())
    }
}

/// Writes a comment on a record.
fn comment<W: Write>(_record: &OwnedRecord, target: &mut W) -> Printed {
    target.write_str(" ;x")
}

/// Fails instead of writing a comment.
fn refuse(_record: &OwnedRecord, _target: &mut Narrow) -> Printed {
    Err(Error)
}

/// Adds a sorted set in its printed form, without and with comments, and the results of writers
/// that fail.
fn write(zone: &Zone, answers: &mut Answers) -> Answered {
    let mut text = answers.own(String::with_capacity(answers.alloc, 1024))?;
    let mut commented = answers.own(String::with_capacity(answers.alloc, 1024))?;
    say!(
        answers, debug "written": zone.write(&mut text), debug "text": text,
        debug "written": zone.write_with_comments(&mut commented, comment), debug "text": commented,
        debug "in 40 characters": zone.write(&mut Narrow(40)),
        debug "in 40 characters": zone.write_with_comments(&mut Narrow(40), comment),
        debug "refused": zone.write_with_comments(&mut Narrow(999), refuse)
    )
}

/// The records of an owner and a type, if there are any, or why they are no set.
type Found<'a> = Result<Option<Rrset<'a, OwnName, Data>>, SigningError>;

/// Adds what was found for an owner and a type.
fn show(label: &str, found: Found<'_>, answers: &mut Answers) -> Answered {
    match found {
        Ok(Some(set)) => {
            answers.show(label, set.first());
            answers.debug("numbers", &(set.class(), set.rtype(), set.ttl(), set.len()))
        }
        Ok(None) => answers.show(label, &"none"),
        Err(error) => answers.debug(label, &error),
    }
}

/// Adds the SOA records of a zone, and the records of an owner and some types.
fn find(zone: &Zone, asked: &[&str], answers: &mut Answers) -> Answered {
    let owner = answers.name(word(asked, 0))?;
    show("SOA", zone.find_soa(), answers);
    for word in asked.get(1..).unwrap_or_default() {
        let rtype = given!(answers, Rtype::from_token(word));
        show(word, zone.find_apex_rtype(&owner, rtype), answers);
    }
    Some(())
}

/// Adds a group of one owner, and the groups by type in it.
fn owner(group: &OwnerRrs<'_, OwnName, Data>, apex: &OwnName, answers: &mut Answers) {
    say!(
        answers, show "owner": group.owner(), show "class": group.class(),
        show "in the zone": group.is_in_zone(apex), show "zone cut": group.is_zone_cut(apex),
        show "records": group.clone().records().count()
    );
    let mut sets = group.rrsets();
    'sets: while let Some(set) = sets.next() {
        show("set", set.map(Some), answers);
    }
}

/// Returns the groups by owner from the apex on. They outlive the iterator that returns them.
fn grouped<'a>(
    zone: &'a Zone,
    apex: &OwnName,
    answers: &mut Answers,
) -> Given<Vec<OwnerRrs<'a, OwnName, Data>>> {
    let mut groups = zone.owner_rrs();
    say!(answers, show "one class": groups.is_one_class(), show "in order": groups.is_in_order());
    groups.skip_before(apex);
    answers.show("empty", &groups.is_empty());
    let mut owners = Vec::new(answers.alloc);
    'groups: while let Some(group) = groups.next() {
        answers.own(owners.push(group))?;
    }
    Some(owners)
}

/// Adds the groups by owner from the apex on, and those of the whole zone.
fn owners(zone: &Zone, asked: &[&str], answers: &mut Answers) -> Answered {
    let apex = answers.name(word(asked, 0))?;
    for group in &grouped(zone, &apex, answers)? {
        owner(group, &apex, answers);
    }
    references(zone, answers)
}

/// Adds the groups over references, in order and reversed, and the groups by type of the zone.
fn references(zone: &Zone, answers: &mut Answers) -> Answered {
    let mut references = Vec::new(answers.alloc);
    for record in zone.iter() {
        answers.own(references.push(record))?;
    }
    say!(
        answers, show "owners": RecordsIter::new_from_refs(&references).count(),
        show "sets": RrsetIter::new_from_refs(&references).count()
    );
    let mut sets = zone.rrsets();
    'sets: while let Some(set) = sets.next() {
        show("set of the zone", set.map(Some), answers);
    }
    references.reverse();
    let is_in_order = RecordsIter::new_from_refs(&references).is_in_order();
    answers.show("reversed", &is_in_order);
    let set = Rrset::new_from_refs(&references).map(Some);
    show("all as a set", set, answers)
}

/// Adds records as one set. Also adds what its copy, its iterator and `into_inner` return.
fn set(words: &[&str], answers: &mut Answers) -> Answered {
    let records = &answers.records(words)?;
    show("owned", Rrset::new_from_owned(records).map(Some), answers);
    match Rrset::new(SliceRefsOrOwned::new_from_owned(records)) {
        Ok(set) => say!(
            answers, show "owner": set.clone().owner(), show "iter": set.iter().count(),
            show "into_inner": set.into_inner().iter().count()
        ),
        Err(_) => None,
    }
}

/// Inserts the first record that words spell into a sorted set, and then all of them at once. With
/// the usual sorter, also adds how many records the set then has.
fn extended<S: Sorter>(form: &str, words: &[&str], answers: &mut Answers) -> Answered {
    let (first, _) = halves(words, "/");
    let (first, more) = (answers.record(first)?, answers.records(words)?);
    let mut zone: SortedRecords<OwnName, Data, S> = SortedRecords::new(answers.alloc);
    if zone.insert(first).is_err() {
        return answers.debug("refused", &OutOfMemory);
    }
    let extended = zone.extend(more);
    say!(answers, show "first": true, debug "extended": extended);
    answers.show_records(zone.as_slice());
    if form == "extend" && extended.is_ok() {
        answers.show("left", &zone.into_inner().len());
    }
    Some(())
}

/// Answers a vector that queries or changes a sorted set.
fn of_zone(form: &str, words: &[&str], answers: &mut Answers) -> Answered {
    let (asked, rest) = halves(words, "/");
    let mut zone = answers.zone(rest)?;
    match form {
        "find" => find(&zone, asked, answers),
        "groups" => owners(&zone, asked, answers),
        "unoccluded" => unoccluded(&zone, asked, answers),
        _ => {
            change(form, asked, &mut zone, answers)?;
            answers.show_records(zone.as_slice())
        }
    }
}

/// Answers a vector on records. A set is sorted by the usual sorter, in place, or not at all.
pub fn answer(form: &str, words: &[&str], answers: &mut Answers) -> Answered {
    match form {
        "extend" => extended::<DefaultSorter>(form, words, answers),
        "in-place" => extended::<InPlaceSorter>(form, words, answers),
        "refuse" => extended::<RefusingSorter>(form, words, answers),
        "insert" => insert(words, answers),
        "copy" => copy(words, answers),
        "copy-all" => copy_all(&answers.zone(words)?, answers),
        "with-data" => with_data(words, answers),
        "slices" => slices(words, answers),
        "inserted" => kept::inserted(words, answers),
        "extended" => kept::extended(words, answers),
        "made" => kept::of_all(words, answers),
        "held" => held(words, answers),
        "set" => set(words, answers),
        "write" => write(&answers.zone(words)?, answers),
        _ => of_zone(form, words, answers),
    }
}
