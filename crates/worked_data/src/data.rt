//! Data of records: in presentation format, as octets, in canonical form, by its fields, and over
//! other types of octets (RFC 1035; RFC 4034; RFC 5155).
use super::*;

/// Adds data in its printed form, as octets, and as the octets of its canonical form. Also adds how
/// it compares with its octets, to which it is equal.
fn forms<D: ComposeRecordData + Display>(data: &D, answers: &mut Answers) -> Answered {
    let (mut octets, mut canonical) = (Vec::new(answers.alloc), Vec::new(answers.alloc));
    answers.ok(data.compose_rdata(&mut octets))?;
    answers.ok(data.compose_canonical_rdata(&mut canonical))?;
    say!(
        answers, show "text": data, octets "octets": octets, octets "canonical": canonical,
        debug "beside its octets": data.canonical_cmp_octets(octets.as_slice())
    );
    if data.fits_rdlen() {
        answers.debug("rdlen", &data.rdlen(false));
    }
    Some(())
}

/// Adds data that tokens spell in generic form, and the error with room for only one octet.
fn generic(tokens: &[&str], answers: &mut Answers) -> Answered {
    let alloc = answers.alloc;
    let data = UnknownRecordData::scan(alloc, Rtype::MX, &mut Tokens::new(tokens));
    if let Some(data) = answers.ok(data) {
        forms(&data, answers);
    }
    let short = UnknownRecordData::scan(alloc, Rtype::MX, &mut Short::<1>::new(tokens));
    answers.fault("ArrayBuilder<1>", &short)
}

/// Adds why tokens are rejected as data of a type with room for only three octets.
fn tight(rtype: &str, tokens: &[&str], answers: &mut Answers) -> Answered {
    let (alloc, label) = (answers.alloc, "ArrayBuilder<3>");
    let scanner = &mut Short::<3>::new(tokens);
    match rtype {
        "DNSKEY" => answers.fault(label, &Dnskey::scan(alloc, scanner)),
        "DS" => answers.fault(label, &Ds::scan(alloc, scanner)),
        "RRSIG" => answers.fault(label, &Rrsig::scan(alloc, scanner)),
        "NSEC3" => answers.fault(label, &Nsec3::scan(alloc, scanner)),
        _ => answers.fault(label, &Nsec3param::scan(alloc, scanner)),
    }
}

/// Adds what is written of data with room for as many octets as the first word says: a beginning,
/// or all of it.
fn room(words: &[&str], answers: &mut Answers) -> Answered {
    let count = word(words, 0).parse::<usize>().unwrap_or(0);
    let data = answers.data(words.get(1..).unwrap_or_default())?;
    let taken = [0; 64];
    let taken = taken.get(count..).unwrap_or_default();
    let (mut target, mut whole) = (ArrayBuilder::<64>::new(), Vec::new(answers.alloc));
    answers.ok(target.append_slice(taken))?;
    answers.ok(data.compose_rdata(&mut whole))?;
    say!(
        answers, show "free": 64usize.saturating_sub(taken.len()),
        debug "composed": data.compose_rdata(&mut target)
    );
    let written = target.as_slice().get(taken.len()..).unwrap_or_default();
    say!(
        answers, show "a beginning": whole.starts_with(written),
        show "all of it": whole.as_slice() == written
    )
}

/// Adds how data of one type compare, if it is a type of DNSSEC.
fn compare_same(a: &Data, b: &Data, answers: &mut Answers) -> Answered {
    match (a, b) {
        (ZoneRecordData::Dnskey(a), ZoneRecordData::Dnskey(b)) => answers.compared(a, b),
        (ZoneRecordData::Ds(a), ZoneRecordData::Ds(b)) => answers.compared(a, b),
        (ZoneRecordData::Rrsig(a), ZoneRecordData::Rrsig(b)) => answers.compared(a, b),
        (ZoneRecordData::Nsec(a), ZoneRecordData::Nsec(b)) => answers.compared(a, b),
        (ZoneRecordData::Nsec3(a), ZoneRecordData::Nsec3(b)) => answers.compared(a, b),
        (ZoneRecordData::Nsec3param(a), ZoneRecordData::Nsec3param(b)) => answers.compared(a, b),
        _ => None,
    }
}

/// Adds how the data that two parts spell compare, as data of any type and as data of their own
/// type.
fn compare(words: &[&str], answers: &mut Answers) -> Answered {
    let (front, back) = halves(words, "/");
    let (a, b) = (answers.data(front)?, answers.data(back)?);
    answers.debug("canonical_cmp", &a.canonical_cmp(&b));
    compare_same(&a, &b, answers)
}

/// Adds the data that octets begin with.
fn parsed<'a, D>(rtype: Rtype, octets: &'a [u8], answers: &mut Answers) -> Answered
where
    D: ParseRecordData<'a> + ComposeRecordData + Display + Drop,
{
    let mut parser = Parser::new(octets);
    match D::parse_rdata(rtype, &mut parser) {
        Ok(Some(data)) => forms(&data, answers),
        Ok(None) => answers.echo("  no data of this type"),
        Err(error) => answers.debug("refused", &error),
    };
    answers.show("at", &parser.pos())
}

/// Adds the data of a type that octets begin with. MX data is not NS data.
fn wire<'a>(rtype: &str, octets: &'a [u8], answers: &mut Answers) -> Answered {
    match rtype {
        "A" => parsed::<A>(Rtype::A, octets, answers),
        "NS" => parsed::<Ns<ParsedName<'a>>>(Rtype::NS, octets, answers),
        "SOA" => parsed::<Soa<ParsedName<'a>>>(Rtype::SOA, octets, answers),
        "MX" => parsed::<Mx<ParsedName<'a>>>(Rtype::MX, octets, answers),
        "TXT" => parsed::<UnknownRecordData<&'a [u8]>>(Rtype::TXT, octets, answers),
        "DNSKEY" => parsed::<Dnskey<&'a [u8]>>(Rtype::DNSKEY, octets, answers),
        "DS" => parsed::<Ds<&'a [u8]>>(Rtype::DS, octets, answers),
        "RRSIG" => parsed::<Rrsig<&'a [u8], ParsedName<'a>>>(Rtype::RRSIG, octets, answers),
        "NSEC" => parsed::<Nsec<&'a [u8], ParsedName<'a>>>(Rtype::NSEC, octets, answers),
        "NSEC3" => parsed::<Nsec3<&'a [u8]>>(Rtype::NSEC3, octets, answers),
        "NSEC3PARAM" => parsed::<Nsec3param<&'a [u8]>>(Rtype::NSEC3PARAM, octets, answers),
        _ => parsed::<Mx<ParsedName<'a>>>(Rtype::NS, octets, answers),
    }
}

/// Adds the error for octets that may be too many for data of a type.
fn limit(rtype: &str, octets: &[u8], answers: &mut Answers) -> Answered {
    let (algorithm, digest) = (SecurityAlgorithm::RSASHA1, DigestAlgorithm::SHA256);
    match rtype {
        "DNSKEY" => say!(answers, fault "refused": Dnskey::new(0, 3, algorithm, octets)),
        "DS" => say!(answers, fault "refused": Ds::new(0, algorithm, digest, octets)),
        "RRSIG" => {
            let (from, to) = (Timestamp::from(13), Timestamp::from(14));
            let (ttl, signer) = (Ttl::from_secs(12), answers.name("example.com.")?);
            let data = Rrsig::new(Rtype::A, algorithm, 3, ttl, from, to, 15, signer, octets);
            answers.fault("refused", &data)
        }
        _ => say!(answers, fault "refused": UnknownRecordData::from_octets(Rtype::TXT, octets)),
    }
}

/// Adds data made anew from the fields of an NSEC3 record, over borrowed octets.
fn new_hashed(data: &Nsec3<Vec<u8>>, answers: &mut Answers) -> Answered {
    let salt = answers.ok(Nsec3Salt::from_slice(data.salt().as_slice()))?;
    let next = answers.ok(OwnerHash::from_slice(data.next_owner().as_slice()))?;
    let types = answers.ok(Bitmap::from_octets(data.types().as_slice()))?;
    let (flags, iterations) = (data.flags(), data.iterations());
    let new = Nsec3::new(data.hash_algorithm(), flags, iterations, salt, next, types);
    answers.show("new", &new)
}

/// Adds data with another next hash, and then without types.
fn changed(mut data: Nsec3<Vec<u8>>, answers: &mut Answers) -> Answered {
    data.set_next_owner(answers.ok(OwnerHash::from_str(answers.alloc, "CPNMUOG0"))?);
    answers.show("with another hash", &data);
    data.set_types(answers.ok(Bitmap::from_octets(Vec::new(answers.alloc)))?);
    answers.show("without types", &data)
}

/// Adds the fields of a key, and the data made anew from them.
fn fields_of_key(data: &Dnskey<Vec<u8>>, answers: &mut Answers) -> Answered {
    let (flags, protocol, algorithm) = (data.flags(), data.protocol(), data.algorithm());
    let octets = data.public_key().as_slice();
    say!(
        answers, show "flags": flags, show "protocol": protocol, show "algorithm": algorithm,
        octets "public key": octets,
        show_made "new": Dnskey::new(flags, protocol, algorithm, octets)
    );
    if Dnskey::new(flags, protocol, algorithm, octets).is_ok() {
        let new = Dnskey::new_unchecked(flags, protocol, algorithm, octets);
        answers.show("unchecked", &new);
    }
    Some(())
}

/// Adds the fields of a digest, and the data made anew from them.
fn fields_of_digest(data: &Ds<Vec<u8>>, answers: &mut Answers) -> Answered {
    let (tag, algorithm, digest_type) = (data.key_tag(), data.algorithm(), data.digest_type());
    let octets = data.digest().as_slice();
    say!(
        answers, show "key tag": tag, show "algorithm": algorithm, show "digest type": digest_type,
        octets "digest": octets, show_made "new": Ds::new(tag, algorithm, digest_type, octets)
    );
    if Ds::new(tag, algorithm, digest_type, octets).is_ok() {
        let new = Ds::new_unchecked(tag, algorithm, digest_type, octets);
        answers.show("unchecked", &new);
    }
    Some(())
}

/// A signature, with its signer's name over the same type of octets.
type Signature<O> = Rrsig<O, Name<O>>;

/// Adds a signature made anew from its fields, over borrowed octets, if it is known to fit.
fn unchecked_signature(data: &Signature<Vec<u8>>, answers: &mut Answers) -> Answered {
    let (rtype, algorithm, labels) = (data.type_covered(), data.algorithm(), data.labels());
    let (ttl, key_tag, octets) = (
        data.original_ttl(),
        data.key_tag(),
        data.signature().as_slice(),
    );
    let (expiration, inception) = (data.expiration(), data.inception());
    let name = data.signer_name();
    let new = Rrsig::new(
        rtype,
        algorithm,
        labels,
        ttl,
        expiration,
        inception,
        key_tag,
        name.as_parsed(),
        octets,
    );
    if new.is_ok() {
        let new = Rrsig::new_unchecked(
            rtype,
            algorithm,
            labels,
            ttl,
            expiration,
            inception,
            key_tag,
            name.as_parsed(),
            octets,
        );
        answers.show("unchecked", &new);
    }
    Some(())
}

/// Adds the fields of data.
fn fields(data: &Data, answers: &mut Answers) -> Answered {
    match data {
        ZoneRecordData::A(data) => answers.show("address", &data.addr()),
        ZoneRecordData::Ns(data) => answers.show("server", data.nsdname()),
        ZoneRecordData::Soa(data) => say_fields!(
            answers, data, "primary": mname, "mailbox": rname, "serial": serial,
            "refresh": refresh, "retry": retry, "expire": expire, "minimum": minimum
        ),
        ZoneRecordData::Mx(data) => {
            say_fields!(answers, data, "preference": preference, "exchange": exchange)
        }
        ZoneRecordData::Dnskey(data) => fields_of_key(data, answers),
        ZoneRecordData::Ds(data) => fields_of_digest(data, answers),
        ZoneRecordData::Rrsig(data) => {
            say_fields!(
                answers, data, "type covered": type_covered, "algorithm": algorithm,
                "labels": labels, "original TTL": original_ttl, "expiration": expiration,
                "inception": inception, "key tag": key_tag, "signer": signer_name
            );
            answers.octets("signature", data.signature());
            unchecked_signature(data, answers)
        }
        ZoneRecordData::Nsec(data) => {
            say_fields!(answers, data, "next name": next_name, "types": types);
            answers.octets("their octets", data.types().as_octets());
            let types = answers.ok(Bitmap::from_octets(data.types().as_slice()))?;
            answers.show("new", &Nsec::new(data.next_name().as_parsed(), types))
        }
        ZoneRecordData::Nsec3(data) => {
            say_fields!(
                answers, data, "algorithm": hash_algorithm, "flags": flags,
                "iterations": iterations, "salt": salt, "next hash": next_owner, "types": types
            );
            new_hashed(data, answers);
            changed(answers.ok(data.clone())?, answers)
        }
        ZoneRecordData::Nsec3param(data) => say_fields!(
            answers, data, "algorithm": hash_algorithm, "flags": flags,
            "iterations": iterations, "salt": salt
        ),
        ZoneRecordData::Unknown(data) => answers.octets("octets", data.data()),
    }
}

/// Adds data in its `Debug` form, and in the format of a zone file.
fn pieces<D: Debug + ZonefileFmt>(data: &D, answers: &mut Answers) -> Answered {
    answers.debug("debug", data);
    answers.pieces(data);
    let text = data.display_zonefile(answers.alloc, DisplayKind::Simple);
    answers.show_made("zone file", &text)
}

/// Adds the forms and the properties of a key.
fn key(data: &Dnskey<Vec<u8>>, answers: &mut Answers) -> Answered {
    pieces(data, answers);
    say_fields!(
        answers, data, "key tag": key_tag, "zone key": is_zone_key,
        "secure entry point": is_secure_entry_point, "revoked": is_revoked
    );
    say_each!(answers.show_made, data, Dnskey);
    let same: Dnskey<Vec<u8>> = answers.ok(data.try_clone())?.convert();
    answers.octets("public key", &same.into_public_key())
}

/// Adds the signed fields of a signature, and whether the signature made anew from them is equal.
fn signed(data: &Signature<Vec<u8>>, answers: &mut Answers) -> Answered {
    let fields = ProtoRrsig::new(
        data.type_covered(),
        data.algorithm(),
        data.labels(),
        data.original_ttl(),
        data.expiration(),
        data.inception(),
        data.key_tag(),
        answers.ok(data.signer_name().try_clone())?,
    );
    let (mut octets, mut canonical) = (Vec::new(answers.alloc), Vec::new(answers.alloc));
    answers.done("composed", &fields.compose(&mut octets))?;
    answers.octets("signed octets", &octets);
    answers.done("composed", &fields.compose_canonical(&mut canonical))?;
    answers.octets("canonical", &canonical);
    let again = answers.ok(fields.into_rrsig(data.signature().as_slice()))?;
    answers.debug("as before", &again.eq_to(data))
}

/// Adds the forms and the signed fields of a signature.
fn signature(data: &Signature<Vec<u8>>, answers: &mut Answers) -> Answered {
    pieces(data, answers);
    say_each!(answers.show_made, data, Signature);
    say!(answers, show_made "flattened": flattened::<_, Signature<Bytes>>(answers.alloc, data));
    signed(data, answers)?;
    let (mut copy, none) = (answers.ok(data.try_clone())?, Vec::new(answers.alloc));
    if copy.fits_signature(&none) {
        copy.set_signature(none);
        answers.show("without signature", &copy);
    }
    Some(())
}

/// Adds the forms of data with a next name.
fn next(data: &Nsec<Vec<u8>, OwnName>, answers: &mut Answers) -> Answered {
    let alloc = answers.alloc;
    pieces(data, answers);
    say!(
        answers, show_made "Vec": converted::<_, Nsec<Vec<u8>, OwnName>>(alloc, data),
        show_made "flattened": flattened::<_, Nsec<Bytes, OwnName>>(alloc, data),
        show_made "flattened": flattened::<_, Nsec<ArrayBuilder<7>, OwnName>>(alloc, data),
        show_made "flattened": flattened::<_, Nsec<ArrayBuilder<6>, OwnName>>(alloc, data)
    );
    let mut copy = answers.ok(data.clone())?;
    copy.set_next_name(answers.name(".")?);
    answers.show("to the root", &copy)
}

/// Adds the forms and the properties of the parameters of a hash.
fn parameters(data: &Nsec3param<Vec<u8>>, answers: &mut Answers) -> Answered {
    pieces(data, answers);
    say_each!(answers.show_made, data, Nsec3param);
    answers.show("opt-out", &data.opt_out_flag());
    let mut copy = answers.ok(data.try_clone())?;
    copy.set_opt_out_flag();
    say!(
        answers, show "with opt-out": copy, octets "salt": copy.into_salt(),
        show "default": Nsec3param::<Vec<u8>>::default(answers.alloc)
    )
}

/// Adds what data has beyond its printed form and its octets: its properties, its `Debug` form, and
/// its forms over other types of octets.
fn typed(data: &Data, answers: &mut Answers) -> Answered {
    let alloc = answers.alloc;
    match data {
        ZoneRecordData::Dnskey(data) => key(data, answers),
        ZoneRecordData::Ds(data) => {
            pieces(data, answers);
            say_each!(answers.show_made, data, Ds);
            let copy = answers.ok(data.try_clone())?;
            answers.octets("digest", &copy.into_digest())
        }
        ZoneRecordData::Rrsig(data) => signature(data, answers),
        ZoneRecordData::Nsec(data) => next(data, answers),
        ZoneRecordData::Nsec3(data) => {
            pieces(data, answers);
            say!(
                answers, show "opt-out": data.opt_out(),
                show_made "Vec": converted::<_, Nsec3<Vec<u8>>>(alloc, data),
                show_made "Bytes": converted::<_, Nsec3<Bytes>>(alloc, data),
                show_made "ArrayBuilder<6>": converted::<_, Nsec3<ArrayBuilder<6>>>(alloc, data)
            )
        }
        ZoneRecordData::Nsec3param(data) => parameters(data, answers),
        ZoneRecordData::A(data) => say!(
            answers, show_made "A": converted::<_, A>(alloc, data),
            show_made "flattened": flattened::<_, A>(alloc, data)
        ),
        ZoneRecordData::Ns(data) => in_two::<_, Ns<Name<Bytes>>, Ns<Name<Two>>>(data, answers),
        ZoneRecordData::Soa(data) => in_two::<_, Soa<Name<Bytes>>, Soa<Name<Two>>>(data, answers),
        ZoneRecordData::Mx(data) => in_two::<_, Mx<Name<Bytes>>, Mx<Name<Two>>>(data, answers),
        ZoneRecordData::Unknown(data) => say!(
            answers, show_made "Bytes": converted::<_, UnknownRecordData<Bytes>>(alloc, data),
            show_made "flattened": flattened::<_, UnknownRecordData<Bytes>>(alloc, data)
        ),
    }
}

/// Adds two copies of data.
fn copies(data: &Data, answers: &mut Answers) -> Answered {
    say!(answers, show_made "clone": data.clone(), show_made "try_clone": data.try_clone())
}

/// Adds what is composed of a signature, and of its signed fields.
fn composed(data: &Data, answers: &mut Answers) -> Answered {
    let ZoneRecordData::Rrsig(data) = data else {
        return None;
    };
    let mut octets = Vec::new(answers.alloc);
    answers.done("composed", &data.compose_rdata(&mut octets))?;
    answers.octets("octets", &octets);
    signed(data, answers)
}

/// Answers a vector on the data that all its words spell.
fn of_data(form: &str, data: &Data, answers: &mut Answers) -> Answered {
    match form {
        "typed" => typed(data, answers),
        "made" => fields(data, answers),
        "text" => forms(data, answers),
        "copy" => copies(data, answers),
        "composed" => composed(data, answers),
        "size" => {
            let mut octets = Vec::new(answers.alloc);
            answers.done("composed", &data.compose_rdata(&mut octets))?;
            answers.show("octets", &octets.len());
            answers.characters(data)
        }
        _ => match data {
            ZoneRecordData::Dnskey(key) => answers.show("key tag", &key.key_tag()),
            _ => None,
        },
    }
}

/// Answers a vector on data that words spell.
pub fn answer(form: &str, words: &[&str], answers: &mut Answers) -> Answered {
    let (first, rest) = (word(words, 0), words.get(1..).unwrap_or_default());
    match form {
        "tight" => tight(first, rest, answers),
        "generic" => generic(words, answers),
        "room" => room(words, answers),
        "wire" => wire(first, answers.spelled(rest)?.as_slice(), answers),
        "limit" => limit(first, answers.spelled(rest)?.as_slice(), answers),
        "compare" => compare(words, answers),
        _ => of_data(form, &answers.data(words)?, answers),
    }
}
