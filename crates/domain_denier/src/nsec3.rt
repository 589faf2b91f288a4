//! Picks records of an NSEC3 chain.
ghost use Rattle.std.specs.Prelude.{◌≡◌, ◌<◌, ◌||◌, cond, ℕ, None, Some, Err, length, slice_get, IfOk, IfErr, true, false};
ghost use Rattle.domain_names.specs.Name.{is_at_or_below, last_labels};
ghost use Rattle.domain_nsec3.specs.{Chain.{HashedLink, hash_name, IsNoHash}, View.hash_by};
ghost use Rattle.domain_answer.specs.{HashedReading.flag_of, ZoneAnswer.{is_at_parent, is_meta_type, wildcard_below}};
ghost use Rattle.domain_denier.specs.HashedPicked.{without_records, ArePlaces, IsHashedDenied, IsPickRefusal};
ghost use Rattle.domain_denier.specs.HashedPicked.{wildcard_told_by, with_wildcard, IsFirstAnswer, IsWildcardAnswer};
ghost use Rattle.domain_answer.specs.declared.answer.Answer.TheVariants.{AtParent, NotProven};
ghost use Rattle.domain_denier.specs.Picked.{link_at};

use crate::encloser::{PlacedEncloser, find_encloser};
use crate::hash_search::{HashPlace, look_up};
use domain_answer::{
    Answer, encloser_answer, is_at_parent, is_meta_type, wildcard_of, wildcard_types_answer,
};
use domain_base::{MAX_NAME, Rtype, ToName};
use domain_checker::laws::hashed_chains_are_known;
use domain_hasher::{Nsec3HashError, Nsec3Hasher};
use domain_nsec3::{BorrowedNsec3, Nsec3Chain};
use domain_octets::Octets;
use std::alloc::Global;

/// What a zone answers to a question, and the places of the records of its NSEC3 chain that prove
/// it (`Nsec3Chain::lend`). One record may have several of these roles: `places` returns each place
/// once.
#[derive(Clone, Copy, Debug, PartialEq, Eq)]
pub struct Nsec3Denial {
    /// What the zone says of the name and the type.
    pub answer: Answer,
    /// The record that matches the closest encloser, which may be the name itself. None if the name
    /// is outside the zone.
    pub of_encloser: Option<usize>,
    /// The record that covers the next closer name, which is one label longer, if the answer rests
    /// on it.
    pub of_next_closer: Option<usize>,
    /// The record that matches or covers the wildcard below the closest encloser, if the answer
    /// rests on that of the next closer name.
    pub of_wildcard: Option<usize>,
}

/// Returns the place, unless it is the other one.
fn other_than(place: Option<usize>, other: Option<usize>) -> Option<usize>
    ensures same { place ≡ other → result ≡ None }
    ensures apart { ¬ (place ≡ other) → result ≡ place }
{
    if place == other { None } else { place }
}

impl Nsec3Denial {
    /// Returns the places of the records, each once: at most three.
    pub fn places(&self) -> [Option<usize>; 3]
        ensures { ArePlaces self.now result }
    {
        let next_closer = other_than(self.of_next_closer, self.of_encloser);
        let wildcard = other_than(self.of_wildcard, self.of_encloser);
        [
            self.of_encloser,
            next_closer,
            other_than(wildcard, self.of_next_closer),
        ]
    }
}

/// Returns an answer that rests on no record.
fn without_records(answer: Answer) -> Nsec3Denial
    ensures { result ≡ without_records answer }
{
    Nsec3Denial {
        answer,
        of_encloser: None,
        of_next_closer: None,
        of_wildcard: None,
    }
}

/// Returns the record at a place of the chain.
pub(crate) fn lend_at<'c, O: Octets>(
    chain: &'c Nsec3Chain<'_, O>,
    place: usize,
) -> BorrowedNsec3<'c>
    requires { place < length chain.now.links }
    ensures { slice_get chain.now.links place ≡ Some result }
{
    let Some(listed) = chain.lend(place) else {
        unreachable!();
    };
    listed
}

/// Returns whether the record at a place has the opt-out flag, or None without a place.
fn opt_out_at<O: Octets>(chain: &Nsec3Chain<'_, O>, place: Option<usize>) -> Option<bool>
    requires { (at : ℕ) → place ≡ Some at → at < length chain.now.links }
    ensures { result ≡ flag_of (link_at chain.now.links place) }
{
    Some(lend_at(chain, place?).data().opt_out())
}

/// Returns what the records of the closest encloser and of the next closer name say of a name. Also
/// returns the place of the second record, if the answer rests on it. No wildcard is looked up for
/// a name that does not exist.
fn first_answer<O: Octets, M: ToName>(
    chain: &Nsec3Chain<'_, O>,
    encloser: PlacedEncloser,
    name: &M,
    rtype: Rtype,
) -> (Answer, Option<usize>)
    requires place { encloser.place < length chain.now.links }
    requires cover { (place : ℕ) → encloser.cover ≡ Some place
        → place < length chain.now.links }
    ensures { (k : HashedLink) → slice_get chain.now.links encloser.place ≡ Some k
        → IsFirstAnswer chain.now encloser (length (M.labels name.now)) rtype k result }
{
    let count = name.count_labels();
    let listed = lend_at(chain, encloser.place);
    let types = listed.data().types();
    let apex = chain.nsec3param().owner();
    // It is a zone cut if the record lists NS, and it is not the apex.
    let at_cut = (encloser.count != apex.count_labels()) & types.contains(Rtype::NS);
    let cover = opt_out_at(chain, encloser.cover);
    let answer = encloser_answer(types, at_cut, encloser.count, cover, count, rtype);
    if (encloser.count == count) | at_cut | types.contains(Rtype::DNAME) {
        return (answer, None);
    }
    (answer, encloser.cover)
}

/// Returns what the record that matches or covers the wildcard below the closest encloser says. The
/// closest encloser has `count` labels.
fn wildcard_told<O: Octets>(
    chain: &Nsec3Chain<'_, O>,
    count: usize,
    rtype: Rtype,
    found: HashPlace,
) -> Answer
    requires { found.place < length chain.now.links }
    ensures { (k : HashedLink) → slice_get chain.now.links found.place ≡ Some k
        → result ≡ wildcard_told_by count rtype k found.matches }
{
    let listed = lend_at(chain, found.place);
    if !found.matches {
        if listed.data().opt_out() {
            return Answer::MayBeUnsigned(count);
        }
        return Answer::NameError(count);
    }
    let types = listed.data().types();
    wildcard_types_answer(types, types.contains(Rtype::NS), count, rtype)
}

/// Returns what is said of a name that does not exist, whose closest encloser has `count` labels,
/// and the place of the record that says so: that of the wildcard below the closest encloser.
fn wildcard_answer<O: Octets, M: ToName, H: Nsec3Hasher>(
    alloc: Global,
    chain: &Nsec3Chain<'_, O>,
    name: &M,
    rtype: Rtype,
    count: usize,
    hasher: &H,
) -> Result<(Answer, usize), Nsec3HashError>
    requires some { 0 < length chain.now.links }
    requires counts { count < length (M.labels name.now) }
    ensures ok { IfOk result (IsWildcardAnswer
        (hash_by (H.answer hasher.now) chain.now.param.parameters) chain.now
        (M.labels name.now) rtype count) }
    ensures err { IfErr result (IsNoHash (λ n.
        hash_name (hash_by (H.answer hasher.now) chain.now.param.parameters)
        (wildcard_below (last_labels count (M.labels name.now))) ≡ Err n)
        (H.takes_memory hasher.now)) }
{
    let mut buffer = [0; MAX_NAME];
    let Some(wildcard) = wildcard_of(&mut buffer, name, count) else {
        unreachable!();
    };
    let mut lowered = [0; MAX_NAME];
    let wire = wildcard.lower_wire(&mut lowered);
    let found = look_up(alloc, chain, wire, hasher)?;
    Ok((wildcard_told(chain, count, rtype, found), found.place))
}

/// Returns the answer by what was first said of a name that does not exist, and by what the record
/// of the wildcard says. With opt-out this is the first.
fn with_wildcard(first: Answer, of_wildcard: Answer) -> Answer
    ensures { result ≡ with_wildcard first of_wildcard }
{
    match first {
        Answer::NoCloserName(_) => of_wildcard,
        unsigned => unsigned,
    }
}

/// Picks records for a name in the zone and a type that records can have, unless the parent zone
/// answers.
fn pick<O: Octets, M: ToName, H: Nsec3Hasher>(
    alloc: Global,
    chain: &Nsec3Chain<'_, O>,
    name: &M,
    rtype: Rtype,
    hasher: &H,
) -> Result<Nsec3Denial, Nsec3HashError>
    requires low { is_at_or_below (M.labels name.now) chain.now.param.owner ≡ true }
    requires here { is_at_parent chain.now.param.owner (M.labels name.now) rtype ≡ false }
    requires asks { is_meta_type rtype ≡ false }
    ensures denied { IsHashedDenied (hash_by (H.answer hasher.now) chain.now.param.parameters)
        chain.now (M.labels name.now) rtype result }
    ensures err { IfErr result (IsNoHash (IsPickRefusal
        (hash_by (H.answer hasher.now) chain.now.param.parameters) chain.now (M.labels name.now))
        (H.takes_memory hasher.now)) }
{
    // By this law what the records say is what the zone says, for a type of 16 bits.
    hashed_chains_are_known();
    let _number = rtype.to_int();
    if chain.is_empty() {
        return Ok(without_records(Answer::NotProven));
    }
    let found = find_encloser(alloc, chain, name, hasher)?;
    let Some(encloser) = found else {
        return Ok(without_records(Answer::NotProven));
    };
    let (told, of_next_closer) = first_answer(chain, encloser, name, rtype);
    let first = Nsec3Denial {
        answer: told,
        of_encloser: Some(encloser.place),
        of_next_closer,
        of_wildcard: None,
    };
    if of_next_closer.is_none() {
        return Ok(first);
    }
    let (wildcard, place) = wildcard_answer(alloc, chain, name, rtype, encloser.count, hasher)?;
    Ok(Nsec3Denial {
        answer: with_wildcard(told, wildcard),
        of_wildcard: Some(place),
        ..first
    })
}

/// Picks the record of the closest encloser of a name in the zone, for an answer that needs no
/// records: the parent zone answers, or no record of a zone has the type.
fn pick_encloser<O: Octets, M: ToName, H: Nsec3Hasher>(
    alloc: Global,
    chain: &Nsec3Chain<'_, O>,
    name: &M,
    rtype: Rtype,
    answer: Answer,
    hasher: &H,
) -> Result<Nsec3Denial, Nsec3HashError>
    requires low { is_at_or_below (M.labels name.now) chain.now.param.owner ≡ true }
    requires needless { (is_at_parent chain.now.param.owner (M.labels name.now) rtype
        || is_meta_type rtype) ≡ true }
    requires answer { answer ≡ cond (is_at_parent chain.now.param.owner (M.labels name.now) rtype)
        AtParent NotProven }
    ensures denied { IsHashedDenied (hash_by (H.answer hasher.now) chain.now.param.parameters)
        chain.now (M.labels name.now) rtype result }
    ensures err { IfErr result (IsNoHash (IsPickRefusal
        (hash_by (H.answer hasher.now) chain.now.param.parameters) chain.now (M.labels name.now))
        (H.takes_memory hasher.now)) }
{
    let own = pick(alloc, chain, name, Rtype::SOA, hasher)?;
    Ok(Nsec3Denial {
        of_encloser: own.of_encloser,
        ..without_records(answer)
    })
}

/// Returns the records of an NSEC3 chain with which a server answers a question about a name and a
/// type (RFC 5155, section 7.2), and what they prove: at most three.
///
/// The first record matches the closest encloser of the name, which may be the name itself. If the
/// answer rests on the absence of the name one label longer, the second record covers that name,
/// and the third matches or covers the wildcard below the closest encloser. `Nsec3Denial::needed`
/// says which of them a response needs, by its answer.
///
/// A name outside the zone has none. For a type that no record of a zone has (`is_meta_type`), the
/// answer is `NotProven`, and the record of the closest encloser is returned.
///
/// If the chain has the opt-out flag, each name that does not exist is `MayBeUnsigned`, whatever
/// the wildcard does: the zone's own data say which of these responses is due. A name error, or no
/// data of a wildcard, needs the wildcard's record all the same.
///
/// The chain must leave out the names below an owner of a DNAME record, or the zone must have none
/// (RFC 6672, section 2.4). The apex and the parameters are those of the chain's NSEC3PARAM record.
/// Names are hashed from the name towards the apex, up to the first that a record matches, and then
/// the wildcard if it is picked. None is hashed twice, unless the next closer name is that
/// wildcard. No name is hashed if the name is outside the zone. For each
/// hash, about twenty hashes are compared in a chain of a million. There is no limit of iterations.
/// Allocates nothing but the hasher's digests, one at a time.
///
/// # Errors
///
/// `Hasher` with the number of the hasher's error for the first name that it rejects, in the order
/// in which names are hashed, and `OutOfMemory` if the hasher has no memory.
pub fn deny_nsec3<O: Octets, M: ToName, H: Nsec3Hasher>(
    alloc: Global,
    chain: &Nsec3Chain<'_, O>,
    name: &M,
    rtype: Rtype,
    hasher: &H,
) -> Result<Nsec3Denial, Nsec3HashError>
    ensures denied { IsHashedDenied (hash_by (H.answer hasher.now) chain.now.param.parameters)
        chain.now (M.labels name.now) rtype result }

    // An error is the hasher's for the first name that it rejects, or out of memory.
    ensures err { IfErr result (IsNoHash (IsPickRefusal
        (hash_by (H.answer hasher.now) chain.now.param.parameters) chain.now (M.labels name.now))
        (H.takes_memory hasher.now)) }
{
    let apex = chain.nsec3param().owner();
    if !name.ends_with(apex) {
        return Ok(without_records(Answer::OutsideZone));
    }
    if is_at_parent(apex, name, rtype) {
        // The apex's own record, as for any other type (RFC 5155, section 7.2.4).
        return pick_encloser(alloc, chain, name, rtype, Answer::AtParent, hasher);
    }
    if is_meta_type(rtype) {
        return pick_encloser(alloc, chain, name, rtype, Answer::NotProven, hasher);
    }
    pick(alloc, chain, name, rtype, hasher)
}
