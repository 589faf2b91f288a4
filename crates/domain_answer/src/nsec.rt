//! What records of an NSEC chain answer.
ghost use Rattle.std.specs.{Prelude.{◌≡◌, List, true}, Option.option_map};
ghost use Rattle.domain_names.specs.Name.{is_at_or_below};
ghost use Rattle.domain_nsec.specs.Chain.{as_link, links_of, Link};
ghost use Rattle.domain_answer.specs.{Judged.{AreNsecWitnesses, IsJudged}, ZoneAnswer.is_at_parent};
ghost use Rattle.domain_answer.specs.Reading.{finding_of, found_cover, found_match, answer_of_list};
ghost use Rattle.domain_answer.specs.Reading.{tells_occluded, usable};
ghost use Rattle.domain_answer.specs.Reading.{wildcard_answer, wildcard_both, CoverShares, IsNameFound};
ghost use Rattle.domain_answer.specs.Reading.{IsNameAnswer};

use crate::found::{NsecFound, find_nsec};
use crate::of_types::{is_meta_type, types_answer, wildcard_types_answer};
use crate::wildcard::wildcard_below;
use crate::{Answer, NameAnswer};
use domain_base::{MAX_NAME, ParsedName, Rtype, ToName};
use domain_chain_rdata::Nsec;
use domain_checker::laws::chains_are_known;
use domain_checker::{NsecRr, is_at_cut, is_strictly_below};
use domain_octets::Octets;
use domain_record::Record;

/// Returns whether the parent zone answers: the type is DS and the name is the apex, but not the
/// root.
pub fn is_at_parent<A: ToName, M: ToName>(apex: &A, name: &M, rtype: Rtype) -> bool
    ensures { result ≡ is_at_parent (A.labels apex.now) (M.labels name.now) rtype }
{
    rtype == Rtype::DS && name.name_eq(apex) && apex.count_labels() > 0
}

/// Returns whether the owner is a zone cut or owns a DNAME record, and the name is at or below it.
fn tells_occluded<A: ToName, O: Octets, N: ToName, M: ToName>(
    apex: &A,
    listed: &NsecRr<O, N>,
    name: &M,
) -> bool
    ensures { result ≡ tells_occluded (A.labels apex.now) (as_link N.labels listed.now)
        (M.labels name.now) }
{
    name.ends_with(listed.owner())
        && (is_at_cut(apex, listed) || listed.data().types().contains(Rtype::DNAME))
}

/// Returns what records say of a name that does not exist, whose closest encloser has `count`
/// labels, given what `find_nsec` found for the wildcard right below the closest encloser.
pub fn judge_found_wildcard<A: ToName, O: Octets, N: ToName>(
    apex: &A,
    found: &NsecFound<'_, O, N>,
    count: usize,
    wildcard: &ParsedName<'_>,
    rtype: Rtype,
) -> Answer
    ensures { result ≡ wildcard_both (A.labels apex.now) count wildcard.now rtype
        (found_match N.labels found.now) (found_cover N.labels found.now) }
{
    match found {
        NsecFound::Match(listed) => {
            let at_cut = is_at_cut(apex, listed);
            wildcard_types_answer(listed.data().types(), at_cut, count, rtype)
        }
        NsecFound::NoMatch(Some(cover)) => {
            let listed = cover.record;
            if tells_occluded(apex, listed, wildcard) {
                return Answer::NoCloserName(count);
            }
            if is_strictly_below(listed.data().next_name(), wildcard) {
                return Answer::WildcardNoData(count);
            }
            Answer::NameError(count)
        }
        NsecFound::NoMatch(None) => Answer::NoCloserName(count),
    }
}

/// Returns what records of an NSEC chain answer to a question about a type and a name that is known
/// not to exist, whose closest encloser has `count` labels. Pass the wildcard right below the
/// closest encloser as `wildcard` (RFC 4035, section 3.1.3.4): the answer is what the records say
/// of it, or `NoCloserName` if they say nothing.
pub fn judge_wildcard<A: ToName, O: Octets, N: ToName>(
    apex: &A,
    chain: &[Record<N, Nsec<O, N>>],
    count: usize,
    wildcard: &ParsedName<'_>,
    rtype: Rtype,
) -> Answer
    ensures { result ≡ wildcard_answer (A.labels apex.now)
        (usable (A.labels apex.now) (links_of N.labels chain.now)) count wildcard.now rtype }
{
    judge_found_wildcard(
        apex,
        &find_nsec(apex, chain, wildcard),
        count,
        wildcard,
        rtype,
    )
}

/// Returns what records say of a name at or below the apex, given what was found for it.
fn name_told<A: ToName, O: Octets, N: ToName, M: ToName>(
    apex: &A,
    found: &NsecFound<'_, O, N>,
    name: &M,
    rtype: Rtype,
) -> NameAnswer
    requires low { is_at_or_below (M.labels name.now) (A.labels apex.now) ≡ true }
    requires shared { CoverShares N.labels (M.labels name.now) found.now }
    ensures { (listed : List Link) → IsNameFound (A.labels apex.now) listed (M.labels name.now)
        (found_match N.labels found.now) (found_cover N.labels found.now)
        → IsNameAnswer (answer_of_list (A.labels apex.now) listed (M.labels name.now) rtype)
        (A.labels apex.now) listed (M.labels name.now) rtype result }
{
    if is_at_parent(apex, name, rtype) {
        return NameAnswer::Given(Answer::AtParent);
    }
    if is_meta_type(rtype) {
        return NameAnswer::Given(Answer::NotProven);
    }
    let cover = match found {
        NsecFound::Match(listed) => {
            let count = listed.owner().count_labels();
            let at_cut = is_at_cut(apex, listed);
            return NameAnswer::Given(types_answer(listed.data().types(), at_cut, count, rtype));
        }
        NsecFound::NoMatch(cover) => cover,
    };
    let Some(cover) = cover else {
        return NameAnswer::Given(Answer::NotProven);
    };
    let listed = cover.record;
    if tells_occluded(apex, listed, name) {
        let count = listed.owner().count_labels();
        if is_at_cut(apex, listed) {
            return NameAnswer::Given(Answer::Referral(count));
        }
        return NameAnswer::Given(Answer::Redirected(count));
    }
    if is_strictly_below(listed.data().next_name(), name) {
        return NameAnswer::Given(Answer::NoData);
    }
    NameAnswer::Absent(cover.shared)
}

/// Returns what records of an NSEC chain answer to a question about a name and a type, without a
/// wildcard. If the name does not exist, call `judge_wildcard` for the wildcard below its closest
/// encloser (RFC 4035, section 3.1.3.4).
pub fn judge_name<A: ToName, O: Octets, N: ToName, M: ToName>(
    apex: &A,
    chain: &[Record<N, Nsec<O, N>>],
    name: &M,
    rtype: Rtype,
) -> NameAnswer
    ensures { IsNameAnswer (answer_of_list (A.labels apex.now)
        (usable (A.labels apex.now) (links_of N.labels chain.now)) (M.labels name.now) rtype)
        (A.labels apex.now) (usable (A.labels apex.now) (links_of N.labels chain.now))
        (M.labels name.now) rtype result }
{
    if !name.ends_with(apex) {
        return NameAnswer::Given(Answer::OutsideZone);
    }
    name_told(apex, &find_nsec(apex, chain, name), name, rtype)
}

/// An answer of NSEC records, with what was found for the names that were looked up.
#[derive(Drop)]
pub struct NsecJudgement<'a, O: Octets, N: ToName> {
    /// The answer.
    pub answer: Answer,
    /// What was found for the name, unless it is outside the zone.
    pub of_name: NsecFound<'a, O, N>,
    /// What was found for the wildcard below the closest encloser, if the name does not exist.
    pub of_wildcard: Option<NsecFound<'a, O, N>>,
}

/// Returns what records of an NSEC chain answer to a question about a name and a type, as
/// `judge_nsec` does, and the records that the answer rests on. If the parent zone answers
/// (`AtParent`), the record of the apex is found too, with which a server of this zone answers (RFC
/// 4035, section 3.1.4.1). Does not allocate, and reads the records at most twice.
pub fn judge_nsec_with_witnesses<'a, A: ToName, O: Octets, N: ToName, M: ToName>(
    apex: &A,
    chain: &'a [Record<N, Nsec<O, N>>],
    name: &M,
    rtype: Rtype,
) -> NsecJudgement<'a, O, N>
    ensures judged { IsJudged (links_of N.labels chain.now) (A.labels apex.now) (M.labels name.now)
        rtype result.answer }
    ensures witnesses { AreNsecWitnesses (links_of N.labels chain.now) (A.labels apex.now)
        (M.labels name.now) result.answer (finding_of N.labels result.of_name)
        (option_map (finding_of N.labels) result.of_wildcard) }
{
    if !name.ends_with(apex) {
        return NsecJudgement {
            answer: Answer::OutsideZone,
            of_name: NsecFound::NoMatch(None),
            of_wildcard: None,
        };
    }
    // By this law what the records say is what they prove, for a type of 16 bits.
    chains_are_known();
    let _number = rtype.to_int();
    let of_name = find_nsec(apex, chain, name);
    let count = match name_told(apex, &of_name, name, rtype) {
        NameAnswer::Given(answer) => {
            return NsecJudgement {
                answer,
                of_name,
                of_wildcard: None,
            };
        }
        NameAnswer::Absent(count) => count,
    };
    let mut buffer = [0; MAX_NAME];
    let wildcard = wildcard_below(&mut buffer, name, count);
    let found = find_nsec(apex, chain, &wildcard);
    NsecJudgement {
        answer: judge_found_wildcard(apex, &found, count, &wildcard, rtype),
        of_name,
        of_wildcard: Some(found),
    }
}

/// Returns what records of an NSEC chain answer to a question about a name and a type (RFC 4035,
/// section 5.4; RFC 6840, sections 4.1, 4.3 and 4.4). Does not allocate, and reads the records at
/// most twice.
///
/// The records may be any of the zone's chain, in any order, with repeats. A record is ignored if
/// its owner or next name is not at or below the apex, or if no zone with this apex can have it:
/// its next name is neither after its owner nor the apex (RFC 4034, section 4.1.1), or it is from a
/// child zone, at a zone cut with SOA among its types (RFC 6840, section 4.4). The first other
/// record that matches a name counts or, if none matches, the first that covers it.
///
/// If a record proves that the name does not exist, the wildcard below its closest encloser is
/// looked up in the same way; without a record of it the answer is `NoCloserName`. If no record
/// matches or covers the name, the answer is `NotProven`. It is `NotProven` too for a type that no
/// record of a zone has (`is_meta_type`): a record that does not list it denies nothing.
///
/// The chain must leave out the names below an owner of a DNAME record, or the zone must have none:
/// such names are no names of the zone (RFC 6672, section 2.4). Signatures are not verified.
pub fn judge_nsec<A: ToName, O: Octets, N: ToName, M: ToName>(
    apex: &A,
    chain: &[Record<N, Nsec<O, N>>],
    name: &M,
    rtype: Rtype,
) -> Answer
    ensures { IsJudged (links_of N.labels chain.now) (A.labels apex.now) (M.labels name.now) rtype
        result }
{
    judge_nsec_with_witnesses(apex, chain, name, rtype).answer
}
