//! What records at places of an NSEC chain say.
ghost use Rattle.std.specs.Prelude.{◌≡◌, ◌<◌, ◌++◌, Some, length, slice_get, IsTrue};
ghost use Rattle.domain_names.specs.Name.{last_labels};
ghost use Rattle.domain_nsec.specs.Chain.{as_link};
ghost use Rattle.domain_answer.specs.{Reading.{usable, usable_reading, IsNameAnswer}, ZoneAnswer.wildcard_below, declared.answer.Answer.TheVariants.NoCloserName};
ghost use Rattle.domain_denier.specs.Picked.{IsOfWildcard, IsSilent, Tells, at_place, MatchesOrCoversInZone};

use crate::owner_keys::OwnerKeys;
use crate::search::{place_of, suggested};
use domain_answer::{
    Answer, NameAnswer, find_nsec, judge_found_wildcard, judge_name, judge_nsec, judge_wildcard,
};
use domain_base::{ParsedName, Rtype, ToName};
use domain_nsec::{BorrowedNsec, NsecChain};

/// Returns the record at a place of the chain.
pub(crate) fn lend_at<'c, N: ToName>(chain: &'c NsecChain<'_, N>, place: usize) -> BorrowedNsec<'c>
    requires { place < length chain.now }
    ensures { slice_get chain.now place ≡ Some (as_link (λ n. n) result) }
{
    let Some(listed) = chain.lend(place) else {
        unreachable!();
    };
    listed
}

/// Returns what the record at a place of the chain answers for a name.
fn judge_one<A: ToName, N: ToName, M: ToName>(
    apex: &A,
    chain: &NsecChain<'_, N>,
    name: &M,
    rtype: Rtype,
    place: usize,
) -> NameAnswer
    requires { place < length chain.now }
    ensures { IsNameAnswer (usable_reading (A.labels apex.now) (at_place chain.now (Some place))
        (M.labels name.now) rtype) (A.labels apex.now)
        (usable (A.labels apex.now) (at_place chain.now (Some place))) (M.labels name.now) rtype
        result }
{
    judge_name(apex, &[lend_at(chain, place)], name, rtype)
}

/// Returns true only if the answer is from a record that matches or covers the name.
fn is_told(answer: NameAnswer) -> bool
    ensures { IsTrue result → Tells answer }
{
    !matches!(
        answer,
        NameAnswer::Given(Answer::OutsideZone | Answer::AtParent | Answer::NotProven)
    )
}

/// Returns the place of the record that matches or covers a name, and what it answers for the name.
/// Tries the place that the keys suggest, and searches if the record there says nothing of the
/// name.
pub(crate) fn first_of<A: ToName, N: ToName, M: ToName>(
    apex: &A,
    chain: &NsecChain<'_, N>,
    keys: Option<&OwnerKeys>,
    name: &M,
    rtype: Rtype,
) -> (usize, NameAnswer)
    requires some { 0 < length chain.now }
    ensures inside { result.0 < length chain.now }
    ensures found { MatchesOrCoversInZone chain.now result.0 (M.labels name.now) }
    ensures exact { IsNameAnswer (usable_reading (A.labels apex.now)
        (at_place chain.now (Some result.0)) (M.labels name.now) rtype) (A.labels apex.now)
        (usable (A.labels apex.now) (at_place chain.now (Some result.0))) (M.labels name.now) rtype
        result.1 }
{
    if let Some(place) = suggested(chain, keys, name, None) {
        let answer = judge_one(apex, chain, name, rtype, place);
        if is_told(answer) {
            return (place, answer);
        }
    }
    let place = place_of(chain, keys, name);
    (place, judge_one(apex, chain, name, rtype, place))
}

/// What a record that denies a name says of the wildcard below the name's closest encloser.
#[derive(Clone, Copy)]
pub(crate) enum OfWildcard {
    /// The record matches or covers the wildcard too, and this is the answer.
    Told(Answer),
    /// The record says nothing of the wildcard. True only if it neither matches nor covers it.
    Untold(bool),
}

/// Returns what the record at a place says of the wildcard below the closest encloser of a name,
/// which has `count` labels.
pub(crate) fn of_wildcard<A: ToName, N: ToName>(
    apex: &A,
    chain: &NsecChain<'_, N>,
    rtype: Rtype,
    wildcard: &ParsedName<'_>,
    count: usize,
    place: usize,
) -> OfWildcard
    requires { place < length chain.now }
    ensures { IsOfWildcard (A.labels apex.now)
        (usable (A.labels apex.now) (at_place chain.now (Some place))) count wildcard.now rtype
        result }
{
    let records = [lend_at(chain, place)];
    let found = find_nsec(apex, &records, wildcard);
    if found.is_none() {
        return OfWildcard::Untold(true);
    }
    match judge_found_wildcard(apex, &found, count, wildcard, rtype) {
        Answer::NoCloserName(_) => OfWildcard::Untold(false),
        answer => OfWildcard::Told(answer),
    }
}

/// Returns the place of the record that matches or covers the wildcard below the closest encloser
/// of a name, and what this record and the first one say of the name. The closest encloser has
/// `count` labels. The first record denies the name. If the first does not match or cover the
/// wildcard, what the suggested record says of the wildcard is the answer of both.
pub(crate) fn second_of<A: ToName, N: ToName, M: ToName>(
    apex: &A,
    chain: &NsecChain<'_, N>,
    keys: Option<&OwnerKeys>,
    name: &M,
    rtype: Rtype,
    wildcard: &ParsedName<'_>,
    count: usize,
    first: usize,
    is_silent: bool,
) -> (usize, Answer)
    requires first { first < length chain.now }
    requires denies { usable_reading (A.labels apex.now) (at_place chain.now (Some first))
        (M.labels name.now) rtype ≡ NoCloserName count }
    requires silent { IsTrue is_silent → IsSilent (A.labels apex.now)
        (usable (A.labels apex.now) (at_place chain.now (Some first))) wildcard.now }
    requires wildcard { wildcard.now ≡ wildcard_below (last_labels count (M.labels name.now)) }
    ensures inside { result.0 < length chain.now }
    ensures found { MatchesOrCoversInZone chain.now result.0 wildcard.now }
    ensures exact { result.1 ≡ usable_reading (A.labels apex.now)
        (at_place chain.now (Some first) ++ at_place chain.now (Some result.0)) (M.labels name.now)
        rtype }
{
    if is_silent {
        if let Some(near) = suggested(chain, keys, wildcard, Some(count)) {
            let listed = lend_at(chain, near);
            if !listed.owner().name_eq(name) {
                match judge_wildcard(apex, &[listed], count, wildcard, rtype) {
                    Answer::NoCloserName(_) => {}
                    answer => return (near, answer),
                }
            }
        }
    }
    let second = place_of(chain, keys, wildcard);
    let both = [lend_at(chain, first), lend_at(chain, second)];
    (second, judge_nsec(apex, &both, name, rtype))
}
