//! What records of an NSEC chain say and prove, as a list or one by one.
ghost use Rattle.std.specs.{Prelude.{◌≡◌, ℕ, List, [], ◌∷◌, ◌++◌, IfSome, length}, Option.is_some};
ghost use Rattle.domain_names.specs.Name.{is_strictly_below, before, common_labels, Name};
ghost use Rattle.domain_zone.specs.{Covering.covers, Enclosers.{longer, shared}};
ghost use Rattle.domain_nsec.specs.Chain.{Link, as_link, links_of};
ghost use Rattle.domain_checker.specs.{Reading.{is_at_cut, is_cover, is_match}, Verdict.is_inside};
ghost use Rattle.domain_checker.specs.Reading.{cover_verdict, match_verdict, HasRead, IsChecked};

use crate::{Verdict, laws};
use domain_base::{ParsedName, Rtype, ToName};
use domain_chain_rdata::Nsec;
use domain_octets::Octets;
use domain_record::Record;

/// An NSEC record (RFC 4034, section 4).
pub type NsecRr<O, N> = Record<N, Nsec<O, N>>;

/// Returns whether the owner and the next name are at or below the apex.
pub fn is_inside<A: ToName, O: Octets, N: ToName>(apex: &A, listed: &NsecRr<O, N>) -> bool
    ensures { result ≡ is_inside (A.labels apex.now) (as_link N.labels listed.now) }
{
    listed.owner().ends_with(apex) && listed.data().next_name().ends_with(apex)
}

/// Returns whether the owner is a zone cut.
pub fn is_at_cut<A: ToName, O: Octets, N: ToName>(apex: &A, listed: &NsecRr<O, N>) -> bool
    ensures { result ≡ is_at_cut (A.labels apex.now) (as_link N.labels listed.now) }
{
    listed.data().types().contains(Rtype::NS) && !listed.owner().name_eq(apex)
}

/// Returns whether the name comes before another in canonical order.
pub fn is_before<N: ToName, M: ToName>(name: &N, other: &M) -> bool
    ensures { result ≡ before (N.labels name.now) (M.labels other.now) }
{
    name.name_cmp(other).is_lt()
}

/// Returns whether the name is below another, and not the same.
pub fn is_strictly_below<N: ToName, M: ToName>(name: &N, above: &M) -> bool
    ensures { result ≡ is_strictly_below (N.labels name.now) (M.labels above.now) }
{
    name.ends_with(above) && !name.name_eq(above)
}

/// The numbers of labels that a name shares with the owner and with the next name of a record.
#[derive(Clone, Copy)]
struct Shares {
    owner: usize,
    next: usize,
}

/// Returns how many labels the name shares with the owner and with the next name if these two cover
/// it, or else None. They cover a name between the two or, if the next name is not after the owner,
/// on either side of them.
#[tactic(auto, using(crate::proofs::MeantLemmas::covers_is, std::proofs::lemmas::Grind::common_steps))]
fn covered<N: ToName, M: ToName>(owner: &N, next: &N, name: &M) -> Option<Shares>
    ensures covers { is_some result
        ≡ covers before (N.labels owner.now) (N.labels next.now) (M.labels name.now) }
    ensures owner { IfSome result
        (λ shares. shares.owner ≡ common_labels (M.labels name.now) (N.labels owner.now)) }
    ensures next { IfSome result
        (λ shares. shares.next ≡ common_labels (M.labels name.now) (N.labels next.now)) }
{
    let from_owner = name.compare(owner);
    let is_after = from_owner.order.is_gt();
    if from_owner.order.is_eq() || (!is_after && is_before(owner, next)) {
        return None;
    }
    let from_next = name.compare(next);
    if from_next.order.is_lt() || (is_after && !is_before(owner, next)) {
        return Some(Shares {
            owner: from_owner.common,
            next: from_next.common,
        });
    }
    None
}

/// Returns whether the owner and the next name are at or below the apex, given what a name shares
/// with them. For a name at or below the apex, each must share as many labels as the apex has.
#[tactic(auto, using(crate::proofs::MeantLemmas::below_by_shared, crate::proofs::MeantLemmas::below_is))]
fn shares_apex<A: ToName, O: Octets, N: ToName, M: ToName>(
    apex: &A,
    listed: &NsecRr<O, N>,
    name: &M,
    shares: Shares,
) -> bool
    requires owner { shares.owner
        ≡ common_labels (M.labels name.now) (as_link N.labels listed.now).owner }
    requires next { shares.next
        ≡ common_labels (M.labels name.now) (as_link N.labels listed.now).next }
    ensures { result ≡ is_inside (A.labels apex.now) (as_link N.labels listed.now) }
{
    if !name.ends_with(apex) {
        return is_inside(apex, listed);
    }
    let count = apex.count_labels();
    shares.owner >= count && shares.next >= count
}

/// Returns whether the record is not ignored, and its owner is the name.
#[tactic(auto, using(domain_zone::proofs::NameLemmas::same_is))]
pub fn is_match<A: ToName, O: Octets, N: ToName, M: ToName>(
    apex: &A,
    listed: &NsecRr<O, N>,
    name: &M,
) -> bool
    ensures { result ≡ is_match (A.labels apex.now) (M.labels name.now)
        (as_link N.labels listed.now) }
{
    listed.owner().name_eq(name) && is_inside(apex, listed)
}

/// Returns how many labels the closest encloser of a name has, if the name does not exist: the
/// larger number of labels that the name shares with the owner and with the next name. None if the
/// record is ignored or does not cover the name.
#[tactic(auto, using(crate::proofs::MeantLemmas::longer_is))]
pub fn shared_if_covered<A: ToName, O: Octets, N: ToName, M: ToName>(
    apex: &A,
    listed: &NsecRr<O, N>,
    name: &M,
) -> Option<usize>
    ensures covers { is_some result
        ≡ is_cover (A.labels apex.now) (M.labels name.now) (as_link N.labels listed.now) }
    ensures shared { IfSome result (λ count. count
        ≡ length (longer (shared (M.labels name.now) (as_link N.labels listed.now).owner)
        (shared (M.labels name.now) (as_link N.labels listed.now).next))) }
{
    let shares = covered(listed.owner(), listed.data().next_name(), name)?;
    if !shares_apex(apex, listed, name, shares) {
        return None;
    }
    Some(shares.owner.max(shares.next))
}

/// Returns what a record says of its owner.
fn match_verdict<A: ToName, O: Octets, N: ToName>(
    apex: &A,
    listed: &NsecRr<O, N>,
    rtype: Rtype,
) -> Verdict
    ensures { result ≡ match_verdict (A.labels apex.now) (as_link N.labels listed.now) rtype }
{
    if listed.data().types().contains(rtype) {
        return Verdict::Has;
    }
    if is_at_cut(apex, listed) && rtype != Rtype::DS {
        return Verdict::BelowDelegation;
    }
    Verdict::NoType
}

/// Returns what a record says of a name that it covers. `count` is the larger number of labels that
/// the name shares with the owner and with the next name.
fn cover_verdict<A: ToName, O: Octets, N: ToName, M: ToName>(
    apex: &A,
    listed: &NsecRr<O, N>,
    name: &M,
    count: usize,
) -> Verdict
    requires { count
        ≡ length (longer (shared (M.labels name.now) (as_link N.labels listed.now).owner)
        (shared (M.labels name.now) (as_link N.labels listed.now).next)) }
    ensures { result ≡ cover_verdict (A.labels apex.now) (as_link N.labels listed.now)
        (M.labels name.now) }
{
    if name.ends_with(listed.owner()) && is_at_cut(apex, listed) {
        return Verdict::BelowDelegation;
    }
    if is_strictly_below(listed.data().next_name(), name) {
        return Verdict::EmptyName;
    }
    Verdict::NoName(count)
}

/// Returns what records of an NSEC chain prove about a name and a type (RFC 4035, section 5.4).
/// Does not allocate.
///
/// The records may be any of the zone's chain, in any order, with repeats. A record is ignored if
/// its owner or next name is not at or below the apex. The first record that matches the name
/// counts or, if none matches, the first that covers it. With neither, the verdict on a name at or
/// below the apex is `NotProven`. If a name has no records of its own, a wildcard may answer for
/// it: check that wildcard too.
///
/// The chain is one of `domain_nsec` that keeps the names below a DNAME. Signatures are not
/// verified.
///
/// Some verdicts alone are no denial:
///
/// - `NoType` is none if the name owns a CNAME record, which answers in place of the type. Check
///   CNAME too: it must not be `Has` (RFC 6840, section 4.3).
/// - `NoName` and `EmptyName` are none if a name above this one owns a DNAME record, which
///   redirects all names below it. Check DNAME at each name above that is at or below the apex:
///   none may be `Has` (RFC 6840, section 4.1).
#[tactic(auto, using(std::proofs::lemmas::Grind::common_steps, std::proofs::lemmas::List::take_all))]
pub fn check_nsec<A: ToName, O: Octets, N: ToName, M: ToName>(
    apex: &A,
    chain: &[Record<N, Nsec<O, N>>],
    name: &M,
    rtype: Rtype,
) -> Verdict
    ensures { IsChecked (links_of N.labels chain.now) (A.labels apex.now) (M.labels name.now) rtype
        result }
{
    let mut check = NsecCheck::new(apex, name, rtype);
    for listed in chain {
        check.add(listed);
    }
    check.verdict()
}

/// A check of a name and a type, for NSEC records that are passed one by one, as they are read from
/// a message (RFC 4035, section 5.4). Keeps none of the records, and does not allocate.
#[derive(Drop)]
pub struct NsecCheck<'a> {
    apex: ParsedName<'a>,
    name: ParsedName<'a>,
    rtype: Rtype,
    matched: Option<Verdict>,
    covered: Option<Verdict>,
}

impl<'a> NsecCheck<'a> {
    /// Returns a check that has read no records yet.
    pub fn new<A: ToName, M: ToName>(apex: &'a A, name: &'a M, rtype: Rtype) -> Self
        ensures { HasRead (A.labels apex.now) (M.labels name.now) rtype [] result }
    {
        NsecCheck {
            apex: apex.as_parsed(),
            name: name.as_parsed(),
            rtype,
            matched: None,
            covered: None,
        }
    }

    /// Reads a record, after those that were added before.
    #[tactic(auto, using(crate::proofs::MeantLemmas::found_stays, crate::proofs::MeantLemmas::found_last, crate::proofs::MeantLemmas::found_before))]
    pub fn add<O: Octets, N: ToName>(&mut self, listed: &Record<N, Nsec<O, N>>)
        ensures { (a x : Name) (t : ℕ) (before : List Link) → HasRead a x t before self.old
            → HasRead a x t (before ++ as_link N.labels listed.now ∷ []) self.new }
    {
        if self.matched.is_some() {
            return;
        }
        if is_match(&self.apex, listed, &self.name) {
            self.matched = Some(match_verdict(&self.apex, listed, self.rtype));
            return;
        }
        if self.covered.is_some() {
            return;
        }
        if let Some(count) = shared_if_covered(&self.apex, listed, &self.name) {
            self.covered = Some(cover_verdict(&self.apex, listed, &self.name, count));
        }
    }

    /// Returns what the records that were added prove: the verdict of `check_nsec` on their list.
    pub fn verdict(&self) -> Verdict
        ensures { (a x : Name) (t : ℕ) (listed : List Link) → HasRead a x t listed self.now
            → IsChecked listed a x t result }
    {
        // By this law what the records say is what they prove, for a type of 16 bits.
        laws::readings_are_proved();
        let _number = self.rtype.to_int();
        if !self.name.ends_with(&self.apex) {
            return Verdict::OutsideZone;
        }
        self.matched.or(self.covered).unwrap_or(Verdict::NotProven)
    }
}
