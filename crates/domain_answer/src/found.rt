//! What one pass over NSEC records finds for a name.
ghost use Rattle.std.specs.{Prelude.{◌≡◌, ◌↔◌, None, IfSome, IsTrue}, Option.is_some};
ghost use Rattle.domain_nsec.specs.Chain.{as_link, links_of};
ghost use Rattle.domain_answer.specs.Reading.{cover_link, found_cover, found_match, is_usable, usable};
ghost use Rattle.domain_answer.specs.Reading.{is_usable_cover, is_usable_match};
ghost use Rattle.domain_answer.specs.Reading.{CoverShares, IsNameFound, IsSharing};

use domain_base::{Rtype, ToName};
use domain_checker::{NsecRr, is_at_cut, is_before, is_match, shared_if_covered};
use domain_octets::Octets;

/// A record that covers a name.
#[derive(Drop)]
pub struct NsecCover<'a, O: Octets, N: ToName> {
    /// The record.
    pub record: &'a NsecRr<O, N>,
    /// The larger number of labels that the name shares with the owner and with the next name:
    /// those of the closest encloser, if the name does not exist.
    pub shared: usize,
}

/// What one pass over records finds for a name.
#[derive(Drop)]
pub enum NsecFound<'a, O: Octets, N: ToName> {
    /// The first record that matches the name.
    Match(&'a NsecRr<O, N>),
    /// No record matches the name; this is the first that covers it, if one does.
    NoMatch(Option<NsecCover<'a, O, N>>),
}

impl<'a, O: Octets, N: ToName> NsecFound<'a, O, N> {
    /// Returns whether no record matches or covers the name.
    pub fn is_none(&self) -> bool
        ensures { IsTrue result ↔ ((found_match N.labels self.now ≡ None)
            × (found_cover N.labels self.now ≡ None)) }
    {
        match self {
            NsecFound::Match(_) => false,
            NsecFound::NoMatch(first) => first.is_none(),
        }
    }
}

/// Returns whether a zone with this apex can have the record. Its next name is after its owner or
/// is the apex (RFC 4034, section 4.1.1), and it is not at a zone cut with SOA among its types:
/// such a record is from the apex of a child zone (RFC 6840, section 4.4).
fn is_usable<A: ToName, O: Octets, N: ToName>(apex: &A, listed: &NsecRr<O, N>) -> bool
    ensures { result ≡ is_usable (A.labels apex.now) (as_link N.labels listed.now) }
{
    let next = listed.data().next_name();
    (is_before(listed.owner(), next) || next.name_eq(apex))
        && !(listed.data().types().contains(Rtype::SOA) && is_at_cut(apex, listed))
}

/// Returns whether the record counts, and its owner is the name.
fn is_usable_match<A: ToName, O: Octets, N: ToName, M: ToName>(
    apex: &A,
    listed: &NsecRr<O, N>,
    name: &M,
) -> bool
    ensures { result ≡ is_usable_match (A.labels apex.now) (M.labels name.now)
        (as_link N.labels listed.now) }
{
    is_match(apex, listed, name) && is_usable(apex, listed)
}

/// Returns what `shared_if_covered` does if the record counts, or else None.
fn usable_cover<'a, A: ToName, O: Octets, N: ToName, M: ToName>(
    apex: &A,
    listed: &'a NsecRr<O, N>,
    name: &M,
) -> Option<NsecCover<'a, O, N>>
    ensures covers { is_some result ≡ is_usable_cover (A.labels apex.now) (M.labels name.now)
        (as_link N.labels listed.now) }
    ensures link { IfSome result
        (λ cover. cover_link N.labels cover ≡ as_link N.labels listed.now) }
    ensures shared { IfSome result (IsSharing N.labels (M.labels name.now)) }
{
    let shared = shared_if_covered(apex, listed, name)?;
    if !is_usable(apex, listed) {
        return None;
    }
    Some(NsecCover {
        record: listed,
        shared,
    })
}

/// Returns the first record that matches the name or, if none does, the first that covers it. A
/// record is ignored if its owner or next name is not at or below the apex, or if no zone with this
/// apex can have it (`is_usable`).
#[tactic(auto, using(std::proofs::lemmas::Grind::common_steps, crate::proofs::ChainLemmas::find_usable))]
pub fn find_nsec<'a, A: ToName, O: Octets, N: ToName, M: ToName>(
    apex: &A,
    chain: &'a [NsecRr<O, N>],
    name: &M,
) -> NsecFound<'a, O, N>
    ensures found { IsNameFound (A.labels apex.now)
        (usable (A.labels apex.now) (links_of N.labels chain.now)) (M.labels name.now)
        (found_match N.labels result) (found_cover N.labels result) }
    ensures shared { CoverShares N.labels (M.labels name.now) result }
{
    let mut cover = None;
    for listed in chain {
        if is_usable_match(apex, listed, name) {
            return NsecFound::Match(listed);
        }
        if cover.is_some() {
            continue;
        }
        let Some(found) = usable_cover(apex, listed, name) else {
            continue;
        };
        cover = Some(found);
    }
    NsecFound::NoMatch(cover)
}
