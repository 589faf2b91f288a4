//! The picked records that a response needs, by its answer.
ghost use Rattle.std.specs.{Prelude.{◌≡◌}, Option.option_map};
ghost use Rattle.domain_denier.specs.Needed.{hashed_needed, lists_ds, needed, needs_cover, needs_match, place_if};
ghost use Rattle.domain_denier.specs.Picked.{link_at};

use crate::judged::lend_at;
use crate::nsec3::lend_at as lend_hashed_at;
use crate::{Nsec3Denial, NsecDenial};
use domain_answer::{Needs, needs_of, needs_wildcard_record};
use domain_base::{Rtype, ToName};
use domain_nsec::NsecChain;
use domain_nsec3::Nsec3Chain;
use domain_octets::Octets;

/// Returns the place, if it is wanted.
fn place_if(wanted: bool, place: Option<usize>) -> Option<usize>
    ensures { result ≡ place_if wanted place }
{
    if wanted { place } else { None }
}

/// Returns whether the record that matches the name or its closest encloser is needed. `signed`
/// says whether it lists DS: that of such a zone cut is not needed.
fn needs_match(needs: Needs, signed: bool) -> bool
    ensures { result ≡ needs_match needs signed }
{
    match needs {
        Needs::Nothing | Needs::Closer => false,
        Needs::Cut => !signed,
        Needs::Own | Needs::Both => true,
    }
}

/// Returns whether the record that covers the name, or with NSEC3 the next closer name, is needed.
fn needs_cover(needs: Needs) -> bool
    ensures { result ≡ needs_cover needs }
{
    match needs {
        Needs::Closer | Needs::Both => true,
        Needs::Nothing | Needs::Cut | Needs::Own => false,
    }
}

/// Returns whether there is a record at the place of the chain, and it lists DS.
#[tactic(auto, using(std::proofs::lemmas::Grind::common_steps))]
fn lists_ds<N: ToName>(chain: &NsecChain<'_, N>, place: Option<usize>) -> bool
    ensures { result ≡ lists_ds (option_map (λ k. k.bits) (link_at chain.now place)) }
{
    let Some(place) = place else {
        return false;
    };
    if place >= chain.len() {
        return false;
    }
    lend_at(chain, place).data().types().contains(Rtype::DS)
}

/// Returns whether there is a record at the place of the NSEC3 chain, and it lists DS.
#[tactic(auto, using(std::proofs::lemmas::Grind::common_steps))]
fn hashed_lists_ds<O: Octets>(chain: &Nsec3Chain<'_, O>, place: Option<usize>) -> bool
    ensures { result ≡ lists_ds (option_map (λ k. k.bits) (link_at chain.now.links place)) }
{
    let Some(place) = place else {
        return false;
    };
    if place >= chain.len() {
        return false;
    }
    lend_hashed_at(chain, place)
        .data()
        .types()
        .contains(Rtype::DS)
}

impl NsecDenial {
    /// Returns the denial with the places of the records alone that a response needs, by its
    /// answer (RFC 4035, section 3.1.3). Pass the chain from which they were picked. A response
    /// needs:
    ///
    /// - both, for a name error or a wildcard without data;
    /// - only the first, for no data, for DS at the apex, for an unsigned delegation (`NoDs`), or
    ///   if the answer was expanded from a wildcard;
    /// - only the first for a referral, unless the zone cut has DS records;
    /// - none, for a positive answer or a redirection.
    pub fn needed<N: ToName>(&self, chain: &NsecChain<'_, N>) -> NsecDenial
        ensures { result ≡ needed chain.now self.now }
    {
        let needs = needs_of(self.answer);
        let is_needed = needs_match(needs, lists_ds(chain, self.of_name)) || needs_cover(needs);
        NsecDenial {
            answer: self.answer,
            of_name: place_if(is_needed, self.of_name),
            of_wildcard: place_if(needs_wildcard_record(self.answer), self.of_wildcard),
        }
    }
}

impl Nsec3Denial {
    /// Returns the denial with the places of the records alone that a response needs, by its
    /// answer (RFC 5155, section 7.2). Pass the chain from which they were picked. A response
    /// needs:
    ///
    /// - all that were picked, for a name error or a wildcard without data (sections 7.2.2 and
    ///   7.2.5), for no data, for an unsigned delegation (`NoDs`), or for DS at the apex;
    /// - only that of the next closer name, if the answer was expanded from a wildcard (section
    ///   7.2.6);
    /// - only that of the zone cut for a referral, unless it has DS records;
    /// - none, for a positive answer or a redirection.
    ///
    /// For `MayBeUnsigned` all are kept. The zone's own data say which response is due: a referral
    /// to a delegation that was left out of the chain, or the answer to a question for its DS
    /// records, needs no record of the wildcard (sections 7.2.7 and 7.2.4).
    pub fn needed<O: Octets>(&self, chain: &Nsec3Chain<'_, O>) -> Nsec3Denial
        ensures { result ≡ hashed_needed chain.now.links self.now }
    {
        let needs = needs_of(self.answer);
        let signed = hashed_lists_ds(chain, self.of_encloser);
        Nsec3Denial {
            answer: self.answer,
            of_encloser: place_if(needs_match(needs, signed), self.of_encloser),
            of_next_closer: place_if(needs_cover(needs), self.of_next_closer),
            of_wildcard: place_if(needs_wildcard_record(self.answer), self.of_wildcard),
        }
    }
}
