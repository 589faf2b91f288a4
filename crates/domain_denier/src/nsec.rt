//! Picks records of an NSEC chain.
ghost use Rattle.std.specs.Prelude.{◌≡◌, ◌↔◌, [], None, Some, IfOk, IsTrue};
ghost use Rattle.domain_answer.specs.{Reading.usable_reading, declared.answer.{Answer.TheVariants.OutsideZone, NameAnswer.TheVariants.Given}};
ghost use Rattle.domain_denier.specs.Picked.{IsDenial};

use crate::judged::{OfWildcard, first_of, of_wildcard, second_of};
use crate::owner_keys::OwnerKeys;
use domain_answer::{Answer, NameAnswer, judge_nsec, laws, wildcard_of};
use domain_base::{MAX_NAME, ParsedName, Rtype, ToName};
use domain_checker::laws::chains_are_known;
use domain_nsec::NsecChain;
use domain_octets::OutOfMemory;
use std::alloc::Global;
use std::marker::Model;

/// What a zone answers to a question, and the places of the records of its NSEC chain that prove it
/// (`NsecChain::lend`).
#[derive(Clone, Copy, Debug, PartialEq, Eq)]
pub struct NsecDenial {
    /// What the zone says of the name and the type.
    pub answer: Answer,
    /// The record that matches or covers the name. None if the name is outside the zone.
    pub of_name: Option<usize>,
    /// The record that matches or covers the wildcard below the closest encloser, if the name does
    /// not exist and the first record does not match or cover the wildcard too.
    pub of_wildcard: Option<usize>,
}

/// Returns the answer that needs no records, and no records.
fn judge_none<A: ToName, M: ToName>(apex: &A, name: &M, rtype: Rtype) -> NsecDenial
    ensures answer { result.answer
        ≡ usable_reading (A.labels apex.now) [] (M.labels name.now) rtype }
    ensures name { result.of_name ≡ None }
    ensures wildcard { result.of_wildcard ≡ None }
{
    let answer = judge_nsec::<A, &[u8], ParsedName<'_>, M>(apex, &[], name, rtype);
    NsecDenial {
        answer,
        of_name: None,
        of_wildcard: None,
    }
}

/// Returns whether the answer is that a name is outside the zone.
fn is_outside(answer: NameAnswer) -> bool
    ensures { IsTrue result ↔ (answer ≡ Given OutsideZone) }
{
    matches!(answer, NameAnswer::Given(Answer::OutsideZone))
}

/// Picks records of a chain, by its keys if there are some: the record of the name and, if that
/// denies the name, the record of the wildcard below its closest encloser, unless it is the same.
fn pick<A: ToName, N: ToName, M: ToName>(
    apex: &A,
    chain: &NsecChain<'_, N>,
    keys: Option<&OwnerKeys>,
    name: &M,
    rtype: Rtype,
) -> NsecDenial
    ensures { IsDenial chain.now (A.labels apex.now) (M.labels name.now) rtype result }
{
    // By these laws what the records say is what the zone says, for a type of 16 bits.
    laws::readings_are_proved();
    chains_are_known();
    let _number = rtype.to_int();
    if chain.is_empty() {
        return judge_none(apex, name, rtype);
    }
    let (place, answer) = first_of(apex, chain, keys, name, rtype);
    if is_outside(answer) {
        return judge_none(apex, name, rtype);
    }
    let count = match answer {
        NameAnswer::Given(answer) => {
            return NsecDenial {
                answer,
                of_name: Some(place),
                of_wildcard: None,
            };
        }
        NameAnswer::Absent(count) => count,
    };
    let mut buffer = [0; MAX_NAME];
    let Some(wildcard) = wildcard_of(&mut buffer, name, count) else {
        unreachable!();
    };
    match of_wildcard(apex, chain, rtype, &wildcard, count, place) {
        OfWildcard::Told(answer) => NsecDenial {
            answer,
            of_name: Some(place),
            of_wildcard: None,
        },
        OfWildcard::Untold(is_silent) => {
            let (second, answer) = second_of(
                apex, chain, keys, name, rtype, &wildcard, count, place, is_silent,
            );
            NsecDenial {
                answer,
                of_name: Some(place),
                of_wildcard: Some(second),
            }
        }
    }
}

/// Returns the records of an NSEC chain with which a server answers a question about a name and a
/// type (RFC 4035, section 3.1.3), and what they prove: at most two, without repeats.
///
/// The first record matches or covers the name. If it proves that the name does not exist, the
/// second matches or covers the wildcard below the closest encloser, unless the first does that
/// too. `NsecDenial::needed` says which of them a response needs, by its answer. A name outside the
/// zone has none.
///
/// The chain must leave out the names below an owner of a DNAME record, or the zone must have none
/// (RFC 6672, section 2.4). Does not allocate, and compares about twenty names for a chain of a
/// million. For many questions, make an `NsecDenier`.
pub fn deny_nsec<A: ToName, N: ToName, M: ToName>(
    apex: &A,
    chain: &NsecChain<'_, N>,
    name: &M,
    rtype: Rtype,
) -> NsecDenial
    ensures { IsDenial chain.now (A.labels apex.now) (M.labels name.now) rtype result }
{
    pick(apex, chain, None, name, rtype)
}

/// The NSEC chain of a zone, prepared for many questions. Contracts see the links of the chain. It
/// borrows the chain, and keeps 9 octets for each record: the first letters of its owner as a
/// number, all in one list. So a search reads no name; only the owner where it ends is compared
/// with the name, if no other owner begins with the same letters.
#[derive(Drop)]
pub struct NsecDenier<'c, 'a, N: ToName> {
    chain: &'c NsecChain<'a, N>,
    keys: OwnerKeys,
}

impl<'c, 'a, N: ToName> Model for NsecDenier<'c, 'a, N> {
    ghost use Rattle.std.specs.Prelude.{List};
    ghost use Rattle.domain_nsec.specs.Chain.{Link};

    ghost Value = { List Link };

    ghost view = { λ d. d.chain.now };
}

impl<'c, 'a, N: ToName> NsecDenier<'c, 'a, N> {
    /// Makes a number for each owner of the chain.
    ///
    /// # Errors
    ///
    /// `OutOfMemory` if there is no memory for 9 octets a record.
    pub fn new(alloc: Global, chain: &'c NsecChain<'a, N>) -> Result<Self, OutOfMemory>
        ensures { IfOk result (λ denier. denier ≡ chain.now) }
    {
        let keys = OwnerKeys::of(alloc, chain)?;
        Ok(NsecDenier { chain, keys })
    }

    /// Returns the chain.
    pub fn chain(&self) -> &'c NsecChain<'a, N>
        ensures { result.now ≡ self.now }
    {
        self.chain
    }

    /// Returns the records of the chain with which a server answers a question about a name and a
    /// type, and what they prove: those of `deny_nsec`, with fewer comparisons of names. Does not
    /// allocate.
    pub fn deny<A: ToName, M: ToName>(&self, apex: &A, name: &M, rtype: Rtype) -> NsecDenial
        ensures { IsDenial self.now (A.labels apex.now) (M.labels name.now) rtype result }
    {
        pick(apex, self.chain, Some(&self.keys), name, rtype)
    }
}
