//! What NSEC3 records answer to a question, and what they say of the names that the answer rests
//! on.
ghost use Rattle.std.specs.{Prelude.{◌≡◌, None, Some, Ok, IfErr, IfOk}, Option.option_map};
ghost use Rattle.domain_nsec3.specs.View.{as_hashed_link, as_param_record};
ghost use Rattle.domain_checker.specs.HashedReading.{encloser_of, found_hash_cover, found_hash_match};
ghost use Rattle.domain_checker.specs.HashedVerdict.{IsFirstRefusal};
ghost use Rattle.domain_answer.specs.{HashedReading.hashed_finding_of, Judged.{AreHashedWitnesses, IsHashedJudged}};
ghost use Rattle.domain_answer.specs.declared.answer.Answer.TheVariants.{AtParent};
ghost use Rattle.denial_program.specs.declared.fault.DenialFault.TheVariants.{OutOfMemory as Memory};
ghost use Rattle.judge_program.specs.Judged.{asked_records, IsRefusalAsked, IsRefusedWith, IsNsec3Telling};
ghost use Rattle.domain_answer.specs.Needs.{wildcard_count};
ghost use Rattle.judge_program.specs.Told.{shows_records, closer_told, encloser_role};
ghost use Rattle.judge_program.specs.Told.{encloser_told, finding, nsec3_told, telling_of, tellings_of};
ghost use Rattle.judge_program.specs.Told.{told_where, told_wildcard, wildcard_asked};
ghost use Rattle.judge_program.specs.Told.{wildcard_or_found, AreNsec3Told};
ghost use Rattle.judge_program.specs.Told.{AreWhole, AnyLink.hashed};

use crate::command::Nsec3Options;
use crate::needs::{needs_next_closer, shows_records};
use crate::role::Role;
use crate::shown::Shown;
use crate::told::{Listed, Part, Parts};
use denial_program::{DenialFault, Question, ZoneName};
use domain_answer::{
    Answer, Nsec3Expansion, Nsec3Judgement, Nsec3Limits, judge_nsec3_expansion_with_witness,
    judge_nsec3_with_witnesses, wildcard_count, wildcard_of,
};
use domain_base::{MAX_NAME, ParsedName, ToName};
use domain_borrowed::{ReadNsec3, ReadNsec3param};
use domain_checker::{Nsec3Encloser, Nsec3Found, Nsec3Index};
use domain_hasher::{Nsec3HashError, Nsec3Hasher};
use std::alloc::Global;

/// What NSEC3 records say of the closest encloser of a name.
type Encloser<'r, 'a> = Nsec3Encloser<'r, &'a [u8], ParsedName<'a>>;

/// What NSEC3 records say of a name.
type Found<'r, 'a> = Nsec3Found<'r, &'a [u8], ParsedName<'a>>;

/// An answer, with what was found for the names that were looked up.
type Judged<'r, 'a> = Nsec3Judgement<'r, &'a [u8], ParsedName<'a>>;

/// An answer, with the records to print below it.
#[derive(Drop)]
pub struct Told<'r, 'a> {
    /// The answer.
    pub answer: Answer,
    /// The records, if they are to be printed.
    pub parts: Option<Parts<'r, 'a>>,
}

/// A question to NSEC3 records, with the records and the hasher.
#[derive(Clone, Copy)]
pub struct Inquiry<'i, 'r, 'a, H: Nsec3Hasher> {
    /// The allocator.
    pub alloc: Global,
    /// The question.
    pub question: &'r Question,
    /// The NSEC3PARAM record.
    pub nsec3param: &'r ReadNsec3param<'a>,
    /// The index of the records.
    pub index: &'i Nsec3Index<'r, &'a [u8], ParsedName<'a>>,
    /// The hasher.
    pub hasher: &'r H,
}

/// Returns the part of a record that covers a name, if one does.
fn cover_part<'r, 'a>(role: Role<'r>, cover: Option<&'r ReadNsec3<'a>>) -> Option<Part<'r, 'a>>
    ensures { option_map telling_of result ≡ finding hashed role.entry None
        (option_map (λ k. as_hashed_link (λ n. n) k.now) cover.entry) }
{
    let nsec3 = cover?;
    Some(Part {
        role,
        matches: false,
        listed: Listed::Nsec3(nsec3),
    })
}

/// Returns the record that was found for a name.
fn part_of<'r, 'a>(role: Role<'r>, found: Found<'r, 'a>) -> Option<Part<'r, 'a>>
    ensures { option_map telling_of result ≡ finding hashed role.entry
        (found_hash_match (λ n. n) found.entry) (found_hash_cover (λ n. n) found.entry) }
{
    match found {
        Nsec3Found::Match(nsec3) => Some(Part {
            role,
            matches: true,
            listed: Listed::Nsec3(nsec3),
        }),
        Nsec3Found::NoMatch(cover) => cover_part(role, cover),
    }
}

/// Returns the record that was found for the wildcard below the closest encloser of a name.
fn wildcard_part<'r, 'a>(
    name: &'r ZoneName,
    answer: Answer,
    found: Found<'r, 'a>,
) -> Option<Part<'r, 'a>>
    ensures { option_map telling_of result ≡ told_wildcard hashed name.now (wildcard_count answer)
        (Some (hashed_finding_of (λ n. n) found.entry)) }
{
    let count = wildcard_count(answer)?;
    part_of(Role::Wildcard(name.last_labels(count)), found)
}

/// Returns the name that is matched: the one in the question, or its closest encloser, which has
/// `count` labels.
fn encloser_role(name: &ZoneName, count: usize) -> Role<'_>
    ensures { result ≡ encloser_role name.now count }
{
    if count == name.count_labels() {
        return Role::Asked;
    }
    Role::Encloser(name.last_labels(count))
}

/// Returns what was found of the closest encloser of a name.
fn encloser_part<'r, 'a>(
    name: &'r ZoneName,
    found: &Option<Encloser<'r, 'a>>,
) -> Option<Part<'r, 'a>>
    ensures { option_map telling_of result
        ≡ encloser_told name.now (option_map (encloser_of (λ n. n)) found.now) }
{
    let Some(encloser) = found else {
        return None;
    };
    Some(Part {
        role: encloser_role(name, encloser.count),
        matches: true,
        listed: Listed::Nsec3(encloser.matching),
    })
}

/// Returns what was found of the next closer name, if the answer rests on that.
fn closer_part<'r, 'a>(
    name: &'r ZoneName,
    answer: Answer,
    found: &Option<Encloser<'r, 'a>>,
) -> Option<Part<'r, 'a>>
    ensures { option_map telling_of result
        ≡ closer_told name.now answer (option_map (encloser_of (λ n. n)) found.now) }
{
    let Some(encloser) = found else {
        return None;
    };
    if !needs_next_closer(answer) {
        return None;
    }
    let labels = encloser.count.min(name.count_labels()) + 1;
    cover_part(Role::NextCloser(name.last_labels(labels)), encloser.cover)
}

impl<'i, 'r, 'a, H: Nsec3Hasher> Inquiry<'i, 'r, 'a, H> {
    /// Returns what the records say of the wildcard below the closest encloser, if the answer is
    /// about a name that no record matches. None too if the hasher fails for it.
    fn find_wildcard(&self, answer: Answer) -> Result<Option<Part<'r, 'a>>, DenialFault>
        ensures ok { IfOk result (λ part. option_map telling_of part
            ≡ told_where (nsec3_told (asked_records H.answer self.now))
            (wildcard_asked self.now.question.now.name (wildcard_count answer))) }
        ensures err { IfErr result (λ e. e ≡ Memory) }
    {
        let name = &self.question.name;
        let Some(count) = wildcard_count(answer) else {
            return Ok(None);
        };
        if count >= name.count_labels() {
            return Ok(None);
        }
        let mut buffer = [0; MAX_NAME];
        let Some(wildcard) = wildcard_of(&mut buffer, name, count) else {
            return Ok(None);
        };
        match self.index.find_name(self.alloc, &wildcard, self.hasher) {
            Ok(found) => Ok(part_of(Role::Wildcard(name.last_labels(count)), found)),
            Err(Nsec3HashError::OutOfMemory) => Err(DenialFault::OutOfMemory),
            Err(_) => Ok(None),
        }
    }

    /// Returns what was found for the wildcard or, if it was not looked up, looks it up.
    fn wildcard(
        &self,
        answer: Answer,
        found: Option<Found<'r, 'a>>,
    ) -> Result<Option<Part<'r, 'a>>, DenialFault>
        ensures ok { IfOk result (λ part. option_map telling_of part
            ≡ wildcard_or_found (asked_records H.answer self.now) self.now.question.now.name answer
            (option_map (hashed_finding_of (λ n. n)) found.entry)) }
        ensures err { IfErr result (λ e. e ≡ Memory) }
    {
        match found {
            Some(found) => Ok(wildcard_part(&self.question.name, answer, found)),
            None => self.find_wildcard(answer),
        }
    }

    /// Returns the record of the apex, with which a server of this zone answers for the parent
    /// zone, unless the records have more iterations than the limit.
    ///
    /// # Errors
    ///
    /// `Signing` if the hasher fails for the apex, and `OutOfMemory` if there is no memory.
    fn find_apex(&self, limit: u16) -> Result<Option<Parts<'r, 'a>>, DenialFault>
        ensures ok { IfOk result (λ parts. AreWhole limit
            (as_param_record (λ n. n) self.now.nsec3param.now) (asked_records H.answer self.now)
            self.now.question.now.name AtParent (option_map tellings_of parts)) }
        ensures err { IfErr result (IsRefusedWith
            (IsFirstRefusal (asked_records H.answer self.now) self.now.question.now.name)) }
    {
        if self.index.iterations() > limit {
            return Ok(None);
        }
        let name = &self.question.name;
        let found = self.index.find_encloser(self.alloc, name, self.hasher)?;
        Ok(Some(Parts {
            matched: encloser_part(name, &found),
            closer: None,
            wildcard: None,
            param: Some(self.nsec3param),
        }))
    }

    /// Returns the records that an answer rests on, if these are to be printed.
    ///
    /// # Errors
    ///
    /// `Signing` if the hasher fails for the apex, if the parent zone answers, and `OutOfMemory`
    /// if there is no memory.
    fn parts(
        &self,
        limit: u16,
        shown: Shown,
        judged: Judged<'r, 'a>,
    ) -> Result<Option<Parts<'r, 'a>>, DenialFault>
        ensures ok { IfOk result (λ parts.
            IsHashedJudged (asked_records H.answer self.now) self.now.question.now.name
            self.now.question.now.rtype limit (Ok judged.entry.answer)
            → AreHashedWitnesses (asked_records H.answer self.now) self.now.question.now.name
            self.now.question.now.rtype limit judged.entry.answer
            (option_map (encloser_of (λ n. n)) judged.entry.encloser)
            (option_map (hashed_finding_of (λ n. n)) judged.entry.wildcard)
            → AreNsec3Told (shows_records judged.entry.answer) shown None limit
            (as_param_record (λ n. n) self.now.nsec3param.now) (asked_records H.answer self.now)
            self.now.question.now.name judged.entry.answer (option_map tellings_of parts)) }
        ensures err { IfErr result (IsRefusedWith
            (IsFirstRefusal (asked_records H.answer self.now) self.now.question.now.name)) }
    {
        let Nsec3Judgement {
            answer,
            encloser,
            wildcard,
        } = judged;
        if shown == Shown::Answer || !shows_records(answer) {
            return Ok(None);
        }
        if answer == Answer::AtParent {
            return self.find_apex(limit);
        }
        let name = &self.question.name;
        let wildcard = self.wildcard(answer, wildcard)?;
        Ok(Some(Parts {
            matched: encloser_part(name, &encloser),
            closer: closer_part(name, answer, &encloser),
            wildcard,
            param: Some(self.nsec3param),
        }))
    }

    /// Returns the whole answer, and the records to print below it.
    fn judge_whole(&self, limit: u16, shown: Shown) -> Result<Told<'r, 'a>, DenialFault>
        ensures ok { IfOk result (IsNsec3Telling None limit shown self.now.question.now
            (as_param_record (λ n. n) self.now.nsec3param.now) (asked_records H.answer self.now)) }
        ensures err { IfErr result (IsRefusedWith (IsRefusalAsked None
            (asked_records H.answer self.now) self.now.question.now limit)) }
    {
        let Question { name, rtype, .. } = self.question;
        // A name has at most 127 labels.
        let _count = name.count_labels();
        let limits = Nsec3Limits {
            iterations: limit,
            names: MAX_NAME,
        };
        let (alloc, index, hasher) = (self.alloc, self.index, self.hasher);
        let found = judge_nsec3_with_witnesses(alloc, index, name, *rtype, &limits, hasher)?;
        let Some(judged) = found else {
            unreachable!();
        };
        let answer = judged.answer;
        let parts = self.parts(limit, shown, judged)?;
        Ok(Told { answer, parts })
    }

    /// Returns the answer about a name whose records were expanded from a wildcard, and the records
    /// to print below it.
    fn judge_expansion(
        &self,
        labels: u8,
        limit: u16,
        shown: Shown,
    ) -> Result<Told<'r, 'a>, DenialFault>
        ensures ok { IfOk result (IsNsec3Telling (Some labels) limit shown self.now.question.now
            (as_param_record (λ n. n) self.now.nsec3param.now) (asked_records H.answer self.now)) }
        ensures err { IfErr result (IsRefusedWith (IsRefusalAsked (Some labels)
            (asked_records H.answer self.now) self.now.question.now limit)) }
    {
        let name = &self.question.name;
        let count = labels as usize;
        let (alloc, index, hasher) = (self.alloc, self.index, self.hasher);
        let Nsec3Expansion {
            answer,
            of_next_closer,
        } = judge_nsec3_expansion_with_witness(alloc, index, name, count, limit, hasher)?;
        if shown == Shown::Answer || !shows_records(answer) {
            let parts = None;
            return Ok(Told { answer, parts });
        }
        let closer = match of_next_closer {
            Some(found) => part_of(Role::NextCloser(name.last_labels(count + 1)), found),
            None => None,
        };
        let parts = Some(Parts {
            matched: None,
            closer,
            wildcard: None,
            param: Some(self.nsec3param),
        });
        Ok(Told { answer, parts })
    }

    /// Returns the answer, and the records to print below it.
    ///
    /// # Errors
    ///
    /// `Signing` if the hasher fails for a name that is looked up (with labels, only the next
    /// closer name, which has one label more), and `OutOfMemory` if there is no memory.
    pub fn judge(&self, asked: Nsec3Options, shown: Shown) -> Result<Told<'r, 'a>, DenialFault>
        ensures ok { IfOk result (IsNsec3Telling asked.labels asked.limit shown
            self.now.question.now
            (as_param_record (λ n. n) self.now.nsec3param.now) (asked_records H.answer self.now)) }
        ensures err { IfErr result (IsRefusedWith (IsRefusalAsked asked.labels
            (asked_records H.answer self.now) self.now.question.now asked.limit)) }
    {
        let Nsec3Options { labels, limit } = asked;
        match labels {
            Some(labels) => self.judge_expansion(labels, limit, shown),
            None => self.judge_whole(limit, shown),
        }
    }
}
