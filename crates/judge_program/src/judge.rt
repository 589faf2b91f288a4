//! What the records of a chain that were read answer to a question.
ghost use Rattle.std.specs.{Prelude.{◌≡◌, ◌++◌, filter, IfErr, OnOk, option_map}, Io.KnownBytes.Appends};
ghost use Rattle.denial_program.specs.{Fault.IsBeforeOutput, Run.{IsUnwritten, IsWritten}};
ghost use Rattle.denial_program.specs.declared.fault.DenialFault.TheVariants.{OutOfMemory as Memory};
ghost use Rattle.judge_program.specs.{Judged.{has_known_flags, IsNotNsec3Judged}, Text.first_line, Told.{below_text, tellings_of}};
ghost use Rattle.judge_program.specs.Run.{HasNoText, IsNsecText, IsNsec3Text, IsJudgeText};

use crate::command::{ChainKind, Command, Nsec3Options};
use crate::nsec_told::nsec_parts;
use crate::nsec3_told::Inquiry;
use crate::shown::{Shown, write_first};
use crate::told::{Parts, write_below};
use denial_program::{DenialFault, Question, ZoneName, chain_of, fault_of, records_among};
use domain_answer::{Answer, judge_nsec_with_witnesses};
use domain_base::Rtype;
use domain_borrowed::{BorrowedRecord, ReadNsec};
use domain_checker::Nsec3Index;
use domain_hasher::Nsec3Hasher;
use std::alloc::Global;
use std::io;
use std::io::Write;

/// Writes an answer about a name, and the records to print below it, and flushes the output.
#[tactic(auto, using(denial_program::proofs::RunLemmas::appends_more))]
fn write_answer<W: Write>(
    name: &ZoneName,
    answer: Answer,
    shown: Shown,
    parts: &Option<Parts<'_, '_>>,
    output: &mut W,
) -> io::Result<()>
    ensures { OnOk result (Appends (W.contents output.old) (W.contents output.new)
        (first_line shown name.now answer
        ++ below_text shown answer (option_map tellings_of parts.now))) }
{
    write_first(name, answer, shown, output)?;
    write_below(parts, shown, answer, output)?;
    output.flush()
}

/// Writes what the NSEC records among these answer.
fn judge_nsecs<'a, W: Write>(
    alloc: Global,
    question: &Question,
    shown: Shown,
    records: Vec<BorrowedRecord<'a>>,
    output: &mut W,
) -> Result<(), DenialFault>
    ensures ok { OnOk result (IsWritten (λ t. t) (IsNsecText records.entry.items question.now shown)
        (W.contents output.old) (W.contents output.new)) }
    ensures err { IfErr result (IsUnwritten (IsNsecText records.entry.items question.now shown)
        (λ e. e ≡ Memory)) }
    ensures untouched { IfErr result (λ e. IsBeforeOutput e → output.new ≡ output.old) }
{
    let nsecs: Vec<ReadNsec<'a>> = records_among(alloc, &question.apex, &records)?;
    let judged = judge_nsec_with_witnesses(&question.apex, &nsecs, &question.name, question.rtype);
    let answer = judged.answer;
    let parts = nsec_parts(question, judged);
    match write_answer(&question.name, answer, shown, &parts, output) {
        Ok(()) => Ok(()),
        Err(e) => Err(fault_of(&e, DenialFault::Write)),
    }
}

/// Returns whether the record has no unknown flags, if it is an NSEC3 or NSEC3PARAM record: with
/// others it must be ignored (RFC 5155, sections 4.1.2 and 8.2).
fn has_known_flags(listed: &BorrowedRecord<'_>) -> bool
    ensures { result ≡ has_known_flags listed.now }
{
    if listed.rtype() != Rtype::NSEC3 && listed.rtype() != Rtype::NSEC3PARAM {
        return true;
    }
    match listed.data().octets() {
        [_, flags, ..] => *flags < 2,
        _ => true,
    }
}

/// Returns these records without those that have unknown flags. Does not allocate.
fn known_of<'a>(mut records: Vec<BorrowedRecord<'a>>) -> Vec<BorrowedRecord<'a>>
    ensures { result.items ≡ filter has_known_flags records.entry.items }
{
    records.retain(|listed| has_known_flags(listed));
    records
}

/// Writes what the NSEC3 records among these answer.
fn judge_nsec3s<'a, W: Write, H: Nsec3Hasher>(
    alloc: Global,
    question: &Question,
    asked: Nsec3Options,
    shown: Shown,
    records: Vec<BorrowedRecord<'a>>,
    hasher: &H,
    output: &mut W,
) -> Result<(), DenialFault>
    ensures ok { OnOk result (IsWritten (λ t. t)
        (IsNsec3Text (H.answer hasher.now) records.entry.items question.now asked shown)
        (W.contents output.old) (W.contents output.new)) }
    ensures err { IfErr result (IsUnwritten
        (IsNsec3Text (H.answer hasher.now) records.entry.items question.now asked shown)
        (IsNotNsec3Judged (H.answer hasher.now) records.entry.items question.now asked)) }
    ensures untouched { IfErr result (λ e. IsBeforeOutput e → output.new ≡ output.old) }
{
    let made = chain_of(alloc, &question.apex, records)?;
    let chain = &made;
    let index = Nsec3Index::new(alloc, &question.apex, chain)?;
    let inquiry = Inquiry {
        alloc,
        question,
        nsec3param: &chain.nsec3param,
        index: &index,
        hasher,
    };
    let told = inquiry.judge(asked, shown)?;
    match write_answer(&question.name, told.answer, shown, &told.parts, output) {
        Ok(()) => Ok(()),
        Err(e) => Err(fault_of(&e, DenialFault::Write)),
    }
}

/// Writes what the records answer to a command.
///
/// # Errors
///
/// The first that applies: for NSEC3 `Param` if the apex does not have exactly one NSEC3PARAM
/// record, and `Signing` if the hasher fails; `Write` if the output could not be written; and
/// `OutOfMemory` if there is no memory. For other errors than `Write` and `OutOfMemory`, nothing is
/// written.
pub fn write_judged<'a, W: Write, H: Nsec3Hasher>(
    alloc: Global,
    command: &Command,
    records: Vec<BorrowedRecord<'a>>,
    hasher: &H,
    output: &mut W,
) -> Result<(), DenialFault>
    ensures ok { OnOk result (IsWritten (λ t. t) (IsJudgeText (H.answer hasher.now) command.now.kind
        records.entry.items command.now.question command.now.shown)
        (W.contents output.old) (W.contents output.new)) }
    ensures err { IfErr result (IsUnwritten (IsJudgeText (H.answer hasher.now) command.now.kind
        records.entry.items command.now.question command.now.shown)
        (HasNoText (H.answer hasher.now) command.now.kind records.entry.items
        command.now.question)) }
    ensures untouched { IfErr result (λ e. IsBeforeOutput e → output.new ≡ output.old) }
{
    let Command {
        kind,
        question,
        shown,
    } = command;
    match *kind {
        ChainKind::Nsec => judge_nsecs(alloc, question, *shown, records, output),
        ChainKind::Nsec3(asked) => {
            judge_nsec3s(
                alloc,
                question,
                asked,
                *shown,
                known_of(records),
                hasher,
                output,
            )
        }
    }
}
