//! The reply of a run, and how it is printed.
ghost use Rattle.std.specs.Prelude.{◌≡◌, ◌⊎◌, ◌++◌, codes, List, IfErr, IfOk, IsErrOf, OnOk};
ghost use Rattle.std.specs.Io.KnownBytes.{Appends};
ghost use Rattle.domain_records.specs.Order.{IsInOrder, IsOneClass};
ghost use Rattle.domain_nsec.specs.Chain.{usual_config, IsFaultless};
ghost use Rattle.domain_borrowed.specs.Data.{RawRecord, zone_of_raw};
ghost use Rattle.denial_program.specs.Answer.{HasNoAnswer, HasNoNsecs, IsAnswer, IsNsecs, IsUnmade, SortsRaw};
ghost use Rattle.denial_program.specs.declared.command.Command.TheVariants.{Chain};
ghost use Rattle.denial_program.specs.{Fault.IsBeforeOutput, Run.{IsUnwritten, IsWritten}};
ghost use Rattle.denial_program.specs.Text.{reply_text, lines_of, nsec_line, nsec3_line, nsec3s_text, nsec3param_line, param_with, with_zero_flags};
ghost use Rattle.domain_nsec3.specs.View.{as_param_record};
ghost use Rattle.denial_program.specs.declared.fault.DenialFault.TheVariants.{OutOfMemory};

use crate::check::{nsec_reply, nsec3_reply};
use crate::command::{Command, Nsec3Params};
use crate::fault::{DenialFault, fault_of};
use crate::line::{ZoneName, ZoneOctets};
use crate::prepare::{compact_zone, sort_zone, store_apex};
use crate::verdict_text::VerdictText;
use bumpalo::Bump;
use domain_base::{ParsedName, ToName};
use domain_borrowed::BorrowedRecord;
use domain_checker::Verdict;
use domain_hasher::Nsec3Hasher;
use domain_nsec::{GenerateNsecConfig, NsecChain};
use domain_nsec3::{GenerateNsec3Config, Nsec3Chain};
use domain_rdata::Nsec3param;
use domain_record::Record;
use domain_records::{InPlaceSorter, RecordsIter};
use std::alloc::Global;
use std::io;
use std::io::Write;

/// The flags of the NSEC3PARAM record that is written with an NSEC3 chain.
#[derive(Clone, Copy, Debug, PartialEq, Eq)]
pub enum ParamFlags {
    /// Those of the chain: 1 for a chain with opt-out.
    OfChain,
    /// 0, as a zone publishes the record. Name servers ignore one with other flags (RFC 5155,
    /// section 4.1.2).
    Zero,
}

/// The reply of a run. An NSEC chain borrows from the records of its zone, an NSEC3 chain from its
/// apex.
#[derive(Drop)]
pub enum Reply<'s, 'a> {
    /// An NSEC chain whose records are not made yet.
    Nsecs(NsecChain<'s, ParsedName<'a>>),
    /// An NSEC3 chain whose records are not made yet, with its NSEC3PARAM record.
    Nsec3s(Nsec3Chain<'s, ZoneOctets>),
    /// What records prove about a name.
    Verdict(ZoneName, Verdict),
}

/// Returns the NSEC chain of the zone with these records, from which it borrows.
///
/// # Errors
///
/// `Signing` with the first fault of the zone, and `OutOfMemory` if there is no memory.
#[tactic(auto, using(std::proofs::lemmas::Grind::common_steps, crate::proofs::RunLemmas::memory_told, crate::proofs::RunLemmas::no_nsecs, crate::proofs::RunLemmas::nsecs_made))]
pub fn nsecs_of<'s, 'a>(
    alloc: Global,
    apex: &'s ParsedName<'a>,
    sorted: &'s [BorrowedRecord<'a>],
) -> Result<Reply<'s, 'a>, DenialFault>
    requires one_class { IsOneClass sorted.now }
    requires in_order { IsInOrder (λ n. n) (λ d. d.rtype) sorted.now }
    ensures ok { IfOk result (λ answer. (given : List RawRecord)
        → SortsRaw given sorted.now → IsNsecs given apex.now answer) }
    ensures err { IfErr result (λ fault. (given : List RawRecord)
        → SortsRaw given sorted.now → HasNoNsecs given apex.now fault) }
    ensures faultless { OnOk result (IsFaultless (zone_of_raw sorted.now) apex.now usual_config) }
    ensures memory { IsErrOf result OutOfMemory → IsFaultless
        (zone_of_raw sorted.now) apex.now usual_config }
{
    let config = GenerateNsecConfig::new();
    match NsecChain::generate(alloc, apex, RecordsIter::new_from_owned(sorted), &config) {
        Ok(nsecs) => Ok(Reply::Nsecs(nsecs)),
        Err(error) => Err(DenialFault::from(error)),
    }
}

/// Returns the chain of the zone with these records: NSEC3 with these parameters, or NSEC without
/// any. It borrows from the apex and, for NSEC, from the records. No two of its hashes are the
/// same, so a sorter that does not allocate serves as well as a stable one.
#[tactic(auto, using(std::proofs::lemmas::Grind::common_steps, crate::proofs::RunLemmas::nsec3s_made, crate::proofs::RunLemmas::on_ok))]
fn chain_reply<'s, 'a, H: Nsec3Hasher>(
    alloc: Global,
    apex: &'s ParsedName<'a>,
    parameters: Option<Nsec3Params>,
    sorted: &'s [BorrowedRecord<'a>],
    hasher: &H,
) -> Result<Reply<'s, 'a>, DenialFault>
    requires one_class { IsOneClass sorted.now }
    requires in_order { IsInOrder (λ n. n) (λ d. d.rtype) sorted.now }
    ensures ok { IfOk result (λ answer. (given : List RawRecord) → SortsRaw given sorted.now
        → IsAnswer (H.answer hasher.now) (Chain apex.now parameters) given answer) }
    ensures err { IfErr result (λ fault. (given : List RawRecord) → SortsRaw given sorted.now
        → HasNoAnswer (H.answer hasher.now) (Chain apex.now parameters) given fault) }

    // Memory may still run out while the chain is written.
    ensures memory { OnOk result ((given : List RawRecord) → SortsRaw given sorted.now
        → HasNoAnswer (H.answer hasher.now) (Chain apex.now parameters) given OutOfMemory) }
{
    let Some(parameters) = parameters else {
        return nsecs_of(alloc, apex, sorted);
    };
    let config: GenerateNsec3Config<ZoneOctets, InPlaceSorter> = GenerateNsec3Config::new(
        parameters,
    );
    let records = RecordsIter::new_from_owned(sorted);
    match Nsec3Chain::generate(alloc, apex, records, &config, hasher) {
        Ok(made) => Ok(Reply::Nsec3s(made)),
        Err(error) => Err(DenialFault::from(error)),
    }
}

/// Writes the records of an NSEC chain, one a line. They borrow from the chain, so this does not
/// allocate.
fn write_nsecs<W: Write>(chain: &NsecChain<'_, ParsedName<'_>>, output: &mut W) -> io::Result<()>
    ensures { OnOk result (Appends (W.contents output.old) (W.contents output.new)
        (lines_of nsec_line chain.now)) }
{
    for place in 0..chain.len() {
        let Some(nsec) = chain.lend(place) else {
            unreachable!();
        };
        writeln!(output, "{nsec}")?;
    }
    Ok(())
}

/// Writes the records of an NSEC3 chain, one a line. They borrow from the chain, so this does not
/// allocate.
fn write_chain<W: Write>(chain: &Nsec3Chain<'_, ZoneOctets>, output: &mut W) -> io::Result<()>
    ensures { OnOk result (Appends (W.contents output.old) (W.contents output.new)
        (lines_of nsec3_line chain.now.links)) }
{
    for place in 0..chain.len() {
        let Some(nsec3) = chain.lend(place) else {
            unreachable!();
        };
        writeln!(output, "{nsec3}")?;
    }
    Ok(())
}

/// Returns the NSEC3PARAM record that a zone publishes: the same with flags 0.
fn with_zero_flags<'a>(
    param: &'a Record<ParsedName<'a>, Nsec3param<ZoneOctets>>,
) -> Record<ParsedName<'a>, Nsec3param<&'a [u8]>>
    ensures { as_param_record (λ n. n) result
        ≡ with_zero_flags (as_param_record (λ n. n) param.now) }
{
    let data = param.data();
    let salt = data.salt().with_octets(data.salt().as_slice());
    let data = Nsec3param::new(data.hash_algorithm(), 0, data.iterations(), salt);
    Record::new(param.owner().as_parsed(), param.class(), param.ttl(), data)
}

/// Writes an NSEC3PARAM record, with flags as chosen.
fn write_param<W: Write>(
    param: &Record<ParsedName<'_>, Nsec3param<ZoneOctets>>,
    flags: ParamFlags,
    output: &mut W,
) -> io::Result<()>
    ensures { OnOk result (Appends (W.contents output.old) (W.contents output.new)
        (nsec3param_line (param_with flags (as_param_record (λ n. n) param.now))
        ++ codes "\n")) }
{
    match flags {
        ParamFlags::OfChain => writeln!(output, "{param}"),
        ParamFlags::Zero => writeln!(output, "{}", with_zero_flags(param)),
    }
}

/// Writes the records of an NSEC3 chain, and its NSEC3PARAM record.
#[tactic(auto, using(crate::proofs::RunLemmas::appends_more))]
fn write_nsec3s<W: Write>(
    chain: &Nsec3Chain<'_, ZoneOctets>,
    flags: ParamFlags,
    output: &mut W,
) -> io::Result<()>
    ensures { OnOk result (Appends (W.contents output.old) (W.contents output.new)
        (nsec3s_text flags chain.now)) }
{
    write_chain(chain, output)?;
    write_param(chain.nsec3param(), flags, output)
}

impl<'s, 'a> Reply<'s, 'a> {
    /// Writes the reply, and flushes the output.
    fn write<W: Write>(&self, flags: ParamFlags, output: &mut W) -> io::Result<()>
        ensures { OnOk result (Appends (W.contents output.old) (W.contents output.new)
            (reply_text flags self.now)) }
    {
        match self {
            Reply::Nsecs(chain) => write_nsecs(chain, output)?,
            Reply::Nsec3s(chain) => write_nsec3s(chain, flags, output)?,
            Reply::Verdict(name, verdict) => {
                let verdict = *verdict;
                writeln!(output, "{}", VerdictText { name, verdict })?;
            }
        }
        output.flush()
    }

    /// Writes the reply. An error of the device is `Write`, or `OutOfMemory` if it is out of
    /// memory.
    fn send<W: Write>(self, flags: ParamFlags, output: &mut W) -> Result<(), DenialFault>
        ensures ok { OnOk result (Appends (W.contents output.old) (W.contents output.new)
            (reply_text flags self.entry)) }
        ensures err { IfErr result (λ e. (e ≡ DenialFault.Write) ⊎ (e ≡ OutOfMemory)) }
    {
        match self.write(flags, output) {
            Ok(()) => Ok(()),
            Err(e) => Err(fault_of(&e, DenialFault::Write)),
        }
    }
}

/// Writes the chain of the zone with these records. Sorts them first.
#[tactic(auto, using(std::proofs::lemmas::Grind::common_steps, crate::proofs::RunLemmas::unsorted, crate::proofs::RunLemmas::unwritten, crate::proofs::RunLemmas::on_ok, domain_octets::proofs::StdLemmas::if_err_of))]
fn write_chain_of<'a, W: Write, H: Nsec3Hasher>(
    alloc: Global,
    arena: &'a Bump,
    apex: &ZoneName,
    parameters: Option<Nsec3Params>,
    records: Vec<BorrowedRecord<'a>>,
    flags: ParamFlags,
    hasher: &H,
    output: &mut W,
) -> Result<(), DenialFault>
    ensures ok { OnOk result (IsWritten (reply_text flags)
        (IsAnswer (H.answer hasher.now) (Chain apex.now parameters) records.entry.items)
        (W.contents output.old) (W.contents output.new)) }
    ensures err { IfErr result (IsUnwritten
        (IsAnswer (H.answer hasher.now) (Chain apex.now parameters) records.entry.items) (IsUnmade
        (HasNoAnswer (H.answer hasher.now) (Chain apex.now parameters) records.entry.items))) }
    ensures untouched { IfErr result (λ e. IsBeforeOutput e → output.new ≡ output.old) }
{
    let sorted = sort_zone(records)?;
    let apex = store_apex(arena, apex)?;
    let compacted = compact_zone(arena, sorted, parameters.is_none())?;
    let answer = chain_reply(alloc, &apex, parameters, &compacted, hasher)?;
    answer.send(flags, output)
}

/// Writes what a command asks of the records. The NSEC3PARAM record has flags as chosen.
///
/// # Errors
///
/// The first of these that applies:
///
/// - for a chain: `MixedClasses`, and `Signing` if there is none;
/// - for a verdict of NSEC3 records: `Param` if the apex does not have exactly one NSEC3PARAM
///   record, and `Signing` if the hasher fails;
/// - `Write` if the output could not be written;
/// - `OutOfMemory`. For a chain this implies that the zone has no fault, except for NSEC3 one of
///   hashing.
///
/// Before a fault of the zone is known, `Unprepared` if there is no memory to sort or to store the
/// records. For other errors than `Write` and `OutOfMemory`, nothing is written.
pub fn write_answer<'a, W: Write, H: Nsec3Hasher>(
    alloc: Global,
    arena: &'a Bump,
    command: Command,
    records: Vec<BorrowedRecord<'a>>,
    flags: ParamFlags,
    hasher: &H,
    output: &mut W,
) -> Result<(), DenialFault>
    ensures ok { OnOk result (IsWritten (reply_text flags)
        (IsAnswer (H.answer hasher.now) command records.entry.items)
        (W.contents output.old) (W.contents output.new)) }
    ensures err { IfErr result
        (IsUnwritten (IsAnswer (H.answer hasher.now) command records.entry.items)
        (IsUnmade (HasNoAnswer (H.answer hasher.now) command records.entry.items))) }
    ensures untouched { IfErr result (λ e. IsBeforeOutput e → output.new ≡ output.old) }
{
    match command {
        Command::Chain(apex, parameters) => {
            write_chain_of(
                alloc, arena, &apex, parameters, records, flags, hasher, output,
            )
        }
        Command::CheckNsec(question) => {
            let answer = nsec_reply(alloc, question, records)?;
            answer.send(flags, output)
        }
        Command::CheckNsec3(question) => {
            let answer = nsec3_reply(alloc, question, records, hasher)?;
            answer.send(flags, output)
        }
    }
}
