//! Denial of existence for C (RFC 4035, section 5.4; RFC 5155, section 8). The functions return
//! what the NSEC or NSEC3 records of a message answer to a question as a whole, and what they prove
//! about one name and one type. Others make the chains of a zone.
//!
//! Names and records are passed as octets, in wire format without compression. Each function that
//! judges or checks returns what `judge_nsec`, `judge_nsec3` or `judge_nsec3_expansion` of
//! `domain_answer`, or `check_nsec` or `check_nsec3` of `domain_checker`, returns for these
//! records, or the reason why there is none. `include/denial.h` describes the functions and their
//! numbers for C.
#![tactic(auto)]

ghost use Rattle.std.specs.Prelude.{◌≡◌, false};
ghost use Rattle.domain_nsec3.specs.declared.config.Nsec3ParamTtlMode.TheVariants.{Soa};
ghost use Rattle.denial_c.specs.Chains.{hashed_config, nsec_making, nsec3_making, IsChainResult};
ghost use Rattle.denial_c.specs.{Chains.IsCollisionResult, Result.{IsExpansionAnswer, IsNsecAnswer}};
ghost use Rattle.denial_c.specs.Result.{IsNsec3Answer, alone, known_with_param, with_param};
ghost use Rattle.denial_c.specs.Result.{IsNsecResult, IsNsec3Result, AreNumbersOf};
ghost use Rattle.denial_c.specs.Numbers.{answer_told, chain_told, collision_number, told_by, verdict_told};
ghost use Rattle.denial_c.specs.Numbers.{text_of, IsCText};

mod among;
mod answer;
mod collision;
mod fault;
mod judge;
mod nsec;
mod nsec3;
mod nsec3_chain;
mod nsec_chain;
mod question;
mod text;
mod uneven;
mod zone;

use crate::answer::{answer_told, chain_told, tell, verdict_told};
use crate::judge::expansion_answer;
use crate::nsec3::Telling;
use crate::nsec3_chain::Hashing;
use crate::text::ROOM;
use domain_base::MAX_NAME;
use domain_nsec::GenerateNsecConfig;
use std::alloc::Global;

/// Returns the version of the library: 10000 times its major number, plus 100 times its minor
/// number, plus its patch number.
#[unsafe(no_mangle)]
pub extern "C" fn denial_version() -> u32
    ensures { result ≡ 600 }
{
    600
}

/// Lends the text of a number, followed by zero octets. A number that no function here returns has
/// a text that says so.
#[unsafe(no_mangle)]
pub extern "C" fn denial_find_text(number: u32, text: &mut &'static [u8; ROOM])
    ensures { IsCText (text_of number) text.new.now }
{
    *text = text::text_of(number);
}

/// Returns what NSEC records answer to a question about a name and a type, as a whole: the number
/// of an answer, or of a fault. Writes the number of labels that the answer counts, or 0.
#[unsafe(no_mangle)]
pub extern "C" fn denial_judge_nsec(
    alloc: Global,
    apex: &[u8],
    name: &[u8],
    rtype: u16,
    class: u16,
    records: &[u8],
    labels: &mut usize,
) -> u32
    ensures { AreNumbersOf (told_by answer_told) (result, labels.new)
        (IsNsecAnswer apex.now name.now rtype class records.now) }
{
    let answer = judge::nsec_answer(alloc, apex, name, rtype, class, records);
    tell(answer_told(answer), labels)
}

/// Returns what NSEC3 records answer to a question about a name and a type, as a whole. The records
/// include the one NSEC3PARAM record of the apex. Records with a flag other than opt-out are
/// ignored (RFC 5155, sections 4.1.2 and 8.2). If the NSEC3PARAM record has more iterations than
/// the limit, nothing is hashed.
///
/// Returns the number of an answer or of a fault. Writes the number of labels that the answer
/// counts, or 0.
#[unsafe(no_mangle)]
pub extern "C" fn denial_judge_nsec3(
    alloc: Global,
    apex: &[u8],
    name: &[u8],
    rtype: u16,
    class: u16,
    limit: u16,
    records: &[u8],
    labels: &mut usize,
) -> u32
    ensures { AreNumbersOf (told_by answer_told) (result, labels.new)
        (IsNsec3Answer (known_with_param class records.now) apex.now name.now rtype limit) }
{
    let told = Telling::ByKnownRecord;
    let answer = judge::nsec3_answer(alloc, told, apex, name, rtype, class, limit, records);
    tell(answer_told(answer), labels)
}

/// Returns what NSEC3 records answer to a question about a name and a type, as a whole, without an
/// NSEC3PARAM record: the first of the NSEC3 records has the parameters. Records of another zone,
/// with a hash algorithm other than SHA-1, or with a flag other than opt-out are ignored (RFC 5155,
/// sections 8.1 and 8.2). If the first has more iterations than the limit, nothing is hashed.
///
/// Returns the number of an answer or of a fault. Writes the number of labels that the answer
/// counts, or 0.
#[unsafe(no_mangle)]
pub extern "C" fn denial_judge_nsec3_alone(
    alloc: Global,
    apex: &[u8],
    name: &[u8],
    rtype: u16,
    class: u16,
    limit: u16,
    records: &[u8],
    labels: &mut usize,
) -> u32
    ensures { AreNumbersOf (told_by answer_told) (result, labels.new)
        (IsNsec3Answer (alone class records.now) apex.now name.now rtype limit) }
{
    let told = Telling::ByFirst;
    let answer = judge::nsec3_answer(alloc, told, apex, name, rtype, class, limit, records);
    tell(answer_told(answer), labels)
}

/// Returns what NSEC3 records answer for a name whose records were expanded from a wildcard (RFC
/// 5155, section 8.8). The records include the one NSEC3PARAM record of the apex. Records with a
/// flag other than opt-out are ignored. `rrsig_labels` is the Labels field of the signatures of the
/// expanded records (RFC 4034, section 3.1.3). If the NSEC3PARAM record has more iterations than
/// the limit, nothing is hashed.
///
/// Returns the number of an answer or of a fault. Writes the number of labels that the answer
/// counts, or 0.
#[unsafe(no_mangle)]
pub extern "C" fn denial_judge_nsec3_expansion(
    alloc: Global,
    apex: &[u8],
    name: &[u8],
    rrsig_labels: u8,
    class: u16,
    limit: u16,
    records: &[u8],
    labels: &mut usize,
) -> u32
    ensures { AreNumbersOf (told_by answer_told) (result, labels.new)
        (IsExpansionAnswer (known_with_param class records.now) apex.now name.now rrsig_labels
        limit) }
{
    let told = Telling::ByKnownRecord;
    let answer = expansion_answer(alloc, told, apex, name, rrsig_labels, class, limit, records);
    tell(answer_told(answer), labels)
}

/// Returns what NSEC3 records answer for a name whose records were expanded from a wildcard,
/// without an NSEC3PARAM record: the first of the NSEC3 records has the parameters.
/// `denial_judge_nsec3_alone` says which records are ignored.
///
/// Returns the number of an answer or of a fault. Writes the number of labels that the answer
/// counts, or 0.
#[unsafe(no_mangle)]
pub extern "C" fn denial_judge_nsec3_expansion_alone(
    alloc: Global,
    apex: &[u8],
    name: &[u8],
    rrsig_labels: u8,
    class: u16,
    limit: u16,
    records: &[u8],
    labels: &mut usize,
) -> u32
    ensures { AreNumbersOf (told_by answer_told) (result, labels.new)
        (IsExpansionAnswer (alone class records.now) apex.now name.now rrsig_labels limit) }
{
    let told = Telling::ByFirst;
    let answer = expansion_answer(alloc, told, apex, name, rrsig_labels, class, limit, records);
    tell(answer_told(answer), labels)
}

/// Returns what NSEC records prove about a name and a type. Does not allocate.
///
/// Returns the number of a verdict or of a fault. Writes the number of labels of the closest
/// encloser, or 0 if the verdict has none.
#[unsafe(no_mangle)]
pub extern "C" fn denial_check_nsec(
    apex: &[u8],
    name: &[u8],
    rtype: u16,
    class: u16,
    records: &[u8],
    labels: &mut usize,
) -> u32
    ensures { AreNumbersOf (told_by verdict_told) (result, labels.new)
        (IsNsecResult apex.now name.now rtype class records.now) }
{
    let verdict = nsec::nsec_verdict(apex, name, rtype, class, records);
    tell(verdict_told(verdict), labels)
}

/// Returns what NSEC3 records prove about a name and a type. The records include the one NSEC3PARAM
/// record of the apex.
///
/// Returns the number of a verdict or of a fault. Writes the number of labels of the closest
/// encloser, or 0 if the verdict has none.
#[unsafe(no_mangle)]
pub extern "C" fn denial_check_nsec3(
    alloc: Global,
    apex: &[u8],
    name: &[u8],
    rtype: u16,
    class: u16,
    records: &[u8],
    labels: &mut usize,
) -> u32
    ensures { AreNumbersOf (told_by verdict_told) (result, labels.new)
        (IsNsec3Result (with_param class records.now) apex.now name.now rtype) }
{
    let verdict = nsec3::nsec3_verdict(alloc, Telling::ByRecord, apex, name, rtype, class, records);
    tell(verdict_told(verdict), labels)
}

/// Returns what NSEC3 records prove about a name and a type, without an NSEC3PARAM record: the
/// first of the NSEC3 records has the parameters. `denial_judge_nsec3_alone` says which records are
/// ignored.
///
/// Returns the number of a verdict or of a fault. Writes the number of labels of the closest
/// encloser, or 0 if the verdict has none.
#[unsafe(no_mangle)]
pub extern "C" fn denial_check_nsec3_alone(
    alloc: Global,
    apex: &[u8],
    name: &[u8],
    rtype: u16,
    class: u16,
    records: &[u8],
    labels: &mut usize,
) -> u32
    ensures { AreNumbersOf (told_by verdict_told) (result, labels.new)
        (IsNsec3Result (alone class records.now) apex.now name.now rtype) }
{
    let verdict = nsec3::nsec3_verdict(alloc, Telling::ByFirst, apex, name, rtype, class, records);
    tell(verdict_told(verdict), labels)
}

/// Writes the NSEC chain of a zone into the buffer, its records one after another in canonical
/// order, without compression.
///
/// Returns 48, and writes the number of octets of the chain to `count`. Or returns the number of a
/// fault, and writes what it counts: the offset of the record, or the number of octets that do not
/// fit. The buffer then stays as it was.
#[unsafe(no_mangle)]
pub extern "C" fn denial_nsec_chain(
    alloc: Global,
    apex: &[u8],
    class: u16,
    assume_dnskey: bool,
    occlude_below_dname: bool,
    records: &[u8],
    chain: &mut [u8],
    count: &mut usize,
) -> u32
    ensures { AreNumbersOf chain_told (result, count.new)
        (λ made. IsChainResult (nsec_making (record {
          assume_dnskeys_will_be_added = assume_dnskey;
          occlude_below_dname = occlude_below_dname;
        })) apex.now class records.now made chain.old chain.new) }
{
    let config = GenerateNsecConfig {
        assume_dnskeys_will_be_added: assume_dnskey,
        occlude_below_dname,
    };
    let made = nsec_chain::nsec_chain(alloc, apex, class, &config, records, chain);
    tell(chain_told(made), count)
}

/// Writes the NSEC3 chain of a zone into the buffer, its records one after another in the order of
/// their hashes, without compression, and then its NSEC3PARAM record. Names are hashed with SHA-1.
///
/// Returns 48, and writes the number of octets of the chain to `count`. Or returns the number of a
/// fault, and writes what it counts: the offset of the record, or the number of octets that do not
/// fit. The buffer then stays as it was.
#[unsafe(no_mangle)]
pub extern "C" fn denial_nsec3_chain(
    alloc: Global,
    apex: &[u8],
    class: u16,
    assume_dnskey: bool,
    occlude_below_dname: bool,
    iterations: u16,
    salt: &[u8],
    opt_out: bool,
    records: &[u8],
    chain: &mut [u8],
    count: &mut usize,
) -> u32
    ensures { AreNumbersOf chain_told (result, count.new)
        (λ made. IsChainResult (nsec3_making Soa
        (hashed_config iterations salt.now opt_out assume_dnskey occlude_below_dname))
        apex.now class records.now made chain.old chain.new) }
{
    let hashing = Hashing {
        iterations,
        salt,
        opt_out,
        assume_dnskey,
        occlude_below_dname,
    };
    let made = nsec3_chain::nsec3_chain(alloc, apex, class, hashing, records, chain);
    tell(chain_told(made), count)
}

/// Writes the two names because of which a zone has no NSEC3 chain, since they have the same hash:
/// the first name of the chain, in canonical order, that has the hash of an earlier one, and the
/// first name that has its hash. Both are written to the beginning of their buffers in wire format
/// and in lower case. Names are hashed with SHA-1. Other faults of the zone are not checked.
///
/// Returns 28 with both names, or 49 if no two names of the chain have the same hash, or the number
/// of a fault. If no names are written, the buffers stay as they were.
#[unsafe(no_mangle)]
pub extern "C" fn denial_nsec3_collision(
    alloc: Global,
    apex: &[u8],
    class: u16,
    occlude_below_dname: bool,
    iterations: u16,
    salt: &[u8],
    opt_out: bool,
    records: &[u8],
    earlier: &mut [u8; MAX_NAME],
    later: &mut [u8; MAX_NAME],
) -> u32
    ensures { AreNumbersOf collision_number result
        (λ answer. IsCollisionResult apex.now class
        (hashed_config iterations salt.now opt_out false occlude_below_dname) records.now answer
        (record { old = earlier.old; new = earlier.new })
        (record { old = later.old; new = later.new })) }
{
    let hashing = Hashing {
        iterations,
        salt,
        opt_out,
        assume_dnskey: false,
        occlude_below_dname,
    };
    collision::collision_number(collision::collision(
        alloc, apex, class, hashing, records, earlier, later,
    ))
}
