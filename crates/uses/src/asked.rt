//! What a zone says of a name and a type, and what it answers as a whole, from its records in any
//! order.
ghost use Rattle.std.specs.Prelude.{◌≡◌, true, false, IfOk};
ghost use Rattle.domain_dnssec.specs.{AnyOrder.{IsAnswerOf, IsSaidOf}, RawRecords.zone_view};

use crate::chain::chain;
use crate::zone::{Data, OwnedRecord, ZoneName, records};
use domain_dnssec::laws::{answers_tell_of_records, verdicts_tell_of_records};
use domain_dnssec::{Answer, Error, GenerateNsecConfig, Rtype, Verdict, check_nsec, judge_nsec};
use std::alloc::Global;
use std::fmt::Write;

/// Returns what the zone of the records says of a name and a type. Makes its chain, with the names
/// below a DNAME, and checks it.
fn say(
    alloc: Global,
    apex: &ZoneName,
    records: Vec<OwnedRecord>,
    config: &GenerateNsecConfig,
    name: &ZoneName,
    rtype: Rtype,
) -> Result<Verdict, Error>
    ensures { config.now.occlude_below_dname ≡ false
        → IfOk result (IsSaidOf (zone_view (λ octets. octets.items) (λ name. name))
        records.items apex.now config.now name.now rtype) }
{
    verdicts_tell_of_records::<ZoneName, Data>();
    let nsecs = chain(alloc, apex, records, config)?;
    Ok(check_nsec(apex, &nsecs, name, rtype))
}

/// Returns what the zone of the records answers for a name and a type. Makes its chain, without the
/// names below a DNAME, and judges it.
fn answer(
    alloc: Global,
    apex: &ZoneName,
    records: Vec<OwnedRecord>,
    config: &GenerateNsecConfig,
    name: &ZoneName,
    rtype: Rtype,
) -> Result<Answer, Error>
    ensures { config.now.occlude_below_dname ≡ true
        → IfOk result (IsAnswerOf (zone_view (λ octets. octets.items) (λ name. name))
        records.items apex.now config.now name.now rtype) }
{
    answers_tell_of_records::<ZoneName, Data>();
    let nsecs = chain(alloc, apex, records, config)?;
    Ok(judge_nsec(apex, &nsecs, name, rtype))
}

/// Prints what the small zone says of three names, and what it answers.
pub fn show(alloc: Global, text: &mut String) -> Result<(), Error> {
    let apex = ZoneName::from_str(alloc, "example.")?;
    let keeps = GenerateNsecConfig::new();
    let leaves_out = GenerateNsecConfig::new().with_occlude_below_dname();
    for asked in ["example.", "office.example.", "www.example."] {
        let name = ZoneName::from_str(alloc, asked)?;
        let verdict = say(alloc, &apex, records(alloc)?, &keeps, &name, Rtype::MX)?;
        let answer = answer(alloc, &apex, records(alloc)?, &leaves_out, &name, Rtype::MX)?;
        writeln!(text, "{asked} MX: {verdict:?}, {answer:?}")?;
    }
    Ok(())
}
