//! Both halves of denial: the records of a chain with which a server answers, and what they prove.
ghost use Rattle.std.specs.Prelude.{◌≡◌, true, IfOk};
ghost use Rattle.domain_dnssec.specs.{Order.IsOneClass, ZoneData.{minimum_of, rtype_of}, Zone.zone_of};
ghost use Rattle.domain_dnssec.specs.ZoneAnswer.{zone_answer};

use crate::zone::{Data, Zone, ZoneName, zone};
use domain_dnssec::laws::{chains_leave_out_names_below_dname, owners_never_descend};
use domain_dnssec::{Answer, Error, GenerateNsecConfig, NsecChain, Rtype, deny_nsec};
use std::alloc::Global;
use std::fmt::Write;

/// Prints the record at a place of a chain, if one is given.
fn show_record(
    chain: &NsecChain<'_, ZoneName>,
    place: Option<usize>,
    text: &mut String,
) -> Result<(), Error> {
    let Some(place) = place else {
        return Ok(());
    };
    let Some(nsec) = chain.lend(place) else {
        return Ok(());
    };
    writeln!(text, "{nsec}")?;
    Ok(())
}

/// Returns what a zone of one class answers to a question, after printing the records of its chain
/// that prove it, one a line.
fn serve<'z>(
    alloc: Global,
    apex: &'z ZoneName,
    zone: &'z Zone,
    config: &GenerateNsecConfig,
    name: &ZoneName,
    rtype: Rtype,
    text: &mut String,
) -> Result<Answer, Error>
    requires { IsOneClass zone.now }
    ensures { config.now.occlude_below_dname ≡ true → IfOk result (λ answer. answer
        ≡ zone_answer (zone_of (λ name. name) rtype_of minimum_of zone.now) apex.now
        config.now.assume_dnskeys_will_be_added name.now rtype) }
{
    owners_never_descend::<ZoneName, Data>();
    chains_leave_out_names_below_dname();
    let chain = NsecChain::generate(alloc, apex, zone.owner_rrs(), config)?;
    let denial = deny_nsec(apex, &chain, name, rtype);
    show_record(&chain, denial.of_name, text)?;
    show_record(&chain, denial.of_wildcard, text)?;
    Ok(denial.answer)
}

/// Prints what a server of the small zone answers to two questions.
pub fn show(alloc: Global, text: &mut String) -> Result<(), Error> {
    let apex = ZoneName::from_str(alloc, "example.")?;
    let config = GenerateNsecConfig::new().with_occlude_below_dname();
    let zone = zone(alloc)?;
    for asked in ["office.example.", "www.example."] {
        let name = ZoneName::from_str(alloc, asked)?;
        let answer = serve(alloc, &apex, &zone, &config, &name, Rtype::MX, text)?;
        writeln!(text, "{asked} MX: {answer:?}")?;
    }
    Ok(())
}
