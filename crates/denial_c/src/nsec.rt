//! What the NSEC records in octets prove.
ghost use Rattle.std.specs.Prelude.{◌≡◌, ℕ, List, ◌++◌, IfErr, IfOk};
ghost use Rattle.domain_names.specs.Name.{Name};
ghost use Rattle.domain_nsec.specs.Chain.{Link};
ghost use Rattle.domain_checker.specs.Reading.{HasRead};
ghost use Rattle.denial_c.specs.Result.{EncodeNsecs, EncodeNone, IsNsecResult, EncodesName, IsSpelled};

use crate::among::{is_kept, next_record};
use crate::fault::Fault;
use domain_base::laws::octets_begin_with_one_name;
use domain_base::{Class, ParsedName, Rtype, ToName};
use domain_borrowed::{ReadAs, ReadNsec};
use domain_checker::{NsecCheck, Verdict};
use domain_octets::Parser;

/// Returns the name that octets encode. Rejects, with `fault`, octets that do not encode a name.
pub(crate) fn read_name(octets: &[u8], fault: Fault) -> Result<ParsedName<'_>, Fault>
    ensures ok { IfOk result (EncodesName octets.now) }
    ensures err { IfErr result (λ e. (e ≡ fault) × (IsSpelled octets.now → ⊥)) }
{
    octets_begin_with_one_name();
    match ParsedName::from_slice(octets) {
        Ok(name) => {
            let _wire = name.as_wire();
            Ok(name)
        }
        Err(_) => Err(fault),
    }
}

/// Adds the NSEC records of the class in `octets` to a check. Rejects octets that do not encode
/// records, and NSEC records whose data are malformed; some records may be added then.
fn hand_in(
    check: &mut NsecCheck<'_>,
    apex: &ParsedName<'_>,
    class: Class,
    octets: &[u8],
) -> Result<(), Fault>
    ensures ok { IfOk result (λ _. (links : List Link) × EncodeNsecs class octets.now links
        × ((a x : Name) (t : ℕ) (before : List Link) → HasRead a x t before check.old
        → HasRead a x t (before ++ links) check.new)) }
    ensures err { IfErr result (λ e. (e ≡ Fault.Records)
        × EncodeNone (EncodeNsecs class octets.now)) }
{
    let mut parser = Parser::new(octets);
    'records: while parser.remaining() > 0 {
        let Some(record) = next_record(&mut parser) else {
            return Err(Fault::Records);
        };
        if is_kept::<ReadNsec<'_>>(&record, apex, class) {
            let Some(nsec) = ReadNsec::read(record) else {
                return Err(Fault::Records);
            };
            check.add(&nsec);
        }
    }
    Ok(())
}

/// Returns what the NSEC records of the class in `records` prove about the name and the type. Does
/// not allocate.
pub(crate) fn nsec_verdict(
    apex: &[u8],
    name: &[u8],
    rtype: u16,
    class: u16,
    records: &[u8],
) -> Result<Verdict, Fault>
    ensures { IsNsecResult apex.now name.now rtype class records.now result }
{
    let apex = read_name(apex, Fault::Apex)?;
    let name = read_name(name, Fault::Name)?;
    let mut check = NsecCheck::new(&apex, &name, Rtype::from_int(rtype));
    hand_in(&mut check, &apex, Class::from_int(class), records)?;
    Ok(check.verdict())
}
