//! Laws that relate the program's contract to the data that lines spell. To use a law, call it in a
//! function body.
ghost use Rattle.std.specs.Prelude.{◌≡◌, List};
ghost use Rattle.domain_octets.specs.Octets.{Octets};
ghost use Rattle.domain_base.specs.Types as rtypes;
ghost use Rattle.domain_nsec.specs.Chain.{Link};
ghost use Rattle.domain_nsec3.specs.Chain.{HashedLink, ParamRecord};
ghost use Rattle.domain_borrowed.specs.Data.{RawRecord, param_record, IsParam};
ghost use Rattle.domain_any_order.specs.RawRecords.{HaveOneChain};
ghost use Rattle.denial_program.specs.{Check.{IsNsecOf, IsNsec3Of}, Listing.{Give, GiveData}};
ghost use Rattle.denial_program.specs.Spelled.{LineText, SpelledRecord};
ghost use Rattle.domain_names.specs.Name.{Tokens};

/// Of the data of a line, the program keeps the octets in canonical form. The chain of the records
/// that lines give is also that of the records that the lines spell, with data of all types. If the
/// first have no chain, the second have none either, for the same reason.
pub fn chains_are_of_what_lines_spell()
    ensures { (lines : List Octets) (given : List RawRecord) → Give lines given
        → (spelled : List SpelledRecord) × GiveData lines spelled
        × HaveOneChain (λ o. o) (λ n. n) given spelled }
{}

/// A line that spells an NSEC or NSEC3 record spells one with a link of a chain, and a line that
/// spells an NSEC3PARAM record spells one with parameters. So no such line is ignored when a chain
/// is checked.
pub fn lines_of_chains_give_links()
    ensures nsec { (words : Tokens) (r : RawRecord) → LineText words r
        → r.«data».rtype ≡ rtypes.nsec → (k : Link) × IsNsecOf r k }
    ensures nsec3 { (words : Tokens) (r : RawRecord) → LineText words r
        → r.«data».rtype ≡ rtypes.nsec3 → (k : HashedLink) × IsNsec3Of r k }
    ensures nsec3param { (words : Tokens) (r : RawRecord) → LineText words r
        → r.«data».rtype ≡ rtypes.nsec3param
        → (k : ParamRecord) × (r ≡ param_record k) × IsParam k }
{}
