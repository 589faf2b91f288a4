//! Laws about names and records in messages and in lines. A function uses a law by calling it in
//! its body.
ghost use Rattle.std.specs.Prelude.{IfSome, Option, ◌≡◌, ◌+◌, ◌++◌, ◌<◌, ℕ, length, drop};
ghost use Rattle.domain_octets.specs.Octets.{Octets};
ghost use Rattle.domain_names.specs.Name.{wire_of, IsName, Name};
ghost use Rattle.domain_record.specs.{Record.record_text, declared.record.Record.Record};
ghost use Rattle.domain_rdata.specs.{Zone.{HasExactOctets, HasExactText, data_text, rtype_of, wire_octets}, Scan.AreData};
ghost use Rattle.domain_rdata.specs.declared.zone_record_data.ZoneRecordData.{ZoneRecordData};
ghost use Rattle.domain_message.specs.Written.{HasExactWire, record_octets};
ghost use Rattle.domain_message.specs.Entry.{IsOfLine, EntryLineText, RefusesLine};
ghost use Rattle.domain_message.specs.declared.line.LineError.{LineError};
ghost use Rattle.domain_message.specs.Record.{IsSameRecord, IsOfMessage, RecordAt, RefusesRecord};
ghost use Rattle.domain_message.specs.{declared.error.MessageError.MessageError, Name.{LabelsFault, NameAt}};
ghost use Rattle.domain_message.specs.declared.name.NameFault.{NameFault};

use domain_base::ToName;
use domain_octets::Octets;
use domain_rdata::ZoneRecordData;
use domain_rdata::laws::{data_is_read_back, octets_are_read_back};
use domain_record::{Record, RecordData};

/// A place of a message holds at most one name, and none if its labels have a fault (RFC 1035,
/// section 4.1.4).
#[tactic(auto, using(crate::proofs::NameLemmas::one_name, crate::proofs::NameLemmas::no_fault))]
pub fn one_name_stands_at_a_place()
    ensures one { (message : Octets) (at : ℕ) (x y : Name) (end far : ℕ) → NameAt message at x end
        → NameAt message at y far → (x ≡ y) × (end ≡ far) }
    ensures none { (message : Octets) (at : ℕ) (name : Name) (end : ℕ) (fault : NameFault)
        → NameAt message at name end → LabelsFault message at 0 fault → ⊥ }
{}

/// A place of a message holds at most one record, and none if `read_record` rejects it for another
/// reason than room or memory.
pub fn one_record_stands_at_a_place<O: Octets, N: ToName>()
    ensures one { (message : Octets) (at : ℕ) (r s : Record N (ZoneRecordData O N)) (end far : ℕ)
        → RecordAt O.octets N.labels message at r end → RecordAt O.octets N.labels message at s far
        → IsSameRecord O.octets N.labels r s × (end ≡ far) }
    ensures none { (limit : Option ℕ) (message : Octets) (at : ℕ) (error : MessageError)
        (r : Record N (ZoneRecordData O N)) (end : ℕ) → RefusesRecord limit message at error
        → IsOfMessage error → RecordAt O.octets N.labels message at r end → ⊥ }
{}

/// A name that is written without compression is read back at the place where it was written. It
/// ends where its octets end.
#[tactic(auto, using(crate::proofs::NameLemmas::in_full_at))]
pub fn written_names_are_read_back()
    ensures { (message after : Octets) (at : ℕ) (name : Name) → IsName name
        → drop at message ≡ wire_of name ++ after
        → NameAt message at name (at + length (wire_of name)) }
{}

/// A line spells at most one record, and none if `scan_record` rejects it for another reason than
/// room or memory.
pub fn one_record_is_spelled_by_a_line<O: Octets, N: ToName>()
    ensures one { (line : Octets) (r s : Record N (ZoneRecordData O N))
        → EntryLineText O.octets N.labels line r → EntryLineText O.octets N.labels line s
        → IsSameRecord O.octets N.labels r s }
    ensures none { (limit : Option ℕ) (line : Octets) (error : LineError)
        (r : Record N (ZoneRecordData O N)) → RefusesLine O.octets N.labels limit line error
        → IsOfLine limit error → EntryLineText O.octets N.labels line r → ⊥ }
{}

/// A written record is a line that spells this record, if the text of its data determines the data.
pub fn written_records_are_read_back<O: Octets, N: ToName>(value: &Record<N, ZoneRecordData<O, N>>)
    ensures { HasExactText O.octets value.now.«data»
        → IfSome (record_text N.labels rtype_of (data_text O.octets N.labels) value.now) (λ text.
        EntryLineText O.octets N.labels text value.now) }
{
    data_is_read_back(value.data());
    let _owner = value.owner().as_wire();
    let _ttl = value.ttl().as_secs();
    let _class = value.class().to_int();
    let _rtype = value.data().rtype().to_int();
}

/// The octets of data parse back as these data, and nothing is left, if `HasExactOctets` holds.
pub fn written_data_are_read_back<O: Octets, N: ToName>(value: &ZoneRecordData<O, N>)
    ensures { HasExactOctets value.now → AreData O.octets N.labels (rtype_of value.now)
        (wire_octets O.octets N.labels value.now) value.now }
{
    octets_are_read_back(value);
}

/// A record that is written into a message without compression is read back at the place where it
/// was written, if its data fit into a record and `HasExactWire` holds. It ends where its octets
/// end.
#[tactic(auto, using(crate::proofs::RecordLemmas::record_stands))]
pub fn written_records_stand<O: Octets, N: ToName>(value: &Record<N, ZoneRecordData<O, N>>)
    ensures { (message after : Octets) (at : ℕ)
        → length (wire_octets O.octets N.labels value.now.«data») < 65536
        → HasExactWire O.octets value.now.«data»
        → drop at message ≡ record_octets O.octets N.labels value.now ++ after
        → RecordAt O.octets N.labels message at value.now
        (at + length (record_octets O.octets N.labels value.now)) }
{
    written_data_are_read_back(value.data());
    let _owner = value.owner().as_wire();
    let _ttl = value.ttl().as_secs();
    let _class = value.class().to_int();
    let _rtype = value.data().rtype().to_int();
}
