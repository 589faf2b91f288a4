//! The looks at the records of a zone. A look compares each record with the first before it in its
//! group, and finds whether it deserves a note.
ghost use Rattle.std.specs.Prelude.{◌≡◌, ◌↔◌, IfNone, IfSome, IsTrue, option_map};
ghost use Rattle.lint_program.specs.Notes.{group_of, is_apex_soa, look_of, stands_beside_alias, Deserves, FindsNothing};
ghost use Rattle.lint_program.specs.Notes.{AreDuplicates, AreInConflict};

use crate::reading::Place;
use domain_base::{Name, ParsedName, Rtype, ToName};
use domain_borrowed::BorrowedRecord;
use lint_hints::{data_shape, has_extras, is_such};

/// The number of the type KEY, which has no constant of its own (RFC 2535, section 3).
const KEY: u16 = 25;

/// What one pass over the records looks for.
#[derive(Clone, Copy)]
pub enum Look {
    /// SOA records.
    Soas,
    /// Classes.
    Classes,
    /// TTLs.
    Ttls,
    /// Owners outside the zone.
    Outside,
    /// CNAME records.
    Aliases,
    /// Data.
    Data,
}

/// The reason for a note.
#[derive(Clone, Copy)]
pub enum Reason {
    /// The apex owns no SOA record.
    NoSoa,
    /// The apex already owns another SOA record.
    SecondSoa,
    /// An SOA record at another name.
    StraySoa,
    /// A class other than that of the first record.
    OtherClass,
    /// A TTL other than that of the first record of the owner and the type.
    OtherTtl,
    /// An owner outside the zone.
    Outside,
    /// A CNAME record beside another record of its owner, which is not equal.
    BesideAlias,
    /// Octets that do not encode data of the type.
    OddData,
    /// NSEC3PARAM data with additional iterations or a salt.
    Parameters,
}

/// A record, and its place in the input.
#[derive(Clone, Copy)]
pub struct Placed<'z, 'a> {
    /// The record.
    pub borrowed: &'z BorrowedRecord<'a>,
    /// Its place in the input.
    pub place: Place,
}

/// The key by which records are grouped: a name and a number.
pub type Group<'z> = (Name<&'z [u8]>, u16);

/// Returns a name as a part of a group. It borrows the octets.
fn named<'z>(name: &'z ParsedName<'_>) -> Name<&'z [u8]>
    ensures { result ≡ name.now }
{
    let Ok(named) = Name::from_octets(name.as_wire()) else {
        unreachable!();
    };
    named
}

/// Returns whether the record is an SOA record of the apex.
pub fn is_apex_soa(apex: &ParsedName<'_>, borrowed: &BorrowedRecord<'_>) -> bool
    ensures { result ≡ is_apex_soa apex.now borrowed.now }
{
    borrowed.rtype() == Rtype::SOA && borrowed.owner().name_eq(apex)
}

/// Returns whether records of the type may exist beside a CNAME record: RRSIG, NSEC and KEY (RFC
/// 4035, section 2.5; RFC 2181, section 10.1).
fn stands_beside_alias(rtype: Rtype) -> bool
    ensures { result ≡ stands_beside_alias rtype }
{
    rtype == Rtype::RRSIG || rtype == Rtype::NSEC || rtype.to_int() == KEY
}

/// Returns whether two records of one owner are one record: whether they have the same class, type
/// and data (RFC 2181, section 5).
fn are_duplicates(borrowed: &BorrowedRecord<'_>, other: &BorrowedRecord<'_>) -> bool
    ensures { IsTrue result ↔ AreDuplicates borrowed.now other.now }
{
    borrowed.class() == other.class()
        && borrowed.rtype() == other.rtype()
        && borrowed.data().octets() == other.data().octets()
}

/// Returns whether one of two records of one owner is CNAME, and they are not one record (RFC 1034,
/// section 3.6.2). Pass records that may not exist beside a CNAME record.
fn are_in_conflict(borrowed: &BorrowedRecord<'_>, other: &BorrowedRecord<'_>) -> bool
    ensures { IsTrue result ↔ AreInConflict borrowed.now other.now }
{
    let is_alias = (borrowed.rtype() == Rtype::CNAME) | (other.rtype() == Rtype::CNAME);
    is_alias && !are_duplicates(borrowed, other)
}

/// Returns the group of a record.
pub fn group_of<'z>(
    look: Look,
    apex: &'z ParsedName<'_>,
    borrowed: &'z BorrowedRecord<'_>,
) -> Group<'z>
    ensures { result ≡ group_of look apex.now borrowed.now }
{
    let rtype = borrowed.rtype();
    match look {
        Look::Soas => (named(apex), u16::from(is_apex_soa(apex, borrowed))),
        Look::Ttls => (named(borrowed.owner()), rtype.to_int()),
        Look::Aliases => (
            named(borrowed.owner()),
            u16::from(stands_beside_alias(rtype)),
        ),
        Look::Classes | Look::Outside | Look::Data => (named(apex), 0),
    }
}

/// Returns the reason why a record deserves a note, or None; `first` is the first record before it
/// in its group.
pub fn reason_of(
    look: Look,
    apex: &ParsedName<'_>,
    first: Option<Placed<'_, '_>>,
    borrowed: &BorrowedRecord<'_>,
) -> Option<Reason>
    ensures look { IfSome result (λ reason. look_of reason ≡ look) }
    ensures some { IfSome result (λ reason. Deserves reason apex.now
        (option_map (λ p. p.borrowed.now) first.entry) borrowed.now) }
    ensures none { IfNone result (FindsNothing look apex.now
        (option_map (λ p. p.borrowed.now) first.entry) borrowed.now) }
{
    let rtype = borrowed.rtype();
    match look {
        Look::Soas => {
            if rtype != Rtype::SOA {
                return None;
            }
            if !borrowed.owner().name_eq(apex) {
                return Some(Reason::StraySoa);
            }
            first?;
            Some(Reason::SecondSoa)
        }
        Look::Classes => {
            let first = first?.borrowed;
            (borrowed.class() != first.class()).then_some(Reason::OtherClass)
        }
        // RFC 2181, section 5.2; RRSIG records have the TTLs of the records that they sign.
        Look::Ttls => {
            let first = first?.borrowed;
            ((rtype != Rtype::RRSIG) & (borrowed.ttl() != first.ttl())).then_some(Reason::OtherTtl)
        }
        Look::Outside => (!borrowed.owner().ends_with(apex)).then_some(Reason::Outside),
        Look::Aliases => {
            let first = first?.borrowed;
            let is_beside = !stands_beside_alias(rtype) & are_in_conflict(borrowed, first);
            is_beside.then_some(Reason::BesideAlias)
        }
        Look::Data => {
            let octets = borrowed.data().octets();
            if !is_such(data_shape(rtype), octets) {
                return Some(Reason::OddData);
            }
            if rtype == Rtype::NSEC3PARAM && has_extras(octets) {
                return Some(Reason::Parameters);
            }
            None
        }
    }
}
