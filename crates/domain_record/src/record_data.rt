//! The traits of record data.
ghost use Rattle.std.specs.Prelude.{◌≡◌, ◌≤◌, ◌↔◌, ◌-◌, ℕ, Option, Some, SomeIff, length, IsTrue, IfOk, IfErr};
ghost use Rattle.std.specs.{Prelude.{OnErr, IfNone, MatchOption, codes}, Ordering.nat_cmp};
ghost use Rattle.std.specs.Cmp.Lexicographic.{slice_cmp};
ghost use Rattle.domain_octets.specs.Octets.{Octets};
ghost use Rattle.domain_names.specs.Wire.{fault_of};
ghost use Rattle.domain_fields.specs.Layout.{Layout, Values, Begins, FirstFault, GoesOn, Appends, in_form};

use domain_base::{Rtype, Ttl};
use domain_fields::{Form, MAX_RDLEN};
use domain_octets::{AppendError, OctetsBuilder, ParseError, Parser};
use std::cmp::Ordering;
use std::error::Error;
use std::fmt;

/// The error for record data of more than 65,535 octets, which a record cannot hold (RFC 1035,
/// section 3.2.1).
#[derive(Clone, Copy, Debug, PartialEq, Eq)]
pub struct LongRecordData;

impl fmt::Display for LongRecordData {
    ghost output = { λ _. Some (codes "record data too long") };

    fn fmt<W: fmt::Write>(&self, f: &mut fmt::Formatter<W>) -> fmt::Result {
        f.write_str("record data too long")
    }
}

impl Error for LongRecordData {}

/// Record data.
pub trait RecordData {
    /// The number of the type of the data.
    ghost rtype: { Self → ℕ };

    /// Returns the type of the data.
    fn rtype(&self) -> Rtype
        ensures { result ≡ rtype self.now };
}

/// Record data as the chains of the zone see them: their type and, for an SOA, the MINIMUM field.
pub trait ZoneData: RecordData {
    /// The MINIMUM field of SOA data, in seconds (RFC 1035, section 3.3.13), or `None` for data
    /// without this field.
    ghost minimum: { Self → Option ℕ };

    /// Returns the MINIMUM field of SOA data, or `None` for data without this field. It is the time
    /// for which a negative answer from a zone with this SOA may be cached (RFC 2308, section 4).
    fn soa_minimum(&self) -> Option<Ttl>
        ensures { result ≡ minimum self.now };
}

/// Data that can be read from the octets of a record (RFC 1035, section 3.2.1).
pub trait ParseRecordData<'a>: RecordData {
    /// Whether records of this type have such data.
    ghost is_read: { ℕ → Type 0 };

    /// The kinds of the fields, in the order of the wire.
    ghost layout: { Layout };

    /// The values of the fields.
    ghost values: { Self → Values layout };

    /// Reads data from the octets of a record of this type. Returns None and reads nothing for any
    /// other type. Does not allocate.
    ///
    /// # Errors
    ///
    /// The first fault in field order, as for `parse` of the type of the data. After an error the
    /// parser is unchanged.
    fn parse_rdata(rtype: Rtype, parser: &mut Parser<'a>) -> Result<Option<Self>, ParseError>
    where
        Self: Sized,
        ensures ok { IfOk result (λ found. MatchOption found (is_read rtype → ⊥)
            (λ «data». is_read rtype × (Self.rtype «data» ≡ rtype)
            × Begins layout parser.old.left (values «data») parser.new.left)) }
        ensures none { IfOk result (λ found. IfNone found (parser.new ≡ parser.old)) }
        ensures err { IfErr result (λ e. is_read rtype
            × FirstFault layout parser.old.left (fault_of e)) }
        ensures unmoved { OnErr result (parser.new ≡ parser.old) }
        ensures goes_on { GoesOn parser.old parser.new };
}

/// Data that can be written in wire form (RFC 1035, section 3.2.1) and in canonical form (RFC 4034,
/// section 6.2).
pub trait ComposeRecordData: RecordData {
    /// The octets of the wire form.
    ghost octets: { Self → Octets };

    /// The octets of the canonical form.
    ghost canonical: { Self → Octets };

    /// Returns how many of `limit` octets are left after the data, or `None` if the data do not
    /// fit.
    fn room_after(&self, limit: usize) -> Option<usize>
        ensures { SomeIff result (length (octets self.now) ≤ limit)
            (limit - length (octets self.now)) };

    /// Appends the octets in this form. After an error a first part of the octets may be appended.
    fn compose_in<B: OctetsBuilder>(&self, form: Form, target: &mut B) -> Result<(), AppendError>
        ensures { Appends B.limit result (B.octets target.old) (B.octets target.new)
            (in_form form (octets self.now) (canonical self.now)) };

    /// Returns the lexicographic order of the canonical octets and other octets. Does not allocate.
    fn canonical_cmp_octets(&self, other: &[u8]) -> Ordering
        ensures { result ≡ slice_cmp nat_cmp (canonical self.now) other.now };

    /// Returns whether the data have at most 65,535 octets, the most that a record can hold.
    fn fits_rdlen(&self) -> bool
        ensures { IsTrue result ↔ (length (octets self.now) ≤ 65535) }
    {
        self.room_after(MAX_RDLEN).is_some()
    }

    /// Returns the number of octets of the data. Names are never compressed, so `compress` has no
    /// effect.
    fn rdlen(&self, _compress: bool) -> Option<u16>
        requires { length (octets self.now) ≤ 65535 }
        ensures { result ≡ Some (length (octets self.now)) }
    {
        let left = self.room_after(MAX_RDLEN)?;
        Some((MAX_RDLEN - left) as u16)
    }

    /// Appends the wire form. After an error a first part of the octets may be appended.
    fn compose_rdata<B: OctetsBuilder>(&self, target: &mut B) -> Result<(), AppendError>
        ensures { Appends B.limit result (B.octets target.old) (B.octets target.new)
            (octets self.now) }
    {
        self.compose_in(Form::Wire, target)
    }

    /// Appends the canonical form. After an error a first part of the octets may be appended.
    fn compose_canonical_rdata<B: OctetsBuilder>(&self, target: &mut B) -> Result<(), AppendError>
        ensures { Appends B.limit result (B.octets target.old) (B.octets target.new)
            (canonical self.now) }
    {
        self.compose_in(Form::Canonical, target)
    }
}
