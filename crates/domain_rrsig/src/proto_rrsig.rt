//! The part of RRSIG data that is signed (RFC 4034, section 3.1.8.1).
ghost use Rattle.std.specs.Prelude.{◌≡◌, ◌≤◌, ◌↔◌, ◌+◌, IsOk, IfOk, length};
ghost use Rattle.domain_fields.specs.Layout.{Fits, octets_of, canonical_of, Appends};
ghost use Rattle.domain_rrsig.specs.Data.{proto_rrsig, proto_rrsig_values, proto_rrsig_data, rrsig_octets, rrsig_data, rrsig_numbers_values, of_numbers};

use crate::rrsig::fits;
use crate::{Rrsig, Timestamp};
use domain_base::{ParsedName, Rtype, SecurityAlgorithm, ToName, Ttl};
use domain_fields::{Fields, Form};
use domain_octets::{AppendError, Octets, OctetsBuilder, OutOfMemory, TryClone};
use domain_record::LongRecordData;
use std::marker::Model;

/// The fields of RRSIG data before there is a signature (RFC 4034, section 3.1). A signer signs
/// their octets, followed by the records.
#[derive(Drop)]
pub struct ProtoRrsig<N: ToName> {
    pub(crate) type_covered: Rtype,
    pub(crate) algorithm: SecurityAlgorithm,
    pub(crate) labels: u8,
    pub(crate) original_ttl: Ttl,
    pub(crate) expiration: Timestamp,
    pub(crate) inception: Timestamp,
    pub(crate) key_tag: u16,
    pub(crate) signer_name: N,
}

impl<N: ToName> Model for ProtoRrsig<N> {
    ghost use Rattle.domain_rrsig.specs.Data.{ProtoRrsigData, proto_rrsig_data};

    ghost Value = { ProtoRrsigData };

    ghost view = { λ d. proto_rrsig_data d.type_covered d.algorithm d.labels d.original_ttl
        d.expiration d.inception d.key_tag (N.labels d.signer_name) };
}

/// The numbers of RRSIG data: of 16, 8 and 8 bits, three of 32 bits, and one of 16 bits.
pub type Numbers = ((u16, (u8, u8)), ((u32, (u32, u32)), u16));

/// The numbers and the signer's name.
pub type ProtoFields<'a> = (Numbers, ParsedName<'a>);

impl<N: ToName> ProtoRrsig<N> {
    /// Returns these fields, in this order:
    ///
    /// - the type of the signed records, and the algorithm of the key;
    /// - the number of labels of the records' owner, without a leading asterisk and the root;
    /// - the TTL of the records;
    /// - the end and the beginning of the signature's validity;
    /// - the tag of the key, and its owner.
    pub fn new(
        type_covered: Rtype,
        algorithm: SecurityAlgorithm,
        labels: u8,
        original_ttl: Ttl,
        expiration: Timestamp,
        inception: Timestamp,
        key_tag: u16,
        signer_name: N,
    ) -> Self
        ensures { result ≡ proto_rrsig_data type_covered algorithm labels original_ttl expiration
            inception key_tag (N.labels signer_name) }
    {
        ProtoRrsig {
            type_covered,
            algorithm,
            labels,
            original_ttl,
            expiration,
            inception,
            key_tag,
            signer_name,
        }
    }

    /// Returns the data with this signature.
    ///
    /// # Errors
    ///
    /// `LongRecordData` if and only if the data would have more than 65,535 octets.
    pub fn into_rrsig<O: Octets + Drop>(self, signature: O) -> Result<Rrsig<O, N>, LongRecordData>
    where
        N: Drop,
        ensures ok { IsOk result ↔ (length (rrsig_octets (rrsig_data self (O.octets signature)))
            ≤ 65535) }
        ensures fields { IfOk result (λ d. d ≡ rrsig_data self (O.octets signature)) }
    {
        if !fits(&self, &signature) {
            return Err(LongRecordData);
        }
        Ok(Rrsig {
            fields: self,
            signature,
        })
    }

    /// Appends the wire form, with the name as it is spelled. After an error a first part of the
    /// octets may be appended.
    pub fn compose<B: OctetsBuilder>(&self, target: &mut B) -> Result<(), AppendError>
        ensures { Appends B.limit result (B.octets target.old) (B.octets target.new)
            (octets_of proto_rrsig (proto_rrsig_values self.now)) }
    {
        self.fields().put(Form::Wire, target)
    }

    /// Appends the canonical form, with the name lowered (RFC 4034, section 6.2). After an error a
    /// first part of the octets may be appended.
    pub fn compose_canonical<B: OctetsBuilder>(&self, target: &mut B) -> Result<(), AppendError>
        ensures { Appends B.limit result (B.octets target.old) (B.octets target.new)
            (canonical_of proto_rrsig (proto_rrsig_values self.now)) }
    {
        self.fields().put(Form::Canonical, target)
    }

    /// Returns the fields with these numbers and this name.
    pub(crate) fn of_parts(numbers: Numbers, signer_name: N) -> Self
        ensures { result ≡ of_numbers numbers (N.labels signer_name) }
    {
        let ((type_covered, (algorithm, labels)), (times, key_tag)) = numbers;
        let (original_ttl, (expiration, inception)) = times;
        ProtoRrsig {
            type_covered: Rtype::from_int(type_covered),
            algorithm: SecurityAlgorithm::from_int(algorithm),
            labels,
            original_ttl: Ttl::from_secs(original_ttl),
            expiration: Timestamp::from(expiration),
            inception: Timestamp::from(inception),
            key_tag,
            signer_name,
        }
    }

    /// Returns the numbers, in the order of the wire.
    pub(crate) fn numbers(&self) -> Numbers
        ensures values { result ≡ rrsig_numbers_values self.now }
        ensures fits { Fits proto_rrsig (proto_rrsig_values self.now) }
    {
        let _name = self.signer_name.as_wire();
        let (algorithm, labels, key_tag) = (self.algorithm.to_int(), self.labels, self.key_tag);
        let times = (self.expiration.into_int(), self.inception.into_int());
        (
            (self.type_covered.to_int(), (algorithm, labels)),
            ((self.original_ttl.as_secs(), times), key_tag),
        )
    }

    /// Returns the fields, in the order of the wire.
    pub(crate) fn fields(&self) -> ProtoFields<'_>
        ensures numbers { result.0 ≡ rrsig_numbers_values self.now }
        ensures signer { result.1 ≡ self.now.signer_name }
        ensures fits { Fits proto_rrsig (proto_rrsig_values self.now) }
    {
        (self.numbers(), self.signer_name.as_parsed())
    }

    /// Returns a copy. Uses the allocator of the name.
    pub fn clone(&self) -> Result<Self, OutOfMemory>
        ensures { IfOk result (λ copy. copy ≡ self.now) }
    {
        let signer_name = self.signer_name.try_clone()?;
        Ok(ProtoRrsig::of_parts(self.numbers(), signer_name))
    }
}

impl<N: ToName> TryClone for ProtoRrsig<N> {
    ghost is_clone = { λ d copy. copy ≡ d };

    fn try_clone(&self) -> Result<Self, OutOfMemory> {
        self.clone()
    }
}
