//! Records.
ghost use Rattle.std.specs.{Prelude.{◌≡◌, ◌⊎◌, Some, IfOk}, Borrow.sem};
ghost use Rattle.std.specs.declared.cmp.Ordering.TheVariants.{Equal};
ghost use Rattle.domain_record.specs.Record.{IsRecordClone, LendsData};

use crate::{RecordData, both};
use domain_base::{CanonicalOrd, Class, Rtype, ToName, Ttl};
use domain_octets::{AppendError, OctetsFrom, OutOfMemory, TryClone};
use std::alloc::Global;
use std::cmp::Ordering;
use std::fmt;

/// A record: an owner, a class, the time in seconds for which it may be cached, and data (RFC 1035,
/// section 3.2).
#[derive(Debug, Drop)]
pub struct Record<N, D> {
    owner: N,
    class: Class,
    ttl: Ttl,
    data: D,
}

impl<N, D> Record<N, D> {
    /// Returns a record of these parts.
    pub fn new(owner: N, class: Class, ttl: Ttl, data: D) -> Self
        ensures { result ≡ record { owner = owner; class = class; ttl = ttl; «data» = «data» } }
    {
        Record {
            owner,
            class,
            ttl,
            data,
        }
    }

    /// Returns the name that owns the record.
    pub fn owner(&self) -> &N
        ensures { result.now ≡ self.now.owner }
    {
        &self.owner
    }

    /// Returns the class.
    pub fn class(&self) -> Class
        ensures { result ≡ self.now.class }
    {
        self.class
    }

    /// Returns the time for which the record may be cached.
    pub fn ttl(&self) -> Ttl
        ensures { result ≡ self.now.ttl }
    {
        self.ttl
    }

    /// Returns the data.
    pub fn data(&self) -> &D
        ensures { result.now ≡ self.now.«data» }
    {
        &self.data
    }

    /// Returns the owner, the class, the TTL and the data.
    pub fn into_parts(self) -> (N, Class, Ttl, D)
        ensures { self ≡ record {
          owner = result.0;
          class = result.1;
          ttl = result.2;
          «data» = result.3;
        } }
    {
        (self.owner, self.class, self.ttl, self.data)
    }

    /// Replaces the TTL.
    pub fn set_ttl(&mut self, ttl: Ttl)
        ensures { self.new ≡ record {
          owner = self.old.owner;
          class = self.old.class;
          ttl = ttl;
          «data» = self.old.«data»;
        } }
    {
        self.ttl = ttl;
    }

    /// Returns a mutable borrow of the data.
    pub fn data_mut(&mut self) -> &mut D
        ensures* writes_back { sem 𝓛 (LendsData N.row D.row self.entry result) }
        ensures value { result.now ≡ self.old.«data» }
    {
        &mut self.data
    }
}

impl<N, D: RecordData> Record<N, D> {
    /// Returns the type of the data.
    pub fn rtype(&self) -> Rtype
        ensures { result ≡ D.rtype self.now.«data» }
    {
        self.data.rtype()
    }
}

// Compares owner, class and data. The TTL is not compared.
impl<N: ToName, D: PartialEq> PartialEq for Record<N, D> {
    ghost use Rattle.domain_record.specs.Record.{record_eq, record_eq_partial};

    ghost eq = { record_eq N.labels D.eq };

    ghost laws = { record_eq_partial N.labels D.eq D.laws };

    fn eq(&self, other: &Self) -> bool {
        self.owner.name_eq(&other.owner) && self.class == other.class && self.data == other.data
    }
}

impl<N: ToName, D: Eq> Eq for Record<N, D> {
    ghost use Rattle.domain_record.specs.Record.{record_eq_equiv};

    ghost laws = { record_eq_equiv N.labels D.eq D.Eq.laws };
}

/// Data whose copies have the same type and tie with them in the canonical order.
pub trait CloneRecordData: RecordData + CanonicalOrd + TryClone {
    /// A copy has the same type.
    ghost clone_rtype: { (value copy : Self) → Self.is_clone value copy
        → Self.rtype copy ≡ Self.rtype value };

    /// A copy ties with its original in the canonical order.
    ghost clone_canonical: { (value copy : Self) → Self.is_clone value copy
        → Self.canonical_cmp value copy ≡ Equal };
}

impl<N: TryClone + Drop, D: TryClone> Record<N, D> {
    /// Returns a copy. Returns `OutOfMemory` if there is no memory for it.
    pub fn clone(&self) -> Result<Self, OutOfMemory>
        ensures { IfOk result (IsRecordClone N.is_clone D.is_clone self.now) }
    {
        let owner = self.owner().try_clone()?;
        let data = self.data().try_clone()?;
        Ok(Record::new(owner, self.class(), self.ttl(), data))
    }
}

// Copies the owner and the data. The class and the TTL are the same.
impl<N: TryClone + Drop, D: TryClone> TryClone for Record<N, D> {
    ghost is_clone = { IsRecordClone N.is_clone D.is_clone };

    fn try_clone(&self) -> Result<Self, OutOfMemory> {
        self.clone()
    }
}

// Converts the owner and the data. The class and the TTL are the same.
impl<M, E, N: OctetsFrom<M> + Drop, D: OctetsFrom<E> + Drop> OctetsFrom<Record<M, E>>
    for Record<N, D> {
    ghost is_same = { IsRecordClone N.is_same D.is_same };

    ghost has_no_room = { λ source. N.has_no_room source.owner ⊎ D.has_no_room source.«data» };

    ghost takes_memory = { N.takes_memory ⊎ D.takes_memory };

    fn try_octets_from(alloc: Global, source: Record<M, E>) -> Result<Self, AppendError> {
        let (owner, data) = both(
            N::try_octets_from(alloc, source.owner),
            D::try_octets_from(alloc, source.data),
        )?;
        Ok(Record::new(owner, source.class, source.ttl, data))
    }
}

// Compares class, owner, type and data, in this order. The TTL is not compared.
impl<N: ToName, D: RecordData + CanonicalOrd> CanonicalOrd for Record<N, D> {
    ghost use Rattle.domain_record.specs.Record.{record_cmp, record_cmp_total};

    ghost canonical_cmp = { record_cmp N.labels D.rtype D.canonical_cmp };

    ghost total = { record_cmp_total N.labels D.rtype D.canonical_cmp D.total };

    fn canonical_cmp(&self, other: &Self) -> Ordering {
        self.class
            .cmp(&other.class)
            .then_with(|| self.owner.name_cmp(&other.owner))
            .then_with(|| self.data.rtype().cmp(&other.data.rtype()))
            .then_with(|| self.data.canonical_cmp(&other.data))
    }
}

/// A class with a space before and after it. The most common class is written in one piece.
#[derive(Drop)]
struct Spaced(Class);

impl fmt::Display for Spaced {
    ghost use Rattle.domain_record.specs.Record.{spaced_class};

    ghost output = { λ c. Some (spaced_class c.0) };

    fn fmt<W: fmt::Write>(&self, f: &mut fmt::Formatter<W>) -> fmt::Result {
        if self.0 == Class::IN {
            return f.write_str(" IN ");
        }
        write!(f, " {} ", self.0)
    }
}

/// Writes the owner with its last dot, the TTL, the class, the type and the data, with single
/// spaces between them.
impl<N: ToName, D: RecordData + fmt::Display> fmt::Display for Record<N, D> {
    ghost use Rattle.domain_record.specs.Record.{record_text};

    ghost output = { record_text N.labels D.rtype D.output };

    #[tactic(auto, using(crate::proofs::RecordLemmas::class_in_spaces))]
    fn fmt<W: fmt::Write>(&self, f: &mut fmt::Formatter<W>) -> fmt::Result {
        let (owner, class) = (self.owner.fmt_with_dot(), Spaced(self.class));
        write!(
            f,
            "{owner} {}{class}{} {}",
            self.ttl,
            self.data.rtype(),
            self.data
        )
    }
}
