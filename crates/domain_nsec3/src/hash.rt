//! Hashes of names, each stored inline, and their text.
ghost use Rattle.std.specs.Prelude.{◌≡◌, ◌≤◌, length, take, map, ◌+◌, ◌<◌, ◌++◌, ◌∷◌, ◌⊎◌, [], Ok, Err, Some, None};
ghost use Rattle.std.specs.Prelude.{All, IfOk, IfErr, IfSome, IsErrOf, OnOk, OnSome, vec_capacity, vec_len};
ghost use Rattle.std.specs.{Ordering.nat_cmp, Cmp.Lexicographic.slice_cmp, Fmt.WritesOnOk};
ghost use Rattle.domain_octets.specs.{Octets.Octets, Text.dot};
ghost use Rattle.domain_codecs.specs.Base32.{base32_lower};
ghost use Rattle.domain_nsec3.specs.{Chain.{hashed_owner, hash_name, hash_fault, IsNoHash}, Steps.AreHashesOf};
ghost use Rattle.domain_nsec3.specs.Steps.{AreFirstHashes, IsFirstRefused, IsHashed, IsPlacedHash, IsRefusal};
ghost use Rattle.domain_nsec3.specs.View.{hash_by, parameters_of};
ghost use Rattle.domain_names.specs.Text.{name_text};
ghost use Rattle.domain_hasher.specs.declared.error.Nsec3HashError.TheVariants as hash_error;

use domain_base::{MAX_NAME, MakeName, Nsec3HashAlgorithm, ParsedName, ToName};
use domain_bitmap::Nsec3Salt;
use domain_chain_rdata::Nsec3param;
use domain_codecs::base32::Digits;
use domain_hasher::{HasherError, Nsec3HashError, Nsec3Hasher};
use domain_octets::{Octets, OutOfMemory};
use std::alloc::Global;
use std::cmp::Ordering;
use std::fmt;
use std::marker::Model;

/// Room for the text of a hash that is a label, of at most 63 octets, and seven more octets: digits
/// are written eight at a time.
const MAX_TEXT: usize = 70;

/// Writes the text of a hash in lower case to the front of a buffer.
fn write_hash<'a>(buffer: &'a mut [u8], hash: &[u8]) -> &'a [u8]
    requires { length (base32_lower hash.now) + 7 ≤ length buffer.old }
    ensures { result.now ≡ base32_lower hash.now }
{
    let end = Digits::new(hash).put_lower(buffer);
    &buffer[..end]
}

/// Prints the text of a hash in lower case.
pub(crate) fn display_hash<W: fmt::Write>(hash: &[u8], f: &mut fmt::Formatter<W>) -> fmt::Result
    requires { length hash.now ≤ 39 }
    ensures { WritesOnOk W.write_str_gives f.old result (base32_lower hash.now) f.new }
{
    let mut buffer = [0; MAX_TEXT];
    let text = write_hash(&mut buffer, hash);
    f.write_str(unsafe { str::from_utf8_unchecked(text) })
}

/// The greatest length of a hash whose text fits in one label.
pub(crate) const MAX_HASH: usize = 39;

/// At most 39 octets, stored inline, so a list of hashes takes one allocation.
#[derive(Drop)]
pub(crate) struct NameHash {
    octets: [u8; MAX_HASH],
    len: u8,
}

impl Model for NameHash {
    ghost use Rattle.std.specs.Prelude.{◌≤◌, take};
    ghost use Rattle.domain_octets.specs.Octets.{Octets};

    ghost Value = { Octets };

    ghost view = { λ h. take h.len h.octets };

    ghost invariant = { λ h. h.len ≤ 39 };
}

impl NameHash {
    /// Returns a copy of these octets.
    pub(crate) fn new(hash: &[u8]) -> Self
        requires { length hash.now ≤ 39 }
        ensures { result ≡ hash.now }
    {
        let mut octets = [0; MAX_HASH];
        octets[..hash.len()].copy_from_slice(hash);
        NameHash {
            octets,
            len: hash.len() as u8,
        }
    }

    /// Returns the octets.
    pub(crate) fn as_slice(&self) -> &[u8]
        ensures { result.now ≡ self.now }
    {
        &self.octets[..usize::from(self.len)]
    }

    /// Compares the octets.
    pub(crate) fn compare(&self, other: &Self) -> Ordering
        ensures { result ≡ slice_cmp nat_cmp self.now other.now }
    {
        self.as_slice().cmp(other.as_slice())
    }
}

/// The greatest number of names in a chain: a place takes four octets.
pub(crate) const MAX_NAMES: usize = 0xffff_ffff;

/// A hashed name of a chain: its hash, and its place among the names as they were hashed. It takes
/// 44 octets.
#[derive(Drop)]
pub(crate) struct Hashed {
    pub(crate) hash: NameHash,
    pub(crate) place: u32,
}

/// Checks that octets can be used as a hash below an apex. Otherwise returns the first reason why
/// not.
#[tactic(auto, using(std::proofs::lemmas::Grind::common_steps, domain_octets::proofs::WordLemmas::octets_from_type, crate::proofs::OwnerLemmas::owner_length))]
fn check_hash(apex: &ParsedName<'_>, hash: &[u8]) -> Result<(), Nsec3HashError>
    ensures ok { OnOk result (hash_fault apex.now (Ok hash.now) ≡ None) }
    ensures octets { OnOk result (All (λ octet. octet < 256) hash.now) }
    ensures err { IfErr result (λ e. hash_fault apex.now (Ok hash.now) ≡ Some e) }
    ensures memory { IsErrOf result hash_error.OutOfMemory → ⊥ }
{
    if hash.is_empty() || hash.len() > MAX_HASH {
        return Err(Nsec3HashError::OwnerHashError);
    }
    let digits = (8 * hash.len() + 4) / 5;
    if digits + 1 + apex.as_wire().len() > MAX_NAME {
        return Err(Nsec3HashError::Nsec3NameTooLong);
    }
    Ok(())
}

/// Returns the hash of a name by these parameters. `wire` is the wire form of the name in lower
/// case.
///
/// # Errors
///
/// `Hasher` with the number of the hasher's error, and `OutOfMemory` if the hasher has no memory.
pub fn hash_wire<H: Nsec3Hasher, O: Octets>(
    alloc: Global,
    hasher: &H,
    params: &Nsec3param<O>,
    wire: &[u8],
) -> Result<Vec<u8>, Nsec3HashError>
    ensures ok { IfOk result (λ hash.
        hash_by (H.answer hasher.now) (parameters_of params.now) wire.now ≡ Ok hash.items) }
    ensures err { IfErr result (IsNoHash (λ n.
        hash_by (H.answer hasher.now) (parameters_of params.now) wire.now ≡ Err n)
        (H.takes_memory hasher.now)) }
{
    let (algorithm, iterations) = (params.hash_algorithm(), params.iterations());
    match hasher.hash(alloc, wire, algorithm, iterations, params.salt().as_slice()) {
        Ok(hash) => Ok(hash),
        Err(HasherError::Refused(reason)) => Err(Nsec3HashError::Hasher(reason)),
        Err(HasherError::OutOfMemory) => Err(Nsec3HashError::OutOfMemory),
    }
}

/// Returns the hash of a name by these parameters, if it can be used.
fn hash_checked<H: Nsec3Hasher, O: Octets>(
    alloc: Global,
    hasher: &H,
    params: &Nsec3param<O>,
    apex: &ParsedName<'_>,
    name: &ParsedName<'_>,
) -> Result<Vec<u8>, Nsec3HashError>
    ensures ok { IfOk result (λ hash. IsHashed apex.now
        (hash_by (H.answer hasher.now) (parameters_of params.now)) name.now hash.items) }
    ensures err { IfErr result (IsRefusal apex.now
        (hash_name (hash_by (H.answer hasher.now) (parameters_of params.now)) name.now)) }
    ensures memory { IsErrOf result hash_error.OutOfMemory → H.takes_memory hasher.now }
{
    let mut buffer = [0; MAX_NAME];
    let lowered = name.lower_wire(&mut buffer);
    let hash = hash_wire(alloc, hasher, params, lowered)?;
    check_hash(apex, hash.as_slice())?;
    Ok(hash)
}

/// Writes octets at a place in a buffer, and returns the place after them.
fn put_octets(buffer: &mut [u8], at: usize, octets: &[u8]) -> usize
    requires { at + length octets.now ≤ length buffer.old }
    ensures end { result ≡ at + length octets.now }
    ensures front { take result buffer.new ≡ take at buffer.old ++ octets.now }
    ensures room { length buffer.new ≡ length buffer.old }
{
    let end = at + octets.len();
    buffer[at..end].copy_from_slice(octets);
    end
}

/// Writes a label with its length, and then the name above it, to the front of a buffer.
#[tactic(auto, using(crate::proofs::OwnerLemmas::first_set))]
fn join_label<'a>(buffer: &'a mut [u8], label: &[u8], above: &[u8]) -> &'a [u8]
    requires label { length label.now < 256 }
    requires fits { length label.now + 1 + length above.now ≤ length buffer.old }
    ensures { result.now ≡ length label.now ∷ (label.now ++ above.now) }
{
    buffer[0] = label.len() as u8;
    let start = put_octets(buffer, 1, label);
    let end = put_octets(buffer, start, above);
    &buffer[..end]
}

/// Returns the owner of the record of a hash: the text of the hash in lower case as a label before
/// the apex.
pub(crate) fn make_owner<N: MakeName>(
    alloc: Global,
    apex: &ParsedName<'_>,
    hash: &[u8],
) -> Result<N, OutOfMemory>
    requires { hash_fault apex.now (Ok hash.now) ≡ None }
    ensures { IfOk result (λ owner. N.labels owner ≡ hashed_owner apex.now hash.now) }
{
    let above = apex.as_wire();
    let mut text = [0; MAX_TEXT];
    let label = write_hash(&mut text, hash);
    let mut wire = [0; MAX_NAME];
    Ok(N::make(alloc, join_label(&mut wire, label, above))?)
}

/// Returns the owner of the NSEC3 record of a name (RFC 5155, section 3): the hash of the name, in
/// lower case, as a label before the apex.
///
/// # Errors
///
/// The first of these that applies: `Hasher` if the hasher returns an error; `OwnerHashError` if
/// the hash has no octets or more than 39; `Nsec3NameTooLong` if the owner would be longer than 255
/// octets; and `OutOfMemory`. With `OutOfMemory`, one of the other faults may exist too only if the
/// hasher takes memory.
pub fn mk_hashed_nsec3_owner_name<H: Nsec3Hasher, O: Octets, N: MakeName>(
    alloc: Global,
    name: &N,
    algorithm: Nsec3HashAlgorithm,
    iterations: u16,
    salt: &Nsec3Salt<O>,
    apex: &N,
    hasher: &H,
) -> Result<N, Nsec3HashError>
where
    N: Drop,
    ensures owner { IfOk result (λ owner. (h : Octets)
        × (hash_name (hash_by (H.answer hasher.now)
        (record { algorithm = algorithm; iterations = iterations; salt = salt.now }))
        (N.labels name.now) ≡ Ok h)
        × (N.labels owner ≡ hashed_owner (N.labels apex.now) h)) }
    ensures sound { IfOk result (λ owner. hash_fault (N.labels apex.now)
        (hash_name (hash_by (H.answer hasher.now)
        (record { algorithm = algorithm; iterations = iterations; salt = salt.now }))
        (N.labels name.now)) ≡ None) }
    ensures fault { IfErr result (IsRefusal (N.labels apex.now)
        (hash_name (hash_by (H.answer hasher.now)
        (record { algorithm = algorithm; iterations = iterations; salt = salt.now }))
        (N.labels name.now))) }

    // The name takes memory only after the hash is known to have no fault.
    ensures memory { IsErrOf result hash_error.OutOfMemory → H.takes_memory hasher.now
        ⊎ (hash_fault (N.labels apex.now) (hash_name (hash_by (H.answer hasher.now)
        (record { algorithm = algorithm; iterations = iterations; salt = salt.now }))
        (N.labels name.now)) ≡ None) }
{
    let apex = apex.as_parsed();
    let salt = salt.with_octets(salt.as_slice());
    let params = Nsec3param::new(algorithm, 0, iterations, salt);
    let hash = hash_checked(alloc, hasher, &params, &apex, &name.as_parsed())?;
    Ok(make_owner(alloc, &apex, hash.as_slice())?)
}

/// Returns a hash with the place of its name, if it can be used as a hash below the apex.
fn place_hash(apex: &ParsedName<'_>, hash: &[u8], place: usize) -> Option<Hashed>
    ensures { IfSome result (IsPlacedHash apex.now hash.now place) }
{
    check_hash(apex, hash).ok()?;
    let hash = NameHash::new(hash);
    let place = u32::try_from(place).ok()?;
    Some(Hashed { hash, place })
}

/// Returns the hashes of four names, in their order, or `None` if the hasher returns an error for
/// one of them.
fn hash_four<H: Nsec3Hasher, O: Octets>(
    alloc: Global,
    hasher: &H,
    params: &Nsec3param<O>,
    names: [&ParsedName<'_>; 4],
) -> Option<[Vec<u8>; 4]>
    ensures { IfSome result (λ hashes. map (λ hash. Ok hash.items) hashes
        ≡ map (λ name. hash_name (hash_by (H.answer hasher.now) (parameters_of params.now))
        name.now) names.entry) }
{
    let [first, second, third, fourth] = names;
    let (mut a, mut b, mut c, mut d) = ([0; MAX_NAME], [0; MAX_NAME], [0; MAX_NAME], [0; MAX_NAME]);
    let wires = [
        first.lower_wire(&mut a),
        second.lower_wire(&mut b),
        third.lower_wire(&mut c),
        fourth.lower_wire(&mut d),
    ];
    let (algorithm, iterations) = (params.hash_algorithm(), params.iterations());
    let salt = params.salt().as_slice();
    let Ok(hashes) = hasher.hash_four(alloc, wires, algorithm, iterations, salt) else {
        return None;
    };
    Some(hashes)
}

/// Appends the hashes of the next four names to those of the names before them, each with the place
/// of its name. Appends nothing and returns `None` if one of the four has an error, or if the
/// hasher is out of memory.
fn push_four<H: Nsec3Hasher, O: Octets>(
    alloc: Global,
    hasher: &H,
    params: &Nsec3param<O>,
    apex: &ParsedName<'_>,
    names: &[ParsedName<'_>],
    hashed: &mut Vec<Hashed>,
) -> Option<()>
    requires four { length hashed.old.items + 4 ≤ length names.now }
    requires room { length names.now ≤ vec_capacity hashed.old }
    requires before { AreFirstHashes apex.now (hash_by (H.answer hasher.now)
        (parameters_of params.now)) names.now hashed.old.items }
    ensures hashes { AreFirstHashes apex.now (hash_by (H.answer hasher.now)
        (parameters_of params.now)) names.now hashed.new.items }
    ensures four { OnSome result (length hashed.new.items ≡ length hashed.old.items + 4) }
    ensures none { (result ≡ None) → hashed.new.items ≡ hashed.old.items }
    ensures capacity { vec_capacity hashed.new ≡ vec_capacity hashed.old }
{
    let at = hashed.len();
    let group = [&names[at], &names[at + 1], &names[at + 2], &names[at + 3]];
    let hashes = hash_four(alloc, hasher, params, group)?;
    let first = place_hash(apex, hashes[0].as_slice(), at)?;
    let second = place_hash(apex, hashes[1].as_slice(), at + 1)?;
    let third = place_hash(apex, hashes[2].as_slice(), at + 2)?;
    let fourth = place_hash(apex, hashes[3].as_slice(), at + 3)?;
    hashed.push_reserved(first);
    hashed.push_reserved(second);
    hashed.push_reserved(third);
    hashed.push_reserved(fourth);
    Some(())
}

/// Appends the hashes of names to an empty list with room for them, four at a time, each with the
/// place of its name. Stops before four names that `push_four` does not append.
fn hash_fours<H: Nsec3Hasher, O: Octets>(
    alloc: Global,
    hasher: &H,
    params: &Nsec3param<O>,
    apex: &ParsedName<'_>,
    names: &[ParsedName<'_>],
    mut hashed: Vec<Hashed>,
) -> Vec<Hashed>
    requires empty { hashed.items ≡ [] }
    requires room { length names.now ≤ vec_capacity hashed }
    ensures hashes { AreFirstHashes apex.now (hash_by (H.answer hasher.now)
        (parameters_of params.now)) names.now result.items }
    ensures room { length names.now ≤ vec_capacity result }
{
    'fours: while hashed.len() + 4 <= names.len() {
        if push_four(alloc, hasher, params, apex, names, &mut hashed).is_none() {
            return hashed;
        }
    }
    hashed
}

/// Returns the hashes of names, each with the place of its name, in the list `hashed` that has room
/// for them, or the first error. Passes the hasher four names at a time, as long as none has an
/// error. Takes no memory except the hasher's.
pub(crate) fn hash_into<H: Nsec3Hasher, O: Octets>(
    alloc: Global,
    hasher: &H,
    params: &Nsec3param<O>,
    apex: &ParsedName<'_>,
    names: &[ParsedName<'_>],
    hashed: Vec<Hashed>,
) -> Result<Vec<Hashed>, Nsec3HashError>
    requires empty { hashed.items ≡ [] }
    requires none { vec_len hashed ≡ 0 }
    requires room { length names.now ≤ vec_capacity hashed }
    requires few { length names.now ≤ 4294967295 }
    ensures ok { IfOk result (λ hashed. AreHashesOf apex.now
        (hash_by (H.answer hasher.now) (parameters_of params.now)) names.now hashed.items) }
    ensures err { IfErr result (λ e. (e ≡ hash_error.OutOfMemory)
        ⊎ IsFirstRefused apex.now (hash_by (H.answer hasher.now) (parameters_of params.now))
        names.now e) }
    ensures memory { IsErrOf result hash_error.OutOfMemory → H.takes_memory hasher.now }
{
    let mut hashed = hash_fours(alloc, hasher, params, apex, names, hashed);
    for place in hashed.len()..names.len() {
        let octets = hash_checked(alloc, hasher, params, apex, &names[place])?;
        let hash = NameHash::new(octets.as_slice());
        let place = place as u32;
        hashed.push_reserved(Hashed { hash, place });
    }
    Ok(hashed)
}

/// The owner of the record of a hash (RFC 5155, section 3): the text of the hash in lower case as a
/// label before the apex. Contracts see the name. It stores the hash and the apex, and spells out
/// the name only when it is printed or made. It prints with its last dot.
#[derive(Drop)]
pub struct HashedOwner<'a> {
    apex: ParsedName<'a>,
    hash: &'a [u8],
}

impl<'a> Model for HashedOwner<'a> {
    ghost use Rattle.std.specs.Prelude.{◌≡◌, ◌<◌, All, Ok, None};
    ghost use Rattle.domain_names.specs.Name.{Name};
    ghost use Rattle.domain_nsec3.specs.Chain.{hashed_owner, hash_fault};

    ghost Value = { Name };

    ghost view = { λ o. hashed_owner o.apex o.hash.now };

    ghost invariant = { λ o. (hash_fault o.apex (Ok o.hash.now) ≡ None)
        × All (λ octet. octet < 256) o.hash.now };
}

impl<'a> HashedOwner<'a> {
    /// Returns the owner of the record of a hash below an apex.
    pub(crate) fn new(apex: ParsedName<'a>, hash: &'a [u8]) -> Self
        requires { hash_fault apex (Ok hash.now) ≡ None }
        ensures { result ≡ hashed_owner apex.entry hash.now }
    {
        HashedOwner { apex, hash }
    }

    /// Returns the name, in octets of its own.
    pub fn make<N: MakeName>(&self, alloc: Global) -> Result<N, OutOfMemory>
        ensures { IfOk result (λ owner. N.labels owner ≡ self.now) }
    {
        make_owner(alloc, &self.apex, self.hash)
    }
}

impl fmt::Display for HashedOwner<'_> {
    ghost output = { λ n. Some (name_text n ++ dot ∷ []) };

    #[tactic(auto, using(std::proofs::lemmas::Grind::common_steps, crate::proofs::OwnerLemmas::owner_at_root, crate::proofs::OwnerLemmas::owner_below))]
    fn fmt<W: fmt::Write>(&self, f: &mut fmt::Formatter<W>) -> fmt::Result {
        display_hash(self.hash, f)?;
        if self.apex.is_root() {
            return f.write_str(".");
        }
        write!(f, ".{}", self.apex.fmt_with_dot())
    }
}
