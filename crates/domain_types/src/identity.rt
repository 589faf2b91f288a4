//! Host identities and their rendezvous servers, which tokens spell (RFC 8005, section 6).
ghost use Rattle.std.specs.Prelude.{◌≡◌, ◌+◌, ◌++◌, ◌∷◌, ◌<◌, ◌≤◌, [], length, map, drop, IfOk, IfErr, OnOk};
ghost use Rattle.std.specs.{Int.{w16, to_be_bytes}};
ghost use Rattle.domain_octets.specs.Octets.{Octets};
ghost use Rattle.domain_types.specs.Reading.{token_text, FirstTokenFault, BaseTokenFault, FirstTag};
ghost use Rattle.domain_types.specs.Reading.{FirstKey, IdentityHead, IdentityTexts, IdentityFault};
ghost use Rattle.domain_codecs.specs.declared.codec.Codec.TheVariants as codecs;
ghost use Rattle.domain_types.specs.declared.field.Tail.TheVariants as tails;
ghost use Rattle.domain_svcb.specs.Strings.{Grows};

use crate::address::put_number;
use crate::field::{Field, Tail};
use crate::gateway::{append_both, first_octet};
use crate::read::{append, decode16, decode64, fault_of, put_many};
use crate::spell::part_of;
use crate::token::{DataFault, DataFaultKind, Token};
use domain_base::ParsedName;
use domain_octets::Octets;
use std::alloc::Global;

/// The greatest number of octets of a host identity tag.
const MAX_TAG: usize = 255;

/// The greatest number of octets of a public key.
const MAX_KEY: usize = 65535;

/// A host identity.
#[derive(Drop)]
struct Identity {
    /// The algorithm of the key.
    algorithm: u8,
    /// The host identity tag.
    tag: Vec<u8>,
    /// The public key.
    key: Vec<u8>,
}

/// Returns the host identity tag that the first token spells.
fn first_tag(alloc: Global, tokens: &[Token<'_>]) -> Result<Vec<u8>, DataFaultKind>
    ensures ok { IfOk result (λ tag. FirstTag (map token_text tokens.now) tag.items
        (drop 1 (map token_text tokens.now))) }
    ensures some { IfOk result (λ _. 0 < length tokens.now) }
    ensures fits { IfOk result (λ tag. length tag.items ≤ 255) }
    ensures err { IfErr result (FirstTokenFault (BaseTokenFault codecs.Base16 255 tails.Base16)
        (map token_text tokens.now)) }
{
    if tokens.is_empty() {
        return Err(DataFaultKind::Missing);
    }
    if tokens[0].is_quoted {
        return Err(DataFaultKind::Quoted);
    }
    match decode16(alloc, tokens[0].octets) {
        Ok(tag) if tag.len() > MAX_TAG => Err(DataFaultKind::NotTail(Tail::Base16)),
        Ok(tag) => Ok(tag),
        Err(fault) => Err(fault_of(fault, Tail::Base16).kind),
    }
}

/// Returns the public key that the first token spells.
fn first_key(alloc: Global, tokens: &[Token<'_>]) -> Result<Vec<u8>, DataFaultKind>
    ensures ok { IfOk result (λ key. FirstKey (map token_text tokens.now) key.items
        (drop 1 (map token_text tokens.now))) }
    ensures some { IfOk result (λ _. 0 < length tokens.now) }
    ensures fits { IfOk result (λ key. length key.items ≤ 65535) }
    ensures err { IfErr result (FirstTokenFault (BaseTokenFault codecs.Base64 65535 tails.Base64)
        (map token_text tokens.now)) }
{
    if tokens.is_empty() {
        return Err(DataFaultKind::Missing);
    }
    if tokens[0].is_quoted {
        return Err(DataFaultKind::Quoted);
    }
    match decode64(alloc, tokens[0].octets) {
        Ok(key) if key.len() > MAX_KEY => Err(DataFaultKind::NotTail(Tail::Base64)),
        Ok(key) => Ok(key),
        Err(fault) => Err(fault_of(fault, Tail::Base64).kind),
    }
}

/// Returns the host identity that the first three tokens spell.
fn read_identity(
    alloc: Global,
    tokens: &[Token<'_>],
    origin: &ParsedName<'_>,
) -> Result<Identity, DataFault>
    ensures ok { IfOk result (λ identity. IdentityHead origin.now (map token_text tokens.now)
        identity.algorithm identity.tag.items identity.key.items
        (drop 3 (map token_text tokens.now))) }
    ensures some { IfOk result (λ _. 3 ≤ length tokens.now) }
    ensures fits { IfOk result (λ identity.
        (length identity.tag.items ≤ 255) × (length identity.key.items ≤ 65535)) }
    ensures err { IfErr result (λ e.
        IdentityFault origin.now (map token_text tokens.now) e.token e.kind) }
    ensures place { IfErr result (λ e. e.token ≤ length tokens.now) }
{
    let algorithm = match first_octet(alloc, Field::Number8, tokens, origin) {
        Ok(algorithm) => algorithm,
        Err(kind) => return Err(DataFault { token: 0, kind }),
    };
    let tag = match first_tag(alloc, &tokens[1..]) {
        Ok(tag) => tag,
        Err(kind) => return Err(DataFault { token: 1, kind }),
    };
    match first_key(alloc, &tokens[2..]) {
        Ok(key) => Ok(Identity {
            algorithm,
            tag,
            key,
        }),
        Err(kind) => Err(DataFault { token: 2, kind }),
    }
}

/// Appends a host identity: the lengths of its tag and of its key, and the algorithm, come first.
fn append_identity(identity: &Identity, out: &mut Vec<u8>) -> Result<(), DataFault>
    requires { (length identity.now.tag.items ≤ 255) × (length identity.now.key.items ≤ 65535) }
    ensures ok { OnOk result (out.new.items ≡ out.old.items
        ++ ((length identity.now.tag.items ∷ identity.now.algorithm
        ∷ to_be_bytes w16 (length identity.now.key.items))
        ++ (identity.now.tag.items ++ identity.now.key.items))) }
    ensures err { IfErr result (λ e. (e.token ≡ 0) × (e.kind ≡ DataFaultKind.OutOfMemory)) }
    ensures grows { Grows out.old.items out.new.items }
{
    let mut front = part_of(&[identity.tag.len() as u8, identity.algorithm]);
    put_number(&mut front, identity.key.len() as u16);
    match append(front.as_slice(), out) {
        Ok(()) => append_both(identity.tag.as_slice(), identity.key.as_slice(), out),
        Err(fault) => Err(fault),
    }
}

/// Appends the host identity and the rendezvous servers that tokens spell.
pub(crate) fn put_identity(
    alloc: Global,
    tokens: &[Token<'_>],
    origin: &ParsedName<'_>,
    out: &mut Vec<u8>,
) -> Result<(), DataFault>
    ensures ok { OnOk result ((part : Octets)
        × IdentityTexts origin.now (map token_text tokens.now) part
        × (out.new.items ≡ out.old.items ++ part)) }
    ensures err { IfErr result (λ e.
        IdentityFault origin.now (map token_text tokens.now) e.token e.kind) }
    ensures place { IfErr result (λ e. e.token ≤ length tokens.now) }
    ensures grows { Grows out.old.items out.new.items }
{
    let identity = match read_identity(alloc, tokens, origin) {
        Ok(identity) => identity,
        Err(fault) => return Err(fault),
    };
    if let Err(fault) = append_identity(&identity, out) {
        return Err(fault);
    }
    match put_many(alloc, Field::Name, &tokens[3..], origin, out) {
        Ok(()) => Ok(()),
        Err(fault) => Err(DataFault {
            token: 3 + fault.token,
            kind: fault.kind,
        }),
    }
}
