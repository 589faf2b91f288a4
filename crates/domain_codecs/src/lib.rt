//! Octets as text: Base 16, Base 32 with the extended hex alphabet, and Base 64 (RFC 4648).
//!
//! [`Codec`] and the modules `base16`, `base32` and `base64_standard` encode and decode. The error
//! for a malformed text comes before the error for octets that do not fit.
//!
//! Other crates may rely on this. Encoding and decoding are functions of the octets. Texts in
//! Base 32 hex sort as their octets do (the module `laws`).
#![tactic(auto)]

pub mod base16;
pub mod base32;
pub mod base64_standard;
mod codec;
mod decoding;
mod joined;
mod judging;
pub mod laws;

pub use codec::{Codec, DecodeError};
