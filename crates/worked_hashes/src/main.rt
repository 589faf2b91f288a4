//! Worked values of bitmaps, salts and hashes. Each line of the input is a vector. Its answer is
//! what the library makes of it.
#![tactic(auto)]

mod bitmaps;
mod hashes;

use bytes::Bytes;
use domain_base::*;
use domain_bitmap::{CountedOctets as Counted, RtypeBitmap as Bitmap, *};
use domain_codecs::DecodeError;
use domain_hasher::Nsec3Hasher;
use domain_octets::*;
use domain_sha1::Sha1Hasher;
use std::fmt::{Debug, Display};
use std::io;
use worked_lines::*;

/// The vectors on bitmaps, salts and hashes.
struct HashVectors;

impl Vectors for HashVectors {
    fn answer(&self, subject: &str, form: &str, words: &[&str], answers: &mut Answers) -> Answered {
        match subject {
            "bitmap" => bitmaps::answer(form, words, answers),
            "counted" => hashes::answer(form, words, answers),
            "digest" => hashes::digests(form, words, answers),
            _ => answers.echo("  no such subject"),
        }
    }
}

fn main(rt: HostRuntime) -> io::Result<()> {
    run(&rt, &HashVectors)
}
