//! Worked values of octets, texts, names and numbers. Each line of the input is a vector. Its
//! answer is what the library makes of it.
#![tactic(auto)]

mod codecs;
mod names;
mod numbers;
mod octets;

use bytes::Bytes;
use codecs::split_codec;
use domain_base::*;
use domain_codecs::{Codec, DecodeError, base16, base32, base64_standard};
use domain_octets::*;
use std::alloc::Global;
use std::collections::{BTreeMap, HashMap};
use std::fmt::{Debug, Display, Formatter, Result as Printed, Write};
use std::io;
use std::str::FromStr;
use worked_lines::*;

/// The vectors on values.
struct Values;

impl Vectors for Values {
    fn answer(&self, subject: &str, form: &str, words: &[&str], answers: &mut Answers) -> Answered {
        match subject {
            "octets" => octets::answer(form, words, answers),
            "codec" => codecs::answer(form, words, answers),
            "constant" => numbers::constants(form, answers),
            "name" => names::answer(form, words, answers),
            "number" => numbers::answer(form, words, answers),
            "scan" => numbers::scanned(form, words, answers),
            _ => answers.echo("  no such subject"),
        }
    }
}

fn main(rt: HostRuntime) -> io::Result<()> {
    run(&rt, &Values)
}
