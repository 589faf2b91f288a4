//! Worked values of chains, of what their records prove, and of the records that a server answers
//! with. Each line of the input is a vector. Its answer is what the library makes of it.
#![tactic(auto)]

/// Adds the records that a chain lends, each on a line, and none past the last.
macro_rules! say_lent {
    ($answers:ident, $chain:ident) => {
        for place in 0..=$chain.len() {
            match $chain.lend(place) {
                Some(record) => $answers.show("record", &record),
                None => $answers.echo("  no further record"),
            };
        }
    };
}

/// Adds the owners of the records that were picked from a chain, each after its label.
macro_rules! say_owners {
    ($answers:ident, $chain:ident, $denial:ident: $($label:literal: $place:ident),*) => {{
        $(if let Some(listed) = $chain.lend($denial.$place.unwrap_or($chain.len())) {
            $answers.show($label, listed.owner());
        })*
    }};
}

mod nsec;
mod nsec3;
mod table;

use domain_base::*;
use domain_bitmap::Nsec3Salt;
use domain_dnssec::*;
use domain_octets::*;
use domain_rdata::{Nsec, Nsec3, Nsec3param, ZoneRecordData};
use domain_record::Record;
use std::alloc::Global;
use std::io;
use table::make_table;
use worked_lines::*;
use worked_records::*;

/// The vectors on chains.
struct Chains;

impl Vectors for Chains {
    fn answer(&self, subject: &str, form: &str, words: &[&str], answers: &mut Answers) -> Answered {
        match subject {
            "nsec" => nsec::answer(form, words, answers),
            "nsec3" => nsec3::answer(form, words, answers),
            _ => answers.echo("  no such subject"),
        }
    }
}

fn main(rt: HostRuntime) -> io::Result<()> {
    run(&rt, &Chains)
}
