//! Worked values of records and of sorted sets of them. Each line of the input is a vector. Its
//! answer is what the library makes of it.
#![tactic(auto)]

mod entries;
mod kept;
mod zones;

use bytes::Bytes;
use domain_base::*;
use domain_message::{
    LineError, is_no_entry, read_name, read_record, scan_behind_owner, scan_entry,
};
use domain_octets::*;
use domain_plain::{A, Soa};
use domain_rdata::ZoneRecordData;
use domain_record::Record;
use domain_records::*;
use domain_zone::{UnoccludedOwners, find_soa};
use std::fmt::{Error, Result as Printed, Write};
use std::io;
use worked_lines::*;
use worked_records::*;

/// The vectors on records.
struct Records;

impl Vectors for Records {
    fn answer(&self, subject: &str, form: &str, words: &[&str], answers: &mut Answers) -> Answered {
        match subject {
            "records" => zones::answer(form, words, answers),
            "entry" => entries::answer(form, words, answers),
            _ => answers.echo("  no such subject"),
        }
    }
}

fn main(rt: HostRuntime) -> io::Result<()> {
    run(&rt, &Records)
}
