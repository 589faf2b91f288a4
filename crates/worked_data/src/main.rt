//! Worked values of the data of records, and of times of signatures. Each line of the input is a
//! vector. Its answer is what the library makes of it.
#![tactic(auto)]

mod data;
mod times;

use bytes::Bytes;
use domain_base::*;
use domain_bitmap::{Nsec3Salt, OwnerHash, RtypeBitmap as Bitmap};
use domain_keys::{Dnskey, Ds};
use domain_octets::*;
use domain_plain::{A, Mx, Ns, Soa, UnknownRecordData};
use domain_rdata::{Nsec, Nsec3, Nsec3param, ZoneRecordData};
use domain_record::{ComposeRecordData, ParseRecordData};
use domain_rrsig::{ProtoRrsig, Rrsig, Timestamp};
use std::fmt::{Debug, Display};
use std::io;
use worked_lines::*;
use worked_records::*;

/// The vectors on data and times.
struct DataVectors;

impl Vectors for DataVectors {
    fn answer(&self, subject: &str, form: &str, words: &[&str], answers: &mut Answers) -> Answered {
        match subject {
            "data" => data::answer(form, words, answers),
            "number" => times::answer(form, words, answers),
            "scan" => times::scanned(words, answers),
            _ => answers.echo("  no such subject"),
        }
    }
}

fn main(rt: HostRuntime) -> io::Result<()> {
    run(&rt, &DataVectors)
}
