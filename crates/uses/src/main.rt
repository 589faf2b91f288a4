//! Twelve uses of the library, each a proved function that calls it, with what it prints.
//!
//! `docs/GUIDE.md` quotes them. A program only depends on `domain_dnssec`, which re-exports what it
//! needs; the use with a bitmap depends on `domain_bitmap` too.
#![tactic(auto)]

mod asked;
mod bitmap;
mod chain;
mod hashed;
mod key;
mod line;
mod message;
mod served;
mod sorted;
mod verdict;
mod wire;
mod zone;

use domain_dnssec::Error;
use std::alloc::Global;
use std::io;

/// Returns what all the uses print.
fn report(alloc: Global) -> Result<String, Error> {
    let mut text = String::new(alloc);
    chain::show(alloc, &mut text)?;
    hashed::show(alloc, &mut text)?;
    verdict::show(alloc, &mut text)?;
    asked::show(alloc, &mut text)?;
    served::show(alloc, &mut text)?;
    bitmap::show(alloc, &mut text)?;
    line::show(alloc, &mut text)?;
    message::show(alloc, &mut text)?;
    sorted::show(alloc, &mut text)?;
    key::show(alloc, &mut text)?;
    wire::show(alloc, &mut text)?;
    Ok(text)
}

fn main(rt: HostRuntime) -> io::Result<()> {
    match report(rt.alloc()) {
        Ok(text) => print!(rt; "{text}"),
        Err(error) => eprintln!(rt; "{error}"),
    }
}
