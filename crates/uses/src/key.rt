//! Computes the tag of a key.

use domain_dnssec::rdata::Dnskey;
use domain_dnssec::{Error, IterScanner};
use std::alloc::Global;
use std::fmt::Write;

/// The words of the key of RFC 4034, section 5.4.
const KEY: [&str; 9] = [
    "256",
    "3",
    "5",
    "AQOeiiR0GOMYkDshWoSKz9Xz",
    "fwJr1AYtsmx3TGkJaNXVbfi/",
    "2pHm822aJ5iI9BMzNXxeYCmZ",
    "DRD99WYwYqUSdjMmmAphXdvx",
    "egXd/M5+X7OrzKBaMbCVdFLU",
    "Uh6DhweJBjEVv5f2wwjM9XzcnOf+EPbtG9DMBmADjFDc2w/rljwvFw==",
];

/// Returns the key that the words spell.
fn read(alloc: Global, words: &[&str]) -> Result<Dnskey<Vec<u8>>, Error> {
    let mut scanner = IterScanner::<Vec<u8>>::new(words);
    let key = Dnskey::scan(alloc, &mut scanner)?;
    Ok(key)
}

/// Prints the tag by which signatures and DS records name the key (RFC 4034, appendix B).
pub fn show(alloc: Global, text: &mut String) -> Result<(), Error> {
    let key = read(alloc, &KEY)?;
    writeln!(text, "key tag {}", key.key_tag())?;
    Ok(())
}
