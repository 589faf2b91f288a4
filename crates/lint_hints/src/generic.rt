//! The generic form of data (RFC 3597, section 5), for types without a presentation format of their
//! own here.

use crate::odd::{Shape, data_shape};
use domain_base::{Name, Rtype, ScanError, ToName};
use domain_octets::{OctetsBuilder, SmallOctets};
use std::alloc::{AllocError, Global};
use std::net::Ipv6Addr;

/// A name that owns its octets. Most are stored in the value itself, without allocation.
type OwnedName = Name<SmallOctets>;

/// The error for words that are no data.
const NO_DATA: ScanError = ScanError::Custom("illegal data");

/// Appends the octets of a name.
fn put_name(alloc: Global, data: &mut Vec<u8>, word: &str) -> Result<(), ScanError> {
    let name = OwnedName::from_str(alloc, word)?;
    data.append_slice(name.as_wire())?;
    Ok(())
}

/// Appends the octets of texts without escapes and blanks, quoted or not, each after its length
/// octet.
fn put_texts(data: &mut Vec<u8>, words: &[&str]) -> Result<(), ScanError> {
    for word in words {
        let text = match word.as_bytes() {
            [b'"', text @ .., b'"'] => text,
            text => text,
        };
        if text.contains(&b'"') || text.contains(&b'\\') {
            return Err(NO_DATA);
        }
        let count = u8::try_from(text.len()).map_err(|_| NO_DATA)?;
        data.append_slice(&[count])?;
        data.append_slice(text)?;
    }
    Ok(())
}

/// Appends the octets of 16-bit numbers.
fn put_numbers(data: &mut Vec<u8>, words: &[&str]) -> Result<(), ScanError> {
    for word in words {
        let number = word.parse::<u16>().map_err(|_| NO_DATA)?;
        data.append_slice(&number.to_be_bytes())?;
    }
    Ok(())
}

/// Appends the octets of data of a type from their usual presentation format, if it is known here.
fn put_data(
    alloc: Global,
    data: &mut Vec<u8>,
    rtype: Rtype,
    words: &[&str],
) -> Result<(), ScanError> {
    match (data_shape(rtype), words) {
        (Shape::OneName, [name]) => put_name(alloc, data, name),
        (Shape::LongAddress, [address]) => {
            let address = address.parse::<Ipv6Addr>().map_err(|_| NO_DATA)?;
            Ok(data.append_slice(&address.octets())?)
        }
        (Shape::Texts, [_, ..]) => put_texts(data, words),
        (Shape::Service, [numbers @ .., target]) if numbers.len() == 3 => {
            put_numbers(data, numbers)?;
            put_name(alloc, data, target)
        }
        _ => Err(NO_DATA),
    }
}

/// Returns how to write data of a type without a presentation format of its own: the generic form,
/// which is computed for CNAME, PTR, DNAME, AAAA, SRV, and TXT without blanks.
pub fn generic_form(alloc: Global, rtype: Rtype, words: &[&str]) -> Result<String, AllocError> {
    let mut data = Vec::new(alloc);
    match put_data(alloc, &mut data, rtype, words) {
        Ok(()) => {}
        Err(ScanError::OutOfMemory) => return Err(AllocError),
        Err(_) => return format!(in alloc;
            "them in the generic form, \\# COUNT HEX (RFC 3597), as `denial zone` does"
        ),
    }
    let mut text = format!(in alloc; "\\# {} ", data.len())?;
    for octet in &data {
        text.push_str(format!(in alloc; "{octet:02X}")?.as_str())?;
    }
    Ok(text)
}
