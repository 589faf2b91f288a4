//! Reading the fields of record data from octets.
ghost use Rattle.domain_fields.specs.Layout.{wire_fault_of, Reads};

use crate::WireFault;
use crate::counted::Counted;
use crate::fields::{AtMost, Delimited, Exactly, Fields, Rest, Spelled};
use domain_base::ParsedName;
use domain_bitmap::RtypeBitmap;
use domain_octets::{Parser, laws};

/// Fields that are read from octets, in the order of the wire.
pub trait ReadFields<'a>: Fields + Drop {
    /// Reads the fields that the octets begin with. Returns the first fault in field order as an
    /// error; the parser is then unchanged. Does not allocate.
    fn read(parser: &mut Parser<'a>) -> Result<Self, WireFault>
    where
        Self: Sized,
        ensures { Reads Self.layout Self.values wire_fault_of parser.old parser.new result };
}

impl<'a> ReadFields<'a> for u8 {
    fn read(parser: &mut Parser<'a>) -> Result<u8, WireFault> {
        parser.parse_u8().ok().ok_or(WireFault::ShortInput)
    }
}

impl<'a> ReadFields<'a> for u16 {
    fn read(parser: &mut Parser<'a>) -> Result<u16, WireFault> {
        parser.parse_u16().ok().ok_or(WireFault::ShortInput)
    }
}

impl<'a> ReadFields<'a> for u32 {
    fn read(parser: &mut Parser<'a>) -> Result<u32, WireFault> {
        parser.parse_u32().ok().ok_or(WireFault::ShortInput)
    }
}

impl<'a> ReadFields<'a> for ParsedName<'a> {
    fn read(parser: &mut Parser<'a>) -> Result<ParsedName<'a>, WireFault> {
        Ok(ParsedName::read(parser)?)
    }
}

impl<'a> ReadFields<'a> for Spelled<ParsedName<'a>> {
    fn read(parser: &mut Parser<'a>) -> Result<Spelled<ParsedName<'a>>, WireFault> {
        Ok(Spelled(ParsedName::read(parser)?))
    }
}

impl<'a, const COUNT: usize> ReadFields<'a> for Exactly<COUNT> {
    fn read(parser: &mut Parser<'a>) -> Result<Exactly<COUNT>, WireFault> {
        let octets = parser
            .parse_octets(COUNT)
            .ok()
            .ok_or(WireFault::ShortInput)?;
        laws::slices_hold_octets(octets);
        let mut array = [0; COUNT];
        array.copy_from_slice(octets);
        Ok(Exactly(array))
    }
}

impl<'a> ReadFields<'a> for Counted<'a> {
    fn read(parser: &mut Parser<'a>) -> Result<Counted<'a>, WireFault> {
        let mut ahead = parser.fork();
        let count = ahead.parse_u8().ok().ok_or(WireFault::ShortInput)?;
        let octets = ahead
            .parse_octets(usize::from(count))
            .ok()
            .ok_or(WireFault::ShortInput)?;
        laws::slices_hold_octets(octets);
        *parser = ahead;
        Ok(Counted::new(octets))
    }
}

impl<'a, const LIMIT: usize> ReadFields<'a> for AtMost<LIMIT> {
    fn read(parser: &mut Parser<'a>) -> Result<AtMost<LIMIT>, WireFault> {
        if parser.remaining() > LIMIT {
            return Err(WireFault::LongData);
        }
        Ok(AtMost)
    }
}

impl<'a> ReadFields<'a> for Rest<'a> {
    fn read(parser: &mut Parser<'a>) -> Result<Rest<'a>, WireFault> {
        let octets = parser.peek_all();
        laws::slices_hold_octets(octets);
        parser.advance(octets.len());
        Ok(Rest(octets))
    }
}

impl<'a> ReadFields<'a> for RtypeBitmap<&'a [u8]> {
    fn read(parser: &mut Parser<'a>) -> Result<RtypeBitmap<&'a [u8]>, WireFault> {
        let octets = parser.peek_all();
        let types = RtypeBitmap::from_octets(octets)?;
        parser.advance(octets.len());
        Ok(types)
    }
}

impl<'a, A: ReadFields<'a> + Delimited, B: ReadFields<'a>> ReadFields<'a> for (A, B) {
    #[tactic(auto, using(crate::proofs::LayoutLemmas::pairs))]
    fn read(parser: &mut Parser<'a>) -> Result<(A, B), WireFault> {
        let mut ahead = parser.fork();
        let first = A::read(&mut ahead)?;
        let second = B::read(&mut ahead)?;
        *parser = ahead;
        Ok((first, second))
    }
}
