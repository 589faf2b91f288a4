//! Sets of types in wire form.
ghost use Rattle.std.specs.Prelude.{◌≡◌, ◌↔◌, ◌<◌, ◌^◌, ◌++◌, ◌+◌, length, [], IsTrue, IsOk, IfOk, IfErr};
ghost use Rattle.std.specs.Prelude.{OnOk, OnErr, IsErrOf, IsNone, ℕ, Some};
ghost use Rattle.std.specs.{Ordering.nat_cmp, Cmp.Lexicographic.{slice_cmp, nat_list_cmp_total}};
ghost use Rattle.domain_octets.specs.Octets.{IsOver, Takes};
ghost use Rattle.domain_names.specs.{Wire.fault_of, Text.scan_fault_of};
ghost use Rattle.domain_base.specs.Types.{Rtypes};
ghost use Rattle.domain_bitmap.specs.Blocks.{IsBitmap, contains_type, types_of, BitmapFault, FirstBlockFault, holds};
ghost use Rattle.domain_bitmap.specs.{Bitmap.bitmap_octets, Text.{TypeTexts, RefusesTypes, is_among, types_text}};
ghost use Rattle.domain_bitmap.specs.Pieces.{type_pieces};

use crate::blocks::{check, is_set, split_block, split_rtype};
use crate::{CheckedOctets, OctetsKind, RtypeBitmapBuilder, RtypeBitmapError};
use domain_base::{FromToken, ParseError, Rtype, ScanError, Scanner};
use domain_octets::{
    AppendError, EmptyBuilder, Formatter, FreezeBuilder, FromBuilder, Octets, OctetsBuilder,
    OutOfMemory, Parser, Truncate, ZonefileFmt,
};
use std::alloc::Global;
use std::cmp::Ordering;
use std::fmt;

/// The kind of octets that are a list of blocks of types.
pub struct Blocks;

impl OctetsKind for Blocks {
    const MAX_LEN: usize = usize::MAX;

    ghost holds = { IsBitmap };

    ghost order = { slice_cmp nat_cmp };

    ghost total = { nat_list_cmp_total };

    fn order(a: &[u8], b: &[u8]) -> Ordering {
        a.cmp(b)
    }
}

/// A list of blocks of types (RFC 4034, section 4.1.2). Contracts see its octets.
pub type RtypeBitmap<O> = CheckedOctets<O, Blocks>;

impl<O: Octets> RtypeBitmap<O> {
    /// Returns the bitmap with these octets, if they are a list of blocks, each of 1 to 32 octets.
    /// Windows may come in any order and more than once, and octets may be zero. Does not allocate.
    ///
    /// # Errors
    ///
    /// The first fault decides. For each block, it is `ShortInput` if the length is missing,
    /// `BadRtypeBitmap` if the length is not 1 to 32, and then `ShortInput` if octets are missing.
    #[tactic(auto, using(crate::proofs::BlockLemmas::no_fault))]
    pub fn from_octets(octets: O) -> Result<Self, RtypeBitmapError>
    where
        O: Drop,
        ensures ok { IsOk result ↔ IsBitmap (O.octets octets) }
        ensures octets { IfOk result (λ bitmap. bitmap ≡ O.octets octets) }
        ensures err { IfErr result (FirstBlockFault (O.octets octets)) }
    {
        check(octets.as_slice())?;
        Ok(RtypeBitmap::from_octets_unchecked(octets))
    }

    /// Returns whether the first block of the type's window has the bit of the type. For a bitmap
    /// from a builder, this is whether the type was added.
    #[tactic(auto, using(std::proofs::lemmas::Grind::common_steps), unfolding(crate::specs::Blocks::contains_type))]
    pub fn contains(&self, rtype: Rtype) -> bool
        ensures { result ≡ contains_type self.now rtype }
    {
        let (window, octet, bit) = split_rtype(rtype);
        let mut blocks = self.as_slice();
        while let Some((block, rest)) = split_block(blocks) {
            if block.number == window {
                return is_set(block.octets, octet, bit);
            }
            blocks = rest;
        }
        false
    }

    /// Returns whether no bit is set.
    pub fn is_empty(&self) -> bool
        ensures { IsTrue result ↔ (types_of self.now ≡ []) }
    {
        self.iter().next().is_none()
    }

    /// Returns the number of octets, which must be below 65,536.
    pub fn compose_len(&self) -> u16
        requires { length self.now < 2 ^ 16 }
        ensures { result ≡ length self.now }
    {
        self.as_slice().len() as u16
    }

    /// Appends the octets.
    pub fn compose<B: OctetsBuilder>(&self, target: &mut B) -> Result<(), AppendError>
        ensures ok { OnOk result (B.octets target.new ≡ B.octets target.old ++ self.now) }
        ensures err { OnErr result (B.octets target.new ≡ B.octets target.old) }
        ensures short { IsErrOf result AppendError.ShortBuf
            ↔ IsOver B.limit (length (B.octets target.old) + length self.now) }
        ensures memory { IsErrOf result AppendError.OutOfMemory → IsNone B.limit }
    {
        target.append_slice(self.as_slice())
    }
}

impl<O: FromBuilder> RtypeBitmap<O>
where
    O::Builder: EmptyBuilder,
{
    /// Returns a builder of such bitmaps, without types. Does not allocate.
    pub fn builder(alloc: Global) -> RtypeBitmapBuilder<O::Builder>
        ensures empty { result ≡ [] }
    {
        RtypeBitmapBuilder::new(alloc)
    }
}

impl<'a> RtypeBitmap<&'a [u8]> {
    /// Reads all octets that are left as a bitmap. Does not allocate.
    ///
    /// # Errors
    ///
    /// The first fault decides, as in `from_octets`. After an error the parser is unchanged.
    #[tactic(auto, using(crate::proofs::BlockLemmas::parse_steps))]
    pub fn parse(parser: &mut Parser<'a>) -> Result<Self, ParseError>
        ensures ok { IsOk result ↔ IsBitmap parser.old.left }
        ensures octets { IfOk result (λ bitmap. Takes bitmap parser.old parser.new
            × (parser.new.left ≡ [])) }
        ensures err { IfErr result (λ e. BitmapFault parser.old.left (fault_of e)) }
        ensures unmoved { OnErr result (parser.new ≡ parser.old) }
    {
        let octets = parser.peek_all();
        check(octets)?;
        parser.advance(octets.len());
        Ok(RtypeBitmap::from_octets_unchecked(octets))
    }
}

/// Adds the types that the remaining tokens spell.
fn add_all<B: OctetsBuilder, S: Scanner>(
    builder: &mut RtypeBitmapBuilder<B>,
    scanner: &mut S,
) -> Result<(), ScanError>
    requires { builder.old ≡ [] }
    ensures ok { IfOk result (λ _. (types : Rtypes) × TypeTexts (S.tokens scanner.old) types
        × ((t : ℕ) → t < 65536 → holds builder.new t ≡ is_among types t)) }
    ensures all { IfOk result (λ _. S.tokens scanner.new ≡ []) }
    ensures err { IfErr result (λ e.
        RefusesTypes B.limit (S.tokens scanner.old) (S.tokens scanner.new) (scan_fault_of e)) }
{
    while scanner.continues() {
        let rtype = match <Rtype as FromToken>::scan(scanner) {
            Ok(rtype) => rtype,
            Err(error) => return Err(error),
        };
        let _number = rtype.to_int();
        builder.add(rtype)?;
    }
    Ok(())
}

impl<O: FromBuilder> RtypeBitmap<O>
where
    O::Builder: EmptyBuilder + Truncate + FreezeBuilder<Frozen = O> + Drop,
{
    /// Parses all remaining tokens as types, one for each token (RFC 4034, section 4.2).
    ///
    /// # Errors
    ///
    /// The first token with a fault decides: `Custom("unknown record type")` if it spells no type,
    /// or else `ShortBuf` if the builder has no room for the window of the type, or `OutOfMemory`.
    /// The tokens after it are left.
    #[tactic(auto, using(std::proofs::lemmas::Grind::common_steps, crate::proofs::BitmapLemmas::built_steps))]
    pub fn scan<S: Scanner>(alloc: Global, scanner: &mut S) -> Result<Self, ScanError>
        ensures ok { IfOk result (λ bitmap. (types : Rtypes)
            × TypeTexts (S.tokens scanner.old) types × (bitmap ≡ bitmap_octets (is_among types))) }
        ensures all { IfOk result (λ _. S.tokens scanner.new ≡ []) }
        ensures err { IfErr result (λ e.
            RefusesTypes O.Builder.limit (S.tokens scanner.old) (S.tokens scanner.new)
            (scan_fault_of e)) }
    {
        let mut builder = RtypeBitmapBuilder::<O::Builder>::new(alloc);
        add_all(&mut builder, scanner)?;
        Ok(builder.finalize())
    }
}

/// Writes the types with one space between them (RFC 4034, section 4.2).
impl<O: Octets> fmt::Display for RtypeBitmap<O> {
    ghost output = { λ b. Some (types_text (types_of b)) };

    fn fmt<W: fmt::Write>(&self, f: &mut fmt::Formatter<W>) -> fmt::Result {
        let mut types = self.iter();
        let Some(first) = types.next() else {
            return Ok(());
        };
        write!(f, "{first}")?;
        while let Some(rtype) = types.next() {
            write!(f, " {rtype}")?;
        }
        Ok(())
    }
}

impl<O: Octets> fmt::Debug for RtypeBitmap<O> {
    fn fmt<W: fmt::Write>(&self, f: &mut fmt::Formatter<W>) -> fmt::Result {
        write!(f, "RtypeBitmap({self})")
    }
}

/// Writes a token for each type.
impl<O: Octets> ZonefileFmt for RtypeBitmap<O> {
    ghost pieces = { λ b. type_pieces (types_of b) };

    #[tactic(auto, using(std::proofs::lemmas::Grind::common_steps), unfolding(crate::specs::Pieces::type_pieces))]
    fn fmt<F: Formatter>(&self, formatter: &mut F) -> Result<(), OutOfMemory> {
        let mut types = self.iter();
        while let Some(rtype) = types.next() {
            formatter.write_token(&rtype)?;
        }
        Ok(())
    }
}
