//! The builder of bitmaps. It holds blocks of 34 octets each, in the order in which they were
//! added.
ghost use Rattle.std.specs.Prelude.{◌≡◌, ◌+◌, ◌*◌, ◌/◌, ◌<◌, ◌≤◌, ◌++◌, ◌↔◌, false, length, take, IfSome};
ghost use Rattle.std.specs.Prelude.{IfNone, ◌-◌, ◌^◌, slice_index, slice_set, bit_or, ℕ, ◌%◌, ◌∷◌, replicate};
ghost use Rattle.std.specs.Prelude.{◌||◌, ◌==◌, [], OnOk, OnErr, IfOk, if◌then◌else◌, IsErrOf, IsNone};
ghost use Rattle.std.specs.Prelude.{slice_index_or};
ghost use Rattle.domain_bitmap.specs.Blocks.{has_window, holds, merged_octet, bit_of, octets_of_blocks};
ghost use Rattle.domain_bitmap.specs.Bitmap.{trimmed, bitmap_octets, block_if_any};
ghost use Rattle.domain_octets.specs.Octets.{IsOver, Octets};

use crate::RtypeBitmap;
use crate::blocks::split_rtype;
use domain_base::Rtype;
use domain_octets::{
    AppendError, EmptyBuilder, FreezeBuilder, Octets, OctetsBuilder, OutOfMemory, Truncate,
    TryClone, laws,
};
use std::alloc::Global;
use std::marker::Model;

/// The length of a block in a builder: its window, its length, and the 32 octets of the window.
const SLOT: usize = 34;

/// Returns the place of the first block of a window, or None if it has no block.
#[tactic(auto, using(crate::proofs::BitmapLemmas::window_absent))]
fn find_slot(slots: &[u8], window: u8) -> Option<usize>
    ensures found { IfSome result (λ j. (j < length slots.now / 34)
        × (slice_index slots.now (34 * j) ≡ window)) }
    ensures none { IfNone result (has_window slots.now window ≡ false) }
{
    for j in 0..slots.len() / SLOT {
        if slots[SLOT * j] == window {
            return Some(j);
        }
    }
    None
}

/// Returns the block of a window without types.
fn empty_slot(window: u8) -> [u8; 34]
    ensures { result ≡ window ∷ replicate 33 0 }
{
    let mut slot = [0; SLOT];
    slot[0] = window;
    slot
}

/// Returns the number of octets up to the last one that is not zero.
#[tactic(auto, using(crate::proofs::BitLemmas::trim_steps))]
fn used_len(octets: &[u8]) -> usize
    ensures trimmed { trimmed octets.now ≡ take result octets.now }
    ensures within { result ≤ length octets.now }
{
    let mut len = octets.len();
    while len > 0 && octets[len - 1] == 0 {
        len -= 1;
    }
    len
}

/// Sets a bit of an octet of the block at place `j`. Bit 0 is the most significant bit. Does not
/// allocate.
#[tactic(auto, using(std::proofs::lemmas::Nat::one_shl))]
fn set_bit<B: OctetsBuilder>(buffer: &mut B, j: usize, octet: usize, bit: u8)
    requires block { j < length (B.octets buffer.old) / 34 }
    requires octet { octet < 32 }
    requires bit { bit < 8 }
    ensures { B.octets buffer.new ≡ slice_set (B.octets buffer.old) (34 * j + 2 + octet)
        (bit_or (slice_index (B.octets buffer.old) (34 * j + 2 + octet)) (2 ^ (7 - bit))) }
{
    let slots = buffer.as_mut_slice();
    slots[SLOT * j + 2 + octet] |= 1 << (7 - bit);
}

/// A set of types that types can be added to. Contracts see the octets of its buffer: `holds` and
/// `has_window` say what is in them.
#[derive(Debug, Drop)]
pub struct RtypeBitmapBuilder<B: OctetsBuilder> {
    buffer: B,
}

impl<B: OctetsBuilder> Model for RtypeBitmapBuilder<B> {
    ghost Value = { Octets };

    ghost view = { λ b. B.octets b.buffer };

    ghost invariant = { λ b. length (B.octets b.buffer) % 34 ≡ 0 };
}

impl RtypeBitmapBuilder<Vec<u8>> {
    /// Returns a builder over a vector, without types. Does not allocate.
    pub fn new_vec(alloc: Global) -> Self
        ensures empty { result ≡ [] }
    {
        RtypeBitmapBuilder {
            buffer: Vec::new(alloc),
        }
    }
}

impl<B: EmptyBuilder> RtypeBitmapBuilder<B> {
    /// Returns a builder without types. Does not allocate.
    pub fn new(alloc: Global) -> Self
        ensures empty { result ≡ [] }
    {
        RtypeBitmapBuilder {
            buffer: B::empty(alloc),
        }
    }

    /// Returns the same as `new`.
    pub fn default(alloc: Global) -> Self
        ensures empty { result ≡ [] }
    {
        Self::new(alloc)
    }
}

impl<B: OctetsBuilder> RtypeBitmapBuilder<B> {
    /// Returns a builder over an empty buffer. Does not allocate.
    pub fn with_builder(buffer: B) -> Self
        requires { B.octets buffer ≡ [] }
        ensures empty { result ≡ [] }
    {
        RtypeBitmapBuilder { buffer }
    }

    /// Returns a copy. Uses the allocator of the buffer.
    pub fn clone(&self) -> Result<Self, OutOfMemory>
        ensures { IfOk result (λ copy. copy ≡ self.now) }
    {
        Ok(RtypeBitmapBuilder {
            buffer: self.buffer.try_clone()?,
        })
    }

    /// Returns the place of the first block of a window. Appends a block without types if the
    /// window has none.
    #[tactic(auto, using(crate::proofs::BitmapLemmas::block_steps))]
    fn window_block(&mut self, window: u8) -> Result<usize, AppendError>
        ensures place { IfOk result (λ j. (j < length self.new / 34)
            × (slice_index self.new (34 * j) ≡ window)) }
        ensures types { OnOk result ((t : ℕ) → holds self.new t ≡ holds self.old t) }
        ensures windows { OnOk result ((w : ℕ)
            → has_window self.new w ≡ (w == window || has_window self.old w)) }
        ensures size { OnOk result (length self.new
            ≡ (if has_window self.old window then length self.old else length self.old + 34)) }
        ensures short { IsErrOf result AppendError.ShortBuf
            ↔ ((has_window self.old window ≡ false) × IsOver B.limit (length self.old + 34)) }
        ensures memory { IsErrOf result AppendError.OutOfMemory
            → (has_window self.old window ≡ false) × IsNone B.limit }
        ensures err { OnErr result (self.new ≡ self.old) }
    {
        let slots = self.buffer.as_slice();
        if let Some(j) = find_slot(slots, window) {
            return Ok(j);
        }
        let j = slots.len() / SLOT;
        self.buffer.append_slice(&empty_slot(window))?;
        Ok(j)
    }

    /// Adds a type. Always succeeds without allocation if the type's window already has a block.
    /// After an error the builder is unchanged.
    ///
    /// # Errors
    ///
    /// `ShortBuf` if the type's window has no block and the buffer has no room for another 34
    /// octets. `OutOfMemory` if there is no memory for them.
    #[tactic(auto, using(std::proofs::lemmas::Grind::common_steps, crate::proofs::BitmapLemmas::set_steps))]
    pub fn add(&mut self, rtype: Rtype) -> Result<(), AppendError>
        ensures ok { OnOk result ((t : ℕ) → t < 65536
            → holds self.new t ≡ (t == rtype || holds self.old t)) }
        ensures windows { OnOk result ((w : ℕ)
            → has_window self.new w ≡ (w == rtype / 256 || has_window self.old w)) }
        ensures size { OnOk result (length self.new
            ≡ (if has_window self.old (rtype / 256) then length self.old
            else length self.old + 34)) }
        ensures short { IsErrOf result AppendError.ShortBuf
            ↔ ((has_window self.old (rtype / 256) ≡ false)
            × IsOver B.limit (length self.old + 34)) }
        ensures memory { IsErrOf result AppendError.OutOfMemory
            → (has_window self.old (rtype / 256) ≡ false) × IsNone B.limit }
        ensures err { OnErr result (self.new ≡ self.old) }
    {
        let (window, octet, bit) = split_rtype(rtype);
        let j = self.window_block(window)?;
        set_bit(&mut self.buffer, j, octet, bit);
        Ok(())
    }

    /// Returns the bitmap of the types that were added, in the one spelling that the RFC allows.
    /// Does not allocate.
    #[tactic(auto, using(std::proofs::lemmas::Grind::common_steps, crate::proofs::BitmapLemmas::built_steps))]
    pub fn finalize(self) -> RtypeBitmap<B::Frozen>
    where
        B: FreezeBuilder + Truncate,
        ensures { result ≡ bitmap_octets (holds self) }
    {
        let RtypeBitmapBuilder { mut buffer } = self;
        let len = pack(buffer.as_mut_slice());
        buffer.truncate(len);
        RtypeBitmap::from_octets_unchecked(buffer.freeze())
    }
}

/// The number of windows.
const WINDOWS: usize = 256;

/// The number of octets of all windows, 32 for each.
const TABLE: usize = 8192;

/// Copies the octets of the block at place `j` to the place of its window in a table of all
/// windows. Bits that are already set there stay set.
fn copy_block(table: &mut [u8], slots: &[u8], j: usize)
    requires all { length table.old ≡ 8192 }
    requires inside { j < length slots.now / 34 }
    ensures copied { (i : ℕ) → slice_index table.new i ≡ merged_octet table.old slots.now j i }
    ensures size { length table.new ≡ length table.old }
{
    let start = slots[SLOT * j] as usize * 32;
    for i in 0..32 {
        table[start + i] |= slots[SLOT * j + 2 + i];
    }
}

/// Copies all blocks into a table of zeros, and records which windows have a block.
#[tactic(auto, using(std::proofs::lemmas::Grind::common_steps, crate::proofs::BitLemmas::bit_reads), unfolding(crate::specs::Blocks::holds, crate::specs::Blocks::has_window))]
fn fill(table: &mut [u8], present: &mut [bool], slots: &[u8])
    requires table { (i : ℕ) → slice_index table.old i ≡ 0 }
    requires all { length table.old ≡ 8192 }
    requires present { (w : ℕ) → slice_index_or present.old w false ≡ false }
    requires windows { length present.old ≡ 256 }
    ensures types { (t : ℕ) → t < 65536 → bit_of (slice_index table.new (t / 8)) (t % 8)
        ≡ holds slots.now t }
    ensures windows { (w : ℕ) → slice_index_or present.new w false ≡ has_window slots.now w }
    ensures absent { (i : ℕ) → slice_index_or present.new (i / 32) false ≡ false
        → slice_index table.new i ≡ 0 }
    ensures size { length table.new ≡ length table.old }
    ensures count { length present.new ≡ length present.old }
{
    for j in 0..slots.len() / SLOT {
        copy_block(table, slots, j);
        present[slots[SLOT * j] as usize] = true;
    }
}

/// Overwrites octets, from position `at` on.
#[tactic(auto, using(std::proofs::lemmas::Grind::common_steps))]
fn write_at(slots: &mut [u8], at: usize, octets: &[u8])
    requires { at + length octets.now ≤ length slots.old }
    ensures { take (at + length octets.now) slots.new ≡ take at slots.old ++ octets.now }
{
    let end = at + octets.len();
    slots[at..end].copy_from_slice(octets);
}

/// Writes the block of a window up to its last octet with a type, and returns where it ends. Writes
/// nothing for a window without types.
#[tactic(auto, using(std::proofs::lemmas::Grind::common_steps, crate::proofs::BitmapLemmas::block_written))]
fn write_block(slots: &mut [u8], end: usize, window: u8, octets: &[u8]) -> usize
    requires room { end + 34 ≤ length slots.old }
    requires fits { length octets.now ≤ 32 }
    ensures written { take result slots.new
        ≡ take end slots.old ++ octets_of_blocks (block_if_any window (trimmed octets.now)) }
    ensures grows { result ≤ end + 34 }
{
    let len = used_len(octets);
    if len == 0 {
        return end;
    }
    write_at(slots, end, &[window, len as u8]);
    write_at(slots, end + 2, &octets[..len]);
    end + 2 + len
}

/// Writes the blocks of all windows in ascending order, and returns where they end.
#[tactic(auto, using(std::proofs::lemmas::Grind::common_steps))]
fn pack_all(slots: &mut [u8]) -> usize
    requires { length slots.old % 34 ≡ 0 }
    ensures { take result slots.new ≡ bitmap_octets (holds slots.old) }
{
    let mut table = [0; TABLE];
    let mut present = [false; WINDOWS];
    fill(&mut table, &mut present, slots);
    laws::slices_hold_octets(&table);
    let mut end = 0;
    for window in 0..WINDOWS {
        if !present[window] {
            continue;
        }
        let own = &table[32 * window..32 * window + 32];
        end = write_block(slots, end, window as u8, own);
    }
    end
}

/// Shortens the only block to its last octet with a type, and returns where it ends.
#[tactic(auto, using(std::proofs::lemmas::Grind::common_steps, crate::proofs::BitmapLemmas::one_steps))]
fn pack_one(slots: &mut [u8]) -> usize
    requires { length slots.old ≡ 34 }
    ensures { take result slots.new ≡ bitmap_octets (holds slots.old) }
{
    laws::slices_hold_octets(slots);
    let len = used_len(&slots[2..]);
    if len == 0 {
        return 0;
    }
    slots[1] = len as u8;
    len + 2
}

/// Writes the blocks of a builder in the order of their windows, each up to its last octet with a
/// type. Returns where they end.
#[tactic(auto, using(crate::proofs::BitmapLemmas::holds_nothing))]
fn pack(slots: &mut [u8]) -> usize
    requires { length slots.old % 34 ≡ 0 }
    ensures { take result slots.new ≡ bitmap_octets (holds slots.old) }
{
    if slots.is_empty() {
        return 0;
    }
    if slots.len() == SLOT {
        pack_one(slots)
    } else {
        pack_all(slots)
    }
}
