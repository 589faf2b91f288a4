//! The fields of record data. How they are written, compared and hashed is defined once for all
//! types.
ghost use Rattle.std.specs.Prelude.{◌≡◌, ◌≤◌, ◌-◌, ◌↔◌, SomeIff, IsTrue, true, refl, length, take};
ghost use Rattle.std.specs.{Prelude.{drop, fold, map, bytes_eq}, List.flat_map};
ghost use Rattle.std.specs.{Char.to_ascii_lowercase, Ordering.nat_cmp, Cmp.Lexicographic.slice_cmp};
ghost use Rattle.std.specs.Hash as fed;
ghost use Rattle.domain_fields.specs.Layout.{Field, Value, field_octets, lower_field, FieldFits, octet, short};
ghost use Rattle.domain_fields.specs.Layout.{long, name, spelled_name, exactly, at_most, rest, types, Layout};
ghost use Rattle.domain_fields.specs.Layout.{one, ◌▸◌, Values, Fits, octets_of, canonical_of, canonical_order};
ghost use Rattle.domain_fields.specs.Layout.{lower, is_delimited, splits, both_true, Appends, in_form};

use crate::Form;
use domain_base::{ParsedName, ToName};
use domain_bitmap::RtypeBitmap;
use domain_octets::{AppendError, OctetsBuilder, laws};
use std::cmp::Ordering;
use std::hash::Hasher;

/// The greatest length of the data of a record, in octets (RFC 1035, section 3.2.1).
pub const MAX_RDLEN: usize = 65535;

/// A list of fields, in the order of the wire.
pub trait Fields {
    ghost layout: { Layout };

    ghost values: { Self → Values layout };

    /// Returns how many of `limit` octets are left after the fields, or `None` if the fields do not
    /// fit.
    fn room_after(&self, limit: usize) -> Option<usize>
        ensures { SomeIff result (length (octets_of layout (values self.now)) ≤ limit)
            (limit - length (octets_of layout (values self.now))) };

    /// Appends the octets in this form.
    fn put<B: OctetsBuilder>(&self, form: Form, target: &mut B) -> Result<(), AppendError>
        ensures { Appends B.limit result (B.octets target.old) (B.octets target.new)
            (in_form form (octets_of layout (values self.now))
            (canonical_of layout (values self.now))) };

    /// Returns the lexicographic order of the canonical octets.
    fn order(&self, other: &Self) -> Ordering
        ensures { result ≡ canonical_order layout (values self.now) (values other.now) };

    /// Compares the canonical octets with as many of the other octets. Returns the order, and the
    /// other octets that are left.
    fn order_from<'o>(&self, octets: &'o [u8]) -> (Ordering, &'o [u8])
        ensures order { result.0 ≡ slice_cmp nat_cmp (canonical_of layout (values self.now))
            (take (length (canonical_of layout (values self.now))) octets.now) }
        ensures rest { result.1.now ≡ drop (length (canonical_of layout (values self.now)))
            octets.now };

    /// Feeds the canonical octets to a hasher.
    fn feed<H: Hasher>(&self, state: &mut H)
        ensures { state.new ≡ fold H.write state.old
            (flat_map fed.u8 (canonical_of layout (values self.now))) };

    /// Does nothing. Its clause says that the values have a wire form.
    fn fits(&self)
        ensures { Fits layout (values self.now) };
}

/// Fields whose end is known from their octets: all except those that take the rest of the octets.
pub trait Delimited: Fields {
    ghost delimited: { is_delimited Self.layout ≡ true };
}

/// A field whose octets can be borrowed, and are the same in the canonical form.
trait Octeted {
    ghost field: { Field };

    ghost value: { Self → Value field };

    /// Returns the octets. Those of a number are written to the buffer.
    fn octets<'o>(&'o self, buffer: &'o mut [u8; 4]) -> &'o [u8]
        ensures octets { result.now ≡ field_octets field (value self.now) }
        ensures fits { FieldFits field (value self.now) };

    ghost keeps: { (v : Value field) → lower_field field v ≡ v };
}

/// The field of all octets that are left.
#[derive(Drop)]
pub struct Rest<'a>(pub &'a [u8]);

/// A field of exactly `COUNT` octets.
#[derive(Drop)]
pub struct Exactly<const COUNT: usize>(pub [u8; COUNT]);

/// A field without octets, after which at most `LIMIT` octets are left.
#[derive(Drop)]
pub struct AtMost<const LIMIT: usize>;

/// A name that the canonical form does not lower. A plain `ParsedName` is one that it lowers.
#[derive(Drop)]
pub struct Spelled<N>(pub N);

fn feed_octets<H: Hasher>(octets: &[u8], state: &mut H)
    ensures { state.new ≡ fold H.write state.old (flat_map fed.u8 octets.now) }
{
    for octet in octets {
        state.write_u8(*octet);
    }
}

/// Returns the lexicographic order of the canonical octets of fields and of other octets.
#[tactic(auto, using(crate::proofs::LayoutLemmas::whole_cmp))]
pub fn canonical_cmp_octets<F: Fields>(fields: &F, octets: &[u8]) -> Ordering
    ensures { result ≡ slice_cmp nat_cmp (canonical_of F.layout (F.values fields.now)) octets.now }
{
    let (order, rest) = fields.order_from(octets);
    let end: &[u8] = &[];
    order.then(end.cmp(rest))
}

/// Returns whether the canonical octets of two lists of fields are the same.
#[tactic(auto, using(crate::proofs::LayoutLemmas::equal_octets))]
pub fn canonical_eq<F: Fields>(fields: &F, other: &F) -> bool
    ensures octets { result ≡ bytes_eq (canonical_of F.layout (F.values fields.now))
        (canonical_of F.layout (F.values other.now)) }
    ensures values { splits F.layout ≡ true → IsTrue result
        ↔ (lower F.layout (F.values fields.now) ≡ lower F.layout (F.values other.now)) }
{
    fields.fits();
    other.fits();
    fields.order(other).is_eq()
}

/// Returns the first `count` octets, or all if there are fewer, and the others.
fn split_up_to(octets: &[u8], count: usize) -> (&[u8], &[u8])
    ensures front { result.0.now ≡ take count octets.now }
    ensures back { result.1.now ≡ drop count octets.now }
{
    octets.split_at(count.min(octets.len()))
}

/// Returns the order of the lowered octets of `a` and the octets of `b`.
fn lowered_with_octets_cmp(a: &[u8], b: &[u8]) -> Ordering
    ensures { result ≡ slice_cmp nat_cmp (map to_ascii_lowercase a.now) b.now }
{
    a.iter()
        .map(|c| c.to_ascii_lowercase())
        .cmp(b.iter().copied())
}

/// Writes the octets of a number to the front of a buffer, and returns them.
fn put_number<'o>(buffer: &'o mut [u8; 4], octets: &[u8]) -> &'o [u8]
    requires { length octets.now ≤ 4 }
    ensures { result.now ≡ octets.now }
{
    let number = &mut buffer[..octets.len()];
    number.copy_from_slice(octets);
    number
}

impl Octeted for u8 {
    ghost field = { octet };

    ghost value = { λ n. n };

    ghost keeps = { λ v. refl };

    fn octets<'o>(&'o self, buffer: &'o mut [u8; 4]) -> &'o [u8] {
        put_number(buffer, &[*self])
    }
}

impl Octeted for u16 {
    ghost field = { short };

    ghost value = { λ n. n };

    ghost keeps = { λ v. refl };

    fn octets<'o>(&'o self, buffer: &'o mut [u8; 4]) -> &'o [u8] {
        put_number(buffer, &self.to_be_bytes())
    }
}

impl Octeted for u32 {
    ghost field = { long };

    ghost value = { λ n. n };

    ghost keeps = { λ v. refl };

    fn octets<'o>(&'o self, buffer: &'o mut [u8; 4]) -> &'o [u8] {
        put_number(buffer, &self.to_be_bytes())
    }
}

impl<'a> Octeted for Spelled<ParsedName<'a>> {
    ghost field = { spelled_name };

    ghost value = { λ n. n.0 };

    ghost keeps = { λ v. refl };

    #[tactic(auto, using(domain_names::proofs::WireLemmas::wire_is, crate::proofs::LayoutLemmas::name_fits))]
    fn octets<'o>(&'o self, _buffer: &'o mut [u8; 4]) -> &'o [u8] {
        self.0.as_wire()
    }
}

impl<const COUNT: usize> Octeted for Exactly<COUNT> {
    ghost field = { exactly COUNT };

    ghost value = { λ n. n.0 };

    ghost keeps = { λ v. refl };

    fn octets<'o>(&'o self, _buffer: &'o mut [u8; 4]) -> &'o [u8] {
        laws::slices_hold_octets(&self.0);
        &self.0
    }
}

impl<const LIMIT: usize> Octeted for AtMost<LIMIT> {
    ghost field = { at_most LIMIT };

    ghost value = { λ n. tt };

    ghost keeps = { λ v. refl };

    fn octets<'o>(&'o self, _buffer: &'o mut [u8; 4]) -> &'o [u8] {
        &[]
    }
}

impl<'a> Octeted for Rest<'a> {
    ghost field = { rest };

    ghost value = { λ n. n.0.now };

    ghost keeps = { λ v. refl };

    fn octets<'o>(&'o self, _buffer: &'o mut [u8; 4]) -> &'o [u8] {
        laws::slices_hold_octets(self.0);
        self.0
    }
}

impl<'a> Octeted for RtypeBitmap<&'a [u8]> {
    ghost field = { types };

    ghost value = { λ b. b };

    ghost keeps = { λ v. refl };

    fn octets<'o>(&'o self, _buffer: &'o mut [u8; 4]) -> &'o [u8] {
        self.as_slice()
    }
}

#[tactic(auto, unfolding(crate::specs::Layout::octets_of))]
impl<F: Octeted> Fields for F {
    ghost layout = { one F.field };

    ghost values = { F.value };

    fn room_after(&self, limit: usize) -> Option<usize> {
        limit.checked_sub(self.octets(&mut [0; 4]).len())
    }

    fn put<B: OctetsBuilder>(&self, _form: Form, target: &mut B) -> Result<(), AppendError> {
        target.append_slice(self.octets(&mut [0; 4]))
    }

    fn order(&self, other: &Self) -> Ordering {
        self.octets(&mut [0; 4]).cmp(other.octets(&mut [0; 4]))
    }

    fn order_from<'o>(&self, octets: &'o [u8]) -> (Ordering, &'o [u8]) {
        let mut buffer = [0; 4];
        let mine = self.octets(&mut buffer);
        let (front, back) = split_up_to(octets, mine.len());
        (mine.cmp(front), back)
    }

    fn feed<H: Hasher>(&self, state: &mut H) {
        feed_octets(self.octets(&mut [0; 4]), state);
    }

    fn fits(&self) {
        let mut buffer = [0; 4];
        let _octets = self.octets(&mut buffer);
    }
}

#[tactic(auto, unfolding(crate::specs::Layout::octets_of))]
impl<'a> Fields for ParsedName<'a> {
    ghost layout = { one name };

    ghost values = { λ n. n };

    fn room_after(&self, limit: usize) -> Option<usize> {
        limit.checked_sub(usize::from(self.compose_len()))
    }

    #[tactic(auto, using(std::proofs::lemmas::Grind::common_steps, domain_names::proofs::OrderLemmas::lowered_size), unfolding(crate::specs::Layout::octets_of))]
    fn put<B: OctetsBuilder>(&self, form: Form, target: &mut B) -> Result<(), AppendError> {
        let _wire = self.as_wire();
        match form {
            Form::Wire => self.compose(target),
            Form::Canonical => self.compose_canonical(target),
        }
    }

    fn order(&self, other: &Self) -> Ordering {
        self.lowercase_composed_cmp(other)
    }

    #[tactic(auto, using(std::proofs::lemmas::Grind::common_steps, domain_names::proofs::OrderLemmas::lowered_wire), unfolding(crate::specs::Layout::octets_of))]
    fn order_from<'o>(&self, octets: &'o [u8]) -> (Ordering, &'o [u8]) {
        let wire = self.as_wire();
        let (front, back) = split_up_to(octets, wire.len());
        (lowered_with_octets_cmp(wire, front), back)
    }

    #[tactic(auto, using(domain_names::proofs::OrderLemmas::lowered_wire, std::proofs::lemmas::Grind::common_steps), unfolding(crate::specs::Layout::octets_of))]
    fn feed<H: Hasher>(&self, state: &mut H) {
        let wire = self.as_wire();
        for octet in wire {
            state.write_u8(octet.to_ascii_lowercase());
        }
    }

    #[tactic(auto, using(crate::proofs::LayoutLemmas::name_fits))]
    fn fits(&self) {
        let _wire = self.as_wire();
    }
}

#[tactic(auto, using(std::proofs::lemmas::Grind::common_steps, crate::proofs::LayoutLemmas::both), unfolding(crate::specs::Layout::octets_of))]
impl<A: Delimited, B: Fields> Fields for (A, B) {
    ghost layout = { A.layout ▸ B.layout };

    ghost values = { λ p. (A.values p.0, B.values p.1) };

    fn room_after(&self, limit: usize) -> Option<usize> {
        let left = self.0.room_after(limit)?;
        self.1.room_after(left)
    }

    fn put<T: OctetsBuilder>(&self, form: Form, target: &mut T) -> Result<(), AppendError> {
        self.0.put(form, target)?;
        self.1.put(form, target)
    }

    fn order(&self, other: &Self) -> Ordering {
        self.0.fits();
        other.0.fits();
        let front = self.0.order(&other.0);
        front.then_with(|| self.1.order(&other.1))
    }

    fn order_from<'o>(&self, octets: &'o [u8]) -> (Ordering, &'o [u8]) {
        let (front, after) = self.0.order_from(octets);
        let (back, rest) = self.1.order_from(after);
        (front.then(back), rest)
    }

    fn feed<H: Hasher>(&self, state: &mut H) {
        self.0.feed(state);
        self.1.feed(state);
    }

    fn fits(&self) {
        self.0.fits();
        self.1.fits();
    }
}

impl Delimited for u8 {
    ghost delimited = { refl };
}

impl Delimited for u16 {
    ghost delimited = { refl };
}

impl Delimited for u32 {
    ghost delimited = { refl };
}

impl<'a> Delimited for ParsedName<'a> {
    ghost delimited = { refl };
}

impl<'a> Delimited for Spelled<ParsedName<'a>> {
    ghost delimited = { refl };
}

impl<const COUNT: usize> Delimited for Exactly<COUNT> {
    ghost delimited = { refl };
}

impl<const LIMIT: usize> Delimited for AtMost<LIMIT> {
    ghost delimited = { refl };
}

impl<A: Delimited, B: Delimited> Delimited for (A, B) {
    ghost delimited = { both_true A.delimited B.delimited };
}
