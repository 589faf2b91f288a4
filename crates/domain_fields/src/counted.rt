//! Octets with a length octet before them.
ghost use Rattle.std.specs.Prelude.{◌≡◌, ◌≤◌, refl, length};
ghost use Rattle.domain_fields.specs.Layout.{counted, one};

use crate::Form;
use crate::fields::{Delimited, Fields, Rest};
use domain_octets::{AppendError, OctetsBuilder, laws};
use std::cmp::Ordering;
use std::hash::Hasher;

/// At most 255 octets, with a length octet before them.
#[derive(Drop)]
pub struct Counted<'a> {
    octets: &'a [u8],
    ghost fits: { length octets.now ≤ 255 },
}

impl<'a> Counted<'a> {
    /// Returns these octets, with their length before them.
    pub fn new(octets: &'a [u8]) -> Self
        requires { length octets.now ≤ 255 }
        ensures { result.octets.now ≡ octets.now }
    {
        Counted { octets }
    }

    /// Returns the octets, without the length.
    pub fn as_slice(&self) -> &'a [u8]
        ensures octets { result.now ≡ self.now.octets.now }
        ensures fits { length result.now ≤ 255 }
    {
        self.octets
    }

    /// Returns the length and the octets, which are written, compared and hashed as these two
    /// fields.
    fn parts(&self) -> (u8, Rest<'a>)
        ensures { (result.0 ≡ length self.now.octets.now) × (result.1.0.now ≡ self.now.octets.now) }
    {
        (self.octets.len() as u8, Rest(self.octets))
    }
}

#[tactic(auto, unfolding(crate::specs::Layout::octets_of))]
impl<'a> Fields for Counted<'a> {
    ghost layout = { one counted };

    ghost values = { λ n. n.octets.now };

    fn room_after(&self, limit: usize) -> Option<usize> {
        self.parts().room_after(limit)
    }

    fn put<B: OctetsBuilder>(&self, form: Form, target: &mut B) -> Result<(), AppendError> {
        self.parts().put(form, target)
    }

    fn order(&self, other: &Self) -> Ordering {
        self.parts().order(&other.parts())
    }

    fn order_from<'o>(&self, octets: &'o [u8]) -> (Ordering, &'o [u8]) {
        self.parts().order_from(octets)
    }

    fn feed<H: Hasher>(&self, state: &mut H) {
        self.parts().feed(state);
    }

    fn fits(&self) {
        self.parts().0.fits();
        laws::slices_hold_octets(self.octets);
    }
}

impl<'a> Delimited for Counted<'a> {
    ghost delimited = { refl };
}
