//! Several texts that are read as one.
ghost use Rattle.std.specs.Prelude.{◌≡◌, ◌+◌, ◌≤◌, ◌%◌, ◌++◌, [], ℕ, length, map, take};
ghost use Rattle.std.specs.List.{concat};
ghost use Rattle.domain_codecs.specs.Codec.{Cut};
ghost use Rattle.domain_octets.specs.Octets.{Octets, AreOctets};

use domain_octets::laws;
use std::marker::Model;

/// Copies octets into a buffer, from a position on.
pub(crate) fn put(buffer: &mut [u8], at: usize, part: &[u8])
    requires { at + length part.now ≤ length buffer.old }
    ensures front { (count : ℕ) → count ≤ length part.now
        → take (at + count) buffer.new ≡ take at buffer.old ++ take count part.now }
    ensures room { length buffer.new ≡ length buffer.old }
{
    buffer[at..at + part.len()].copy_from_slice(part);
}

/// The unread characters of several texts.
#[derive(Drop)]
pub(crate) struct Joined<'a> {
    front: &'a [u8],
    texts: &'a [&'a str],
}

impl<'a> Model for Joined<'a> {
    ghost Value = { Octets };

    ghost view = { λ j. j.front.now ++ concat (map (λ text. text.now) j.texts.now) };
}

impl<'a> Joined<'a> {
    /// Returns all characters of these texts.
    pub(crate) fn new(texts: &'a [&'a str]) -> Self
        ensures { result ≡ concat (map (λ text. text.now) texts.now) }
    {
        match texts {
            [text, others @ ..] => Joined {
                front: text.as_bytes(),
                texts: others,
            },
            [] => Joined { front: &[], texts },
        }
    }

    /// Returns the same characters, to read them again.
    pub(crate) fn fork(&self) -> Joined<'a>
        ensures { result ≡ self.now }
    {
        Joined {
            front: self.front,
            texts: self.texts,
        }
    }

    /// Moves the next 64 characters, or all if there are fewer, into a buffer.
    pub(crate) fn take_piece<'b>(&mut self, buffer: &'b mut [u8; 64]) -> &'b [u8]
        ensures { Cut self.old result.now self.new }
    {
        let mut count = 0;
        loop {
            let (part, after) = self.front.split_at(self.front.len().min(64 - count));
            put(buffer, count, part);
            count += part.len();
            self.front = after;
            if count == 64 {
                return buffer;
            }
            let [text, others @ ..] = self.texts else {
                return &buffer[..count];
            };
            self.front = text.as_bytes();
            self.texts = others;
        }
    }
}

/// Returns the number of characters of joined texts, modulo 8.
pub(crate) fn over_eight(texts: &[&str]) -> usize
    ensures over { result ≡ length (concat (map (λ text. text.now) texts.now)) % 8 }
    ensures octets { AreOctets (concat (map (λ text. text.now) texts.now)) }
{
    let mut over = 0;
    let mut left = texts;
    while let [text, others @ ..] = left {
        laws::slices_hold_octets(text.as_bytes());
        over = (over + text.len() % 8) % 8;
        left = others;
    }
    over
}
