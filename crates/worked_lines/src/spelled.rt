//! The octets, names and questions that the words of a vector spell.
use crate::answers::{Answers, Given};
use crate::given;
use crate::words::{halves, word};
use domain_base::{FromToken, IterScanner, Name, Rtype, Scanner};
use domain_codecs::Codec;
use domain_octets::ArrayBuilder;

/// A name that owns its octets.
pub type OwnName = Name<Vec<u8>>;

/// The tokens of an entry.
pub type Tokens<'a> = IterScanner<'a, Vec<u8>>;

/// The tokens of an entry, with room for `N` octets.
pub type Short<'a, const N: usize> = IterScanner<'a, ArrayBuilder<N>>;

/// The values that words spell. If they spell none, the error ends the answer.
impl Answers {
    /// Returns the name that a word spells.
    pub fn name(&mut self, word: &str) -> Given<OwnName> {
        let name = OwnName::from_str(self.alloc, word);
        self.ok(name)
    }

    /// Returns the octets that words together spell in Base 16. The word `-` spells none.
    pub fn spelled(&mut self, words: &[&str]) -> Given<Vec<u8>> {
        match words {
            ["-"] => Some(Vec::new(self.alloc)),
            _ => self.ok(Tokens::new(words).convert_entry(self.alloc, Codec::Base16)),
        }
    }

    /// Returns the octets that the words before the first `/` spell, and those that the words after
    /// it spell.
    pub fn two_parts(&mut self, words: &[&str]) -> Given<(Vec<u8>, Vec<u8>)> {
        let (front, back) = halves(words, "/");
        Some((self.spelled(front)?, self.spelled(back)?))
    }

    /// Returns the name and the type that two words spell.
    pub fn question(&mut self, words: &[&str]) -> Given<(OwnName, Rtype)> {
        let name = self.name(word(words, 0))?;
        Some((name, given!(self, Rtype::from_token(word(words, 1)))))
    }
}
