//! Laws of octets in slices and of the words of a line. To use a law, call it in the body of your
//! function.
ghost use Rattle.std.specs.{Prelude.{◌≡◌, List}, List.{AllByRecursion, join_with_byte}};
ghost use Rattle.domain_octets.specs.{Text.{space, words_of, IsWord}, Octets.{Octets, AreOctets}};

/// Splitting a line of tokens that one space separates gives these tokens, if each is one word.
#[tactic(auto, using(crate::proofs::WordLemmas::joined_words))]
pub fn lines_are_read_back()
    ensures { (tokens : List Octets) → AllByRecursion IsWord tokens
        → words_of (join_with_byte space tokens) ≡ tokens }
{}

/// The elements of a slice are octets.
pub fn slices_hold_octets(octets: &[u8])
    ensures { AreOctets octets.now }
{}
