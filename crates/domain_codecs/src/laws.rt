//! Laws of Base 16, of Base 32 with the extended hex alphabet, and of Base 64. To use a law, call
//! it in the body of your function.
ghost use Rattle.std.specs.{Prelude.{◌≡◌, ◌≢◌, ◌<◌, ◌^◌, ℕ, []}, Fmt.decimal, List.flat_map};
ghost use Rattle.std.specs.{Ordering.nat_cmp, Cmp.Lexicographic.slice_cmp};
ghost use Rattle.domain_codecs.specs.Base32.{base32_from, base32_lower, base32_upper, digit_bits, filled_bits};
ghost use Rattle.domain_codecs.specs.{Codec.{IsBase32, Decodes}, declared.codec.Codec.Codec};
ghost use Rattle.domain_codecs.specs.declared.codec.Codec.TheVariants as codec;
ghost use Rattle.hex.specs.Hex.{encode_lower, encode_upper};
ghost use Rattle.base64.specs.{GeneralPurpose.encode_of, Engines.standard};
ghost use Rattle.domain_octets.specs.{Text.IsWord, Octets.{Octets, AreOctets}};

/// Texts sort as their octets do, for any lengths (RFC 4648, section 7). So the owners of NSEC3
/// records sort as their hashes do (RFC 5155, section 3).
#[tactic(auto, using(crate::proofs::Base32Lemmas::lower_keeps, crate::proofs::Base32Lemmas::upper_keeps))]
pub fn base32_keeps_order()
    ensures lower { (x y : Octets) → AreOctets x → AreOctets y
        → slice_cmp nat_cmp (base32_lower x) (base32_lower y) ≡ slice_cmp nat_cmp x y }
    ensures upper { (x y : Octets) → AreOctets x → AreOctets y
        → slice_cmp nat_cmp (base32_upper x) (base32_upper y) ≡ slice_cmp nat_cmp x y }
{}

/// Different octets have different texts.
pub fn base32_tells_apart()
    ensures lower { (x y : Octets) → AreOctets x → AreOctets y
        → base32_lower x ≡ base32_lower y → x ≡ y }
    ensures upper { (x y : Octets) → AreOctets x → AreOctets y
        → base32_upper x ≡ base32_upper y → x ≡ y }
{}

/// Text in lower case decodes to the octets that were encoded.
pub fn base32_reads_back()
    ensures { (octets : Octets) → AreOctets octets → IsBase32 (base32_lower octets) octets }
{}

/// Text in Base 32 hex in upper case, in Base 16 in either case, and in Base 64 also decodes to the
/// octets that were encoded.
pub fn texts_read_back()
    ensures base16_lower { (octets : Octets) → AreOctets octets
        → Decodes codec.Base16 (encode_lower octets) octets }
    ensures base16_upper { (octets : Octets) → AreOctets octets
        → Decodes codec.Base16 (encode_upper octets) octets }
    ensures base32_upper { (octets : Octets) → AreOctets octets
        → Decodes codec.Base32Hex (base32_upper octets) octets }
    ensures base64 { (octets : Octets) → AreOctets octets
        → Decodes codec.Base64 (encode_of standard octets) octets }
{}

/// A text encodes at most one list of octets.
pub fn texts_stand_for_octets_once()
    ensures { (codec : Codec) (text x y : Octets) → Decodes codec text x → Decodes codec text y
        → x ≡ y }
{}

/// A decimal number is one word, and so is the text of octets in each codec, unless there are none.
#[tactic(auto, using(domain_octets::proofs::WordLemmas::decimal_word, crate::proofs::CodecLemmas::lower_hex_word, crate::proofs::CodecLemmas::upper_hex_word, crate::proofs::CodecLemmas::lower_base32_word, crate::proofs::CodecLemmas::upper_base32_word, crate::proofs::CodecLemmas::base64_word))]
pub fn texts_are_words()
    ensures decimal { (n : ℕ) → n < 2 ^ 64 → IsWord (decimal n) }
    ensures base16_lower { (octets : Octets) → octets ≢ [] → IsWord (encode_lower octets) }
    ensures base16_upper { (octets : Octets) → octets ≢ [] → IsWord (encode_upper octets) }
    ensures base32_lower { (octets : Octets) → octets ≢ [] → IsWord (base32_lower octets) }
    ensures base32_upper { (octets : Octets) → octets ≢ [] → IsWord (base32_upper octets) }
    ensures base64 { (octets : Octets) → octets ≢ [] → IsWord (encode_of standard octets) }
{}

/// The digits of a text in Base 32 are the groups of five bits of its octets. Zero bits fill the
/// last group (RFC 4648, section 6).
#[tactic(auto, using(crate::proofs::Base32Lemmas::digits_are_groups))]
pub fn base32_digits_are_groups_of_bits()
    ensures { (octets : Octets) → AreOctets octets
        → flat_map digit_bits (base32_from 1 0 octets) ≡ filled_bits octets }
{}
