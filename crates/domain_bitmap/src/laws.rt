//! Laws of bitmaps, of octets that are read as bitmaps, and of the printed forms of bitmaps and
//! salts. To use a law, call it in the body of your function.
ghost use Rattle.std.specs.Prelude.{◌≡◌, ◌≢◌, ◌<◌, ◌≤◌, length, ◌↔◌, ℕ, Bool, Option, codes};
ghost use Rattle.domain_codecs.specs.declared.codec.Codec.TheVariants.{Base32Hex};
ghost use Rattle.domain_octets.specs.{Text.{words_of, IsWord}, Octets.{Octets, AreOctets}};
ghost use Rattle.domain_names.specs.{Text.{ScanFault, no_memory, IsOfTokens}, Name.Tokens};
ghost use Rattle.domain_base.specs.Types.{Rtypes};
ghost use Rattle.domain_bitmap.specs.{Bitmap.bitmap_octets, Blocks.{IsBitmap, IsShortest, contains_type}};
ghost use Rattle.domain_bitmap.specs.{Blocks.{types_of, types_below}, Text.{CountedFault, SaltTokenFault}};
ghost use Rattle.domain_bitmap.specs.Text.{OwnerHashText, SaltText, salt_text, RefusesTypes, TypeTexts};
ghost use Rattle.domain_bitmap.specs.Text.{is_among, types_text};

/// Two bitmaps from builders have the same octets if and only if the same types were added.
pub fn built_bitmaps_are_sets()
    ensures { (p q : ℕ → Bool) → (bitmap_octets p ≡ bitmap_octets q)
        ↔ ((t : ℕ) → t < 65536 → p t ≡ q t) }
{}

/// A bitmap from a builder contains exactly the types that were added, and returns them in
/// ascending order. It has at most 34 octets for each of the 256 windows.
#[tactic(auto, using(std::proofs::lemmas::Grind::common_steps, crate::proofs::BitmapLemmas::type_laws))]
pub fn built_bitmaps_give_their_types()
    ensures contains { (types : ℕ → Bool) (t : ℕ) → t < 65536
        → contains_type (bitmap_octets types) t ≡ types t }
    ensures gives { (types : ℕ → Bool) → types_of (bitmap_octets types) ≡ types_below 65536 types }
    ensures fits { (types : ℕ → Bool) → length (bitmap_octets types) ≤ 8704 }
{}

/// A list of blocks is one that a builder can make if and only if its windows strictly ascend and
/// no block ends in a zero octet.
#[tactic(auto, using(crate::proofs::BitmapLemmas::shortest_laws))]
pub fn built_bitmaps_are_shortest()
    ensures { (octets : Octets) → IsBitmap octets
        → ((types : ℕ → Bool) × (octets ≡ bitmap_octets types)) ↔ IsShortest octets }
{}

/// The words of a printed bitmap spell the types that it has. The bitmap of these types is the same
/// one, if its windows strictly ascend and no block ends in a zero octet.
#[tactic(auto, using(crate::proofs::TextLemmas::types_back, crate::proofs::TextLemmas::bitmap_back))]
pub fn bitmaps_are_read_back()
    ensures types { (octets : Octets) → IsBitmap octets
        → TypeTexts (words_of (types_text (types_of octets))) (types_of octets) }
    ensures same { (octets : Octets) → IsBitmap octets → IsShortest octets
        → bitmap_octets (is_among (types_of octets)) ≡ octets }
{}

/// The printed form of a salt parses to the same salt, and is one word.
#[tactic(auto, using(crate::proofs::TextLemmas::salt_back, crate::proofs::TextLemmas::salt_word))]
pub fn salts_are_read_back()
    ensures salt { (octets : Octets) → AreOctets octets → length octets ≤ 255
        → SaltText (salt_text octets) octets }
    ensures word { (octets : Octets) → IsWord (salt_text octets) }
{}

/// Tokens spell at most one list of types, and a text spells at most one salt and one hash.
#[tactic(auto, using(crate::proofs::TextLemmas::spelled_once, crate::proofs::TextLemmas::salt_once, crate::proofs::TextLemmas::hash_once))]
pub fn types_and_hashes_are_spelled_once()
    ensures types { (tokens : Tokens) (x y : Rtypes) → TypeTexts tokens x → TypeTexts tokens y
        → x ≡ y }
    ensures salt { (text x y : Octets) → SaltText text x → SaltText text y → x ≡ y }
    ensures hash { (text x y : Octets) → OwnerHashText text x → OwnerHashText text y → x ≡ y }
{}

/// Tokens that are rejected as types spell none, and a text that is rejected as a salt or a hash
/// spells none, for builders with any limit. Lack of room or of memory is no such rejection.
#[tactic(auto, using(crate::proofs::TextLemmas::types_refused, crate::proofs::TextLemmas::salt_excludes, crate::proofs::TextLemmas::hash_excludes))]
pub fn refused_tokens_spell_no_types()
    ensures types { (limit : Option ℕ) (old new : Tokens) (types : Rtypes) (fault : ScanFault)
        → RefusesTypes limit old new fault → IsOfTokens limit fault → TypeTexts old types → ⊥ }
    ensures salt { (limit : Option ℕ) (text salt : Octets) (fault : ScanFault)
        → SaltTokenFault limit fault text → IsOfTokens limit fault → SaltText text salt → ⊥ }
    ensures hash { (limit : Option ℕ) (text hash : Octets) (fault : ScanFault)
        → CountedFault Base32Hex (codes "illegal owner name hash") limit fault text
        → IsOfTokens limit fault → OwnerHashText text hash → ⊥ }
{}

/// Tokens are rejected as types for one fault, which also determines the tokens left. Lack of room
/// or of memory is no such fault. A text is rejected as a salt or a hash for one fault, except lack
/// of memory. Both hold for builders with any limit.
#[tactic(auto, using(crate::proofs::TextLemmas::types_one_fault, crate::proofs::TextLemmas::salt_one_fault, crate::proofs::TextLemmas::counted_one_fault))]
pub fn types_and_hashes_have_one_fault()
    ensures types { (limit : Option ℕ) (old m n : Tokens) (x y : ScanFault)
        → RefusesTypes limit old m x → RefusesTypes limit old n y → IsOfTokens limit x
        → IsOfTokens limit y → (x ≡ y) × (m ≡ n) }
    ensures salt { (limit : Option ℕ) (text : Octets) (x y : ScanFault)
        → SaltTokenFault limit x text → SaltTokenFault limit y text → x ≢ no_memory
        → y ≢ no_memory → x ≡ y }
    ensures hash { (limit : Option ℕ) (text : Octets) (x y : ScanFault)
        → CountedFault Base32Hex (codes "illegal owner name hash") limit x text
        → CountedFault Base32Hex (codes "illegal owner name hash") limit y text → x ≢ no_memory
        → y ≢ no_memory → x ≡ y }
{}
