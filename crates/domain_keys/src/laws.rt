//! Laws of the printed forms of keys and digests. To use a law, call it in the body of your
//! function.
ghost use Rattle.std.specs.Prelude.{ℕ, Option};
ghost use Rattle.domain_codecs.specs.declared.codec.Codec.{Codec};
ghost use Rattle.domain_names.specs.Text.{IsOfTokens};
ghost use Rattle.domain_fields.specs.Scan.{IsExactEntry};
ghost use Rattle.domain_keys.specs.Keys.{KeyText, RefusesKey};

/// Tokens spell at most one key or digest. Tokens with a fault spell none, and have one fault, for
/// builders with any limit and in either codec. Lack of room or of memory is no such fault.
pub fn key_texts_are_exact()
    ensures { (codec : Codec) (limit : Option ℕ)
        → IsExactEntry (IsOfTokens limit) (KeyText codec) (RefusesKey codec limit) }
{}
