//! Octets encoded as text (RFC 4648).
use super::*;

/// Octets that print in an alphabet, or in lower-case Base 16 if no alphabet is given.
#[derive(Drop)]
struct Encoded<'a>(Option<Codec>, &'a [u8]);

impl Display for Encoded<'_> {
    fn fmt<W: Write>(&self, f: &mut Formatter<W>) -> Printed {
        match self.0 {
            Some(Codec::Base16) => base16::display(self.1, f),
            Some(Codec::Base32Hex) => base32::display(self.1, f),
            Some(Codec::Base64) => base64_standard::display(self.1, f),
            None => base16::display_lower(self.1, f),
        }
    }
}

/// Adds octets in each alphabet, both encoded into a string and printed.
fn encode(octets: &[u8], answers: &mut Answers) -> Answered {
    let alloc = answers.alloc;
    let lower = answers.ok(base32::encode_hex_lower(alloc, octets))?;
    say!(
        answers, show_made "base16": base16::encode_string(alloc, octets),
        show "printed": Encoded(Some(Codec::Base16), octets), show "lower": Encoded(None, octets),
        show_made "base32": base32::encode_string(alloc, octets),
        show "printed": Encoded(Some(Codec::Base32Hex), octets),
        show_made "lower": str::from_utf8(lower.as_slice()),
        show_made "base64": base64_standard::encode_string(alloc, octets),
        show "printed": Encoded(Some(Codec::Base64), octets)
    )
}

/// Adds what a text encodes if it is cut in two, for each place of the cut. An empty text is
/// between the parts.
fn decode_cut(codec: Codec, text: &str, answers: &mut Answers) -> Answered {
    for place in 0..=text.len() {
        if let Some((front, back)) = text.split_at_checked(place) {
            let octets = codec.decode_joined::<Vec<u8>>(answers.alloc, &[front, "", back]);
            answers.octets_made("cut", &octets);
        }
    }
    Some(())
}

/// Returns a word without the number of an alphabet at its end, and that alphabet. Without such a
/// number, the alphabet is Base 64.
pub fn split_codec(word: &str) -> (&str, Codec) {
    if let Some(front) = word.strip_suffix("16") {
        return (front, Codec::Base16);
    }
    if let Some(front) = word.strip_suffix("32") {
        return (front, Codec::Base32Hex);
    }
    (word.strip_suffix("64").unwrap_or(word), Codec::Base64)
}

/// Answers a vector on octets encoded as text.
pub fn answer(form: &str, words: &[&str], answers: &mut Answers) -> Answered {
    let (alloc, text) = (answers.alloc, word(words, 0));
    let (form, codec) = split_codec(form);
    match form {
        "encode" => encode(answers.spelled(words)?.as_slice(), answers),
        "base" => say!(
            answers, octets_made "octets": codec.decode::<Vec<u8>>(alloc, text),
            fault "ArrayBuilder<2>": codec.decode::<Two>(alloc, text)
        ),
        "joined" => say!(
            answers, octets_made "joined": codec.decode_joined::<Vec<u8>>(alloc, words),
            fault "ArrayBuilder<2>": codec.decode_joined::<Two>(alloc, words)
        ),
        "cut" => decode_cut(codec, text, answers),
        "arrays" => say!(
            answers, octets_made "array": codec.decode::<ArrayBuilder<0>>(alloc, text),
            octets_made "array": codec.decode::<ArrayBuilder<1>>(alloc, text),
            octets_made "array": codec.decode::<Two>(alloc, text),
            octets_made "array": codec.decode::<ArrayBuilder<3>>(alloc, text),
            octets_made "array": codec.decode::<ArrayBuilder<4>>(alloc, text)
        ),
        "named" => say!(
            answers, debug "base16": base16::decode::<Vec<u8>>(alloc, text),
            debug "base32": base32::decode_hex::<Vec<u8>>(alloc, text),
            debug "base64": base64_standard::decode::<Vec<u8>>(alloc, text)
        ),
        _ => say!(
            answers, show "text": DecodeError::IllegalChar('-'),
            show "text": DecodeError::ShortInput, show "text": DecodeError::ShortBuf,
            show "text": DecodeError::OutOfMemory, show "text": OutOfMemory
        ),
    }
}
