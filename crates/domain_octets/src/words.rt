//! The words of a line.
ghost use Rattle.std.specs.Prelude.{◌≡◌, ◌≤◌, ◌++◌, length, map, IsOk, OnErr, OnOk};
ghost use Rattle.smallvec.specs.SmallVec.{HasRoomFor};
ghost use Rattle.domain_octets.specs.Text.{word_if_any, words_of, HasWords};

use crate::OutOfMemory;
use memchr::memchr2;
use smallvec::SmallVec;

/// The words of a line. Up to eight, as in most records, are not allocated.
pub type LineWords<'a> = SmallVec<&'a str, 8>;

/// Appends a word if it is not empty.
fn push_word<'a>(words: &mut LineWords<'a>, word: &'a str) -> Result<(), OutOfMemory>
    ensures ok { OnOk result (map (λ w. w.now) words.new.items
        ≡ map (λ w. w.now) words.old.items ++ word_if_any word.now) }
    ensures err { OnErr result (words.new ≡ words.old) }
    ensures room { HasRoomFor words.old (length (word_if_any word.now)) → IsOk result }
    ensures capacity { words.old.capacity ≤ words.new.capacity }
{
    if !word.is_empty() {
        words.push(word)?;
    }
    Ok(())
}

/// Appends the words of a line: the nonempty parts between its spaces and tabs (RFC 1035, section
/// 5.1).
///
/// # Errors
///
/// `OutOfMemory` if the list has no room for the words and there is no memory for more. The list
/// then holds some of them, from the first on.
#[tactic(auto, using(crate::proofs::WordLemmas::pushing_steps))]
pub fn push_words<'a>(words: &mut LineWords<'a>, line: &'a str) -> Result<(), OutOfMemory>
    ensures ok { OnOk result (map (λ w. w.now) words.new.items
        ≡ map (λ w. w.now) words.old.items ++ words_of line.now) }
    ensures err { OnErr result (HasWords words.old.items line.now words.new.items) }
    ensures room { HasRoomFor words.old (length (words_of line.now)) → IsOk result }
{
    let mut rest = line;
    while let Some(end) = memchr2(b' ', b'\t', rest.as_bytes()) {
        let (word, behind) = rest.split_at(end);
        push_word(words, word)?;
        rest = &behind[1..];
    }
    push_word(words, rest)
}
