//! The arguments of `judge` that those of `answer` stand for.
ghost use Rattle.std.specs.Prelude.{◌≡◌, ◌++◌, [], ◌∷◌, codes, IfOk, map, string_bytes};
ghost use Rattle.denial_commands.specs.Command.{answer_options, answer_words, names_nsec3};

use domain_octets::OutOfMemory;
use std::alloc::Global;

/// Returns whether arguments begin with `nsec3`.
#[tactic(auto, using(std::proofs::lemmas::Grind::common_steps))]
fn names_nsec3(words: &[String]) -> bool
    ensures { result ≡ names_nsec3 (map string_bytes words.now) }
{
    match words {
        [kind, ..] => kind.as_str() == "nsec3",
        [] => false,
    }
}

/// Appends a word.
fn push_word(alloc: Global, words: &mut Vec<String>, word: &str) -> Result<(), OutOfMemory>
    ensures { IfOk result (λ _. map string_bytes words.new.items
        ≡ map string_bytes words.old.items ++ word.now ∷ []) }
{
    let copy = String::from_str(alloc, word)?;
    words.push(copy)?;
    Ok(())
}

/// Returns a copy of words.
fn copy_words(alloc: Global, words: &[String]) -> Result<Vec<String>, OutOfMemory>
    ensures { IfOk result (λ copy. map string_bytes copy.items ≡ map string_bytes words.now) }
{
    let mut copy = Vec::new(alloc);
    for word in words {
        push_word(alloc, &mut copy, word.as_str())?;
    }
    Ok(copy)
}

/// Appends the options of `judge` that `answer` stands for.
#[tactic(auto, using(std::proofs::lemmas::Grind::common_steps))]
fn push_options(alloc: Global, words: &mut Vec<String>, is_nsec3: bool) -> Result<(), OutOfMemory>
    ensures { IfOk result (λ _. map string_bytes words.new.items
        ≡ map string_bytes words.old.items ++ answer_options is_nsec3) }
{
    if !is_nsec3 {
        return push_word(alloc, words, "--records");
    }
    push_word(alloc, words, "--limit")?;
    push_word(alloc, words, "65535")?;
    push_word(alloc, words, "--records")?;
    Ok(())
}

/// Returns the arguments of `judge` that these arguments of `answer` stand for: the records are
/// printed, and those of an NSEC3 chain are hashed with as many iterations as the zone has.
///
/// # Errors
///
/// `OutOfMemory` if there is no memory.
pub fn answer_words(alloc: Global, words: &[String]) -> Result<Vec<String>, OutOfMemory>
    ensures { IfOk result (λ all. map string_bytes all.items
        ≡ answer_words (map string_bytes words.now)) }
{
    let mut all = copy_words(alloc, words)?;
    push_options(alloc, &mut all, names_nsec3(words))?;
    Ok(all)
}
