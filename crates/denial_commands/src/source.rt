//! Where the arguments say that the input is: in a zone file, or in a file that follows them.
ghost use Rattle.std.specs.Prelude.{◌≡◌, ◌⊎◌, ◌≤◌, ◌<◌, ◌+◌, ◌↔◌, [], ℕ, IsTrue, length, get_or, IfNone, IfSome, map, string_bytes};
ghost use Rattle.std.specs.List.{remove};
ghost use Rattle.denial_commands.specs.Source.{least_before, least_of, taken, taken_by, taken_by_judge, word_at, word_is, HasExtraWord, IsZoneAt};

/// Returns whether the word at a place is this one.
fn is_word(words: &[String], place: usize, text: &str) -> bool
    ensures { result ≡ word_is (map string_bytes words.now) place text.now }
{
    match words.get(place) {
        Some(word) => word.as_str() == text,
        None => text.is_empty(),
    }
}

/// Returns how many words stand before `--zone` at least, with the name of the command, or None if
/// the command has no such option.
fn least_of(word: &str) -> Option<usize>
    ensures { result ≡ least_of word.now }
{
    match word {
        "nsec" | "lint" => Some(2),
        "nsec3" => Some(4),
        "check" | "judge" | "answer" => Some(5),
        _ => None,
    }
}

/// Returns how many words stand before `--zone` at least, or None if there is no such option.
fn least_before(words: &[String]) -> Option<usize>
    ensures { result ≡ least_before (map string_bytes words.now) }
{
    match words {
        [word, ..] => least_of(word.as_str()),
        [] => None,
    }
}

/// Returns the place of the option `--zone` that a file follows, behind the arguments of a command
/// that must be there.
fn place_of_zone(words: &[String]) -> Option<usize>
    ensures some { IfSome result (IsZoneAt (map string_bytes words.now)) }
    ensures none { IfNone result ((at : ℕ) → IsZoneAt (map string_bytes words.now) at → ⊥) }
{
    let least = least_before(words)?;
    for place in least..words.len().saturating_sub(1) {
        if is_word(words, place, "--zone") {
            return Some(place);
        }
    }
    None
}

/// Takes the option `--zone FILE` out of the arguments, and returns the file. The commands `nsec`,
/// `nsec3`, `check`, `judge`, `answer` and `lint` have it, behind the arguments that they must
/// have. So no command of the specification has it. Returns None, and leaves the arguments as they
/// are, if they do not have the option.
pub fn take_zone(words: &mut Vec<String>) -> Option<String>
    ensures some { IfSome result (λ file. (at : ℕ) × IsZoneAt (map string_bytes words.old.items) at
        × (words.new.items ≡ remove (remove words.old.items (at + 1)) at)
        × (string_bytes file ≡ word_at (map string_bytes words.old.items) (at + 1))) }
    ensures none { IfNone result ((words.new ≡ words.old) × ((at : ℕ)
        → IsZoneAt (map string_bytes words.old.items) at → ⊥)) }
{
    let place = place_of_zone(words.as_slice())?;
    let file = words.remove(place + 1);
    let _option = words.remove(place);
    Some(file)
}

/// Returns the number of words that `judge` takes, with its name.
fn taken_by_judge(words: &[String]) -> usize
    ensures { result ≡ taken_by_judge (map string_bytes words.now) }
{
    let labels = if is_word(words, 5, "--labels") { 7 } else { 5 };
    let limit = if is_word(words, labels, "--limit") {
        labels + 2
    } else {
        labels
    };
    if is_word(words, limit, "--why") || is_word(words, limit, "--records") {
        limit + 1
    } else {
        limit
    }
}

/// Returns the number of words that the command of this name takes, with the name, or None if there
/// is no such command.
fn taken_by(word: &str, words: &[String]) -> Option<usize>
    ensures { result ≡ taken_by word.now (map string_bytes words.now) }
{
    match word {
        "nsec" => Some(2),
        "nsec3" => Some(if is_word(words, 4, "optout") { 5 } else { 4 }),
        "check" | "answer" => Some(5),
        "judge" => Some(taken_by_judge(words)),
        "lint" => Some(if words.len() < 4 { 2 } else { 4 }),
        "zone" => Some(if is_word(words, 2, "unsigned") { 3 } else { 2 }),
        _ => None,
    }
}

/// Returns the number of words that the command takes, with its name, or None if there is no such
/// command.
fn taken(words: &[String]) -> Option<usize>
    ensures { result ≡ taken (map string_bytes words.now) }
{
    match words {
        [word, ..] => taken_by(word.as_str(), words),
        [] => None,
    }
}

/// Returns whether there is one word more than the command takes. Such a word names the file that
/// is read in place of standard input, if there is one.
pub fn has_extra_word(words: &[String]) -> bool
    ensures { IsTrue result ↔ HasExtraWord (map string_bytes words.now) }
{
    match taken(words) {
        Some(count) => words.len() == count + 1,
        None => false,
    }
}
