//! A hasher that looks names up in a table.
ghost use Rattle.std.specs.Prelude.{◌≡◌, ℕ, Ok, Err, IfOk, IsErrOf};
ghost use Rattle.worked_chains.specs.Table.{table_answer};

use super::*;

/// A name on the wire in lower case, and its hash. There may be no memory for the hash.
#[derive(Drop)]
pub struct Row {
    name: Vec<u8>,
    hash: Vec<u8>,
    has_memory: bool,
}

/// A hasher that returns the hash in the row of a name. For a name without a row, it returns the
/// error `Refused` with the number 7. It ignores the other arguments.
#[derive(Drop)]
pub struct TableHasher {
    rows: Vec<Row>,
}

/// Looks up a name in the rows of a table.
fn look_up(rows: &[Row], name: &[u8]) -> Result<Vec<u8>, HasherError>
    ensures ok { IfOk result (λ hash. table_answer rows.now name.now ≡ Ok hash.items) }
    ensures refused { (n : ℕ) → IsErrOf result (HasherError.Refused n)
        → table_answer rows.now name.now ≡ Err n }
{
    let Some((row, later)) = rows.split_first() else {
        return Err(HasherError::Refused(7));
    };
    if row.name.as_slice() == name {
        if !row.has_memory {
            return Err(HasherError::OutOfMemory);
        }
        return Ok(row.hash.clone()?);
    }
    look_up(later, name)
}

impl Nsec3Hasher for TableHasher {
    ghost answer = { λ hasher name algorithm iterations salt.
        table_answer hasher.rows.items name };

    ghost takes_memory = { λ hasher. Unit {0} };

    fn hash(
        &self,
        alloc: Global,
        name: &[u8],
        algorithm: Nsec3HashAlgorithm,
        iterations: u16,
        salt: &[u8],
    ) -> Result<Vec<u8>, HasherError> {
        look_up(self.rows.as_slice(), name)
    }
}

/// Returns the row that a word spells: a name, and after `=` the octets of its hash in Base 16. In
/// place of these, `memory` means that there is no memory for them.
fn make_row(word: &str, answers: &mut Answers) -> Given<Row> {
    let (text, digits) = word.split_once('=').unwrap_or((word, "-"));
    let mut name = Vec::new(answers.alloc);
    let composed = answers.name(text)?.compose_canonical(&mut name);
    answers.ok(composed)?;
    let has_memory = digits != "memory";
    let hash = answers.spelled(&[if has_memory { digits } else { "-" }])?;
    Some(Row {
        name,
        hash,
        has_memory,
    })
}

/// Returns the table whose rows words spell.
pub fn make_table(words: &[&str], answers: &mut Answers) -> Given<TableHasher> {
    let mut rows = Vec::new(answers.alloc);
    for word in words {
        let row = make_row(word, answers)?;
        answers.own(rows.push(row))?;
    }
    Some(TableHasher { rows })
}
