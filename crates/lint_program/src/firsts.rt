//! The first record of each group.
ghost use Rattle.std.specs.Prelude.{◌≡◌, List, [], ◌∷◌, ◌++◌, IfOk, Option, option_map};
ghost use Rattle.domain_borrowed.specs.Data.{RawRecord};
ghost use Rattle.lint_program.specs.Notes.{by_number, number_of, with_record, AreFirsts, AreFirstsBy};
ghost use Rattle.lint_program.specs.Notes.{AreOfGroups, Group as Grouped, earlier};

use crate::looks::{Group, Look, Placed, group_of};
use domain_base::{Name, ParsedName};
use std::alloc::AllocError;
use std::collections::BTreeMap;
use std::hash::{FoldHasher, Hash, Hasher};

/// The first record of each group. A group comes after the number of its name, so most comparisons
/// of groups compare two numbers.
pub type Firsts<'z, 'a> = BTreeMap<(u64, Group<'z>), Placed<'z, 'a>>;

/// Returns the number of a name: the hash of its octets in lower case.
#[tactic(auto, unfolding(crate::specs::Notes::number_of))]
fn number_of(name: &Name<&[u8]>) -> u64
    ensures { result ≡ number_of name.now }
{
    let mut hasher = FoldHasher::default();
    name.hash(&mut hasher);
    hasher.finish()
}

/// Returns a group after the number of its name.
#[tactic(auto, unfolding(crate::specs::Notes::by_number))]
fn numbered<'z>(group: Group<'z>) -> (u64, Group<'z>)
    ensures { result ≡ by_number group.entry }
{
    (number_of(&group.0), group)
}

/// Returns the first record of a group. If there is none, this record becomes the first.
fn take_in<'z, 'a>(
    group: Group<'z>,
    firsts: &mut Firsts<'z, 'a>,
    placed: Placed<'z, 'a>,
) -> Result<Option<Placed<'z, 'a>>, AllocError>
    ensures { IfOk result (λ kept. (first : Grouped → Option RawRecord) → AreOfGroups first
        → AreFirstsBy first firsts.old
        → (option_map (λ p. p.borrowed.now) kept ≡ first group.entry)
        × AreFirstsBy (with_record first group.entry placed.entry.borrowed.now) firsts.new) }
{
    let key = numbered(group);
    if let Some(first) = firsts.get(&key) {
        return Ok(Some(*first));
    }
    firsts.insert(key, placed)?;
    Ok(None)
}

/// Returns the first record in the group of a record. If there is none, this record becomes the
/// first.
pub fn first_in_group<'z, 'a>(
    look: Look,
    apex: &'z ParsedName<'_>,
    firsts: &mut Firsts<'z, 'a>,
    placed: Placed<'z, 'a>,
) -> Result<Option<Placed<'z, 'a>>, AllocError>
    ensures { IfOk result (λ first. (before : List RawRecord)
        → AreFirsts look apex.now before firsts.old
        → (option_map (λ p. p.borrowed.now) first
        ≡ earlier look apex.now before placed.entry.borrowed.now)
        × AreFirsts look apex.now (before ++ placed.entry.borrowed.now ∷ []) firsts.new) }
{
    let group = group_of(look, apex, placed.borrowed);
    Ok(take_in(group, firsts, placed)?)
}
