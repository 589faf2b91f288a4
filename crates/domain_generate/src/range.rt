//! The values of `$GENERATE`: START-STOP or START-STOP/STEP.
ghost use Rattle.std.specs.Prelude.{◌≡◌, IfSome, option_copied};
ghost use Rattle.domain_generate.specs.Ranges.{IsRange, range_of, checked_range, range_step, value_count, value_at, last_value};

use crate::cut::{cut, read_number};

/// The greatest number of values of an entry `$GENERATE`.
pub const MAX_VALUES: u64 = 65536;

/// The values of an entry: from `start` on, `step` apart, up to `stop`.
#[derive(Clone, Copy, Debug, PartialEq, Eq)]
pub struct ValueRange {
    /// The first value.
    pub start: u32,
    /// No value is greater.
    pub stop: u32,
    /// The difference of a value and the one before it.
    pub step: u32,
}

/// Returns the step that a text spells, and 1 if it is left out.
fn range_step(text: Option<&[u8]>) -> Option<u32>
    ensures { result ≡ range_step (option_copied text.entry) }
{
    match text {
        Some(text) => read_number(text),
        None => Some(1),
    }
}

/// Returns the range of these numbers, if it has values.
fn checked_range(start: u32, stop: u32, step: u32) -> Option<ValueRange>
    ensures value { result ≡ checked_range start stop step }
    ensures some { IfSome result IsRange }
{
    if (start <= stop) & (step >= 1) {
        return Some(ValueRange { start, stop, step });
    }
    None
}

/// Returns the range that a text spells.
pub(crate) fn read_range(text: &[u8]) -> Option<ValueRange>
    ensures value { result ≡ range_of text.now }
    ensures some { IfSome result IsRange }
{
    let (start, rest) = cut(text, b'-');
    let start = read_number(start)?;
    let (stop, step) = cut(rest?, b'/');
    let stop = read_number(stop)?;
    let step = range_step(step)?;
    checked_range(start, stop, step)
}

/// Returns the number of values.
pub(crate) fn value_count(range: ValueRange) -> u64
    requires { IsRange range }
    ensures { result ≡ value_count range }
{
    u64::from(range.stop - range.start) / u64::from(range.step) + 1
}

/// Returns the last value.
#[tactic(auto, using(crate::proofs::RangeLemmas::value_within))]
pub(crate) fn last_value(range: ValueRange) -> u32
    requires { IsRange range }
    ensures { result ≡ last_value range }
{
    range.start + (range.stop - range.start) / range.step * range.step
}

/// Returns the value of this number, counted from 0, if there are so many.
#[tactic(auto, using(crate::proofs::RangeLemmas::value_within))]
pub(crate) fn value_at(range: ValueRange, index: u32) -> Option<u32>
    requires { IsRange range }
    ensures { result ≡ value_at range index }
{
    if u64::from(index) < value_count(range) {
        return Some(range.start + index * range.step);
    }
    None
}
