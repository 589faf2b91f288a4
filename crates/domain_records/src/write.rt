//! Records as text, SOA records first.
ghost use Rattle.std.specs.Prelude.{◌∷◌, [], filter, OnOk};
ghost use Rattle.std.specs.{Bool.beq, Fmt.WritesText, List.FoldsTo};
ghost use Rattle.domain_records.specs.Text.{is_soa_record, soa_first, WritesLine};

use domain_base::Rtype;
use domain_record::{Record, RecordData};
use std::fmt;

/// A way to write an element.
pub trait Line<T, W> {
    /// What a call requires.
    ghost is_ready: { Self → Type 0 };

    /// How a call that succeeds changes the writer.
    ghost writes: { Self → W → T → W → Type 0 };

    /// Writes an element.
    fn put(&self, item: &T, target: &mut W) -> fmt::Result
        requires { is_ready self.now }
        ensures { OnOk result (writes self.now target.old item.now target.new) };
}

/// Writes an element and nothing else.
pub struct Plain;

impl<T: fmt::Display, W: fmt::Write> Line<T, W> for Plain {
    ghost is_ready = { λ _. Unit {0} };

    ghost writes = { λ _ w x v. WritesText W.write_str_gives w (T.output x) v };

    fn put(&self, item: &T, target: &mut W) -> fmt::Result {
        write!(target, "{item}")
    }
}

/// Writes an element, its comment and a line feed.
#[derive(Drop)]
pub struct Commented<F> {
    pub(crate) comment: F,
}

impl<T: fmt::Display, W: fmt::Write, F: Fn(&T, &mut W) -> fmt::Result> Line<T, W> for Commented<F> {
    ghost is_ready = { λ line. F.IsAlwaysCallable line.comment };

    ghost writes = { λ line. WritesLine W.write_str_gives T.output F.Fn line.comment };

    fn put(&self, item: &T, target: &mut W) -> fmt::Result {
        let comment = &self.comment;
        write!(target, "{item}")?;
        comment(item, target)?;
        target.write_char('\n')
    }
}

/// Writes the record if it is of type SOA and `of_soa` is true, or if neither holds.
fn write_picked<N, D: RecordData, W, L: Line<Record<N, D>, W>>(
    item: &Record<N, D>,
    of_soa: bool,
    target: &mut W,
    line: &L,
) -> fmt::Result
    requires { L.is_ready line.now }
    ensures { OnOk result (FoldsTo (L.writes line.now) target.old
        (filter (λ r. beq (is_soa_record D.rtype r) of_soa) (item.now ∷ [])) target.new) }
{
    if (item.rtype() == Rtype::SOA) != of_soa {
        return Ok(());
    }
    line.put(item, target)
}

/// Writes the records of type SOA if `of_soa` is true, else all others, in order.
fn write_part<N, D: RecordData, W, L: Line<Record<N, D>, W>>(
    records: &[Record<N, D>],
    of_soa: bool,
    target: &mut W,
    line: &L,
) -> fmt::Result
    requires { L.is_ready line.now }
    ensures { OnOk result (FoldsTo (L.writes line.now) target.old
        (filter (λ r. beq (is_soa_record D.rtype r) of_soa) records.now) target.new) }
{
    for item in records {
        write_picked(item, of_soa, target, line)?;
    }
    Ok(())
}

/// Writes the records of type SOA and then the others, each part in order.
pub(crate) fn write_soa_first<N, D: RecordData, W, L: Line<Record<N, D>, W>>(
    records: &[Record<N, D>],
    target: &mut W,
    line: &L,
) -> fmt::Result
    requires { L.is_ready line.now }
    ensures { OnOk result
        (FoldsTo (L.writes line.now) target.old (soa_first D.rtype records.now) target.new) }
{
    write_part(records, true, target, line)?;
    write_part(records, false, target, line)
}
