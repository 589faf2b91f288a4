//! Records in lines of a zone file.
ghost use Rattle.std.specs.Prelude.{◌≡◌, ◌↔◌, IsTrue, false, IfOk, IfErr, None, Some};
ghost use Rattle.domain_message.specs.ErrorText.{line_error_text};
ghost use Rattle.domain_octets.specs.Text.{is_blank, words_of};
ghost use Rattle.domain_message.specs.declared.line.LineError.TheVariants as variant;
ghost use Rattle.domain_message.specs.Entry.{BodyText, RefusesBody, EntryText, RefusesRecordText};
ghost use Rattle.domain_message.specs.Entry.{IsNoEntry, IsOfLine, EntryLineText, RefusesLine};

use domain_base::{
    Class, FromToken, IterScanner, MakeName, Name, Rtype, ScanError, Scanner, ToName, Ttl,
};
use domain_octets::{
    EmptyBuilder, FreezeBuilder, FromBuilder, LineWords, Octets, OutOfMemory, Truncate, push_words,
};
use domain_rdata::ZoneRecordData;
use domain_record::Record;
use std::alloc::Global;
use std::error::Error;
use std::fmt;

/// A record that owns its octets.
pub type OwnedRecord = Record<Name<Vec<u8>>, ZoneRecordData<Vec<u8>, Name<Vec<u8>>>>;

/// Why tokens, or a line, do not spell a record.
#[derive(Clone, Copy, Debug, PartialEq, Eq)]
pub enum LineError {
    /// The line is blank, or a comment.
    NoEntry,
    /// The first token is missing, or is not a name.
    Owner(ScanError),
    /// The second token is missing, or is not a number of 32 bits.
    Ttl(ScanError),
    /// The third token is missing, or is not a class.
    Class(ScanError),
    /// The fourth token is missing, or is not the name of a known type.
    Rtype(ScanError),
    /// The tokens after these four do not begin with data of the type.
    RecordData(ScanError),
    /// There are tokens after the data.
    Trailing,
    /// There was no memory for the words of the line.
    OutOfMemory,
}

impl fmt::Display for LineError {
    // specs/ErrorText.antt repeats these texts: change both together.
    ghost output = { λ e. Some (line_error_text e) };

    fn fmt<W: fmt::Write>(&self, f: &mut fmt::Formatter<W>) -> fmt::Result {
        match self {
            LineError::NoEntry => f.write_str("no entry"),
            LineError::Owner(error) => write!(f, "owner: {error}"),
            LineError::Ttl(error) => write!(f, "TTL: {error}"),
            LineError::Class(error) => write!(f, "class: {error}"),
            LineError::Rtype(error) => write!(f, "type: {error}"),
            LineError::RecordData(error) => write!(f, "data: {error}"),
            LineError::Trailing => f.write_str("trailing tokens"),
            LineError::OutOfMemory => f.write_str("out of memory"),
        }
    }
}

impl Error for LineError {}

impl From<OutOfMemory> for LineError {
    ghost from_gives = { λ _ made. made ≡ variant.OutOfMemory };

    fn from(_error: OutOfMemory) -> LineError {
        LineError::OutOfMemory
    }
}

impl LineError {
    /// Returns whether memory ran out, so it is not known whether there is a record. It does not
    /// report lack of room, which octets without a limit never have.
    pub fn is_out_of_memory(&self) -> bool
        ensures { (result ≡ false) ↔ IsOfLine None self.now }
    {
        match self {
            LineError::NoEntry | LineError::Trailing => false,
            LineError::OutOfMemory => true,
            LineError::Owner(error)
            | LineError::Ttl(error)
            | LineError::Class(error)
            | LineError::Rtype(error)
            | LineError::RecordData(error) => matches!(error, ScanError::OutOfMemory),
        }
    }
}

/// Reads all tokens that are left as the TTL, class, type and data of a record with this owner.
///
/// # Errors
///
/// The error of the first part that is missing or rejected, with its `ScanError`; `Trailing` if
/// tokens are left after the data.
#[tactic(auto, unfolding(crate::specs::Entry::RefusesBody))]
pub fn scan_behind_owner<W: Drop, O, N, S: Scanner<Name = N, Octets = O>>(
    alloc: Global,
    scanner: &mut S,
    owner: W,
) -> Result<Record<W, ZoneRecordData<O, N>>, LineError>
where
    O: FromBuilder + Drop,
    N: MakeName + Drop,
    O::Builder: EmptyBuilder + Truncate + FreezeBuilder<Frozen = O> + Drop,
    ensures owner { IfOk result (λ r. r.owner ≡ owner) }
    ensures ok { IfOk result (λ r.
        BodyText O.octets N.labels (S.tokens scanner.old) r.ttl r.class r.«data») }
    ensures err { IfErr result (RefusesBody O.octets N.labels O.Builder.limit
        (S.tokens scanner.old)) }
{
    let ttl = match Ttl::scan(scanner) {
        Ok(ttl) => ttl,
        Err(error) => return Err(LineError::Ttl(error)),
    };
    let class = match Class::scan(scanner) {
        Ok(class) => class,
        Err(error) => return Err(LineError::Class(error)),
    };
    let rtype = match Rtype::scan(scanner) {
        Ok(rtype) => rtype,
        Err(error) => return Err(LineError::Rtype(error)),
    };
    let data = match ZoneRecordData::scan_rdata(alloc, rtype, scanner) {
        Ok(data) => data,
        Err(error) => return Err(LineError::RecordData(error)),
    };
    if scanner.continues() {
        return Err(LineError::Trailing);
    }
    Ok(Record::new(owner, class, ttl, data))
}

/// Reads all tokens that are left as a record: its owner, TTL, class, type and data (RFC 1035,
/// section 5.1). Names are absolute, with or without a last dot.
///
/// # Errors
///
/// The error of the first part that is missing or rejected, with its `ScanError`; `Trailing` if
/// tokens are left after the data.
pub fn scan_entry<O: FromBuilder + Drop, N: MakeName + Drop, S: Scanner<Name = N, Octets = O>>(
    alloc: Global,
    scanner: &mut S,
) -> Result<Record<N, ZoneRecordData<O, N>>, LineError>
where
    O::Builder: EmptyBuilder + Truncate + FreezeBuilder<Frozen = O> + Drop,
    ensures ok { IfOk result (EntryText O.octets N.labels (S.tokens scanner.old)) }
    ensures err { IfErr result (RefusesRecordText O.octets N.labels O.Builder.limit
        (S.tokens scanner.old)) }
{
    let owner = match scanner.scan_name(alloc) {
        Ok(owner) => owner,
        Err(error) => return Err(LineError::Owner(error)),
    };
    scan_behind_owner(alloc, scanner, owner)
}

/// Returns whether the octet separates words.
fn is_blank(octet: u8) -> bool
    ensures { result ≡ is_blank octet }
{
    octet == b' ' || octet == b'\t'
}

/// Returns whether a line is blank, or a comment: whether it has only spaces and tabs, or the first
/// other octet is a semicolon (RFC 1035, section 5.1).
#[tactic(auto, using(crate::proofs::OneLineLemmas::blank_passed, crate::proofs::OneLineLemmas::entry_begins))]
pub fn is_no_entry(line: &[u8]) -> bool
    ensures { IsTrue result ↔ IsNoEntry (words_of line.now) }
{
    for octet in line {
        if !is_blank(*octet) {
            return *octet == b';';
        }
    }
    true
}

/// Reads a line of a zone file as a record, in the form that this library prints (RFC 1035, section
/// 5.1): owner, TTL, class, type and data, separated by spaces or tabs. Names are absolute, with or
/// without a last dot. For other types of octets, or tokens from elsewhere, use `scan_entry`.
///
/// # Errors
///
/// - `NoEntry` if the line is blank, or its first word begins with a semicolon.
/// - Otherwise the error of the first part that is missing or rejected, with its `ScanError`, and
///   `Trailing` if words are left after the data.
/// - `OutOfMemory` if there is no memory for the words of the line.
#[tactic(auto, using(std::proofs::lemmas::Grind::common_steps, crate::proofs::OneLineLemmas::line_refused))]
pub fn scan_record(alloc: Global, line: &str) -> Result<OwnedRecord, LineError>
    ensures ok { IfOk result (EntryLineText (λ o. o.items) (λ n. n) line.now) }
    ensures err { IfErr result (RefusesLine ⟦<Vec<u8> as Octets>⟧.octets
        ⟦<Name<Vec<u8>> as ToName>⟧.labels None line.now) }
{
    if is_no_entry(line.as_bytes()) {
        return Err(LineError::NoEntry);
    }
    let mut words = LineWords::new(alloc);
    push_words(&mut words, line)?;
    let mut scanner = IterScanner::<Vec<u8>>::new(words.as_slice());
    scan_entry(alloc, &mut scanner)
}
