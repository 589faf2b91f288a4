//! The records of a chain that a response needs, by its answer (RFC 4035, section 3.1.3; RFC 5155,
//! section 7.2).
ghost use Rattle.std.specs.Prelude.{◌≡◌};
ghost use Rattle.domain_answer.specs.Needs.{needs_of, needs_wildcard_record, wildcard_count};

use crate::Answer;

/// Returns how many labels the closest encloser has, if the answer is about a name that does not
/// exist, or None. The wildcard below the closest encloser then matters.
pub fn wildcard_count(answer: Answer) -> Option<usize>
    ensures { result ≡ wildcard_count answer }
{
    match answer {
        Answer::Wildcard(count) => Some(count),
        Answer::WildcardAlias(count) => Some(count),
        Answer::WildcardNoData(count) => Some(count),
        Answer::NameError(count) => Some(count),
        Answer::NoCloserName(count) => Some(count),
        Answer::MayBeUnsigned(count) => Some(count),
        _ => None,
    }
}

/// The records of a chain that a response needs for a name (RFC 4035, section 3.1.3; RFC 5155,
/// section 7.2). It may also need the record of the wildcard (`needs_wildcard_record`).
#[derive(Clone, Copy, Debug, PartialEq, Eq)]
pub enum Needs {
    /// None: the response has data, or is not from this zone.
    Nothing,
    /// The record of the zone cut, if it does not list DS.
    Cut,
    /// The record of the name.
    Own,
    /// The record that denies the name; with NSEC3, that of the next closer name.
    Closer,
    /// The record that denies the name; with NSEC3, those of the closest encloser and of the next
    /// closer name.
    Both,
}

/// Returns the records that a response with this answer needs for the name.
pub fn needs_of(answer: Answer) -> Needs
    ensures { result ≡ needs_of answer }
{
    match answer {
        Answer::OutsideZone => Needs::Nothing,
        Answer::Referral(_) => Needs::Cut,
        Answer::Redirected(_) | Answer::Has | Answer::Alias => Needs::Nothing,
        Answer::AtParent | Answer::NoDs | Answer::NoData => Needs::Own,
        Answer::NxName => Needs::Own,
        Answer::Wildcard(_) | Answer::WildcardAlias(_) => Needs::Closer,
        Answer::WildcardNoData(_) | Answer::NameError(_) => Needs::Both,
        Answer::MayBeUnsigned(_) | Answer::NoCloserName(_) => Needs::Both,
        Answer::TooManyIterations | Answer::NotProven => Needs::Nothing,
    }
}

/// Returns whether a response with this answer also needs the record of the wildcard below the
/// closest encloser. If the name may be unsigned, a name error needs it (RFC 5155, section 7.2.2)
/// and a referral does not.
pub fn needs_wildcard_record(answer: Answer) -> bool
    ensures { result ≡ needs_wildcard_record answer }
{
    match answer {
        Answer::WildcardNoData(_) | Answer::NameError(_) | Answer::MayBeUnsigned(_) => true,
        _ => false,
    }
}
