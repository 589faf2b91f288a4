//! What the types that a record lists say of the name that owns it.
ghost use Rattle.std.specs.Prelude.{◌≡◌};
ghost use Rattle.domain_answer.specs.ZoneAnswer.{asked_type, is_meta_type, types_answer, wildcard_types_answer};

use crate::Answer;
use domain_base::Rtype;
use domain_bitmap::RtypeBitmap;
use domain_octets::Octets;

/// The number of the type ANY, which asks for records of each type (RFC 1035, section 3.2.3).
const ANY: u16 = 255;

/// The number of the type NXNAME, which the record of a name lists if the name does not exist (RFC
/// 9824, section 3).
const NXNAME: u16 = 128;

/// The number of the type OPT, which only messages have (RFC 6891).
const OPT: u16 = 41;

/// Returns whether no record of a zone has the type: it is type 0, OPT, or a Q or Meta-TYPE from
/// 128 to 254, such as AXFR (RFC 6895, section 3.1). ANY is none of these here, since it asks for
/// records.
#[tactic(auto, unfolding(crate::specs::ZoneAnswer::is_meta_type))]
pub fn is_meta_type(rtype: Rtype) -> bool
    ensures { result ≡ is_meta_type rtype }
{
    let number = rtype.to_int();
    number == 0 || number == OPT || (number >= NXNAME && number < ANY)
}

/// Returns the type that decides whether a name owns what is asked for: RRSIG for ANY, since each
/// name that owns records, except a zone cut, owns signatures.
#[tactic(auto, unfolding(crate::specs::ZoneAnswer::asked_type))]
fn asked_type(rtype: Rtype) -> Rtype
    ensures { result ≡ asked_type rtype }
{
    if rtype.to_int() == ANY {
        return Rtype::RRSIG;
    }
    rtype
}

/// Returns what types answer to a question for `rtype` at the name that owns them, which has
/// `count` labels. `at_cut` says whether it is a zone cut. The answer is `NotProven` if the types
/// are those of a child zone's apex (RFC 6840, section 4.4).
pub fn types_answer<O: Octets>(
    types: &RtypeBitmap<O>,
    at_cut: bool,
    count: usize,
    rtype: Rtype,
) -> Answer
    ensures { result ≡ types_answer at_cut types.now count rtype }
{
    if at_cut && types.contains(Rtype::SOA) {
        return Answer::NotProven;
    }
    if at_cut && rtype != Rtype::DS {
        return Answer::Referral(count);
    }
    if types.contains(asked_type(rtype)) {
        return Answer::Has;
    }
    if at_cut {
        return Answer::NoDs;
    }
    if types.contains(Rtype::CNAME) {
        return Answer::Alias;
    }
    if types.contains(Rtype::from_int(NXNAME)) {
        return Answer::NxName;
    }
    Answer::NoData
}

/// Returns what the types of a wildcard say of a name whose closest encloser, right above the
/// wildcard, has `count` labels (RFC 4592, section 3.3). `at_cut` says whether the wildcard is a
/// zone cut.
pub fn wildcard_types_answer<O: Octets>(
    types: &RtypeBitmap<O>,
    at_cut: bool,
    count: usize,
    rtype: Rtype,
) -> Answer
    ensures { result ≡ wildcard_types_answer at_cut types.now count rtype }
{
    if types.contains(asked_type(rtype)) || (at_cut && rtype != Rtype::DS) {
        return Answer::Wildcard(count);
    }
    if types.contains(Rtype::CNAME) {
        return Answer::WildcardAlias(count);
    }
    Answer::WildcardNoData(count)
}
