//! A question to NSEC3 records, passed as octets.
ghost use Rattle.std.specs.Prelude.{IfErr, IfOk};
ghost use Rattle.denial_c.specs.Result.{as_question, source_of, AreAsked, IsNsec3Fault};

use crate::fault::Fault;
use crate::nsec::read_name;
use crate::nsec3::{Telling, chain_told};
use domain_base::{Class, ParsedName};
use domain_nsec3::Nsec3Records;
use std::alloc::Global;

/// A question to NSEC3 records: the names, and the records with their parameters.
pub(crate) struct Question<'a> {
    pub(crate) apex: ParsedName<'a>,
    pub(crate) name: ParsedName<'a>,
    pub(crate) chain: Nsec3Records<ParsedName<'a>, &'a [u8]>,
}

/// Reads a question: an apex, a name, and the NSEC3 records of the class in `records`.
pub(crate) fn read_question<'a>(
    alloc: Global,
    telling: Telling,
    apex: &'a [u8],
    name: &'a [u8],
    class: u16,
    records: &'a [u8],
) -> Result<Question<'a>, Fault>
    ensures ok { IfOk result (λ question. AreAsked (source_of telling class records.now) apex.now
        name.now (as_question question)) }
    ensures err { IfErr result
        (IsNsec3Fault (source_of telling class records.now) apex.now name.now) }
{
    let apex = read_name(apex, Fault::Apex)?;
    let name = read_name(name, Fault::Name)?;
    let chain = chain_told(alloc, telling, &apex, Class::from_int(class), records)?;
    Ok(Question { apex, name, chain })
}
