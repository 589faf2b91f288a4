//! Octets, their builders, and the parser that reads them from the front.
use super::*;

/// A builder with room for three octets.
type Three = ArrayBuilder<3>;

/// Returns what a builder makes of `front`. The form `join` appends `back`. Any other form replaces
/// the second octet with the first octet of `back`.
fn build<B>(form: &str, alloc: Global, front: &[u8], back: &[u8]) -> Result<B::Frozen, AppendError>
where
    B: EmptyBuilder + FreezeBuilder + Drop,
{
    let mut builder = B::empty(alloc);
    builder.append_slice(front)?;
    if form == "join" {
        builder.append_slice(back)?;
    } else if let (Some(place), Some(other)) = (builder.as_mut_slice().get_mut(1), back.first()) {
        *place = *other;
    }
    Ok(builder.freeze())
}

/// Adds what each builder makes of two parts.
fn built(form: &str, front: &[u8], back: &[u8], answers: &mut Answers) -> Answered {
    let alloc = answers.alloc;
    say!(
        answers, octets_made "Vec": build::<Vec<u8>>(form, alloc, front, back),
        octets_made "SmallBuilder": build::<SmallBuilder>(form, alloc, front, back)
    );
    match form {
        "join" => say!(
            answers, octets_made "ArrayBuilder<3>": build::<Three>(form, alloc, front, back),
            octets_made "ArrayBuilder<2>": build::<Two>(form, alloc, front, back)
        ),
        _ => say!(
            answers,
            octets_made "ArrayBuilder<9>": build::<ArrayBuilder<9>>(form, alloc, front, back)
        ),
    }
}

/// Adds octets converted to the type `O`, and a copy of them if that succeeds.
fn twice<'a, O>(label: &str, octets: &'a [u8], answers: &mut Answers) -> Answered
where
    O: OctetsFrom<&'a [u8]> + Octets + Drop,
{
    let made = O::try_octets_from(answers.alloc, octets);
    if let Ok(octets) = &made {
        answers.octets_made("copy", &octets.try_clone());
    }
    answers.octets_made(label, &made)
}

/// Adds octets converted to each type. The types that a builder makes are also made directly,
/// without the steps of a builder.
fn held(octets: &[u8], answers: &mut Answers) -> Answered {
    let alloc = answers.alloc;
    answers.octets_made("Vec", &Vec::try_octets_from(alloc, octets));
    twice::<Bytes>("Bytes", octets, answers);
    twice::<SmallOctets>("SmallOctets", octets, answers);
    twice::<Three>("ArrayBuilder<3>", octets, answers);
    say!(
        answers, octets_made "ArrayBuilder<2>": Two::try_octets_from(alloc, octets),
        octets_made "Vec made": Vec::<u8>::from_octets(alloc, octets),
        octets_made "SmallOctets made": SmallOctets::from_octets(alloc, octets),
        octets_made "ArrayBuilder<3> made": Three::from_octets(alloc, octets),
        octets_made "ArrayBuilder<2> made": Two::from_octets(alloc, octets)
    )
}

/// Adds the octets that a parser has left after the first one, and those that a fork has left after
/// two more. Also adds an owned copy of the octets.
fn left(octets: &[u8], answers: &mut Answers) -> Answered {
    let mut parser = Parser::new(octets);
    answers.debug("u8", &parser.parse_u8());
    let mut ahead = parser.fork();
    if ahead.remaining() >= 2 {
        ahead.advance(2);
    }
    say!(
        answers, octets "left": parser.peek_all(), show "at": parser.pos(),
        octets "left ahead": ahead.peek_all(), show "at": ahead.pos(),
        octets_made "copy": SmallOctets::from_slice(answers.alloc, octets)
    )
}

/// Answers a vector on octets: joined or overwritten by each builder, converted, read, or empty.
pub fn answer(form: &str, words: &[&str], answers: &mut Answers) -> Answered {
    let (alloc, (front, back)) = (answers.alloc, answers.two_parts(words)?);
    match form {
        "held" => held(front.as_slice(), answers),
        "left" => left(front.as_slice(), answers),
        "parse" => {
            let mut parser = Parser::new(front.as_slice());
            say!(
                answers, debug "u8": parser.parse_u8(), debug "u16": parser.parse_u16(),
                debug "u32": parser.parse_u32(), debug "3 octets": parser.parse_octets(3),
                show "at": parser.pos(), debug "2 octets": parser.parse_octets(2),
                show "left": parser.remaining(), show "text": ParseError::ShortInput,
                show "text": ParseError::Form("why")
            )
        }
        "none" => say!(
            answers, octets "Vec": <Vec<u8> as EmptyOctets>::empty(alloc),
            octets "Bytes": <Bytes as EmptyOctets>::empty(alloc),
            octets "SmallOctets": <SmallOctets as EmptyOctets>::empty(alloc),
            octets "slice": <&[u8] as EmptyOctets>::empty(alloc)
        ),
        _ => built(form, front.as_slice(), back.as_slice(), answers),
    }
}
