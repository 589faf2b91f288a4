//! Bitmaps of types (RFC 4034, section 4.1.2).
use super::*;

/// Returns the types that words name.
fn types(words: &[&str], answers: &mut Answers) -> Given<Vec<Rtype>> {
    let mut types = Vec::new(answers.alloc);
    for word in words {
        answers.own(types.push(given!(answers, Rtype::from_token(word))))?;
    }
    Some(types)
}

/// Adds a bitmap in each of its forms, and whether it contains the types in `asked`.
fn show<O: Octets>(bitmap: &Bitmap<O>, asked: &[Rtype], answers: &mut Answers) -> Answered {
    say!(
        answers, octets "octets": *bitmap, show "text": bitmap, debug "debug": bitmap,
        show "empty": bitmap.is_empty()
    );
    if bitmap.as_slice().len() < 65536 {
        answers.show("length", &bitmap.compose_len());
    }
    let text = bitmap.display_zonefile(answers.alloc, DisplayKind::Simple);
    answers.debug("zone file", &text);
    for rtype in bitmap {
        answers.debug("holds", &(rtype, bitmap.contains(rtype)));
    }
    for rtype in asked {
        answers.debug("asked", &(*rtype, bitmap.contains(*rtype)));
    }
    Some(())
}

/// Adds the bitmap of the types in `added`, and whether it contains those in `asked`. Also adds the
/// types for which the builder has no room.
fn built<B>(added: &[Rtype], asked: &[Rtype], answers: &mut Answers) -> Answered
where
    B: EmptyBuilder + FreezeBuilder + Truncate + Drop,
    B::Frozen: Drop,
{
    let mut builder = RtypeBitmapBuilder::<B>::new(answers.alloc);
    for rtype in added {
        if let Err(error) = builder.add(*rtype) {
            if error == AppendError::OutOfMemory {
                return answers.debug("refused", &error);
            }
            say!(answers, show "without room": rtype, debug "refused": error);
        }
    }
    show(&builder.finalize(), asked, answers)
}

/// Adds the bitmap of the first type of each window. The types are added from the last window to
/// the first.
fn windows(answers: &mut Answers) -> Answered {
    let mut builder = RtypeBitmapBuilder::new_vec(answers.alloc);
    for window in 0..256u16 {
        answers.ok(builder.add(Rtype::from_int(256 * (255 - window))))?;
    }
    let bitmap = builder.finalize();
    answers.octets("octets", &bitmap);
    answers.characters(&bitmap)
}

/// Adds the bitmap that octets encode, and the one that is parsed from them.
fn from_octets(octets: &[u8], answers: &mut Answers) -> Answered {
    if let Some(bitmap) = answers.ok(Bitmap::from_octets(octets)) {
        show(&bitmap, &[], answers);
    }
    let mut parser = Parser::new(octets);
    if let Some(bitmap) = answers.ok(Bitmap::parse(&mut parser)) {
        held(&bitmap, answers);
    }
    answers.show("at", &parser.pos())
}

/// Adds a bitmap over other types of octets, and what is written where it fits only once.
fn held(bitmap: &Bitmap<&[u8]>, answers: &mut Answers) -> Answered {
    say_each!(answers.octets_made, bitmap, Bitmap);
    let mut target = ArrayBuilder::<6>::empty(answers.alloc);
    say!(
        answers, debug "composed": bitmap.compose(&mut target),
        debug "again": bitmap.compose(&mut target), octets "target": target
    )
}

/// Adds the bitmap of the types that tokens name, in a `Vec` and with room for one window.
fn scan(tokens: &[&str], answers: &mut Answers) -> Answered {
    let mut scanner = Tokens::new(tokens);
    let mut short = Short::<34>::new(tokens);
    let array = Bitmap::<ArrayBuilder<34>>::scan(answers.alloc, &mut short);
    let made = Bitmap::<Vec<u8>>::scan(answers.alloc, &mut scanner);
    answers.octets_made("octets", &made);
    if let Err(ScanError::OutOfMemory) = &made {
        return None;
    }
    say!(
        answers, debug "next": scanner.first_token(), octets_made "ArrayBuilder<34>": array,
        debug "next": short.first_token()
    )
}

/// Adds types to a builder, and shows what it returns. An out-of-memory error ends the answer.
fn add<B: Truncate>(
    builder: &mut RtypeBitmapBuilder<B>,
    added: &[Rtype],
    answers: &mut Answers,
) -> Answered {
    for rtype in added {
        let made = builder.add(*rtype);
        answers.debug("added", &made);
        if made == Err(AppendError::OutOfMemory) {
            return None;
        }
    }
    Some(())
}

/// Adds the bitmap that a builder without types makes.
fn without_types(answers: &mut Answers) -> Answered {
    let builder = RtypeBitmapBuilder::<Vec<u8>>::default(answers.alloc);
    show(&builder.finalize(), &[], answers)
}

/// Adds a list of the bitmaps that words spell, and what is at each place of it.
fn list(words: &[&str], answers: &mut Answers) -> Answered {
    let mut list = RtypeBitmaps::new(answers.alloc);
    answers.show("empty", &list.is_empty());
    for word in words {
        let octets = answers.spelled(&[*word])?;
        let bitmap = answers.ok(Bitmap::from_octets(octets.as_slice()))?;
        answers.own(list.push(&bitmap))?;
    }
    say!(answers, show "empty": list.is_empty(), show "length": list.len());
    for place in 0..list.len() {
        answers.debug("at", &list.get(place));
    }
    answers.debug("at", &list.get(list.len()))
}

/// Answers a vector on types that are added to builders, and on types that are then looked up.
fn of_types(form: &str, words: &[&str], answers: &mut Answers) -> Answered {
    let (added, asked) = halves(words, "/");
    let (added, asked) = (types(added, answers)?, types(asked, answers)?);
    match form {
        "types" => built::<Vec<u8>>(&added, &asked, answers),
        "tight" => built::<ArrayBuilder<34>>(&added, &asked, answers),
        "copy" => {
            let mut builder = Bitmap::<Vec<u8>>::builder(answers.alloc);
            add(&mut builder, &added, answers)?;
            let copy = answers.ok(builder.clone())?;
            say!(answers, octets "copy": copy.finalize(), octets "Vec": builder.finalize())
        }
        _ => {
            let mut builder = RtypeBitmapBuilder::with_builder(ArrayBuilder::<68>::new());
            add(&mut builder, &added, answers);
            answers.octets("ArrayBuilder<68>", &builder.finalize())
        }
    }
}

/// Answers a vector on bitmaps.
pub fn answer(form: &str, words: &[&str], answers: &mut Answers) -> Answered {
    match form {
        "octets" => from_octets(answers.spelled(words)?.as_slice(), answers),
        "compare" => {
            let (first, second) = answers.two_parts(words)?;
            let a = answers.ok(Bitmap::from_octets(first.as_slice()))?;
            let b = answers.ok(Bitmap::from_octets(second.as_slice()))?;
            answers.compared(&a, &b);
            say_methods!(answers, a.(eq_to cmp_to canonical_cmp_to)(&b))
        }
        "windows" => windows(answers),
        "default" => without_types(answers),
        "list" => list(words, answers),
        "scan" => scan(words, answers),
        "errors" => say!(
            answers, show "text": RtypeBitmapError::ShortInput,
            show "text": RtypeBitmapError::BadRtypeBitmap
        ),
        _ => of_types(form, words, answers),
    }
}
