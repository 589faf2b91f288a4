//! Names: in presentation format, on the wire, compared, and over other types of octets (RFC 1035;
//! RFC 4034, section 6.1).
use super::*;

/// Adds a name in each of its forms.
fn show<N: ToName + Display + Debug>(name: &N, answers: &mut Answers) -> Answered {
    say!(
        answers, show "text": name, show "dotted": name.fmt_with_dot(),
        octets "wire": name.as_wire(), show "length": name.compose_len(),
        show "labels": name.labels().count()
    )
}

/// Parses three names from the front of octets, one after another, and adds each name or its error.
fn parse(octets: &[u8], answers: &mut Answers) -> Answered {
    let mut parser = Parser::new(octets);
    for _ in 0..3 {
        if let Some(name) = answers.ok(ParsedName::parse(&mut parser)) {
            say!(answers, show "name": name, debug "debug": name);
        }
        answers.show("at", &parser.pos());
    }
    Some(())
}

/// Adds the name without its first label. The root has no first label.
fn parent(name: &OwnName, answers: &mut Answers) -> Answered {
    match name.as_parsed().parent() {
        Some(parent) => answers.show("parent", &parent),
        None => answers.echo("  no parent"),
    }
}

/// Adds how a name compares with a borrowed name that a text spells.
fn compare(a: &OwnName, text: &str, answers: &mut Answers) -> Answered {
    let b = answers.name(text)?;
    let b = &answers.ok(ParsedName::from_slice(b.as_wire()))?;
    say_methods!(answers, a.(name_eq ends_with name_cmp composed_cmp lowercase_composed_cmp)(b))
}

/// Adds how each name compares with the one before it, and how many labels the two share.
fn ascend(words: &[&str], answers: &mut Answers) -> Answered {
    let mut before = answers.name(".")?;
    for word in words {
        let name = answers.name(word)?;
        let after = name.compare(&before);
        answers.debug(word, &(before.name_cmp(&name), after.order, after.common));
        before = name;
    }
    Some(())
}

/// Adds a name over each type of octets. One type has room for three octets, and one for two.
fn held(name: &OwnName, answers: &mut Answers) -> Answered {
    let alloc = answers.alloc;
    answers.debug_made("copy", &converted::<_, OwnName>(alloc, name));
    if let Some(parsed) = answers.ok(ParsedName::from_slice(name.as_wire())) {
        answers.debug_made("Vec", &flattened::<_, OwnName>(alloc, &parsed));
    }
    say!(
        answers, debug_made "Bytes": converted::<_, Name<Bytes>>(alloc, name),
        debug_made "ArrayBuilder<3>": converted::<_, Name<ArrayBuilder<3>>>(alloc, name),
        debug_made "ArrayBuilder<2>": converted::<_, Name<Two>>(alloc, name)
    )
}

/// Adds what is written of a name in canonical form if some of eleven octets are already taken.
fn room(name: &OwnName, words: &[&str], answers: &mut Answers) -> Answered {
    let mut target = ArrayBuilder::<11>::empty(answers.alloc);
    let taken = answers.spelled(words.get(2..).unwrap_or_default())?;
    let short = Name::<ArrayBuilder<4>>::from_str(answers.alloc, word(words, 0));
    say!(
        answers, debug "taken": target.append_slice(taken.as_slice()),
        debug "canonical": name.compose_canonical(&mut target), octets "target": target,
        fault "ArrayBuilder<4>": short
    )
}

/// Inserts a name as a key into an ordered map and into a hash map. Adds what each map finds for
/// the name that a text spells.
fn find(key: &OwnName, text: &str, answers: &mut Answers) -> Answered {
    let asked = answers.name(text)?;
    let mut tree = BTreeMap::new(answers.alloc);
    let inserted = tree.insert(answers.ok(key.try_clone())?, 1u8);
    answers.own(inserted)?;
    answers.debug("BTreeMap", &tree.get(&asked).copied());
    let mut hashed = HashMap::new(answers.alloc);
    let inserted = hashed.insert(answers.ok(key.try_clone())?, 2u8);
    answers.own(inserted)?;
    answers.debug("HashMap", &hashed.get(&asked).copied())
}

/// Adds the names in the order of std's sort.
fn sort(words: &[&str], answers: &mut Answers) -> Answered {
    let mut names = Vec::new(answers.alloc);
    for word in words {
        let name = answers.name(word)?;
        answers.own(names.push(name))?;
    }
    answers.own(names.sort())?;
    for name in &names {
        answers.show("name", name);
    }
    Some(())
}

/// Answers a vector on a name that a text spells.
fn of_text(form: &str, words: &[&str], answers: &mut Answers) -> Answered {
    let name = &answers.name(word(words, 0))?;
    let second = word(words, 1);
    match form {
        "room" => room(name, words, answers),
        "compare" => compare(name, second, answers),
        "find" => find(name, second, answers),
        "held" => held(name, answers),
        "parent" => parent(name, answers),
        "size" => {
            say!(answers, show "length": name.compose_len(), show "labels": name.labels().count());
            answers.characters(name)
        }
        _ => show(name, answers),
    }
}

/// Answers a vector on names.
pub fn answer(form: &str, words: &[&str], answers: &mut Answers) -> Answered {
    match form {
        "wire" => {
            let octets = answers.spelled(words)?;
            let name = answers.ok(Name::from_octets(octets.as_slice()))?;
            show(&name, answers);
            answers.debug("debug", &name)
        }
        "parse" => parse(answers.spelled(words)?.as_slice(), answers),
        "ascend" => ascend(words, answers),
        "sort" => sort(words, answers),
        _ => of_text(form, words, answers),
    }
}
