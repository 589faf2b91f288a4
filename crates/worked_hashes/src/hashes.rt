//! Salts, and hashes of owner names (RFC 5155, sections 3.1.5 and 3.1.7).
use super::*;

/// Adds a salt or a hash in each of its forms.
fn show<C: Octets + Display + Debug>(counted: &C, answers: &mut Answers) -> Answered {
    say!(
        answers, show "text": counted, debug "debug": counted, octets "octets": *counted,
        show "length": counted.as_slice().len()
    )
}

/// Adds the salt that a text spells, read by `from_str` and as a token.
fn salt(text: &str, answers: &mut Answers) -> Answered {
    match Nsec3Salt::<Vec<u8>>::from_str(answers.alloc, text) {
        Ok(salt) => {
            show(&salt, answers);
            answers.pieces(&salt);
            let text = salt.display_zonefile(answers.alloc, DisplayKind::Simple);
            answers.debug("zone file", &text)
        }
        Err(error) => say!(answers, debug "refused": error, show "text": error),
    };
    let tokens = [text];
    let mut scanner = Tokens::new(&tokens);
    say!(
        answers, octets_made "scanned": Nsec3Salt::scan(answers.alloc, &mut scanner),
        debug "next": scanner.first_token()
    )
}

/// Adds the hash that a text spells, read by `from_str` and as a token.
fn hash(text: &str, answers: &mut Answers) -> Answered {
    if let Some(hash) = answers.ok(OwnerHash::<Vec<u8>>::from_str(answers.alloc, text)) {
        show(&hash, answers);
    }
    let tokens = [text];
    let mut scanner = Tokens::new(&tokens);
    say!(
        answers, octets_made "scanned": OwnerHash::scan(answers.alloc, &mut scanner),
        debug "next": scanner.first_token()
    )
}

/// Adds how many octets the salt and the hash that a text spells have, or why it spells none.
fn sizes(text: &str, answers: &mut Answers) -> Answered {
    let alloc = answers.alloc;
    if let Some(salt) = answers.ok(Nsec3Salt::<Vec<u8>>::from_str(alloc, text)) {
        answers.show("salt", &salt.as_slice().len());
    }
    if let Some(hash) = answers.ok(OwnerHash::<Vec<u8>>::from_str(alloc, text)) {
        answers.show("hash", &hash.as_slice().len());
    }
    say!(
        answers, fault "salt as a token": Nsec3Salt::scan(alloc, &mut Tokens::new(&[text])),
        fault "hash as a token": OwnerHash::scan(alloc, &mut Tokens::new(&[text]))
    )
}

/// Adds why a text is no salt and no hash over one type of octets. The text is read by `from_str`
/// and as the next token.
fn refusals<O, S>(text: &str, scanner: &mut S, answers: &mut Answers) -> Answered
where
    O: FromBuilder + Drop,
    O::Builder: EmptyBuilder + Drop,
    S: Scanner<Octets = O>,
{
    let alloc = answers.alloc;
    say!(
        answers, fault "salt": Nsec3Salt::<O>::from_str(alloc, text),
        fault "salt as a token": Nsec3Salt::scan(alloc, scanner),
        fault "hash": OwnerHash::<O>::from_str(alloc, text),
        fault "hash as a token": OwnerHash::scan(alloc, scanner)
    )
}

/// Adds octets as a salt and as a hash, over other types of octets.
fn held(octets: &[u8], answers: &mut Answers) {
    if let Some(salt) = &answers.ok(Nsec3Salt::from_slice(octets)) {
        say_each!(answers.octets_made, salt, Nsec3Salt);
    }
    if let Some(hash) = &answers.ok(OwnerHash::from_slice(octets)) {
        say_each!(answers.octets_made, hash, OwnerHash);
    }
}

/// Adds how two salts or two hashes compare.
fn compare<E: Default + Debug + Drop>(a: &[u8], b: &[u8], answers: &mut Answers) -> Answered {
    let a = answers.ok(Counted::<&[u8], E>::from_slice(a))?;
    let b = answers.ok(Counted::<&[u8], E>::from_slice(b))?;
    answers.compared(&a, &b);
    say_methods!(answers, a.(canonical_cmp_to)(&b))
}

/// Adds the SHA-1 hashes of four names, made at once, and that of the last name, made separately.
/// The words are the salt and then the names, each in octets.
pub fn digests(iterations: &str, words: &[&str], answers: &mut Answers) -> Answered {
    let Some(iterations) = value::<u16>(iterations) else {
        return answers.echo("  no number of iterations");
    };
    let salt = answers.spelled(&[word(words, 0)])?;
    let first = answers.spelled(&[word(words, 1)])?;
    let second = answers.spelled(&[word(words, 2)])?;
    let third = answers.spelled(&[word(words, 3)])?;
    let fourth = answers.spelled(&[word(words, 4)])?;
    let names = [
        first.as_slice(),
        second.as_slice(),
        third.as_slice(),
        fourth.as_slice(),
    ];
    let (alloc, algorithm, salt) = (answers.alloc, Nsec3HashAlgorithm::SHA1, salt.as_slice());
    let hashes = answers.own(Sha1Hasher.hash_four(alloc, names, algorithm, iterations, salt))?;
    for hash in &hashes {
        answers.octets("four", hash);
    }
    let last = answers.own(Sha1Hasher.hash(alloc, names[3], algorithm, iterations, salt))?;
    answers.octets("one", &last)
}

/// Answers a vector on salts and hashes whose words spell octets.
fn of_octets(form: &str, first: &[u8], second: &[u8], answers: &mut Answers) -> Answered {
    match form {
        "parse" => {
            let mut parser = Parser::new(first);
            say!(
                answers, show_made "salt": Nsec3Salt::parse(&mut parser),
                show "at": parser.pos(), show_made "hash": OwnerHash::parse(&mut parser),
                show "at": parser.pos()
            )
        }
        "limit" => say!(
            answers, fault "salt": Nsec3Salt::from_slice(first),
            fault "hash": OwnerHash::from_slice(first)
        ),
        "compare" => {
            compare::<Nsec3SaltError>(first, second, answers);
            compare::<OwnerHashError>(first, second, answers)
        }
        _ => {
            held(first, answers);
            let copy = answers.own(Bytes::copy_from_slice(answers.alloc, first))?;
            let again = answers.own(copy.clone())?;
            say!(answers, octets_made "borrowed": Nsec3Salt::from_octets(first));
            let salt = answers.ok(Nsec3Salt::from_bytes(copy))?;
            let hash = answers.ok(OwnerHash::from_bytes(again))?;
            say!(answers, octets "salt": salt.into_octets(), octets "hash": hash.into_octets())
        }
    }
}

/// Answers a vector on salts and hashes. The form `room` has room for 1, for 255 and for 256
/// octets.
pub fn answer(form: &str, words: &[&str], answers: &mut Answers) -> Answered {
    let text = word(words, 0);
    match form {
        "salt" => salt(text, answers),
        "hash" => hash(text, answers),
        "sizes" => sizes(text, answers),
        "room" => {
            let tokens = [text, text];
            refusals(text, &mut Short::<1>::new(&tokens), answers);
            refusals(text, &mut Short::<255>::new(&tokens), answers);
            refusals(text, &mut Short::<256>::new(&tokens), answers)
        }
        "errors" => say!(
            answers, show "text": Nsec3SaltError, show "text": OwnerHashError,
            show "text": Nsec3SaltFromStrError::DecodeError(DecodeError::ShortInput),
            show "empty": Nsec3Salt::<Vec<u8>>::empty(answers.alloc),
            show_made "zone file": Nsec3Salt::<Vec<u8>>::empty(answers.alloc)
                .display_zonefile(answers.alloc, DisplayKind::Simple)
        ),
        _ => {
            let (first, second) = answers.two_parts(words)?;
            of_octets(form, first.as_slice(), second.as_slice(), answers)
        }
    }
}
