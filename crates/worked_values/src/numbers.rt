//! Numbers, types, classes and algorithms as constants and as tokens, and serial numbers
//! (RFC 1982).
use super::*;

/// Adds the number of each constant of a type.
macro_rules! show_numbers {
    ($answers:ident, $type:ident: $($name:ident)*) => {
        for (name, constant) in &[$((stringify!($name), $type::$name)),*] {
            $answers.show(name, &constant.to_int());
        }
    };
}

/// Answers a vector on constants with the number of each that has a name.
pub fn constants(form: &str, answers: &mut Answers) -> Answered {
    match form {
        "types" => show_numbers!(
            answers, Rtype: A NS CNAME SOA PTR HINFO MX TXT AAAA SRV NAPTR DNAME DS SSHFP RRSIG
            NSEC DNSKEY NSEC3 NSEC3PARAM TLSA CDS CDNSKEY CSYNC ZONEMD SVCB HTTPS SPF CAA
        ),
        "classes" => show_numbers!(answers, Class: IN CH HS),
        _ => {
            show_numbers!(
                answers, SecurityAlgorithm: RSAMD5 RSASHA1 RSASHA256 RSASHA512 ECDSAP256SHA256
                ECDSAP384SHA384 ED25519 ED448
            );
            show_numbers!(answers, DigestAlgorithm: SHA1 SHA256 SHA384);
            show_numbers!(answers, Nsec3HashAlgorithm: SHA1);
        }
    }
    Some(())
}

/// Adds the number of each type or class given by name, and the name of each given by number.
fn named(form: &str, words: &[&str], answers: &mut Answers) -> Answered {
    for word in words {
        match (form, word.parse::<u16>()) {
            ("types", Ok(number)) => answers.show(word, &Rtype::from_int(number)),
            ("types", _) => {
                answers.show(word, &given!(answers, Rtype::from_token(word)).to_int())
            }
            (_, Ok(number)) => answers.show(word, &Class::from_int(number)),
            _ => answers.show(word, &given!(answers, Class::from_token(word)).to_int()),
        };
    }
    Some(())
}

/// Adds the octets that one token, and all tokens, encode in an alphabet. Also adds the errors of
/// decoding them into two octets.
fn convert(words: &[&str], answers: &mut Answers) -> Answered {
    let (alloc, (_, codec)) = (answers.alloc, split_codec(word(words, 0)));
    let tokens = words.get(1..).unwrap_or_default();
    let mut scanner = Tokens::new(tokens);
    say!(
        answers, debug "token": scanner.convert_token(alloc, codec),
        debug "next": scanner.first_token(),
        debug "entry": Tokens::new(tokens).convert_entry(alloc, codec),
        fault "token into ArrayBuilder<2>": Short::<2>::new(tokens).convert_token(alloc, codec),
        fault "entry into ArrayBuilder<2>": Short::<2>::new(tokens).convert_entry(alloc, codec)
    )
}

/// Adds what a scanner has after the first token, and the builder that it makes.
fn skip(words: &[&str], answers: &mut Answers) -> Answered {
    let mut scanner = Tokens::new(words);
    scanner.skip_token();
    say!(
        answers, debug "next": scanner.first_token(),
        octets "builder": scanner.octets_builder(answers.alloc)
    )
}

/// Reads a text as a number. Adds the TTLs of that number of seconds, minutes and hours, each in
/// seconds, and the algorithm of that number.
fn counted(text: &str, answers: &mut Answers) -> Answered {
    let count = text.parse::<u8>().unwrap_or(0);
    let wide = u16::from(count);
    say!(
        answers, show "seconds": Ttl::from_secs(u32::from(count)).as_secs(),
        show "minutes": Ttl::from_mins(wide).as_secs(),
        show "hours": Ttl::from_hours(wide).as_secs(),
        show "algorithm": SecurityAlgorithm::from_int(count)
    )
}

/// Adds the value of the first token, as the function for the form reads it.
macro_rules! scan {
    ($form:ident, $scanner:ident, $answers:ident: $($name:pat => $scan:expr),*) => {
        match $form {
            $($name => $answers.show_made("value", &$scan(&mut $scanner)),)*
        };
    };
}

/// Adds the value that the first token spells, read by the `scan` of `FromToken`.
fn scan(form: &str, tokens: &[&str], answers: &mut Answers) -> Answered {
    let mut scanner = Tokens::new(tokens);
    scan!(
        form, scanner, answers: "u8" => u8::scan, "u16" => u16::scan, "u32" => u32::scan,
        "rtype" => <Rtype as FromToken>::scan, "class" => <Class as FromToken>::scan,
        "ttl" => <Ttl as FromToken>::scan, "algorithm" => <SecurityAlgorithm as FromToken>::scan,
        "digest" => <DigestAlgorithm as FromToken>::scan,
        _ => <Nsec3HashAlgorithm as FromToken>::scan
    );
    answers.debug("next", &scanner.first_token())
}

/// Answers a vector on a value that one token spells, read by the value's own `scan`.
pub fn scanned(form: &str, tokens: &[&str], answers: &mut Answers) -> Answered {
    let mut scanner = Tokens::new(tokens);
    scan!(
        form, scanner, answers: "type" => Rtype::scan, "class" => Class::scan, "ttl" => Ttl::scan,
        "key-algorithm" => SecurityAlgorithm::scan, "digest-algorithm" => DigestAlgorithm::scan,
        _ => Nsec3HashAlgorithm::scan
    );
    answers.debug("continues", &scanner.continues())
}

/// Adds the serial number that a text spells, in its printed form and as octets.
fn serial(text: &str, answers: &mut Answers) -> Answered {
    let serial = given!(answers, Serial::from_str(text));
    answers.show("text", &serial);
    say_composed!(answers, serial, Serial, 1)
}

/// Answers a vector on values of tokens, on tokens as octets, or on serial numbers.
pub fn answer(form: &str, words: &[&str], answers: &mut Answers) -> Answered {
    let first = word(words, 0);
    match form {
        "types" | "classes" => named(form, words, answers),
        "serial" => serial(first, answers),
        "convert" => convert(words, answers),
        "skip" => skip(words, answers),
        "counted" => counted(first, answers),
        "measure" => {
            let mut scanner = Tokens::new(words);
            say!(
                answers, debug "continues": scanner.continues(),
                debug "length": scanner.scan_ascii_str(str::len),
                debug "continues": scanner.continues()
            )
        }
        _ => scan(form, words, answers),
    }
}
