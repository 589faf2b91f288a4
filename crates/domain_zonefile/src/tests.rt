//! The rules of tokens, as tables. Each row has a file and what is read from it: a line for each
//! entry, with a bar after each token, and a line for each fault, with its place.
use crate::{
    EntryReader, Found, LargeTtl, Place, Prefix, SyntaxError, TtlText, read_class, read_prefix,
    read_ttl,
};
use std::alloc::Global;
use std::process::Abort;
use std::test::Fail;

/// Appends the tokens of an entry. Quoted ones are in quotes.
fn show_tokens(shown: &mut String, reader: &EntryReader) -> Result<(), Fail> {
    for token in reader.tokens() {
        let mark = if token.is_quoted { "'" } else { "" };
        shown.push_str(mark)?;
        shown.push_str(str::from_utf8(token.octets).unwrap_or("?"))?;
        shown.push_str(mark)?;
        shown.push_str("|")?;
    }
    shown.push_str("\n")?;
    Ok(())
}

/// Appends a fault: its line, its column and its name.
fn show_fault(
    alloc: Global,
    shown: &mut String,
    place: Place,
    error: SyntaxError,
) -> Result<(), Fail> {
    let line = format!(in alloc; "{}:{} {error:?}\n", place.line, place.column)?;
    shown.push_str(line.as_str())?;
    Ok(())
}

/// Appends what was read.
fn show(
    alloc: Global,
    shown: &mut String,
    reader: &mut EntryReader,
    found: Found,
) -> Result<(), Fail> {
    match found {
        Found::Entry(is_indented) => {
            shown.push_str(if is_indented { "_" } else { "" })?;
            show_tokens(shown, reader)
        }
        Found::Fault(fault) => show_fault(alloc, shown, reader.place_of(fault.at), fault.error),
    }
}

/// Returns what is read from a file.
fn shown(alloc: Global, file: &[u8]) -> Result<String, Fail> {
    let mut shown = String::new(alloc);
    let mut reader = EntryReader::new(alloc, file);
    for _ in 0..=file.len() {
        let Some(found) = reader.next_entry()? else {
            break;
        };
        show(alloc, &mut shown, &mut reader, found)?;
    }
    Ok(shown)
}

/// Compares what is read with what is wanted.
fn compare(rt: &impl Abort, alloc: Global, rows: &[(&[u8], &str)]) -> Result<(), Fail> {
    for (file, wanted) in rows {
        let found = shown(alloc, file)?;
        assert_eq!(rt; found.as_str(), *wanted);
    }
    Ok(())
}

#[test]
fn comments_and_brackets(rt: HostRuntime) -> Result<(), Fail> {
    compare(
        &rt,
        rt.alloc(),
        &[
            (b"", ""),
            (b"\n \n\t;\n;x\n()\n( )", ""),
            (b"a b;c d\ne", "a|b|\ne|\n"),
            (b"a (b\n\tc ; ) \"\n d) e\nf", "a|b|c|d|e|\nf|\n"),
            (b"a(b)c((d)\n)e\n", "a|b|c|d|e|\n"),
            (b"a \"b(\" ; )\n", "a|'b('|\n"),
            (b"a )\nb", "1:3 StrayBracket\nb|\n"),
            (b"a (b\nc (\nd )\ne", "1:3 UnclosedBracket\nc|d|\ne|\n"),
            (b"a ( b ( c ) d", "1:3 UnclosedBracket\n"),
            (b"(\n(\nb c\n", "2:1 UnclosedBracket\nb|c|\n"),
            (b"( ) )\n", "1:5 StrayBracket\n"),
        ],
    )
}

#[test]
fn quotes(rt: HostRuntime) -> Result<(), Fail> {
    compare(
        &rt,
        rt.alloc(),
        &[
            (b"a \"\" \"b c\"\"d\"e", "a|''|'b c'|'d'|e|\n"),
            (b"a \"b\\\"c;d)\"", "a|'b\\\"c;d)'|\n"),
            (b"a \"b\nc\" d\n", "1:3 UnclosedQuote\n2:2 MisplacedQuote\n"),
            (b"a \"b", "1:3 UnclosedQuote\n"),
            (b"a ( \"b\nc )\nd", "1:5 UnclosedQuote\nd|\n"),
            (b"a b\"c d\"\ne", "1:4 MisplacedQuote\ne|\n"),
            (b"a k=\"v w\" b", "a|k=\"v w\"|b|\n"),
            (b"a k=\"v\"w\n", "1:8 NoSeparator\n"),
            (b"a k=\"v\";w\n", "a|k=\"v\"|\n"),
            (b"a k=l=\"v\"\n", "1:7 MisplacedQuote\n"),
            (b"a k\\=\"v\"\n", "1:6 MisplacedQuote\n"),
            (b"a k=\"v\n", "1:5 UnclosedQuote\n"),
            (b"a =\"v\" k=v\n", "a|=\"v\"|k=v|\n"),
        ],
    )
}

#[test]
fn escapes(rt: HostRuntime) -> Result<(), Fail> {
    compare(
        &rt,
        rt.alloc(),
        &[
            (
                b"\\000\\255 \\;\\(\\\" \\ x \"\\255\\a\"",
                "\\000\\255|\\;\\(\\\"|\\ x|'\\255\\a'|\n",
            ),
            (b"a\\256\nb", "1:2 BadEscape\nb|\n"),
            (b"a \\12\n", "1:3 BadEscape\n"),
            (b"a \\12x \"\n", "1:3 BadEscape\n"),
            (b"a \\", "1:3 BadEscape\n"),
            (b"a b\\\nc", "1:4 BadEscape\nc|\n"),
            (b"a b\\\r\nc", "1:4 BadEscape\nc|\n"),
            (b"a b\\\0c\nd", "1:4 BadEscape\nd|\n"),
            (b"a ( \"b\\999 \" \n )\nd", "1:7 BadEscape\nd|\n"),
            (b"a \"\\\n\"", "1:4 BadEscape\n2:1 UnclosedQuote\n"),
        ],
    )
}

#[test]
fn returns_and_marks(rt: HostRuntime) -> Result<(), Fail> {
    compare(
        &rt,
        rt.alloc(),
        &[
            (b"a\r\nb\r\r\n\r\nc\r", "a|\nb|\nc|\n"),
            (b"a (\r\n b\r\n)\r\n", "a|b|\n"),
            (b"a\rb\nc", "1:2 StrayReturn\nc|\n"),
            (b"a \r\rb\nc", "1:3 StrayReturn\nc|\n"),
            (b"a \"b\rc\" ;\rd\n", "a|'b\rc'|\n"),
            (b"a b\0c\nd", "1:4 Nul\nd|\n"),
            (b"a \"b\0c\" )\nd", "1:5 Nul\nd|\n"),
            (b"a ;\0\nd", "a|\nd|\n"),
            (b"\xef\xbb\xbfa b", "a|b|\n"),
            (b"\xef\xbb\xbf )", "1:2 StrayBracket\n"),
            (b"a\x01\x7f\xc3\xa9 b", "a\x01\x7f\u{e9}|b|\n"),
        ],
    )
}

#[test]
fn indented(rt: HostRuntime) -> Result<(), Fail> {
    compare(
        &rt,
        rt.alloc(),
        &[
            (b" a\n\tb\n( c\n d)\n ( e )", "_a|\n_b|\nc|d|\n_e|\n"),
            (b"(\n a)", "a|\n"),
            (b"\n \n (;x\nb)\n", "_b|\n"),
        ],
    )
}

#[test]
fn places(rt: HostRuntime) -> Result<(), Fail> {
    let mut reader = EntryReader::new(rt.alloc(), b"a (b\n \"c\" )\n");
    assert_eq!(rt; reader.next_entry()?, Some(Found::Entry(false)));
    assert_eq!(rt; reader.places(), [0, 3, 6].as_slice());
    let place = reader.place_of(6);
    assert_eq!(rt; (place.line, place.column), (2, 2));
    let place = reader.place_of(3);
    assert_eq!(rt; (place.line, place.column), (1, 4));
    let place = reader.place_of(99);
    assert_eq!(rt; (place.line, place.column), (3, 1));
    assert_eq!(rt; reader.next_entry()?, None);
    assert_eq!(rt; reader.tokens().len(), 0);
    assert_eq!(rt; reader.file().len(), 12);
    assert_eq!(rt; crate::has_mark(b"\xef\xbb\xbf"), true);
    Ok(())
}

#[test]
fn ttls(rt: HostRuntime) {
    let rows: [(&[u8], TtlText); 13] = [
        (b"0", TtlText::Seconds(0)),
        (b"3600", TtlText::Seconds(3600)),
        (b"1h30m", TtlText::Seconds(5400)),
        (b"1W2D3h4M5s", TtlText::Seconds(788_645)),
        (b"30m1h", TtlText::Seconds(5400)),
        (b"4294967295", TtlText::Seconds(u32::MAX)),
        (b"4294967296", TtlText::TooLarge),
        (b"99999999999999999999w1s", TtlText::TooLarge),
        (b"1h30", TtlText::NoTtl),
        (b"h", TtlText::NoTtl),
        (b"", TtlText::NoTtl),
        (b"1h-", TtlText::NoTtl),
        (b"IN", TtlText::NoTtl),
    ];
    for (text, wanted) in rows {
        assert_eq!(rt; read_ttl(text), wanted);
    }
}

#[test]
fn classes(rt: HostRuntime) {
    let rows: [(&[u8], Option<u16>); 12] = [
        (b"in", Some(1)),
        (b"CH", Some(3)),
        (b"Chaos", Some(3)),
        (b"HS", Some(4)),
        (b"HESIOD", Some(4)),
        (b"CLASS1", Some(1)),
        (b"class65535", Some(65535)),
        (b"CLASS0", None),
        (b"CLASS65536", None),
        (b"CLASS", None),
        (b"CLASSx", None),
        (b"ANY", None),
    ];
    for (text, wanted) in rows {
        assert_eq!(rt; read_class(text), wanted);
    }
}

/// Returns a prefix of these fields.
fn prefix(ttl: Option<u32>, class: Option<u16>, count: usize) -> Result<Prefix, LargeTtl> {
    Ok(Prefix { ttl, class, count })
}

#[test]
fn prefixes(rt: HostRuntime) -> Result<(), Fail> {
    let rows: [(&[u8], Result<Prefix, LargeTtl>); 8] = [
        (b"1h IN A x", prefix(Some(3600), Some(1), 2)),
        (b"CH 60 A x", prefix(Some(60), Some(3), 2)),
        (b"60 A x", prefix(Some(60), None, 1)),
        (b"IN A x", prefix(None, Some(1), 1)),
        (b"A 60 IN", prefix(None, None, 0)),
        (b"\"60\" IN A", prefix(None, None, 0)),
        (b"4294967296 IN A", Err(LargeTtl { token: 0 })),
        (b"IN 8000w A", Err(LargeTtl { token: 1 })),
    ];
    for (file, wanted) in rows {
        let mut reader = EntryReader::new(rt.alloc(), file);
        let found = reader.next_entry()?;
        assert_eq!(rt; found, Some(Found::Entry(false)));
        assert_eq!(rt; read_prefix(reader.tokens()), wanted);
    }
    Ok(())
}
