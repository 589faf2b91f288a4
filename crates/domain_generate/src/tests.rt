//! Entries `$GENERATE`, as tables: the lines of their values. What BIND's `named-compilezone` reads
//! from these entries is what it reads from these lines.
use crate::Generation;
use domain_zonefile::EntryReader;
use std::alloc::Global;
use std::process::Abort;
use std::test::Fail;

/// Returns the lines of an entry, or its fault with the number of its token.
fn shown(alloc: Global, entry: &[u8]) -> Result<String, Fail> {
    let mut shown = String::new(alloc);
    let mut reader = EntryReader::new(alloc, entry);
    let _found = reader.next_entry()?;
    let generation = match Generation::from_tokens(reader.tokens()) {
        Ok(generation) => generation,
        Err(e) => {
            let text = format!(in alloc; "{}: {:?}", e.token, e.kind)?;
            shown.push_str(text.as_str())?;
            return Ok(shown);
        }
    };
    let mut line = Vec::new(alloc);
    for index in 0..generation.count() {
        if let Some(value) = generation.value(index) {
            generation.write_line(value, &mut line)?;
            shown.push_str(str::from_utf8(line.as_slice()).unwrap_or("?\n"))?;
        }
    }
    Ok(shown)
}

/// Compares lines or faults with what is wanted.
fn compare(rt: &impl Abort, alloc: Global, rows: &[(&[u8], &str)]) -> Result<(), Fail> {
    for (entry, wanted) in rows {
        let found = shown(alloc, entry)?;
        assert_eq!(rt; found.as_str(), *wanted);
    }
    Ok(())
}

#[test]
fn values_and_fields(rt: HostRuntime) -> Result<(), Fail> {
    compare(
        &rt,
        rt.alloc(),
        &[
            (
                b"$GENERATE 1-3 a$ A 10.0.0.$",
                "a1 A 10.0.0.1\na2 A 10.0.0.2\na3 A 10.0.0.3\n",
            ),
            (
                b"$GENERATE 1-3/2 a$ A 10.0.0.$",
                "a1 A 10.0.0.1\na3 A 10.0.0.3\n",
            ),
            (b"$generate 3-3/5 a$ A 1.2.3.$", "a3 A 1.2.3.3\n"),
            (
                b"$GENERATE 01-02 a$ A 1.2.3.$",
                "a1 A 1.2.3.1\na2 A 1.2.3.2\n",
            ),
            (b"$GENERATE 1-2/2147483647 a TXT $", "a TXT 1\n"),
            (
                b"$GENERATE 2147483646-2147483647 a TXT $",
                "a TXT 2147483646\na TXT 2147483647\n",
            ),
            (b"$GENERATE 1-1 @ 5 TXT $", "@ 5 TXT 1\n"),
            (b"$GENERATE 1-1 a$ IN TXT $", "a1 CLASS1 TXT 1\n"),
            (b"$GENERATE 1-1 a$ 5m CH TXT $", "a1 300 CLASS3 TXT 1\n"),
            (b"$GENERATE 1-1 a$ CLASS1 1h5 TXT $", "6: ExtraArgument"),
            (b"$GENERATE 1-1 a$ CLASS1 5 TXT $", "a1 5 CLASS1 TXT 1\n"),
        ],
    )
}

#[test]
fn patterns(rt: HostRuntime) -> Result<(), Fail> {
    compare(
        &rt,
        rt.alloc(),
        &[
            (b"$GENERATE 1-1 $ORIGIN TXT x$$y", "1ORIGIN TXT x\\$y\n"),
            (b"$GENERATE 1-1 $$ORIGIN TXT a", "\\$ORIGIN TXT a\n"),
            (b"$GENERATE 1-1 a\\$$ TXT x\\$y", "a\\$1 TXT x\\$y\n"),
            (
                b"$GENERATE 1-1 a\\\\$ TXT x\\\\\\$",
                "a\\\\1 TXT x\\\\\\$\n",
            ),
            (b"$GENERATE 3-3 a{1} TXT x\\065$", "a{1} TXT x\\0653\n"),
            (b"$GENERATE 1-1 a$ TXT \"x$ y\"", "a1 TXT x1 y\n"),
            (b"$GENERATE 1-1 a TXT \"\\\"x$ y\\\"\"", "a TXT \"x1 y\"\n"),
            (b"$GENERATE 1-1 a TXT x\\\"$", "a TXT x\\\"1\n"),
            (b"$GENERATE 1-1 a TXT \"a\\\\$b\"", "a TXT a\\\\1b\n"),
            (b"$GENERATE 1-1 a MX \"10 m$\"", "a MX 10 m1\n"),
            (
                b"$GENERATE 1-1 a HTTPS \"1 . alpn=\\\"h$\\\"\"",
                "a HTTPS 1 . alpn=\"h1\"\n",
            ),
        ],
    )
}

#[test]
fn formats(rt: HostRuntime) -> Result<(), Fail> {
    compare(
        &rt,
        rt.alloc(),
        &[
            (b"$GENERATE 10-10 a TXT ${0,4,n}", "a TXT a.0.\n"),
            (b"$GENERATE 10-10 a TXT ${0,1,n}", "a TXT a\n"),
            (b"$GENERATE 10-10 a TXT ${0,2,n}", "a TXT a.\n"),
            (b"$GENERATE 10-10 a TXT ${0,3,n}", "a TXT a.0\n"),
            (b"$GENERATE 10-10 a TXT ${0,6,N}", "a TXT A.0.0.\n"),
            (b"$GENERATE 0-0 a TXT ${0,0,n}", "a TXT 0\n"),
            (b"$GENERATE 300-300 a TXT ${0,0,n}", "a TXT c.2.1\n"),
            (b"$GENERATE 300-300 a TXT ${0,5,n}", "a TXT c.2.1\n"),
            (b"$GENERATE 300-300 a TXT ${0,6,n}", "a TXT c.2.1.\n"),
            (b"$GENERATE 300-300 a TXT ${0,7,n}", "a TXT c.2.1.0\n"),
            (b"$GENERATE 300-300 a TXT ${0,4,x}", "a TXT 012c\n"),
            (b"$GENERATE 171-171 a TXT ${0,4,X}", "a TXT 00AB\n"),
            (b"$GENERATE 300-300 a TXT ${0,4,o}", "a TXT 0454\n"),
            (b"$GENERATE 300-300 a TXT ${-5,4}", "a TXT 0295\n"),
            (b"$GENERATE 300-300 a TXT ${-5}", "a TXT 295\n"),
            (b"$GENERATE 300-300 a TXT ${+5,2,d}}", "a TXT 305}\n"),
            (b"$GENERATE 3-3 a TXT ${01,002}", "a TXT 04\n"),
            (b"$GENERATE 3-3 a TXT ${-0,2,d}", "a TXT 03\n"),
            (b"$GENERATE 3-3 a TXT ${2147483644}", "a TXT 2147483647\n"),
            (b"$GENERATE 1-1 a${1} TXT ${2}", "a2 TXT 3\n"),
        ],
    )
}

#[test]
fn faults(rt: HostRuntime) -> Result<(), Fail> {
    compare(
        &rt,
        rt.alloc(),
        &[
            (b"$GENERATE", "1: MissingArgument"),
            (b"$GENERATE 1-1", "2: MissingArgument"),
            (b"$GENERATE 1-1 a$", "3: MissingArgument"),
            (b"$GENERATE 1-1 a$ 5 IN TXT", "6: MissingArgument"),
            (b"$GENERATE 1-1 a$ TXT $ b", "5: ExtraArgument"),
            (b"$GENERATE 1-1 \"a$\" TXT $", "2: QuotedArgument"),
            (b"$GENERATE 1-1 a$ \"TXT\" $", "3: QuotedArgument"),
            (b"$GENERATE \"1-1\" a$ TXT $", "1: QuotedArgument"),
            (b"$GENERATE 3-1 a$ TXT $", "1: NotRange"),
            (b"$GENERATE 3-3/0 a$ TXT $", "1: NotRange"),
            (b"$GENERATE 3 a$ TXT $", "1: NotRange"),
            (b"$GENERATE 3- a$ TXT $", "1: NotRange"),
            (b"$GENERATE -3 a$ TXT $", "1: NotRange"),
            (b"$GENERATE 1-3/ a$ TXT $", "1: NotRange"),
            (b"$GENERATE 1--3 a$ TXT $", "1: NotRange"),
            (b"$GENERATE 1-2147483648 a$ TXT $", "1: NotRange"),
            (b"$GENERATE 1-2/2147483648 a$ TXT $", "1: NotRange"),
            (b"$GENERATE 0-65536 a TXT $", "1: ManyValues"),
            (b"$GENERATE 1-1 a$ 4294967296 TXT $", "3: LargeTtl"),
            (b"$GENERATE 3-3 a$ TXT ${}", "4: NotFormat"),
            (b"$GENERATE 3-3 a$ TXT ${,4}", "4: NotFormat"),
            (b"$GENERATE 3-3 a$ TXT ${1y", "4: NotFormat"),
            (b"$GENERATE 3-3 a$ TXT ${1,}", "4: NotFormat"),
            (b"$GENERATE 3-3 a${1,2,} TXT x", "2: NotFormat"),
            (b"$GENERATE 3-3 a$ TXT ${1,2,q}", "4: NotFormat"),
            (b"$GENERATE 3-3 a$ TXT ${1,2,dd}", "4: NotFormat"),
            (b"$GENERATE 3-3 a$ TXT ${1,-2,d}", "4: NotFormat"),
            (b"$GENERATE 3-3 a$ TXT ${1,128,d}", "4: NotFormat"),
            (b"$GENERATE 3-3 a$ TXT ${--1}", "4: NotFormat"),
            (b"$GENERATE 3-9 a$ TXT ${-4}", "4: NegativeNumber"),
            (b"$GENERATE 1-3 a$ TXT ${2147483645}", "4: LargeNumber"),
        ],
    )
}
