//! The meaning of entries, as tables. Each row has a file and what is read from it with the origin
//! `example.`: a line for each record, with its owner, class, TTL, type and data in Base 16, and a
//! line for each directive and each fault. What BIND's `named-compilezone` reads from these files
//! is the same, but for the faults.
use crate::{EntryFault, EntryReader, Found, Line, RecordFields, ZoneState};
use domain_base::{Name, ParsedName, ToName};
use domain_octets::SmallOctets;
use std::alloc::Global;
use std::fmt::Write;
use std::process::Abort;
use std::test::Fail;

/// Appends a record: its owner, its numbers and its data.
fn show_record(
    shown: &mut String,
    state: &ZoneState,
    fields: RecordFields,
    data: &[u8],
) -> Result<(), Fail> {
    if let Some(owner) = state.owner() {
        write!(shown, "{owner} ")?;
    }
    write!(
        shown,
        "{} {} {} ",
        fields.class,
        fields.ttl,
        fields.rtype.to_int()
    )?;
    for octet in data {
        write!(shown, "{octet:02x}")?;
    }
    Ok(shown.push_str("\n")?)
}

/// Appends what an entry is.
fn show_line(
    shown: &mut String,
    state: &ZoneState,
    line: Result<Line, EntryFault>,
    data: &[u8],
) -> Result<(), Fail> {
    match line {
        Ok(Line::Record(fields)) => show_record(shown, state, fields, data),
        Ok(Line::Origin) => Ok(write!(shown, "origin {}\n", state.origin())?),
        Ok(Line::DefaultTtl) => Ok(shown.push_str("ttl\n")?),
        Ok(Line::Include(origin)) => Ok(write!(shown, "include {origin}\n")?),
        Ok(Line::Generate) => Ok(shown.push_str("generate\n")?),
        Err(fault) => Ok(write!(shown, "{}: {:?}\n", fault.token, fault.kind)?),
    }
}

/// Returns what is read from a file.
fn shown(alloc: Global, file: &[u8]) -> Result<String, Fail> {
    let mut shown = String::new(alloc);
    let mut reader = EntryReader::new(alloc, file);
    let origin: Name<SmallOctets> = Name::from_str(alloc, "example.")?;
    let mut state = ZoneState::new(alloc, &origin.as_parsed())?;
    for _ in 0..=file.len() {
        let Some(Found::Entry(is_indented)) = reader.next_entry()? else {
            break;
        };
        let mut data = Vec::new(alloc);
        let line = state.read_line(alloc, is_indented, reader.tokens(), &mut data);
        show_line(&mut shown, &state, line, data.as_slice())?;
    }
    Ok(shown)
}

/// Compares what is read with what is wanted.
fn compare(rt: &impl Abort, alloc: Global, rows: &[(&[u8], &str)]) -> Result<(), Fail> {
    for (file, wanted) in rows {
        let found = shown(alloc, file)?;
        assert_eq!(rt; found.as_str(), *wanted);
    }
    Ok(())
}

#[test]
fn owners(rt: HostRuntime) -> Result<(), Fail> {
    compare(
        &rt,
        rt.alloc(),
        &[
            (
                b"a 60 IN A 192.0.2.1\n  A 192.0.2.2\n@ A 192.0.2.3\nb.c. A 192.0.2.4\n",
                "a.example 1 60 1 c0000201\na.example 1 60 1 c0000202\nexample 1 60 1 c0000203\n\
                 b.c 1 60 1 c0000204\n",
            ),
            (b" 60 A 192.0.2.1\n", "0: NoOwner\n"),
            (
                b"a..b 60 A 192.0.2.1\n\"a\" 60 A 192.0.2.1\n",
                "0: NotName\n0: NotName\n",
            ),
            (
                b"( a ) 60 ( A\n192.0.2.1 )\n",
                "a.example 1 60 1 c0000201\n",
            ),
        ],
    )
}

#[test]
fn defaults(rt: HostRuntime) -> Result<(), Fail> {
    compare(
        &rt,
        rt.alloc(),
        &[
            (b"a A 192.0.2.1\n", "1: NoTtl\n"),
            (
                b"$TTL 1h\na A 192.0.2.1\nb 5 A 192.0.2.1\nc A 192.0.2.1\n",
                "ttl\na.example 1 3600 1 c0000201\nb.example 1 5 1 c0000201\n\
                 c.example 1 3600 1 c0000201\n",
            ),
            (
                b"a 7 CH TXT x\nb TXT y\nc 8 IN TXT z\n d TXT\nd TXT z\n",
                "a.example 3 7 16 0178\nb.example 3 7 16 0179\nc.example 1 8 16 017a\n\
                 0: NotType\nd.example 1 8 16 017a\n",
            ),
            (
                b"@ SOA . . 1 2 3 4 5\na A 192.0.2.1\nb 9 A 192.0.2.1\nc A 192.0.2.1\n",
                "example 1 5 6 00000000000100000002000000030000000400000005\n\
                 a.example 1 5 1 c0000201\nb.example 1 9 1 c0000201\nc.example 1 5 1 c0000201\n",
            ),
            (
                b"a 2147483648 A 192.0.2.1\nb 2147483647 A 192.0.2.1\nc 4294967296 A 192.0.2.1\n",
                "a.example 1 0 1 c0000201\nb.example 1 2147483647 1 c0000201\n1: LargeTtl\n",
            ),
            (b"a IN 60 A 192.0.2.1\n", "a.example 1 60 1 c0000201\n"),
        ],
    )
}

#[test]
fn types(rt: HostRuntime) -> Result<(), Fail> {
    compare(
        &rt,
        rt.alloc(),
        &[
            (b"a 60 IN\n", "3: NoType\n"),
            (b"a 60 IN X 1\na 60 \"A\" 1\n", "3: NotType\n2: NotType\n"),
            (
                b"a 60 OPT\na 60 ANY\na 60 TYPE0\na 60 TYPE128\na 60 TYPE256 \\# 0\n",
                "2: NoRecords\n2: NoRecords\n2: NoRecords\n2: NoRecords\n4: Data(NotData)\n",
            ),
            (
                b"a 60 A\na 60 A 1.2.3\n",
                "3: Data(Missing)\n3: Data(NotField(Ipv4))\n",
            ),
            (b"a 60 TYPE65280 \\# 1 ff\n", "a.example 1 60 65280 ff\n"),
        ],
    )
}

#[test]
fn directives(rt: HostRuntime) -> Result<(), Fail> {
    compare(
        &rt,
        rt.alloc(),
        &[
            (
                b"$origin sub\na 60 NS b\n$ORIGIN x.y.\n NS b\n@ NS b\n",
                "origin sub.example\na.sub.example 1 60 2 016203737562076578616d706c6500\n\
                 origin x.y\na.sub.example 1 60 2 01620178017900\n\
                 x.y 1 60 2 01620178017900\n",
            ),
            (
                b"$ORIGIN\n$ORIGIN a b\n$ORIGIN a..b\n",
                "1: MissingArgument\n2: ExtraArgument\n1: NotName\n",
            ),
            (
                b"$TTL\n$TTL 1 2\n$TTL x\n$TTL 4294967296\n$TTL \"1\"\n",
                "1: MissingArgument\n2: ExtraArgument\n1: NotTtl\n1: LargeTtl\n1: NotTtl\n",
            ),
            (
                b"$INCLUDE\n$INCLUDE f\n$include \"f g\" sub\n$INCLUDE f a..b\n$INCLUDE f a b\n",
                "1: MissingArgument\ninclude example\ninclude sub.example\n2: NotName\n\
                 3: ExtraArgument\n",
            ),
            (
                b"$GENERATE 1-2 a A 192.0.2.$\n$X\n",
                "generate\n0: UnknownDirective\n",
            ),
            (
                b" $TTL 5\n\\$TTL 5 A 192.0.2.1\n\"$TTL\" 5\n",
                "0: NoOwner\n\\$TTL.example 1 5 1 c0000201\n0: NotName\n",
            ),
        ],
    )
}
