//! Zone files with included files, as tables. What BIND's `named-compilezone` reads from these
//! files is the same. It has paths of its own: they are relative to the working directory.
ghost use Rattle.std.specs.Prelude.{Option};

use crate::{FileSource, FilesFault, RecordSink, SourceError, read_files};
use domain_base::{Name, ParsedName, ToName};
use domain_octets::{OutOfMemory, SmallOctets};
use domain_zonefile::{Place, RecordFields};
use std::alloc::Global;
use std::fmt::Write;
use std::process::Abort;
use std::test::Fail;

/// Files in memory: paths and octets.
#[derive(Drop)]
struct Memory<'a> {
    files: &'a [(&'a [u8], &'a [u8])],
}

impl FileSource for Memory<'_> {
    ghost gives = { λ files path content. Unit {0} };

    fn read(&self, alloc: Global, path: &[u8]) -> Result<Vec<u8>, SourceError> {
        for (name, octets) in self.files {
            if *name == path {
                let mut file = Vec::new(alloc);
                return match file.extend_from_slice(octets) {
                    Ok(()) => Ok(file),
                    Err(_) => Err(SourceError::OutOfMemory),
                };
            }
        }
        Err(SourceError::Unreadable)
    }
}

/// Records as text: a line for each, with its file and line, its owner, TTL, class, type, and its
/// data in Base 16.
#[derive(Drop)]
struct Listed {
    text: String,
}

impl RecordSink for Listed {
    ghost takes = { λ old taken new. Unit {0} };

    fn take(
        &mut self,
        path: &[u8],
        place: Place,
        owner: &ParsedName<'_>,
        fields: RecordFields,
        octets: &[u8],
    ) -> Result<(), OutOfMemory> {
        let rtype = fields.rtype.to_int();
        for octet in path {
            self.text.push(char::from(*octet))?;
        }
        write!(self.text, ":{} ", place.line)?;
        write!(
            self.text,
            "{owner} {} {} {rtype} ",
            fields.ttl, fields.class
        )?;
        for octet in octets {
            write!(self.text, "{octet:02x}")?;
        }
        Ok(self.text.push_str("\n")?)
    }
}

/// Returns what is read from a file, and then its fault.
fn shown(alloc: Global, file: &[u8], files: &[(&[u8], &[u8])]) -> Result<String, Fail> {
    let origin: Name<SmallOctets> = Name::from_str(alloc, "example.")?;
    let mut shown = Listed {
        text: String::new(alloc),
    };
    let files = Memory { files };
    match read_files(alloc, &files, b"", file, &origin.as_parsed(), &mut shown) {
        Ok(()) => {}
        Err(FilesFault::File(fault)) => write!(shown.text, "{fault}")?,
        Err(FilesFault::OutOfMemory) => write!(shown.text, "out of memory")?,
    }
    Ok(shown.text)
}

/// Compares what is read with what is wanted.
fn compare(
    rt: &impl Abort,
    alloc: Global,
    rows: &[(&[u8], &str)],
    files: &[(&[u8], &[u8])],
) -> Result<(), Fail> {
    for (file, wanted) in rows {
        let found = shown(alloc, file, files)?;
        assert_eq!(rt; found.as_str(), *wanted);
    }
    Ok(())
}

#[test]
fn included_records(rt: HostRuntime) -> Result<(), Fail> {
    compare(
        &rt,
        rt.alloc(),
        &[
            (
                b"$TTL 1h\nns A 192.0.2.1\n$INCLUDE sub/one.inc one\n \
                  TXT \"back\"\nafter A 192.0.2.8\n",
                ":2 ns.example 3600 1 1 c0000201\n\
                 sub/one.inc:1 ns.example 3600 1 28 00000000000000000000000000000002\n\
                 sub/one.inc:2 www.one.example 60 1 1 c0000203\n\
                 sub/two.inc:1 www.one.example 7200 1 28 00000000000000000000000000000007\n\
                 sub/two.inc:2 two.deep.one.example 7200 1 1 c0000204\n\
                 sub/one.inc:6 deep.one.example 10800 1 1 c0000205\n\
                 sub/one.inc:7 deep.one.example 10800 1 28 00000000000000000000000000000006\n\
                 :4 ns.example 10800 1 16 046261636b\n\
                 :5 after.example 10800 1 1 c0000208\n",
            ),
            (
                b"a 9 A 192.0.2.3\n$INCLUDE last.inc\nns A 192.0.2.1\n",
                ":1 a.example 9 1 1 c0000203\nlast.inc:1 x.example 77 1 1 c0000202\n\
                 :3 ns.example 77 1 1 c0000201\n",
            ),
        ],
        &[
            (
                b"sub/one.inc",
                b" AAAA ::2\nwww 60 A 192.0.2.3\n$TTL 2h\n$ORIGIN deep\n\
                  $include \"two.inc\" ; comment\n@ A 192.0.2.5\n AAAA ::6\n",
            ),
            (
                b"sub/two.inc",
                b"  AAAA ::7\ntwo A 192.0.2.4\n$TTL 3h\n$ORIGIN x.\n",
            ),
            (b"last.inc", b"x 77 A 192.0.2.2"),
        ],
    )
}

#[test]
fn faults(rt: HostRuntime) -> Result<(), Fail> {
    compare(
        &rt,
        rt.alloc(),
        &[
            (b"$INCLUDE none", "1:10: cannot read none"),
            (b"\n$INCLUDE a/1\n", "a/1:2:10: cannot read a/2"),
            (b"$INCLUDE /b/1 . ; x", "/b/1:1:3: bracket is never closed"),
            (
                b"$INCLUDE c",
                "d:1 x.example 1 1 1 c0000201\nd:2:3: not a type",
            ),
            (b"$INCLUDE", "1:1: an argument is missing"),
            (
                b"$INCLUDE e",
                "e:1:10: more than 10 files within each other",
            ),
        ],
        &[
            (b"a/1", b"\n$INCLUDE 2"),
            (b"/b/1", b"x (A 192.0.2.1"),
            (b"c", b"$INCLUDE d"),
            (b"d", b"x 1 A 192.0.2.1\ny B"),
            (b"e", b"$INCLUDE e"),
        ],
    )
}

#[test]
fn generated_records(rt: HostRuntime) -> Result<(), Fail> {
    compare(
        &rt,
        rt.alloc(),
        &[
            (
                b"a 9 A 192.0.2.9\n$GENERATE 1-3/2 h$ 60 A 192.0.2.$\n TXT \"back\"\n",
                ":1 a.example 9 1 1 c0000209\n:2 h1.example 60 1 1 c0000201\n\
                 :2 h3.example 60 1 1 c0000203\n:3 a.example 60 1 16 046261636b\n",
            ),
            (
                b"$TTL 2h\n$ORIGIN x\n\
                  $GENERATE 5-6 ${0,3}.${1,1,n} PTR p${-5,2,x}.example.\n",
                ":3 005.6.x.example 7200 1 12 03703030076578616d706c6500\n\
                 :3 006.7.x.example 7200 1 12 03703031076578616d706c6500\n",
            ),
            (
                b"$GENERATE 8-8 m$ 60 MX \"$ m${1,3,o}\"",
                ":1 m8.example 60 1 15 0008046d303131076578616d706c6500\n",
            ),
            (
                b"$GENERATE 7-7 t$$$ 60 TXT \"\\\"x $$ y\\\" \\$$\"",
                ":1 t\\$7.example 60 1 16 057820242079022437\n",
            ),
            (
                b"$generate 1-1 $$ORIGIN 5 A 192.0.2.$",
                ":1 \\$ORIGIN.example 5 1 1 c0000201\n",
            ),
            (
                b"$TTL 2h\n$GENERATE 1-1 @ AAAA 2001:db8::${0,4,x}\n\
                  $GENERATE 1-1 u$ 5 AAAA 2001:db8::${0,4,x}\nb TXT z",
                ":2 example 7200 1 28 20010db8000000000000000000000001\n\
                 :3 u1.example 5 1 28 20010db8000000000000000000000001\n\
                 :4 b.example 7200 1 16 017a\n",
            ),
            (
                b"$GENERATE 1-2 b$ 5 TXT \"( $ ) ; comment\"",
                ":1 b1.example 5 1 16 0131\n:1 b2.example 5 1 16 0132\n",
            ),
        ],
        &[],
    )
}

#[test]
fn faults_of_generated_records(rt: HostRuntime) -> Result<(), Fail> {
    compare(
        &rt,
        rt.alloc(),
        &[
            (
                b"$GENERATE 1-2/0 h$ A 192.0.2.$",
                "1:11: not a range: expected START-STOP or START-STOP/STEP",
            ),
            (
                b"$GENERATE 1-2 h$ A 1 2",
                "1:22: $GENERATE has data of one token: quote them",
            ),
            (
                b"\n$GENERATE 1-2 h$ A 192.0.2.$",
                "2:1: no TTL: write one, or $TTL before",
            ),
            (
                b"$GENERATE 255-256 h$ 1 A 192.0.2.$",
                ":1 h255.example 1 1 1 c00002ff\n1:1: expected an IPv4 address",
            ),
            (
                b"$GENERATE 1-2 a 1 TXT \"(x\"",
                "1:1: bracket is never closed",
            ),
        ],
        &[],
    )
}
