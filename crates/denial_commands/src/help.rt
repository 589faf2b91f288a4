//! What `--help` and `--version` print.
ghost use Rattle.std.specs.Prelude.{◌≡◌, codes, IfNone, IfSome, map, string_bytes};
ghost use Rattle.denial_commands.specs.Help.{AsksForText, IsCommandName, IsTextOption};

/// What `denial --version` prints.
const VERSION: &str = "denial 0.6.0\n";

/// What `denial --help` prints.
const HELP: &str =
    r"denial: makes the DNSSEC denial chain of a zone, and reports what its records prove; proved

usage: denial nsec APEX [--zone FILE]
       denial nsec3 APEX ITERATIONS SALT [optout] [--zone FILE]
       denial check nsec APEX NAME TYPE [--zone FILE]
       denial check nsec3 APEX NAME TYPE [--zone FILE]
       denial judge nsec APEX NAME TYPE [--why | --records] [--zone FILE]
       denial judge nsec3 APEX NAME TYPE [--labels N] [--limit ITERATIONS] [--why | --records]
              [--zone FILE]
       denial answer nsec APEX NAME TYPE [--zone FILE]
       denial answer nsec3 APEX NAME TYPE [--zone FILE]
       denial lint APEX [ITERATIONS SALT] [--zone FILE]
       denial zone APEX [unsigned]

    nsec, nsec3   print the chain of a zone
    check, judge  report what records of a chain prove of a name and a type
    answer        prints the records of a chain that a response needs
    lint          prints every mistake in the records of a zone
    zone          prints the records of a zone file, one a line

    denial COMMAND --help    explains a command
    denial --help            (or -h) prints this text
    denial --version         (or -V) prints the version

--zone FILE reads a zone file; - is standard input. Names are relative to APEX until $ORIGIN.
Paths of $INCLUDE are relative to the folder of the file. nsec, nsec3 and lint leave out the NSEC,
NSEC3, NSEC3PARAM and RRSIG records of a signed file. A mistake is reported as FILE:LINE:COLUMN, and
nothing is printed then:

    $ printf '$TTL 1h\n@ SOA b c 1 2 3 4 1800\nn A 192.0.2.1\n' | ./denial nsec a. --zone -
    a. 1800 IN NSEC n.a. SOA RRSIG NSEC DNSKEY
    n.a. 1800 IN NSEC a. A RRSIG NSEC

Without --zone, standard input has the records of one zone, or of a chain, one a line, in any order.
Append a file name to read it instead of standard input:

    OWNER TTL CLASS TYPE DATA

Fields are separated by spaces or tabs. Names are absolute: `www` means `www.`, which is outside of
most zones, and such a record is ignored. Empty lines and lines that begin with a semicolon are
skipped. A, NS, SOA, MX, DNSKEY, DS, RRSIG, NSEC, NSEC3 and NSEC3PARAM are read in their
presentation format, and every type in the generic form of RFC 3597, as in TYPE99 \# 2 abcd.

An error is one line on standard error. Exit status: 2 for a usage error, 3 if lint has only
warnings, else 1.
";

/// What `denial nsec --help` prints.
const NSEC: &str = r"usage: denial nsec APEX [--zone FILE]

Prints the NSEC chain of the zone (RFC 4034). The apex always lists DNSKEY, since a zone with a
chain is signed:

    $ printf 'a. 3600 IN SOA b. c. 1 2 3 4 1800\nn.a. 300 IN A 192.0.2.1\n' | ./denial nsec a.
    a. 1800 IN NSEC n.a. SOA RRSIG NSEC DNSKEY
    n.a. 1800 IN NSEC a. A RRSIG NSEC
";

/// What `denial nsec3 --help` prints.
const NSEC3: &str = r"usage: denial nsec3 APEX ITERATIONS SALT [optout] [--zone FILE]

Prints the NSEC3 chain of the zone by SHA-1 (RFC 5155), with its NSEC3PARAM record. SALT is in Base
16, or - for none. optout sets the opt-out flag, and leaves delegations without DS out.

With --zone the NSEC3PARAM record has flags 0, as a zone publishes it. Without --zone it has the
opt-out flag too: set its flags to 0 before you publish it, since name servers ignore one with
flags, and then send no NSEC3 record.

    $ printf 'a. 3600 IN SOA b. c. 1 2 3 4 1800\n' | ./denial nsec3 a. 0 - | tail -n 1
    a. 3600 IN NSEC3PARAM 1 0 0 -
";

/// What `denial check --help` prints.
const CHECK: &str = r"usage: denial check nsec APEX NAME TYPE [--zone FILE]
       denial check nsec3 APEX NAME TYPE [--zone FILE]

Prints what some records of a chain prove of a name and a type: outside zone, below delegation, has,
no type, empty name, opt-out NAME, no name NAME or not proven. NAME is the closest encloser. For
NSEC3 pass the NSEC3PARAM record of the apex too:

    $ printf 'n.a. 1800 IN NSEC a. A RRSIG NSEC\n' | ./denial check nsec a. x.n.a. A
    no name n.a.
";

/// What `denial judge --help` prints.
const JUDGE: &str = r"usage: denial judge nsec APEX NAME TYPE [--why | --records] [--zone FILE]
       denial judge nsec3 APEX NAME TYPE [--labels N] [--limit ITERATIONS] [--why | --records]
              [--zone FILE]

Prints the whole answer that some records of a chain prove: that a name does not exist and no
wildcard answers for it, that it is delegated, redirected or an alias, or has no such type
(docs/reference/program.md has all answers). For NSEC3 pass the NSEC3PARAM record of the apex too.

NSEC3 records with more iterations than --limit, 150 if not given, are not hashed. --labels N is for
data that were expanded from a wildcard: the number in the field Labels of their RRSIG records.
--why prints the records that the answer rests on, and --records those that a response needs:

    $ printf 'n.a. 1800 IN NSEC a. A RRSIG NSEC\n' | ./denial judge nsec a. x.n.a. A --why
    name error: closest encloser n.a.; wildcard *.n.a. does not exist
    covers the name: n.a. 1800 IN NSEC a. A RRSIG NSEC
    covers the wildcard *.n.a.: n.a. 1800 IN NSEC a. A RRSIG NSEC
";

/// What `denial answer --help` prints.
const ANSWER: &str = r"usage: denial answer nsec APEX NAME TYPE [--zone FILE]
       denial answer nsec3 APEX NAME TYPE [--zone FILE]

Prints the records of a chain that a response needs, below a comment with what they prove. With
NSEC3 the NSEC3PARAM record follows. It is judge with --records, and for NSEC3 with --limit 65535:

    $ ./denial answer nsec a. x.n.a. A < CHAIN | ./denial judge nsec a. x.n.a. A
";

/// What `denial lint --help` prints.
const LINT: &str = r"usage: denial lint APEX [ITERATIONS SALT] [--zone FILE]

Prints every mistake in the records of a zone: each line that is no record, with what was expected;
what is wrong with the zone; and warnings. Exit status: 1 if denial rejects the records, 3 if there
are only warnings, 0 if there is nothing to report:

    $ printf 'a. 1h IN SOA b. c. 1 2 3 4 1800\n' | ./denial lint a.
    line 1, word 2: '1h' is not a TTL: write 3600 seconds, without a unit

With ITERATIONS and SALT, as for nsec3, it also reports hashed owner names that are too long, and
names that have the same hash. With --zone the number of a line is that of the file, and a record
of an included file is reported as FILE:LINE; a mistake of a file itself is reported alone.
";

/// What `denial zone --help` prints.
const ZONE: &str = r"usage: denial zone APEX [unsigned]

Prints the records of a zone file, one a line, as the other commands read them without --zone. APEX
is the origin until $ORIGIN. unsigned leaves out NSEC, NSEC3, NSEC3PARAM and RRSIG records. Append a
file name to read it instead of standard input: paths of $INCLUDE are relative to its folder. A
mistake is reported with its line and column, and nothing is printed then:

    $ printf '$TTL 1h\n@ SOA b c 1 2 3 4 1800\n' | ./denial zone a. | ./denial nsec a.
    a. 1800 IN NSEC a. SOA RRSIG NSEC DNSKEY
";

/// Returns what the option `--help` behind the name of a command prints.
fn help_of(word: &str) -> Option<&'static str>
    ensures some { IfSome result (λ _. IsCommandName word.now) }
    ensures none { IfNone result (IsCommandName word.now → ⊥) }
{
    match word {
        "nsec" => Some(NSEC),
        "nsec3" => Some(NSEC3),
        "check" => Some(CHECK),
        "judge" => Some(JUDGE),
        "answer" => Some(ANSWER),
        "lint" => Some(LINT),
        "zone" => Some(ZONE),
        _ => None,
    }
}

/// Returns what the only argument prints if it asks for a text.
fn text_of(word: &str) -> Option<&'static str>
    ensures some { IfSome result (λ _. IsTextOption word.now) }
    ensures none { IfNone result (IsTextOption word.now → ⊥) }
{
    match word {
        "--help" | "-h" => Some(HELP),
        "--version" | "-V" => Some(VERSION),
        _ => None,
    }
}

/// Returns what an option behind the name of a command prints if it asks for a text.
fn help_with(word: &str, option: &str) -> Option<&'static str>
    ensures some { IfSome result (λ _. (option.now ≡ codes "--help") × IsCommandName word.now) }
    ensures none { IfNone result ((option.now ≡ codes "--help") × IsCommandName word.now → ⊥) }
{
    match option {
        "--help" => help_of(word),
        _ => None,
    }
}

/// Returns the text that the arguments ask for, and None if they ask for none: `--help` or `-h`,
/// `--version` or `-V`, or the name of a command and `--help`. So a zone whose apex is `--help.` is
/// written with its last dot.
pub fn shown_text(words: &[String]) -> Option<&'static str>
    ensures some { IfSome result (λ _. AsksForText (map string_bytes words.now)) }
    ensures none { IfNone result (AsksForText (map string_bytes words.now) → ⊥) }
{
    match words {
        [word] => text_of(word.as_str()),
        [word, option] => help_with(word.as_str(), option.as_str()),
        _ => None,
    }
}
