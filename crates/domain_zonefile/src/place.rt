//! Lines and columns of a zone file.
ghost use Rattle.std.specs.Prelude.{◌≡◌, ◌≤◌, ◌+◌, ◌<◌, ◌^◌, length};
ghost use Rattle.domain_zonefile.specs.Places.{has_mark, without_mark, place_after, place_behind, place_in, IsSeen};

/// A place in a zone file. Columns count octets.
#[derive(Clone, Copy, Debug, PartialEq, Eq)]
pub struct Place {
    /// The number of its line, from 1.
    pub line: usize,
    /// The number of its octet in the line, from 1.
    pub column: usize,
}

/// Returns whether octets begin with a byte order mark.
pub fn has_mark(file: &[u8]) -> bool
    ensures { result ≡ has_mark file.now }
{
    matches!(file, [0xef, 0xbb, 0xbf, ..])
}

/// Returns the octets behind a byte order mark, or all octets if they begin with none.
pub fn without_mark(file: &[u8]) -> &[u8]
    ensures { result.now ≡ without_mark file.now }
{
    if has_mark(file) { &file[3..] } else { file }
}

/// Returns the place after an octet at a place. A line feed is the last octet of its line.
fn place_after(place: Place, octet: u8) -> Place
    requires line { place.line + 1 < 2 ^ 64 }
    requires column { place.column + 1 < 2 ^ 64 }
    ensures { result ≡ place_after place octet }
{
    if octet == b'\n' {
        return Place {
            line: place.line + 1,
            column: 1,
        };
    }
    Place {
        line: place.line,
        column: place.column + 1,
    }
}

/// Returns the place behind a text that begins at a place.
fn place_behind(start: Place, text: &[u8]) -> Place
    requires line { start.line + length text.now < 2 ^ 64 }
    requires column { start.column + length text.now + 1 < 2 ^ 64 }
    ensures { result ≡ place_behind start text.now }
{
    let mut place = start;
    for octet in text {
        place = place_after(place, *octet);
    }
    place
}

/// A place that is known.
#[derive(Clone, Copy, Debug)]
pub struct Seen {
    /// The number of octets before it.
    pub at: usize,
    /// Its line and column.
    pub place: Place,
}

/// Returns the start of a file.
pub fn start_of(file: &[u8]) -> Seen
    ensures known { IsSeen file.now result }
    ensures start { result.at ≡ 0 }
{
    Seen {
        at: 0,
        place: Place { line: 1, column: 1 },
    }
}

/// Returns the known place if it is not behind `at`, or else the start of the file.
fn known_before(file: &[u8], seen: Seen, at: usize) -> Seen
    requires { IsSeen file.now seen }
    ensures known { IsSeen file.now result }
    ensures before { result.at ≤ at }
{
    if seen.at <= at {
        return seen;
    }
    start_of(file)
}

/// Returns a place of a file, or its end. Counts from the known place if that is not behind it.
pub fn see(file: &[u8], seen: Seen, at: usize) -> Seen
    requires { IsSeen file.now seen }
    ensures known { IsSeen file.now result }
    ensures place { result.place ≡ place_in file.now at }
{
    let at = at.min(file.len());
    let before = known_before(file, seen, at);
    let place = place_behind(before.place, &file[before.at..at]);
    Seen { at, place }
}
