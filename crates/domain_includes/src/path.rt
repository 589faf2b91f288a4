//! The paths of included files.
ghost use Rattle.std.specs.Prelude.{◌≡◌, IfOk, map};
ghost use Rattle.domain_types.specs.Reading.{token_text};
ghost use Rattle.domain_includes.specs.Paths.{begins_with_slash, folder_of, included_path, second_token};

use domain_octets::OutOfMemory;
use domain_zonefile::Token;
use std::alloc::Global;

/// Returns the folder of a file: its path up to the last slash, and nothing if there is none.
fn folder_of(path: &[u8]) -> &[u8]
    ensures { result.now ≡ folder_of path.now }
{
    let mut len = path.len();
    while len > 0 && path[len - 1] != b'/' {
        len -= 1;
    }
    &path[..len]
}

/// Returns whether a path begins with a slash.
fn begins_with_slash(path: &[u8]) -> bool
    ensures { result ≡ begins_with_slash path.now }
{
    matches!(path, [b'/', ..])
}

/// Returns the path of an included file.
pub(crate) fn included_path(alloc: Global, path: &[u8], name: &[u8]) -> Result<Vec<u8>, OutOfMemory>
    ensures { IfOk result (λ joined. joined.items ≡ included_path path.now name.now) }
{
    let mut joined = Vec::new(alloc);
    if !begins_with_slash(name) {
        joined.extend_from_slice(folder_of(path))?;
    }
    joined.extend_from_slice(name)?;
    Ok(joined)
}

/// Returns the file that `$INCLUDE` names with these tokens.
pub(crate) fn included_name<'a>(tokens: &[Token<'a>]) -> &'a [u8]
    ensures { result.now ≡ second_token (map token_text tokens.now) }
{
    match tokens {
        [_, file, ..] => file.octets,
        _ => &[],
    }
}
