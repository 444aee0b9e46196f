//! Files that list values: their paths, and how much of one counts.

ghost use Rattle.std.specs.Prelude.{◌≡◌, IfOk, string_bytes};
ghost use Rattle.std.specs.Option.{option_copied, option_map};
ghost use Rattle.cc_lines.specs.ValueFiles.{after_home, first_lines, values_path};

use cc_candidates::join_some;
use std::alloc::{AllocError, Global};

/// Returns the path of a file that lists values: `path` if it is absolute; below `home`, what
/// follows `~/`; below `current_dir`, any other path. Returns `None` if that directory is missing.
///
/// # Errors
///
/// `AllocError` if an allocation fails.
pub fn values_path(
    alloc: Global,
    home: Option<&str>,
    current_dir: Option<&str>,
    path: &str,
) -> Result<Option<String>, AllocError>
    ensures { IfOk result (λ found. option_map string_bytes found
        ≡ values_path (option_copied home.entry) (option_copied current_dir.entry) path.now) }
{
    if path.starts_with('/') {
        return Ok(Some(String::from_str(alloc, path)?));
    }
    match after_home(path) {
        Some(rest) => join_some(alloc, home, rest),
        None => join_some(alloc, current_dir, path),
    }
}

// Returns what follows `~/` at the start of a path.
fn after_home(path: &str) -> Option<&str>
    ensures { option_copied result ≡ after_home path.now }
{
    match path.split_once('/') {
        Some(("~", rest)) => Some(rest),
        None if path == "~" => Some(""),
        _ => None,
    }
}

/// Returns all of `bytes` if they are at most `limit`. Otherwise returns the first `limit` bytes up
/// to their last line feed, which is included; without a line feed there, none.
pub fn first_lines(bytes: &[u8], limit: usize) -> &[u8]
    ensures { result.now ≡ first_lines limit bytes.now }
{
    if bytes.len() <= limit {
        return bytes;
    }
    let mut end = limit;
    while end > 0 && bytes[end - 1] != b'\n' {
        end -= 1;
    }
    &bytes[..end]
}
