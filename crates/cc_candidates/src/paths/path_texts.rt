//! The parts of a path.

ghost use Rattle.std.specs.Prelude.{◌≡◌, ◌==◌, ◌<◌, length, IfOk, string_bytes};
ghost use Rattle.std.specs.Option.{option_copied, option_map};
ghost use Rattle.std.specs.Path.{is_leading, is_trailing, path_join, trim_trailing};
ghost use Rattle.cc_candidates.specs.PathTexts.{below_home, join_some, ends_in_slash, is_folder_word, past_leading};
ghost use Rattle.cc_candidates.specs.PathTexts.{search_root, word_name, word_prefix};

use std::alloc::{AllocError, Global};
use std::path::Path;

/// Returns `path` without the slashes and the `.` components at its end. The first slash of an
/// absolute path stays, and so does a `.` that is the whole path.
pub fn trim_trailing(path: &str) -> &str
    ensures { result.now ≡ trim_trailing path.now }
{
    let bytes = path.as_bytes();
    let mut end = bytes.len();
    while end > 0 && is_trailing(bytes, end - 1) {
        end -= 1;
    }
    &path[..end]
}

// Returns whether the byte at `i` is a slash, or a `.` after one, and is not the first byte.
fn is_trailing(path: &[u8], i: usize) -> bool
    requires { i < length path.now }
    ensures { result ≡ is_trailing path.now i }
{
    0 < i && (path[i] == b'/' || (path[i] == b'.' && path[i - 1] == b'/'))
}

/// Joins `path` to `base`, with a slash between them unless the base is empty or ends in one. An
/// absolute path is returned unchanged.
///
/// # Errors
///
/// `AllocError` if an allocation fails.
pub fn join(alloc: Global, base: &str, path: &str) -> Result<String, AllocError>
    ensures { IfOk result (λ joined. string_bytes joined ≡ path_join base.now path.now) }
{
    Ok(Path::new(base).join(alloc, path)?.into_string())
}

// Returns whether the text ends in a slash.
pub(crate) fn ends_in_slash(path: &str) -> bool
    ensures { result ≡ ends_in_slash path.now }
{
    path.as_bytes().last() == Some(&b'/')
}

// Returns whether the whole word names a directory.
fn is_folder_word(word: &str) -> bool
    ensures { result ≡ is_folder_word word.now }
{
    ends_in_slash(word) || Path::new(word).file_name().is_none()
}

// Returns the part of the word that names a directory, as the user typed it.
#[tactic(auto, unfolding(crate::specs::PathTexts::word_prefix))]
pub(crate) fn word_prefix(word: &str) -> &str
    ensures { result.now ≡ word_prefix word.now }
{
    if is_folder_word(word) {
        return word;
    }
    Path::new(word)
        .parent()
        .map_or("", |parent| parent.as_str())
}

// Returns the beginning of a name in that directory.
#[tactic(auto, unfolding(crate::specs::PathTexts::word_name))]
pub(crate) fn word_name(word: &str) -> &str
    ensures { result.now ≡ word_name word.now }
{
    if is_folder_word(word) {
        return "";
    }
    Path::new(word).file_name().unwrap_or("")
}

// Returns the path after its leading slashes and `.` components.
fn past_leading(path: &str) -> &str
    ensures { result.now ≡ past_leading path.now }
{
    let bytes = path.as_bytes();
    let mut start = 0;
    while start < bytes.len() && is_leading(bytes, start) {
        start += 1;
    }
    &path[start..]
}

// Returns whether the byte at `i` is a slash, or a `.` before a slash or the end.
fn is_leading(path: &[u8], i: usize) -> bool
    requires { i < length path.now }
    ensures { result ≡ is_leading path.now i }
{
    path[i] == b'/' || (path[i] == b'.' && (i + 1 == path.len() || path[i + 1] == b'/'))
}

// Returns what follows `~` as the first component, if `~` is that component.
fn below_home(path: &str) -> Option<&str>
    ensures { option_copied result ≡ below_home path.now }
{
    match path.split_once('/') {
        Some(("~", rest)) => Some(past_leading(rest)),
        None if path == "~" => Some(""),
        _ => None,
    }
}

// Returns the directory to list for a prefix. Returns `None` if that needs a home directory or a
// current directory that is missing.
#[tactic(auto, unfolding(crate::specs::PathTexts::search_root))]
pub(crate) fn search_root(
    alloc: Global,
    home: Option<&str>,
    current: Option<&str>,
    prefix: &str,
) -> Result<Option<String>, AllocError>
    ensures { IfOk result (λ root. option_map string_bytes root
        ≡ search_root (option_copied home.entry) (option_copied current.entry) prefix.now) }
{
    if prefix.starts_with('/') {
        return Ok(Some(String::from_str(alloc, prefix)?));
    }
    match below_home(prefix) {
        Some(rest) => join_some(alloc, home, rest),
        None => join_some(alloc, current, prefix),
    }
}

/// Joins `path` to `base` as [`join`] does. Returns `None` without a base.
///
/// # Errors
///
/// `AllocError` if an allocation fails.
pub fn join_some(
    alloc: Global,
    base: Option<&str>,
    path: &str,
) -> Result<Option<String>, AllocError>
    ensures { IfOk result (λ joined. option_map string_bytes joined
        ≡ join_some (option_copied base.entry) path.now) }
{
    match base {
        Some(base) => Ok(Some(join(alloc, base, path)?)),
        None => Ok(None),
    }
}
