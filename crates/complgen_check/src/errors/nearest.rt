//! Suggests the known name closest to a misspelt one.

ghost use Rattle.std.specs.Prelude.{◌<◌, IfOk, IfSome, length};

use std::alloc::{AllocError, Global};

// Names with more bytes than this get no suggestion.
const LONGEST: usize = 64;

/// Returns the index of the name in `known` that the fewest edits of `name` lead to. Returns `None`
/// if that takes more than two edits, or at least half as many as `name` has bytes.
///
/// # Errors
///
/// `AllocError` if an allocation fails.
pub(crate) fn nearest(
    alloc: Global,
    name: &str,
    known: &[&str],
) -> Result<Option<usize>, AllocError>
    ensures { IfOk result (λ found. IfSome found (λ index. index < length known.now)) }
{
    if name.len() > LONGEST {
        return Ok(None);
    }
    let mut least = 3;
    let mut nearest = None;
    for (index, other) in known.iter().enumerate() {
        let edits = strsim::osa_distance(alloc, name, *other)?;
        if edits < least && edits < name.len().div_ceil(2) {
            least = edits;
            nearest = Some(index);
        }
    }
    Ok(nearest)
}

/// Returns the index of the first name in `known` that has the same ASCII letters and digits as
/// `name`, in either case. Returns `None` if no name has.
///
/// # Errors
///
/// `AllocError` if an allocation fails.
pub(crate) fn same_letters(
    alloc: Global,
    name: &str,
    known: &[&str],
) -> Result<Option<usize>, AllocError>
    ensures { IfOk result (λ found. IfSome found (λ index. index < length known.now)) }
{
    let letters = letters_of(alloc, name)?;
    for (index, other) in known.iter().enumerate() {
        if letters_of(alloc, *other)?.as_str() == letters.as_str() {
            return Ok(Some(index));
        }
    }
    Ok(None)
}

// Returns the ASCII letters and digits of a name, in lower case.
fn letters_of(alloc: Global, name: &str) -> Result<String, AllocError> {
    let mut letters = String::new(alloc);
    for character in name.chars() {
        if character.is_ascii_alphanumeric() {
            letters.push(character.to_ascii_lowercase())?;
        }
    }
    Ok(letters)
}
