//! Functions that the readers of words share.

ghost use Rattle.std.specs.Prelude.{◌≡◌, ◌++◌, [], encode_utf8, IfOk, MatchOption};
ghost use Rattle.cc_quote.specs.QuotedWord.{contents, IsBareRead, IsCutAtBlank};

use std::alloc::{AllocError, Global};

/// Reads the word with which `text` begins, up to the first space, tab or line feed. Returns the
/// word and the remaining text, or `None` if the text is empty or begins with whitespace.
///
/// # Errors
///
/// `AllocError` if an allocation fails.
pub(crate) fn bare_word(alloc: Global, text: &str) -> Result<Option<(String, &str)>, AllocError>
    ensures { IfOk result (λ read. IsBareRead text.now (contents read)) }
{
    let (word, rest) = split_at_blank(text);
    if word.is_empty() {
        return Ok(None);
    }
    let word = String::from_str(alloc, word)?;
    Ok(Some((word, rest)))
}

// Splits a text before its first space, tab or line feed.
fn split_at_blank(text: &str) -> (&str, &str)
    ensures { IsCutAtBlank text.now result.0.now result.1.now }
{
    let end = text.find([' ', '\t', '\n']).unwrap_or(text.len());
    text.split_at(end)
}

/// Returns the first character of `text` and the rest, or `None` if the text is empty.
pub(crate) fn split_first(text: &str) -> Option<(char, &str)>
    ensures { MatchOption result (text.now ≡ [])
        (λ cut. text.now ≡ encode_utf8 cut.0 ++ cut.1.now) }
{
    let mut characters = text.chars();
    let Some(first) = characters.next() else {
        return None;
    };
    Some((first, characters.as_str()))
}
