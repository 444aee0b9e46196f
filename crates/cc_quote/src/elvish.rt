//! Words as Elvish quotes them: between two `'`, with `''` for each `'`.

ghost use Rattle.std.specs.Prelude.{◌≡◌, [], ◌++◌, map, codes, true, IfOk, IfErr, Some};
ghost use Rattle.std.specs.String.{string_bytes};
ghost use Rattle.cc_base.specs.Bytes.{line_feed, single_quote};
ghost use Rattle.cc_quote.specs.ElvishQuote.{elvish_escaped, elvish_replacement, elvish_word_of};
ghost use Rattle.cc_quote.specs.QuotedWord.{contents, line_feeds_as_spaces, quoted, word_from};
ghost use Rattle.cc_quote.specs.Signs.{sign};
ghost use Rattle.memchr.specs.Find.{is_byte2};

use crate::escape::{ByteEscape, escape_text};
use crate::word::bare_word;
use cc_base::Error;
use memchr::memchr2;
use std::alloc::{AllocError, Global};

/// The escape of a text between two `'` in Elvish: each `'` as `''`, and each line feed as a space.
pub struct ElvishEscape;

impl ByteEscape for ElvishEscape {
    ghost escapes = { λ _. is_byte2 single_quote line_feed };

    ghost replacement = { λ _. elvish_replacement };

    fn replacement(&self, byte: u8) -> Option<&'static str> {
        match byte {
            b'\'' => Some("''"),
            b'\n' => Some(" "),
            _ => None,
        }
    }

    fn find(&self, bytes: &[u8]) -> Option<usize> {
        memchr2(b'\'', b'\n', bytes)
    }
}

/// Escapes `text` so that it can be put between two `'` in Elvish: each `'` as `''`, and each line
/// feed as a space.
///
/// # Errors
///
/// `Memory` if an allocation fails.
#[tactic(auto, using(crate::proofs::ElvishWords::elvish_reads_back))]
pub fn elvish_escape(alloc: Global, text: &str) -> Result<String, Error>
    ensures escaped { IfOk result (λ escaped. string_bytes escaped ≡ elvish_escaped text.now) }

    // Between two quotes the result is read as the text, and nothing remains.
    ensures read_back { IfOk result
        (λ escaped. elvish_word_of (codes "'" ++ string_bytes escaped ++ codes "'")
        ≡ Some (line_feeds_as_spaces text.now, [])) }
    ensures memory { IfErr result (λ error. error ≡ Error.Memory) }
{
    Ok(escape_text(alloc, &ElvishEscape, text)?)
}

/// Reads the word with which `text` begins. Returns the word and the remaining text.
///
/// - A word that begins with `'` ends at its closing `'`. In it, `''` is one quote.
/// - Any other word ends before the first space, tab or line feed. In it, a quote is an ordinary
///   character.
///
/// Returns `None` if the text is empty or begins with whitespace, or if a quote is not closed.
///
/// # Errors
///
/// `Memory` if an allocation fails.
pub fn elvish_word(alloc: Global, text: &str) -> Result<Option<(String, &str)>, Error>
    ensures word { IfOk result (λ read. contents read ≡ elvish_word_of text.now) }
    ensures memory { IfErr result (λ error. error ≡ Error.Memory) }
{
    match text.strip_prefix('\'') {
        Some(quoted) => Ok(quoted_word(alloc, quoted)?),
        None => Ok(bare_word(alloc, text)?),
    }
}

// Returns the word after its opening quote, and the rest.
fn quoted_word(alloc: Global, text: &str) -> Result<Option<(String, &str)>, AllocError>
    ensures { IfOk result
        (λ read. contents read ≡ word_from (quoted []) (map sign text.now)) }
{
    let mut word = String::new(alloc);
    let mut rest = text;
    while let Some((piece, next)) = rest.split_once('\'') {
        word.push_str(piece)?;
        match next.strip_prefix('\'') {
            None => return Ok(Some((word, next))),
            Some(second) => {
                word.push('\'')?;
                rest = second;
            }
        }
    }
    Ok(None)
}
