//! Words as PowerShell quotes them: between two quotes, each `'` or `’` (U+2019). Two quotes in a
//! row inside mean the second.

ghost use Rattle.std.specs.Prelude.{◌≡◌, ◌<◌, ◌+◌, ◌++◌, [], List, ℕ, codes, true, IfOk, IfErr};
ghost use Rattle.std.specs.Prelude.{MatchOption, Some, drop, length, slice_index};
ghost use Rattle.std.specs.String.{string_bytes};
ghost use Rattle.cc_quote.specs.PowershellQuote.{begins_quote, begins_second, is_escaped};
ghost use Rattle.cc_quote.specs.PowershellQuote.{powershell_escaped, powershell_signs};
ghost use Rattle.cc_quote.specs.PowershellQuote.{powershell_word_of, IsFirstEscaped, IsFirstQuote};
ghost use Rattle.cc_quote.specs.QuotedWord.{contents, line_feeds_as_spaces, quoted, word_from};
ghost use Rattle.cc_quote.specs.QuotedWord.{BeginsWithNoQuote, BeginsWithQuote, IsCutAtQuote};
ghost use Rattle.cc_quote.specs.QuotedWord.{IsWithoutQuotes};

use crate::escape::{Escape, escape_text};
use crate::word::bare_word;
use cc_base::Error;
use memchr::memchr3_iter;
use std::alloc::{AllocError, Global};

// The bytes of U+2019.
const RIGHT_QUOTE: [u8; 3] = [RIGHT_QUOTE_FIRST, RIGHT_QUOTE_SECOND, RIGHT_QUOTE_THIRD];

const RIGHT_QUOTE_FIRST: u8 = 226;

const RIGHT_QUOTE_SECOND: u8 = 128;

const RIGHT_QUOTE_THIRD: u8 = 153;

/// The escape of a text between two `'` in PowerShell: each `'` as `''`, each `’` (U+2019) as `'’`,
/// and each line feed as a space.
pub struct PowershellEscape;

impl Escape for PowershellEscape {
    ghost escaped = { λ _ text. powershell_escaped text };

    fn split<'a>(&self, text: &'a str) -> Option<(&'a str, &'static str, &'a str)> {
        let bytes = text.as_bytes();
        let Some(at) = find_escaped(bytes) else {
            return None;
        };
        let run = &text[..at];
        if bytes[at] == b'\'' {
            return Some((run, "''", &text[at + 1..]));
        }
        if bytes[at] == b'\n' {
            return Some((run, " ", &text[at + 1..]));
        }
        Some((run, "'\u{2019}", &text[at + RIGHT_QUOTE.len()..]))
    }
}

// Returns the index of the first byte that has a replacement.
fn find_escaped(text: &[u8]) -> Option<usize>
    ensures { MatchOption result (powershell_escaped text.now ≡ text.now)
        (λ at. IsFirstEscaped text.now at) }
{
    for at in memchr3_iter(b'\'', b'\n', RIGHT_QUOTE_FIRST, text) {
        if is_escaped_at(text, at) {
            return Some(at);
        }
    }
    None
}

fn is_escaped_at(text: &[u8], at: usize) -> bool
    requires { at < length text.now }
    ensures { result ≡ is_escaped (slice_index text.now at) (drop (at + 1) text.now) }
{
    text[at] == b'\n' || begins_quote_at(text, at)
}

fn begins_quote_at(text: &[u8], at: usize) -> bool
    requires { at < length text.now }
    ensures { result ≡ begins_quote (slice_index text.now at) (drop (at + 1) text.now) }
{
    match text[at] {
        b'\'' => true,
        RIGHT_QUOTE_FIRST => begins_second(&text[at + 1..]),
        _ => false,
    }
}

// Returns whether a text begins with the last two bytes of U+2019.
fn begins_second(text: &[u8]) -> bool
    ensures { result ≡ begins_second text.now }
{
    matches!(text, [RIGHT_QUOTE_SECOND, RIGHT_QUOTE_THIRD, ..])
}

/// Escapes `text` so that it can be put between two `'` in PowerShell: each `'` as `''`, each `’`
/// (U+2019) as `'’`, and each line feed as a space.
///
/// # Errors
///
/// `Memory` if an allocation fails.
#[tactic(auto, using(crate::proofs::PowershellWords::powershell_reads_back))]
pub fn powershell_escape(alloc: Global, text: &str) -> Result<String, Error>
    ensures escaped { IfOk result
        (λ escaped. string_bytes escaped ≡ powershell_escaped text.now) }

    // Between two quotes the result is read as the text, and nothing remains.
    ensures read_back { IfOk result
        (λ escaped. powershell_word_of (codes "'" ++ string_bytes escaped ++ codes "'")
        ≡ Some (line_feeds_as_spaces text.now, [])) }
    ensures memory { IfErr result (λ error. error ≡ Error.Memory) }
{
    Ok(escape_text(alloc, &PowershellEscape, text)?)
}

/// Reads the word with which `text` begins. Returns the word and the remaining text.
///
/// - A word that begins with a quote, `'` or `’` (U+2019), ends at the quote that closes it. In it,
///   two quotes in a row mean the second.
/// - Any other word ends before the first space, tab or line feed. In it, a quote is an ordinary
///   character.
///
/// Returns `None` if the text is empty or begins with whitespace, or if a quote is not closed.
///
/// # Errors
///
/// `Memory` if an allocation fails.
pub fn powershell_word(alloc: Global, text: &str) -> Result<Option<(String, &str)>, Error>
    ensures word { IfOk result (λ read. contents read ≡ powershell_word_of text.now) }
    ensures memory { IfErr result (λ error. error ≡ Error.Memory) }
{
    match strip_quote(text) {
        Some((_, quoted)) => Ok(quoted_word(alloc, quoted)?),
        None => Ok(bare_word(alloc, text)?),
    }
}

// Returns the quote with which a text begins, and the rest.
fn strip_quote(text: &str) -> Option<(&'static str, &str)>
    ensures { MatchOption result (BeginsWithNoQuote powershell_signs text.now)
        (λ found. BeginsWithQuote powershell_signs text.now found.0.now found.1.now) }
{
    if let Some(rest) = text.strip_prefix('\'') {
        return Some(("'", rest));
    }
    let Some(rest) = text.strip_prefix('\u{2019}') else {
        return None;
    };
    Some(("\u{2019}", rest))
}

// Returns the text before the first quote, and the text after it.
fn split_at_quote(text: &str) -> Option<(&str, &str)>
    ensures { MatchOption result (IsWithoutQuotes powershell_signs text.now)
        (λ cut. (opening : List ℕ)
        × IsCutAtQuote powershell_signs text.now cut.0.now opening cut.1.now) }
{
    let bytes = text.as_bytes();
    let Some(at) = find_quote(bytes) else {
        return None;
    };
    let run = &text[..at];
    if bytes[at] == b'\'' {
        return Some((run, &text[at + 1..]));
    }
    Some((run, &text[at + RIGHT_QUOTE.len()..]))
}

fn find_quote(text: &[u8]) -> Option<usize>
    ensures { MatchOption result (IsWithoutQuotes powershell_signs text.now)
        (λ at. IsFirstQuote text.now at) }
{
    for at in 0..text.len() {
        if begins_quote_at(text, at) {
            return Some(at);
        }
    }
    None
}

// Returns the word after its opening quote, and the rest.
fn quoted_word(alloc: Global, text: &str) -> Result<Option<(String, &str)>, AllocError>
    ensures { IfOk result
        (λ read. contents read ≡ word_from (quoted []) (powershell_signs text.now)) }
{
    let mut word = String::new(alloc);
    let mut rest = text;
    while let Some((piece, next)) = split_at_quote(rest) {
        word.push_str(piece)?;
        match strip_quote(next) {
            None => return Ok(Some((word, next))),
            Some((second, more)) => {
                word.push_str(second)?;
                rest = more;
            }
        }
    }
    Ok(None)
}
