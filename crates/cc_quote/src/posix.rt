//! Words as a POSIX shell quotes and reads them: bare, between two `'`, between two `"`, and after
//! `\`.

ghost use Rattle.std.specs.Prelude.{◌≡◌, ◌++◌, [], codes, encode_utf8, map, option_map, false};
ghost use Rattle.std.specs.Prelude.{true, IfOk, IfErr, OnOk, Some};
ghost use Rattle.std.specs.List.{list_all};
ghost use Rattle.std.specs.String.{string_bytes};
ghost use Rattle.cc_quote.specs.BashDouble.{double_next};
ghost use Rattle.cc_quote.specs.PosixQuote.{is_bare, is_posix_safe, is_posix_safe_word, next_state};
ghost use Rattle.cc_quote.specs.PosixQuote.{posix_added, posix_escaped, posix_next, posix_quoted};
ghost use Rattle.cc_quote.specs.PosixQuote.{posix_word_of, word_after};
ghost use Rattle.cc_quote.specs.PosixTokenWords.{ReadsFirstToken};
ghost use Rattle.cc_quote.specs.PosixSigns.{sign};
ghost use Rattle.cc_quote.specs.QuotedWord.{contents};

use crate::escape::{Replace, quote_text};
use crate::word_state::{WordState, read_word};
use cc_base::Error;
use std::alloc::{AllocError, Global};

/// Quotes `text` as one word of a POSIX shell. A text stays as it is if it is not empty and
/// consists of ASCII letters, digits and `+ - . / : @ _`. Any other text is put between two `'`,
/// with each `'` as `'\''`.
///
/// # Errors
///
/// `Memory` if an allocation fails.
#[tactic(auto)]
pub fn posix_quote(alloc: Global, text: &str) -> Result<String, Error>
    ensures quoted { IfOk result (λ quoted. string_bytes quoted ≡ posix_quoted text.now) }

    // The result is read as the text, and nothing remains.
    ensures read_back { IfOk result
        (λ quoted. posix_word_of (string_bytes quoted) ≡ Some (text.now, [])) }
    ensures memory { IfErr result (λ error. error ≡ Error.Memory) }
{
    if is_safe_word(text) {
        return Ok(String::from_str(alloc, text)?);
    }
    Ok(in_quotes(alloc, text)?)
}

// Returns the text between two `'`.
fn in_quotes(alloc: Global, text: &str) -> Result<String, AllocError>
    ensures { IfOk result
        (λ quoted. string_bytes quoted ≡ codes "'" ++ posix_escaped text.now ++ codes "'") }
{
    let escape = Replace {
        byte: b'\'',
        by: "'\\''",
    };
    quote_text(alloc, &escape, text)
}

// Returns whether a text is not empty and consists of bytes that need no quotes.
#[tactic(auto, unfolding(crate::specs::PosixQuote::is_posix_safe_word))]
fn is_safe_word(text: &str) -> bool
    ensures { result ≡ is_posix_safe_word text.now }
{
    !text.is_empty() && are_safe(text.as_bytes())
}

// Returns whether no byte needs quotes.
fn are_safe(bytes: &[u8]) -> bool
    ensures { result ≡ list_all is_posix_safe bytes.now }
{
    for byte in bytes {
        if !is_safe(*byte) {
            return false;
        }
    }
    true
}

// Returns whether a byte needs no quotes.
#[tactic(auto, unfolding(crate::specs::PosixQuote::is_posix_safe))]
fn is_safe(byte: u8) -> bool
    ensures { result ≡ is_posix_safe byte }
{
    byte.is_ascii_alphanumeric() || matches!(byte, b'+' | b'-' | b'.' | b'/' | b':' | b'@' | b'_')
}

// The state of a reader of a word: before the word; in it, outside quotes, between two `'` or
// between two `"`; or after a backslash in each of these but `'`.
#[derive(Clone, Copy)]
pub(crate) enum QuoteState {
    Before,
    BeforeEscaped,
    Bare,
    BareEscaped,
    InSingle,
    InDouble,
    InDoubleEscaped,
}

/// Reads the word with which `text` begins. Returns the word and the remaining text. The word
/// consists of pieces, up to a space, tab or line feed outside quotes. Nothing is expanded.
///
/// - Between two `'` every character is kept.
/// - Between two `"` a backslash is special before `$`, a backtick, `"`, `\` and a line feed, and
///   vanishes together with the line feed.
/// - Outside quotes a backslash keeps the next character, and vanishes together with a line feed.
///
/// Returns `None` if the text does not begin with a word, if a quote is not closed, or if a
/// backslash is the last character.
///
/// # Errors
///
/// `Memory` if an allocation fails.
pub fn posix_word(alloc: Global, text: &str) -> Result<Option<(String, &str)>, Error>
    ensures word { IfOk result (λ read. contents read ≡ posix_word_of text.now) }

    // The word is the one that the first token spells, if the text is cut as a script.
    ensures token { IfOk result (λ read. ReadsFirstToken text.now (contents read)) }
    ensures memory { IfErr result (λ error. error ≡ Error.Memory) }
{
    Ok(read_word(alloc, QuoteState::Before, false, text)?)
}

impl WordState for QuoteState {
    ghost next = { elim [
      | true ↦ double_next
      | false ↦ posix_next
    ] };

    ghost added = { posix_added };

    ghost may_end = { is_bare };

    fn next_state(self, is_double: bool, character: char) -> Option<Self> {
        if is_double && !matches!(self, QuoteState::InDouble | QuoteState::InDoubleEscaped) {
            return None;
        }
        next_state(self, character)
    }

    #[tactic(auto, unfolding(crate::specs::PosixSigns::sign))]
    fn push_added(self, character: char, word: &mut String) -> Result<(), AllocError> {
        match (self, character) {
            (QuoteState::InSingle, '\'') => Ok(()),
            (QuoteState::InDouble | QuoteState::Before | QuoteState::Bare, '"' | '\\') => Ok(()),
            (QuoteState::Before | QuoteState::Bare, '\'') => Ok(()),
            (
                QuoteState::InDoubleEscaped | QuoteState::BeforeEscaped | QuoteState::BareEscaped,
                '\n',
            ) => Ok(()),
            (QuoteState::InDoubleEscaped, '"' | '\\' | '$' | '`') => word.push(character),
            (QuoteState::InDoubleEscaped, _) => {
                word.push('\\')?;
                word.push(character)
            }
            _ => word.push(character),
        }
    }

    fn may_end(self) -> bool {
        matches!(self, QuoteState::Bare)
    }
}

// Returns the state after a character, or `None` if the word ends before it.
#[tactic(auto, unfolding(crate::specs::PosixSigns::sign))]
fn next_state(state: QuoteState, character: char) -> Option<QuoteState>
    ensures { result ≡ next_state state (sign character) }
{
    match (state, character) {
        (QuoteState::Before | QuoteState::Bare, ' ' | '\t' | '\n') => None,
        (QuoteState::Before | QuoteState::Bare, '\'') => Some(QuoteState::InSingle),
        (QuoteState::Before | QuoteState::Bare, '"') => Some(QuoteState::InDouble),
        (QuoteState::Before, '\\') => Some(QuoteState::BeforeEscaped),
        (QuoteState::Bare, '\\') => Some(QuoteState::BareEscaped),
        (QuoteState::BeforeEscaped, '\n') => Some(QuoteState::Before),
        (
            QuoteState::Before
            | QuoteState::Bare
            | QuoteState::BeforeEscaped
            | QuoteState::BareEscaped,
            _,
        ) => { Some(QuoteState::Bare) }
        (QuoteState::InSingle, '\'') => Some(QuoteState::Bare),
        (QuoteState::InSingle, _) => Some(QuoteState::InSingle),
        (QuoteState::InDouble, '"') => Some(QuoteState::Bare),
        (QuoteState::InDouble, '\\') => Some(QuoteState::InDoubleEscaped),
        (QuoteState::InDouble | QuoteState::InDoubleEscaped, _) => Some(QuoteState::InDouble),
    }
}
