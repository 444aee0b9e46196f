//! Readers of words as fish spells them: bare, between two `'`, between two `"`, and after `\`.

ghost use Rattle.std.specs.Prelude.{◌≡◌, encode_utf8, false, true, IfOk, IfErr, OnOk};
ghost use Rattle.std.specs.String.{string_bytes};
ghost use Rattle.cc_quote.specs.FishQuote.{begins_with_word, double_next, fish_added};
ghost use Rattle.cc_quote.specs.FishQuote.{fish_double_of, fish_next, fish_word_of, is_bare};
ghost use Rattle.cc_quote.specs.QuotedWord.{contents};

use crate::word_state::{WordState, read_word};
use cc_base::Error;
use std::alloc::{AllocError, Global};

// The state of a reader in a word: outside quotes, between two `'` or between two `"`; or after a
// backslash in each of these.
#[derive(Clone, Copy)]
pub(crate) enum QuoteState {
    Bare,
    BareEscaped,
    InSingle,
    InSingleEscaped,
    InDouble,
    InDoubleEscaped,
}

/// Reads the word with which `text` begins. Returns the word and the remaining text. The word
/// consists of pieces, up to a space, tab or line feed outside quotes. Nothing is expanded.
///
/// - Between two `'` a backslash is special before `'` and `\`.
/// - Between two `"` it is special before `"`, `\`, `$` and a line feed, and vanishes together with
///   the line feed.
/// - Outside quotes `\t` is a tab and `\n` a line feed. Before any other character a backslash
///   keeps that character.
///
/// Returns `None` if the text is empty, or begins with whitespace or with `#`. Also returns `None`
/// if a quote is not closed, or if a backslash outside quotes is the last character.
///
/// # Errors
///
/// `Memory` if an allocation fails.
pub fn fish_word(alloc: Global, text: &str) -> Result<Option<(String, &str)>, Error>
    ensures word { IfOk result (λ read. contents read ≡ fish_word_of text.now) }
    ensures memory { IfErr result (λ error. error ≡ Error.Memory) }
{
    if !begins_word(text.as_bytes()) {
        return Ok(None);
    }
    Ok(read_word(alloc, QuoteState::Bare, false, text)?)
}

/// Reads a `text` that begins with `"` up to the `"` that closes it, as [`fish_word`] reads that
/// part. Returns what it spells, and the remaining text. Returns `None` if the text does not
/// begin with `"`, or does not close it.
///
/// # Errors
///
/// `Memory` if an allocation fails.
pub fn fish_double(alloc: Global, text: &str) -> Result<Option<(String, &str)>, Error>
    ensures double { IfOk result (λ read. contents read ≡ fish_double_of text.now) }
    ensures memory { IfErr result (λ error. error ≡ Error.Memory) }
{
    match text.strip_prefix('"') {
        Some(inside) => Ok(read_word(alloc, QuoteState::InDouble, true, inside)?),
        None => Ok(None),
    }
}

// Returns whether a text begins with a word, and not with whitespace or a comment.
#[tactic(auto, unfolding(crate::specs::FishQuote::fish_sign))]
fn begins_word(text: &[u8]) -> bool
    ensures { result ≡ begins_with_word text.now }
{
    !matches!(text, [] | [b' ' | b'\t' | b'\n' | b'#', ..])
}

impl WordState for QuoteState {
    ghost next = { elim [
      | true ↦ double_next
      | false ↦ fish_next
    ] };

    ghost added = { fish_added };

    ghost may_end = { is_bare };

    fn next_state(self, is_double: bool, character: char) -> Option<Self> {
        if is_double && !matches!(self, QuoteState::InDouble | QuoteState::InDoubleEscaped) {
            return None;
        }
        next_state(self, character)
    }

    #[tactic(auto, unfolding(crate::specs::FishQuote::fish_sign))]
    fn push_added(self, character: char, word: &mut String) -> Result<(), AllocError> {
        match (self, character) {
            (QuoteState::Bare, '\'' | '"' | '\\') => Ok(()),
            (QuoteState::InSingle, '\'' | '\\') => Ok(()),
            (QuoteState::InDouble, '"' | '\\') => Ok(()),
            (QuoteState::InDoubleEscaped, '\n') => Ok(()),
            (QuoteState::BareEscaped, 't') => word.push('\t'),
            (QuoteState::BareEscaped, 'n') => word.push('\n'),
            (QuoteState::InSingleEscaped, '\'' | '\\') => word.push(character),
            (QuoteState::InDoubleEscaped, '"' | '\\' | '$') => word.push(character),
            (QuoteState::InSingleEscaped | QuoteState::InDoubleEscaped, _) => {
                word.push('\\')?;
                word.push(character)
            }
            _ => word.push(character),
        }
    }

    fn may_end(self) -> bool {
        matches!(self, QuoteState::Bare)
    }
}

// Returns the state after a character, or `None` if the word ends before it.
#[tactic(auto, unfolding(crate::specs::FishQuote::fish_sign))]
fn next_state(state: QuoteState, character: char) -> Option<QuoteState>
    ensures { result ≡ fish_next state character }
{
    let next = match (state, character) {
        (QuoteState::Bare, ' ' | '\t' | '\n') => return None,
        (QuoteState::Bare, '\'') => QuoteState::InSingle,
        (QuoteState::Bare, '"') => QuoteState::InDouble,
        (QuoteState::Bare, '\\') => QuoteState::BareEscaped,
        (QuoteState::Bare | QuoteState::BareEscaped, _) => QuoteState::Bare,
        (QuoteState::InSingle, '\'') => QuoteState::Bare,
        (QuoteState::InSingle, '\\') => QuoteState::InSingleEscaped,
        (QuoteState::InSingle | QuoteState::InSingleEscaped, _) => QuoteState::InSingle,
        (QuoteState::InDouble, '"') => QuoteState::Bare,
        (QuoteState::InDouble, '\\') => QuoteState::InDoubleEscaped,
        (QuoteState::InDouble | QuoteState::InDoubleEscaped, _) => QuoteState::InDouble,
    };
    Some(next)
}
