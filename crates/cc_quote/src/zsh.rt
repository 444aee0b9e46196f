//! Texts between two `'` for zsh's completion, with a backslash before each character that it takes
//! as syntax.

ghost use Rattle.std.specs.Prelude.{◌≡◌, [], option_map, IfOk, IfErr, OnOk};
ghost use Rattle.std.specs.String.{string_bytes};
ghost use Rattle.cc_quote.specs.QuotedWord.{line_feeds_as_spaces};
ghost use Rattle.cc_quote.specs.ZshQuote.{escape_next, is_help_escaped, is_plain, is_value_escaped, unescaped_added, zsh_escaped_help, zsh_escaped_value, zsh_help_replacement, zsh_replacement, zsh_unescaped, ReadsUnescaped};

use crate::escape::{ByteEscape, escape_text};
use crate::word_state::{WordState, read_word};
use cc_base::Error;
use std::alloc::{AllocError, Global};

/// The escape of a description between two `'` in zsh: a backslash before `\ [ ] : $` and a
/// backtick, `'` as `'\''`, and each line feed as a space.
pub struct ZshHelpEscape;

impl ByteEscape for ZshHelpEscape {
    ghost escapes = { λ _. is_help_escaped };

    ghost replacement = { λ _. zsh_help_replacement };

    fn replacement(&self, byte: u8) -> Option<&'static str> {
        // All bytes to escape are less than the lower-case letters, of which most texts consist.
        if byte > b'`' {
            return None;
        }
        match byte {
            b'\\' => Some("\\\\"),
            b'[' => Some("\\["),
            b']' => Some("\\]"),
            b':' => Some("\\:"),
            b'$' => Some("\\$"),
            b'`' => Some("\\`"),
            b'\'' => Some("'\\''"),
            b'\n' => Some(" "),
            _ => None,
        }
    }
}

/// The escape of a value between two `'` in zsh: a backslash before `\ [ ] : $ ( )`, a backtick and
/// a space, and `'` as `'\''`.
pub struct ZshValueEscape;

impl ByteEscape for ZshValueEscape {
    ghost escapes = { λ _. is_value_escaped };

    ghost replacement = { λ _. zsh_replacement };

    fn replacement(&self, byte: u8) -> Option<&'static str> {
        match byte {
            b'(' => Some("\\("),
            b')' => Some("\\)"),
            b' ' => Some("\\ "),
            b'\n' => None,
            _ => ZshHelpEscape.replacement(byte),
        }
    }
}

/// Escapes `text` as a description between two `'` in zsh: a backslash before `\ [ ] : $` and a
/// backtick, `'` as `'\''`, and each line feed as a space.
///
/// # Errors
///
/// `Memory` if an allocation fails.
#[tactic(auto, unfolding(crate::specs::ZshQuote::zsh_escaped_help), using(crate::proofs::ZshWords::help_reads_unescaped))]
pub fn zsh_escape_help(alloc: Global, text: &str) -> Result<String, Error>
    ensures escaped { IfOk result (λ escaped. string_bytes escaped ≡ zsh_escaped_help text.now) }

    // Between two quotes the result is read as a word. Without its backslashes that word is the
    // text.
    ensures read_back { IfOk result
        (λ escaped. ReadsUnescaped (string_bytes escaped) (line_feeds_as_spaces text.now)) }
    ensures memory { IfErr result (λ error. error ≡ Error.Memory) }
{
    Ok(escape_text(alloc, &ZshHelpEscape, text)?)
}

/// Escapes `text` as a value between two `'` in zsh: a backslash before `\ [ ] : $ ( )`, a backtick
/// and a space, and `'` as `'\''`.
///
/// # Errors
///
/// `Memory` if an allocation fails.
#[tactic(auto, unfolding(crate::specs::ZshQuote::zsh_escaped_value), using(crate::proofs::ZshWords::value_reads_unescaped))]
pub fn zsh_escape_value(alloc: Global, text: &str) -> Result<String, Error>
    ensures escaped { IfOk result (λ escaped. string_bytes escaped ≡ zsh_escaped_value text.now) }

    // Between two quotes the result is read as a word. Without its backslashes that word is the
    // text.
    ensures read_back { IfOk result
        (λ escaped. ReadsUnescaped (string_bytes escaped) text.now) }
    ensures memory { IfErr result (λ error. error ≡ Error.Memory) }
{
    Ok(escape_text(alloc, &ZshValueEscape, text)?)
}

// The state of a reader of an escaped text: after a backslash that escapes, or not.
#[derive(Clone, Copy)]
pub(crate) enum EscapeState {
    Plain,
    Escaping,
}

/// Removes the backslashes that escape from `text`. Each of them keeps the next character, even a
/// backslash. Returns `None` if a backslash that escapes is the last character.
///
/// # Errors
///
/// `Memory` if an allocation fails.
pub fn zsh_unescape(alloc: Global, text: &str) -> Result<Option<String>, Error>
    ensures unescaped { IfOk result
        (λ read. option_map string_bytes read ≡ zsh_unescaped text.now) }
    ensures memory { IfErr result (λ error. error ≡ Error.Memory) }
{
    match read_word(alloc, EscapeState::Plain, false, text)? {
        Some((word, _)) => Ok(Some(word)),
        None => Ok(None),
    }
}

impl WordState for EscapeState {
    ghost next = { λ _. escape_next };

    ghost added = { unescaped_added };

    ghost may_end = { is_plain };

    fn next_state(self, _is_double: bool, character: char) -> Option<Self> {
        match (self, character) {
            (EscapeState::Plain, '\\') => Some(EscapeState::Escaping),
            _ => Some(EscapeState::Plain),
        }
    }

    fn push_added(self, character: char, word: &mut String) -> Result<(), AllocError> {
        match (self, character) {
            (EscapeState::Plain, '\\') => Ok(()),
            _ => word.push(character),
        }
    }

    fn may_end(self) -> bool {
        matches!(self, EscapeState::Plain)
    }
}
