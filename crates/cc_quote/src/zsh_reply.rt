//! A value and its help text as zsh's completion splits them at a colon.

ghost use Rattle.std.specs.Prelude.{◌≡◌, IfOk, IfErr, Some};
ghost use Rattle.std.specs.String.{string_bytes};
ghost use Rattle.cc_quote.specs.Escapes.{backslashed};
ghost use Rattle.cc_quote.specs.ZshQuote.{zsh_unescaped};
ghost use Rattle.cc_quote.specs.ZshReply.{is_reply_help_marked, is_reply_value_marked, zsh_replied_help, zsh_replied_value};

use crate::escape::{ByteEscape, escape_text};
use cc_base::Error;
use memchr::{memchr, memchr2};
use std::alloc::Global;

/// The escape of a value before a colon in zsh: `\` as `\\` and `:` as `\:`.
pub struct ZshReplyValue;

impl ByteEscape for ZshReplyValue {
    ghost escapes = { λ _. is_reply_value_marked };

    ghost replacement = { λ _. backslashed };

    fn replacement(&self, byte: u8) -> Option<&'static str> {
        match byte {
            b'\\' => Some("\\\\"),
            b':' => Some("\\:"),
            _ => None,
        }
    }

    fn find(&self, bytes: &[u8]) -> Option<usize> {
        memchr2(b'\\', b':', bytes)
    }
}

/// The escape of a help text after a colon in zsh: `\` as `\\`.
pub struct ZshReplyHelp;

impl ByteEscape for ZshReplyHelp {
    ghost escapes = { λ _. is_reply_help_marked };

    ghost replacement = { λ _. backslashed };

    fn replacement(&self, byte: u8) -> Option<&'static str> {
        if byte == b'\\' { Some("\\\\") } else { None }
    }

    fn find(&self, bytes: &[u8]) -> Option<usize> {
        memchr(b'\\', bytes)
    }
}

/// Escapes `value` so that it can be put before a colon: `\` as `\\` and `:` as `\:`.
///
/// # Errors
///
/// `Memory` if an allocation fails.
#[tactic(auto, using(crate::proofs::ZshReplies::value_unescaped))]
pub fn zsh_reply_value(alloc: Global, value: &str) -> Result<String, Error>
    ensures escaped { IfOk result (λ escaped. string_bytes escaped ≡ zsh_replied_value value.now) }

    // Without the backslashes that escape, the result is the value.
    ensures read_back { IfOk result
        (λ escaped. zsh_unescaped (string_bytes escaped) ≡ Some value.now) }
    ensures memory { IfErr result (λ error. error ≡ Error.Memory) }
{
    Ok(escape_text(alloc, &ZshReplyValue, value)?)
}

/// Escapes `help` so that it can be put after a colon: `\` as `\\`.
///
/// # Errors
///
/// `Memory` if an allocation fails.
#[tactic(auto, using(crate::proofs::ZshReplies::help_unescaped))]
pub fn zsh_reply_help(alloc: Global, help: &str) -> Result<String, Error>
    ensures escaped { IfOk result (λ escaped. string_bytes escaped ≡ zsh_replied_help help.now) }

    // Without the backslashes that escape, the result is the help text.
    ensures read_back { IfOk result
        (λ escaped. zsh_unescaped (string_bytes escaped) ≡ Some help.now) }
    ensures memory { IfErr result (λ error. error ≡ Error.Memory) }
{
    Ok(escape_text(alloc, &ZshReplyHelp, help)?)
}
