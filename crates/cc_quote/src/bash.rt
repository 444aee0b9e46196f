//! Texts between two `"` in bash.

ghost use Rattle.std.specs.Prelude.{◌≡◌, [], ◌++◌, codes, IfOk, IfErr, Some};
ghost use Rattle.std.specs.String.{string_bytes};
ghost use Rattle.cc_quote.specs.BashDouble.{bash_double_of, bash_doubled, is_double_marked};
ghost use Rattle.cc_quote.specs.Escapes.{backslashed};
ghost use Rattle.cc_quote.specs.QuotedWord.{contents};

use crate::escape::{ByteEscape, escape_text};
use crate::posix::QuoteState;
use crate::word_state::read_word;
use cc_base::Error;
use std::alloc::Global;

/// The escape of a text between two `"` in bash: a backslash before `\`, `"`, `$` and a backtick.
pub struct BashDouble;

impl ByteEscape for BashDouble {
    ghost escapes = { λ _. is_double_marked };

    ghost replacement = { λ _. backslashed };

    fn replacement(&self, byte: u8) -> Option<&'static str> {
        match byte {
            b'\\' => Some("\\\\"),
            b'"' => Some("\\\""),
            b'$' => Some("\\$"),
            b'`' => Some("\\`"),
            _ => None,
        }
    }
}

/// Escapes `text` so that it can be put between two `"` in bash: a backslash before `\`, `"`, `$`
/// and a backtick.
///
/// # Errors
///
/// `Memory` if an allocation fails.
#[tactic(auto, using(crate::proofs::BashDoubles::doubled_reads_back))]
pub fn bash_double(alloc: Global, text: &str) -> Result<String, Error>
    ensures escaped { IfOk result (λ escaped. string_bytes escaped ≡ bash_doubled text.now) }

    // Between two `"` the result is read as the text, and nothing remains.
    ensures read_back { IfOk result
        (λ escaped. bash_double_of (codes "\"" ++ string_bytes escaped ++ codes "\"")
        ≡ Some (text.now, [])) }
    ensures memory { IfErr result (λ error. error ≡ Error.Memory) }
{
    Ok(escape_text(alloc, &BashDouble, text)?)
}

/// Reads a `text` that begins with `"` up to the `"` that closes it, as `posix_word` reads that
/// part. Returns what it spells, and the remaining text. Returns `None` if the text does not
/// begin with `"`, or does not close it.
///
/// # Errors
///
/// `Memory` if an allocation fails.
pub fn bash_double_word(alloc: Global, text: &str) -> Result<Option<(String, &str)>, Error>
    ensures double { IfOk result (λ read. contents read ≡ bash_double_of text.now) }
    ensures memory { IfErr result (λ error. error ≡ Error.Memory) }
{
    match text.strip_prefix('"') {
        Some(inside) => Ok(read_word(alloc, QuoteState::InDouble, true, inside)?),
        None => Ok(None),
    }
}
