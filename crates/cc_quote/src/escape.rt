//! Escapes that work in runs: characters that need no escape are passed on unchanged, up to the
//! next one that does.

ghost use Rattle.std.specs.Prelude.{◌≡◌, ◌<◌, ◌++◌, ℕ, List, Bool, codes};
ghost use Rattle.std.specs.Prelude.{IfOk, IsSome, OnOk, MatchOption};
ghost use Rattle.std.specs.Option.{option_copied};
ghost use Rattle.std.specs.String.{string_bytes};
ghost use Rattle.cc_base.specs.Writes.{Writes, as_write};
ghost use Rattle.cc_quote.specs.Escapes.{IsFirstEscape, escaped_by, replacement_by};
ghost use Rattle.memchr.specs.Find.{IsFirstByte, is_byte};

use cc_base::{Sink, put_piece};
use memchr::memchr;
use std::alloc::{AllocError, Global};
use std::io::ErrorKind;

/// The way in which a shell escapes a text within quotes.
pub trait Escape {
    // the escaped text
    ghost escaped: { Self → List ℕ → List ℕ };

    /// Finds the first character of `text` that is escaped. Returns the run before it, its
    /// replacement, and the text after it. Returns `None` if no character is escaped.
    fn split<'a>(&self, text: &'a str) -> Option<(&'a str, &'static str, &'a str)>
        ensures { MatchOption result (escaped self.now text.now ≡ text.now)
            (λ cut. IsFirstEscape (escaped self.now) text.now cut.0.now cut.1.now cut.2.now) };
}

/// An escape that replaces some ASCII bytes, each by a text.
pub trait ByteEscape {
    // whether a byte is escaped, and the replacement of one that is
    ghost escapes: { Self → ℕ → Bool };

    ghost replacement: { Self → ℕ → List ℕ };

    /// Returns the replacement of `byte`, or `None` if it is not escaped.
    fn replacement(&self, byte: u8) -> Option<&'static str>
        ensures text { option_copied result
            ≡ replacement_by (escapes self.now) (replacement self.now) byte }
        ensures ascii { IsSome result → byte < 128 };

    /// Returns the index of the first of the `bytes` that is escaped, or `None` without one.
    fn find(&self, bytes: &[u8]) -> Option<usize>
        ensures { IsFirstByte (escapes self.now) bytes.now result }
    {
        for at in 0..bytes.len() {
            if self.replacement(bytes[at]).is_some() {
                return Some(at);
            }
        }
        None
    }
}

impl<E: ByteEscape> Escape for E {
    ghost escaped = { λ escape text. escaped_by (E.escapes escape) (E.replacement escape) text };

    #[inline(always)]
    fn split<'a>(&self, text: &'a str) -> Option<(&'a str, &'static str, &'a str)> {
        let bytes = text.as_bytes();
        let at = self.find(bytes)?;
        let replacement = self.replacement(bytes[at])?;
        Some((&text[..at], replacement, &text[at + 1..]))
    }
}

/// An escape that replaces one ASCII byte by a text.
#[derive(Clone, Copy)]
pub struct Replace {
    /// The byte to replace.
    pub byte: u8,
    /// Its replacement.
    pub by: &'static str,
    ghost ascii: { byte < 128 },
}

impl ByteEscape for Replace {
    ghost escapes = { λ escape. is_byte escape.byte };

    ghost replacement = { λ escape _. escape.by.now };

    fn replacement(&self, byte: u8) -> Option<&'static str> {
        if byte == self.byte {
            Some(self.by)
        } else {
            None
        }
    }

    fn find(&self, bytes: &[u8]) -> Option<usize> {
        memchr(self.byte, bytes)
    }
}

/// Puts the escaped `text`, without allocating.
///
/// # Errors
///
/// The kind of the put that failed.
#[tactic(auto, using(cc_base::proofs::WrittenTexts::to_the_end))]
pub fn put_escaped<E: Escape, S: Sink>(
    sink: &mut S,
    escape: &E,
    text: &str,
) -> Result<(), ErrorKind>
    ensures { Writes S.taken S.failed (as_write result) sink.old sink.new
        (E.escaped escape.now text.now) }
{
    let mut rest = text;
    while let Some((run, replacement, next)) = escape.split(rest) {
        put_piece(sink, run)?;
        put_piece(sink, replacement)?;
        rest = next;
    }
    put_piece(sink, rest)
}

/// Puts the escaped `text` between two `'`.
///
/// # Errors
///
/// The kind of the put that failed.
#[tactic(auto, using(cc_base::proofs::WrittenTexts::after_bytes))]
pub fn put_in_quotes<E: Escape, S: Sink>(
    sink: &mut S,
    escape: &E,
    text: &str,
) -> Result<(), ErrorKind>
    ensures { Writes S.taken S.failed (as_write result) sink.old sink.new
        (codes "'" ++ E.escaped escape.now text.now ++ codes "'") }
{
    put_piece(sink, "'")?;
    put_escaped(sink, escape, text)?;
    put_piece(sink, "'")
}

/// Appends the escaped `text` to `made`.
///
/// # Errors
///
/// `AllocError` if an allocation fails.
pub fn push_escaped<E: Escape>(escape: &E, text: &str, made: &mut String) -> Result<(), AllocError>
    ensures { OnOk result
        (string_bytes made.new ≡ string_bytes made.old ++ E.escaped escape.now text.now) }
{
    let mut rest = text;
    while let Some((run, replacement, next)) = escape.split(rest) {
        made.push_str(run)?;
        made.push_str(replacement)?;
        rest = next;
    }
    made.push_str(rest)
}

/// Returns the escaped `text` between two `'`.
///
/// # Errors
///
/// `AllocError` if an allocation fails.
pub(crate) fn quote_text<E: Escape>(
    alloc: Global,
    escape: &E,
    text: &str,
) -> Result<String, AllocError>
    ensures { IfOk result (λ quoted.
        string_bytes quoted ≡ codes "'" ++ E.escaped escape.now text.now ++ codes "'") }
{
    let mut quoted = String::from_str(alloc, "'")?;
    push_escaped(escape, text, &mut quoted)?;
    quoted.push_str("'")?;
    Ok(quoted)
}

/// Returns the escaped `text`.
///
/// # Errors
///
/// `AllocError` if an allocation fails.
pub fn escape_text<E: Escape>(alloc: Global, escape: &E, text: &str) -> Result<String, AllocError>
    ensures { IfOk result (λ made. string_bytes made ≡ E.escaped escape.now text.now) }
{
    let mut made = String::with_capacity(alloc, text.len())?;
    push_escaped(escape, text, &mut made)?;
    made.shrink_to_fit();
    Ok(made)
}
