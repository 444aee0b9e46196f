//! Texts as fish quotes them, to be read once or twice.

ghost use Rattle.std.specs.Prelude.{◌≡◌, [], ◌++◌, codes, IfOk, IfErr, Some};
ghost use Rattle.std.specs.List.{list_all};
ghost use Rattle.std.specs.String.{string_bytes};
ghost use Rattle.cc_base.specs.Writes.{Writes, as_write};
ghost use Rattle.cc_base.specs.Bytes.{backslash, line_feed, single_quote};
ghost use Rattle.memchr.specs.Find.{is_byte3};
ghost use Rattle.cc_quote.specs.Escapes.{backslashed};
ghost use Rattle.cc_quote.specs.FishEscapes.{eval_byte, help_byte, is_eval_byte, is_help_byte};
ghost use Rattle.cc_quote.specs.FishQuote.{description_replacement, fish_escaped};
ghost use Rattle.cc_quote.specs.FishQuote.{fish_help_for_eval_of, fish_quoted};
ghost use Rattle.cc_quote.specs.FishQuote.{fish_quoted_for_eval, fish_word_of, is_fish_safe};
ghost use Rattle.cc_quote.specs.FishQuote.{is_fish_safe_word, is_single_marked, ReadsTwice};
ghost use Rattle.cc_quote.specs.QuotedWord.{line_feeds_as_spaces};

use crate::escape::{ByteEscape, escape_text, put_in_quotes, quote_text};
use cc_base::{Error, Sink, put_piece};
use memchr::{memchr2, memchr3};
use std::alloc::{AllocError, Global};
use std::io::ErrorKind;

/// The escape of a description between two `'` in fish: `\` as `\\`, `'` as `\'`, and each line
/// feed as a space.
pub struct FishEscape;

impl ByteEscape for FishEscape {
    ghost escapes = { λ _. is_byte3 backslash single_quote line_feed };

    ghost replacement = { λ _. description_replacement };

    fn replacement(&self, byte: u8) -> Option<&'static str> {
        if byte == b'\n' {
            return Some(" ");
        }
        SingleEscape.replacement(byte)
    }

    fn find(&self, bytes: &[u8]) -> Option<usize> {
        memchr3(b'\\', b'\'', b'\n', bytes)
    }
}

// The escape of a text between two `'` that is read once: `\` as `\\` and `'` as `\'`.
struct SingleEscape;

impl ByteEscape for SingleEscape {
    ghost escapes = { λ _. is_single_marked };

    ghost replacement = { λ _. backslashed };

    fn replacement(&self, byte: u8) -> Option<&'static str> {
        match byte {
            b'\\' => Some("\\\\"),
            b'\'' => Some("\\'"),
            _ => None,
        }
    }

    fn find(&self, bytes: &[u8]) -> Option<usize> {
        memchr2(b'\\', b'\'', bytes)
    }
}

// The escape of a text between two `'` that are themselves between two `"`.
struct EvalEscape;

impl ByteEscape for EvalEscape {
    ghost escapes = { λ _. is_eval_byte };

    ghost replacement = { λ _. eval_byte };

    fn replacement(&self, byte: u8) -> Option<&'static str> {
        match byte {
            b'\\' => Some("\\\\\\\\"),
            b'\'' => Some("\\\\'"),
            b'"' => Some("\\\""),
            b'$' => Some("\\$"),
            _ => None,
        }
    }
}

// The same escape, with each line feed as a space.
struct HelpEscape;

impl ByteEscape for HelpEscape {
    ghost escapes = { λ _. is_help_byte };

    ghost replacement = { λ _. help_byte };

    fn replacement(&self, byte: u8) -> Option<&'static str> {
        if byte == b'\n' {
            return Some(" ");
        }
        EvalEscape.replacement(byte)
    }
}

// Returns whether a text is not empty and consists of bytes that need no quotes.
fn is_safe_word(text: &str) -> bool
    ensures { result ≡ is_fish_safe_word text.now }
{
    !text.is_empty() && are_safe(text.as_bytes())
}

// Returns whether no byte needs quotes.
fn are_safe(bytes: &[u8]) -> bool
    ensures { result ≡ list_all is_fish_safe bytes.now }
{
    for byte in bytes {
        if !is_safe(*byte) {
            return false;
        }
    }
    true
}

// Returns whether a byte needs no quotes.
#[tactic(auto, unfolding(crate::specs::FishQuote::is_fish_safe))]
fn is_safe(byte: u8) -> bool
    ensures { result ≡ is_fish_safe byte }
{
    byte.is_ascii_alphanumeric()
        || matches!(
            byte,
            b'/' | b'_' | b'-' | b'.' | b',' | b'+' | b'=' | b':' | b'@'
        )
}

/// Quotes `text` as one word of fish. A text stays as it is if it is not empty and consists of
/// ASCII letters, digits and `/ _ - . , + = : @`. Any other text is put in `'`, with `\` as `\\`
/// and `'` as `\'`.
///
/// # Errors
///
/// `Memory` if an allocation fails.
#[tactic(auto, using(crate::proofs::FishReaders::fish_quoted_reads_back))]
pub fn fish_quote(alloc: Global, text: &str) -> Result<String, Error>
    ensures quoted { IfOk result (λ quoted. string_bytes quoted ≡ fish_quoted text.now) }

    // The result is read as the text, and nothing remains.
    ensures read_back { IfOk result
        (λ quoted. fish_word_of (string_bytes quoted) ≡ Some (text.now, [])) }
    ensures memory { IfErr result (λ error. error ≡ Error.Memory) }
{
    Ok(quote_word(alloc, text)?)
}

// Quotes a text as one word. Fails if an allocation fails.
#[tactic(auto, using(crate::proofs::FishEscaped::quoted_safe, crate::proofs::FishEscaped::quoted_unsafe))]
fn quote_word(alloc: Global, text: &str) -> Result<String, AllocError>
    ensures { IfOk result (λ quoted. string_bytes quoted ≡ fish_quoted text.now) }
{
    if is_safe_word(text) {
        return String::from_str(alloc, text);
    }
    quote_text(alloc, &SingleEscape, text)
}

/// Quotes `text` as one word of a text that stands between two `"` and is read a second time. A
/// text that [`fish_quote`] leaves as it is stays as it is. Any other text is put in `'`, with `\`
/// as `\\\\`, `'` as `\\'`, `"` as `\"` and `$` as `\$`.
///
/// # Errors
///
/// `Memory` if an allocation fails.
#[tactic(auto, using(crate::proofs::FishReaders::quoted_for_eval_reads_twice))]
pub fn fish_quote_for_eval(alloc: Global, text: &str) -> Result<String, Error>
    ensures quoted { IfOk result (λ quoted. string_bytes quoted ≡ fish_quoted_for_eval text.now) }

    // Between two `"` the result is read as a word, and that word is read as the text.
    ensures read_back { IfOk result (λ quoted. ReadsTwice (string_bytes quoted) text.now) }
    ensures memory { IfErr result (λ error. error ≡ Error.Memory) }
{
    Ok(quote_for_eval(alloc, text)?)
}

// Quotes a text as one word to be read twice. Fails if an allocation fails.
#[tactic(auto, using(crate::proofs::FishEscaped::eval_safe, crate::proofs::FishEscaped::eval_unsafe))]
fn quote_for_eval(alloc: Global, text: &str) -> Result<String, AllocError>
    ensures { IfOk result (λ quoted. string_bytes quoted ≡ fish_quoted_for_eval text.now) }
{
    if is_safe_word(text) {
        return String::from_str(alloc, text);
    }
    quote_text(alloc, &EvalEscape, text)
}

/// Quotes `help` as one word of a text that stands between two `"` and is read a second time. The
/// result is always in `'`, with the escapes of [`fish_quote_for_eval`] and each line feed as a
/// space.
///
/// # Errors
///
/// `Memory` if an allocation fails.
#[tactic(auto, using(crate::proofs::FishReaders::help_for_eval_reads_twice))]
pub fn fish_help_for_eval(alloc: Global, help: &str) -> Result<String, Error>
    ensures quoted { IfOk result (λ quoted. string_bytes quoted ≡ fish_help_for_eval_of help.now) }

    // Between two `"` the result is read as a word, and that word is read as the help text.
    ensures read_back { IfOk result
        (λ quoted. ReadsTwice (string_bytes quoted) (line_feeds_as_spaces help.now)) }
    ensures memory { IfErr result (λ error. error ≡ Error.Memory) }
{
    Ok(quoted_help(alloc, help)?)
}

// Quotes a help text to be read twice. Fails if an allocation fails.
#[tactic(auto, using(crate::proofs::FishEscaped::help_quoted))]
fn quoted_help(alloc: Global, help: &str) -> Result<String, AllocError>
    ensures { IfOk result (λ quoted. string_bytes quoted ≡ fish_help_for_eval_of help.now) }
{
    quote_text(alloc, &HelpEscape, help)
}

/// Escapes `text` so that it can be put between two `'` in fish: `\` as `\\`, `'` as `\'`, and each
/// line feed as a space.
///
/// # Errors
///
/// `Memory` if an allocation fails.
#[tactic(auto, unfolding(crate::specs::FishQuote::fish_escaped), using(crate::proofs::FishReaders::fish_escaped_reads_back))]
pub fn fish_escape(alloc: Global, text: &str) -> Result<String, Error>
    ensures escaped { IfOk result (λ escaped. string_bytes escaped ≡ fish_escaped text.now) }

    // Between two quotes the result is read as the text, and nothing remains.
    ensures read_back { IfOk result
        (λ escaped. fish_word_of (codes "'" ++ string_bytes escaped ++ codes "'")
        ≡ Some (line_feeds_as_spaces text.now, [])) }
    ensures memory { IfErr result (λ error. error ≡ Error.Memory) }
{
    Ok(escape_text(alloc, &FishEscape, text)?)
}

/// Puts `text` as [`fish_quote_for_eval`] quotes it.
///
/// # Errors
///
/// The kind of the put that failed.
#[tactic(auto, using(crate::proofs::FishEscaped::eval_safe, crate::proofs::FishEscaped::eval_unsafe))]
pub fn put_fish_quoted_for_eval<W: Sink>(sink: &mut W, text: &str) -> Result<(), ErrorKind>
    ensures { Writes W.taken W.failed (as_write result) sink.old sink.new
        (fish_quoted_for_eval text.now) }
{
    if is_safe_word(text) {
        return put_piece(sink, text);
    }
    put_in_quotes(sink, &EvalEscape, text)
}

/// Puts `help` as [`fish_help_for_eval`] quotes it.
///
/// # Errors
///
/// The kind of the put that failed.
#[tactic(auto, using(crate::proofs::FishEscaped::help_quoted))]
pub fn put_fish_help_for_eval<W: Sink>(sink: &mut W, help: &str) -> Result<(), ErrorKind>
    ensures { Writes W.taken W.failed (as_write result) sink.old sink.new
        (fish_help_for_eval_of help.now) }
{
    put_in_quotes(sink, &HelpEscape, help)
}
