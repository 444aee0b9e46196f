//! The reply to PowerShell: the word to insert and the entry to list. PowerShell inserts the word
//! unchanged.

ghost use Rattle.std.specs.Prelude.{◌≡◌, ◌<◌, ◌+◌, ◌++◌, IfErr, codes, drop, length, slice_index};
ghost use Rattle.std.specs.List.{list_all, list_any};
ghost use Rattle.cc_base.specs.Writes.{IsWrite, Writes, as_write};
ghost use Rattle.cc_quote.specs.PowershellQuote.{powershell_escaped};
ghost use Rattle.cc_replies.specs.PowershellWords.{PowershellWordsRead, begins_other_quote};
ghost use Rattle.cc_replies.specs.PowershellWords.{is_powershell_bare, is_powershell_byte};
ghost use Rattle.cc_replies.specs.PowershellWords.{is_received, is_split_parameter, is_splitting};
ghost use Rattle.cc_replies.specs.PowershellWords.{powershell_word, powershell_words_reply};
ghost use Rattle.cc_replies.specs.SafeValues.{is_found};

use crate::readable::is_without;
use crate::reply_lines::{ReplyLines, put_each};
use crate::safe::is_safe_text;
use crate::safe_replies::put_safe_line;
use cc_base::{Error, Sink, put_piece};
use cc_candidates::CompletionCandidate;
use cc_quote::{PowershellEscape, put_in_quotes};
use std::io::ErrorKind;

/// Writes a line for each value that PowerShell can insert: the word to insert, a tab and the
/// value. If the first line of the help text is not empty and has no control character, a second
/// tab and that line follow.
///
/// Leaves out a value that is empty, has a control character, or contains U+2018, U+201A or U+201B,
/// which PowerShell treats as quotes. Leaves out `--%`, and a value with a `"` unless PowerShell
/// `passes_quotes` to programs.
///
/// # Errors
///
/// `Write` if the sink fails.
#[tactic(auto, using(crate::proofs::PowershellReadings::words_read_back))]
pub fn write_powershell_words<W: Sink>(
    sink: &mut W,
    passes_quotes: bool,
    candidates: &[CompletionCandidate],
) -> Result<(), Error>
    ensures written { Writes W.taken W.failed result sink.old sink.new
        (powershell_words_reply passes_quotes candidates.now) }
    ensures write_only { IfErr result IsWrite }
    ensures read_back { PowershellWordsRead passes_quotes candidates.now }
{
    Ok(put_each(sink, &PowershellWords { passes_quotes }, candidates)?)
}

#[derive(Drop)]
struct PowershellWords {
    passes_quotes: bool,
}

impl ReplyLines for PowershellWords {
    ghost use Rattle.cc_replies.specs.PowershellWords.{is_powershell_insertable, powershell_line};
    ghost use Rattle.cc_replies.specs.SafeValues.{safe_shown};

    ghost inserts = { λ words. is_powershell_insertable words.passes_quotes };

    ghost line = { λ _ candidate. powershell_line (safe_shown candidate) };

    fn can_insert(&self, value: &str) -> bool {
        is_safe_text(value)
            && !has_other_quote(value.as_bytes())
            && is_received(self.passes_quotes, value)
    }

    #[tactic(auto, unfolding(crate::specs::PowershellWords::powershell_line))]
    fn put_line<W: Sink>(
        &self,
        sink: &mut W,
        candidate: &CompletionCandidate,
    ) -> Result<(), ErrorKind> {
        put_powershell_word(sink, candidate.get_value())?;
        put_piece(sink, "\t")?;
        put_safe_line(sink, candidate)
    }
}

#[tactic(auto, unfolding(crate::specs::PowershellWords::powershell_word))]
fn put_powershell_word<W: Sink>(sink: &mut W, value: &str) -> Result<(), ErrorKind>
    ensures { Writes W.taken W.failed (as_write result) sink.old sink.new
        (powershell_word value.now) }
{
    if is_powershell_bare(value.as_bytes()) {
        return put_piece(sink, value);
    }
    put_quoted(sink, value)
}

// Writes a value between two `'`.
fn put_quoted<W: Sink>(sink: &mut W, value: &str) -> Result<(), ErrorKind>
    ensures { Writes W.taken W.failed (as_write result) sink.old sink.new
        (codes "'" ++ powershell_escaped value.now ++ codes "'") }
{
    put_in_quotes(sink, &PowershellEscape, value)
}

// Returns whether programs receive the value as it is.
fn is_received(passes_quotes: bool, value: &str) -> bool
    ensures { result ≡ is_received passes_quotes value.now }
{
    value != "--%" && (passes_quotes || is_without(value, b'"'))
}

fn has_other_quote(text: &[u8]) -> bool
    ensures { result ≡ is_found begins_other_quote text.now }
{
    for at in 0..text.len() {
        if begins_other_quote_at(text, at) {
            return true;
        }
    }
    false
}

// Returns whether U+2018, U+201A or U+201B begins at the index.
fn begins_other_quote_at(text: &[u8], at: usize) -> bool
    requires { at < length text.now }
    ensures { result ≡ begins_other_quote (slice_index text.now at) (drop (at + 1) text.now) }
{
    matches!(&text[at..], [0xE2, 0x80, 0x98 | 0x9A | 0x9B, ..])
}

fn is_powershell_bare(value: &[u8]) -> bool
    ensures { result ≡ is_powershell_bare value.now }
{
    !value.is_empty() && are_powershell_bytes(value) && !is_split_parameter(value)
}

fn are_powershell_bytes(bytes: &[u8]) -> bool
    ensures { result ≡ list_all is_powershell_byte bytes.now }
{
    for byte in bytes {
        if !is_powershell_byte(*byte) {
            return false;
        }
    }
    true
}

fn is_powershell_byte(byte: u8) -> bool
    ensures { result ≡ is_powershell_byte byte }
{
    byte.is_ascii_alphanumeric() || matches!(byte, b'_' | b'-' | b'/' | b'=' | b':' | b'+' | b'.')
}

// Returns whether PowerShell takes the word for a parameter with its argument.
fn is_split_parameter(word: &[u8]) -> bool
    ensures { result ≡ is_split_parameter word.now }
{
    match word {
        [b'-', rest @ ..] => has_splitting(rest),
        _ => false,
    }
}

// Returns whether one of the bytes ends the name of a parameter.
fn has_splitting(bytes: &[u8]) -> bool
    ensures { result ≡ list_any is_splitting bytes.now }
{
    for byte in bytes {
        if matches!(*byte, b'.' | b':') {
            return true;
        }
    }
    false
}
