//! The reply to bash: values as they appear in bash's line. bash inserts each of them unchanged.

ghost use Rattle.std.specs.Prelude.{◌≡◌, IfErr, not};
ghost use Rattle.std.specs.List.{list_all};
ghost use Rattle.std.specs.Option.{option_copied};
ghost use Rattle.cc_base.specs.Found.{after};
ghost use Rattle.cc_base.specs.Writes.{IsWrite, Writes, as_write};
ghost use Rattle.cc_quote.specs.Escapes.{backslashed};
ghost use Rattle.cc_replies.specs.BashWords.{BashWordsRead, bare_text, bash_text};
ghost use Rattle.cc_replies.specs.BashWords.{bash_words_reply, holds, holds_rest, is_bare_marked};
ghost use Rattle.cc_replies.specs.BashWords.{is_single_lost, start_text};

use crate::cursor::{Cursor, OpenQuote};
use crate::readable::is_without;
use crate::reply_lines::{ReplyLines, put_each};
use crate::safe::{is_in_locale, is_safe_text};
use cc_base::{Error, Sink, put_piece};
use cc_candidates::CompletionCandidate;
use cc_quote::{BashDouble, ByteEscape, put_escaped};
use std::io::ErrorKind;

/// Writes a line for each value that bash can insert at the cursor. The line contains the value
/// without the part that bash keeps, escaped for the open quote.
///
/// Leaves out a value that is empty, has a control character, does not begin with the part that
/// bash keeps, or cannot be written in the open quote: with a `'`, a `$` or a backtick after `'`,
/// with a `!` after `"`. Leaves out a value that is not ASCII if bash's locale is safe for ASCII
/// only.
///
/// # Errors
///
/// `Write` if the sink fails.
#[tactic(auto, using(crate::proofs::BashReadings::words_read_back))]
pub fn write_bash_words<W: Sink>(
    sink: &mut W,
    cursor: &Cursor,
    candidates: &[CompletionCandidate],
) -> Result<(), Error>
    ensures written { Writes W.taken W.failed result sink.old sink.new
        (bash_words_reply cursor.now candidates.now) }
    ensures write_only { IfErr result IsWrite }
    ensures read_back { BashWordsRead cursor.now candidates.now }
{
    Ok(put_each(sink, cursor, candidates)?)
}

impl ReplyLines for Cursor<'_> {
    ghost use Rattle.cc_replies.specs.BashWords.{bash_word_line, is_bash_insertable};

    ghost inserts = { is_bash_insertable };

    ghost line = { λ cursor candidate. bash_word_line cursor candidate.value };

    fn can_insert(&self, value: &str) -> bool {
        is_safe_text(value)
            && is_in_locale(self.ascii_only, value)
            && holds_rest(self.quote, rest_after(self.kept.as_str(), value))
    }

    #[tactic(auto, unfolding(crate::specs::BashWords::bash_word_line))]
    fn put_line<W: Sink>(
        &self,
        sink: &mut W,
        candidate: &CompletionCandidate,
    ) -> Result<(), ErrorKind> {
        let kept = self.kept.as_str();
        let Some(rest) = rest_after(kept, candidate.get_value()) else {
            return Ok(());
        };
        put_bash_text(sink, kept, self.quote, rest)?;
        put_piece(sink, "\n")
    }
}

fn holds_rest(quote: OpenQuote, rest: Option<&str>) -> bool
    ensures { result ≡ holds_rest quote (option_copied rest.entry) }
{
    match rest {
        Some(rest) => holds(quote, rest),
        None => false,
    }
}

fn holds(quote: OpenQuote, rest: &str) -> bool
    ensures { result ≡ holds quote rest.now }
{
    match quote {
        OpenQuote::Bare => true,
        OpenQuote::Single => is_kept_in_single(rest.as_bytes()),
        OpenQuote::Double => is_without(rest, b'!'),
    }
}

// Returns whether the text stays as it is between two `'`, also in a here-document.
fn is_kept_in_single(text: &[u8]) -> bool
    ensures { result ≡ list_all (λ byte. not (is_single_lost byte)) text.now }
{
    for byte in text {
        if matches!(*byte, b'\'' | b'$' | b'`') {
            return false;
        }
    }
    true
}

/// Returns the text after `beginning`, or `None` if the text does not begin with it.
#[tactic(auto, using(crate::proofs::Beginnings::text_stripped))]
pub(crate) fn rest_after<'a>(beginning: &str, text: &'a str) -> Option<&'a str>
    ensures { option_copied result ≡ after beginning.now text.now }
{
    text.strip_prefix(beginning)
}

/// Writes the text of a word after the part `kept`, in the open `quote`.
///
/// # Errors
///
/// The kind of the put that failed.
#[tactic(auto, unfolding(crate::specs::BashWords::bash_text))]
pub(crate) fn put_bash_text<W: Sink>(
    sink: &mut W,
    kept: &str,
    quote: OpenQuote,
    rest: &str,
) -> Result<(), ErrorKind>
    ensures { Writes W.taken W.failed (as_write result) sink.old sink.new
        (bash_text kept.now quote rest.now) }
{
    match quote {
        OpenQuote::Bare => put_bare(sink, kept, rest),
        OpenQuote::Single => put_piece(sink, rest),
        OpenQuote::Double => put_escaped(sink, &BashDouble, rest),
    }
}

#[tactic(auto, unfolding(crate::specs::BashWords::bare_text))]
fn put_bare<W: Sink>(sink: &mut W, kept: &str, rest: &str) -> Result<(), ErrorKind>
    ensures { Writes W.taken W.failed (as_write result) sink.old sink.new
        (bare_text kept.now rest.now) }
{
    if kept.is_empty() {
        return put_word_start(sink, rest);
    }
    put_escaped(sink, &BashBare, rest)
}

// Writes a word from its start, where bash reads `~/` as the home directory.
#[tactic(auto, using(cc_base::proofs::WrittenTexts::after_bytes), unfolding(crate::specs::BashWords::start_text))]
fn put_word_start<W: Sink>(sink: &mut W, word: &str) -> Result<(), ErrorKind>
    ensures { Writes W.taken W.failed (as_write result) sink.old sink.new
        (start_text word.now) }
{
    let Some(below) = rest_after("~/", word) else {
        return put_escaped(sink, &BashBare, word);
    };
    put_piece(sink, "~/")?;
    put_escaped(sink, &BashBare, below)
}

/// Puts a backslash before each byte that bash does not read as itself in a bare word. Control
/// characters get none, because no value has them here.
pub(crate) struct BashBare;

impl ByteEscape for BashBare {
    ghost escapes = { λ _. is_bare_marked };

    ghost replacement = { λ _. backslashed };

    fn replacement(&self, byte: u8) -> Option<&'static str> {
        match byte {
            b' ' => Some("\\ "),
            b'!' => Some("\\!"),
            b'"' => Some("\\\""),
            b'#' => Some("\\#"),
            b'$' => Some("\\$"),
            b'&' => Some("\\&"),
            b'\'' => Some("\\'"),
            b'(' => Some("\\("),
            b')' => Some("\\)"),
            b'*' => Some("\\*"),
            b';' => Some("\\;"),
            b'<' => Some("\\<"),
            b'>' => Some("\\>"),
            b'?' => Some("\\?"),
            b'[' => Some("\\["),
            b'\\' => Some("\\\\"),
            b']' => Some("\\]"),
            b'^' => Some("\\^"),
            b'`' => Some("\\`"),
            b'{' => Some("\\{"),
            b'|' => Some("\\|"),
            b'}' => Some("\\}"),
            b'~' => Some("\\~"),
            _ => None,
        }
    }
}
