//! Replies to shells that quote what they insert: lines without control characters.

ghost use Rattle.std.specs.Prelude.{◌≡◌, ◌<◌, ◌+◌, IfErr, drop, length, slice_index};
ghost use Rattle.cc_base.specs.Writes.{IsWrite, Writes, as_write};
ghost use Rattle.cc_replies.specs.SafeReplies.{SafeLinesRead, SafeValuesRead, SafeZshRead};
ghost use Rattle.cc_replies.specs.SafeReplies.{begins_blank, begins_raw, is_fish_kept};
ghost use Rattle.cc_replies.specs.SafeReplies.{ends_blank, is_tilde_plain};
ghost use Rattle.cc_replies.specs.SafeReplies.{safe_line, safe_lines_reply, safe_values_reply};
ghost use Rattle.cc_replies.specs.SafeReplies.{safe_zsh_reply};
ghost use Rattle.cc_replies.specs.SafeValues.{is_found};

use crate::reply::{put_shown_line, put_zsh_item};
use crate::reply_lines::{ReplyLines, put_each};
use crate::safe::{is_in_locale, is_safe_text, safe_help};
use cc_base::{Error, Sink, put_piece, put_pieces};
use cc_candidates::CompletionCandidate;
use std::io::ErrorKind;

/// Writes the reply to Elvish: a line for each value.
///
/// Leaves out a value that is empty or has a control character.
///
/// # Errors
///
/// `Write` if the sink fails.
#[tactic(auto, using(crate::proofs::SafeReadings::values_read_back))]
pub fn write_safe_values<W: Sink>(
    sink: &mut W,
    candidates: &[CompletionCandidate],
) -> Result<(), Error>
    ensures written { Writes W.taken W.failed result sink.old sink.new
        (safe_values_reply candidates.now) }
    ensures write_only { IfErr result IsWrite }
    ensures read_back { SafeValuesRead candidates.now }
{
    Ok(put_each(sink, &SafeValues, candidates)?)
}

/// Writes the reply to fish: a line for each value, with the first line of its help text after a
/// tab.
///
/// Leaves out a value that is empty, has a control character, begins with `~` but not with `~/`, or
/// begins with a blank that is not ASCII. Leaves out the first line of a help text if it is empty
/// or has a control character.
///
/// # Errors
///
/// `Write` if the sink fails.
#[tactic(auto, using(crate::proofs::SafeReadings::lines_read_back))]
pub fn write_safe_lines<W: Sink>(
    sink: &mut W,
    candidates: &[CompletionCandidate],
) -> Result<(), Error>
    ensures written { Writes W.taken W.failed result sink.old sink.new
        (safe_lines_reply candidates.now) }
    ensures write_only { IfErr result IsWrite }
    ensures read_back { SafeLinesRead candidates.now }
{
    Ok(put_each(sink, &SafeLines, candidates)?)
}

/// Writes the reply to zsh: a line for each value, with the first line of its help text after a
/// colon.
///
/// Leaves out a value, or the first line of a help text, that is empty or has a control character.
/// Leaves out a value that has one of the characters U+E000 to U+E0FF, which zsh's line takes for
/// other bytes. Leaves out a value that is not ASCII if zsh's locale is safe for `ascii_only`.
///
/// # Errors
///
/// `Write` if the sink fails.
#[tactic(auto, using(crate::proofs::SafeReadings::zsh_read_back))]
pub fn write_safe_zsh_items<W: Sink>(
    sink: &mut W,
    ascii_only: bool,
    candidates: &[CompletionCandidate],
) -> Result<(), Error>
    ensures written { Writes W.taken W.failed result sink.old sink.new
        (safe_zsh_reply ascii_only candidates.now) }
    ensures write_only { IfErr result IsWrite }
    ensures read_back { SafeZshRead ascii_only candidates.now }
{
    Ok(put_each(sink, &SafeZshItems { ascii_only }, candidates)?)
}

// A line for each value.
#[derive(Drop)]
struct SafeValues;

impl ReplyLines for SafeValues {
    ghost use Rattle.cc_replies.specs.SafeReplies.{value_line};
    ghost use Rattle.cc_replies.specs.SafeValues.{is_safe_text};

    ghost inserts = { λ _. is_safe_text };

    ghost line = { λ _. value_line };

    fn can_insert(&self, value: &str) -> bool {
        is_safe_text(value)
    }

    fn put_line<W: Sink>(
        &self,
        sink: &mut W,
        candidate: &CompletionCandidate,
    ) -> Result<(), ErrorKind> {
        put_pieces(sink, &[candidate.get_value(), "\n"])
    }
}

// A line for each value, with its help text after a tab.
#[derive(Drop)]
struct SafeLines;

impl ReplyLines for SafeLines {
    ghost use Rattle.cc_replies.specs.SafeReplies.{is_fish_insertable, safe_line};

    ghost inserts = { λ _. is_fish_insertable };

    ghost line = { λ _. safe_line };

    fn can_insert(&self, value: &str) -> bool {
        is_safe_text(value) && is_fish_kept(value.as_bytes())
    }

    fn put_line<W: Sink>(
        &self,
        sink: &mut W,
        candidate: &CompletionCandidate,
    ) -> Result<(), ErrorKind> {
        put_safe_line(sink, candidate)
    }
}

// Returns whether fish inserts the value as it is.
fn is_fish_kept(value: &[u8]) -> bool
    ensures { result ≡ is_fish_kept value.now }
{
    is_tilde_plain(value) && !begins_blank(value)
}

// Returns whether the value begins with no `~`, or with `~/`. fish reads `~name` as the home
// directory of a user, and does not quote that `~`.
fn is_tilde_plain(value: &[u8]) -> bool
    ensures { result ≡ is_tilde_plain value.now }
{
    match value {
        [b'~', b'/', ..] => true,
        [b'~', ..] => false,
        _ => true,
    }
}

// Returns whether the value begins with a blank that is not ASCII. fish does not quote such a
// blank, and drops it at the beginning of a word.
fn begins_blank(value: &[u8]) -> bool
    ensures { result ≡ begins_blank value.now }
{
    match value {
        [0xC2, 0xA0, ..] => true,
        [0xE1, 0x9A, 0x80, ..] | [0xE2, 0x81, 0x9F, ..] | [0xE3, 0x80, 0x80, ..] => true,
        [0xE2, 0x80, last, ..] => ends_blank(*last),
        _ => false,
    }
}

// Returns whether the byte ends one of U+2000 to U+200A, U+2028, U+2029 and U+202F.
fn ends_blank(last: u8) -> bool
    ensures { result ≡ ends_blank last }
{
    matches!(last, 0x80..=0x8A | 0xA8..=0xA9 | 0xAF)
}

pub(crate) fn put_safe_line<W: Sink>(
    sink: &mut W,
    candidate: &CompletionCandidate,
) -> Result<(), ErrorKind>
    ensures { Writes W.taken W.failed (as_write result) sink.old sink.new
        (safe_line candidate.now) }
{
    put_shown_line(sink, candidate.get_value(), safe_help(candidate.get_help()))
}

// A line for each value, with its help text after a colon.
#[derive(Drop)]
struct SafeZshItems {
    ascii_only: bool,
}

impl ReplyLines for SafeZshItems {
    ghost use Rattle.cc_replies.specs.SafeReplies.{is_zsh_insertable, safe_zsh_line};

    ghost inserts = { λ items. is_zsh_insertable items.ascii_only };

    ghost line = { λ _. safe_zsh_line };

    fn can_insert(&self, value: &str) -> bool {
        is_safe_text(value) && self.keeps(value)
    }

    fn put_line<W: Sink>(
        &self,
        sink: &mut W,
        candidate: &CompletionCandidate,
    ) -> Result<(), ErrorKind> {
        put_zsh_item(sink, candidate.get_value(), safe_help(candidate.get_help()))?;
        put_piece(sink, "\n")
    }
}

impl SafeZshItems {
    ghost use Rattle.cc_replies.specs.SafeReplies.{is_zsh_kept};

    // Returns whether zsh inserts the value as it is.
    fn keeps(&self, value: &str) -> bool
        ensures { result ≡ is_zsh_kept self.now.ascii_only value.now }
    {
        is_in_locale(self.ascii_only, value) && !has_raw(value.as_bytes())
    }
}

// Returns whether the text has one of the characters U+E000 to U+E0FF.
fn has_raw(text: &[u8]) -> bool
    ensures { result ≡ is_found begins_raw text.now }
{
    for at in 0..text.len() {
        if begins_raw_at(text, at) {
            return true;
        }
    }
    false
}

fn begins_raw_at(text: &[u8], at: usize) -> bool
    requires { at < length text.now }
    ensures { result ≡ begins_raw (slice_index text.now at) (drop (at + 1) text.now) }
{
    matches!(&text[at..], [0xEE, 0x80..=0x83, ..])
}
