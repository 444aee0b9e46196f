//! The columns of a list: what remains of them after a text, and texts that are cut to them. Each
//! character takes one.

ghost use Rattle.std.specs.Prelude.{◌≡◌, ◌==◌, ◌-◌, [], ◌∷◌, length, nat_le, take};
ghost use Rattle.std.specs.Fmt.{char_count, is_char_start, take_chars};
ghost use Rattle.std.specs.Str.{IsCharBoundary};
ghost use Rattle.cc_base.specs.Writes.{Writes, as_write};
ghost use Rattle.cc_quote.specs.Escapes.{escaped_byte, escaped_by};
ghost use Rattle.cc_replies.specs.BashList.{cut_description};
ghost use Rattle.cc_replies.specs.BashWords.{bare_text, bash_text, start_text};

use crate::bash_words::{BashBare, rest_after};
use crate::cursor::OpenQuote;
use cc_base::{Sink, put_piece, put_pieces};
use cc_quote::{BashDouble, ByteEscape};
use std::io::ErrorKind;

// Each of these functions returns how many of `left` columns remain after a text.

#[tactic(auto, unfolding(crate::specs::BashWords::bash_text))]
pub(crate) fn left_after_text(left: usize, quote: OpenQuote, kept: &str, rest: &str) -> usize
    ensures { result ≡ left - char_count (bash_text kept.now quote rest.now) }
{
    match quote {
        OpenQuote::Bare => left_after_bare(left, kept, rest),
        OpenQuote::Single => left_after(left, rest),
        OpenQuote::Double => left_after_escaped(left, &BashDouble, rest),
    }
}

#[tactic(auto, unfolding(crate::specs::BashWords::bare_text))]
fn left_after_bare(left: usize, kept: &str, rest: &str) -> usize
    ensures { result ≡ left - char_count (bare_text kept.now rest.now) }
{
    if kept.is_empty() {
        return left_after_start(left, rest);
    }
    left_after_escaped(left, &BashBare, rest)
}

#[tactic(auto, unfolding(crate::specs::BashWords::start_text))]
fn left_after_start(left: usize, word: &str) -> usize
    ensures { result ≡ left - char_count (start_text word.now) }
{
    let Some(below) = rest_after("~/", word) else {
        return left_after_escaped(left, &BashBare, word);
    };
    left_after_escaped(left_after(left, "~/"), &BashBare, below)
}

fn left_after_escaped<E: ByteEscape>(left: usize, escape: &E, text: &str) -> usize
    ensures { result ≡ left
        - char_count (escaped_by (E.escapes escape.now) (E.replacement escape.now) text.now) }
{
    let mut remaining = left;
    for byte in text.as_bytes() {
        remaining = left_after_byte(remaining, escape, *byte);
    }
    remaining
}

fn left_after_byte<E: ByteEscape>(left: usize, escape: &E, byte: u8) -> usize
    ensures { result ≡ left
        - char_count (escaped_byte (E.escapes escape.now) (E.replacement escape.now) byte) }
{
    match escape.replacement(byte) {
        Some(replacement) => left_after(left, replacement),
        None => left.saturating_sub(starts(byte)),
    }
}

pub(crate) fn left_after(left: usize, text: &str) -> usize
    ensures { result ≡ left - char_count text.now }
{
    let mut remaining = left;
    for byte in text.as_bytes() {
        remaining = remaining.saturating_sub(starts(*byte));
    }
    remaining
}

// Returns 1 if a character begins with the byte.
fn starts(byte: u8) -> usize
    ensures { result ≡ char_count (byte ∷ []) }
{
    if is_char_start(byte) { 1 } else { 0 }
}

fn is_char_start(byte: u8) -> bool
    ensures { result ≡ is_char_start byte }
{
    byte < 0x80 || byte >= 0xC0
}

// Writes a description, cut to the room.
pub(crate) fn put_cut<W: Sink>(sink: &mut W, room: usize, text: &str) -> Result<(), ErrorKind>
    ensures { Writes W.taken W.failed (as_write result) sink.old sink.new
        (cut_description room text.now) }
{
    if end_of(text, room) == text.len() {
        return put_piece(sink, text);
    }
    let cut = &text[..end_of(text, room.saturating_sub(2))];
    put_pieces(sink, &[cut, ".."])
}

// Returns the index where the first `count` characters of the text end.
fn end_of(text: &str, count: usize) -> usize
    ensures value { take result text.now ≡ take_chars count text.now }
    ensures boundary { IsCharBoundary text.now result }
    ensures whole { (result == length text.now) ≡ nat_le (char_count text.now) count }
{
    let bytes = text.as_bytes();
    let mut left = count;
    for at in 0..bytes.len() {
        if is_char_start(bytes[at]) {
            if left == 0 {
                return at;
            }
            left -= 1;
        }
    }
    bytes.len()
}
