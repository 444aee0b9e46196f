//! Names in a registration.

ghost use Rattle.std.specs.Prelude.{◌≡◌, ◌++◌, map};
ghost use Rattle.cc_base.specs.Writes.{Writes, as_write};
ghost use Rattle.cc_registrations.specs.Names.{identifier, identifier_byte, identifier_front};
ghost use Rattle.cc_registrations.specs.Names.{underscored};

use cc_base::{Error, Sink, put_all, put_text};
use cc_quote::{Replace, put_escaped};
use std::io::ErrorKind;

/// Writes `name` with `_` for each `-`.
pub(crate) fn put_underscored<W: Sink>(sink: &mut W, name: &str) -> Result<(), ErrorKind>
    ensures { Writes W.taken W.failed (as_write result) sink.old sink.new (underscored name.now) }
{
    let escape = Replace {
        byte: b'-',
        by: "_",
    };
    put_escaped(sink, &escape, name)
}

/// Writes `text` as an identifier, with `_` for each byte that is not an ASCII letter, a digit or
/// `_`, and before a digit at the start. An empty text becomes `_`.
pub(crate) fn put_identifier<W: Sink>(sink: &mut W, text: &str) -> Result<(), Error>
    ensures { Writes W.taken W.failed result sink.old sink.new (identifier text.now) }
{
    put_text(sink, identifier_front(text))?;
    put_identifier_bytes(sink, text)
}

// Writes the byte of an identifier for each byte of `text`.
#[tactic(auto, using(crate::proofs::InLoops::in_bytes))]
fn put_identifier_bytes<W: Sink>(sink: &mut W, text: &str) -> Result<(), Error>
    ensures { Writes W.taken W.failed result sink.old sink.new (map identifier_byte text.now) }
{
    for byte in text.as_bytes() {
        put_all(sink, &[identifier_byte(*byte)])?;
    }
    Ok(())
}

/// Writes `before`, then `text` as an identifier.
pub(crate) fn put_identifier_after<W: Sink>(
    sink: &mut W,
    before: &str,
    text: &str,
) -> Result<(), Error>
    ensures { Writes W.taken W.failed result sink.old sink.new (before.now ++ identifier text.now) }
{
    put_text(sink, before)?;
    put_identifier(sink, text)
}

// Returns `_` if `text` is empty or begins with a digit, and otherwise no text.
#[tactic(auto, unfolding(crate::specs::Names::identifier_front))]
fn identifier_front(text: &str) -> &'static str
    ensures { result.now ≡ identifier_front text.now }
{
    match text.as_bytes() {
        [] => "_",
        [byte, ..] if byte.is_ascii_digit() => "_",
        _ => "",
    }
}

// Returns the byte, or `_` if it may not occur in an identifier.
#[tactic(auto, unfolding(crate::specs::Names::identifier_byte, crate::specs::Names::is_identifier_byte))]
fn identifier_byte(byte: u8) -> u8
    ensures { result ≡ identifier_byte byte }
{
    if byte.is_ascii_alphanumeric() || byte == b'_' {
        byte
    } else {
        b'_'
    }
}
