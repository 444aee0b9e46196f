//! Escaped texts.

ghost use Rattle.std.specs.Prelude.{◌++◌};
ghost use Rattle.cc_base.specs.Writes.{Writes, as_write};

use cc_base::{Sink, put_piece};
use cc_quote::{Escape, put_escaped};
use std::io::ErrorKind;

/// Puts the escaped `text` between two texts that need no escape.
pub(crate) fn put_escaped_between<E: Escape, W: Sink>(
    sink: &mut W,
    before: &str,
    escape: &E,
    text: &str,
    after: &str,
) -> Result<(), ErrorKind>
    ensures { Writes W.taken W.failed (as_write result) sink.old sink.new
        (before.now ++ E.escaped escape.now text.now ++ after.now) }
{
    put_piece(sink, before)?;
    put_escaped(sink, escape, text)?;
    put_piece(sink, after)
}
