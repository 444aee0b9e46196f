//! Texts that are put one after another, with a separator between them.

ghost use Rattle.std.specs.Prelude.{◌≡◌, ◌++◌, true, codes, OnOk};
ghost use Rattle.cc_base.specs.Joined.{separator};
ghost use Rattle.cc_base.specs.Writes.{Writes, as_write};

use crate::pieces::{put_piece, put_pieces};
use crate::sink::Sink;
use std::io::ErrorKind;

/// Puts the separator `between` if `begun` is true, and then sets `begun`.
///
/// # Errors
///
/// The kind of the put that failed. The contract then says nothing of `begun`.
pub fn put_separator<S: Sink>(
    sink: &mut S,
    between: &str,
    begun: &mut bool,
) -> Result<(), ErrorKind>
    ensures written { Writes S.taken S.failed (as_write result) sink.old sink.new
        (separator between.now begun.old) }
    ensures begun { OnOk result (begun.new ≡ true) }
{
    if *begun {
        return put_piece(sink, between);
    }
    *begun = true;
    Ok(())
}

/// Puts `dashes` and `name` as one word, after a space if a word was put before, as `begun` says.
/// Sets `begun`.
///
/// # Errors
///
/// The kind of the put that failed. The contract then says nothing of `begun`.
pub fn put_word<S: Sink>(
    sink: &mut S,
    dashes: &str,
    name: &str,
    begun: &mut bool,
) -> Result<(), ErrorKind>
    ensures written { Writes S.taken S.failed (as_write result) sink.old sink.new
        (separator (codes " ") begun.old ++ (dashes.now ++ name.now)) }
    ensures begun { OnOk result (begun.new ≡ true) }
{
    if *begun {
        return put_pieces(sink, &[" ", dashes, name]);
    }
    *begun = true;
    put_pieces(sink, &[dashes, name])
}
