//! The two sinks that a program writes to.

ghost use Rattle.std.specs.Prelude.{◌≡◌};
ghost use Rattle.cc_program.specs.Messages.{Puts, is_asked_for};
ghost use Rattle.cc_base.specs.Writes.{as_write};

use cc_base::{Sink, put_piece};
use clap::error::ErrorKind;
use std::{io, str};

/// The standard output and the standard error of a program, or what stands in for them.
#[derive(Drop)]
pub struct Streams<O, X> {
    /// Takes replies, registrations, help texts and the version.
    pub out: O,
    /// Takes messages about mistakes.
    pub err: X,
}

// Writes the text of a message of this kind: a help text or the version to `out`, any other to
// `err`.
pub(crate) fn put_message<O: Sink, X: Sink>(
    text: &str,
    kind: ErrorKind,
    streams: &mut Streams<O, X>,
) -> Result<(), io::ErrorKind>
    ensures { Puts O.Sink X.Sink (is_asked_for kind) (as_write result) streams.old streams.new
        text.now }
{
    if is_asked_for(kind) {
        put_piece(&mut streams.out, text)
    } else {
        put_piece(&mut streams.err, text)
    }
}

// Returns whether the words ask for the message: it is a help text or the version.
pub(crate) fn is_asked_for(kind: ErrorKind) -> bool
    ensures { result ≡ is_asked_for kind }
{
    matches!(kind, ErrorKind::DisplayHelp | ErrorKind::DisplayVersion)
}

// The standard error, as a writer.
#[derive(Drop)]
pub(crate) struct ErrorWriter<'r, R> {
    pub(crate) to: &'r R,
}

impl<R: Eprint> io::Write for ErrorWriter<'_, R> {
    fn write(&mut self, buf: &[u8]) -> io::Result<usize> {
        match str::from_utf8(buf) {
            Ok(text) => {
                self.to.eprint(text)?;
                Ok(buf.len())
            }
            Err(_) => Err(io::Error::from(io::ErrorKind::InvalidData)),
        }
    }

    fn flush(&mut self) -> io::Result<()> {
        Ok(())
    }
}
