//! A sink over a writer of the standard library.

ghost use Rattle.std.specs.Prelude.{◌≡◌, ◌≤◌, [], ◌++◌, take, length, IfOk, IfErr, OnErr};
ghost use Rattle.std.specs.Io.KnownBytes.{Keeps, WriteAppends};
ghost use Rattle.cc_base.specs.Sink.{after_put, none_failed};
ghost use Rattle.cc_base.specs.Writes.{CountsWrite, IsWrite};
ghost use Rattle.cc_base.specs.Counted.{counted_writer, counted_bytes, counted_failures};

use crate::error::Error;
use crate::failures::Failures;
use crate::history::History;
use crate::sink::Sink;
use std::io::{self, ErrorKind};

/// A sink that passes bytes on to any writer and counts the failures. Each put is one `write`. An
/// interrupted `write` counts as a failure like any other.
///
/// The list of the bytes taken exists only for proofs and has no size. The short body of `put` and
/// a test show that the bytes reach the writer. A contract shows it for a writer whose own contract
/// names the bytes that it holds: for such a writer use [`Held`](crate::Held).
#[derive(Drop)]
pub struct Counted<W> {
    writer: W,
    failures: Failures,
    history: History,
}

impl<W> Counted<W> {
    /// Returns a sink over `writer` that has taken nothing and has not failed.
    pub fn new(writer: W) -> Counted<W>
        ensures writer { counted_writer result ≡ writer }
        ensures bytes { counted_bytes result ≡ [] }
        ensures failures { counted_failures result ≡ none_failed }
    {
        Counted {
            writer,
            failures: Failures::none(),
            history: History::new(),
        }
    }

    /// Returns the writer.
    pub fn get_ref(&self) -> &W
        ensures { result.now ≡ counted_writer self.now }
    {
        &self.writer
    }

    /// Returns the writer without flushing it.
    pub fn into_inner(self) -> W
        ensures { result ≡ counted_writer self }
    {
        self.writer
    }
}

impl<W: io::Write> Counted<W> {
    /// Flushes the writer, once. A failed flush counts as a failed write.
    ///
    /// # Errors
    ///
    /// `Write` with the kind of the writer's error.
    pub fn flush(&mut self) -> Result<(), Error>
        ensures bytes { counted_bytes self.new ≡ counted_bytes self.old }
        ensures failures { CountsWrite result
            (counted_failures self.old) (counted_failures self.new) }
        ensures write_only { IfErr result IsWrite }
        ensures kept { Keeps (W.contents (counted_writer self.old))
            (W.contents (counted_writer self.new)) }
    {
        match self.writer.flush() {
            Ok(()) => Ok(()),
            Err(error) => {
                self.failures.raise(error.kind());
                Err(Error::Write(error.kind()))
            }
        }
    }
}

impl<W: io::Write> Sink for Counted<W> {
    ghost taken = { counted_bytes };

    ghost failed = { counted_failures };

    #[inline(always)]
    fn put(&mut self, bytes: &[u8]) -> Result<usize, ErrorKind>
        ensures within { IfOk result (λ count. count ≤ length bytes.now) }
        ensures ok { IfOk result
            (λ count. counted_bytes self.new ≡ counted_bytes self.old ++ take count bytes.now) }
        ensures err { OnErr result (counted_bytes self.new ≡ counted_bytes self.old) }
        ensures failures { counted_failures self.new
            ≡ after_put result bytes.now (counted_failures self.old) }
        ensures passed_on { WriteAppends (W.contents (counted_writer self.old))
            (W.contents (counted_writer self.new)) result bytes.now }
    {
        match self.writer.write(bytes) {
            Ok(count) => {
                if count == 0 && !bytes.is_empty() {
                    self.failures.raise(ErrorKind::WriteZero);
                }
                self.history.append(&bytes[..count]);
                Ok(count)
            }
            Err(error) => {
                let kind = error.kind();
                self.failures.raise(kind);
                Err(kind)
            }
        }
    }

    fn failures(&self) -> u64 {
        self.failures.count()
    }
}
