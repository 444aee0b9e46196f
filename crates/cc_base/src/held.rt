//! A sink over a writer whose contract names the bytes that it holds.

ghost use Rattle.std.specs.Prelude.{◌≡◌, ◌≤◌, ◌++◌, take, length, Some, IfOk, IfErr, OnErr};
ghost use Rattle.cc_base.specs.Sink.{after_put, none_failed};
ghost use Rattle.cc_base.specs.Writes.{CountsWrite, IsWrite};
ghost use Rattle.cc_base.specs.Counted.{counted_writer};
ghost use Rattle.cc_base.specs.Told.{Tells, told};

use crate::counted::Counted;
use crate::error::Error;
use crate::sink::Sink;
use std::io::{self, ErrorKind};

/// A sink over a writer whose contract names the bytes that it holds, such as a `Vec` or a
/// `BufWriter` over one. The bytes taken are all bytes that the writer holds, including those that
/// it held before.
#[derive(Drop)]
pub struct Held<W: io::Write> {
    sink: Counted<W>,
    ghost tells: { Tells (W.contents (counted_writer sink)) },
}

impl<W: io::Write> Held<W> {
    ghost use Rattle.cc_base.specs.Held.{held_bytes, held_failures, held_writer};

    /// Returns a sink over `writer` that has not failed.
    pub fn new(writer: W) -> Held<W>
        requires { Tells (W.contents writer) }
        ensures writer { held_writer result ≡ writer }
        ensures bytes { held_bytes W.contents result ≡ told (W.contents writer) }
        ensures failures { held_failures result ≡ none_failed }
    {
        Held {
            sink: Counted::new(writer),
        }
    }

    /// Returns the writer. It is known what it holds: the bytes of this sink.
    pub fn get_ref(&self) -> &W
        ensures writer { result.now ≡ held_writer self.now }
        ensures bytes { W.contents result.now ≡ Some (held_bytes W.contents self.now) }
    {
        self.sink.get_ref()
    }

    /// Returns the writer without flushing it.
    pub fn into_inner(self) -> W
        ensures writer { result ≡ held_writer self }
        ensures bytes { W.contents result ≡ Some (held_bytes W.contents self) }
    {
        self.sink.into_inner()
    }

    /// Flushes the writer, as [`Counted::flush`] does.
    ///
    /// # Errors
    ///
    /// `Write` with the kind of the writer's error.
    pub fn flush(&mut self) -> Result<(), Error>
        ensures bytes { held_bytes W.contents self.new ≡ held_bytes W.contents self.old }
        ensures failures { CountsWrite result (held_failures self.old) (held_failures self.new) }
        ensures write_only { IfErr result IsWrite }
    {
        self.sink.flush()
    }
}

impl<W: io::Write> Sink for Held<W> {
    ghost use Rattle.cc_base.specs.Held.{held_bytes, held_failures};

    ghost taken = { held_bytes W.contents };

    ghost failed = { held_failures };

    #[inline(always)]
    fn put(&mut self, bytes: &[u8]) -> Result<usize, ErrorKind>
        ensures within { IfOk result (λ count. count ≤ length bytes.now) }
        ensures ok { IfOk result (λ count. held_bytes W.contents self.new
            ≡ held_bytes W.contents self.old ++ take count bytes.now) }
        ensures err { OnErr result
            (held_bytes W.contents self.new ≡ held_bytes W.contents self.old) }
        ensures failures { held_failures self.new
            ≡ after_put result bytes.now (held_failures self.old) }
    {
        self.sink.put(bytes)
    }

    fn failures(&self) -> u64 {
        self.sink.failures()
    }
}
