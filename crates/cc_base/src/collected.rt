//! A sink in memory.

ghost use Rattle.std.specs.Prelude.{◌≡◌, ◌≤◌, [], ◌++◌, take, length, IfOk, IfErr, OnErr};
ghost use Rattle.cc_base.specs.Sink.{after_put, none_failed};
ghost use Rattle.cc_base.specs.Collected.{collected_bytes, collected_failures};

use crate::failures::Failures;
use crate::sink::Sink;
use std::alloc::Global;
use std::io::ErrorKind;

/// A sink that collects bytes in memory. A put takes the whole slice, or takes nothing and fails
/// with `OutOfMemory`.
#[derive(Drop)]
pub struct Collected {
    bytes: Vec<u8>,
    failures: Failures,
}

impl Collected {
    /// Returns a sink that has taken nothing. It allocates from `alloc`.
    pub fn new(alloc: Global) -> Collected
        ensures bytes { collected_bytes result ≡ [] }
        ensures failures { collected_failures result ≡ none_failed }
    {
        Collected {
            bytes: Vec::new(alloc),
            failures: Failures::none(),
        }
    }

    /// Returns the bytes taken.
    pub fn as_slice(&self) -> &[u8]
        ensures { result.now ≡ collected_bytes self.now }
    {
        self.bytes.as_slice()
    }

    /// Returns the bytes taken, without allocating.
    pub fn into_vec(self) -> Vec<u8>
        ensures { result.items ≡ collected_bytes self }
    {
        self.bytes
    }
}

impl Sink for Collected {
    ghost taken = { collected_bytes };

    ghost failed = { collected_failures };

    fn put(&mut self, bytes: &[u8]) -> Result<usize, ErrorKind>
        ensures within { IfOk result (λ count. count ≤ length bytes.now) }
        ensures ok { IfOk result
            (λ count. collected_bytes self.new ≡ collected_bytes self.old ++ take count bytes.now) }
        ensures failures { collected_failures self.new
            ≡ after_put result bytes.now (collected_failures self.old) }
        ensures whole { IfOk result (λ count. count ≡ length bytes.now) }
        ensures err { OnErr result (collected_bytes self.new ≡ collected_bytes self.old) }
        ensures kind { IfErr result (λ kind. kind ≡ ErrorKind.OutOfMemory) }
    {
        if self.bytes.extend_from_slice(bytes).is_err() {
            self.failures.raise(ErrorKind::OutOfMemory);
            return Err(ErrorKind::OutOfMemory);
        }
        Ok(bytes.len())
    }

    fn failures(&self) -> u64 {
        self.failures.count()
    }
}
