//! The destination of scripts and replies.

ghost use Rattle.std.specs.Prelude.{◌≡◌, ◌≤◌, ℕ, List, [], ◌++◌, take, length, IfOk, IfErr, OnErr, IsOk, ◌||◌, true};
ghost use Rattle.cc_base.specs.Partly.{partly, partly_split, partly_self};
ghost use Rattle.cc_base.specs.Sink.{Failures, after_put};
ghost use Rattle.cc_base.specs.Writes.{IsWrite, Writes};

use crate::error::Error;
use crate::pieces::put_bytes;
use std::io::ErrorKind;

/// A destination that takes bytes and counts its failures.
pub trait Sink {
    // the bytes taken so far
    ghost taken: { Self → List ℕ };

    // how many writes failed, and the kind of the last failure
    ghost failed: { Self → Failures };

    /// Takes a beginning of `bytes` and returns its length. To take nothing of bytes that are not
    /// empty counts as a failure of the kind `WriteZero`.
    ///
    /// # Errors
    ///
    /// The kind of the failure, which is counted. Nothing was taken then.
    fn put(&mut self, bytes: &[u8]) -> Result<usize, ErrorKind>
        ensures within { IfOk result (λ count. count ≤ length bytes.now) }
        ensures ok { IfOk result
            (λ count. taken self.new ≡ taken self.old ++ take count bytes.now) }
        ensures err { OnErr result (taken self.new ≡ taken self.old) }
        ensures failures { failed self.new ≡ after_put result bytes.now (failed self.old) };

    /// Returns how many writes failed: puts that returned an error or took nothing of a slice that
    /// is not empty, and flushes that failed. A count of `u64::MAX` stays as it is.
    fn failures(&self) -> u64
        ensures { result ≡ (failed self.now).count };

    // Two laws of texts for the proofs of functions that write to any sink. They have their proofs
    // here, so an implementation states nothing.

    // a part of two texts is a part of the first, or the first and a part of the second
    ghost splits: { (new old a b : List ℕ) →
        partly new old (a ++ b) ≡ (partly new old a || partly new (old ++ a) b) } = { partly_split };

    // nothing is a part of any text
    ghost nothing: { (old text : List ℕ) → partly old old text ≡ true } = { partly_self };
}

/// Writes all `bytes`, stopping at the first put that fails. Does nothing if there are none.
///
/// # Errors
///
/// `Write` with the kind of the put that failed. The kind is `WriteZero` if that put took nothing.
#[inline(always)]
pub fn put_all<S: Sink>(sink: &mut S, bytes: &[u8]) -> Result<(), Error>
    ensures written { Writes S.taken S.failed result sink.old sink.new bytes.now }
    ensures write_only { IfErr result IsWrite }
    ensures empty { bytes.now ≡ [] → (IsOk result × (sink.new ≡ sink.old)) }
{
    Ok(put_bytes(sink, bytes)?)
}
