//! Functions that put pieces of a text one after another. Their error is the kind of the put that
//! failed. It is smaller than the library's error, so long rows of pieces take fewer instructions.
//! `put_text` and `put_texts` are for functions that fail with the library's error anyway.

ghost use Rattle.std.specs.Prelude.{◌≡◌, [], ◌++◌, IsOk};
ghost use Rattle.cc_base.specs.Joined.{with_pieces};
ghost use Rattle.cc_base.specs.Writes.{Writes, as_write};

use crate::error::Error;
use crate::sink::Sink;
use std::io::ErrorKind;

/// Puts all of `text`, stopping at the first put that fails. Does nothing if `text` is empty.
///
/// # Errors
///
/// The kind of the put that failed. It is `WriteZero` if that put took nothing.
#[inline(always)]
pub fn put_piece<S: Sink>(sink: &mut S, text: &str) -> Result<(), ErrorKind>
    ensures written { Writes S.taken S.failed (as_write result) sink.old sink.new text.now }
    ensures empty { text.now ≡ [] → (IsOk result × (sink.new ≡ sink.old)) }
{
    put_bytes(sink, text.as_bytes())
}

// Puts all bytes, stopping at the first put that fails.
#[inline(always)]
pub(crate) fn put_bytes<S: Sink>(sink: &mut S, bytes: &[u8]) -> Result<(), ErrorKind>
    ensures written { Writes S.taken S.failed (as_write result) sink.old sink.new bytes.now }
    ensures empty { bytes.now ≡ [] → (IsOk result × (sink.new ≡ sink.old)) }
{
    if bytes.is_empty() {
        return Ok(());
    }
    match sink.put(bytes) {
        Ok(count) if count == bytes.len() => Ok(()),
        Ok(0) => Err(ErrorKind::WriteZero),
        Ok(count) => put_rest(sink, &bytes[count..]),
        Err(kind) => Err(kind),
    }
}

// Puts the bytes that remain after a put that took only some.
#[cold]
#[tactic(auto, using(crate::proofs::WrittenTexts::in_loops))]
#[inline(never)]
fn put_rest<S: Sink>(sink: &mut S, bytes: &[u8]) -> Result<(), ErrorKind>
    ensures { Writes S.taken S.failed (as_write result) sink.old sink.new bytes.now }
{
    let mut rest = bytes;
    while !rest.is_empty() {
        match sink.put(rest) {
            Ok(0) => return Err(ErrorKind::WriteZero),
            Ok(count) => rest = &rest[count..],
            Err(kind) => return Err(kind),
        }
    }
    Ok(())
}

/// Puts each of the `pieces` in turn.
///
/// # Errors
///
/// The kind of the put that failed.
#[inline(always)]
pub fn put_pieces<S: Sink>(sink: &mut S, pieces: &[&str]) -> Result<(), ErrorKind>
    ensures { Writes S.taken S.failed (as_write result) sink.old sink.new
        (with_pieces (λ piece. piece.now) [] pieces.now) }
{
    for piece in pieces {
        put_piece(sink, piece)?;
    }
    Ok(())
}

/// Puts `before`, `text` and `after`.
///
/// # Errors
///
/// The kind of the put that failed.
#[inline(always)]
pub fn put_around<'a, S: Sink>(
    sink: &mut S,
    before: &'a str,
    text: &'a str,
    after: &'a str,
) -> Result<(), ErrorKind>
    ensures { Writes S.taken S.failed (as_write result) sink.old sink.new
        (before.now ++ text.now ++ after.now) }
{
    put_pieces(sink, &[before, text, after])
}

/// Puts all of `text`, as [`put_piece`] does.
///
/// # Errors
///
/// `Write` with the kind of the put that failed.
#[inline(always)]
pub fn put_text<S: Sink>(sink: &mut S, text: &str) -> Result<(), Error>
    ensures { Writes S.taken S.failed result sink.old sink.new text.now }
{
    Ok(put_piece(sink, text)?)
}

/// Puts each of the `texts` in turn, as [`put_pieces`] does.
///
/// # Errors
///
/// `Write` with the kind of the put that failed.
#[inline(always)]
pub fn put_texts<S: Sink>(sink: &mut S, texts: &[&str]) -> Result<(), Error>
    ensures { Writes S.taken S.failed result sink.old sink.new
        (with_pieces (λ text. text.now) [] texts.now) }
{
    Ok(put_pieces(sink, texts)?)
}
