//! Converts offsets of a text to lines and columns.

ghost use Rattle.std.specs.Prelude.{◌≡◌, ◌≤◌, ◌<◌, ◌+◌, All, IfOk, length, take};
ghost use Rattle.complgen_check.specs.Marks.{IsMark};
ghost use Rattle.complgen_check.specs.Places.{begins_character, column_after, line_after};

use std::alloc::{AllocError, Global};
use std::marker::Model;

// The number of bytes between two marks.
const STRIDE: usize = 256;

/// A text whose offsets can be converted to lines and columns. Each conversion counts a few hundred
/// bytes at most, however long the text is.
#[derive(Drop)]
pub struct Lines<'t> {
    bytes: &'t [u8],
    // One mark at the start and one after each further `STRIDE` bytes.
    marks: Vec<Mark>,
}

impl<'t> Model for Lines<'t> {
    ghost use Rattle.std.specs.Prelude.{ℕ, List, All};
    ghost use Rattle.complgen_check.specs.Marks.{IsMark};

    ghost Value = { List ℕ };

    ghost view = { λ a. a.bytes.now };

    ghost invariant = { λ a. All (IsMark a.bytes.now) a.marks.items };
}

/// An offset with its line and its column, both from 1. The column is in characters.
#[derive(Clone, Copy, Drop)]
pub(crate) struct Mark {
    pub(crate) offset: usize,
    pub(crate) line: usize,
    pub(crate) column: usize,
}

impl<'t> Lines<'t> {
    /// Prepares the conversion of the offsets of `bytes`.
    ///
    /// # Errors
    ///
    /// `AllocError` if an allocation fails.
    pub fn new(alloc: Global, bytes: &'t [u8]) -> Result<Lines<'t>, AllocError>
        ensures { IfOk result (λ lines. lines ≡ bytes.now) }
    {
        let marks = marks(alloc, bytes)?;
        Ok(Lines { bytes, marks })
    }

    /// Returns the line and the column of the place after the first `offset` bytes.
    pub fn line_and_column(&self, offset: usize) -> (usize, usize)
        ensures line { result.0 ≡ line_after (take offset self.now) }
        ensures column { result.1 ≡ column_after (take offset self.now) }
    {
        let end = offset.min(self.bytes.len());
        let before = mark_before(self.bytes, self.marks.as_slice(), end);
        let mark = mark_at(self.bytes, before, end);
        (mark.line, mark.column)
    }
}

// Makes the marks of `bytes` in one pass.
fn marks(alloc: Global, bytes: &[u8]) -> Result<Vec<Mark>, AllocError>
    ensures { IfOk result (λ marks. All (IsMark bytes.now) marks.items) }
{
    let mut marks = Vec::new(alloc);
    let mut mark = START;
    marks.push(mark)?;
    while mark.offset < bytes.len() {
        let end = mark.offset.saturating_add(STRIDE).min(bytes.len());
        mark = mark_at(bytes, mark, end);
        marks.push(mark)?;
    }
    Ok(marks)
}

const START: Mark = Mark {
    offset: 0,
    line: 1,
    column: 1,
};

// Returns the last of the marks that is not after `offset`.
fn mark_before(bytes: &[u8], marks: &[Mark], offset: usize) -> Mark
    requires { All (IsMark bytes.now) marks.now }
    ensures mark { IsMark bytes.now result }
    ensures before { result.offset ≤ offset }
{
    match marks.get(offset / STRIDE) {
        Some(mark) if mark.offset <= offset => *mark,
        _ => START,
    }
}

// Goes on from `mark` to an offset that is not before it.
fn mark_at(bytes: &[u8], mark: Mark, offset: usize) -> Mark
    requires mark { IsMark bytes.now mark }
    requires on { mark.offset ≤ offset }
    requires inside { offset ≤ length bytes.now }
    ensures mark { IsMark bytes.now result }
    ensures offset { result.offset ≡ offset }
{
    let mut mark = mark;
    while mark.offset < offset {
        mark = next_mark(bytes, mark);
    }
    mark
}

// Goes on by one byte.
fn next_mark(bytes: &[u8], mark: Mark) -> Mark
    requires mark { IsMark bytes.now mark }
    requires more { mark.offset < length bytes.now }
    ensures mark { IsMark bytes.now result }
    ensures offset { result.offset ≡ mark.offset + 1 }
{
    let offset = mark.offset + 1;
    let byte = bytes[mark.offset];
    if byte == b'\n' {
        return Mark {
            offset,
            line: mark.line + 1,
            column: 1,
        };
    }
    if !begins_character(byte) {
        return Mark {
            offset,
            line: mark.line,
            column: mark.column,
        };
    }
    Mark {
        offset,
        line: mark.line,
        column: mark.column + 1,
    }
}

// Returns whether a character begins with `byte`.
fn begins_character(byte: u8) -> bool
    ensures { result ≡ begins_character byte }
{
    byte < 128 || byte >= 192
}
