//! Reads a JSON value.

ghost use Rattle.std.specs.Prelude.{IfOk};
ghost use Rattle.json.specs.Value.{value_view};
ghost use Rattle.complgen_tree_file.specs.JsonReads.{ReadsFirst, ReadsJson, SpellsJson};

use crate::json_values::range::has_range;
use json::{Reader, Scratch, Value};
use std::alloc::Global;

/// The reason why no value was read.
#[derive(Drop)]
pub enum JsonError<'t> {
    /// The text is not JSON, or is nested too deeply. Reading ended at this offset in bytes.
    NotJson(usize),
    /// There is more text after the value, which ends at this offset in bytes.
    MoreText(usize),
    /// A number in this value, which the text spells, is out of range.
    OutOfRange(Value<'t>),
    /// An allocation failed.
    Memory,
}

const MAX_DEPTH: usize = 127;

/// Returns the value that `text` spells. It borrows from `text` and, if a string has escapes, from
/// `scratch`.
///
/// # Errors
///
/// `NotJson` or `MoreText` if `text` spells no value, `OutOfRange` if a number in it is too large
/// for a float, and `Memory` if an allocation fails.
pub fn read_value<'t>(
    alloc: Global,
    text: &'t str,
    scratch: &'t mut Scratch,
) -> Result<Value<'t>, JsonError<'t>>
    ensures reads { ReadsJson text.now result }

    // All members of an object are kept, also those of one key.
    ensures spells { IfOk result (λ value. SpellsJson text.now (value_view value)) }
{
    let Ok(mut reader) = Reader::new(text, scratch) else {
        return Err(JsonError::Memory);
    };
    let value = first(alloc, &mut reader)?;
    let end = reader.offset();
    if reader.next().is_some() {
        drop(value);
        return Err(JsonError::MoreText(end));
    }
    if !has_range(&value) {
        return Err(JsonError::OutOfRange(value));
    }
    Ok(value)
}

// Reads the first value of the reader.
fn first<'t>(alloc: Global, reader: &mut Reader<'t>) -> Result<Value<'t>, JsonError<'t>>
    ensures { ReadsFirst reader.old result reader.new }
{
    match Value::read(alloc, reader, MAX_DEPTH) {
        Ok(value) => Ok(value),
        Err(json::Error::OutOfMemory) => Err(JsonError::Memory),
        Err(_) => Err(JsonError::NotJson(reader.offset())),
    }
}
