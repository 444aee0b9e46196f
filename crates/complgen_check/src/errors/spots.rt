//! Finds where the values of a text begin, all in one pass.

use crate::errors::places::inside;
use complgen_tree_file::{Scratch, Step, Value};
use json::Reader;
use std::alloc::{AllocError, Global};

/// The offsets of a value and of its key, and the same for each value inside.
#[derive(Drop)]
pub(crate) struct Spot {
    // A value that is no member of an object has no key: this is then its own offset.
    key: usize,
    value: usize,
    inside: Vec<Spot>,
}

/// Returns the offsets of `value`, which `text` spells, and of all values inside.
///
/// # Errors
///
/// `AllocError` if an allocation fails.
pub(crate) fn spots(alloc: Global, text: &str, value: &Value<'_>) -> Result<Spot, AllocError> {
    let mut scratch = Scratch::new(alloc);
    let mut reader = Reader::new(text, &mut scratch)?;
    let start = reader.offset();
    read_spot(alloc, &mut reader, start, value)
}

// Reads past `value`, which comes next, and returns its offsets. Its key begins at `key`.
#[cycle(spots)]
fn read_spot(
    alloc: Global,
    reader: &mut Reader<'_>,
    key: usize,
    value: &Value<'_>,
) -> Result<Spot, AllocError> {
    let start = reader.offset();
    let _ = reader.next();
    let inside = match value {
        Value::Array(items) => read_items(alloc, reader, items)?,
        Value::Object(members) => read_members(alloc, reader, members)?,
        _ => Vec::new(alloc),
    };
    Ok(Spot {
        key,
        value: start,
        inside,
    })
}

#[cycle(spots)]
fn read_items(
    alloc: Global,
    reader: &mut Reader<'_>,
    items: &Vec<Value<'_>>,
) -> Result<Vec<Spot>, AllocError> {
    let mut spots = Vec::new(alloc);
    for item in items {
        let start = reader.offset();
        spots.push(read_spot(alloc, reader, start, item)?)?;
    }
    let _ = reader.next();
    Ok(spots)
}

#[cycle(spots)]
fn read_members(
    alloc: Global,
    reader: &mut Reader<'_>,
    members: &Vec<(&str, Value<'_>)>,
) -> Result<Vec<Spot>, AllocError> {
    let mut spots = Vec::new(alloc);
    for member in members {
        let key = reader.offset();
        let _ = reader.next();
        spots.push(read_spot(alloc, reader, key, &member.1)?)?;
    }
    let _ = reader.next();
    Ok(spots)
}

/// Returns the offset of the value at `path`, or with `at_key` that of the key of the last step.
/// The path leads from `value`, and `spot` has its offsets. If the path leads to nothing, the
/// result is the offset of the last value on the way.
pub(crate) fn offset_at(spot: &Spot, value: &Value<'_>, path: &[Step<'_>], at_key: bool) -> usize {
    let Some((step, rest)) = path.split_first() else {
        return if at_key { spot.key } else { spot.value };
    };
    match next(spot, value, *step) {
        Some((spot, value)) => offset_at(spot, value, rest, at_key),
        None => spot.value,
    }
}

// Takes a step, and returns the value there with its offsets.
fn next<'s, 'v, 't>(
    spot: &'s Spot,
    value: &'v Value<'t>,
    step: Step<'_>,
) -> Option<(&'s Spot, &'v Value<'t>)> {
    let (index, inner) = inside(value, step)?;
    let spot = spot.inside.get(index)?;
    Some((spot, inner))
}
