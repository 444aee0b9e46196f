//! Explains why a text is not JSON.

ghost use Rattle.std.specs.Prelude.{IfOk};
ghost use Rattle.complgen_check.specs.Findings.{AreErrors, IsError, shown};

use crate::errors::checking::placed_errors;
use crate::errors::finding::{Finding, Level, Source};
use crate::errors::places::show_path;
use cc_base::on_one_line;
use complgen_tree_file::{Step, Value};
use std::alloc::{AllocError, Global};

// The greatest depth of lists and objects in one another.
const MOST_OPEN: usize = 127;

/// Returns one error with the message `text` at `offset`, about the whole file.
///
/// # Errors
///
/// `AllocError` if an allocation fails.
pub fn one_error(alloc: Global, offset: usize, text: &str) -> Result<Vec<Finding>, AllocError>
    ensures { IfOk result (λ found. AreErrors found.items) }
{
    let path = show_path(alloc, &[])?;
    let text = on_one_line(alloc, text)?;
    let mut found = Vec::new(alloc);
    found.push(Finding {
        level: Level::Error,
        offset,
        path,
        text,
    })?;
    Ok(found)
}

/// Returns the error that explains why reading a text ended at `offset`.
///
/// # Errors
///
/// `AllocError` if an allocation fails.
pub(crate) fn reading_error(
    alloc: Global,
    bytes: &[u8],
    offset: usize,
) -> Result<Vec<Finding>, AllocError>
    ensures { IfOk result (λ found. AreErrors found.items) }
{
    let offset = offset.min(bytes.len());
    if open_after(&bytes[..offset]) > MOST_OPEN {
        // The reading ended after the bracket.
        let bracket = offset.saturating_sub(1);
        return one_error(alloc, bracket, "not JSON: nested deeper than 127 levels");
    }
    one_error(alloc, offset, why_no_json(bytes, offset))
}

/// Returns the error that there is more text after the value, which ends at `end`.
///
/// # Errors
///
/// `AllocError` if an allocation fails.
pub(crate) fn more_text(alloc: Global, text: &str, end: usize) -> Result<Vec<Finding>, AllocError>
    ensures { IfOk result (λ found. AreErrors found.items) }
{
    let offset = end.min(text.len());
    one_error(
        alloc,
        offset,
        "not JSON: there is more text after the value",
    )
}

/// Returns the errors of a value that `text` spells and that has a number out of range: those that
/// the value has besides, or otherwise one for the first such number. If the value has no other
/// error, the number is in a member that a later one hides.
///
/// # Errors
///
/// `AllocError` if an allocation fails.
pub(crate) fn range_errors<'t>(
    alloc: Global,
    text: &'t str,
    value: Value<'t>,
) -> Result<Vec<Finding>, AllocError>
    ensures { IfOk result (λ found. AreErrors found.items) }
{
    let mut source = Source {
        text,
        value,
        spots: None,
    };
    let errors = errors_or_range(alloc, &mut source);
    // One call here, instead of a drop of each field.
    drop(source);
    errors
}

// Returns the errors in the value, or if it has none, that of the first number out of range.
fn errors_or_range(alloc: Global, source: &mut Source<'_>) -> Result<Vec<Finding>, AllocError>
    ensures { IfOk result (λ found. AreErrors found.items) }
{
    let found = placed_errors(alloc, source)?;
    if !found.is_empty() {
        return Ok(found);
    }
    let mut errors = Vec::new(alloc);
    errors.push(out_of_range(alloc, source)?)?;
    Ok(errors)
}

fn out_of_range(alloc: Global, source: &mut Source<'_>) -> Result<Finding, AllocError>
    ensures { IfOk result (λ found. IsError (shown found)) }
{
    let mut path = Vec::new(alloc);
    let _ = push_out_of_range(&mut path, &source.value)?;
    let text = on_one_line(alloc, "number out of range")?;
    source.finding(alloc, Level::Error, path.as_slice(), false, text)
}

// Appends the steps to the first number out of range, and returns whether there is one.
#[cycle(range)]
fn push_out_of_range<'t>(path: &mut Vec<Step<'t>>, value: &Value<'t>) -> Result<bool, AllocError> {
    match value {
        Value::Number(_) => Ok(value.as_f64().is_some_and(|number| !number.is_finite())),
        Value::Array(items) => push_in_items(path, items),
        Value::Object(members) => push_in_members(path, members),
        _ => Ok(false),
    }
}

#[cycle(range)]
fn push_in_items<'t>(path: &mut Vec<Step<'t>>, items: &Vec<Value<'t>>) -> Result<bool, AllocError> {
    for (index, item) in items.iter().enumerate() {
        path.push(Step::Item(index))?;
        if push_out_of_range(path, item)? {
            return Ok(true);
        }
        let _ = path.pop();
    }
    Ok(false)
}

#[cycle(range)]
fn push_in_members<'t>(
    path: &mut Vec<Step<'t>>,
    members: &Vec<(&'t str, Value<'t>)>,
) -> Result<bool, AllocError> {
    for (index, member) in members.iter().enumerate() {
        path.push(Step::Member(member.0, index))?;
        if push_out_of_range(path, &member.1)? {
            return Ok(true);
        }
        let _ = path.pop();
    }
    Ok(false)
}

// Explains frequent mistakes, by the byte at `offset` where reading ended.
fn why_no_json(bytes: &[u8], offset: usize) -> &'static str {
    match bytes.get(offset).copied() {
        None => "not JSON: the file ends too early",
        Some(239) => "not JSON: JSON allows no byte order mark",
        Some(b'/') | Some(b'#') => "not JSON: JSON allows no comments",
        Some(b'\'') => "not JSON: a string needs double quotes",
        Some(byte) => why_not_here(last_sign(&bytes[..offset]), byte),
    }
}

// Explains why `byte` can't follow `before`, the last byte before it that is no white space.
fn why_not_here(before: Option<u8>, byte: u8) -> &'static str {
    match (before, byte) {
        (Some(b','), b']' | b'}') => "not JSON: no comma is allowed before `]` or `}`",
        (Some(b':'), b'"') => {
            "not JSON: this string is not closed or has a bad escape, or a list has the key before it"
        }
        (Some(b',' | b'[' | b'{'), b'"') => {
            "not JSON: this string is not closed or has a bad escape, or a key is missing before it"
        }
        (Some(b'"'), b'"') => "not JSON: a comma or a colon is missing before this string",
        (Some(_), b'"') => "not JSON: a comma is missing before this string",
        (Some(b':'), b'[' | b'{') => "not JSON: a list has the key before this",
        (Some(b',' | b'[' | b'{'), b'[' | b'{') => "not JSON: a key is missing before this",
        (Some(b'"'), b'[' | b'{') => "not JSON: a comma or a colon is missing before this",
        (Some(_), b'[' | b'{') => "not JSON: a comma is missing before this",
        _ => "not JSON",
    }
}

// The part of a JSON text that a byte belongs to: the structure, a string, or an escape in it.
#[derive(Clone, Copy)]
enum Part {
    Structure,
    Text,
    Escape,
}

// Returns how many lists and objects are open at the end of `start`.
fn open_after(start: &[u8]) -> usize {
    let mut part = Part::Structure;
    let mut open = 0;
    for byte in start.iter() {
        part = part_after(part, *byte);
        if matches!(part, Part::Structure) {
            open = open_with(open, *byte);
        }
    }
    open
}

// Returns the part of the byte after `byte`, which belongs to `part`.
fn part_after(part: Part, byte: u8) -> Part {
    match (part, byte) {
        (Part::Structure, b'"') | (Part::Escape, _) => Part::Text,
        (Part::Text, b'"') => Part::Structure,
        (Part::Text, b'\\') => Part::Escape,
        _ => part,
    }
}

// Returns how many lists and objects are open after a byte of the structure.
fn open_with(open: usize, byte: u8) -> usize {
    match byte {
        b'[' | b'{' => open.saturating_add(1),
        b']' | b'}' => open.saturating_sub(1),
        _ => open,
    }
}

// Returns the last byte that is no white space.
fn last_sign(before: &[u8]) -> Option<u8> {
    let last = before
        .iter()
        .rev()
        .find(|byte| !matches!(**byte, b' ' | b'\t' | b'\r' | b'\n'))?;
    Some(*last)
}
