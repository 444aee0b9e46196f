//! Checks the bytes of a tree file.

ghost use Rattle.std.specs.Prelude.{◌≡◌, All, IfOk, is_some, map};
ghost use Rattle.cc_base.specs.Shown.{HoldsNoControl};
ghost use Rattle.json.specs.Value.{value_view};
ghost use Rattle.std.specs.String.{string_bytes};
ghost use Rattle.complgen_tree_file.specs.JsonSeen.{view};
ghost use Rattle.complgen_tree_file.specs.CommandForm.{command_of};
ghost use Rattle.complgen_tree_file.specs.Faults.{has_none, is_nil};
ghost use Rattle.complgen_check.specs.FileChecks.{Checks, ChecksValue};
ghost use Rattle.complgen_check.specs.Findings.{IsError, shown};

use crate::errors::doubles::hidden_members;
use crate::errors::finding::{Finding, Level, Source};
use crate::errors::not_json::{more_text, one_error, range_errors, reading_error};
use crate::errors::texts::fault_text;
use cc_base::on_one_line;
use cc_command::Command;
use complgen_tree_file::{
    Fault, FaultKind, Faults, JsonError, Scratch, Value, command_or_faults, read_value,
};
use std::alloc::{AllocError, Global};

/// The result of checking a tree file.
#[derive(Drop)]
pub enum Checked<'t> {
    /// The command that the file describes; a warning for each member of an object that a later
    /// member of the same key hides, in the order of the file; and the file as it was read.
    Tree(Command, Vec<Finding>, Source<'t>),
    /// The errors in the file, in its order.
    Errors(Vec<Finding>),
}

/// Returns the command that `bytes` describe, or if they describe none, the errors in them, at
/// least one. If strings of the file have escapes, the result borrows from `scratch`.
///
/// # Errors
///
/// `AllocError` if an allocation fails.
pub fn check_file<'t>(
    alloc: Global,
    bytes: &'t [u8],
    scratch: &'t mut Scratch,
) -> Result<Checked<'t>, AllocError>
    ensures { IfOk result (λ checked. Checks bytes.now checked) }
{
    match std::str::from_utf8(bytes) {
        Ok(text) => check_text(alloc, text, scratch),
        Err(error) => Ok(Checked::Errors(one_error(alloc, error.valid_up_to(), "not UTF-8")?)),
    }
}

fn check_text<'t>(
    alloc: Global,
    text: &'t str,
    scratch: &'t mut Scratch,
) -> Result<Checked<'t>, AllocError>
    ensures { IfOk result (λ checked. Checks text.now checked) }
{
    match read_value(alloc, text, scratch) {
        Ok(value) => {
            let source = Source {
                text,
                value,
                spots: None,
            };
            let checked = check_value(alloc, source)?;
            Ok(checked)
        }
        Err(JsonError::NotJson(offset)) => {
            Ok(Checked::Errors(reading_error(alloc, text.as_bytes(), offset)?))
        }
        Err(JsonError::MoreText(end)) => Ok(Checked::Errors(more_text(alloc, text, end)?)),
        Err(JsonError::OutOfRange(value)) => {
            Ok(Checked::Errors(range_errors(alloc, text, value)?))
        }
        Err(JsonError::Memory) => Err(AllocError),
    }
}

fn check_value<'t>(alloc: Global, mut source: Source<'t>) -> Result<Checked<'t>, AllocError>
    ensures { IfOk result (λ checked. ChecksValue (value_view source.entry.value) checked) }
{
    match command_or_faults(alloc, &source.value) {
        Ok(Ok(command)) => match hidden_members(alloc, &mut source) {
            Ok(doubles) => Ok(Checked::Tree(command, doubles, source)),
            Err(error) => {
                // One call here, instead of a drop of each field.
                drop(command);
                drop(source);
                Err(error)
            }
        },
        Ok(Err(faults)) => {
            let errors = placed(alloc, &mut source, faults);
            drop(source);
            Ok(Checked::Errors(errors?))
        }
        Err(error) => {
            drop(source);
            Err(error)
        }
    }
}

/// Returns the errors in the value of `source`, in the order of its text. There are none exactly if
/// the value describes a command.
///
/// # Errors
///
/// `AllocError` if an allocation fails.
pub(crate) fn placed_errors(
    alloc: Global,
    source: &mut Source<'_>,
) -> Result<Vec<Finding>, AllocError>
    ensures none { IfOk result (λ errors. is_nil errors.items
        ≡ is_some (command_of (view source.old.value))) }
    ensures errors { IfOk result (λ errors. All IsError (map shown errors.items)) }
{
    match command_or_faults(alloc, &source.value)? {
        Ok(command) => {
            drop(command);
            Ok(Vec::new(alloc))
        }
        Err(faults) => placed(alloc, source, faults),
    }
}

// Makes an error of each fault in the value of `source`, in the order of the text.
fn placed(
    alloc: Global,
    source: &mut Source<'_>,
    faults: Faults<'_>,
) -> Result<Vec<Finding>, AllocError>
    ensures none { IfOk result (λ errors. is_nil errors.items ≡ has_none faults.entry) }
    ensures errors { IfOk result (λ errors. All IsError (map shown errors.items)) }
{
    in_order(errors(alloc, source, faults.into_vec())?)
}

// Sorts errors by their places.
fn in_order(mut errors: Vec<Finding>) -> Result<Vec<Finding>, AllocError>
    ensures none { IfOk result (λ sorted. is_nil sorted.items ≡ is_nil errors.items) }
    ensures errors { IfOk result (λ sorted. All IsError (map shown errors.items)
        → All IsError (map shown sorted.items)) }
{
    errors.sort_by_key(|error| error.offset)?;
    Ok(errors)
}

// Makes an error of each fault in the value of `source`.
fn errors(
    alloc: Global,
    source: &mut Source<'_>,
    faults: Vec<Fault<'_>>,
) -> Result<Vec<Finding>, AllocError>
    ensures none { IfOk result (λ errors. is_nil errors.items ≡ is_nil faults.entry.items) }
    ensures errors { IfOk result (λ errors. All IsError (map shown errors.items)) }
{
    let mut errors = Vec::new(alloc);
    for fault in faults {
        errors.push(error(alloc, source, fault)?)?;
    }
    Ok(errors)
}

fn error(alloc: Global, source: &mut Source<'_>, fault: Fault<'_>) -> Result<Finding, AllocError>
    ensures { IfOk result (λ error. IsError (shown error)) }
{
    let text = shown_text(alloc, &source.value, &fault)?;
    let at_key = matches!(fault.kind, FaultKind::UnknownKey(_));
    source.finding(alloc, Level::Error, fault.path.as_slice(), at_key, text)
}

fn shown_text(alloc: Global, value: &Value<'_>, fault: &Fault<'_>) -> Result<String, AllocError>
    ensures { IfOk result (λ text. HoldsNoControl (string_bytes text)) }
{
    let text = fault_text(alloc, fault, value)?;
    on_one_line(alloc, text.as_str())
}
