//! Reads a tree of commands from a JSON file.
#![tactic(auto)]

mod args;
mod commands;
mod error;
mod faults;
mod json_values;
mod keys;
mod kinds;
mod objects;
mod possible_values;
mod sources;
mod values;

ghost use Rattle.std.specs.Prelude.{IfOk};
ghost use Rattle.complgen_tree_file.specs.JsonSeen.{view};
ghost use Rattle.complgen_tree_file.specs.TreeFile.{FindsCommand, ReadsTree, ReadsValue};

use crate::commands::read_command;
pub use crate::error::TreeError;
pub use crate::faults::{Fault, FaultKind, Faults, SourceFault, Step};
pub use crate::json_values::{JsonError, Scratch, Value, read_value};
pub use crate::kinds::{ObjectKind, ValueKind};
use cc_command::{Command, Release, discard};
use std::alloc::{AllocError, Global};

/// Returns the command that the bytes of a tree file describe. `when` tells when the memory of the
/// JSON in the file is released.
///
/// # Errors
///
/// - `NotJson` if `bytes` are not UTF-8 or not JSON, are nested too deeply, or have a number out of
///   range.
/// - `BadForm` if the JSON describes no command.
/// - `Memory` if an allocation fails.
pub fn read_tree(alloc: Global, bytes: &[u8], when: Release) -> Result<Command, TreeError>
    ensures { ReadsTree bytes.now result }
{
    match std::str::from_utf8(bytes) {
        Ok(text) => read_text(alloc, text, when),
        Err(_) => Err(TreeError::NotJson),
    }
}

// Returns the command that a text describes.
fn read_text(alloc: Global, text: &str, when: Release) -> Result<Command, TreeError>
    ensures { ReadsTree text.now result }
{
    let mut scratch = Scratch::new(alloc);
    let tree = value(alloc, text, &mut scratch)?;
    let found = command_or_faults(alloc, &tree);
    // One call here, instead of a drop of each field at each return.
    discard(tree, when);
    match found? {
        Ok(command) => Ok(command),
        Err(faults) => {
            drop(faults);
            Err(TreeError::BadForm)
        }
    }
}

/// Returns the command that `tree` describes. If it describes none, returns what is wrong with it.
///
/// # Errors
///
/// `AllocError` if an allocation fails.
#[tactic(auto, unfolding(crate::specs::CommandForm::command_of))]
pub fn command_or_faults<'t>(
    alloc: Global,
    tree: &Value<'t>,
) -> Result<Result<Command, Faults<'t>>, AllocError>
    ensures { IfOk result (λ found. FindsCommand (view tree.now) found) }
{
    let mut faults = Faults::new(alloc);
    let command = read_command(&mut faults, tree)?;
    if faults.is_empty() {
        Ok(Ok(command))
    } else {
        drop(command);
        Ok(Err(faults))
    }
}

// Returns the value that a text spells. It borrows from the text and, if there are escapes, from
// `scratch`.
fn value<'t>(alloc: Global, text: &'t str, scratch: &'t mut Scratch) -> Result<Value<'t>, TreeError>
    ensures { ReadsValue text.now result }
{
    match read_value(alloc, text, scratch) {
        Ok(value) => Ok(value),
        Err(JsonError::Memory) => Err(TreeError::Memory),
        Err(JsonError::NotJson(_) | JsonError::MoreText(_) | JsonError::OutOfRange(_)) => {
            Err(TreeError::NotJson)
        }
    }
}
