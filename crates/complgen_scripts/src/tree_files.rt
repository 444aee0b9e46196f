//! Parses tree files, and reports a file that holds no tree.

ghost use Rattle.std.specs.Prelude.{◌≡◌, IfOk, string_bytes};
ghost use Rattle.std.specs.Option.{option_copied};
ghost use Rattle.cc_base.specs.Shown.{on_one_line};
ghost use Rattle.complgen_scripts.specs.Refusals.{IsMade, ReportsTreeAt, about_file, checked_line};
ghost use Rattle.complgen_scripts.specs.Refusals.{unreadable_at, values_unreadable_at};
ghost use Rattle.complgen_scripts.specs.TreeFiles.{ReadsFile, ReadsFileAt};

use crate::refusals::{Refusal, UNREADABLE, VALUES_UNREADABLE, text_refusal, tree_refusal};
use cc_base::on_one_line;
use cc_command::{Command, Release};
use complgen_tree_file::{TreeError, read_tree};
use std::alloc::{AllocError, Global};

/// A tree file, with the path that messages name.
#[derive(Clone, Copy)]
pub struct TreeFile<'f> {
    /// The path of the file.
    pub path: &'f str,
    /// The bytes of the file, or `None` if it cannot be read.
    pub bytes: Option<&'f [u8]>,
}

/// Parses the bytes of a tree file. `file` is `None` if the file cannot be read. `when` tells when
/// the memory of its JSON is released.
///
/// # Errors
///
/// A refusal with status 1 and the text of the error.
pub fn tree(alloc: Global, file: Option<&[u8]>, when: Release) -> Result<Command, Refusal>
    ensures { ReadsFile (option_copied file.entry) result }
{
    let Some(bytes) = file else {
        return Err(Refusal::from_static(1, UNREADABLE));
    };
    read_tree(alloc, bytes, when).map_err(tree_refusal)
}

/// Parses the tree file `file`.
///
/// # Errors
///
/// A refusal with status 1 and the text of the error, which names the file.
pub fn named_tree(alloc: Global, file: TreeFile<'_>) -> Result<Command, Refusal>
    ensures { ReadsFileAt file.entry.path.now (option_copied file.entry.bytes) result }
{
    let Some(bytes) = file.bytes else {
        return Err(unreadable(alloc, file.path));
    };
    match read_tree(alloc, bytes, Release::AtOnce) {
        Ok(command) => Ok(command),
        Err(error) => Err(named_refusal(alloc, file.path, error)),
    }
}

/// Returns what is printed if the tree file at `path` cannot be read.
pub fn unreadable(alloc: Global, path: &str) -> Refusal
    ensures { IsMade (unreadable_at path.now) result }
{
    file_refusal(alloc, path, UNREADABLE)
}

// Returns what is printed if something is wrong with the file at `path`. The line `text` says what
// it is.
fn file_refusal(alloc: Global, path: &str, text: &'static str) -> Refusal
    ensures { IsMade (about_file (on_one_line path.now) text.entry.now) result }
{
    match on_one_line(alloc, path) {
        Ok(path) => text_refusal(about_file(alloc, path.as_str(), text)),
        Err(failed) => Refusal::from(failed),
    }
}

/// Returns what is printed if the file of values at `path` cannot be read.
pub fn unreadable_values(alloc: Global, path: &str) -> Refusal
    ensures { IsMade (values_unreadable_at path.now) result }
{
    file_refusal(alloc, path, VALUES_UNREADABLE)
}

/// Returns what is printed for an error of the tree file at `path`.
pub fn named_refusal(alloc: Global, path: &str, error: TreeError) -> Refusal
    ensures { ReportsTreeAt path.now error result }
{
    match error {
        TreeError::NotJson => text_refusal(checked_line(alloc, path, "tree: not JSON")),
        TreeError::BadForm => text_refusal(checked_line(alloc, path, "tree: bad form")),
        TreeError::Memory => Refusal::from(AllocError),
    }
}

// Returns a line with `text` about the file at `path`, and the command that explains it.
fn checked_line(alloc: Global, path: &str, text: &'static str) -> Result<String, AllocError>
    ensures { IfOk result (λ line. string_bytes line ≡ checked_line path.now text.entry.now) }
{
    let path = on_one_line(alloc, path)?;
    let mut line = about_file(alloc, path.as_str(), text)?;
    line.push_str(" (run complgen check ")?;
    line.push_str(path.as_str())?;
    line.push_str(")\n")?;
    Ok(line)
}

// Returns `text` after `path`, a colon and a space.
fn about_file(alloc: Global, path: &str, text: &'static str) -> Result<String, AllocError>
    ensures { IfOk result (λ line. string_bytes line ≡ about_file path.now text.entry.now) }
{
    let mut line = String::from_str(alloc, path)?;
    line.push_str(": ")?;
    line.push_str(text)?;
    Ok(line)
}
