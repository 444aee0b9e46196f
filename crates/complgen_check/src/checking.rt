//! Prints what is wrong with a tree file.

ghost use Rattle.std.specs.Prelude.{◌≡◌, ◌++◌, [], ◌∷◌, IfOk, IsTrue, OnOk, map};
ghost use Rattle.std.specs.Option.{option_copied};
ghost use Rattle.complgen_check.specs.Places.{index, key, shown_step};
ghost use Rattle.complgen_check.specs.Checking.{AreSound, AreWarnings, EndsCheck, Finds};
ghost use Rattle.complgen_check.specs.Checking.{IsWarning, Warns, argument_steps, command_steps};
ghost use Rattle.complgen_check.specs.Checking.{is_note, item_steps, key_steps, level_of};
ghost use Rattle.complgen_check.specs.Checking.{only_notes, place_steps};

use crate::all_warnings::tree_warnings;
use crate::errors::{Checked, Finding, Level, Source, check_file};
use crate::report::{Report, put_findings};
use cc_base::{Sink, on_one_line};
use cc_command::Command;
use complgen_lints::{Key, TreePlace, Warning};
use complgen_scripts::{Refusal, UNREADABLE, error_refusal};
use complgen_tree_file::{Scratch, Step};
use std::alloc::{AllocError, Global};

/// Prints the errors in a tree file, or if there are none, the warnings and notes about the command
/// that it describes. Returns whether there is nothing but notes.
///
/// `file` has the bytes of the tree file, or is `None` if it can't be read. The command is checked
/// under the name `bin`, or under its own name if `bin` is `None`. `report` chooses what is printed
/// for a finding: a line of text or a JSON object.
///
/// There is an error exactly if the file describes no command. Otherwise `check` prints a warning
/// for each duplicate key, then what `tree_warnings` returns, each on one line. If it returns true,
/// each premise of the promises about scripts holds. So the script for each shell can be written
/// under that name, unless memory runs out or a write fails, and it reads back.
///
/// # Errors
///
/// A refusal with status 1 if the file can't be read, if a write fails, or if an allocation fails.
/// After an error, `out` holds a beginning of the text, or nothing.
pub fn check<W: Sink>(
    alloc: Global,
    bin: Option<&str>,
    report: Report,
    file: Option<&[u8]>,
    out: &mut W,
) -> Result<bool, Refusal>
    ensures ends { EndsCheck W.taken W.failed (option_copied bin.entry) report out.old out.new
        (option_copied file.entry) result }
    ensures sound { IfOk result (λ clean. IsTrue clean
        → AreSound (option_copied bin.entry) (option_copied file.entry)) }
{
    let Some(bytes) = file else {
        return Err(Refusal::from_static(1, UNREADABLE));
    };
    let found = findings(alloc, bin, bytes)?;
    match put_findings(out, alloc, report, bytes, found.as_slice()) {
        Ok(()) => Ok(only_notes(found.as_slice())),
        Err(error) => Err(error_refusal(alloc, &error)),
    }
}

// Returns whether nothing is found but notes.
fn only_notes(found: &[Finding]) -> bool
    ensures { result ≡ only_notes found.now }
{
    found.iter().all(is_note)
}

// Returns whether a finding is neither an error nor a warning.
fn is_note(finding: &Finding) -> bool
    ensures { result ≡ is_note finding.now.level }
{
    matches!(finding.level, Level::Note)
}

// Returns the errors in a file; or if there are none, warnings about duplicate keys, then the
// warnings and notes about the command.
fn findings(alloc: Global, bin: Option<&str>, bytes: &[u8]) -> Result<Vec<Finding>, AllocError>
    ensures { IfOk result (λ found. Finds (option_copied bin.entry) bytes.now found.items) }
{
    let mut scratch = Scratch::new(alloc);
    match check_file(alloc, bytes, &mut scratch)? {
        Checked::Errors(errors) => Ok(errors),
        Checked::Tree(command, doubles, source) => {
            with_warnings(alloc, bin, source, command, doubles)
        }
    }
}

// Adds the warnings and notes about a command behind those about duplicate keys.
fn with_warnings(
    alloc: Global,
    bin: Option<&str>,
    mut source: Source<'_>,
    command: Command,
    mut doubles: Vec<Finding>,
) -> Result<Vec<Finding>, AllocError>
    ensures { IfOk result (λ all.
        Warns (option_copied bin.entry) command doubles.items all.items) }
{
    let warnings = tree_warnings(alloc, bin, command)?;
    let mut others = warned(alloc, &mut source, warnings.as_slice())?;
    doubles.append(&mut others)?;
    Ok(doubles)
}

// Returns a finding for each of `warnings`.
fn warned(
    alloc: Global,
    source: &mut Source<'_>,
    warnings: &[Warning],
) -> Result<Vec<Finding>, AllocError>
    ensures { IfOk result (λ found. AreWarnings warnings.now found.items) }
{
    let mut found = Vec::new(alloc);
    for warning in warnings {
        found.push(finding(alloc, source, warning)?)?;
    }
    Ok(found)
}

fn finding(alloc: Global, source: &mut Source<'_>, warning: &Warning) -> Result<Finding, AllocError>
    ensures { IfOk result (λ found. IsWarning warning.now found) }
{
    let path = steps(alloc, &warning.place)?;
    let text = warning.to_string(alloc)?;
    let text = on_one_line(alloc, text.as_str())?;
    source.finding(alloc, level(warning), path.as_slice(), false, text)
}

fn level(warning: &Warning) -> Level
    ensures { result ≡ level_of warning.now.kind }
{
    if warning.is_note() {
        Level::Note
    } else {
        Level::Warning
    }
}

// Returns the steps from the whole file to a place in the tree.
fn steps(alloc: Global, place: &TreePlace) -> Result<Vec<Step<'static>>, AllocError>
    ensures { IfOk result (λ steps. map shown_step steps.items ≡ place_steps place.now) }
{
    let mut steps = command_steps(alloc, place.command.as_slice())?;
    push_argument(&mut steps, place.argument)?;
    push_key(&mut steps, place.key)?;
    push_item(&mut steps, place.item)?;
    Ok(steps)
}

fn command_steps(alloc: Global, children: &[usize]) -> Result<Vec<Step<'static>>, AllocError>
    ensures { IfOk result (λ steps. map shown_step steps.items ≡ command_steps children.now) }
{
    let mut steps = Vec::new(alloc);
    for index in children {
        push_place(&mut steps, "subcommands", *index)?;
    }
    Ok(steps)
}

fn push_argument(steps: &mut Vec<Step<'static>>, argument: Option<usize>) -> Result<(), AllocError>
    ensures { OnOk result (map shown_step steps.new.items
        ≡ map shown_step steps.old.items ++ argument_steps argument) }
{
    match argument {
        Some(index) => push_place(steps, "args", index),
        None => Ok(()),
    }
}

// Appends the steps to the item at `place` of the list at the key `list`.
fn push_place(
    steps: &mut Vec<Step<'static>>,
    list: &'static str,
    place: usize,
) -> Result<(), AllocError>
    ensures { OnOk result (map shown_step steps.new.items
        ≡ map shown_step steps.old.items ++ key list.now ∷ index place ∷ []) }
{
    steps.push(Step::Key(list))?;
    steps.push(Step::Item(place))?;
    Ok(())
}

fn push_key(steps: &mut Vec<Step<'static>>, key: Option<Key>) -> Result<(), AllocError>
    ensures { OnOk result (map shown_step steps.new.items
        ≡ map shown_step steps.old.items ++ key_steps key) }
{
    let Some(key) = key else {
        return Ok(());
    };
    steps.push(Step::Key(key.as_str()))?;
    Ok(())
}

fn push_item(steps: &mut Vec<Step<'static>>, item: Option<usize>) -> Result<(), AllocError>
    ensures { OnOk result (map shown_step steps.new.items
        ≡ map shown_step steps.old.items ++ item_steps item) }
{
    let Some(index) = item else {
        return Ok(());
    };
    steps.push(Step::Item(index))?;
    Ok(())
}
