//! Finds all warnings about a command, including the one about a shared label of the bash script.

ghost use Rattle.std.specs.Prelude.{◌≡◌, ◌++◌, IfOk, IsTrue, OnOk};
ghost use Rattle.std.specs.Option.{option_copied};
ghost use Rattle.std.specs.String.{string_bytes};
ghost use Rattle.complgen_lints.specs.Notes.{are_notes};
ghost use Rattle.complgen_lints.specs.Premises.{name_no_premise, premises_in};
ghost use Rattle.cc_bash.specs.Labels.{shared_label};
ghost use Rattle.complgen_check.specs.Promises.{HoldPremises, holds_each};
ghost use Rattle.complgen_check.specs.TreeWarnings.{ReportPremises, built_as, called, label_list};

use cc_base::Items;
use cc_bash::clashing_label;
use cc_command::{Command, build_as, full_name};
use complgen_lints::{Kind, Premise, TreePlace, Warning, command_warnings};
use std::alloc::{AllocError, Global};

/// Returns the warnings and notes about `command`, which is called by the name `bin`. If `bin` is
/// `None`, it is called by its own bin name, or if it has none, by its name. The warnings of
/// `command_warnings` come first. If two commands share a label of the bash script, the last
/// warning reports that. Its place is the root.
///
/// The clauses say which premises of the promises about scripts are found not to hold, and where. A
/// warning says so exactly if one does not hold. So if there are only notes, each premise holds.
/// The script for each shell can then be written, unless memory runs out or a write fails, and it
/// reads back.
///
/// # Errors
///
/// `AllocError` if an allocation fails.
pub fn tree_warnings(
    alloc: Global,
    bin: Option<&str>,
    mut command: Command,
) -> Result<Vec<Warning>, AllocError>
    ensures list { IfOk result (λ found.
        ReportPremises (option_copied bin.entry) command found.items) }

    // If there are only notes, the premises hold.
    ensures premises { IfOk result (λ found. IsTrue (are_notes found.items) →
        HoldPremises (option_copied bin.entry) command) }

    // A warning says that a premise does not hold exactly if one does not hold.
    ensures exactly { IfOk result (λ found. name_no_premise found.items
        ≡ holds_each (option_copied bin.entry) command) }
{
    let found = found_in(alloc, bin, &mut command);
    // One call here, instead of a drop at each exit.
    drop(command);
    found
}

// Returns the warnings about `command`, which it builds.
fn found_in(
    alloc: Global,
    bin: Option<&str>,
    command: &mut Command,
) -> Result<Vec<Warning>, AllocError>
    ensures { IfOk result (λ found.
        ReportPremises (option_copied bin.entry) command.old found.items) }
{
    let mut found = command_warnings(alloc, bin, command)?;
    build_called(alloc, bin, command)?;
    push_label(&mut found, alloc, command)?;
    Ok(found)
}

// Builds the command under the name by which it is called.
fn build_called(alloc: Global, bin: Option<&str>, command: &mut Command) -> Result<(), AllocError>
    ensures { OnOk result (command.new ≡ built_as (option_copied bin.entry) command.old) }
{
    let name = called_name(alloc, bin, command)?;
    match build_as(command, alloc, name) {
        Ok(()) => Ok(()),
        Err(_) => Err(AllocError),
    }
}

fn called_name(alloc: Global, bin: Option<&str>, command: &Command) -> Result<String, AllocError>
    ensures { IfOk result (λ name.
        string_bytes name ≡ called (option_copied bin.entry) command.now) }
{
    match bin {
        Some(bin) => String::from_str(alloc, bin),
        None => String::from_str(alloc, full_name(command)),
    }
}

// Appends a warning if two nodes of a built command share a label.
fn push_label(found: &mut Vec<Warning>, alloc: Global, command: &Command) -> Result<(), AllocError>
    ensures { OnOk result (premises_in found.new.items
        ≡ premises_in found.old.items ++ premises_in (label_list (shared_label command.now))) }
{
    let Some(label) = clashing_label(alloc, command)? else {
        return Ok(());
    };
    let place = TreePlace {
        command: Items::new(alloc),
        argument: None,
        key: None,
        item: None,
    };
    found.push(Warning {
        place,
        kind: Kind::Premise(Premise::SharedLabel(label)),
    })?;
    Ok(())
}
