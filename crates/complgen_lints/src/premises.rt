//! Finds all warnings about a command, and warns of bin names that are not plain.

ghost use Rattle.std.specs.Prelude.{◌≡◌, [], ◌++◌, IfOk, IsTrue, OnOk};
ghost use Rattle.std.specs.Option.{option_copied};
ghost use Rattle.complgen_lints.specs.Notes.{are_notes};
ghost use Rattle.complgen_lints.specs.PremiseList.{bin_list, bin_premise, premise_list};
ghost use Rattle.complgen_lints.specs.Premises.{holds_premises, name_no_premise, premises_in};

use crate::found::Added;
use crate::place::{Key, TreePlace};
use crate::walk::{At, push_tree};
use crate::warning::{Kind, Premise, Warning};
use cc_base::{Items, Text, is_plain_name};
use cc_command::Command;
use std::alloc::{AllocError, Global};

/// Returns the warnings and notes about `command`, which is called by the bin name `bin` if that is
/// not `None`. First come the warnings about bin names that are not plain. Then come the warnings
/// about each command, before those about the commands below it, in this order:
///
/// 1. names that are not plain, and names of subcommands that are taken;
/// 2. possible values that are not quiet, quotes that the PowerShell script does not escape, and
///    signs that end a text of the zsh script;
/// 3. settings of arguments that make a shell offer something wrong, first by themselves, then
///    together with the arguments that the command inherits;
/// 4. notes about a hidden command and hidden arguments;
/// 5. notes about commands that a tab runs, and warnings about sources of values.
///
/// The clauses say which premises are found, and where. Cases show the other findings.
///
/// A label of the bash script that two commands share is not among them. The other premises of the
/// promises about scripts are that the command and the bin name are plain, that possible values are
/// quiet, and that the PowerShell script escapes each quote. A warning says that a premise does not
/// hold exactly if one of them does not. So all of them hold if there are only notes.
///
/// # Errors
///
/// `AllocError` if an allocation fails.
pub fn command_warnings(
    alloc: Global,
    bin: Option<&str>,
    command: &Command,
) -> Result<Vec<Warning>, AllocError>
    ensures list { IfOk result (λ found.
        premises_in found.items ≡ premise_list (option_copied bin.entry) command.now) }
    ensures premises { IfOk result (λ found. IsTrue (are_notes found.items) →
        IsTrue (holds_premises (option_copied bin.entry) command.now)) }

    // A warning says that a premise does not hold exactly if one does not hold.
    ensures exactly { IfOk result (λ found. name_no_premise found.items
        ≡ holds_premises (option_copied bin.entry) command.now) }
{
    let mut warnings = Vec::new(alloc);
    push_bin(&mut warnings, alloc, None, bin)?;
    push_bin(
        &mut warnings,
        alloc,
        Some(Key::BinName),
        command.get_bin_name(),
    )?;
    push_tree(&mut warnings, root(alloc), &[], command)?;
    Ok(warnings)
}

fn root(alloc: Global) -> At<'static>
    ensures { result.path.now ≡ [] }
{
    At { alloc, path: &[] }
}

// Adds a warning if `bin` is not plain. `key` is `None` for the bin name of a call, which has no
// place in the tree.
fn push_bin(
    warnings: &mut Vec<Warning>,
    alloc: Global,
    key: Option<Key>,
    bin: Option<&str>,
) -> Added
    ensures { OnOk result (premises_in warnings.new.items
        ≡ premises_in warnings.old.items ++ bin_list key (option_copied bin.entry)) }
{
    let Some(bin) = bin else {
        return Ok(());
    };
    if is_plain_name(bin) {
        return Ok(());
    }
    let kind = Kind::Premise(bin_premise(key, Text::copy_of(alloc, bin)?));
    let place = TreePlace {
        command: Items::new(alloc),
        argument: None,
        key,
        item: None,
    };
    warnings.push(Warning { place, kind })?;
    Ok(())
}

fn bin_premise(key: Option<Key>, bin: Text) -> Premise
    ensures { result ≡ bin_premise key bin }
{
    match key {
        None => Premise::BinNotPlain(bin),
        Some(_) => Premise::NotPlain(bin),
    }
}
