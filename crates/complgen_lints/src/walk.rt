//! Walks over a tree, and collects the warnings about each command with their places in the tree.

ghost use Rattle.std.specs.Prelude.{◌≡◌, ◌∷◌, [], ◌++◌, IfOk, OnOk, map};
ghost use Rattle.cc_command.specs.Tree.{forest_of};
ghost use Rattle.complgen_lints.specs.Findings.{placed, placed_finding};
ghost use Rattle.complgen_lints.specs.Premises.{premises_in};
ghost use Rattle.complgen_lints.specs.PremiseList.{forest_list, premises_of, tree_list};

use crate::found::{Added, Finding, Found};
use crate::lints::{push_advice, push_premises};
use crate::scopes::{inherited_with, push_globals};
use crate::warning::{Advice, Kind, Premise, Warning};
use cc_arg::Arg;
use cc_base::Items;
use cc_command::Command;
use std::alloc::{AllocError, Global};

/// The path of a command, and the allocator for warnings about it.
#[derive(Clone, Copy)]
pub(crate) struct At<'a> {
    pub(crate) alloc: Global,
    /// The path from the root to the command: indexes of subcommands, counted from 0.
    pub(crate) path: &'a [usize],
}

/// Adds the warnings about `command`, which inherits those of `others` whose ids it lacks, then the
/// warnings about each subcommand and all below it.
#[cycle(walk)]
pub(crate) fn push_tree<'a>(
    warnings: &mut Vec<Warning>,
    at: At<'_>,
    others: &[&'a Arg],
    command: &'a Command,
) -> Added
    ensures { OnOk result (premises_in warnings.new.items
        ≡ premises_in warnings.old.items ++ tree_list at.entry.path.now command.now) }
{
    place_premises(warnings, at, command)?;
    let arguments = command.get_arguments();
    let mut inherited = inherited_with(at.alloc, arguments, others)?;
    place_advice(warnings, at, &inherited, command)?;
    push_globals(&mut inherited, arguments)?;
    push_children(warnings, at, &inherited, command.get_subcommands())
}

#[cycle(walk)]
fn push_children<'a>(
    warnings: &mut Vec<Warning>,
    at: At<'_>,
    others: &[&'a Arg],
    children: &'a [Command],
) -> Added
    ensures { OnOk result (premises_in warnings.new.items ≡ premises_in warnings.old.items
        ++ forest_list at.entry.path.now 0 (forest_of children.now)) }
{
    for (index, child) in children.iter().enumerate() {
        let path = path_below(at, &[index])?;
        let below = At {
            alloc: at.alloc,
            path: path.as_slice(),
        };
        push_tree(warnings, below, others, child)?;
    }
    Ok(())
}

// Adds the warnings that a premise about the command at `at` does not hold.
fn place_premises(warnings: &mut Vec<Warning>, at: At<'_>, command: &Command) -> Added
    ensures { OnOk result (premises_in warnings.new.items ≡ premises_in warnings.old.items
        ++ map (placed_finding at.entry.path.now) (premises_of command.now)) }
{
    let mut found = Found::new(at.alloc);
    push_premises(&mut found, command)?;
    for finding in found.into_vec() {
        place_premise(warnings, at, finding)?;
    }
    Ok(())
}

fn place_premise(warnings: &mut Vec<Warning>, at: At<'_>, finding: Finding<Premise>) -> Added
    ensures { OnOk result (premises_in warnings.new.items
        ≡ premises_in warnings.old.items ++ placed_finding at.entry.path.now finding ∷ []) }
{
    let Finding { place, kind } = finding;
    let kind = Kind::Premise(kind);
    let warning = placed(at, Warning { place, kind })?;
    warnings.push(warning)?;
    Ok(())
}

// Adds the other warnings about the command at `at`, and the notes.
fn place_advice(
    warnings: &mut Vec<Warning>,
    at: At<'_>,
    inherited: &[&Arg],
    command: &Command,
) -> Added
    ensures { OnOk result (premises_in warnings.new.items ≡ premises_in warnings.old.items) }
{
    let mut found = Found::new(at.alloc);
    push_advice(&mut found, inherited, command)?;
    for finding in found.into_vec() {
        place_one_advice(warnings, at, finding)?;
    }
    Ok(())
}

fn place_one_advice(warnings: &mut Vec<Warning>, at: At<'_>, finding: Finding<Advice>) -> Added
    ensures { OnOk result (premises_in warnings.new.items ≡ premises_in warnings.old.items) }
{
    let Finding { place, kind } = finding;
    let kind = Kind::Advice(kind);
    let warning = placed(at, Warning { place, kind })?;
    warnings.push(warning)?;
    Ok(())
}

fn placed(at: At<'_>, mut warning: Warning) -> Result<Warning, AllocError>
    ensures place { IfOk result (λ there. there.place ≡ placed at.entry.path.now warning.place) }
    ensures kind { IfOk result (λ there. there.kind ≡ warning.kind) }
{
    match path_below(at, warning.place.command.as_slice()) {
        Ok(path) => {
            warning.place.command = Items::from(path);
            Ok(warning)
        }
        Err(error) => {
            // One call here, instead of a drop of each field and variant.
            drop(warning);
            Err(error)
        }
    }
}

// Returns the path of the command to which the steps `below` lead from the one at `at`.
fn path_below(at: At<'_>, below: &[usize]) -> Result<Vec<usize>, AllocError>
    ensures { IfOk result (λ path. path.items ≡ at.entry.path.now ++ below.now) }
{
    let mut path = Vec::with_capacity(at.alloc, at.path.len().saturating_add(below.len()))?;
    path.extend_from_slice(at.path)?;
    path.extend_from_slice(below)?;
    Ok(path)
}
