//! Finds names of subcommands that are already taken.

ghost use Rattle.std.specs.Prelude.{◌≡◌, ◌++◌, [], OnOk};
ghost use Rattle.cc_command.specs.Tree.{forest_of};
ghost use Rattle.complgen_lints.specs.PlacedNames.{taken_by, taken_from};
ghost use Rattle.complgen_lints.specs.SiblingNames.{names_from, names_of, taken_names};

use crate::found::{Added, Found, Spot};
use crate::names::{PlacedName, keep, push_named_parts};
use crate::parts::{Part, push_name_parts};
use crate::warning::Premise;
use cc_base::{Text, TextRef};
use cc_command::Command;
use std::alloc::Global;
use std::collections::HashMap;

/// Adds a finding for each name or alias of `children` that an earlier child has, or the same child
/// before.
pub(crate) fn push_taken_names(found: &mut Found<Premise>, children: &[Command]) -> Added
    ensures { OnOk result (found.new ≡ found.old ++ taken_names (forest_of children.now)) }
{
    let mut names = Vec::new(found.allocator());
    push_names(&mut names, found.allocator(), children)?;
    push_taken(found, &names)
}

fn push_names<'a>(names: &mut Vec<PlacedName<'a>>, alloc: Global, children: &'a [Command]) -> Added
    ensures { OnOk result (names.new.items
        ≡ names.old.items ++ names_from 0 (forest_of children.now)) }
{
    let mut parts = Vec::new(alloc);
    for (index, child) in children.iter().enumerate() {
        push_names_of(names, &mut parts, alloc, index, child)?;
    }
    Ok(())
}

// Adds the names of `child`. Uses the room of `parts`.
fn push_names_of<'a>(
    names: &mut Vec<PlacedName<'a>>,
    parts: &mut Vec<Part<'a>>,
    alloc: Global,
    index: usize,
    child: &'a Command,
) -> Added
    ensures { OnOk result (names.new.items ≡ names.old.items ++ names_of index child.now.node) }
{
    parts.clear();
    push_name_parts(parts, child)?;
    push_named_parts(names, alloc, index, child.get_name(), parts)
}

// Adds a finding for each of `names` that equals an earlier one.
#[tactic(auto, unfolding(crate::specs::PlacedNames::owner_in))]
fn push_taken(found: &mut Found<Premise>, names: &[PlacedName<'_>]) -> Added
    ensures { OnOk result (found.new ≡ found.old ++ taken_from [] names.now) }
{
    let mut seen = HashMap::new(found.allocator());
    for name in names {
        let owner = keep(&mut seen, name.name.as_str(), name.owner.as_str())?;
        push_if_taken(found, name, owner)?;
    }
    Ok(())
}

// Adds a finding about `name` if it has an earlier `owner`.
fn push_if_taken(
    found: &mut Found<Premise>,
    name: &PlacedName<'_>,
    owner: Option<TextRef<'_>>,
) -> Added
    ensures { OnOk result (found.new ≡ found.old ++ taken_by owner.entry name.now) }
{
    let Some(owner) = owner else {
        return Ok(());
    };
    let alloc = found.allocator();
    let taken = Text::copy_of(alloc, name.name.as_str())?;
    let premise = Premise::TakenName(taken, Text::copy_of(alloc, owner.as_str())?);
    found.note(Spot::Child(name.index), name.key, name.item, premise)
}
