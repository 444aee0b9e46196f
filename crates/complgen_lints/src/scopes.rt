//! Finds names that two arguments of a command have, also if it inherits one of them, and conflicts
//! with ids that no argument has.

use crate::argument_names::{Named, push_all_names, push_names_of, push_taken, seen_of};
use crate::found::{Added, Found, Spot};
use crate::names::PlacedName;
use crate::place::Key;
use crate::warning::Advice;
use cc_arg::{Arg, conflicting_ids};
use cc_base::TextRef;
use cc_command::has_id;
use std::alloc::{AllocError, Global};
use std::collections::HashMap;

/// Adds findings about `arguments` together with the `inherited` ones: about taken ids, then longs,
/// then shorts, and then about unknown conflicts.
pub(crate) fn push_scope(
    found: &mut Found<Advice>,
    inherited: &[&Arg],
    arguments: &[Arg],
) -> Added {
    push_taken_of(found, Named::Id, &[], arguments)?;
    push_taken_of(found, Named::Long, inherited, arguments)?;
    push_taken_of(found, Named::Short, inherited, arguments)?;
    push_conflicts(found, inherited, arguments)
}

/// Returns `others` without those whose id one of `arguments` has.
pub(crate) fn inherited_with<'a>(
    alloc: Global,
    arguments: &[Arg],
    others: &[&'a Arg],
) -> Result<Vec<&'a Arg>, AllocError> {
    let mut kept = Vec::new(alloc);
    for other in others {
        if has_id(arguments, other.get_id()) {
            continue;
        }
        kept.push(*other)?;
    }
    Ok(kept)
}

/// Adds the global ones among `arguments`.
pub(crate) fn push_globals<'a>(inherited: &mut Vec<&'a Arg>, arguments: &'a [Arg]) -> Added {
    for argument in arguments {
        if !argument.is_global_set() {
            continue;
        }
        inherited.push(argument)?;
    }
    Ok(())
}

fn push_taken_of(
    found: &mut Found<Advice>,
    named: Named,
    inherited: &[&Arg],
    arguments: &[Arg],
) -> Added {
    let alloc = found.allocator();
    let mut others = Vec::new(alloc);
    push_inherited_names(&mut others, alloc, named, inherited)?;
    let mut names = Vec::new(alloc);
    push_all_names(&mut names, alloc, named, arguments)?;
    push_taken(found, named, &others, &names)
}

fn push_inherited_names<'a>(
    names: &mut Vec<PlacedName<'a>>,
    alloc: Global,
    named: Named,
    inherited: &[&'a Arg],
) -> Added {
    let mut parts = Vec::new(alloc);
    for (index, argument) in inherited.iter().enumerate() {
        push_names_of(names, &mut parts, alloc, named, index, argument)?;
    }
    Ok(())
}

// Adds findings about unknown conflicts. Collects ids only if an argument has conflicts.
fn push_conflicts(found: &mut Found<Advice>, inherited: &[&Arg], arguments: &[Arg]) -> Added {
    if !arguments.iter().any(has_conflicts) {
        return Ok(());
    }
    let alloc = found.allocator();
    let mut names = Vec::new(alloc);
    push_inherited_names(&mut names, alloc, Named::Id, inherited)?;
    push_all_names(&mut names, alloc, Named::Id, arguments)?;
    let seen = seen_of(alloc, &names)?;
    push_unknown(found, &seen, arguments)
}

fn has_conflicts(argument: &Arg) -> bool {
    !conflicting_ids(argument).is_empty()
}

// Adds a finding for each conflict with an id that is not in `seen`.
fn push_unknown(
    found: &mut Found<Advice>,
    seen: &HashMap<&str, TextRef<'_>>,
    arguments: &[Arg],
) -> Added {
    for (index, argument) in arguments.iter().enumerate() {
        push_conflicts_of(found, seen, index, argument)?;
    }
    Ok(())
}

fn push_conflicts_of(
    found: &mut Found<Advice>,
    seen: &HashMap<&str, TextRef<'_>>,
    index: usize,
    argument: &Arg,
) -> Added {
    let ids = conflicting_ids(argument);
    for (item, id) in ids.iter().enumerate() {
        if is_known(seen, id.as_str()) {
            continue;
        }
        let advice = Advice::UnknownConflict(id.try_clone(found.allocator())?);
        found.note(
            Spot::Argument(index),
            Key::ConflictsWith,
            Some(item),
            advice,
        )?;
    }
    Ok(())
}

// Returns whether `id` is in `seen`, or is the id of a flag that building may add.
fn is_known(seen: &HashMap<&str, TextRef<'_>>, id: &str) -> bool {
    seen.get(id).is_some() || (id == "help" || id == "version")
}
