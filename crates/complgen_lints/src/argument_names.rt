//! Finds ids, longs, shorts and indexes of arguments that are already taken.

use crate::found::{Added, Found, Spot};
use crate::names::{Name, PlacedName, keep, push_name, push_named_parts};
use crate::parts::{Part, push_long_parts, push_short_parts, push_text};
use crate::place::Key;
use crate::warning::Advice;
use cc_arg::Arg;
use cc_base::{Text, TextRef};
use std::alloc::{AllocError, Global};
use std::borrow::CowStr;
use std::collections::HashMap;

/// A kind of name. No two arguments of a command may share one.
#[derive(Clone, Copy)]
pub(crate) enum Named {
    Id,
    Long,
    Short,
    Index,
}

/// Adds the names of the kind `named` that `arguments` have.
pub(crate) fn push_all_names<'a>(
    names: &mut Vec<PlacedName<'a>>,
    alloc: Global,
    named: Named,
    arguments: &'a [Arg],
) -> Added {
    let mut parts = Vec::new(alloc);
    for (index, argument) in arguments.iter().enumerate() {
        push_names_of(names, &mut parts, alloc, named, index, argument)?;
    }
    Ok(())
}

/// Adds the names of the kind `named` that `argument` has. Uses the room of `parts`.
pub(crate) fn push_names_of<'a>(
    names: &mut Vec<PlacedName<'a>>,
    parts: &mut Vec<Part<'a>>,
    alloc: Global,
    named: Named,
    index: usize,
    argument: &'a Arg,
) -> Added {
    let id = argument.get_id();
    parts.clear();
    match named {
        Named::Id => push_text(parts, Key::Id, None, id)?,
        Named::Long => push_long_parts(parts, argument)?,
        Named::Short => push_short_parts(parts, argument)?,
        Named::Index => return push_some_index(names, alloc, index, argument),
    }
    push_named_parts(names, alloc, index, id, parts)
}

// Adds the index of a positional, if one is set.
fn push_some_index<'a>(
    names: &mut Vec<PlacedName<'a>>,
    alloc: Global,
    index: usize,
    argument: &'a Arg,
) -> Added {
    if !argument.is_positional() {
        return Ok(());
    }
    match argument.get_index() {
        Some(number) => push_index(names, alloc, index, number, argument.get_id()),
        None => Ok(()),
    }
}

/// Adds `index` as a name of the positional with this `id`, which is argument number `argument`.
pub(crate) fn push_index<'a>(
    names: &mut Vec<PlacedName<'a>>,
    alloc: Global,
    argument: usize,
    index: usize,
    id: &'a str,
) -> Added {
    let text = CowStr::Owned(number_text(alloc, index)?.into_string());
    push_name(names, argument, Key::Index, None, Name { text }, id)
}

/// Returns `number` in decimal digits.
pub(crate) fn number_text(alloc: Global, number: usize) -> Result<Text, AllocError> {
    Ok(Text::from(format!(in alloc; "{number}")?))
}

/// Adds a finding for each of `names` that equals an earlier one of them, or one of `others`.
pub(crate) fn push_taken(
    found: &mut Found<Advice>,
    named: Named,
    others: &[PlacedName<'_>],
    names: &[PlacedName<'_>],
) -> Added {
    let mut seen = seen_of(found.allocator(), others)?;
    for name in names {
        let owner = keep(&mut seen, name.name.as_str(), name.owner.as_str())?;
        push_if_taken(found, named, name, owner)?;
    }
    Ok(())
}

/// Returns a map from each name to its last owner in `names`.
pub(crate) fn seen_of<'a>(
    alloc: Global,
    names: &'a [PlacedName<'_>],
) -> Result<HashMap<&'a str, TextRef<'a>>, AllocError> {
    let mut seen = HashMap::new(alloc);
    for name in names {
        keep(&mut seen, name.name.as_str(), name.owner.as_str())?;
    }
    Ok(seen)
}

// Adds a finding about `name` if it has an earlier `owner`.
fn push_if_taken(
    found: &mut Found<Advice>,
    named: Named,
    name: &PlacedName<'_>,
    owner: Option<TextRef<'_>>,
) -> Added {
    let Some(owner) = owner else {
        return Ok(());
    };
    let advice = taken(found.allocator(), named, name.name.as_str(), owner.as_str())?;
    found.note(Spot::Argument(name.index), name.key, name.item, advice)
}

fn taken(alloc: Global, named: Named, name: &str, owner: &str) -> Result<Advice, AllocError> {
    let name = Text::copy_of(alloc, name)?;
    match named {
        Named::Id => Ok(Advice::TakenId(name)),
        Named::Long => Ok(Advice::TakenLong(name, Text::copy_of(alloc, owner)?)),
        Named::Short => Ok(Advice::TakenShort(name, Text::copy_of(alloc, owner)?)),
        Named::Index => Ok(Advice::TakenIndex(name, Text::copy_of(alloc, owner)?)),
    }
}
