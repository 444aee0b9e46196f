//! Finds indexes of positionals that are out of range or taken.

use crate::argument_names::{Named, number_text, push_all_names, push_index, push_taken};
use crate::found::{Added, Found, Spot};
use crate::names::PlacedName;
use crate::place::Key;
use crate::warning::Advice;
use cc_arg::Arg;
use cc_command::lacks_index;
use std::alloc::{AllocError, Global};

/// Adds findings about the indexes of the positionals among `arguments`: first those out of range,
/// then those that another positional has.
pub(crate) fn push_positionals(found: &mut Found<Advice>, arguments: &[Arg]) -> Added {
    let count = count_positionals(arguments);
    for (index, argument) in arguments.iter().enumerate() {
        push_if_outside(found, count, index, argument)?;
    }
    push_taken_indexes(found, arguments)
}

fn count_positionals(arguments: &[Arg]) -> usize {
    let mut count: usize = 0;
    for argument in arguments {
        if argument.is_positional() {
            count = count.saturating_add(1);
        }
    }
    count
}

// Adds a finding if the index of `argument` is 0, or greater than `count`, the number of positionals.
fn push_if_outside(found: &mut Found<Advice>, count: usize, spot: usize, argument: &Arg) -> Added {
    if !argument.is_positional() {
        return Ok(());
    }
    let Some(index) = argument.get_index() else {
        return Ok(());
    };
    if index > 0 && index <= count {
        return Ok(());
    }
    let advice = outside(found.allocator(), index, count)?;
    found.note(Spot::Argument(spot), Key::Index, None, advice)
}

fn outside(alloc: Global, index: usize, count: usize) -> Result<Advice, AllocError> {
    let index = number_text(alloc, index)?;
    Ok(Advice::IndexOutOfRange(index, number_text(alloc, count)?))
}

// Adds a finding for each index that is set, if an earlier positional sets it too, or if a
// positional without one gets it by counting.
fn push_taken_indexes(found: &mut Found<Advice>, arguments: &[Arg]) -> Added {
    let alloc = found.allocator();
    let mut given = Vec::new(alloc);
    push_all_names(&mut given, alloc, Named::Index, arguments)?;
    if given.is_empty() {
        return Ok(());
    }
    let mut counted = Vec::new(alloc);
    push_counted(&mut counted, alloc, arguments)?;
    push_taken(found, Named::Index, &counted, &given)
}

// Adds the counted indexes of the positionals for which none is set.
fn push_counted<'a>(names: &mut Vec<PlacedName<'a>>, alloc: Global, arguments: &'a [Arg]) -> Added {
    let mut number: usize = 1;
    for (index, argument) in arguments.iter().enumerate() {
        if lacks_index(argument) {
            push_index(names, alloc, index, number, argument.get_id())?;
            number = number.saturating_add(1);
        }
    }
    Ok(())
}
