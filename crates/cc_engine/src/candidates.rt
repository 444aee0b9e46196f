//! The list of candidates that is offered for a word.

ghost use Rattle.std.specs.Prelude.{◌≡◌, ◌++◌, nat_le, IfOk, if◌then◌else◌};
ghost use Rattle.cc_engine.specs.Finished.{finish};
ghost use Rattle.cc_engine.specs.OpenLists.{least};
ghost use Rattle.cc_engine.specs.Completion.{AreOffered, Offers};

use crate::gathering::{finish, finish_after};
use crate::lookup::Lookup;
use crate::offered_lists::{children, options, positional_values};
use crate::open_lists::OpenLists;
use crate::walking::{Pending, State, positional_at};
use cc_arg::{Arg, counted_range};
use cc_candidates::CompletionCandidate;
use cc_command::Command;
use std::alloc::{AllocError, Global};

/// Returns what is offered for `word` at the node `command`, if the words before it lead to
/// `state`.
///
/// # Errors
///
/// `AllocError` if an allocation fails.
pub(crate) fn offer_candidates<L: Lookup>(
    alloc: Global,
    command: &Command,
    state: &State<'_>,
    word: &str,
    lookup: &L,
) -> Result<Vec<CompletionCandidate>, AllocError>
    ensures { IfOk result (λ found. Offers (L.may_return lookup.now)
        command.now state.now word.now found.items) }
{
    let lists = OpenLists::new(command.get_arguments(), state);
    let besides = besides_open_option(alloc, command, state.position, &lists, word, lookup)?;
    let Pending::OptionOpen(option, count) = &state.pending else {
        return finish(alloc, besides);
    };
    let values = lookup.values(alloc, option.get(), word, *count)?;
    finish_values(alloc, option.get(), *count, values, besides)
}

// Joins the candidates for the next value of the open option, which has `count` values, with what
// may follow them if these are enough, and finishes the list.
fn finish_values(
    alloc: Global,
    option: &Arg,
    count: usize,
    values: Vec<CompletionCandidate>,
    besides: Vec<CompletionCandidate>,
) -> Result<Vec<CompletionCandidate>, AllocError>
    ensures { IfOk result (λ found. found.items ≡ finish (if nat_le (least option.now) count
        then values.items ++ finish besides.items else values.items)) }
{
    if counted_range(option).min_values() <= count {
        return finish_after(alloc, values, besides);
    }
    finish(alloc, values)
}

// Returns what is offered in addition to the values of an open option: the offered lists, one after
// another.
fn besides_open_option<L: Lookup>(
    alloc: Global,
    command: &Command,
    position: usize,
    lists: &OpenLists,
    word: &str,
    lookup: &L,
) -> Result<Vec<CompletionCandidate>, AllocError>
    ensures { IfOk result (λ found. AreOffered (L.may_return lookup.now)
        command.now position lists.now word.now found.items) }
{
    let arguments = command.get_arguments();
    let mut found = children(alloc, lists.children, command, word, lookup)?;
    let positional = positional_at(arguments, position);
    let mut values = positional_values(alloc, positional, lists.value, word, lookup)?;
    let mut options = options(alloc, lists.options, arguments, word, lookup)?;
    found.append(&mut values)?;
    found.append(&mut options)?;
    Ok(found)
}
