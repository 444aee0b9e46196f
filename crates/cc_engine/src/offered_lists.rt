//! The lists of candidates that are offered for a word.

ghost use Rattle.std.specs.Prelude.{◌≡◌, List, IfOk};
ghost use Rattle.std.specs.Option.{option_copied};
ghost use Rattle.cc_candidates.specs.declared.candidate.CompletionCandidate.{CompletionCandidate};
ghost use Rattle.cc_engine.specs.Completion.{children_question, offered_children};
ghost use Rattle.cc_engine.specs.Completion.{positional_question, positional_values};
ghost use Rattle.cc_engine.specs.Completion.{offered_match, match_candidates, match_question};
ghost use Rattle.cc_engine.specs.Values.{Allows};

use crate::gathering::{OptionMatch, all_with_prefix, match_options, subcommand_candidates};
use crate::lookup::Lookup;
use cc_arg::Arg;
use cc_candidates::CompletionCandidate;
use cc_command::Command;
use std::alloc::{AllocError, Global};

/// Returns the children of `command` that begin with `word`, and the names of other programs that
/// its list adds; nothing unless children are `offered`.
///
/// # Errors
///
/// `AllocError` if an allocation fails.
pub(crate) fn children<L: Lookup>(
    alloc: Global,
    offered: bool,
    command: &Command,
    word: &str,
    lookup: &L,
) -> Result<Vec<CompletionCandidate>, AllocError>
    ensures { IfOk result (λ found. (returned : List CompletionCandidate)
        × Allows (L.may_return lookup.now) (children_question offered command.now.node) returned
        × (found.items ≡ offered_children offered command.now word.now returned)) }
{
    if !offered {
        return Ok(Vec::new(alloc));
    }
    let programs = lookup.other_programs(alloc, command)?;
    subcommand_candidates(alloc, command, programs, word)
}

/// Returns the values of a positional for `word`, which is its value number `number`; nothing if
/// there is no positional or no number.
///
/// # Errors
///
/// `AllocError` if an allocation fails.
pub(crate) fn positional_values<L: Lookup>(
    alloc: Global,
    positional: Option<&Arg>,
    number: Option<usize>,
    word: &str,
    lookup: &L,
) -> Result<Vec<CompletionCandidate>, AllocError>
    ensures { IfOk result (λ found. (returned : List CompletionCandidate)
        × Allows (L.may_return lookup.now)
        (positional_question (option_copied positional.entry) number word.now) returned
        × (found.items
        ≡ positional_values (option_copied positional.entry) number word.now returned)) }
{
    match (positional, number) {
        (Some(argument), Some(number)) => lookup.values(alloc, argument, word, number),
        (Some(_), None) | (None, _) => Ok(Vec::new(alloc)),
    }
}

/// Returns the options among `arguments` that `word` may become, or the values of the option that
/// it names; nothing unless options are `offered`.
///
/// # Errors
///
/// `AllocError` if an allocation fails.
pub(crate) fn options<L: Lookup>(
    alloc: Global,
    offered: bool,
    arguments: &[Arg],
    word: &str,
    lookup: &L,
) -> Result<Vec<CompletionCandidate>, AllocError>
    ensures { IfOk result (λ found. (returned : List CompletionCandidate)
        × Allows (L.may_return lookup.now)
        (match_question (offered_match offered arguments.now word.now)) returned
        × (found.items
        ≡ match_candidates (offered_match offered arguments.now word.now) returned)) }
{
    if !offered {
        return Ok(Vec::new(alloc));
    }
    match match_options(alloc, arguments, word)? {
        OptionMatch::Listed(found) => Ok(found.into_vec()),
        OptionMatch::ValuesOf(wanted) => {
            let values = lookup.values(alloc, wanted.argument.get(), wanted.text.as_str(), 0)?;
            all_with_prefix(alloc, values, wanted.before.as_str())
        }
    }
}
