//! The argument that a word asks for: its values are offered there, and a source outside the
//! command lists them.

ghost use Rattle.std.specs.Prelude.{◌≡◌, find, length, map, option_to_list, string_bytes, true};
ghost use Rattle.std.specs.Prelude.{IfOk, IfErr, OnOk};
ghost use Rattle.std.specs.Option.{option_copied};
ghost use Rattle.cc_arg.specs.ValueSources.{has_source};
ghost use Rattle.cc_command.specs.Built.{built_tree};
ghost use Rattle.cc_engine.specs.Asked.{Asks, argument_within, asked_argument};
ghost use Rattle.cc_engine.specs.Asked.{offered_positional, opened_argument, unless_dash};
ghost use Rattle.cc_engine.specs.Completion.{Refuses, is_in_range, offered_match};
ghost use Rattle.cc_engine.specs.Lookup.{positional_at};

use crate::gathering::{OptionMatch, match_options};
use crate::open_lists::OpenLists;
use crate::place::{in_range, place_at};
use crate::walking::{Pending, State, positional_at};
use cc_arg::{Arg, copy_of, has_source};
use cc_base::Error;
use cc_command::Command;
use std::alloc::{AllocError, Global};

/// Returns a copy of the argument that the word at `index`, counted from 0, asks for in a command
/// line of `command`, which is built first.
///
/// That is the first argument whose values are offered there and come from a command, a file or a
/// hint whose values the system knows. An open option goes first, then the option whose value is
/// within the word, then the positional. The `words` are those that `complete_from` takes.
///
/// A word that begins with `-` only asks for the option whose value is within it. The values of the
/// others would have to begin with the word, but none from outside the command begins with `-`.
///
/// # Errors
///
/// Those of `complete_from`.
pub fn asked_argument(
    alloc: Global,
    command: &mut Command,
    words: &[String],
    index: usize,
) -> Result<Option<Arg>, Error>
    ensures asked { IfOk result
        (λ found. Asks command.new (map string_bytes words.now) index found) }
    ensures built { OnOk result (command.new ≡ built_tree command.old) }
    ensures in_range { OnOk result
        (is_in_range command.new.node (length words.now) index ≡ true) }
    ensures errors { IfErr result (Refuses command.old command.new (length words.now) index) }
{
    command.build(alloc)?;
    if !in_range(command, words.len(), index) {
        return Err(Error::NoCompletion);
    }
    let place = place_at(command, words, index);
    let asked = asked_at(alloc, place.command, &place.state, place.word)?;
    Ok(copy_of_some(alloc, asked)?)
}

// Returns the argument that `word` asks for at the node `command`, if the words before `word` lead
// to `state`.
fn asked_at<'a>(
    alloc: Global,
    command: &'a Command,
    state: &State<'a>,
    word: &'a str,
) -> Result<Option<&'a Arg>, AllocError>
    ensures { IfOk result
        (λ found. option_copied found ≡ asked_argument command.now state.now word.now) }
{
    let arguments = command.get_arguments();
    let lists = OpenLists::new(arguments, state);
    let opened = with_source(unless_dash(word, opened_argument(&state.pending)));
    if opened.is_some() {
        return Ok(opened);
    }
    let within = with_source(argument_within(alloc, lists.options, arguments, word)?);
    if within.is_some() {
        return Ok(within);
    }
    let positional = offered_positional(arguments, state.position, lists.value);
    Ok(with_source(unless_dash(word, positional)))
}

// Returns the argument, unless `word` begins with `-`.
fn unless_dash<'a>(word: &str, argument: Option<&'a Arg>) -> Option<&'a Arg>
    ensures { option_copied result ≡ unless_dash word.now (option_copied argument.entry) }
{
    if word.starts_with('-') {
        return None;
    }
    argument
}

fn opened_argument<'a>(pending: &Pending<'a>) -> Option<&'a Arg>
    ensures { option_copied result ≡ opened_argument pending.now }
{
    match pending {
        Pending::OptionOpen(option, _) => Some(option.get()),
        Pending::Nothing | Pending::PositionalRun(_) | Pending::PositionMoved => None,
    }
}

// Returns the option whose value is within `word`, where options are `offered`.
fn argument_within<'a>(
    alloc: Global,
    offered: bool,
    arguments: &'a [Arg],
    word: &'a str,
) -> Result<Option<&'a Arg>, AllocError>
    ensures { IfOk result (λ found. option_copied found
        ≡ argument_within (offered_match offered arguments.now word.now)) }
{
    if !offered {
        return Ok(None);
    }
    match match_options(alloc, arguments, word)? {
        OptionMatch::Listed(_) => Ok(None),
        OptionMatch::ValuesOf(wanted) => Ok(Some(wanted.argument.get())),
    }
}

fn offered_positional(arguments: &[Arg], position: usize, value: Option<usize>) -> Option<&Arg>
    ensures { option_copied result
        ≡ offered_positional (positional_at arguments.now position) value }
{
    match value {
        Some(_) => positional_at(arguments, position),
        None => None,
    }
}

// Returns the argument if its values come from a source outside the command.
fn with_source(argument: Option<&Arg>) -> Option<&Arg>
    ensures { option_copied result
        ≡ find has_source (option_to_list (option_copied argument.entry)) }
{
    match argument {
        Some(argument) if has_source(argument) => Some(argument),
        _ => None,
    }
}

fn copy_of_some(alloc: Global, argument: Option<&Arg>) -> Result<Option<Arg>, AllocError>
    ensures { IfOk result (λ copy. copy ≡ option_copied argument.entry) }
{
    match argument {
        Some(argument) => Ok(Some(copy_of(alloc, argument)?)),
        None => Ok(None),
    }
}
