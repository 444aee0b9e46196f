//! The values that a word is asked for, with the part of the word that is the text of each.

ghost use Rattle.std.specs.Prelude.{◌≡◌, ◌++◌, [], ◌∷◌, length, map, option_to_list};
ghost use Rattle.std.specs.Prelude.{string_bytes, true, IfOk, IfErr, OnOk};
ghost use Rattle.std.specs.Option.{option_copied};
ghost use Rattle.cc_command.specs.Built.{built_tree};
ghost use Rattle.cc_engine.specs.Asked.{AsksValues, as_asked, in_turn, opened_value};
ghost use Rattle.cc_engine.specs.Asked.{positional_value, value_of, value_within};
ghost use Rattle.cc_engine.specs.Asked.{values_of_word};
ghost use Rattle.cc_engine.specs.Completion.{Refuses, is_in_range, offered_match};

use crate::gathering::{OptionMatch, match_options, split_at_delimiter};
use crate::open_lists::OpenLists;
use crate::place::{in_range, place_at};
use crate::walking::{Pending, State, positional_at};
use cc_arg::Arg;
use cc_base::{Error, Text};
use cc_command::Command;
use std::alloc::{AllocError, Global};

/// A value of an argument that a word is, or ends with.
#[derive(Drop)]
pub struct AskedValue {
    /// The id of the argument.
    pub id: Text,
    /// The number of the value in one use of the argument. The first value has the number 0.
    pub number: usize,
    /// The text to complete: the end of the word, after the argument's name in that word and after
    /// the argument's last delimiter.
    pub text: Text,
}

/// Returns the values for which `complete_from` asks at the word at `index`, counted from 0, of a
/// command line of `command`, which is built first.
///
/// First comes the next value of an open option, then the value within the word, then the value of
/// the positional. An argument is among them whether or not its values come from a source outside
/// the command. The `words` are those that `complete_from` takes.
///
/// # Errors
///
/// Those of `complete_from`.
pub fn asked_values(
    alloc: Global,
    command: &mut Command,
    words: &[String],
    index: usize,
) -> Result<Vec<AskedValue>, Error>
    ensures asked { IfOk result
        (λ found. AsksValues command.new (map string_bytes words.now) index found.items) }
    ensures built { OnOk result (command.new ≡ built_tree command.old) }
    ensures in_range { OnOk result
        (is_in_range command.new.node (length words.now) index ≡ true) }
    ensures errors { IfErr result (Refuses command.old command.new (length words.now) index) }
{
    command.build(alloc)?;
    if !in_range(command, words.len(), index) {
        return Err(Error::NoCompletion);
    }
    let place = place_at(command, words, index);
    Ok(values_at(alloc, place.command, &place.state, place.word)?)
}

// Returns the values for `word` at the node `command`, if the words before `word` lead to `state`.
fn values_at(
    alloc: Global,
    command: &Command,
    state: &State<'_>,
    word: &str,
) -> Result<Vec<AskedValue>, AllocError>
    ensures { IfOk result (λ found. found.items
        ≡ map as_asked (in_turn (values_of_word command.now state.now word.now))) }
{
    let arguments = command.get_arguments();
    let lists = OpenLists::new(arguments, state);
    let positional = positional_at(arguments, state.position);
    let mut found = Vec::new(alloc);
    push_opened(&mut found, alloc, &state.pending, word)?;
    push_within(&mut found, alloc, lists.options, arguments, word)?;
    push_positional(&mut found, alloc, positional, lists.value, word)?;
    Ok(found)
}

fn push_opened(
    found: &mut Vec<AskedValue>,
    alloc: Global,
    pending: &Pending<'_>,
    word: &str,
) -> Result<(), AllocError>
    ensures { OnOk result (found.new.items ≡ found.old.items
        ++ map as_asked (option_to_list (opened_value pending.now word.now))) }
{
    match pending {
        Pending::OptionOpen(option, count) => push_value(found, alloc, option.get(), *count, word),
        Pending::Nothing | Pending::PositionalRun(_) | Pending::PositionMoved => Ok(()),
    }
}

// Adds the value within `word`, where options are `offered`.
fn push_within(
    found: &mut Vec<AskedValue>,
    alloc: Global,
    offered: bool,
    arguments: &[Arg],
    word: &str,
) -> Result<(), AllocError>
    ensures { OnOk result (found.new.items ≡ found.old.items
        ++ map as_asked (option_to_list
        (value_within (offered_match offered arguments.now word.now)))) }
{
    if !offered {
        return Ok(());
    }
    match match_options(alloc, arguments, word)? {
        OptionMatch::Listed(_) => Ok(()),
        OptionMatch::ValuesOf(wanted) => {
            push_value(found, alloc, wanted.argument.get(), 0, wanted.text.as_str())
        }
    }
}

fn push_positional(
    found: &mut Vec<AskedValue>,
    alloc: Global,
    positional: Option<&Arg>,
    number: Option<usize>,
    word: &str,
) -> Result<(), AllocError>
    ensures { OnOk result (found.new.items ≡ found.old.items
        ++ map as_asked (option_to_list
        (positional_value (option_copied positional.entry) number word.now))) }
{
    match (positional, number) {
        (Some(argument), Some(number)) => push_value(found, alloc, argument, number, word),
        (Some(_), None) | (None, _) => Ok(()),
    }
}

// Adds the value with this number that `word` is, or ends with.
fn push_value(
    found: &mut Vec<AskedValue>,
    alloc: Global,
    argument: &Arg,
    number: usize,
    word: &str,
) -> Result<(), AllocError>
    ensures { OnOk result (found.new.items
        ≡ found.old.items ++ as_asked (value_of argument.now number word.now) ∷ []) }
{
    let (_, part) = split_at_delimiter(word, argument.get_value_delimiter());
    let id = Text::from(String::from_str(alloc, argument.get_id())?);
    let text = Text::from(String::from_str(alloc, part)?);
    found.push(AskedValue { id, number, text })?;
    Ok(())
}
