//! Finds arguments whose settings make a shell offer something wrong.

use crate::found::{Added, Found, Spot};
use crate::place::Key;
use crate::warning::Advice;
use cc_arg::{Arg, listed_values};
use cc_command::{Command, has_id, node_of};

/// Adds findings about each argument of `command`.
pub(crate) fn push_arguments(found: &mut Found<Advice>, command: &Command) -> Added {
    for (index, argument) in command.get_arguments().iter().enumerate() {
        let spot = Spot::Argument(index);
        push_values(found, spot, argument)?;
        push_added(found, AddedFlag::Help, command, spot, argument)?;
        push_added(found, AddedFlag::Version, command, spot, argument)?;
    }
    Ok(())
}

// Adds findings about a positional that takes no value, about possible values of an argument that
// takes no value, and about an empty list of possible values.
fn push_values(found: &mut Found<Advice>, spot: Spot, argument: &Arg) -> Added {
    let takes = argument.takes_values();
    let key = count_key(argument);
    let flag = argument.is_positional() && !takes;
    found.note_if(flag, spot, key, Advice::PositionalWithoutValue)?;
    let listed = !takes && listed_values(argument).is_some();
    found.note_if(listed, spot, Key::PossibleValues, Advice::ValuesOfFlag)?;
    let empty = takes && has_empty_list(argument);
    found.note_if(empty, spot, Key::PossibleValues, Advice::NoValues)
}

// Returns the key that sets how many values `argument` takes: `num_args` if it is set, or else
// `action`.
fn count_key(argument: &Arg) -> Key {
    if argument.get_num_args().is_some() {
        Key::NumArgs
    } else {
        Key::Action
    }
}

fn has_empty_list(argument: &Arg) -> bool {
    match listed_values(argument) {
        Some(values) => values.is_empty(),
        None => false,
    }
}

// A flag that building a command may add.
#[derive(Clone, Copy)]
enum AddedFlag {
    Help,
    Version,
}

// If building adds `flag`, adds a finding if `argument` has its long, and one if it has its short.
fn push_added(
    found: &mut Found<Advice>,
    flag: AddedFlag,
    command: &Command,
    spot: Spot,
    argument: &Arg,
) -> Added {
    let long = argument.get_long() == Some(added_name(flag)) && is_added(flag, command);
    found.note_if(long, spot, Key::Long, added_advice(flag))?;
    let short = argument.get_short() == Some(added_short(flag)) && is_added(flag, command);
    found.note_if(short, spot, Key::Short, added_advice(flag))
}

// Returns whether building adds `flag` to a command that inherits no arguments: it is not disabled,
// and no argument has its id.
fn is_added(flag: AddedFlag, command: &Command) -> bool {
    let node = node_of(command);
    let enabled = match flag {
        AddedFlag::Help => !node.disable_help_flag,
        AddedFlag::Version => node.version.is_some() && !node.disable_version_flag,
    };
    enabled && !has_id(command.get_arguments(), added_name(flag))
}

// Returns the id of `flag`, which is also its long.
fn added_name(flag: AddedFlag) -> &'static str {
    match flag {
        AddedFlag::Help => "help",
        AddedFlag::Version => "version",
    }
}

fn added_short(flag: AddedFlag) -> char {
    match flag {
        AddedFlag::Help => 'h',
        AddedFlag::Version => 'V',
    }
}

fn added_advice(flag: AddedFlag) -> Advice {
    match flag {
        AddedFlag::Help => Advice::TakenByHelp,
        AddedFlag::Version => Advice::TakenByVersion,
    }
}
