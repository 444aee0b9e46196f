//! Checks whether a tree fits its parser.

ghost use Rattle.std.specs.Prelude.{◌≡◌, ◌&&◌, ◌||◌, false, not};
ghost use Rattle.std.specs.List.{list_all};
ghost use Rattle.cc_command.specs.Tree.{forest_of, has_nodes};
ghost use Rattle.cc_parser.specs.Parsers.{kept};
ghost use Rattle.cc_parser.specs.Taken.{are_help_if_generated, fits_parser, has_help_beside_others};
ghost use Rattle.cc_parser.specs.Taken.{has_index_or_name, is_help_if_generated};

use crate::command::has_generated;
use cc_arg::Arg;
use cc_command::Command;

/// Returns whether each argument of the built `command` has an index or names, but not both: a
/// positional has an index and no alias, an option or flag has no index.
///
/// If so, the local parser of the command accepts everything that completion offers for it, and if
/// no argument is global, so does the parser. For a tree from the builders of `Command`, the result
/// is false only if an index was set on an option or a flag, or an alias on a positional.
///
/// Also checks the subcommand `help` that `build` added. Allocates nothing.
pub fn fits_parser(command: &Command) -> bool
    ensures { result ≡ fits_parser command.now }
{
    have_index_or_name(command.get_arguments()) && has_help_beside_others(command.get_subcommands())
}

/// Returns whether each argument has an index or names, but not both.
pub(crate) fn have_index_or_name(arguments: &[Arg]) -> bool
    ensures { result ≡ list_all has_index_or_name arguments.now }
{
    for argument in arguments {
        if !has_index_or_name(argument) {
            return false;
        }
    }
    true
}

fn has_index_or_name(argument: &Arg) -> bool
    ensures { result ≡ has_index_or_name argument.now }
{
    if argument.is_positional() {
        argument.get_index().is_some() && argument.get_aliases().is_empty()
    } else {
        argument.get_index().is_none()
    }
}

fn has_help_beside_others(children: &[Command]) -> bool
    ensures { result ≡ has_help_beside_others (forest_of children.now) }
{
    are_help_if_generated(children) && (!has_generated(children) || has_others(children))
}

fn are_help_if_generated(children: &[Command]) -> bool
    ensures { result ≡ are_help_if_generated (forest_of children.now) }
{
    for child in children {
        if !is_help_if_generated(child) {
            return false;
        }
    }
    true
}

fn is_help_if_generated(command: &Command) -> bool
    ensures { result ≡ is_help_if_generated command.now.node }
{
    !command.is_generated()
        || (command.get_name() == "help"
            && command.get_visible_aliases().is_empty()
            && command.get_aliases().is_empty())
}

// Returns whether one of the children was not added by `build`.
fn has_others(children: &[Command]) -> bool
    ensures { result ≡ has_nodes (kept false (forest_of children.now)) }
{
    for child in children {
        if !child.is_generated() {
            return true;
        }
    }
    false
}
