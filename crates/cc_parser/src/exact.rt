//! Tests whether `clap` describes the parse of a tree exactly.

ghost use Rattle.std.specs.Prelude.{◌≡◌, false, true};
ghost use Rattle.std.specs.List.{list_all};
ghost use Rattle.cc_arg.specs.Printed.{is_append};
ghost use Rattle.cc_command.specs.Tree.{forest_of, has_nodes};
ghost use Rattle.cc_parser.specs.Exact.{are_leaves, count_indexed, has_single_range, is_in_order, is_leaf};
ghost use Rattle.cc_parser.specs.Exact.{is_parsed_exactly, is_placed, is_read_simply, is_single};
ghost use Rattle.cc_parser.specs.Exact.{is_single_range};
ghost use Rattle.cc_parser.specs.Arguments.{reads_simply};
ghost use Rattle.cc_parser.specs.Parsers.{IsAppOf, has_globals, kept};
ghost use Rattle.clap.specs.Simple.{App, is_simple};

use crate::fits::have_index_or_name;
use crate::globals::is_disabled_below;
use cc_arg::{Arg, ArgAction, ValueRange};
use cc_command::Command;

/// Returns whether the parser of the built `tree` is a simple command, as `clap` calls it. If so,
/// the clauses of `clap` determine the words that the parser accepts, and their matches.
///
/// It is if all of this is true of the root and its children:
///
/// - the children have no children, apart from a `help` that the parser leaves out;
/// - no command allows external subcommands;
/// - no argument is global or `last`, has a delimiter or a terminator, or allows values that begin
///   with a hyphen;
/// - a positional has an index and no alias, and an option or flag has no index;
/// - only the last positional may get several values, in one use or by the action `Append`.
///
/// Allocates nothing.
pub fn is_parsed_exactly(tree: &Command) -> bool
    ensures test { result ≡ is_parsed_exactly tree.now }
    ensures no_globals { result ≡ true → has_globals tree.now ≡ false }
    ensures simple { result ≡ true → (app : App) → IsAppOf tree.now app → is_simple app ≡ true }
{
    passes(tree)
}

fn passes(tree: &Command) -> bool
    ensures { result ≡ is_parsed_exactly tree.now }
{
    let here = is_disabled_below(tree.get_subcommands(), false);
    is_read_simply(tree) && are_leaves(tree.get_subcommands(), here)
}

// Returns whether the children that the parser has are leaves, below a command for which `here`
// tells whether `clap`'s own `help` is disabled.
fn are_leaves(children: &[Command], here: bool) -> bool
    ensures { result ≡ are_leaves here (kept false (forest_of children.now)) }
{
    for child in children {
        if child.is_generated() {
            continue;
        }
        if !is_leaf(child, here) {
            return false;
        }
    }
    true
}

fn is_leaf(child: &Command, here: bool) -> bool
    ensures { result ≡ is_leaf here child.now.node child.now.children }
{
    !has_kept(child.get_subcommands(), here) && is_read_simply(child)
}

// Returns whether the parser has one of the children.
fn has_kept(children: &[Command], above: bool) -> bool
    ensures { result ≡ has_nodes (kept above (forest_of children.now)) }
{
    for child in children {
        if above || !child.is_generated() {
            return true;
        }
    }
    false
}

// Returns whether a parse reads the arguments of the command one by one, and no other words.
fn is_read_simply(command: &Command) -> bool
    ensures { result ≡ is_read_simply command.now.node }
{
    let arguments = command.get_arguments();
    !command.is_allow_external_subcommands_set()
        && (read_simply(arguments) && (have_index_or_name(arguments) && is_in_order(arguments)))
}

fn read_simply(arguments: &[Arg]) -> bool
    ensures { result ≡ list_all reads_simply arguments.now }
{
    for argument in arguments {
        if !reads_simply(argument) {
            return false;
        }
    }
    true
}

// Returns whether the argument has none of the settings that change how words are read.
fn reads_simply(argument: &Arg) -> bool
    ensures { result ≡ reads_simply argument.now }
{
    argument.get_value_delimiter().is_none()
        && (argument.get_value_terminator().is_none()
            && (!argument.is_allow_hyphen_values_set()
                && (!argument.is_last_set() && !argument.is_global_set())))
}

// Returns whether only the last positional may get several values.
fn is_in_order(arguments: &[Arg]) -> bool
    ensures { result ≡ is_in_order arguments.now }
{
    let count = count_indexed(arguments);
    for argument in arguments {
        if !is_placed(count, argument) {
            return false;
        }
    }
    true
}

fn count_indexed(arguments: &[Arg]) -> usize
    ensures { result ≡ count_indexed arguments.now }
{
    let mut count = 0;
    for argument in arguments {
        if argument.get_index().is_none() {
            continue;
        }
        count += 1;
    }
    count
}

// Returns whether the argument is no positional, gets at most one value, or is the last of `count`
// positionals.
fn is_placed(count: usize, argument: &Arg) -> bool
    ensures { result ≡ is_placed count argument.now }
{
    match argument.get_index() {
        Some(index) => is_single(argument) || count == index,
        None => true,
    }
}

// Returns whether the argument gets at most one value, always the same number of them, and only in
// one use.
fn is_single(argument: &Arg) -> bool
    ensures { result ≡ is_single argument.now }
{
    has_single_range(argument.get_num_args()) && !is_append(argument.get_action())
}

fn has_single_range(range: Option<ValueRange>) -> bool
    ensures { result ≡ has_single_range range }
{
    match range {
        Some(range) => is_single_range(range),
        None => false,
    }
}

fn is_single_range(range: ValueRange) -> bool
    ensures { result ≡ is_single_range range }
{
    let least = range.min_values();
    least == range.max_values().max(least) && !(1 < least)
}

fn is_append(action: ArgAction) -> bool
    ensures { result ≡ is_append action }
{
    matches!(action, ArgAction::Append)
}
