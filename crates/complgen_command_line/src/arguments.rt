//! The arguments of the subcommands.

ghost use Rattle.complgen_command_line.specs.CommandLine.{IsRule, flag_rule, option_rule};
ghost use Rattle.complgen_command_line.specs.CommandLine.{optional_rule, tree_rule, words_rule};

use crate::texts::{TREE_HELP, WORDS_HELP};
use clap::{Arg, ArgAction};
use std::alloc::Global;

/// Returns the required option with the id and long `name`, one value called `value_name`, and the
/// help text `help`.
pub fn option<'a>(
    alloc: Global,
    name: &'static str,
    value_name: &'static str,
    help: &'static str,
) -> Arg<'a>
    ensures { IsRule (option_rule name.entry.now) result }
{
    Arg::new(alloc, name)
        .long(name)
        .value_name(value_name)
        .required(true)
        .help(help)
}

/// Returns such an option that is not required.
pub fn optional<'a>(
    alloc: Global,
    name: &'static str,
    value_name: &'static str,
    help: &'static str,
) -> Arg<'a>
    ensures { IsRule (optional_rule name.entry.now) result }
{
    Arg::new(alloc, name)
        .long(name)
        .value_name(value_name)
        .help(help)
}

/// Returns the flag with the id and long `name`, and the help text `help`.
pub fn flag<'a>(alloc: Global, name: &'static str, help: &'static str) -> Arg<'a>
    ensures { IsRule (flag_rule name.entry.now) result }
{
    Arg::new(alloc, name)
        .long(name)
        .action(ArgAction::SetTrue)
        .help(help)
}

/// Returns the required argument `TREE`.
pub fn tree<'a>(alloc: Global) -> Arg<'a>
    ensures { IsRule tree_rule result }
{
    Arg::new(alloc, "tree")
        .value_name("TREE")
        .required(true)
        .help(TREE_HELP)
}

/// Returns the argument `WORDS`, which takes any number of words.
pub fn words<'a>(alloc: Global) -> Arg<'a>
    ensures { IsRule words_rule result }
{
    Arg::new(alloc, "words")
        .value_name("WORDS")
        .num_args(0..)
        .help(WORDS_HELP)
}
