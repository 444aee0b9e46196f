//! Converts a command for the parser.

ghost use Rattle.std.specs.Prelude.{◌≡◌, ◌++◌, ◌∷◌, ◌&&◌, ◌||◌, [], IfOk, IsTrue, false, true, not, is_some};
ghost use Rattle.std.specs.Option.{option_copied};
ghost use Rattle.clap.specs.Walk.{rule_of};
ghost use Rattle.clap.specs.Words.{app_of};
ghost use Rattle.clap.specs.declared.builder.command.Command.TheViews.{out-Command};
ghost use Rattle.clap.specs.Simple.{new_app, on_top};
ghost use Rattle.cc_command.specs.Tree.{forest_of};
ghost use Rattle.cc_parser.specs.Local.{local_argument, local_arguments, local_forest, local_node, local_tree};
ghost use Rattle.cc_parser.specs.Taken.{TakesOffered, fits_parser};
ghost use Rattle.cc_parser.specs.Parsers.{AddsArguments, AddsChildren, IsAppOf, IsLeaf, any_global};
ghost use Rattle.cc_parser.specs.Parsers.{globals_below, has_generated, has_globals};
ghost use Rattle.cc_parser.specs.Parsers.{is_left_out, named_app};

use crate::argument::argument;
use crate::globals::is_disabled_below;
use bumpalo::Bump;
use cc_arg::Arg;
use cc_base::Text;
use cc_command::Command;
use std::alloc::{AllocError, Global};

/// Converts the built `command` into a `clap` command for the same tree. The result borrows the
/// texts of the tree and keeps its lists in `store`.
///
/// Every argument of the tree is passed to `clap`, including the flags `help` and `version`. A
/// subcommand `help` that `build` added is left to `clap`, whose own `help` prints a help text.
/// Below a command without such a subcommand, `clap`'s own is disabled, and `help` is an ordinary
/// subcommand.
///
/// If no argument of the tree is global, a parse follows the tree for the command and its
/// subcommands. If `fits_parser` is also true, the parser accepts everything that completion offers
/// for the root.
///
/// # Errors
///
/// `AllocError` if an allocation fails.
pub fn parser<'a>(
    alloc: Global,
    store: &'a Bump,
    command: &'a Command,
) -> Result<clap::Command<'a>, AllocError>
    requires { IsTrue command.now.node.built }
    ensures app { IfOk result (λ parser.
        has_globals command.now ≡ false → IsAppOf command.now (app_of parser)) }
    ensures globals { IfOk result (λ parser.
        (out-Command parser).has_globals ≡ has_globals command.now) }
    ensures taken { IfOk result (λ parser. has_globals command.now ≡ false
        → fits_parser command.now ≡ true → TakesOffered command.now (app_of parser)) }
{
    parser_of(alloc, store, command, false)
}

/// Converts the built `command` as `parser` does, but no argument of the result is global. Building
/// gave each command the global arguments of the commands above it, and here these are its own.
///
/// So this is a parser for `command` alone, at any depth of a tree: a parse follows the command and
/// its subcommands. If `fits_parser` is true, the parser accepts everything that completion offers
/// for `command`. In the matches, a subcommand lacks the uses of a global argument before its name.
///
/// # Errors
///
/// `AllocError` if an allocation fails.
pub fn local_parser<'a>(
    alloc: Global,
    store: &'a Bump,
    command: &'a Command,
) -> Result<clap::Command<'a>, AllocError>
    requires { IsTrue command.now.node.built }
    ensures app { IfOk result (λ parser. IsAppOf (local_tree true command.now) (app_of parser)) }
    ensures globals { IfOk result (λ parser. (out-Command parser).has_globals ≡ false) }
    ensures taken { IfOk result (λ parser.
        fits_parser command.now ≡ true → TakesOffered command.now (app_of parser)) }
{
    parser_of(alloc, store, command, true)
}

// Converts the command. If `local` is true, no argument is global.
fn parser_of<'a>(
    alloc: Global,
    store: &'a Bump,
    command: &'a Command,
    local: bool,
) -> Result<clap::Command<'a>, AllocError>
    ensures app { IfOk result (λ parser. has_globals (local_tree local command.now) ≡ false
        → IsAppOf (local_tree local command.now) (app_of parser)) }
    ensures globals { IfOk result (λ parser.
        (out-Command parser).has_globals ≡ has_globals (local_tree local command.now)) }
{
    let parser = alone(alloc, store, command, local)?;
    let parser = with_children(
        parser,
        alloc,
        store,
        command.get_subcommands(),
        false,
        local,
    )?;
    let Some(name) = command.get_bin_name() else {
        return Ok(parser);
    };
    parser.bin_name(name)
}

// Converts a command with its arguments, without its children.
fn alone<'a>(
    alloc: Global,
    store: &'a Bump,
    command: &'a Command,
    local: bool,
) -> Result<clap::Command<'a>, AllocError>
    ensures app { IfOk result (λ parser.
        any_global (local_arguments local command.now.node.arguments) ≡ false
        → AddsArguments (local_arguments local command.now.node.arguments)
        (named_app (local_node local command.now.node) (local_forest local command.now.children))
        (app_of parser)) }
    ensures globals { IfOk result (λ parser. (out-Command parser).has_globals
        ≡ any_global (local_arguments local command.now.node.arguments)) }
{
    let parser = named(alloc, command)?;
    with_arguments(parser, alloc, store, command.get_arguments(), local)
}

// Converts a command without its arguments and children.
fn named<'a>(alloc: Global, command: &'a Command) -> Result<clap::Command<'a>, AllocError>
    ensures app { IfOk result (λ parser.
        app_of parser ≡ named_app command.now.node command.now.children) }
    ensures globals { IfOk result (λ parser. (out-Command parser).has_globals ≡ false) }
{
    let parser = clap::Command::new(alloc, command.get_name())
        .hide(command.is_hide_set())
        .display_order(command.get_display_order())
        .no_binary_name(command.is_no_binary_name_set())
        .allow_external_subcommands(command.is_allow_external_subcommands_set())
        .subcommand_required(command.is_subcommand_required_set())
        .arg_required_else_help(command.is_arg_required_else_help_set())
        .disable_help_flag(true)
        .disable_version_flag(true)
        .disable_help_subcommand(!has_generated(command.get_subcommands()));
    let parser = with_texts(parser, command);
    let parser = with_version(parser, command.get_version());
    let parser = with_aliases(parser, command.get_visible_aliases(), true)?;
    with_aliases(parser, command.get_aliases(), false)
}

// Returns whether the parser leaves the command out: `build` added it, and no command above its
// parent disables `clap`'s own `help`.
fn is_left_out(command: &Command, above: bool) -> bool
    ensures { result ≡ is_left_out above command.now.node }
{
    command.is_generated() && !above
}

/// Returns whether `build` added one of the children.
pub(crate) fn has_generated(children: &[Command]) -> bool
    ensures { result ≡ has_generated (forest_of children.now) }
{
    for child in children {
        if child.is_generated() {
            return true;
        }
    }
    false
}

// Adds the texts for the help output.
fn with_texts<'a>(parser: clap::Command<'a>, command: &'a Command) -> clap::Command<'a>
    ensures app { app_of result ≡ app_of parser.entry }
    ensures globals { (out-Command result).has_globals ≡ (out-Command parser.entry).has_globals }
{
    let parser = with_about(parser, command.get_about());
    let parser = with_long_about(parser, command.get_long_about());
    let parser = with_after_help(parser, command.get_after_help());
    with_heading(parser, command.get_subcommand_help_heading())
}

fn with_about<'a>(parser: clap::Command<'a>, about: Option<&'a str>) -> clap::Command<'a>
    ensures app { app_of result ≡ app_of parser.entry }
    ensures globals { (out-Command result).has_globals ≡ (out-Command parser.entry).has_globals }
{
    match about {
        Some(about) => parser.about(about),
        None => parser,
    }
}

fn with_long_about<'a>(parser: clap::Command<'a>, about: Option<&'a str>) -> clap::Command<'a>
    ensures app { app_of result ≡ app_of parser.entry }
    ensures globals { (out-Command result).has_globals ≡ (out-Command parser.entry).has_globals }
{
    match about {
        Some(about) => parser.long_about(about),
        None => parser,
    }
}

fn with_after_help<'a>(parser: clap::Command<'a>, text: Option<&'a str>) -> clap::Command<'a>
    ensures app { app_of result ≡ app_of parser.entry }
    ensures globals { (out-Command result).has_globals ≡ (out-Command parser.entry).has_globals }
{
    match text {
        Some(text) => parser.after_help(text),
        None => parser,
    }
}

fn with_version<'a>(parser: clap::Command<'a>, version: Option<&'a str>) -> clap::Command<'a>
    ensures app { app_of result ≡ on_top (λ top.
        record top { has_version = is_some version.entry || top.has_version })
        (app_of parser.entry) }
    ensures globals { (out-Command result).has_globals ≡ (out-Command parser.entry).has_globals }
{
    match version {
        Some(version) => parser.version(version),
        None => parser,
    }
}

fn with_heading<'a>(parser: clap::Command<'a>, heading: Option<&'a str>) -> clap::Command<'a>
    ensures app { app_of result ≡ app_of parser.entry }
    ensures globals { (out-Command result).has_globals ≡ (out-Command parser.entry).has_globals }
{
    match heading {
        Some(heading) => parser.subcommand_help_heading(heading),
        None => parser,
    }
}

fn with_aliases<'a>(
    parser: clap::Command<'a>,
    aliases: &'a [Text],
    shown: bool,
) -> Result<clap::Command<'a>, AllocError>
    ensures app { IfOk result (λ made. app_of made ≡ on_top (λ top.
        record top { aliases = top.aliases ++ aliases.now }) (app_of parser.entry)) }
    ensures globals { IfOk result (λ made.
        (out-Command made).has_globals ≡ (out-Command parser.entry).has_globals) }
{
    let mut parser = parser;
    for alias in aliases {
        parser = with_alias(parser, alias.as_str(), shown)?;
    }
    Ok(parser)
}

fn with_alias<'a>(
    parser: clap::Command<'a>,
    alias: &'a str,
    shown: bool,
) -> Result<clap::Command<'a>, AllocError>
    ensures app { IfOk result (λ made. app_of made ≡ on_top (λ top.
        record top { aliases = top.aliases ++ alias.entry.now ∷ [] }) (app_of parser.entry)) }
    ensures globals { IfOk result (λ made.
        (out-Command made).has_globals ≡ (out-Command parser.entry).has_globals) }
{
    if shown {
        parser.visible_alias(alias)
    } else {
        parser.alias(alias)
    }
}

fn with_arguments<'a>(
    parser: clap::Command<'a>,
    alloc: Global,
    store: &'a Bump,
    arguments: &'a [Arg],
    local: bool,
) -> Result<clap::Command<'a>, AllocError>
    requires { ((app_of parser).top.rules ≡ []) × ((out-Command parser).has_globals ≡ false) }
    ensures app { IfOk result (λ made. any_global (local_arguments local arguments.now) ≡ false
        → AddsArguments (local_arguments local arguments.now)
        (app_of parser.entry) (app_of made)) }
    ensures globals { IfOk result (λ made. (out-Command made).has_globals
        ≡ any_global (local_arguments local arguments.now)) }
{
    let mut parser = parser;
    for given in arguments {
        let global = is_global(given, local);
        match argument(alloc, store, given, global) {
            Ok(arg) => parser = parser.arg(arg)?,
            Err(error) => {
                // One call here, instead of a drop of each field at each return.
                drop(parser);
                return Err(error);
            }
        }
    }
    Ok(parser)
}

// Returns whether the argument is global for `clap`, if all arguments are local there or none is.
fn is_global(argument: &Arg, local: bool) -> bool
    ensures { result ≡ (local_argument local argument.now).global }
{
    if local {
        false
    } else {
        argument.is_global_set()
    }
}

// Adds the children, except for those that are left out. `above` tells whether a command above this
// one disables `clap`'s own `help`. That holds for everything below, so a `help` that `build` added
// there is an ordinary subcommand.
fn with_children<'a>(
    parser: clap::Command<'a>,
    alloc: Global,
    store: &'a Bump,
    children: &'a [Command],
    above: bool,
    local: bool,
) -> Result<clap::Command<'a>, AllocError>
    ensures app { IfOk result (λ made.
        globals_below above (local_forest local (forest_of children.now)) ≡ false
        → IsLeaf (app_of parser.entry)
        → AddsChildren above (local_forest local (forest_of children.now))
        (app_of parser.entry) (app_of made)) }
    ensures globals { IfOk result (λ made. (out-Command made).has_globals
        ≡ ((out-Command parser.entry).has_globals
        || globals_below above (local_forest local (forest_of children.now)))) }
{
    let here = is_disabled_below(children, above);
    let mut parser = parser;
    for child in children {
        if is_left_out(child, above) {
            continue;
        }
        match alone(alloc, store, child, local) {
            Ok(made) => {
                match with_children(made, alloc, store, child.get_subcommands(), here, local) {
                    Ok(made) => parser = parser.subcommand(made)?,
                    Err(error) => {
                        drop(parser);
                        return Err(error);
                    }
                }
            }
            Err(error) => {
                drop(parser);
                return Err(error);
            }
        }
    }
    Ok(parser)
}
