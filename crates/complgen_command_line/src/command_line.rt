//! The command line: the words that `complgen` accepts.

ghost use Rattle.std.specs.Prelude.{◌≡◌, IfOk, codes};
ghost use Rattle.std.specs.Result.{IsOkAnd};
ghost use Rattle.clap.specs.Built.{AddsArg, AddsSubcommand};
ghost use Rattle.clap.specs.Words.{app_of};
ghost use Rattle.complgen_command_line.specs.CommandLine.{IsLine, asking_line, candidates_line};
ghost use Rattle.complgen_command_line.specs.CommandLine.{check_line, checking_line};
ghost use Rattle.complgen_command_line.specs.CommandLine.{man_line, program_line, scripts_line, shell_line};
ghost use Rattle.complgen_command_line.specs.CommandLine.{top_line, wanted_line, writing_line};

use crate::arguments::{flag, option, optional, tree, words};
use crate::texts::{
    ABOUT, AFTER_HELP, BIN_HELP, CANDIDATES_ABOUT, CHECK_ABOUT, CHECK_BIN_HELP, CHECK_LINES,
    INDEX_HELP, JSON_HELP, MAN_ABOUT, MAN_EXAMPLE, OUT_DIR_HELP, REGISTER_ABOUT,
    REGISTER_SHELL_HELP, SCRIPT_ABOUT, SCRIPT_FILES, SCRIPT_SHELL_HELP, SCRIPTS_ABOUT,
    SCRIPTS_FILES, VALUES_HELP, VERSION, WANTED_ABOUT,
};
use clap::{Arg, Command};
use std::alloc::{AllocError, Global};

// Adds an argument, if there is a command. Few values are then alive where a call may fail.
fn with_arg<'a>(
    command: Result<Command<'a>, AllocError>,
    arg: Arg<'a>,
) -> Result<Command<'a>, AllocError>
    ensures { IfOk result (λ whole. IsOkAnd command.entry (λ command.
        AddsArg command arg.entry whole)) }
{
    match command {
        Ok(command) => command.arg(arg),
        Err(failed) => {
            drop(arg);
            Err(failed)
        }
    }
}

// Adds a subcommand, if there are both.
fn with_subcommand<'a>(
    line: Result<Command<'a>, AllocError>,
    subcommand: Result<Command<'a>, AllocError>,
) -> Result<Command<'a>, AllocError>
    ensures { IfOk result (λ whole. IsOkAnd line.entry (λ line.
        IsOkAnd subcommand.entry (λ command. AddsSubcommand line command whole))) }
{
    match line {
        Ok(line) => with_made(line, subcommand),
        Err(failed) => {
            drop(subcommand);
            Err(failed)
        }
    }
}

// Adds a subcommand, if there is one.
fn with_made<'a>(
    line: Command<'a>,
    subcommand: Result<Command<'a>, AllocError>,
) -> Result<Command<'a>, AllocError>
    ensures { IfOk result (λ whole. IsOkAnd subcommand.entry (λ command.
        AddsSubcommand line.entry command whole)) }
{
    match subcommand {
        Ok(command) => line.subcommand(command),
        Err(failed) => {
            drop(line);
            Err(failed)
        }
    }
}

// Returns the subcommand `name`: `NAME --shell S --bin N TREE`.
fn for_shell<'a>(
    alloc: Global,
    name: &'static str,
    about: &'static str,
    shells: &'static str,
) -> Result<Command<'a>, AllocError>
    ensures { IfOk result (IsLine (shell_line name.entry.now)) }
{
    let command = Command::new(alloc, name).about(about);
    let command = command.arg(option(alloc, "shell", "SHELL", shells));
    let command = with_arg(command, option(alloc, "bin", "NAME", BIN_HELP));
    with_arg(command, tree(alloc))
}

// Returns the subcommand `script --shell S --bin N TREE`.
fn script<'a>(alloc: Global) -> Result<Command<'a>, AllocError>
    ensures { IfOk result (IsLine (shell_line (codes "script"))) }
{
    match for_shell(alloc, "script", SCRIPT_ABOUT, SCRIPT_SHELL_HELP) {
        Ok(command) => Ok(command.after_long_help(SCRIPT_FILES)),
        Err(failed) => Err(failed),
    }
}

// Returns the subcommand `scripts --bin N --out-dir DIR TREE`.
fn scripts<'a>(alloc: Global) -> Result<Command<'a>, AllocError>
    ensures { IfOk result (IsLine scripts_line) }
{
    let command = Command::new(alloc, "scripts")
        .about(SCRIPTS_ABOUT)
        .after_help(SCRIPTS_FILES);
    let command = command.arg(option(alloc, "bin", "NAME", BIN_HELP));
    let command = with_arg(command, option(alloc, "out-dir", "DIR", OUT_DIR_HELP));
    with_arg(command, tree(alloc))
}

// Returns the subcommand `candidates --index I [--values FILE] TREE WORDS..`.
fn candidates<'a>(alloc: Global) -> Result<Command<'a>, AllocError>
    ensures { IfOk result (IsLine candidates_line) }
{
    let command = Command::new(alloc, "candidates").about(CANDIDATES_ABOUT);
    let command = command.arg(option(alloc, "index", "INDEX", INDEX_HELP));
    let command = with_arg(command, optional(alloc, "values", "FILE", VALUES_HELP));
    let command = with_arg(command, tree(alloc));
    with_arg(command, words(alloc))
}

// Returns the subcommand `wanted --index I TREE WORDS..`.
fn wanted<'a>(alloc: Global) -> Result<Command<'a>, AllocError>
    ensures { IfOk result (IsLine wanted_line) }
{
    let command = Command::new(alloc, "wanted").about(WANTED_ABOUT);
    let command = command.arg(option(alloc, "index", "INDEX", INDEX_HELP));
    let command = with_arg(command, tree(alloc));
    with_arg(command, words(alloc))
}

// Returns the subcommand `check [--bin N] [--json] TREE`.
fn check<'a>(alloc: Global) -> Result<Command<'a>, AllocError>
    ensures { IfOk result (IsLine check_line) }
{
    let command = Command::new(alloc, "check")
        .about(CHECK_ABOUT)
        .after_help(CHECK_LINES);
    let command = command.arg(optional(alloc, "bin", "NAME", CHECK_BIN_HELP));
    let command = with_arg(command, flag(alloc, "json", JSON_HELP));
    with_arg(command, tree(alloc))
}

// Returns the subcommand `man --bin N TREE`.
fn man<'a>(alloc: Global) -> Result<Command<'a>, AllocError>
    ensures { IfOk result (IsLine man_line) }
{
    let command = Command::new(alloc, "man")
        .about(MAN_ABOUT)
        .after_help(MAN_EXAMPLE);
    let command = command.arg(option(alloc, "bin", "NAME", BIN_HELP));
    with_arg(command, tree(alloc))
}

// Returns the command line without its subcommands.
fn top<'a>(alloc: Global) -> Result<Command<'a>, AllocError>
    ensures { IfOk result (λ command. app_of command ≡ top_line) }
{
    Command::new(alloc, "complgen")
        .version(VERSION)
        .about(ABOUT)
        .after_help(AFTER_HELP)
        .subcommand_required(true)
        .disable_help_subcommand(true)
        .bin_name("complgen")
}

// Returns the command line with the subcommands that write scripts and registrations. Adds each one
// before it makes the next, so that few exist if an allocation fails.
fn writing<'a>(alloc: Global) -> Result<Command<'a>, AllocError>
    ensures { IfOk result (λ command. app_of command ≡ writing_line) }
{
    let line = with_subcommand(top(alloc), script(alloc));
    let line = with_subcommand(line, scripts(alloc));
    let register = for_shell(alloc, "register", REGISTER_ABOUT, REGISTER_SHELL_HELP);
    with_subcommand(line, register)
}

// Returns the command line with the subcommands that complete a word, too.
fn asking<'a>(alloc: Global) -> Result<Command<'a>, AllocError>
    ensures { IfOk result (λ command. app_of command ≡ asking_line) }
{
    let line = with_subcommand(writing(alloc), candidates(alloc));
    with_subcommand(line, wanted(alloc))
}

// Returns the command line with `check`, too.
fn checking<'a>(alloc: Global) -> Result<Command<'a>, AllocError>
    ensures { IfOk result (λ command. app_of command ≡ checking_line) }
{
    with_subcommand(asking(alloc), check(alloc))
}

/// Returns the whole command line of `complgen`.
///
/// # Errors
///
/// `AllocError` if an allocation fails.
pub fn command_line<'a>(alloc: Global) -> Result<Command<'a>, AllocError>
    ensures { IfOk result (λ command. app_of command ≡ program_line) }
{
    with_subcommand(checking(alloc), man(alloc))
}
