//! Commands, step by step.

ghost use Rattle.std.specs.Prelude.{◌≡◌, IfErr, IfOk, map};
ghost use Rattle.cc_command.specs.Made.{with_argument, with_child};
ghost use Rattle.cc_program.specs.Described.{MadeOf, MadeWith, arg_of, command_of, group_of};
ghost use Rattle.cc_program.specs.Described.{named_command, with_arguments, with_visible_alias};

use crate::arguments::arg;
use crate::description::ArgDescription;
use cc_arg::Arg;
use cc_base::Error;
use cc_command::Command;
use std::alloc::Global;

/// Returns a command with a name, an `about` text, and `args` in order.
///
/// # Errors
///
/// `Memory` if an allocation fails.
pub fn command(
    alloc: Global,
    name: &str,
    about: &str,
    args: &[ArgDescription<'_>],
) -> Result<Command, Error>
    ensures ok { IfOk result (λ command. command ≡ command_of name.now about.now args.now) }
    ensures memory { IfErr result (λ error. error ≡ Error.Memory) }
{
    let command = named(alloc, name, about)?;
    with_args(alloc, command, args)
}

/// Returns a command that needs a subcommand, with a name, an `about` text, and `args` in order.
///
/// # Errors
///
/// `Memory` if an allocation fails.
pub fn group(
    alloc: Global,
    name: &str,
    about: &str,
    args: &[ArgDescription<'_>],
) -> Result<Command, Error>
    ensures ok { IfOk result (λ command. command ≡ group_of name.now about.now args.now) }
    ensures memory { IfErr result (λ error. error ≡ Error.Memory) }
{
    let command = named(alloc, name, about)?.subcommand_required(true);
    with_args(alloc, command, args)
}

fn named(alloc: Global, name: &str, about: &str) -> Result<Command, Error>
    ensures ok { IfOk result (λ command. command ≡ named_command name.now about.now) }
    ensures memory { IfErr result (λ error. error ≡ Error.Memory) }
{
    let name = String::from_str(alloc, name)?;
    let about = String::from_str(alloc, about)?;
    Ok(Command::new(alloc, name).about(about))
}

fn with_args(alloc: Global, command: Command, args: &[ArgDescription<'_>]) -> Result<Command, Error>
    ensures ok { IfOk result (λ made. made ≡ with_arguments command (map arg_of args.now)) }
    ensures memory { IfErr result (λ error. error ≡ Error.Memory) }
{
    let mut command = command;
    for described in args {
        command = with_described(alloc, command, described)?;
    }
    Ok(command)
}

fn with_described(
    alloc: Global,
    command: Command,
    described: &ArgDescription<'_>,
) -> Result<Command, Error>
    ensures ok { IfOk result (λ made. made
        ≡ record command { node = with_argument command.node (arg_of described.now) }) }
    ensures memory { IfErr result (λ error. error ≡ Error.Memory) }
{
    match arg(alloc, described) {
        Ok(arg) => command.arg(arg),
        Err(error) => {
            // One call here, instead of a drop of each field at each return.
            drop(command);
            Err(error)
        }
    }
}

/// Returns the command with `alias` as a further visible name.
///
/// # Errors
///
/// The error of `command`, or `Memory` if an allocation fails.
pub fn with_alias(
    alloc: Global,
    command: Result<Command, Error>,
    alias: &str,
) -> Result<Command, Error>
    ensures { MadeWith (with_visible_alias alias.now) command result }
{
    let command = command?;
    match String::from_str(alloc, alias) {
        Ok(alias) => command.visible_alias(alias),
        Err(_) => {
            drop(command);
            Err(Error::Memory)
        }
    }
}

/// Returns the command with a further argument, as `Command::arg` adds it.
///
/// # Errors
///
/// The error of `command` or of `argument`, or `Memory` if an allocation fails.
pub fn with_arg(
    command: Result<Command, Error>,
    argument: Result<Arg, Error>,
) -> Result<Command, Error>
    ensures { MadeOf (λ tree arg. record tree { node = with_argument tree.node arg })
        command argument result }
{
    match command {
        Ok(command) => match argument {
            Ok(argument) => command.arg(argument),
            Err(error) => {
                drop(command);
                Err(error)
            }
        },
        Err(error) => {
            drop(argument);
            Err(error)
        }
    }
}

/// Returns the command with a further child, as `Command::subcommand` adds it.
///
/// # Errors
///
/// The error of `command` or of `child`, or `Memory` if an allocation fails.
pub fn with_child(
    command: Result<Command, Error>,
    child: Result<Command, Error>,
) -> Result<Command, Error>
    ensures { MadeOf with_child command child result }
{
    match command {
        Ok(command) => match child {
            Ok(child) => command.subcommand(child),
            Err(error) => {
                drop(command);
                Err(error)
            }
        },
        Err(error) => {
            drop(child);
            Err(error)
        }
    }
}
