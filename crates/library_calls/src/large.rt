//! Calls over large commands: a chain of commands, each the only child of the one before it, and a
//! command with many flags.

use crate::calls::{call, put_candidates};
use crate::print;
use crate::sinks::Narrow;
use clap_complete::Error;
use clap_complete::aot::{Counted, utils};
use clap_complete::command::Command;
use clap_complete::describe::{ArgDescription, arg, command, flag, with_arg, with_child};
use clap_complete::engine::{Completers, MemoryFolder, Sources};
use std::alloc::Global;

/// Makes the call over the command, and drops the command. Prints a line after each step, and in the
/// line `called` the length of the longest slice that was put. Then prints what the call wrote.
pub(crate) fn attempt_large(
    rt: &HostRuntime,
    name: &str,
    number: usize,
    made: Result<Command, Error>,
    sources: &Sources<'_, MemoryFolder, Completers>,
) -> Result<(), Error> {
    let mut command = made?;
    let called = attempt_call(rt, name, number, sources, &mut command);
    drop(command);
    called?;
    print(rt, "dropped")
}

fn attempt_call(
    rt: &HostRuntime,
    name: &str,
    number: usize,
    sources: &Sources<'_, MemoryFolder, Completers>,
    command: &mut Command,
) -> Result<(), Error> {
    print(rt, "made")?;
    let mut sink = Counted::new(Narrow::new(rt.alloc(), usize::MAX, None)?);
    call_over(rt, name, number, sources, command, &mut sink)?;
    tell(rt, sink.get_ref().most(), sink.get_ref().bytes())
}

fn tell(rt: &HostRuntime, most: usize, bytes: &[u8]) -> Result<(), Error> {
    let text = String::from_utf8_lossy(rt.alloc(), bytes)?;
    let told = format!(in rt.alloc(); "called {most}\n{text}")?;
    print(rt, told.as_str())
}

/// Returns `depth` commands below a root. The last one has the flag `--end`, and nothing is
/// generated.
pub(crate) fn chain(alloc: Global, depth: usize) -> Result<Command, Error> {
    let mut chain = link(alloc, &[flag("end", "It ends here")]);
    for _ in 0..depth {
        chain = with_child(link(alloc, &[]), chain);
    }
    chain
}

/// Returns a command with `count` flags. Nothing is generated.
pub(crate) fn many(alloc: Global, count: usize) -> Result<Command, Error> {
    let mut many = link(alloc, &[]);
    for _ in 0..count {
        many = with_arg(many, arg(alloc, &flag("option", "One of many")));
    }
    many
}

fn link(alloc: Global, args: &[ArgDescription<'_>]) -> Result<Command, Error> {
    let link = command(alloc, "c", "Leads on", args)?;
    Ok(link.disable_help_flag(true).disable_help_subcommand(true))
}

// Makes the call: one of a chain, or one of `CALLS`.
fn call_over(
    rt: &HostRuntime,
    name: &str,
    number: usize,
    sources: &Sources<'_, MemoryFolder, Completers>,
    command: &mut Command,
    sink: &mut Counted<Narrow>,
) -> Result<(), Error> {
    match name {
        "is_plain" => {
            command.is_plain();
            Ok(())
        }
        "has_quiet_values" => {
            command.has_quiet_values();
            Ok(())
        }
        "all_subcommands" => list(rt.alloc(), command),
        "complete" => complete_last(rt.alloc(), number, sources, command, sink),
        _ => call(rt, name, sources, command, sink),
    }
}

fn list(alloc: Global, command: &mut Command) -> Result<(), Error> {
    command.build(alloc)?;
    match utils::all_subcommands(alloc, command) {
        Ok(_) => Ok(()),
        Err(error) => Err(error),
    }
}

// Completes a word after the names of all commands of a chain.
fn complete_last(
    alloc: Global,
    depth: usize,
    sources: &Sources<'_, MemoryFolder, Completers>,
    command: &mut Command,
    sink: &mut Counted<Narrow>,
) -> Result<(), Error> {
    let mut words = Vec::new(alloc);
    for _ in 0..=depth {
        words.push(String::from_str(alloc, "c")?)?;
    }
    words.push(String::new(alloc))?;
    put_candidates(alloc, words, sources, command, sink)
}
