//! Makes the calls.

use crate::fixtures::{app, environment, texts};
use crate::sinks::Narrow;
use clap_complete::aot::{Counted, put_all};
use clap_complete::command::Command;
use clap_complete::engine::{
    Completers, CompletionCandidate, MemoryFolder, Sources, bash_script_and_candidates, complete,
};
use clap_complete::env::{EnvCompleter, Shells};
use clap_complete::{CompleteEnv, Error, Shell, generate, generate_to};
use std::alloc::Global;

/// The names of the calls: what is done, and for which shell.
pub(crate) const CALLS: &[&str] = &[
    "bash_script_and_candidates",
    "build",
    "complete",
    "complete completer",
    "complete list",
    "complete names",
    "complete values",
    "generate bash",
    "generate elvish",
    "generate fish",
    "generate nushell",
    "generate powershell",
    "generate zsh",
    "generate_to bash",
    "generate_to elvish",
    "generate_to fish",
    "generate_to nushell",
    "generate_to powershell",
    "generate_to zsh",
    "write_registration bash",
    "write_registration elvish",
    "write_registration fish",
    "write_registration powershell",
    "write_registration zsh",
    "write_safe_registration bash",
    "write_safe_registration elvish",
    "write_safe_registration fish",
    "write_safe_registration powershell",
    "write_safe_registration zsh",
    "write_complete bash",
    "write_complete elvish",
    "write_complete fish",
    "write_complete powershell",
    "write_complete zsh",
    "try_complete register bash",
    "try_complete register elvish",
    "try_complete register fish",
    "try_complete register powershell",
    "try_complete register zsh",
    "try_complete reply bash",
    "try_complete reply elvish",
    "try_complete reply fish",
    "try_complete reply powershell",
    "try_complete reply zsh",
];

/// Makes the call of this name, which writes to the sink.
pub(crate) fn call(
    rt: &HostRuntime,
    name: &str,
    sources: &Sources<'_, MemoryFolder, Completers>,
    command: &mut Command,
    sink: &mut Counted<Narrow>,
) -> Result<(), Error> {
    let alloc = rt.alloc();
    let (done, shell) = name.split_once(' ').unwrap_or((name, ""));
    match done {
        "bash_script_and_candidates" => write_both(alloc, sources, command, sink),
        "build" => command.build(alloc),
        "complete" => complete_word(alloc, shell, sources, command, sink),
        "generate" => write_script(alloc, shell, command, sink),
        "generate_to" => write_file(rt, shell, command, sink),
        "write_registration" => register(alloc, &Shells::builtins(), shell, sink),
        "write_safe_registration" => register(alloc, &Shells::safe(), shell, sink),
        "write_complete" => reply(alloc, shell, sources, command, sink),
        _ => attempt(alloc, shell, sources, sink),
    }
}

// Completes the names of children and options, the possible values of an option, what a completer or
// a list returns for one, or paths.
fn complete_word(
    alloc: Global,
    wanted: &str,
    sources: &Sources<'_, MemoryFolder, Completers>,
    command: &mut Command,
    sink: &mut Counted<Narrow>,
) -> Result<(), Error> {
    let words: &[&str] = match wanted {
        "names" => &["app", ""],
        "values" => &["app", "--color", ""],
        "completer" => &["app", "--key", "k"],
        "list" => &["app", "--level", "h"],
        _ => &["app", "--root", "k"],
    };
    let words = texts(alloc, words)?;
    put_candidates(alloc, words, sources, command, sink)
}

/// Writes the value of each candidate for the last of the words, and a line feed after it.
pub(crate) fn put_candidates(
    alloc: Global,
    words: Vec<String>,
    sources: &Sources<'_, MemoryFolder, Completers>,
    command: &mut Command,
    sink: &mut Counted<Narrow>,
) -> Result<(), Error> {
    let last = words.len().saturating_sub(1);
    let found = complete(
        alloc,
        command,
        words,
        last,
        sources.current_dir,
        sources.folder,
        sources.completers,
    )?;
    put_values(found.as_slice(), sink)
}

fn put_values(found: &[CompletionCandidate], sink: &mut Counted<Narrow>) -> Result<(), Error> {
    for candidate in found {
        put_all(sink, candidate.get_value().as_bytes())?;
        put_all(sink, b"\n")?;
    }
    Ok(())
}

// Writes a script for bash, and then the value of each candidate.
fn write_both(
    alloc: Global,
    sources: &Sources<'_, MemoryFolder, Completers>,
    command: &mut Command,
    sink: &mut Counted<Narrow>,
) -> Result<(), Error> {
    let words = texts(alloc, &["app", "--root", "k"])?;
    let name = String::from_str(alloc, "app")?;
    let found = bash_script_and_candidates(alloc, command, name, words, 2, sources, sink)?;
    put_values(found.as_slice(), sink)
}

fn write_script(
    alloc: Global,
    shell: &str,
    command: &mut Command,
    sink: &mut Counted<Narrow>,
) -> Result<(), Error> {
    let shell = Shell::parse(alloc, shell)?;
    let name = String::from_str(alloc, "app")?;
    generate(alloc, shell, command, name, sink)
}

// Writes a script to a file in the current directory, and the path of the file to the sink.
fn write_file(
    rt: &HostRuntime,
    shell: &str,
    command: &mut Command,
    sink: &mut Counted<Narrow>,
) -> Result<(), Error> {
    let shell = Shell::parse(rt.alloc(), shell)?;
    let name = String::from_str(rt.alloc(), "app")?;
    let path = generate_to(rt, rt.alloc(), shell, command, name, ".")?;
    put_all(sink, path.as_str().as_bytes())
}

fn register<E: EnvCompleter>(
    alloc: Global,
    shells: &Shells<'_, E>,
    shell: &str,
    sink: &mut Counted<Narrow>,
) -> Result<(), Error> {
    match shells.completer(shell) {
        Some(shell) => {
            shell.write_registration(alloc, "COMPLETE", "app", "my app", "/o'p/app", sink)
        }
        None => Ok(()),
    }
}

fn reply(
    alloc: Global,
    shell: &str,
    sources: &Sources<'_, MemoryFolder, Completers>,
    command: &mut Command,
    sink: &mut Counted<Narrow>,
) -> Result<(), Error> {
    let env = environment(alloc, shell)?;
    let words = texts(alloc, &["app", "--root", "k"])?;
    match Shells::builtins().completer(shell) {
        Some(shell) => {
            shell.write_complete(
                alloc,
                command,
                words,
                sources.current_dir,
                &env,
                sources.folder,
                sources.completers,
                sink,
            )
        }
        None => Ok(()),
    }
}

// Does what a program does if a shell requests its registration or a reply.
fn attempt(
    alloc: Global,
    wanted: &str,
    sources: &Sources<'_, MemoryFolder, Completers>,
    sink: &mut Counted<Narrow>,
) -> Result<(), Error> {
    let (wanted, shell) = wanted.split_once(' ').unwrap_or((wanted, ""));
    let words: &[&str] = if wanted == "register" {
        &["/o'p/app"]
    } else {
        &["app", "--", "app", "--root", "k"]
    };
    let env = environment(alloc, shell)?;
    let words = texts(alloc, words)?;
    let tried = CompleteEnv::with_factory(|alloc: Global| app(alloc)).try_complete(
        alloc,
        words,
        sources.current_dir,
        &env,
        sources.folder,
        sources.completers,
        sink,
    );
    match tried {
        Ok(_) => Ok(()),
        Err(error) => Err(error),
    }
}
