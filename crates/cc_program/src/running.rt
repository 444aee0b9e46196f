//! The whole program: it completes its words, or parses them by the same tree.

ghost use Rattle.std.specs.Prelude.{ℕ, IfErr, List, map, string_bytes};
ghost use Rattle.std.specs.Fn.{FnOnceReturnsAt, FnOnceTakesAt};
ghost use Rattle.std.specs.Option.{option_copied};
ghost use Rattle.std.specs.declared.alloc.Global.{Global as Allocator};
ghost use Rattle.cc_engine.specs.Sources.{returned_from, returned_of};
ghost use Rattle.cc_program.specs.ClapParses.{clap_facts};
ghost use Rattle.cc_program.specs.Requests.{system_facts};
ghost use Rattle.cc_program.specs.Running.{EndsRun, Runs};
ghost use Rattle.cc_program.specs.Seen.{Seen};
ghost use Rattle.cc_program.specs.Statuses.{HoldsOfMatches, IsOfWords};
ghost use Rattle.cc_program.specs.declared.streams.Streams.{Streams as StreamsOf};

use crate::environment::{directories, environment};
use crate::failure::Failure;
use crate::over_values::{Program, run_over};
use crate::streams::{ErrorWriter, Streams};
use crate::word_parser::ClapParser;
use cc_base::{CandidateSources, Counted, Error};
use cc_candidates::{Completers, Folder, RealFolder};
use cc_command::{Command, Release};
use cc_engine::Sources;
use cc_env::{Called, CompleteEnv};
use cc_lines::SystemLines;
use cc_replies::words;
use clap::ArgMatches;
use std::alloc::Global;
use std::env::Env;
use std::io::{self, Input};
use std::process::ExitCode;
use std::rt::Files;

/// Runs a program over the words and the environment of the system, as `run_over` does, with the
/// safe adapters, the variable `COMPLETE` and the parser of the crate `clap`. `factory` makes the
/// tree, `completers` are those that its arguments name, and `carry_out` does the program's own
/// work on the matches.
///
/// `carry_out` needs to be callable only on matches that a parse of some words by this tree may
/// return, so it is never called on others.
///
/// The words and the environment are read once; the current directory and the user's home directory
/// only if a shell requests something. If the values of an argument come from a command, a
/// file or a hint, `SystemLines` reads them. Replies, registrations, help texts and the version go
/// to the standard output, and messages about mistakes to the standard error.
///
/// Returns status 0 after a completion, a help text, the version and the program's own work; status
/// 2 after a mistake; status 3 after the words of a command for the shell to run; and
/// status 4 after a reply after whose values no space follows.
///
/// # Errors
///
/// `Words` if the words can't be read. `Library` with an error of `completes` or of `factory`, or
/// with `Memory` if an allocation fails. `Print` if a message can't be printed. `Own` with the
/// error of `carry_out`.
pub fn run<R, F, C, E>(
    rt: &R,
    factory: F,
    completers: &Completers,
    carry_out: C,
) -> Result<ExitCode, Failure<E>>
where
    R: Env + Files + Input + Print + Eprint + AllocGlobal,
    F: Fn(Global) -> Result<Command, Error> + Drop,
    C: FnOnce(&ArgMatches<'_>) -> Result<(), E> + Drop,
    E: Drop,
    requires factory { F.IsAlwaysCallable factory }
    requires work { (alloc : Allocator) (words : List (List ℕ))
        → HoldsOfMatches (λ made. F.post factory alloc made) (clap_facts words)
        (λ found. FnOnceTakesAt C.FnOnce carry_out found) }
    ensures { Runs factory (λ alloc words env current home made_by variable bin completer shells
        new ended. EndsRun (λ made. F.post made_by alloc made)
        (λ found done. FnOnceReturnsAt C.FnOnce carry_out found done)
        (returned_from ⟦<Completers as CandidateSources>⟧ completers.now (system_facts home)
        current) words env current variable bin completer shells new ended) result }
{
    let words = read_words(rt)?;
    let variables = environment(rt)?;
    let found = directories(rt, &variables)?;
    let (home, current) = found;
    let folder = RealFolder::new(rt, home).with_modes();
    let current_dir = current.as_ref().map(|path| path.as_str());
    let called = Called {
        args: words.as_slice(),
        env: &variables,
    };
    let sources = Sources {
        current_dir,
        folder: &folder,
        completers,
    };
    let completion = CompleteEnv::safe(factory).release(Release::AtExit);
    let program = Program {
        completion,
        parser: ClapParser,
        carry_out,
    };
    let ended = run_here(rt, rt.alloc(), program, &called, &sources);
    // One call each, instead of a drop of each field at the end.
    drop(folder);
    drop(current);
    ended
}

// Runs a program with the lines, the standard output and the standard error of the system.
fn run_here<R, F, C, E, D>(
    rt: &R,
    alloc: Global,
    program: Program<'_, ClapParser, F, C>,
    called: &Called<'_>,
    sources: &Sources<'_, D, Completers>,
) -> Result<ExitCode, Failure<E>>
where
    R: Files + Input + Print + Eprint,
    F: Fn(Global) -> Result<Command, Error> + Drop,
    C: FnOnce(&ArgMatches<'_>) -> Result<(), E> + Drop,
    E: Drop,
    D: Folder,
    requires factory { F.IsAlwaysCallable program.completion.factory }
    requires work { HoldsOfMatches (λ made. F.post program.completion.factory alloc made)
        (clap_facts (map string_bytes called.now.args.now))
        (λ found. FnOnceTakesAt C.FnOnce program.carry_out found) }
    ensures { (new : StreamsOf Seen Seen) × EndsRun
        (λ made. F.post program.entry.completion.factory alloc made)
        (λ found done. FnOnceReturnsAt C.FnOnce program.entry.carry_out found done)
        (returned_of ⟦<Completers as CandidateSources>⟧ (D.facts sources.now.folder.now)
        sources.now)
        (map string_bytes called.now.args.now) called.now.env.now
        (option_copied sources.now.current_dir) program.entry.completion.variable.now
        program.entry.completion.bin program.entry.completion.completer
        program.entry.completion.shells.0.now new result }
{
    let lines = SystemLines {
        rt,
        env: called.env,
        current_dir: sources.current_dir,
        folder: sources.folder,
    };
    let out = Counted::new(io::writer(rt));
    let err = Counted::new(ErrorWriter { to: rt });
    let mut streams = Streams { out, err };
    run_over(alloc, program, called, sources, &lines, &mut streams)
}

// Returns the words of the command line.
fn read_words<R: Env + AllocGlobal, E>(rt: &R) -> Result<Vec<String>, Failure<E>>
    ensures { IfErr result IsOfWords }
{
    match words(rt) {
        Ok(words) => Ok(words),
        Err(error) => Err(Failure::Words(error)),
    }
}
