//! Live completion as the environment requests it.

ghost use Rattle.std.specs.Prelude.{map, string_bytes};
ghost use Rattle.cc_env.specs.OwnAnswers.{AnswersBy, AnswersCalled, own_parts, parts_called};
ghost use Rattle.cc_env.specs.OwnEnds.{EndsOwn};
ghost use Rattle.cc_engine.specs.Sources.{returned_from};
ghost use Rattle.cc_env.specs.Steps.{names_of};
ghost use Rattle.cc_lines.specs.SystemLines.{SystemGives};
ghost use Rattle.cc_program.specs.Requests.{TriesSome, system_facts};
ghost use Rattle.cc_replies.specs.Environment.{value_of};

use crate::environment::{directories, environment};
use cc_base::{CandidateSources, Error, Sink};
use cc_candidates::{Completers, Folder, RealFolder};
use cc_command::Command;
use cc_engine::Sources;
use cc_env::{Called, CompleteEnv, SafeShell, try_complete_asking};
use cc_lines::SystemLines;
use std::alloc::Global;
use std::env::Env;
use std::io::Input;
use std::rt::Files;

/// Writes what a shell asks for by the environment to `out`, through the safe adapters, and returns
/// the exit status with which the program then ends: 0 after a reply or a registration, and 3 after
/// the words of a command for the shell to run. Returns `None` if no shell asks. `words` are those
/// of the command line, the program's name first. `factory` makes the command that is completed,
/// and `completers` are those that its arguments name.
///
/// The environment, the current directory and the user's home directory are those of the system. If
/// the values of an argument come from a command, a file or a hint, `SystemLines` reads them: what
/// the command printed is on the standard input. Nothing else is read from there.
///
/// # Errors
///
/// Those of `try_complete_asking`, and `Memory` if an allocation fails.
pub fn completes<R, F, W>(
    rt: &R,
    words: &[String],
    factory: F,
    completers: &Completers,
    out: &mut W,
) -> Result<Option<u8>, Error>
where
    R: Env + Files + Input + AllocGlobal,
    F: Fn(Global) -> Result<Command, Error> + Drop,
    W: Sink,
    requires { F.IsAlwaysCallable factory }
    ensures { TriesSome out.old out.new result factory (λ alloc env current home made_by variable
        bin completer shells. EndsOwn W.taken W.failed (AnswersBy shells
        (λ made. F.post made_by alloc made) (own_parts (names_of variable bin completer current)
        env (map string_bytes words.now) (returned_from ⟦<Completers as CandidateSources>⟧
        completers.now (system_facts home) current)) SystemGives (value_of variable env))
        out.old out.new result) }
{
    let variables = environment(rt)?;
    let found = directories(rt, &variables)?;
    let (home, current) = found;
    let folder = RealFolder::new(rt, home).with_modes();
    let current_dir = current.as_ref().map(|path| path.as_str());
    let called = Called {
        args: words,
        env: &variables,
    };
    let sources = Sources {
        current_dir,
        folder: &folder,
        completers,
    };
    let completion = CompleteEnv::safe(factory);
    let ended = answers_in(rt, rt.alloc(), &completion, &called, &sources, out);
    // One call each, instead of a drop of each field at the end.
    drop(completion);
    drop(folder);
    drop(current);
    ended
}

// Writes the answer to a request, with lines of the system, and returns the exit status.
fn answers_in<R, F, D, W>(
    rt: &R,
    alloc: Global,
    completion: &CompleteEnv<'_, F, SafeShell>,
    called: &Called<'_>,
    sources: &Sources<'_, D, Completers>,
    out: &mut W,
) -> Result<Option<u8>, Error>
where
    R: Files + Input,
    F: Fn(Global) -> Result<Command, Error> + Drop,
    D: Folder,
    W: Sink,
    requires { F.IsAlwaysCallable completion.now.factory }
    ensures { EndsOwn W.taken W.failed (AnswersCalled completion.now called.now
        (parts_called completion.now called.now ⟦<Completers as CandidateSources>⟧
        (D.facts sources.now.folder.now) sources.now) SystemGives
        (λ made. F.post completion.now.factory alloc made)) out.old out.new result }
{
    let lines = SystemLines {
        rt,
        env: called.env,
        current_dir: sources.current_dir,
        folder: sources.folder,
    };
    try_complete_asking(alloc, completion, called, sources, &lines, out)
}
