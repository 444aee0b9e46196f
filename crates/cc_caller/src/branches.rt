//! An argument whose values a command lists, and a program that completes itself with them.

ghost use Rattle.std.specs.Prelude.{◌≡◌, IfErr, IfOk, map, string_bytes};
ghost use Rattle.std.specs.Option.{option_copied};
ghost use Rattle.clap_complete.specs.cc_env.OwnEnds.{EndsOwn};
ghost use Rattle.clap_complete.specs.cc_base.Collected.{collected_bytes, collected_failures};
ghost use Rattle.clap_complete.specs.cc_engine.Sources.{returned_of};
ghost use Rattle.cc_caller.specs.Branches.{AnswersOver, branch_arg};

use clap_complete::aot::Collected;
use clap_complete::command::{Arg, Command, Text};
use clap_complete::engine::{CandidateSources, Completers, Folder, Sources};
use clap_complete::env::{Called, PassedLines, try_complete_asking};
use clap_complete::{CompleteEnv, Error};
use std::alloc::{AllocError, Global};

// The command that prints the branches of a repository, one on each line.
const BRANCHES: [&str; 3] = ["git", "branch", "--format=%(refname:short)"];

/// Returns the positional `branch`, whose values are the branches that git prints.
///
/// # Errors
///
/// `Memory` if an allocation fails.
pub fn branch(alloc: Global) -> Result<Arg, Error>
    ensures ok { IfOk result (λ arg. arg ≡ branch_arg) }
    ensures memory { IfErr result (λ error. error ≡ Error.Memory) }
{
    let words = copies_of(alloc, BRANCHES.as_slice())?;
    let id = String::from_str(alloc, "branch")?;
    Ok(Arg::new(alloc, id).values_from(words))
}

fn copies_of(alloc: Global, words: &[&str]) -> Result<Vec<Text>, AllocError>
    ensures { IfOk result (λ copies. copies.items ≡ map (λ word. word.now) words.now) }
{
    let mut copies = Vec::new(alloc);
    for word in words {
        copies.push(Text::copy_of(alloc, word)?)?;
    }
    Ok(copies)
}

/// Appends what the shell that `called` comes from is to get to `out`, and returns the exit status,
/// or `None` if no shell asks. `output` is the standard input of the program, which has what the
/// argument's command printed.
///
/// # Errors
///
/// Those of `try_complete_asking`.
pub fn write_answer_over<F, D>(
    alloc: Global,
    factory: F,
    called: &Called<'_>,
    sources: &Sources<'_, D, Completers>,
    output: &[u8],
    out: &mut Collected,
) -> Result<Option<u8>, Error>
where
    F: Fn(Global) -> Result<Command, Error> + Drop,
    D: Folder,
    requires { F.IsAlwaysCallable factory }
    ensures { EndsOwn collected_bytes collected_failures (AnswersOver
        (λ made. F.post factory alloc made) (option_copied sources.now.current_dir)
        called.now.env.now (map string_bytes called.now.args.now) (returned_of
        ⟦<Completers as CandidateSources>⟧ (D.facts sources.now.folder.now) sources.now)
        output.now) out.old out.new result }
{
    let completion = CompleteEnv::safe(factory);
    let lines = PassedLines { bytes: output };
    try_complete_asking(alloc, &completion, called, sources, &lines, out)
}
