//! An adapter outside the library, with the calls that an adapter needs and no others, and a
//! program that answers by it.

ghost use Rattle.std.specs.Prelude.{◌≡◌, ◌-◌, IfErr, codes, length, map, string_bytes};
ghost use Rattle.std.specs.Option.{option_copied};
ghost use Rattle.clap_complete.specs.cc_engine.Completion.{Completes};
ghost use Rattle.clap_complete.specs.cc_replies.Environment.{value_of};
ghost use Rattle.clap_complete.specs.cc_engine.Sources.{returned_from};
ghost use Rattle.clap_complete.specs.cc_base.Writes.{IsWrite, Writes};
ghost use Rattle.clap_complete.specs.cc_env.Wanted.{wanted_name};
ghost use Rattle.cc_caller.specs.Prompt.{AnswersPrompt, IsAnswer, all_prompts, ended_line};
ghost use Rattle.cc_caller.specs.Prompt.{prompt_reply};

use clap_complete::aot::{Sink, put_all};
use clap_complete::command::Command;
use clap_complete::engine::{
    CandidateSources, Completers, CompletionCandidate, Folder, Sources, complete,
};
use clap_complete::env::{EnvCompleter, EnvValues, Shells};
use clap_complete::{CompleteEnv, Error};
use std::alloc::Global;

/// The adapter of a prompt, which completes the last word.
///
/// The registration has a line with the variable and a line with the completer. The reply has a
/// line for each value.
#[derive(Clone, Copy)]
pub struct Prompt;

impl EnvCompleter for Prompt {
    ghost use Rattle.cc_caller.specs.Prompt.{prompt_spec};

    ghost spec = { λ _. prompt_spec };

    fn name(&self) -> &'static str {
        "prompt"
    }

    fn is(&self, name: &str) -> bool {
        name == "prompt"
    }

    #[tactic(auto, using(crate::proofs::PromptRead::registration_back))]
    fn write_registration<W: Sink>(
        &self,
        _alloc: Global,
        variable: &str,
        _name: &str,
        _bin: &str,
        completer: &str,
        sink: &mut W,
    ) -> Result<(), Error> {
        write_line(variable, sink)?;
        write_line(completer, sink)
    }

    #[tactic(auto, using(crate::proofs::PromptRead::reply_back))]
    fn write_complete<D: Folder, W: Sink>(
        &self,
        alloc: Global,
        command: &mut Command,
        words: Vec<String>,
        current_dir: Option<&str>,
        _env: &EnvValues,
        folder: &D,
        completers: &Completers,
        sink: &mut W,
    ) -> Result<(), Error> {
        let index = last_index(&words);
        let found = complete(
            alloc,
            command,
            words,
            index,
            current_dir,
            folder,
            completers,
        )?;
        write_values(found.as_slice(), sink)
    }
}

// Returns the index of the last word; 0 if there are no words.
fn last_index(words: &[String]) -> usize
    ensures { result ≡ length (map string_bytes words.now) - 1 }
{
    words.len().saturating_sub(1)
}

#[tactic(auto, using(cc_base::proofs::WrittenTexts::in_steps))]
fn write_values<W: Sink>(found: &[CompletionCandidate], sink: &mut W) -> Result<(), Error>
    ensures written { Writes W.taken W.failed result sink.old sink.new (prompt_reply found.now) }
    ensures write_only { IfErr result IsWrite }
{
    for candidate in found {
        write_line(candidate.get_value(), sink)?;
    }
    Ok(())
}

fn write_line<W: Sink>(text: &str, sink: &mut W) -> Result<(), Error>
    ensures written { Writes W.taken W.failed result sink.old sink.new (ended_line text.now) }
    ensures write_only { IfErr result IsWrite }
{
    put_all(sink, text.as_bytes())?;
    put_all(sink, "\n".as_bytes())
}

// The shells of a program with such a prompt.
const PROMPTS: &[Prompt] = &[Prompt];

fn prompts() -> Shells<'static, Prompt>
    ensures { result.0.now ≡ all_prompts }
{
    Shells(PROMPTS)
}

/// Writes what the prompt asks for to `out`, and returns whether it asks. If nothing asks, it
/// writes nothing and returns `false`.
///
/// If no words follow a `--`, the text is the registration. If words follow, it is a line for each
/// value that may be offered for the last one.
///
/// # Errors
///
/// Those of `try_complete`. If another shell asks, nothing is written.
pub fn answer_prompt<F, D, W>(
    alloc: Global,
    factory: F,
    args: Vec<String>,
    env: &EnvValues,
    sources: &Sources<'_, D, Completers>,
    out: &mut W,
) -> Result<bool, Error>
where
    F: Fn(Global) -> Result<Command, Error> + Drop,
    D: Folder,
    W: Sink,
    requires { F.IsAlwaysCallable factory }
    ensures { AnswersPrompt W.taken (λ text. IsAnswer (λ made. F.post factory alloc made)
        (option_copied sources.now.current_dir) (Completes (returned_from
        ⟦<Completers as CandidateSources>⟧ sources.now.completers.now
        (D.facts sources.now.folder.now) (option_copied sources.now.current_dir)))
        (map string_bytes args.items) text) (wanted_name (value_of (codes "COMPLETE") env.now))
        out.old out.new result }
{
    let program = CompleteEnv::with_factory(factory).shells(prompts());
    program.try_complete(
        alloc,
        args,
        sources.current_dir,
        env,
        sources.folder,
        sources.completers,
        out,
    )
}
