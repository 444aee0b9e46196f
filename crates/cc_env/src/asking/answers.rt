//! The answer to a request: a text, or the words of a command that lists values.

ghost use Rattle.std.specs.Prelude.{◌≡◌};
ghost use Rattle.cc_arg.specs.declared.parts.ArgParts.{ArgParts as Arg};
ghost use Rattle.cc_base.specs.declared.sources.CandidateSources.{Ghosts};
ghost use Rattle.cc_env.specs.Steps.{made_bytes};
ghost use Rattle.cc_env.specs.Answers.{Answers, AnswersStep, MakesOver, parts_of};
ghost use Rattle.cc_env.specs.Answers.{seen_answer, told_by};

use crate::arguments::words_after;
use crate::asking::asked::{AnswerStep, asked_by, behind_name, next_step};
use crate::asking::line_source::LineSource;
use crate::asking::values_read::{ValuesRead, omits_space, read_from};
use crate::asking::with_lines::WithLines;
use crate::safe_shell::SafeShell;
use crate::shell_program::ShellProgram;
use cc_arg::Arg;
use cc_base::{CandidateSources, Collected, Error, Items, Text};
use cc_candidates::{CompletionCandidate, Folder};
use cc_command::{Command, discard, list_values};
use cc_engine::Sources;
use cc_replies::EnvValues;
use std::alloc::Global;

/// A run of a program by a shell.
#[derive(Drop)]
pub struct Call<'r> {
    /// The program as the shell runs it.
    pub program: ShellProgram<'r, SafeShell>,
    /// The arguments of the program, its name first. The words to complete follow a `--`.
    pub args: &'r [String],
    /// The values of the environment variables.
    pub env: &'r EnvValues,
    /// True if commands that the tree names may be run.
    pub trusted: bool,
}

/// The answer to a request.
#[derive(Drop)]
pub enum Answer {
    /// A reply, or a registration.
    Text(Collected),
    /// A reply after whose values no space follows.
    TextWithoutSpace(Collected),
    /// The words of a command for the shell to run. What they print are the values of an argument.
    Run(Items<Text>),
}

/// Returns the answer to a request, over the command of the program. If no words follow a `--`, it
/// is the registration.
///
/// If the request comes from a safe registration, and the last word asks for the values of an
/// argument that come from outside the tree, these are needed first:
///
/// - If they come from a command, `_COMPLGEN_VALUES` decides. If it is `ask`, the answer is `Run`,
///   with the words that `wanted_command` returns, if it returns any. If it is `stdin`, `lines` has
///   the output of the command. Otherwise the argument has no values. It has none either if the
///   variable `COMPLGEN_COMMANDS` is `0`, or if `call.trusted` is false.
/// - If they come from a file or from the system, `lines` has them.
///
/// The answer over lines is `TextWithoutSpace` if the lines say that no space follows a value, and
/// `_COMPLGEN_SPACE` is `1`.
///
/// All other candidates come from `command` and `sources`.
///
/// # Errors
///
/// `NoArguments` if `call.args` is empty, `NoCompletion` if the word to complete is not there or is
/// the program's name, and `Memory` if an allocation fails.
pub fn answer_call<D, C, S>(
    alloc: Global,
    call: &Call<'_>,
    mut command: Command,
    sources: &Sources<'_, D, C>,
    lines: &S,
) -> Result<Answer, Error>
where
    D: Folder,
    C: CandidateSources<Candidate = CompletionCandidate>,
    S: LineSource,
    ensures { Answers (parts_of C.CandidateSources (D.facts sources.now.folder.now) call.now
        sources.now) (S.gives lines.now) command (seen_answer result) }
{
    let words = words_after(call.args);
    match asked_by(alloc, &mut command, call.env, words) {
        Ok(asked) => {
            let typed = behind_name(&command, words);
            match next_step(alloc, call.env, call.trusted, asked, typed) {
                Ok(step) => answer_step(alloc, call, command, sources, lines, step),
                Err(_) => {
                    discard(command, call.program.release);
                    Err(Error::Memory)
                }
            }
        }
        Err(error) => {
            discard(command, call.program.release);
            Err(error)
        }
    }
}

// Returns the answer over a built command, by this step.
fn answer_step<D, C, S>(
    alloc: Global,
    call: &Call<'_>,
    command: Command,
    sources: &Sources<'_, D, C>,
    lines: &S,
    step: AnswerStep,
) -> Result<Answer, Error>
where
    D: Folder,
    C: CandidateSources<Candidate = CompletionCandidate>,
    S: LineSource,
    ensures { AnswersStep (parts_of C.CandidateSources (D.facts sources.now.folder.now) call.now
        sources.now) (S.gives lines.now) command step (seen_answer result) }
{
    match step {
        AnswerStep::Reply => {
            let text = call
                .program
                .text(alloc, command, call.args, call.env, sources);
            text_answer(text, false)
        }
        AnswerStep::Run(words) => {
            discard(command, call.program.release);
            Ok(Answer::Run(words))
        }
        AnswerStep::ReadLines(asked) => {
            let answer = answer_over_lines(alloc, call, command, sources, lines, &asked);
            drop(asked);
            answer
        }
    }
}

// Returns a text that was made, as an answer.
fn text_answer(text: Result<Collected, Error>, no_space: bool) -> Result<Answer, Error>
    ensures { seen_answer result ≡ told_by no_space (made_bytes text) }
{
    match text {
        Ok(text) if no_space => Ok(Answer::TextWithoutSpace(text)),
        Ok(text) => Ok(Answer::Text(text)),
        Err(error) => Err(error),
    }
}

// Returns the answer over a command and the lines that are the values of `asked`.
fn answer_over_lines<D, C, S>(
    alloc: Global,
    call: &Call<'_>,
    command: Command,
    sources: &Sources<'_, D, C>,
    lines: &S,
    asked: &Arg,
) -> Result<Answer, Error>
where
    D: Folder,
    C: CandidateSources<Candidate = CompletionCandidate>,
    S: LineSource,
    ensures { AnswersStep (parts_of C.CandidateSources (D.facts sources.now.folder.now) call.now
        sources.now) (S.gives lines.now) command (AnswerStep.ReadLines asked.now)
        (seen_answer result) }
{
    match read_from(alloc, lines, asked) {
        Ok(read) => {
            let text = text_over(alloc, call, command, sources, asked, &read);
            let no_space = omits_space(call.env, &read);
            drop(read);
            text_answer(text, no_space)
        }
        Err(error) => {
            discard(command, call.program.release);
            Err(error)
        }
    }
}

// Returns the text over a command in which the values that were read are those of each argument
// whose values come from where those of `asked` come from.
fn text_over<D, C>(
    alloc: Global,
    call: &Call<'_>,
    mut command: Command,
    sources: &Sources<'_, D, C>,
    asked: &Arg,
    read: &ValuesRead,
) -> Result<Collected, Error>
where
    D: Folder,
    C: CandidateSources<Candidate = CompletionCandidate>,
    ensures { MakesOver (parts_of C.CandidateSources (D.facts sources.now.folder.now) call.now
        sources.now) asked.now read.now command (made_bytes result) }
{
    list_values(&mut command, asked, read.values);
    let completers = WithLines {
        sources: sources.completers,
        lines: &read.lines,
    };
    let with_lines = Sources {
        current_dir: sources.current_dir,
        folder: sources.folder,
        completers: &completers,
    };
    call.program
        .text(alloc, command, call.args, call.env, &with_lines)
}
