//! A program that completes its own command line, with values from outside its tree.

ghost use Rattle.cc_env.specs.OwnAnswers.{AnswersCalled, parts_called, seen_own};
ghost use Rattle.cc_env.specs.OwnEnds.{EndsOwn};

use crate::asking::answers::{Answer, Call, answer_call};
use crate::asking::line_source::LineSource;
use crate::asking::writing::write_answer;
use crate::complete_env::CompleteEnv;
use crate::safe_shell::SafeShell;
use cc_base::{CandidateSources, Error, Sink};
use cc_candidates::{CompletionCandidate, Folder};
use cc_command::Command;
use cc_engine::Sources;
use cc_replies::EnvValues;
use std::alloc::Global;

/// The arguments and the environment with which a program was started.
#[derive(Drop)]
pub struct Called<'r> {
    /// The arguments, the program's name first.
    pub args: &'r [String],
    /// The values of the environment variables.
    pub env: &'r EnvValues,
}

/// Writes the answer of `answer_own` to `out`, and returns the exit status: 0 after a reply or a
/// registration, 3 after the words of a command for the shell to run, and 4 after a reply after
/// whose values no space follows. Returns `None` if the environment requests nothing, and writes
/// nothing then. The whole answer is made before any of it is written.
///
/// If a status is returned, the program ends with it, and writes nothing else to `out`.
///
/// # Errors
///
/// Those of `answer_own`, with nothing written. `Write` if `out` fails, which then holds a
/// beginning of the answer.
pub fn try_complete_asking<F, D, C, S, W>(
    alloc: Global,
    completion: &CompleteEnv<'_, F, SafeShell>,
    called: &Called<'_>,
    sources: &Sources<'_, D, C>,
    lines: &S,
    out: &mut W,
) -> Result<Option<u8>, Error>
where
    F: Fn(Global) -> Result<Command, Error> + Drop,
    D: Folder,
    C: CandidateSources<Candidate = CompletionCandidate>,
    S: LineSource,
    W: Sink,
    requires { F.IsAlwaysCallable completion.now.factory }
    ensures { EndsOwn W.taken W.failed (AnswersCalled completion.now called.now
        (parts_called completion.now called.now C.CandidateSources
        (D.facts sources.now.folder.now) sources.now) (S.gives lines.now)
        (λ made. F.post completion.now.factory alloc made)) out.old out.new result }
{
    let Some(answer) = answer_own(alloc, completion, called, sources, lines)? else {
        return Ok(None);
    };
    let status = answer.status();
    match write_answer(&answer, out) {
        Ok(()) => {
            drop(answer);
            Ok(Some(status))
        }
        Err(error) => {
            drop(answer);
            Err(error)
        }
    }
}

/// Returns the answer to the request of the environment, or `None` if it requests nothing.
///
/// It is the answer of `answer_call` for the requested shell, over the command that the factory of
/// `completion` makes. Commands of this tree may be run, since the program has it.
///
/// # Errors
///
/// In this order: `UnknownShell` if no shell has the requested name; the error of the factory;
/// those of `answer_call`.
pub fn answer_own<F, D, C, S>(
    alloc: Global,
    completion: &CompleteEnv<'_, F, SafeShell>,
    called: &Called<'_>,
    sources: &Sources<'_, D, C>,
    lines: &S,
) -> Result<Option<Answer>, Error>
where
    F: Fn(Global) -> Result<Command, Error> + Drop,
    D: Folder,
    C: CandidateSources<Candidate = CompletionCandidate>,
    S: LineSource,
    requires { F.IsAlwaysCallable completion.now.factory }
    ensures { AnswersCalled completion.now called.now (parts_called completion.now called.now
        C.CandidateSources (D.facts sources.now.folder.now) sources.now) (S.gives lines.now)
        (λ made. F.post completion.now.factory alloc made) (seen_own result) }
{
    let Some(shell) = completion.requested_shell(alloc, called.env)? else {
        return Ok(None);
    };
    let command = completion.command(alloc)?;
    let call = Call {
        program: completion.shell_program(shell),
        args: called.args,
        env: called.env,
        trusted: true,
    };
    Ok(Some(answer_call(alloc, &call, command, sources, lines)?))
}
