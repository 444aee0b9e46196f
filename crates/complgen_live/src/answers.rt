//! Answers to the requests of shells, by a tree file.

ghost use Rattle.cc_env.specs.Answers.{Answers, seen_answer};
ghost use Rattle.complgen_live.specs.Answers.{AnswersRequest, call_for, parts_of, seen_request};

use crate::prepared::{Prepared, VARIABLE, prepare};
use crate::reply_errors::ReplyError;
use crate::requests::Request;
use cc_base::Error;
use cc_candidates::{Completers, Folder};
use cc_engine::Sources;
use cc_env::{Answer, Call, LineSource, ShellProgram, answer_call};
use std::alloc::Global;

/// Returns the answer to `request`, or `None` if there is no tree file or no request.
///
/// It is the answer of `cc_env::answer_call` over the command that the tree file describes, with
/// paths in `request.folder` and without completers. The commands of a tree are only run if
/// `request.origin` is trusted.
///
/// # Errors
///
/// `Library` with `UnknownShell` if no shell has the requested name, which is reported before the
/// file is read, and with an error of `answer_call`. `Tree` if the file is not JSON or describes no
/// command.
pub fn answer_request<D: Folder, S: LineSource>(
    alloc: Global,
    request: &Request<'_, D>,
    lines: &S,
) -> Result<Option<Answer>, ReplyError>
    ensures { AnswersRequest (parts_of (D.facts request.now.folder.now) request.now)
        (S.gives lines.now) (seen_request result) }
{
    let Some(prepared) = prepare(alloc, request.env, request.file, request.release)? else {
        return Ok(None);
    };
    Ok(Some(answer_for(alloc, request, prepared, lines)?))
}

// Returns the answer for a shell and a command.
fn answer_for<D: Folder, S: LineSource>(
    alloc: Global,
    request: &Request<'_, D>,
    prepared: Prepared,
    lines: &S,
) -> Result<Answer, Error>
    ensures { Answers (call_for (parts_of (D.facts request.now.folder.now) request.now)
        prepared.shell) (S.gives lines.now) prepared.command (seen_answer result) }
{
    let Prepared { shell, command } = prepared;
    let program = ShellProgram {
        shell: &shell,
        variable: VARIABLE,
        bin: None,
        completer: None,
        release: request.release,
    };
    let call = Call {
        program,
        args: request.words,
        env: request.env,
        trusted: request.origin.is_trusted(),
    };
    let completers = Completers::none(alloc);
    let sources = Sources {
        current_dir: request.current_dir,
        folder: request.folder,
        completers: &completers,
    };
    answer_call(alloc, &call, command, &sources, lines)
}
