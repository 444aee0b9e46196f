//! Replies to the requests of shells.

ghost use Rattle.complgen_live.specs.Answers.{AnswersRequest, parts_of};
ghost use Rattle.complgen_live.specs.Replies.{EndsReply};

use crate::answers::answer_request;
use crate::reply_errors::ReplyError;
use crate::requests::Request;
use cc_base::Sink;
use cc_candidates::Folder;
use cc_env::{LineSource, write_answer};
use std::alloc::Global;

/// Writes the answer to `request` to `out`, and returns the exit status: 0 after a reply or a
/// registration, 3 after the words of a command for the shell to run, 4 after a reply after whose
/// values no space follows, and 1 if there is no tree file or no request. The whole answer is made
/// before any of it is written.
///
/// # Errors
///
/// The errors of `answer_request`, with nothing written. `Library` with `Write` if `out` fails,
/// which then holds a beginning of the answer.
pub fn reply<D: Folder, S: LineSource, W: Sink>(
    alloc: Global,
    request: &Request<'_, D>,
    lines: &S,
    out: &mut W,
) -> Result<u8, ReplyError>
    ensures { EndsReply W.taken W.failed (AnswersRequest (parts_of
        (D.facts request.now.folder.now) request.now) (S.gives lines.now)) out.old out.new result }
{
    let Some(answer) = answer_request(alloc, request, lines)? else {
        return Ok(1);
    };
    match write_answer(&answer, out) {
        Ok(()) => {
            let status = answer.status();
            // One call here, instead of a drop of each variant at each return.
            drop(answer);
            Ok(status)
        }
        Err(error) => {
            drop(answer);
            Err(ReplyError::Library(error))
        }
    }
}
