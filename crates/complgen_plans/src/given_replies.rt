//! Writes the candidates for a word, with given lines as the values that it asks for.

ghost use Rattle.std.specs.Prelude.{IfErr, IfOk, Some, codes, length, map, string_bytes};
ghost use Rattle.std.specs.Option.{option_copied};
ghost use Rattle.cc_engine.specs.Paths.{PathsOf};
ghost use Rattle.complgen_plans.specs.GivenReplies.{AreFoundWith, EndsReplyWith};
ghost use Rattle.complgen_plans.specs.Replies.{FindsNone};

use crate::replies::CURRENT_DIR;
use crate::word_at::WordAt;
use cc_base::{Error, Sink};
use cc_candidates::{Completers, CompletionCandidate, Folder, copies_of};
use cc_command::{Command, Release};
use cc_engine::Sources;
use cc_env::complete_with_lines;
use cc_replies::write_lines;
use complgen_scripts::{Refusal, error_refusal, tree};
use std::alloc::Global;

/// Writes the candidates for `word` to `out`, in the form of a reply to fish. If the word asks for
/// the values of an argument that come from a command, a file or the system, the values are the
/// `lines`. `file` has the bytes of the tree file, or is `None` if it cannot be read.
///
/// # Errors
///
/// A refusal with status 1 if the file cannot be read or describes no command, if the index is out
/// of range, if a write fails, or if an allocation fails.
pub(crate) fn reply_with<D: Folder, W: Sink>(
    alloc: Global,
    word: WordAt<'_>,
    lines: &[u8],
    file: Option<&[u8]>,
    folder: &D,
    out: &mut W,
) -> Result<(), Refusal>
    ensures { EndsReplyWith W.taken W.failed (PathsOf (D.facts folder.now) (Some (codes ".")))
        lines.now (map string_bytes word.entry.words.now) word.entry.index
        (option_copied file.entry) out.old out.new result }
{
    let command = tree(alloc, file, Release::AtExit)?;
    let found = match candidates_with(alloc, command, word, lines, folder) {
        Ok(found) => found,
        Err(error) => return Err(error_refusal(alloc, &error)),
    };
    match write_lines(out, found.as_slice()) {
        Ok(()) => Ok(()),
        Err(error) => Err(error_refusal(alloc, &error)),
    }
}

// Returns the candidates for `word`. There are no completers.
fn candidates_with<D: Folder>(
    alloc: Global,
    mut command: Command,
    word: WordAt<'_>,
    lines: &[u8],
    folder: &D,
) -> Result<Vec<CompletionCandidate>, Error>
    ensures ok { IfOk result (λ found. AreFoundWith (PathsOf (D.facts folder.now) (Some (codes ".")))
        lines.now (map string_bytes word.entry.words.now) word.entry.index command found.items) }
    ensures err { IfErr result
        (FindsNone (length word.entry.words.now) word.entry.index command) }
{
    let found = found_with(alloc, &mut command, word, lines, folder);
    // One call here, instead of a drop of each field at each return.
    drop(command);
    found
}

// Returns the candidates for `word` of `command`, which is built.
fn found_with<D: Folder>(
    alloc: Global,
    command: &mut Command,
    word: WordAt<'_>,
    lines: &[u8],
    folder: &D,
) -> Result<Vec<CompletionCandidate>, Error>
    ensures ok { IfOk result (λ found. AreFoundWith (PathsOf (D.facts folder.now) (Some (codes ".")))
        lines.now (map string_bytes word.entry.words.now) word.entry.index command.old found.items) }
    ensures err { IfErr result
        (FindsNone (length word.entry.words.now) word.entry.index command.old) }
{
    let words = copies_of(alloc, word.words)?;
    let completers = Completers::none(alloc);
    let sources = Sources {
        current_dir: Some(CURRENT_DIR),
        folder,
        completers: &completers,
    };
    complete_with_lines(alloc, command, words, word.index, lines, &sources)
}
