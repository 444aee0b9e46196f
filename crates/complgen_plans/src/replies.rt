//! Writes the candidates for a word of a command line.

ghost use Rattle.std.specs.Prelude.{IfErr, IfOk, Some, codes, length, map, string_bytes};
ghost use Rattle.std.specs.Option.{option_copied};
ghost use Rattle.cc_engine.specs.Paths.{PathsOf};
ghost use Rattle.complgen_plans.specs.Replies.{AreFound, EndsReply, FindsNone};

use crate::word_at::WordAt;
use cc_base::{Error, Sink};
use cc_candidates::{Completers, CompletionCandidate, Folder, copies_of};
use cc_command::{Command, Release, discard};
use cc_engine::complete;
use cc_replies::write_lines;
use complgen_scripts::{Refusal, error_refusal, tree};
use std::alloc::Global;

/// The directory in which relative paths begin.
pub(crate) const CURRENT_DIR: &str = ".";

/// Writes the candidates for `word` to `out`, in the form of a reply to fish. `file` has the bytes
/// of the tree file, or is `None` if it cannot be read. Leaves the memory of the tree to the end of
/// the process.
///
/// # Errors
///
/// A refusal with status 1 if the file cannot be read or describes no command, if the index is out
/// of range, if a write fails, or if an allocation fails.
pub(crate) fn reply<D: Folder, W: Sink>(
    alloc: Global,
    word: WordAt<'_>,
    file: Option<&[u8]>,
    folder: &D,
    out: &mut W,
) -> Result<(), Refusal>
    ensures { EndsReply W.taken W.failed (PathsOf (D.facts folder.now) (Some (codes ".")))
        (map string_bytes word.entry.words.now) word.entry.index (option_copied file.entry)
        out.old out.new result }
{
    let command = tree(alloc, file, Release::AtExit)?;
    let words = copies_of(alloc, word.words)?;
    let found = match candidates(alloc, command, words, word.index, folder) {
        Ok(found) => found,
        Err(error) => return Err(error_refusal(alloc, &error)),
    };
    match write_lines(out, found.as_slice()) {
        Ok(()) => Ok(()),
        Err(error) => Err(error_refusal(alloc, &error)),
    }
}

// Returns the candidates for the word at `index`. There are no completers.
fn candidates<D: Folder>(
    alloc: Global,
    mut command: Command,
    words: Vec<String>,
    index: usize,
    folder: &D,
) -> Result<Vec<CompletionCandidate>, Error>
    ensures ok { IfOk result (λ found. AreFound (PathsOf (D.facts folder.now) (Some (codes ".")))
        (map string_bytes words.items) index command found.items) }
    ensures err { IfErr result (FindsNone (length words.items) index command) }
{
    let found = complete(
        alloc,
        &mut command,
        words,
        index,
        Some(CURRENT_DIR),
        folder,
        &Completers::none(alloc),
    );
    discard(command, Release::AtExit);
    found
}
