//! The candidates for a word, with given lines as the values of the argument that it asks for.

ghost use Rattle.std.specs.Prelude.{◌≡◌, length, map, string_bytes, true};
ghost use Rattle.std.specs.Prelude.{IfErr, IfOk, OnOk};
ghost use Rattle.cc_command.specs.Built.{built_tree};
ghost use Rattle.cc_command.specs.ValueLists.{listed_tree};
ghost use Rattle.cc_engine.specs.Asked.{Asks};
ghost use Rattle.cc_engine.specs.Completion.{Completes, Refuses, is_in_range};
ghost use Rattle.cc_engine.specs.Sources.{returned_of};
ghost use Rattle.cc_engine.specs.Finished.{Differ};
ghost use Rattle.cc_env.specs.Completion.{CompletesWith, LeavesListed, RefusesWith};
ghost use Rattle.cc_env.specs.ValuesRead.{read_values};
ghost use Rattle.cc_env.specs.WithLines.{with_lines};

use crate::asking::values_read::{ValuesRead, read_values};
use crate::asking::with_lines::WithLines;
use cc_arg::Arg;
use cc_base::{CandidateSources, Error};
use cc_candidates::{CompletionCandidate, Folder};
use cc_command::{Command, list_values};
use cc_engine::{Sources, asked_argument, complete_from};
use std::alloc::{AllocError, Global};

/// Returns the candidates for the word at `index`, counted from 0, of a command line of `command`,
/// as `complete_from` does.
///
/// If the word asks for the values of an argument that come from a command, a file or the system,
/// `lines` has these values. `GivenLines::new` reads them, or if the program prints those of Cobra,
/// `CobraReply::new`. Each argument with values from there then has a list with the candidates in
/// the lines, or the hint of the paths to offer, and keeps it, also after `Memory`. So take another
/// command for the next word. The number of this list is `usize::MAX`; a list of that number in
/// `sources` is not used then. If the word asks for no such argument, the lines do not count.
///
/// # Errors
///
/// Those of `complete_from`.
pub fn complete_with_lines<D, C>(
    alloc: Global,
    command: &mut Command,
    words: Vec<String>,
    index: usize,
    lines: &[u8],
    sources: &Sources<'_, D, C>,
) -> Result<Vec<CompletionCandidate>, Error>
where
    D: Folder,
    C: CandidateSources<Candidate = CompletionCandidate>,
    ensures candidates { IfOk result (λ found. CompletesWith
        (returned_of C.CandidateSources (D.facts sources.now.folder.now) sources.now) lines.now
        command.old (map string_bytes words.items) index found.items) }
    ensures differ { IfOk result (λ found. Differ found.items) }
    ensures built { OnOk result
        (LeavesListed lines.now command.old command.new (map string_bytes words.items) index) }
    ensures in_range { OnOk result
        (is_in_range command.old.node (length words.items) index ≡ true) }
    ensures errors { IfErr result
        (RefusesWith lines.now command.old command.new (map string_bytes words.items) index) }
{
    let Some(asked) = asked_of(alloc, command, words.as_slice(), index)? else {
        return complete_from(alloc, command, words, index, sources);
    };
    match list_lines(alloc, command, &asked, lines) {
        Ok(read) => {
            // One call here, instead of a drop of each field at each return.
            drop(asked);
            complete_over(alloc, command, words, index, &read, sources)
        }
        Err(_) => {
            drop(asked);
            Err(Error::Memory)
        }
    }
}

// Builds the command, and returns the argument that the word at `index` asks for.
fn asked_of(
    alloc: Global,
    command: &mut Command,
    words: &[String],
    index: usize,
) -> Result<Option<Arg>, Error>
    ensures asks { IfOk result
        (λ asked. Asks (built_tree command.old) (map string_bytes words.now) index asked) }
    ensures built { OnOk result (command.new ≡ built_tree command.old) }
    ensures whole { OnOk result (built_tree command.new ≡ command.new) }
    ensures in_range { OnOk result
        (is_in_range command.old.node (length words.now) index ≡ true) }
    ensures errors { IfErr result (Refuses command.old command.new (length words.now) index) }
{
    command.build(alloc)?;
    asked_argument(alloc, command, words, index)
}

// Returns what the lines say, and gives the values to each argument whose values come from where
// those of `asked` come from.
fn list_lines(
    alloc: Global,
    command: &mut Command,
    asked: &Arg,
    lines: &[u8],
) -> Result<ValuesRead, AllocError>
    ensures read { IfOk result (λ read. read ≡ read_values asked.now lines.now) }
    ensures listed { OnOk result (command.new
        ≡ listed_tree asked.now (read_values asked.now lines.now).values command.old) }
    ensures untouched { IfErr result (λ _. command.new ≡ command.old) }
{
    let read = read_values(alloc, asked, lines)?;
    list_values(command, asked, read.values);
    Ok(read)
}

// Returns the candidates, with those in the lines as one list more.
fn complete_over<D, C>(
    alloc: Global,
    command: &mut Command,
    words: Vec<String>,
    index: usize,
    read: &ValuesRead,
    sources: &Sources<'_, D, C>,
) -> Result<Vec<CompletionCandidate>, Error>
where
    D: Folder,
    C: CandidateSources<Candidate = CompletionCandidate>,
    ensures candidates { IfOk result (λ found. Completes (with_lines
        (returned_of C.CandidateSources (D.facts sources.now.folder.now) sources.now)
        read.now.lines.candidates) command.new (map string_bytes words.items) index found.items) }
    ensures differ { IfOk result (λ found. Differ found.items) }
    ensures built { OnOk result (command.new ≡ built_tree command.old) }
    ensures in_range { OnOk result
        (is_in_range command.new.node (length words.items) index ≡ true) }
    ensures errors { IfErr result (Refuses command.old command.new (length words.items) index) }
{
    let completers = WithLines {
        sources: sources.completers,
        lines: &read.lines,
    };
    let sources = Sources {
        current_dir: sources.current_dir,
        folder: sources.folder,
        completers: &completers,
    };
    complete_from(alloc, command, words, index, &sources)
}
