//! The candidates for a word of a command line.

ghost use Rattle.std.specs.Prelude.{◌≡◌, length, map, string_bytes, true, IfOk, IfErr, OnOk};
ghost use Rattle.std.specs.Option.{option_copied};
ghost use Rattle.cc_command.specs.Built.{built_tree};
ghost use Rattle.cc_engine.specs.Completion.{Completes, Refuses, is_in_range};
ghost use Rattle.cc_engine.specs.Sources.{returned_from};
ghost use Rattle.cc_engine.specs.Finished.{Differ};

use crate::candidates::offer_candidates;
use crate::lookup::Lookup;
use crate::place::{in_range, place_at};
use crate::sources::Sources;
use cc_base::{CandidateSources, Error};
use cc_candidates::{Completers, CompletionCandidate, Folder};
use cc_command::Command;
use std::alloc::Global;

/// Returns the candidates for the word at `index`, counted from 0, of a command line of `command`,
/// which is built first. They come from `command` and from what `lookup` finds.
///
/// The `words` are those of the command line, the program's name first unless `no_binary_name` is
/// set.
///
/// If a candidate is visible, hidden ones are left out. Of several with one id the first stays.
/// They are in the order of the first of their tag, and by display order within a tag.
///
/// # Errors
///
/// `NoCompletion` if no word, or the program's name, is at `index`; the command is built all the
/// same. `Memory` if an allocation fails; the command is then as it was, or built.
pub fn complete_from<L: Lookup>(
    alloc: Global,
    command: &mut Command,
    words: Vec<String>,
    index: usize,
    lookup: &L,
) -> Result<Vec<CompletionCandidate>, Error>
    ensures candidates { IfOk result (λ found. Completes (L.may_return lookup.now)
        command.new (map string_bytes words.items) index found.items) }

    // Two candidates that are returned never share an id.
    ensures differ { IfOk result (λ found. Differ found.items) }
    ensures built { OnOk result (command.new ≡ built_tree command.old) }
    ensures in_range { OnOk result
        (is_in_range command.new.node (length words.items) index ≡ true) }
    ensures errors { IfErr result (Refuses command.old command.new (length words.items) index) }
{
    command.build(alloc)?;
    if !in_range(command, words.len(), index) {
        return Err(Error::NoCompletion);
    }
    let place = place_at(command, words.as_slice(), index);
    Ok(offer_candidates(alloc, place.command, &place.state, place.word, lookup)?)
}

/// Returns the candidates for the word at `index`, as `complete_from` does, from `Sources` of a
/// directory, a folder and completers.
///
/// # Errors
///
/// Those of `complete_from`.
pub fn complete<D: Folder>(
    alloc: Global,
    command: &mut Command,
    words: Vec<String>,
    index: usize,
    current_dir: Option<&str>,
    folder: &D,
    completers: &Completers,
) -> Result<Vec<CompletionCandidate>, Error>
    ensures candidates { IfOk result (λ found. Completes
        (returned_from ⟦<Completers as CandidateSources>⟧ completers.now (D.facts folder.now)
        (option_copied current_dir.entry)) command.new (map string_bytes words.items) index
        found.items) }
    ensures differ { IfOk result (λ found. Differ found.items) }
    ensures built { OnOk result (command.new ≡ built_tree command.old) }
    ensures in_range { OnOk result
        (is_in_range command.new.node (length words.items) index ≡ true) }
    ensures errors { IfErr result (Refuses command.old command.new (length words.items) index) }
{
    let sources = Sources {
        current_dir,
        folder,
        completers,
    };
    complete_from(alloc, command, words, index, &sources)
}
