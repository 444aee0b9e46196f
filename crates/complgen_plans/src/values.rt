//! Writes the candidates for a word, with the lines of a file as the values that it asks for.

ghost use Rattle.std.specs.Prelude.{Some, codes, map, string_bytes};
ghost use Rattle.std.specs.Option.{option_copied};
ghost use Rattle.cc_engine.specs.Paths.{PathsOf};
ghost use Rattle.complgen_plans.specs.Ends.{EndsValues};

use crate::given_replies::reply_with;
use crate::inputs::Inputs;
use crate::word_at::WordAt;
use cc_base::Sink;
use cc_candidates::Folder;
use complgen_scripts::{Refusal, unreadable_values};
use std::alloc::Global;

/// Writes the candidates for `word` to `out`, with the lines of the given file as the values that
/// it asks for. `path` is the path of that file.
///
/// # Errors
///
/// A refusal with status 1 if one of the files cannot be read, if the tree file describes no
/// command, if the index is out of range, if a write fails, or if an allocation fails.
pub(crate) fn write_candidates<D: Folder, W: Sink>(
    alloc: Global,
    path: &str,
    word: WordAt<'_>,
    inputs: &Inputs<'_, D>,
    out: &mut W,
) -> Result<(), Refusal>
    ensures { EndsValues W.taken W.failed (PathsOf (D.facts inputs.now.folder.now) (Some (codes ".")))
        path.now (map string_bytes word.entry.words.now) word.entry.index
        (option_copied inputs.now.tree) out.old out.new (option_copied inputs.now.values) result }
{
    let Some(lines) = inputs.values else {
        return Err(unreadable_values(alloc, path));
    };
    reply_with(alloc, word, lines, inputs.tree, inputs.folder, out)
}
