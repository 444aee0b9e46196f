//! Writes the man page for a tree file.

ghost use Rattle.std.specs.Option.{option_copied};
ghost use Rattle.complgen_plans.specs.Pages.{EndsPage};

use cc_base::Sink;
use complgen_man::generate_page;
use complgen_scripts::{Refusal, TreeFile, error_refusal, named_tree};
use std::alloc::Global;

/// Writes the man page of the command in `file`, built under the name `bin`, to `out`.
///
/// # Errors
///
/// A refusal with status 1 if the file, which the text names, holds no tree, if a write fails, or
/// if an allocation fails.
pub(crate) fn write_man_page<W: Sink>(
    alloc: Global,
    bin: &str,
    file: TreeFile<'_>,
    out: &mut W,
) -> Result<(), Refusal>
    ensures { EndsPage W.taken W.failed bin.now file.entry.path.now out.old out.new
        (option_copied file.entry.bytes) result }
{
    let mut command = named_tree(alloc, file)?;
    let bin = String::from_str(alloc, bin)?;
    match generate_page(alloc, &mut command, bin, out) {
        Ok(()) => Ok(()),
        Err(error) => Err(error_refusal(alloc, &error)),
    }
}
