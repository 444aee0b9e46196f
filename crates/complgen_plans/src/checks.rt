//! Writes what is wrong with a tree file.

ghost use Rattle.std.specs.Prelude.{◌≡◌, IfOk};
ghost use Rattle.std.specs.Option.{option_copied};
ghost use Rattle.complgen_check.specs.Checking.{AreSound};
ghost use Rattle.complgen_plans.specs.Checks.{EndsFindings, report_of, status_of};

use cc_base::Sink;
use complgen_check::{Report, check};
use complgen_scripts::{Refusal, TreeFile, unreadable};
use std::alloc::Global;

/// Writes what is wrong with the tree file `file` to `out`, as JSON if `json` is true. The command
/// is checked under the name `bin`, or under its own name if `bin` is `None`. Returns the exit
/// status: 1 if an error or a warning is found.
///
/// # Errors
///
/// A refusal with status 1 if the file, which the text names, cannot be read, if a write fails, or
/// if an allocation fails.
pub(crate) fn write_findings<W: Sink>(
    alloc: Global,
    bin: Option<&str>,
    json: bool,
    file: TreeFile<'_>,
    out: &mut W,
) -> Result<u8, Refusal>
    ensures ends { EndsFindings W.taken W.failed (option_copied bin.entry) json file.entry.path.now
        out.old out.new (option_copied file.entry.bytes) result }
    ensures sound { IfOk result (λ status. status ≡ 0
        → AreSound (option_copied bin.entry) (option_copied file.entry.bytes)) }
{
    let Some(bytes) = file.bytes else {
        return Err(unreadable(alloc, file.path));
    };
    let is_clean = check(alloc, bin, report_of(json), Some(bytes), out)?;
    Ok(status_of(is_clean))
}

// Returns the form of the findings.
fn report_of(json: bool) -> Report
    ensures { result ≡ report_of json }
{
    if json { Report::Json } else { Report::Lines }
}

// Returns the exit status of a check.
fn status_of(is_clean: bool) -> u8
    ensures { result ≡ status_of is_clean }
{
    if is_clean { 0 } else { 1 }
}
