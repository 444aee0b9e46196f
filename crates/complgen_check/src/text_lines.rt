//! Formats findings as lines of text.

ghost use Rattle.std.specs.Prelude.{◌≡◌, IfOk, take};
ghost use Rattle.std.specs.String.{string_bytes};
ghost use Rattle.complgen_check.specs.Lines.{finding_line, level_text, place_text};

use crate::errors::{Finding, Level, Lines};
use std::alloc::{AllocError, Global};

/// Returns `finding` as a line, `LINE:COLUMN: LEVEL: PATH: TEXT`.
///
/// # Errors
///
/// `AllocError` if an allocation fails.
pub(crate) fn line(
    alloc: Global,
    lines: &Lines<'_>,
    finding: &Finding,
) -> Result<String, AllocError>
    ensures { IfOk result (λ line. string_bytes line ≡ finding_line lines.now finding.now) }
{
    let place = place_text(alloc, lines, finding.offset)?;
    let place = place.as_str();
    let level = level_text(finding.level);
    let (path, text) = (finding.path.as_str(), finding.text.as_str());
    format!(in alloc; "{place}: {level}: {path}: {text}\n")
}

// Returns `LINE:COLUMN` of the place after the first `offset` bytes.
fn place_text(alloc: Global, lines: &Lines<'_>, offset: usize) -> Result<String, AllocError>
    ensures { IfOk result (λ text. string_bytes text ≡ place_text (take offset lines.now)) }
{
    let (line, column) = lines.line_and_column(offset);
    format!(in alloc; "{line}:{column}")
}

/// Returns the name of a level.
pub(crate) fn level_text(level: Level) -> &'static str
    ensures { result.now ≡ level_text level }
{
    match level {
        Level::Note => "note",
        Level::Warning => "warning",
        Level::Error => "error",
    }
}
