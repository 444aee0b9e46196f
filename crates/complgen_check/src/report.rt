//! Prints findings.

ghost use Rattle.cc_base.specs.Writes.{Writes};
ghost use Rattle.complgen_check.specs.Report.{finding_text, report_text};

use crate::errors::{Finding, Lines};
use crate::objects::object;
use crate::text_lines::line;
use cc_base::{Error, Sink, put_all, put_piece};
use std::alloc::Global;

/// The form in which findings are printed.
#[derive(Clone, Copy, Debug, Drop, PartialEq, Eq)]
pub enum Report {
    /// A line of text, `LINE:COLUMN: LEVEL: PATH: TEXT`.
    Lines,
    /// A JSON object on a line of its own, with the keys `line`, `column`, `level`, `path` and
    /// `text`.
    Json,
}

/// Prints `findings` in a file that consists of `bytes`, in their order.
///
/// # Errors
///
/// `Write` if a write fails, `Memory` if an allocation fails.
pub(crate) fn put_findings<W: Sink>(
    out: &mut W,
    alloc: Global,
    report: Report,
    bytes: &[u8],
    findings: &[Finding],
) -> Result<(), Error>
    ensures { Writes W.taken W.failed result out.old out.new
        (report_text report bytes.now findings.now) }
{
    // The places of lines are only needed for findings.
    if findings.is_empty() {
        return Ok(());
    }
    let lines = Lines::new(alloc, bytes)?;
    put_each(out, alloc, report, &lines, findings)
}

#[tactic(auto, using(cc_base::proofs::WrittenTexts::in_steps))]
fn put_each<W: Sink>(
    out: &mut W,
    alloc: Global,
    report: Report,
    lines: &Lines<'_>,
    findings: &[Finding],
) -> Result<(), Error>
    ensures { Writes W.taken W.failed result out.old out.new
        (report_text report lines.now findings.now) }
{
    for finding in findings {
        put_finding(out, alloc, report, lines, finding)?;
    }
    Ok(())
}

fn put_finding<W: Sink>(
    out: &mut W,
    alloc: Global,
    report: Report,
    lines: &Lines<'_>,
    finding: &Finding,
) -> Result<(), Error>
    ensures { Writes W.taken W.failed result out.old out.new
        (finding_text report lines.now finding.now) }
{
    match report {
        Report::Lines => put_line(out, alloc, lines, finding),
        Report::Json => put_object(out, alloc, lines, finding),
    }
}

fn put_line<W: Sink>(
    out: &mut W,
    alloc: Global,
    lines: &Lines<'_>,
    finding: &Finding,
) -> Result<(), Error>
    ensures { Writes W.taken W.failed result out.old out.new
        (finding_text Report.Lines lines.now finding.now) }
{
    let line = line(alloc, lines, finding)?;
    put_piece(out, line.as_str())?;
    Ok(())
}

fn put_object<W: Sink>(
    out: &mut W,
    alloc: Global,
    lines: &Lines<'_>,
    finding: &Finding,
) -> Result<(), Error>
    ensures { Writes W.taken W.failed result out.old out.new
        (finding_text Report.Json lines.now finding.now) }
{
    let mut object = object(alloc, lines, finding)?;
    object.push(b'\n')?;
    put_all(out, object.as_slice())
}
