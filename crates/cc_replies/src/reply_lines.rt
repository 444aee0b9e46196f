//! A line of a reply for each value that a shell can insert.

ghost use Rattle.std.specs.Prelude.{filter, flat_map};
ghost use Rattle.cc_base.specs.Writes.{Writes, as_write};

use cc_base::Sink;
use cc_candidates::CompletionCandidate;
use std::io::ErrorKind;

/// The lines of a reply to a shell.
pub(crate) trait ReplyLines {
    ghost use Rattle.std.specs.Prelude.{◌≡◌, ℕ, Bool, List};
    ghost use Rattle.cc_base.specs.Writes.{Writes, as_write};
    ghost use Rattle.cc_candidates.specs.declared.candidate.CompletionCandidate.{CompletionCandidate};

    // whether the shell can insert a value
    ghost inserts: { Self → List ℕ → Bool };

    // the line of a candidate
    ghost line: { Self → CompletionCandidate → List ℕ };

    /// Returns whether the shell can insert the value.
    fn can_insert(&self, value: &str) -> bool
        ensures { result ≡ inserts self.now value.now };

    /// Writes the line of a candidate whose value the shell can insert.
    ///
    /// # Errors
    ///
    /// The kind of the put that failed.
    fn put_line<W: Sink>(
        &self,
        sink: &mut W,
        candidate: &CompletionCandidate,
    ) -> Result<(), ErrorKind>
        ensures { Writes W.taken W.failed (as_write result) sink.old sink.new
            (line self.now candidate.now) };
}

/// Writes a line for each candidate whose value the shell can insert.
#[tactic(auto, using(cc_base::proofs::WrittenTexts::in_steps))]
pub(crate) fn put_each<L: ReplyLines, W: Sink>(
    sink: &mut W,
    lines: &L,
    candidates: &[CompletionCandidate],
) -> Result<(), ErrorKind>
    ensures { Writes W.taken W.failed (as_write result) sink.old sink.new
        (flat_map (L.line lines.now)
        (filter (λ candidate. L.inserts lines.now candidate.value) candidates.now)) }
{
    for candidate in candidates {
        if !lines.can_insert(candidate.get_value()) {
            continue;
        }
        lines.put_line(sink, candidate)?;
    }
    Ok(())
}
