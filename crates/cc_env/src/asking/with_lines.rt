//! Completers and lists, with one list more: the candidates in given lines.

ghost use Rattle.std.specs.Prelude.{◌≡◌, IfOk};
ghost use Rattle.cc_env.specs.WithLines.{lines_list, lists_with};

use cc_base::{ArgValueCandidates, CandidateSources};
use cc_candidates::CompletionCandidate;
use cc_replies::GivenLines;
use std::alloc::{AllocError, Global};

// The number of the list. It is the greatest one, so that no other list has it.
const LINES: usize = 18_446_744_073_709_551_615;

/// Completers and lists, and the candidates in given lines as one list more.
#[derive(Drop)]
pub struct WithLines<'c, C> {
    /// The completers and the other lists.
    pub sources: &'c C,
    /// The candidates in the lines.
    pub lines: &'c GivenLines,
}

/// Returns the number of the list of the lines.
pub(crate) fn lines_list() -> ArgValueCandidates
    ensures { result ≡ lines_list }
{
    ArgValueCandidates::new(LINES)
}

impl<C: CandidateSources<Candidate = CompletionCandidate>> CandidateSources for WithLines<'_, C> {
    type Candidate = CompletionCandidate;

    ghost may_complete = { λ with which number text found.
        C.CandidateSources.may_complete with.sources.now which number text found };

    ghost may_list = { λ with. lists_with (C.CandidateSources.may_list with.sources.now)
        with.lines.now.candidates };

    fn complete_at(
        &self,
        alloc: Global,
        completer: usize,
        number: usize,
        text: &str,
    ) -> Result<Vec<CompletionCandidate>, AllocError> {
        self.sources.complete_at(alloc, completer, number, text)
    }

    fn candidates(
        &self,
        alloc: Global,
        list: usize,
    ) -> Result<Vec<CompletionCandidate>, AllocError> {
        if list == LINES {
            return self.lines.candidates(alloc, 0);
        }
        self.sources.candidates(alloc, list)
    }
}
