//! The traits of completers and of lists of candidates.

ghost use Rattle.std.specs.Prelude.{ℕ, List, IfOk};
ghost use Rattle.cc_candidates.specs.declared.candidate.CompletionCandidate.{CompletionCandidate};

use crate::candidate::CompletionCandidate;
use std::alloc::{AllocError, Global};

/// Computes candidates for the text of a value.
///
/// Its candidates are offered unfiltered, so it must leave out those that do not fit the text. It
/// fails only if an allocation fails.
pub trait ValueCompleter: Drop {
    // the lists that it may return, by the number of the value and the text to complete
    ghost completes: { Self → ℕ → List ℕ → List CompletionCandidate → Type 0 };

    /// Returns the candidates for `text`, which may be any value of an argument.
    ///
    /// # Errors
    ///
    /// `AllocError` if an allocation fails.
    fn complete(&self, alloc: Global, text: &str) -> Result<Vec<CompletionCandidate>, AllocError>
        ensures { IfOk result (λ found. (number : ℕ)
            → completes self.now number text.now found.items) };

    /// Returns the candidates for `text`, the value with this `number` in one use of an argument.
    /// The first value has the number 0. By default, the number makes no difference.
    ///
    /// # Errors
    ///
    /// `AllocError` if an allocation fails.
    fn complete_at(
        &self,
        alloc: Global,
        number: usize,
        text: &str,
    ) -> Result<Vec<CompletionCandidate>, AllocError>
        ensures { IfOk result (λ found. completes self.now number text.now found.items) }
    {
        let _ = number;
        self.complete(alloc, text)
    }
}

/// Returns candidates that do not depend on the text to complete. Those that begin with the text
/// are offered. It fails only if an allocation fails.
pub trait ValueCandidates: Drop {
    // the lists that it may return
    ghost lists: { Self → List CompletionCandidate → Type 0 };

    /// Returns all candidates.
    ///
    /// # Errors
    ///
    /// `AllocError` if an allocation fails.
    fn candidates(&self, alloc: Global) -> Result<Vec<CompletionCandidate>, AllocError>
        ensures { IfOk result (λ found. lists self.now found.items) };
}
