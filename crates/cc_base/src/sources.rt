//! Completers and lists of candidates, as the crates that call them see them.

ghost use Rattle.std.specs.Prelude.{ℕ, List, IfOk};

use std::alloc::{AllocError, Global};

/// Completers and lists of candidates, called by their numbers. Relations state what each may
/// return, and clauses cite these relations.
pub trait CandidateSources {
    /// The type of the candidates.
    type Candidate;

    // the lists that the completer with a number may return, given the number of the value and the
    // text to complete
    ghost may_complete: { Self → ℕ → ℕ → List ℕ → List Self.Candidate → Type 0 };

    // the candidates that the list with a number may return
    ghost may_list: { Self → ℕ → List Self.Candidate → Type 0 };

    /// Returns what the completer with the number `completer` returns for `text`. That text is the
    /// value with the given `number`, counted from 0. Returns none if there is no such completer.
    ///
    /// # Errors
    ///
    /// `AllocError` if an allocation fails.
    fn complete_at(
        &self,
        alloc: Global,
        completer: usize,
        number: usize,
        text: &str,
    ) -> Result<Vec<Self::Candidate>, AllocError>
        ensures { IfOk result (λ found. may_complete self.now completer number text.now
            found.items) };

    /// Returns the candidates of the list with the number `list`, or none if there is no such list.
    ///
    /// # Errors
    ///
    /// `AllocError` if an allocation fails.
    fn candidates(&self, alloc: Global, list: usize) -> Result<Vec<Self::Candidate>, AllocError>
        ensures { IfOk result (λ found. may_list self.now list found.items) };
}
