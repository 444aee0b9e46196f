//! Selects the candidates that begin with a text.

ghost use Rattle.std.specs.Prelude.{◌≡◌, filter, nat_eq};
ghost use Rattle.std.specs.List.{starts_with};
ghost use Rattle.cc_candidates.specs.Beginning.{begins};

use crate::candidate::CompletionCandidate;

/// Keeps the candidates whose values begin with `text`, in their order.
pub fn retain_beginning_with(
    mut candidates: Vec<CompletionCandidate>,
    text: &str,
) -> Vec<CompletionCandidate>
    ensures { result.items ≡ filter (begins text.now) candidates.items }
{
    candidates.retain(|candidate| begins_with(candidate.get_value(), text));
    candidates
}

/// Returns whether `value` begins with `text`.
pub fn begins_with(value: &str, text: &str) -> bool
    ensures { result ≡ starts_with nat_eq value.now text.now }
{
    value.as_bytes().starts_with(text.as_bytes())
}
