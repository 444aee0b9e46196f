//! Joins texts and adds candidates to lists.

ghost use Rattle.std.specs.Prelude.{◌≡◌, ◌++◌, [], ◌∷◌, IfOk, OnOk};
ghost use Rattle.std.specs.String.{string_bytes};

use cc_candidates::CompletionCandidate;
use std::alloc::{AllocError, Global};

/// Returns the two texts as one.
pub(crate) fn concat(alloc: Global, one: &str, other: &str) -> Result<String, AllocError>
    ensures { IfOk result (λ text. string_bytes text ≡ one.now ++ other.now) }
{
    let mut text = String::from_str(alloc, one)?;
    text.push_str(other)?;
    Ok(text)
}

/// Adds the candidate.
pub(crate) fn push_candidate(
    found: &mut Vec<CompletionCandidate>,
    candidate: CompletionCandidate,
) -> Result<(), AllocError>
    ensures { OnOk result (found.new.items ≡ found.old.items ++ candidate ∷ []) }
{
    found.push(candidate)?;
    Ok(())
}
