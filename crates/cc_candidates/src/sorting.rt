//! Sorts candidates.

ghost use Rattle.std.specs.Prelude.{◌≡◌, OnOk};
ghost use Rattle.cc_base.specs.Sorting.{in_order};
ghost use Rattle.cc_candidates.specs.Candidate.{comes_before};

use crate::candidate::CompletionCandidate;
use std::alloc::AllocError;

/// Sorts candidates by value, and those with equal values by their other fields.
///
/// # Errors
///
/// `AllocError` if an allocation fails.
pub fn sort_candidates(candidates: &mut Vec<CompletionCandidate>) -> Result<(), AllocError>
    ensures { OnOk result (candidates.new.items ≡ in_order comes_before candidates.old.items) }
{
    candidates.sort()?;
    Ok(())
}
