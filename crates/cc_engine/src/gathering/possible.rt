//! Possible values as candidates.

ghost use Rattle.std.specs.Prelude.{◌≡◌, filter, map, IfOk, IfErr};
ghost use Rattle.cc_candidates.specs.Beginning.{begins};
ghost use Rattle.cc_engine.specs.Values.{value_candidate};

use crate::gathering::joined::push_candidate;
use cc_arg::PossibleValue;
use cc_base::Error;
use cc_candidates::{CompletionCandidate, begins_with, copy_of_some};
use std::alloc::{AllocError, Global};

/// Creates a candidate for each of the `values`, in their order, with its name, its help text, and
/// whether it is hidden.
///
/// # Errors
///
/// `Memory` if an allocation fails.
pub fn possible_value_candidates(
    alloc: Global,
    values: Vec<PossibleValue>,
) -> Result<Vec<CompletionCandidate>, Error>
    ensures ok { IfOk result (λ found. found.items ≡ map value_candidate values.items) }
    ensures memory { IfErr result (λ error. error ≡ Error.Memory) }
{
    Ok(candidates_of(alloc, values.as_slice())?)
}

/// Creates a candidate for each of the `values` whose name begins with `text`, in their order.
///
/// # Errors
///
/// `Memory` if an allocation fails.
pub fn complete_possible_values(
    alloc: Global,
    text: &str,
    values: Vec<PossibleValue>,
) -> Result<Vec<CompletionCandidate>, Error>
    ensures ok { IfOk result (λ found.
        found.items ≡ filter (begins text.now) (map value_candidate values.items)) }
    ensures memory { IfErr result (λ error. error ≡ Error.Memory) }
{
    Ok(candidates_beginning(alloc, values.as_slice(), text)?)
}

fn candidates_of(
    alloc: Global,
    values: &[PossibleValue],
) -> Result<Vec<CompletionCandidate>, AllocError>
    ensures { IfOk result (λ found. found.items ≡ map value_candidate values.now) }
{
    let mut found = Vec::new(alloc);
    for value in values {
        push_candidate(&mut found, candidate_of(alloc, value)?)?;
    }
    Ok(found)
}

/// Creates a candidate for each of the `values` whose name begins with `text`. Copies nothing for
/// the others.
pub(crate) fn candidates_beginning(
    alloc: Global,
    values: &[PossibleValue],
    text: &str,
) -> Result<Vec<CompletionCandidate>, AllocError>
    ensures { IfOk result (λ found.
        found.items ≡ filter (begins text.now) (map value_candidate values.now)) }
{
    let mut found = Vec::new(alloc);
    for value in values {
        if !begins_with(value.get_name(), text) {
            continue;
        }
        push_candidate(&mut found, candidate_of(alloc, value)?)?;
    }
    Ok(found)
}

fn candidate_of(alloc: Global, value: &PossibleValue) -> Result<CompletionCandidate, AllocError>
    ensures { IfOk result (λ candidate. candidate ≡ value_candidate value.now) }
{
    let help = copy_of_some(alloc, value.get_help())?;
    let name = String::from_str(alloc, value.get_name())?;
    Ok(
        CompletionCandidate::new(name)
            .help(help)
            .hide(value.is_hide_set()),
    )
}
