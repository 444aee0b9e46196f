//! The values of an argument as candidates.

ghost use Rattle.std.specs.Prelude.{◌≡◌, ◌++◌, ℕ, List, map, IfOk};
ghost use Rattle.cc_arg.specs.declared.value_hint.ValueHint.{ValueHint};
ghost use Rattle.cc_candidates.specs.declared.candidate.CompletionCandidate.{CompletionCandidate};
ghost use Rattle.cc_engine.specs.Values.{Gathers, ArgumentValues, as_value, is_path, returned_by, sorted};
ghost use Rattle.cc_arg.specs.Printed.{printed};

use crate::gathering::parts::split_at_delimiter;
use crate::gathering::possible::candidates_beginning;
use cc_arg::{Arg, ValueHint, possible_values};
use cc_base::CandidateSources;
use cc_candidates::{CompletionCandidate, retain_beginning_with, sort_candidates};
use std::alloc::{AllocError, Global};

/// A source of paths: the file system that the program reads. It fails only if an allocation fails.
pub trait PathSource {
    // the lists that it may return, for a kind of paths and the text to complete
    ghost finds: { Self → ValueHint → List ℕ → List CompletionCandidate → Type 0 };

    /// Returns the paths that complete `text`, of the kind that `hint` names, in any order.
    ///
    /// # Errors
    ///
    /// `AllocError` if an allocation fails.
    fn find(
        &self,
        alloc: Global,
        hint: ValueHint,
        text: &str,
    ) -> Result<Vec<CompletionCandidate>, AllocError>
        ensures { IfOk result (λ found. finds self.now hint text.now found.items) };
}

/// Returns the candidates for `word` as the value with this `number` in one use of `argument`. The
/// first value has the number 0.
///
/// The part of the word up to its last delimiter stays in front of each value. A candidate without
/// a tag gets the printed form of the argument as its tag.
///
/// # Errors
///
/// `AllocError` if an allocation fails.
pub fn arg_values<C: CandidateSources<Candidate = CompletionCandidate>, P: PathSource>(
    alloc: Global,
    argument: &Arg,
    word: &str,
    number: usize,
    completers: &C,
    paths: &P,
) -> Result<Vec<CompletionCandidate>, AllocError>
    ensures { IfOk result (λ found. ArgumentValues
        (returned_by C.may_complete C.may_list completers.now (P.finds paths.now))
        argument.now word.now number found.items) }
{
    let (before, part) = split_at_delimiter(word, argument.get_value_delimiter());
    let found = gather(alloc, argument, part, number, completers, paths)?;
    as_values(alloc, argument, before, found)
}

// Returns the candidates for a text without a delimiter.
fn gather<C: CandidateSources<Candidate = CompletionCandidate>, P: PathSource>(
    alloc: Global,
    argument: &Arg,
    part: &str,
    number: usize,
    completers: &C,
    paths: &P,
) -> Result<Vec<CompletionCandidate>, AllocError>
    ensures { IfOk result (λ found. Gathers
        (returned_by C.may_complete C.may_list completers.now (P.finds paths.now))
        argument.now number part.now found.items) }
{
    if let Some(completer) = argument.get_completer() {
        return completer.complete_at(alloc, completers, number, part);
    }
    if let Some(list) = argument.get_candidates() {
        let found = list.candidates(alloc, completers)?;
        return Ok(retain_beginning_with(found, part));
    }
    if let Some(values) = possible_values(argument) {
        return candidates_beginning(alloc, values, part);
    }
    let hint = argument.get_value_hint();
    if !is_path(hint) {
        return Ok(Vec::new(alloc));
    }
    sorted_paths(alloc, paths, hint, part)
}

// Returns whether the values are paths.
fn is_path(hint: ValueHint) -> bool
    ensures { result ≡ is_path hint }
{
    matches!(
        hint,
        ValueHint::AnyPath | ValueHint::FilePath | ValueHint::DirPath | ValueHint::ExecutablePath
    )
}

// Returns the paths, sorted as one list.
#[tactic(auto, unfolding(crate::specs::Values::sorted))]
fn sorted_paths<P: PathSource>(
    alloc: Global,
    paths: &P,
    hint: ValueHint,
    part: &str,
) -> Result<Vec<CompletionCandidate>, AllocError>
    ensures { IfOk result (λ found. (returned : List CompletionCandidate)
        × P.finds paths.now hint part.now returned × (found.items ≡ sorted returned)) }
{
    let mut found = paths.find(alloc, hint, part)?;
    sort_candidates(&mut found)?;
    Ok(found)
}

// Puts the earlier values of the word in front of each candidate, and gives it a tag.
fn as_values(
    alloc: Global,
    argument: &Arg,
    before: &str,
    found: Vec<CompletionCandidate>,
) -> Result<Vec<CompletionCandidate>, AllocError>
    ensures { IfOk result (λ values. values.items
        ≡ map (as_value before.now (printed argument.now)) found.items) }
{
    let form = argument.to_string(alloc)?;
    let mut values = Vec::new(alloc);
    for candidate in found {
        values.push(as_value(alloc, before, form.as_str(), candidate)?)?;
    }
    Ok(values)
}

fn as_value(
    alloc: Global,
    before: &str,
    form: &str,
    candidate: CompletionCandidate,
) -> Result<CompletionCandidate, AllocError>
    ensures { IfOk result (λ value. value ≡ as_value before.now form.now candidate) }
{
    let candidate = after_earlier_values(alloc, before, candidate)?;
    if candidate.get_tag().is_some() {
        return Ok(candidate);
    }
    match String::from_str(alloc, form) {
        Ok(tag) => Ok(candidate.tag(Some(tag))),
        Err(error) => {
            // One call here, instead of a drop of each field.
            drop(candidate);
            Err(error)
        }
    }
}

// Puts the earlier values of the word in front of the candidate. Usually there are none, and then
// the value is not copied.
fn after_earlier_values(
    alloc: Global,
    before: &str,
    candidate: CompletionCandidate,
) -> Result<CompletionCandidate, AllocError>
    ensures { IfOk result (λ value.
        value ≡ record candidate { value = before.now ++ candidate.value }) }
{
    if before.is_empty() {
        return Ok(candidate);
    }
    candidate.with_prefix(alloc, before)
}
