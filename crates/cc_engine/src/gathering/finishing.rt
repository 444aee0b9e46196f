//! Makes a list of candidates final.

ghost use Rattle.std.specs.Prelude.{◌≡◌, ◌||◌, ◌++◌, not, ℕ, List, true, Option, Some, None, map, filter, IfOk, OnOk, if◌then◌else◌};
ghost use Rattle.std.specs.BTreeMap.{get};
ghost use Rattle.std.specs.List.{list_any};
ghost use Rattle.std.specs.Option.{option_eq, option_or, unwrap_or};
ghost use Rattle.std.specs.Str.{bytes_eq};
ghost use Rattle.cc_candidates.specs.Candidate.{texts_cmp};
ghost use Rattle.cc_engine.specs.Finished.{finish, first_of_ids, group, is_shown, rank_of, shown_or_all, share, AreGrouped, AreShown, Differ, ShareNone};
ghost use Rattle.cc_engine.specs.Ranked.{with_ranks, ranked_cmp};
ghost use Rattle.cc_engine.specs.Seen.{ascend_from, is_seen, select};

use crate::gathering::joined::push_candidate;
use cc_base::TextRef;
use cc_candidates::CompletionCandidate;
use std::alloc::{AllocError, Global};
use std::cmp::Ordering;
use std::collections::{BTreeMap, BTreeSet};

/// Makes a list of candidates final:
///
/// - Hidden candidates are dropped if any candidate is visible.
/// - Of several candidates with the same id, the first stays.
/// - Candidates with the same tag are put together, where the first of them is, and sorted by
///   display order. Candidates without a tag form a group of their own.
///
/// # Errors
///
/// `AllocError` if an allocation fails.
pub fn finish(
    alloc: Global,
    candidates: Vec<CompletionCandidate>,
) -> Result<Vec<CompletionCandidate>, AllocError>
    ensures value { IfOk result (λ finished. finished.items ≡ finish candidates.items) }

    // If a visible candidate was gathered, no hidden one is returned.
    ensures visible { IfOk result
        (λ finished. list_any is_shown candidates.items ≡ true → AreShown finished.items) }

    // No two of the returned candidates share an id.
    ensures differ { IfOk result (λ finished. Differ finished.items) }

    // They are sorted by the rank of the first candidate with the same tag, then by display order.
    // Ties keep their order, and no candidate is lost.
    ensures order { IfOk result
        (λ finished. AreGrouped (first_of_ids (shown_or_all candidates.items)) finished.items) }
{
    group_first_of_ids(alloc, candidates)
}

#[tactic(auto, unfolding(crate::specs::Finished::finish))]
fn group_first_of_ids(
    alloc: Global,
    candidates: Vec<CompletionCandidate>,
) -> Result<Vec<CompletionCandidate>, AllocError>
    ensures { IfOk result (λ finished. finished.items ≡ finish candidates.items) }
{
    let candidates = first_of_ids(alloc, shown_or_all(candidates))?;
    group(alloc, candidates)
}

/// Makes `others` final, then the list of `candidates` followed by them.
///
/// # Errors
///
/// `AllocError` if an allocation fails.
pub fn finish_after(
    alloc: Global,
    candidates: Vec<CompletionCandidate>,
    others: Vec<CompletionCandidate>,
) -> Result<Vec<CompletionCandidate>, AllocError>
    ensures value { IfOk result
        (λ finished. finished.items ≡ finish (candidates.items ++ finish others.items)) }

    // If the two lists share no id, this equals `finish` of the whole list.
    ensures once { IfOk result (λ finished. ShareNone candidates.items others.items →
        finished.items ≡ finish (candidates.items ++ others.items)) }
{
    let mut all = candidates;
    let mut others = finish(alloc, others)?;
    all.append(&mut others)?;
    finish(alloc, all)
}

// Returns the visible candidates, or all if none is visible.
#[tactic(auto, unfolding(crate::specs::Finished::shown_or_all))]
fn shown_or_all(candidates: Vec<CompletionCandidate>) -> Vec<CompletionCandidate>
    ensures { result.items ≡ shown_or_all candidates.items }
{
    if has_shown(candidates.as_slice()) {
        return only_shown(candidates);
    }
    candidates
}

fn has_shown(candidates: &[CompletionCandidate]) -> bool
    ensures { result ≡ list_any is_shown candidates.now }
{
    for candidate in candidates {
        if !candidate.is_hide_set() {
            return true;
        }
    }
    false
}

fn only_shown(mut candidates: Vec<CompletionCandidate>) -> Vec<CompletionCandidate>
    ensures { result.items ≡ filter is_shown candidates.items }
{
    candidates.retain(|candidate| !candidate.is_hide_set());
    candidates
}

// Drops each candidate whose id an earlier one has.
#[tactic(auto, using(crate::proofs::Ascending::ascending_stay))]
fn first_of_ids(
    alloc: Global,
    candidates: Vec<CompletionCandidate>,
) -> Result<Vec<CompletionCandidate>, AllocError>
    ensures { IfOk result (λ kept. kept.items ≡ first_of_ids candidates.items) }
{
    if have_ascending_ids(candidates.as_slice()) {
        return Ok(candidates);
    }
    let marks = new_ids(alloc, candidates.as_slice())?;
    select(alloc, candidates, marks)
}

// Returns whether each id is greater than the one before it, as the ids of children without aliases
// are. Then no two ids are equal, which takes one comparison per candidate to find out.
fn have_ascending_ids(candidates: &[CompletionCandidate]) -> bool
    ensures { result ≡ ascend_from None candidates.now }
{
    let mut last = None;
    for candidate in candidates {
        let id = id_of(candidate);
        if !last.cmp(&id).is_lt() {
            return false;
        }
        last = id;
    }
    true
}

fn id_of<'a>(candidate: &'a CompletionCandidate) -> Option<TextRef<'a>>
    ensures { result ≡ candidate.now.id }
{
    match candidate.get_id() {
        Some(id) => Some(TextRef::new(id)),
        None => None,
    }
}

// Marks each candidate whose id no earlier one has.
fn new_ids(alloc: Global, candidates: &[CompletionCandidate]) -> Result<Vec<bool>, AllocError>
    ensures { IfOk result (λ marks. select marks.items candidates.now
        ≡ first_of_ids candidates.now) }
{
    let mut seen = BTreeSet::new(alloc);
    let mut marks = Vec::with_capacity(alloc, candidates.len())?;
    for candidate in candidates {
        let new = insert_id(&mut seen, candidate)?;
        marks.push(new)?;
    }
    Ok(marks)
}

// Records an id. Returns whether it is new; a missing id always is.
fn insert_id<'a>(
    seen: &mut BTreeSet<TextRef<'a>>,
    candidate: &'a CompletionCandidate,
) -> Result<bool, AllocError>
    ensures new { IfOk result (λ new. new ≡ not (is_seen seen.old candidate.now.id)) }
    ensures kept { OnOk result ((other : Option (List ℕ)) →
        is_seen seen.new other ≡ (is_seen seen.old other || share candidate.now.id other)) }
{
    let Some(id) = candidate.get_id() else {
        return Ok(true);
    };
    Ok(seen.insert(TextRef::new(id))?)
}

// Returns the candidates with a mark.
fn select(
    alloc: Global,
    candidates: Vec<CompletionCandidate>,
    marks: Vec<bool>,
) -> Result<Vec<CompletionCandidate>, AllocError>
    ensures { IfOk result (λ kept. kept.items ≡ select marks.items candidates.items) }
{
    let mut kept = Vec::with_capacity(alloc, candidates.len())?;
    for (mark, candidate) in marks.into_iter().zip(candidates) {
        if !mark {
            // One call here, instead of a drop of each field.
            drop(candidate);
            continue;
        }
        push_candidate(&mut kept, candidate)?;
    }
    Ok(kept)
}

// A candidate with the rank of its tag.
#[derive(Drop)]
struct Ranked {
    rank: usize,
    candidate: CompletionCandidate,
}

// Compares by rank, then by display order.
fn compare(one: &Ranked, other: &Ranked) -> Ordering
    ensures { result ≡ ranked_cmp one.now other.now }
{
    let orders = one
        .candidate
        .get_display_order()
        .cmp(&other.candidate.get_display_order());
    one.rank.cmp(&other.rank).then(orders)
}

// Groups candidates by tag, and sorts each group by display order.
fn group(
    alloc: Global,
    candidates: Vec<CompletionCandidate>,
) -> Result<Vec<CompletionCandidate>, AllocError>
    ensures { IfOk result (λ finished. finished.items ≡ group candidates.items) }
{
    let ranks = ranks(alloc, candidates.as_slice())?;
    let mut all = with_ranks(alloc, candidates, ranks)?;
    all.sort_by(compare)?;
    candidates_of(alloc, all)
}

// Returns, for each candidate, the rank of the first candidate with its tag.
fn ranks(alloc: Global, candidates: &[CompletionCandidate]) -> Result<Vec<usize>, AllocError>
    ensures { IfOk result (λ ranks. ranks.items ≡ map
        (λ c. rank_of candidates.now c.tag) candidates.now) }
{
    let mut known = BTreeMap::new(alloc);
    let mut ranks = Vec::with_capacity(alloc, candidates.len())?;
    for candidate in candidates {
        let rank = rank_for(&mut known, candidate, ranks.len())?;
        ranks.push(rank)?;
    }
    Ok(ranks)
}

// Returns the rank of a tag. A tag without a rank gets `next`, which is recorded.
fn rank_for<'a>(
    known: &mut BTreeMap<Option<TextRef<'a>>, usize>,
    candidate: &'a CompletionCandidate,
    next: usize,
) -> Result<usize, AllocError>
    ensures value { IfOk result
        (λ rank. rank ≡ unwrap_or (get texts_cmp known.old candidate.now.tag) next) }
    ensures kept { OnOk result ((other : Option (List ℕ)) → get texts_cmp known.new other
        ≡ option_or (get texts_cmp known.old other)
        (if option_eq bytes_eq candidate.now.tag other then Some next else None)) }
{
    let tag = tag_of(candidate);
    if let Some(rank) = known.get(&tag) {
        return Ok(*rank);
    }
    known.insert(tag, next)?;
    Ok(next)
}

fn tag_of<'a>(candidate: &'a CompletionCandidate) -> Option<TextRef<'a>>
    ensures { result ≡ candidate.now.tag }
{
    match candidate.get_tag() {
        Some(tag) => Some(TextRef::new(tag)),
        None => None,
    }
}

// Pairs each candidate with its rank.
fn with_ranks(
    alloc: Global,
    candidates: Vec<CompletionCandidate>,
    ranks: Vec<usize>,
) -> Result<Vec<Ranked>, AllocError>
    ensures { IfOk result (λ all. all.items ≡ with_ranks ranks.items candidates.items) }
{
    let mut all = Vec::with_capacity(alloc, candidates.len())?;
    for (rank, candidate) in ranks.into_iter().zip(candidates) {
        all.push(Ranked { rank, candidate })?;
    }
    Ok(all)
}

fn candidates_of(alloc: Global, all: Vec<Ranked>) -> Result<Vec<CompletionCandidate>, AllocError>
    ensures { IfOk result (λ finished. finished.items ≡ map (λ one. one.candidate) all.items) }
{
    let mut candidates = Vec::with_capacity(alloc, all.len())?;
    for one in all {
        push_candidate(&mut candidates, one.candidate)?;
    }
    Ok(candidates)
}
