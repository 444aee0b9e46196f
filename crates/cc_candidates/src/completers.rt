//! The registry of completers and lists of candidates, by number.

ghost use Rattle.std.specs.Prelude.{◌≡◌, ◌↔◌, ◌+◌, ℕ, List, [], MatchOption, length, slice_get, IfOk, OnErr};
ghost use Rattle.cc_candidates.specs.declared.candidate.CompletionCandidate.{CompletionCandidate};
ghost use Rattle.cc_candidates.specs.Sources.{Adds};

use crate::candidate::CompletionCandidate;
use crate::closures::{FnCandidates, FnCompleter, ListCall, TextCall};
use crate::sources::Source;
use crate::traits::{ValueCandidates, ValueCompleter};
use cc_base::{ArgValueCompleter, CandidateSources};
use std::alloc::{AllocError, Global};

type Completer = Source<Box<dyn ValueCompleter>, FnCompleter>;

type CandidateList = Source<Box<dyn ValueCandidates>, FnCandidates>;

/// The completers and the lists of candidates of a program.
///
/// Completers are numbered from 0 in the order in which they were added, and lists are numbered the
/// same way on their own. A number without a completer or list has no candidates.
///
/// A trait object or closure that is added later gets the next number, and numbers never change.
#[derive(Drop)]
pub struct Completers {
    completers: Vec<Box<dyn ValueCompleter>>,
    added_completers: Vec<Completer>,
    lists: Vec<Box<dyn ValueCandidates>>,
    added_lists: Vec<CandidateList>,
}

impl CandidateSources for Completers {
    ghost use Rattle.std.specs.Prelude.{◌≡◌, Ok};
    ghost use Rattle.cc_candidates.specs.Sources.{ReturnsAt};

    type Candidate = CompletionCandidate;

    ghost may_complete = { λ completers which number text. ReturnsAt
        (λ item. (ValueCompleter-box item).completes item.value number text)
        (λ closure list. (alloc : _) × (passed : _) × (found : _)
        × TextCall.post closure.call alloc passed (Ok found)
        × (passed.now ≡ text) × (found.items ≡ list))
        completers.completers.items completers.added_completers.items which };

    ghost may_list = { λ completers which. ReturnsAt
        (λ item. (ValueCandidates-box item).lists item.value)
        (λ closure list. (alloc : _) × (found : _)
        × ListCall.post closure.call alloc (Ok found) × (found.items ≡ list))
        completers.lists.items completers.added_lists.items which };

    fn complete_at(
        &self,
        alloc: Global,
        completer: usize,
        number: usize,
        text: &str,
    ) -> Result<Vec<CompletionCandidate>, AllocError> {
        if let Some(completer) = self.completers.get(completer) {
            return complete_by(completer, alloc, number, text);
        }
        match self.added_completers.get(completer - self.completers.len()) {
            Some(Source::Boxed(completer)) => complete_by(completer, alloc, number, text),
            Some(Source::Closure(closure)) => closure.complete_at(alloc, number, text),
            None => Ok(Vec::new(alloc)),
        }
    }

    fn candidates(
        &self,
        alloc: Global,
        list: usize,
    ) -> Result<Vec<CompletionCandidate>, AllocError> {
        if let Some(list) = self.lists.get(list) {
            return candidates_of(list, alloc);
        }
        match self.added_lists.get(list - self.lists.len()) {
            Some(Source::Boxed(list)) => candidates_of(list, alloc),
            Some(Source::Closure(closure)) => closure.candidates(alloc),
            None => Ok(Vec::new(alloc)),
        }
    }
}

impl Completers {
    /// Creates a registry of these completers and lists, numbered in their order.
    pub fn new(
        alloc: Global,
        completers: Vec<Box<dyn ValueCompleter>>,
        lists: Vec<Box<dyn ValueCandidates>>,
    ) -> Completers
        ensures completers { result.completers ≡ completers }
        ensures lists { result.lists ≡ lists }
        ensures added { (result.added_completers.items ≡ []) × (result.added_lists.items ≡ []) }
        ensures complete { (which : ℕ) → (number : ℕ) → (text : List ℕ)
            → (list : List CompletionCandidate)
            → ⟦<Completers as CandidateSources>⟧.may_complete result which number text list
            ↔ MatchOption (slice_get completers.items which) (list ≡ []) (λ item.
            (⟦<dyn ValueCompleter as ValueCompleter>⟧ item.vtable).completes item.value number text
            list) }
        ensures listed { (which : ℕ) → (list : List CompletionCandidate)
            → ⟦<Completers as CandidateSources>⟧.may_list result which list
            ↔ MatchOption (slice_get lists.items which) (list ≡ []) (λ item.
            (⟦<dyn ValueCandidates as ValueCandidates>⟧ item.vtable).lists item.value list) }
    {
        Completers {
            completers,
            added_completers: Vec::new(alloc),
            lists,
            added_lists: Vec::new(alloc),
        }
    }

    /// Creates a registry without completers and lists. Every number is without candidates.
    pub fn none(alloc: Global) -> Completers
        ensures completers { (result.completers.items ≡ []) × (result.added_completers.items ≡ []) }
        ensures lists { (result.lists.items ≡ []) × (result.added_lists.items ≡ []) }
    {
        Completers::new(alloc, Vec::new(alloc), Vec::new(alloc))
    }

    /// Adds `completer` and returns its number.
    ///
    /// # Errors
    ///
    /// `AllocError` if an allocation fails. Nothing is added, and the completer is dropped.
    pub fn add_completer(
        &mut self,
        completer: Box<dyn ValueCompleter>,
    ) -> Result<ArgValueCompleter, AllocError>
        ensures number { IfOk result (λ added. added.number
            ≡ length self.old.completers.items + length self.old.added_completers.items) }
        ensures added { IfOk result (λ added. (number : ℕ) → (text : List ℕ) → Adds
            (λ which. ⟦<Completers as CandidateSources>⟧.may_complete self.old which number text)
            (λ which. ⟦<Completers as CandidateSources>⟧.may_complete self.new which number text)
            added.number
            ((⟦<dyn ValueCompleter as ValueCompleter>⟧ completer.vtable).completes completer.value
            number text)) }
        ensures err { OnErr result
            (self.new.added_completers.items ≡ self.old.added_completers.items) }
        ensures kept { (self.new.completers ≡ self.old.completers)
            × (self.new.lists ≡ self.old.lists)
            × (self.new.added_lists ≡ self.old.added_lists) }
    {
        let number = self.completers.len() + self.added_completers.len();
        self.added_completers.push(Source::Boxed(completer))?;
        Ok(ArgValueCompleter::new(number))
    }

    /// Adds a closure as a completer and returns its number.
    ///
    /// # Errors
    ///
    /// `AllocError` if an allocation fails. Nothing is added, and the closure is dropped.
    pub fn add_completer_closure(
        &mut self,
        closure: FnCompleter,
    ) -> Result<ArgValueCompleter, AllocError>
        ensures number { IfOk result (λ added. added.number
            ≡ length self.old.completers.items + length self.old.added_completers.items) }
        ensures added { IfOk result (λ added. (number : ℕ) → (text : List ℕ) → Adds
            (λ which. ⟦<Completers as CandidateSources>⟧.may_complete self.old which number text)
            (λ which. ⟦<Completers as CandidateSources>⟧.may_complete self.new which number text)
            added.number
            (⟦<FnCompleter as ValueCompleter>⟧.completes closure number text)) }
        ensures err { OnErr result
            (self.new.added_completers.items ≡ self.old.added_completers.items) }
        ensures kept { (self.new.completers ≡ self.old.completers)
            × (self.new.lists ≡ self.old.lists)
            × (self.new.added_lists ≡ self.old.added_lists) }
    {
        let number = self.completers.len() + self.added_completers.len();
        self.added_completers.push(Source::Closure(closure))?;
        Ok(ArgValueCompleter::new(number))
    }

    /// Adds a list of candidates and returns its number, for `ArgValueCandidates::new` or
    /// `SubcommandCandidates::new`.
    ///
    /// # Errors
    ///
    /// `AllocError` if an allocation fails. Nothing is added, and the list is dropped.
    pub fn add_list(&mut self, list: Box<dyn ValueCandidates>) -> Result<usize, AllocError>
        ensures number { IfOk result (λ added. added
            ≡ length self.old.lists.items + length self.old.added_lists.items) }
        ensures added { IfOk result (λ added. Adds
            (⟦<Completers as CandidateSources>⟧.may_list self.old)
            (⟦<Completers as CandidateSources>⟧.may_list self.new) added
            ((⟦<dyn ValueCandidates as ValueCandidates>⟧ list.vtable).lists list.value)) }
        ensures err { OnErr result (self.new.added_lists.items ≡ self.old.added_lists.items) }
        ensures kept { (self.new.completers ≡ self.old.completers)
            × (self.new.lists ≡ self.old.lists)
            × (self.new.added_completers ≡ self.old.added_completers) }
    {
        let number = self.lists.len() + self.added_lists.len();
        self.added_lists.push(Source::Boxed(list))?;
        Ok(number)
    }

    /// Adds a closure as a list of candidates and returns its number, as `add_list` does.
    ///
    /// # Errors
    ///
    /// `AllocError` if an allocation fails. Nothing is added, and the closure is dropped.
    pub fn add_list_closure(&mut self, closure: FnCandidates) -> Result<usize, AllocError>
        ensures number { IfOk result (λ added. added
            ≡ length self.old.lists.items + length self.old.added_lists.items) }
        ensures added { IfOk result (λ added. Adds
            (⟦<Completers as CandidateSources>⟧.may_list self.old)
            (⟦<Completers as CandidateSources>⟧.may_list self.new) added
            (⟦<FnCandidates as ValueCandidates>⟧.lists closure)) }
        ensures err { OnErr result (self.new.added_lists.items ≡ self.old.added_lists.items) }
        ensures kept { (self.new.completers ≡ self.old.completers)
            × (self.new.lists ≡ self.old.lists)
            × (self.new.added_completers ≡ self.old.added_completers) }
    {
        let number = self.lists.len() + self.added_lists.len();
        self.added_lists.push(Source::Closure(closure))?;
        Ok(number)
    }
}

fn complete_by(
    completer: &Box<dyn ValueCompleter>,
    alloc: Global,
    number: usize,
    text: &str,
) -> Result<Vec<CompletionCandidate>, AllocError>
    ensures { IfOk result (λ found. completes completer.now number text.now found.items) }
{
    completer.complete_at(alloc, number, text)
}

fn candidates_of(
    list: &Box<dyn ValueCandidates>,
    alloc: Global,
) -> Result<Vec<CompletionCandidate>, AllocError>
    ensures { IfOk result (λ found. lists list.now found.items) }
{
    list.candidates(alloc)
}
