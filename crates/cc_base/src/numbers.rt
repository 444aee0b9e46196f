//! Numbers by which an argument or a command refers to completers and lists of candidates.

ghost use Rattle.std.specs.Prelude.{◌≡◌, IfOk};

use crate::sources::CandidateSources;
use std::alloc::{AllocError, Global};

/// The number of a completer in `Completers`.
#[derive(Clone, Copy, Debug)]
pub struct ArgValueCompleter {
    number: usize,
}

impl ArgValueCompleter {
    /// Returns a reference to the completer with the given `number`, counted from 0.
    pub fn new(number: usize) -> ArgValueCompleter
        ensures { result.number ≡ number }
    {
        ArgValueCompleter { number }
    }

    /// Returns the candidates for `text` as the first value, or none if `completers` has no such
    /// completer.
    ///
    /// # Errors
    ///
    /// `AllocError` if an allocation fails.
    pub fn complete<S: CandidateSources>(
        &self,
        alloc: Global,
        completers: &S,
        text: &str,
    ) -> Result<Vec<S::Candidate>, AllocError>
        ensures { IfOk result (λ found. S.may_complete completers.now self.now.number 0 text.now
            found.items) }
    {
        completers.complete_at(alloc, self.number, 0, text)
    }

    /// Returns the candidates for `text` as the value with the given `number`, counted from 0.
    /// Returns none if `completers` has no such completer.
    ///
    /// # Errors
    ///
    /// `AllocError` if an allocation fails.
    pub fn complete_at<S: CandidateSources>(
        &self,
        alloc: Global,
        completers: &S,
        number: usize,
        text: &str,
    ) -> Result<Vec<S::Candidate>, AllocError>
        ensures { IfOk result (λ found. S.may_complete completers.now self.now.number number
            text.now found.items) }
    {
        completers.complete_at(alloc, self.number, number, text)
    }
}

/// The number of a list in `Completers`, for the values of an argument.
#[derive(Clone, Copy, Debug)]
pub struct ArgValueCandidates {
    number: usize,
}

impl ArgValueCandidates {
    /// Returns a reference to the list with the given `number`, counted from 0.
    pub fn new(number: usize) -> ArgValueCandidates
        ensures { result.number ≡ number }
    {
        ArgValueCandidates { number }
    }

    /// Returns the candidates of the list, or none if `completers` has no such list.
    ///
    /// # Errors
    ///
    /// `AllocError` if an allocation fails.
    pub fn candidates<S: CandidateSources>(
        &self,
        alloc: Global,
        completers: &S,
    ) -> Result<Vec<S::Candidate>, AllocError>
        ensures { IfOk result (λ found. S.may_list completers.now self.now.number found.items) }
    {
        completers.candidates(alloc, self.number)
    }
}

/// The number of a list in `Completers`, for the external subcommands of a command.
#[derive(Clone, Copy, Debug)]
pub struct SubcommandCandidates {
    number: usize,
}

impl SubcommandCandidates {
    /// Returns a reference to the list with the given `number`, counted from 0.
    pub fn new(number: usize) -> SubcommandCandidates
        ensures { result.number ≡ number }
    {
        SubcommandCandidates { number }
    }

    /// Returns the candidates of the list, or none if `completers` has no such list.
    ///
    /// # Errors
    ///
    /// `AllocError` if an allocation fails.
    pub fn candidates<S: CandidateSources>(
        &self,
        alloc: Global,
        completers: &S,
    ) -> Result<Vec<S::Candidate>, AllocError>
        ensures { IfOk result (λ found. S.may_list completers.now self.now.number found.items) }
    {
        completers.candidates(alloc, self.number)
    }
}
