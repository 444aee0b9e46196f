//! A completer and a list that allocate what they return.

ghost use Rattle.std.specs.Prelude.{⊤};

use clap_complete::engine::{CompletionCandidate, ValueCandidates, ValueCompleter};
use std::alloc::{AllocError, Global};

/// A completer of a key.
#[derive(Drop)]
pub(crate) struct Keys;

impl ValueCompleter for Keys {
    ghost completes = { λ _ _ _ _. ⊤ };

    fn complete(&self, alloc: Global, _text: &str) -> Result<Vec<CompletionCandidate>, AllocError> {
        one(alloc, "key")
    }
}

/// A list of a level.
#[derive(Drop)]
pub(crate) struct Levels;

impl ValueCandidates for Levels {
    ghost lists = { λ _ _. ⊤ };

    fn candidates(&self, alloc: Global) -> Result<Vec<CompletionCandidate>, AllocError> {
        one(alloc, "high")
    }
}

fn one(alloc: Global, value: &str) -> Result<Vec<CompletionCandidate>, AllocError> {
    let value = String::from_str(alloc, value)?;
    let mut found = Vec::new(alloc);
    found.push(CompletionCandidate::new(value))?;
    Ok(found)
}
