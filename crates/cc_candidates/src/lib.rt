//! Candidates for the word to complete, the completers and lists that a program registers by
//! number, and paths as candidates.
//!
//! ```rattle
//! use cc_candidates::{CompletionCandidate, retain_beginning_with, sort_candidates};
//!
//! let mut candidates = Vec::new(alloc);
//! candidates.push(CompletionCandidate::new(String::from_str(alloc, "run")?))?;
//! candidates.push(CompletionCandidate::new(String::from_str(alloc, "rank")?))?;
//! let mut found = retain_beginning_with(candidates, "r");
//! sort_candidates(&mut found)?;
//! assert!(rt; found[0].get_value() == "rank");
//! ```
#![tactic(auto)]

mod beginnings;
mod candidate;
mod closures;
mod completers;
mod copies;
mod paths;
mod sorting;
mod sources;
mod traits;

pub use crate::beginnings::{begins_with, retain_beginning_with};
pub use crate::candidate::{CompletionCandidate, is_same};
pub use crate::closures::{FnCandidates, FnCompleter};
pub use crate::completers::Completers;
pub use crate::copies::{copies_of, copy_of_some, owned_texts};
pub use crate::paths::{
    EveryPath, FnTest, Folder, FolderError, IsDir, IsExecutable, IsFile, MemoryFolder,
    PathCompleter, PathTest, RealFolder, TextTest, join, join_some, path_candidates, trim_trailing,
};
pub use crate::sorting::sort_candidates;
pub use crate::traits::{ValueCandidates, ValueCompleter};
