//! The candidates for a word of a command line.
//!
//! A [`Lookup`] finds the candidates that a command does not hold. [`Sources`] looks in a folder
//! and in completers:
//!
//! ```rattle
//! fn candidates(
//!     alloc: Global,
//!     command: &mut Command,
//!     words: Vec<String>,
//! ) -> Result<Vec<CompletionCandidate>, Error> {
//!     let folder = MemoryFolder::new(&[], &[]);
//!     let completers = Completers::none(alloc);
//!     let sources = Sources {
//!         current_dir: None,
//!         folder: &folder,
//!         completers: &completers,
//!     };
//!     complete_from(alloc, command, words, 1, &sources)
//! }
//! ```
#![tactic(auto)]

mod asked;
mod candidates;
mod completion;
mod gathering;
mod lookup;
mod offered_lists;
mod open_lists;
mod place;
mod questions;
mod sources;
mod walking;

pub use crate::asked::asked_argument;
pub use crate::completion::{complete, complete_from};
pub use crate::gathering::{OptionMatch, complete_possible_values, possible_value_candidates};
pub use crate::lookup::Lookup;
pub use crate::place::words_before;
pub use crate::questions::{AskedValue, asked_values};
pub use crate::sources::Sources;
pub use crate::walking::{Pending, State, ValueCharacter};
