//! Live completion agrees with a command's bash script on the command to which words lead, and with
//! its parser, which accepts the candidates.
//!
//! ```rattle
//! use cc_base::{Error, Sink};
//! use cc_candidates::CompletionCandidate;
//! use cc_command::Command;
//! use cc_engine::Lookup;
//! use cc_program::bash_script_and_candidates;
//! use std::alloc::Global;
//!
//! fn write<L: Lookup, W: Sink>(
//!     alloc: Global,
//!     command: &mut Command,
//!     words: Vec<String>,
//!     lookup: &L,
//!     sink: &mut W,
//! ) -> Result<Vec<CompletionCandidate>, Error> {
//!     let bin_name = String::from_str(alloc, "app")?;
//!     bash_script_and_candidates(alloc, command, bin_name, words, 1, lookup, sink)
//! }
//! ```

mod hidden;
mod reached;
mod with_bash;
mod with_parser;

pub use crate::agreement::hidden::has_no_hidden_alias;
pub use crate::agreement::reached::candidates_and_reached_parser;
pub use crate::agreement::with_bash::bash_script_and_candidates;
pub use crate::agreement::with_parser::candidates_and_parser;
