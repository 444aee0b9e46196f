//! The shells as one type, and scripts that are written to files.
//!
//! ```rattle
//! use cc_base::Error;
//! use cc_shell::Shell;
//! use std::alloc::Global;
//!
//! // Parses `name`, such as `bash`. Any other text is `InvalidVariant`.
//! fn shell_of(alloc: Global, name: &str) -> Result<Shell, Error> {
//!     Shell::parse(alloc, name)
//! }
//! ```
#![tactic(auto)]

mod files;
mod shell;

pub use crate::files::generate_to;
pub use crate::shell::{InvalidShell, Shell};
