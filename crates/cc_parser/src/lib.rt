//! Turns a built command tree into a command of the crate `clap`, which parses the command line
//! that the tree completes, and tests a built tree for what is promised of that parser.
//!
//! ```rattle
//! use bumpalo::Bump;
//! use cc_parser::{fits_parser, has_globals, is_parsed_exactly, parser};
//!
//! app.build(alloc)?;
//! let store = Bump::new(alloc);
//! let accepts_completions = fits_parser(&app);
//! let is_described = !has_globals(&app);
//! let is_exact = is_parsed_exactly(&app);
//! let parser = parser(alloc, &store, &app)?;
//! ```
#![tactic(auto)]

mod argument;
mod command;
mod exact;
mod fits;
mod globals;

pub use crate::command::{local_parser, parser};
pub use crate::exact::is_parsed_exactly;
pub use crate::fits::fits_parser;
pub use crate::globals::has_globals;
