//! The man page of a tree, section 1, in roff: one page with all commands that are not hidden.
//!
//! ```rattle
//! use cc_base::{Collected, Error};
//! use cc_command::Command;
//! use complgen_man::generate_page;
//! use std::alloc::Global;
//!
//! fn man_page(alloc: Global, command: &mut Command) -> Result<Vec<u8>, Error> {
//!     let mut sink = Collected::new(alloc);
//!     let bin_name = String::from_str(alloc, "app")?;
//!     generate_page(alloc, command, bin_name, &mut sink)?;
//!     Ok(sink.into_vec())
//! }
//! ```
#![tactic(auto)]

mod arguments;
mod commands;
mod escapes;
mod labels;
mod page;
mod usage;

pub use crate::page::{generate_page, write_page};
