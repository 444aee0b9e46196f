//! The generator of zsh scripts: a function that offers options, values and commands at each
//! visible path, and for each command a function that describes its children.
//!
//! ```rattle
//! use cc_base::{Collected, Error};
//! use cc_command::Command;
//! use cc_generator::generate;
//! use cc_zsh::Zsh;
//! use std::alloc::Global;
//!
//! fn zsh_script(alloc: Global, command: &mut Command) -> Result<Vec<u8>, Error> {
//!     let mut sink = Collected::new(alloc);
//!     let bin_name = String::from_str(alloc, "app")?;
//!     generate(alloc, Zsh, command, bin_name, &mut sink)?;
//!     Ok(sink.into_vec())
//! }
//! ```
#![tactic(auto)]

mod blocks;
mod conflicts;
mod escaped;
mod functions;
mod names;
mod options;
mod positionals;
mod texts;
mod values;
mod zsh;

pub use crate::zsh::Zsh;
