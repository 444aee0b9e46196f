//! The generator of bash scripts.
//!
//! ```rattle
//! use cc_base::{Collected, Error};
//! use cc_bash::Bash;
//! use cc_command::Command;
//! use cc_generator::generate;
//! use std::alloc::Global;
//!
//! fn bash_script(alloc: Global, command: &mut Command) -> Result<Vec<u8>, Error> {
//!     let mut sink = Collected::new(alloc);
//!     let bin_name = String::from_str(alloc, "app")?;
//!     generate(alloc, Bash, command, bin_name, &mut sink)?;
//!     Ok(sink.into_vec())
//! }
//! ```
#![tactic(auto)]

mod arms;
mod bash;
mod cases;
mod clash;
mod details;
mod nodes;
mod texts;
mod words;

pub use crate::bash::{Bash, clashing_label};
