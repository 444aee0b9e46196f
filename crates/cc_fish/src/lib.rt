//! The generator of fish scripts: a head that gives fish's functions the arguments of the root, and
//! a record for each name that is offered at a visible path.
//!
//! ```rattle
//! use cc_base::{Collected, Error};
//! use cc_command::Command;
//! use cc_fish::Fish;
//! use cc_generator::generate;
//! use std::alloc::Global;
//!
//! fn fish_script(alloc: Global, command: &mut Command) -> Result<Vec<u8>, Error> {
//!     let mut sink = Collected::new(alloc);
//!     let bin_name = String::from_str(alloc, "app")?;
//!     generate(alloc, Fish, command, bin_name, &mut sink)?;
//!     Ok(sink.into_vec())
//! }
//! ```
#![tactic(auto)]

mod fish;
mod front;
mod function;
mod head;
mod keys;
mod records;
mod texts;
mod values;

pub use crate::fish::Fish;
