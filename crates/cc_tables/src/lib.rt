//! The generators of scripts that consist of tables: Elvish, PowerShell and Nushell.
//!
//! ```rattle
//! use cc_base::{Collected, Error};
//! use cc_command::Command;
//! use cc_generator::generate;
//! use cc_tables::Elvish;
//! use std::alloc::Global;
//!
//! fn elvish_script(alloc: Global, command: &mut Command) -> Result<Vec<u8>, Error> {
//!     let mut sink = Collected::new(alloc);
//!     let bin_name = String::from_str(alloc, "app")?;
//!     generate(alloc, Elvish, command, bin_name, &mut sink)?;
//!     Ok(sink.into_vec())
//! }
//! ```
#![tactic(auto)]

mod elvish;
mod nushell;
mod offers;
mod powershell;
mod tables;

pub use crate::elvish::Elvish;
pub use crate::nushell::Nushell;
pub use crate::powershell::PowerShell;
