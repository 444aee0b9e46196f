//! Registrations: the texts that make a shell ask a program for candidates. Each text is filled in
//! by one pass, so a value that was filled in is never filled in again.
//!
//! There are two registrations for each shell. The original's registers one program. The safe one
//! registers several programs in its first line, and evaluates nothing that the user types.
//!
//! ```rattle
//! use cc_base::{Collected, Error};
//! use cc_registrations::write_safe_bash;
//! use std::alloc::Global;
//!
//! fn registration(alloc: Global) -> Result<Vec<u8>, Error> {
//!     let mut sink = Collected::new(alloc);
//!     write_safe_bash(alloc, &mut sink, "COMPLETE", "app", &["app"], "/usr/bin/app")?;
//!     Ok(sink.into_vec())
//! }
//! ```
#![tactic(auto)]

mod all_quotes;
mod bash;
mod elvish;
mod fish;
mod names;
mod powershell;
mod safe_bash;
mod safe_elvish;
mod safe_fish;
mod safe_powershell;
mod safe_text;
mod safe_zsh;
mod words;
mod zsh;

pub use crate::bash::write_bash;
pub use crate::elvish::write_elvish;
pub use crate::fish::write_fish;
pub use crate::powershell::write_powershell;
pub use crate::safe_bash::write_safe_bash;
pub use crate::safe_elvish::write_safe_elvish;
pub use crate::safe_fish::write_safe_fish;
pub use crate::safe_powershell::write_safe_powershell;
pub use crate::safe_zsh::write_safe_zsh;
pub use crate::zsh::write_zsh;
