//! Lints for commands: finds what a tree file may describe, but scripts and the promises about scripts
//! cannot handle, or after which a shell offers something wrong. Each warning has a place in the tree
//! and a text for the reader.
//!
//! Two kinds of lints are kept apart. Some find a premise of the promises that does not hold, and
//! their clauses say exactly what they find. The others give advice, and cases show what they find.
#![tactic(auto)]

mod argument_lints;
mod argument_names;
mod found;
mod lints;
mod names;
mod parts;
mod place;
mod positionals;
mod premises;
mod running;
mod scopes;
mod siblings;
mod text_lints;
mod texts;
mod value_lints;
mod walk;
mod warning;
mod zsh_lints;

pub use crate::place::{Key, TreePlace};
pub use crate::premises::command_warnings;
pub use crate::warning::{Advice, Kind, Premise, Warning};
