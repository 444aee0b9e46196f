//! Prints what is wrong with a tree file.
#![tactic(auto)]

mod all_warnings;
mod checking;
mod errors;
mod objects;
mod report;
mod text_lines;

pub use crate::all_warnings::tree_warnings;
pub use crate::checking::check;
pub use crate::report::Report;
