//! Parses a tree file, and writes a script or the scripts of all shells. Also has the plans of the
//! command line, and the texts that the program prints instead of its output.
#![tactic(auto)]

mod all_scripts;
mod one_script;
mod plans;
mod refusals;
mod shells;
mod tree_files;

pub use crate::all_scripts::scripts;
pub use crate::one_script::script;
pub use crate::plans::Plan;
pub use crate::refusals::{Refusal, UNREADABLE, WRITE_FAILED, error_refusal};
pub use crate::shells::shell_of;
pub use crate::tree_files::{
    TreeFile, named_refusal, named_tree, tree, unreadable, unreadable_values,
};
