//! The lines that are the values of an argument, as the system gives them: the output of a command,
//! which the shell passes on, the contents of a file, or the names of users, hosts and commands.
#![tactic(auto)]

mod hosts;
mod mark;
mod names;
mod passwd;
mod system_lines;
mod value_files;

pub use crate::system_lines::SystemLines;
pub use crate::value_files::{first_lines, values_path};
