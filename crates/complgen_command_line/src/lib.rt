//! Parses the command line of `complgen`: returns the plan that the words ask for, or the text to
//! print instead.
#![tactic(auto)]

mod arguments;
mod command_line;
mod parse;
mod requests;
mod texts;
mod words;

pub use crate::requests::is_shell_request;
pub use crate::words::plan;
