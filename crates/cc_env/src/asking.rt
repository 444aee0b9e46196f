//! Answers to the requests of safe registrations, if the values of an argument come from a command,
//! a file or the system: a text, or the words of a command for the shell to run.
//!
//! This program starts no other program. The shell does, if it gets the words of a command: it runs
//! them, and requests the same completion again with the output on the standard input.

mod answers;
mod asked;
mod completion;
mod line_source;
mod own_answers;
mod values_read;
mod with_lines;
mod writing;

pub use crate::asking::answers::{Answer, Call, answer_call};
pub use crate::asking::asked::wanted_command;
pub use crate::asking::completion::complete_with_lines;
pub use crate::asking::line_source::{LineSource, PassedLines};
pub use crate::asking::own_answers::{Called, answer_own, try_complete_asking};
pub use crate::asking::with_lines::WithLines;
pub use crate::asking::writing::{write_answer, write_run_words};
