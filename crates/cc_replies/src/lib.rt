//! Talks to shells and to the system: the words and environment variables of a request, and the
//! replies.
//!
//! ```rattle
//! use cc_base::Collected;
//! use cc_candidates::CompletionCandidate;
//! use cc_replies::write_safe_values;
//!
//! let mut candidates = Vec::new(alloc);
//! candidates.push(CompletionCandidate::new(String::from_str(alloc, "run")?))?;
//! let mut sink = Collected::new(alloc);
//! write_safe_values(&mut sink, candidates.as_slice())?;
//! assert!(rt; sink.as_slice() == "run\n".as_bytes());
//! ```
#![tactic(auto)]

mod bash_list;
mod bash_words;
mod cobra_reply;
mod columns;
mod cursor;
mod environment;
mod given_lines;
mod powershell_words;
mod readable;
mod reply;
mod reply_lines;
mod requests;
mod safe;
mod safe_replies;
mod system;

pub use crate::bash_list::write_bash_list;
pub use crate::bash_words::write_bash_words;
pub use crate::cobra_reply::{CobraReply, PathKind};
pub use crate::cursor::{Cursor, OpenQuote};
pub use crate::environment::EnvValues;
pub use crate::given_lines::GivenLines;
pub use crate::powershell_words::write_powershell_words;
pub use crate::readable::{
    are_readable_entries, are_readable_lines, are_readable_values, are_readable_zsh_items,
};
pub use crate::reply::{write_lines, write_values, write_zsh_items};
pub use crate::requests::{is_request, wants_nothing};
pub use crate::safe_replies::{write_safe_lines, write_safe_values, write_safe_zsh_items};
pub use crate::system::{home, variables, words};
