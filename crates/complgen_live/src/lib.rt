//! Live completion of any program by its tree file. This crate finds the tree files and the
//! programs that have one, and writes registrations and answers to the requests of shells: replies,
//! or the words of a command that lists values.
#![tactic(auto)]

mod answers;
mod files;
mod folders;
mod known;
mod own_tree;
mod plain_names;
mod prepared;
mod registrations;
mod replies;
mod reply_errors;
mod requests;

pub use crate::answers::answer_request;
pub use crate::files::{command_name, tree_path, tree_paths, tree_stem};
pub use crate::folders::tree_folders;
pub use crate::known::{KnownNames, known_names};
pub use crate::own_tree::OWN_TREE;
pub use crate::plain_names::PlainNames;
pub use crate::registrations::write_registrations;
pub use crate::replies::reply;
pub use crate::reply_errors::ReplyError;
pub use crate::requests::{Origin, Request, request_words};
