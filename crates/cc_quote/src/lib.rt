//! Writers and readers of quoted words, for bash, zsh and other POSIX shells, fish, Elvish and
//! PowerShell.
//!
//! A writer quotes or escapes a text so that the shell keeps it. The reader of the same shell
//! returns the text. Escapes of a description write each line feed as a space. No reader expands
//! anything.
//!
//! ```rattle
//! use cc_base::Error;
//! use cc_quote::posix_quote;
//! use std::alloc::Global;
//!
//! // Returns `'it'\''s'`, which a POSIX shell reads as `it's`.
//! fn quoted(alloc: Global) -> Result<String, Error> {
//!     posix_quote(alloc, "it's")
//! }
//! ```
//!
//! Paths that need no quotes are called plain: [`is_plain_path`] tests for them.
#![tactic(auto)]

mod bash;
mod elvish;
mod escape;
mod fish;
mod fish_reader;
mod paths;
mod posix;
mod powershell;
mod word;
mod word_state;
mod zsh;
mod zsh_reply;

pub use crate::bash::{BashDouble, bash_double, bash_double_word};
pub use crate::elvish::{ElvishEscape, elvish_escape, elvish_word};
pub use crate::escape::{
    ByteEscape, Escape, Replace, escape_text, push_escaped, put_escaped, put_in_quotes,
};
pub use crate::fish::{
    FishEscape, fish_escape, fish_help_for_eval, fish_quote, fish_quote_for_eval,
    put_fish_help_for_eval, put_fish_quoted_for_eval,
};
pub use crate::fish_reader::{fish_double, fish_word};
pub use crate::paths::is_plain_path;
pub use crate::posix::{posix_quote, posix_word};
pub use crate::powershell::{PowershellEscape, powershell_escape, powershell_word};
pub use crate::zsh::{
    ZshHelpEscape, ZshValueEscape, zsh_escape_help, zsh_escape_value, zsh_unescape,
};
pub use crate::zsh_reply::{ZshReplyHelp, ZshReplyValue, zsh_reply_help, zsh_reply_value};
