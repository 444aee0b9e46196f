//! Live completion: what a program writes if its shell requests a registration or candidates, and
//! for each shell its names, its registration and its reply. Values may come from a command, a file
//! or the system.
//!
//! ```rattle
//! use cc_base::{Error, Sink};
//! use cc_candidates::{Completers, Folder};
//! use cc_command::Command;
//! use cc_env::CompleteEnv;
//! use cc_replies::EnvValues;
//! use std::alloc::Global;
//!
//! fn answers<F: Fn(Global) -> Result<Command, Error> + Drop, D: Folder, W: Sink>(
//!     alloc: Global,
//!     factory: F,
//!     args: Vec<String>,
//!     env: &EnvValues,
//!     folder: &D,
//!     completers: &Completers,
//!     out: &mut W,
//! ) -> Result<bool, Error>
//!     requires { F.IsAlwaysCallable factory }
//! {
//!     let completion = CompleteEnv::safe(factory);
//!     completion.try_complete(alloc, args, None, env, folder, completers, out)
//! }
//! ```
#![tactic(auto)]

mod arguments;
mod asking;
mod bash;
mod builtin;
mod complete_env;
mod elvish;
mod env_completer;
mod fish;
mod powershell;
mod reply;
mod safe_shell;
mod shell_program;
mod shells;
mod wanted;
mod zsh;

pub use crate::arguments::{program_path, words_after};
pub use crate::asking::{
    Answer, Call, Called, LineSource, PassedLines, WithLines, answer_call, answer_own,
    complete_with_lines, try_complete_asking, wanted_command, write_answer, write_run_words,
};
pub use crate::bash::Bash;
pub use crate::builtin::Builtin;
pub use crate::complete_env::CompleteEnv;
pub use crate::elvish::Elvish;
pub use crate::env_completer::{EnvCompleter, LookupCompleter};
pub use crate::fish::Fish;
pub use crate::powershell::Powershell;
pub use crate::safe_shell::SafeShell;
pub use crate::shell_program::ShellProgram;
pub use crate::shells::{ShellNames, Shells};
pub use crate::wanted::{known_shell, wanted_name};
pub use crate::zsh::Zsh;
