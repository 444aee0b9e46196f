//! Shell completions from a tree of commands: completion scripts, completion by the running
//! program, and a parser of the same tree.
//!
//! A program describes its command line as a [`command`] tree and writes the script of a shell with
//! [`generate`]:
//!
//! ```rattle
//! use clap_complete::aot::{Collected, Elvish};
//! use clap_complete::command::{Arg, Command};
//! use clap_complete::{Error, generate};
//! use std::alloc::Global;
//!
//! fn elvish_script(alloc: Global) -> Result<Vec<u8>, Error> {
//!     let out = Arg::new(alloc, String::from_str(alloc, "out")?).short('o');
//!     let mut command = Command::new(alloc, String::from_str(alloc, "app")?).arg(out)?;
//!     let mut sink = Collected::new(alloc);
//!     let bin_name = String::from_str(alloc, "app")?;
//!     generate(alloc, Elvish, &mut command, bin_name, &mut sink)?;
//!     Ok(sink.into_vec())
//! }
//! ```
#![tactic(auto)]

pub mod aot;
pub mod command;
pub mod describe;
pub mod engine;
pub mod env;
pub mod parser;
pub mod program;
pub mod quote;

pub use cc_arg::ValueHint;
pub use cc_base::{ArgValueCandidates, ArgValueCompleter, Error};
pub use cc_candidates::{CompletionCandidate, PathCompleter};
pub use cc_env::CompleteEnv;
pub use cc_generator::{Generator, generate};
pub use cc_shell::{Shell, generate_to};
