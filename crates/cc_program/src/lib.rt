//! A program that completes its words and parses them by the same tree, and short forms of
//! describing a command line: arguments and commands as most programs have them, each with its help
//! text, and steps that pass a failure on. Other calls promise that live completion agrees with the
//! parser and with a bash script.
//!
//! ```rattle
//! use cc_base::Error;
//! use cc_command::Command;
//! use cc_program::{command, flag, positional};
//! use std::alloc::Global;
//!
//! fn tree(alloc: Global) -> Result<Command, Error> {
//!     let args = [
//!         positional("package", "PACKAGE", "Names of packages").many(),
//!         flag("dry-run", "Only say what would be done").short('n'),
//!     ];
//!     command(alloc, "install", "Install packages", &args)
//! }
//! ```
#![tactic(auto)]

mod agreement;
mod arguments;
mod commands;
mod completing;
mod description;
mod ending;
mod environment;
mod failure;
mod over_values;
mod parsing;
mod running;
mod streams;
mod word_parser;

pub use crate::agreement::{
    bash_script_and_candidates, candidates_and_parser, candidates_and_reached_parser,
    has_no_hidden_alias,
};
pub use crate::arguments::{arg, possible_values};
pub use crate::commands::{command, group, with_alias, with_arg, with_child};
pub use crate::completing::completes;
pub use crate::description::{ArgDescription, flag, option, positional};
pub use crate::ending::end;
pub use crate::failure::Failure;
pub use crate::over_values::{Program, run_over};
pub use crate::running::run;
pub use crate::streams::Streams;
pub use crate::word_parser::{ClapParser, WordParser};
