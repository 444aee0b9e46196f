//! The parts that all generators of completion scripts share:
//!
//! - the nodes of a command tree in one numbered list ([`Flat`]), also in preorder, so that a walk
//!   over the tree needs no recursion;
//! - the trait [`Generator`], and the call [`generate`], which builds a command and writes its
//!   script;
//! - the lists of names in [`utils`];
//! - the visits of a command tree, in the two orders in which scripts list its commands. A visit is
//!   one visible path with the node to which it leads. In table order ([`TableVisits`]) all names of
//!   a command come before the commands below it. In path order ([`PathSteps`]) each name is
//!   followed by all paths below it.
//!
//! ```rattle
//! use cc_base::{Collected, Error};
//! use cc_command::Command;
//! use cc_generator::{Generator, generate};
//! use std::alloc::Global;
//!
//! fn script_of<G: Generator + Drop>(
//!     alloc: Global,
//!     generator: G,
//!     command: &mut Command,
//! ) -> Result<Vec<u8>, Error> {
//!     let mut sink = Collected::new(alloc);
//!     let bin_name = String::from_str(alloc, "app")?;
//!     generate(alloc, generator, command, bin_name, &mut sink)?;
//!     Ok(sink.into_vec())
//! }
//! ```
//!
//! A generator walks the visits of the nodes in one list:
//!
//! ```rattle
//! use cc_base::Text;
//! use cc_command::Command;
//! use cc_generator::{Flat, Joined, TableVisits};
//! use std::alloc::{AllocError, Global};
//!
//! // Returns the key of the first visit, which is `app`.
//! fn first_key(alloc: Global, root: &Command) -> Result<Option<Text>, AllocError> {
//!     let flat = Flat::new(alloc, root)?;
//!     let keys = Joined { separator: ";" };
//!     let mut visits = TableVisits::new(alloc, &flat, "app", &keys)?;
//!     match visits.next(alloc)? {
//!         Some(visit) => Ok(Some(visit.key)),
//!         None => Ok(None),
//!     }
//! }
//! ```
#![tactic(auto)]

mod flat;
mod generator;
mod keys;
mod path_steps;
mod preorder;
mod stack;
mod table_visits;
pub mod utils;
mod visit;

pub use crate::flat::Flat;
pub use crate::generator::{Generator, generate};
pub use crate::keys::{Joined, KeyScheme, SharedKey};
pub use crate::path_steps::{PathStep, PathSteps};
pub use crate::preorder::{LevelledNode, Preorder};
pub use crate::table_visits::TableVisits;
pub use crate::visit::Visit;
