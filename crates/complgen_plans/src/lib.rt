//! Carries out the plans of the command line, over the bytes of files that the caller read.
//!
//! ```rattle
//! use cc_base::Collected;
//! use cc_candidates::MemoryFolder;
//! use complgen_plans::{Inputs, carry_out};
//! use complgen_scripts::{Plan, Refusal};
//! use std::alloc::Global;
//! use std::rt::Files;
//!
//! fn output<R: Files>(
//!     files: &R,
//!     alloc: Global,
//!     plan: &Plan,
//!     tree: &[u8],
//! ) -> Result<Vec<u8>, Refusal> {
//!     let mut out = Collected::new(alloc);
//!     let inputs = Inputs {
//!         tree: Some(tree),
//!         values: None,
//!         folder: &MemoryFolder::new(&[], &[]),
//!     };
//!     carry_out(files, alloc, plan, &inputs, &mut out)?;
//!     Ok(out.into_vec())
//! }
//! ```
#![tactic(auto)]

mod checks;
mod given_replies;
mod inputs;
mod page;
mod plans;
mod registrations;
mod replies;
mod values;
mod wanted;
mod word_at;

pub use crate::inputs::Inputs;
pub use crate::plans::carry_out;
