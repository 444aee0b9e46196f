//! The library for programs in other languages. Its functions make a script or a registration,
//! answer a live request, or tell for which values a word is asked. They accept any bytes.
#![tactic(auto)]

mod asked_values;
mod listed;
mod live;
mod outcome;
mod registrations;
mod requests;
mod scripts;
#[cfg(test)]
mod tests;

pub use crate::asked_values::lagvtsune_asked;
pub use crate::live::{PassedRequest, lagvtsune_live};
pub use crate::outcome::Outcome;
pub use crate::registrations::{PassedNames, lagvtsune_registration};
pub use crate::scripts::lagvtsune_script;
