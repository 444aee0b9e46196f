//! Gathers the candidates for a word: subcommands, options, and the values of an argument. `finish`
//! then makes the list final.
//!
//! ```rattle
//! use crate::gathering::{complete_possible_values, finish};
//! use cc_arg::PossibleValue;
//!
//! let mut values = Vec::new(alloc);
//! values.push(PossibleValue::new(String::from_str(alloc, "always")?))?;
//! values.push(PossibleValue::new(String::from_str(alloc, "never")?))?;
//! let found = finish(alloc, complete_possible_values(alloc, "al", values)?)?;
//! assert!(rt; found[0].get_value() == "always");
//! ```

mod finishing;
mod joined;
mod negative_numbers;
mod option_names;
mod options;
mod parts;
mod possible;
mod subcommands;
mod values;

pub use crate::gathering::finishing::{finish, finish_after};
pub use crate::gathering::options::{OptionMatch, ValueQuery, all_with_prefix, match_options};
pub(crate) use crate::gathering::parts::split_at_delimiter;
pub use crate::gathering::possible::{complete_possible_values, possible_value_candidates};
pub use crate::gathering::subcommands::subcommand_candidates;
pub use crate::gathering::values::{PathSource, arg_values};
