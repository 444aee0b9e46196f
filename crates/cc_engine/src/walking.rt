//! Walks over the words before the one to complete. The result is the command to which they lead,
//! the next positional, and the option that may still take values.
//!
//! ```rattle
//! use crate::walking::{positional_at, walk};
//!
//! let walked = walk(&app, words.as_slice());
//! let next = positional_at(walked.command.get_arguments(), walked.state.position);
//! ```

mod lookup;
mod state;
mod walked;
mod word_class;

pub use crate::walking::lookup::{has_long, has_short, positional_at, with_long};
pub use crate::walking::state::{Pending, State};
pub use crate::walking::walked::{Walked, walk};
pub use crate::walking::word_class::{ArgRef, ValueCharacter, value_character};
