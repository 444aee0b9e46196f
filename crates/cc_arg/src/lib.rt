//! An argument of a described command: a flag, an option or a positional, with its action and the
//! number of its values.
//!
//! ```rattle
//! let range = ValueRange::new(0, 1);
//! let id = String::from_str(alloc, "color")?;
//! let help = String::from_str(alloc, "Colour")?;
//! let when = String::from_str(alloc, "WHEN")?;
//! let color = Arg::new(alloc, id).short('c').help(help);
//! let color = color.num_args(range).hide(true);
//! color.value_name(when)
//! ```
//!
//! These lines describe the hidden option `-c`, whose value may be left out. Its help text is
//! `Colour`, and its value is shown as `WHEN`.
#![tactic(auto)]

mod action;
mod aliases;
mod arg;
mod names;
mod parts;
mod possible_value;
mod printed;
mod range;
mod value_hint;
mod value_source;
mod values_protocol;

pub use crate::action::ArgAction;
pub use crate::aliases::{LongAndVisibleAliases, ShortAndVisibleAliases};
pub use crate::arg::{
    Arg, conflicting_ids, copy_of, counted_range, fill_display_order, fill_index,
    fill_range_and_action, listed_values, possible_values,
};
pub use crate::names::{ShownName, ShownNames, shown_longs, shown_names, shown_shorts};
pub use crate::parts::ArgParts;
pub use crate::possible_value::PossibleValue;
pub use crate::range::ValueRange;
pub use crate::value_hint::ValueHint;
pub use crate::value_source::{
    SourceValues, has_source, is_runnable, list_if_same_source, same_source,
};
pub use crate::values_protocol::ValuesProtocol;
