//! Reads JSON with the meaning of `serde_json`, into values that borrow their text.

mod look;
mod number;
mod object;
mod range;
mod read;

pub use crate::json_values::look::{
    boolean, has_only_keys, is_null, items, member, text, whole_number,
};
pub use crate::json_values::object::find_keys;
pub use crate::json_values::read::{JsonError, read_value};
pub use json::{Scratch, Value};
