//! Finds what is wrong with a tree file, and where.

mod checking;
mod doubles;
mod finding;
mod line_numbers;
mod nearest;
mod not_json;
mod places;
mod shown;
mod source_texts;
mod spots;
mod texts;

pub use crate::errors::checking::{Checked, check_file};
pub use crate::errors::finding::{Finding, Level, Source};
pub use crate::errors::line_numbers::Lines;
