//! A listed name and the facts about its path.

use cc_base::Text;

/// A listed name, whether its path leads to a directory, and whether the path passes the test.
#[derive(Drop)]
pub struct Entry {
    pub(crate) name: Text,
    pub(crate) is_folder: bool,
    pub(crate) passes: bool,
}
