//! The errors of reading a tree file.

ghost use Rattle.std.specs.Prelude.{◌≡◌};
ghost use Rattle.complgen_tree_file.specs.declared.error.TreeError.TheVariants.{Memory};

use std::alloc::{AllocError, AllocFailed};
use thiserror::Error as ThisError;

/// The reason why the bytes of a file describe no command.
#[derive(Debug, Drop, ThisError)]
pub enum TreeError {
    /// The bytes are not UTF-8 or not JSON, are nested too deeply, or have a number out of range.
    #[error("tree: not JSON")]
    NotJson,
    /// The JSON has another key, kind or range than the tree of a command.
    #[error("tree: bad form")]
    BadForm,
    /// An allocation failed.
    #[error("out of memory")]
    Memory,
}

impl From<AllocError> for TreeError {
    ghost from_gives = { λ _ error. error ≡ Memory };

    fn from(_failed: AllocError) -> TreeError {
        TreeError::Memory
    }
}

impl<T: Drop> From<AllocFailed<T>> for TreeError {
    ghost from_gives = { λ _ error. error ≡ Memory };

    fn from(_failed: AllocFailed<T>) -> TreeError {
        TreeError::Memory
    }
}
