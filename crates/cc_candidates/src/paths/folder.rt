//! The trait of file systems whose directories can be listed.

ghost use Rattle.std.specs.Prelude.{◌≡◌, map, string_bytes, Err, IfOk, Some, None};
ghost use Rattle.std.specs.Option.{option_copied};
ghost use Rattle.cc_candidates.specs.Folders.{FolderFacts};

use std::alloc::{AllocError, AllocFailed, Global};
use thiserror::Error as ThisError;

/// The reason why a directory cannot be listed.
#[derive(Debug, Drop, ThisError)]
pub enum FolderError {
    /// The path does not lead to a readable directory.
    #[error("unreadable")]
    Unreadable,
    /// An allocation failed.
    #[error("out of memory")]
    Memory,
}

impl From<AllocError> for FolderError {
    ghost use Rattle.cc_candidates.specs.declared.paths.folder.FolderError.TheVariants.{Memory};

    ghost from_gives = { λ _ error. error ≡ Memory };

    fn from(_failed: AllocError) -> FolderError {
        FolderError::Memory
    }
}

impl<T: Drop> From<AllocFailed<T>> for FolderError {
    ghost use Rattle.cc_candidates.specs.declared.paths.folder.FolderError.TheVariants.{Memory};

    ghost from_gives = { λ _ error. error ≡ Memory };

    fn from(_failed: AllocFailed<T>) -> FolderError {
        FolderError::Memory
    }
}

/// Lists directories and tells what a path leads to.
///
/// Relations state what its calls return, because a file system may answer each call for a path
/// differently.
pub trait Folder {
    // the results that the calls may return
    ghost facts: { Self → FolderFacts };

    /// Returns the names in the directory at `path`, in any order.
    ///
    /// # Errors
    ///
    /// - `Unreadable` if `path` does not lead to a readable directory.
    /// - `Memory` if an allocation fails.
    fn names(&self, alloc: Global, path: &str) -> Result<Vec<String>, FolderError>
        ensures ok { IfOk result
            (λ names. (facts self.now).names path.now (Some (map string_bytes names.items))) }
        ensures unreadable { result ≡ Err FolderError.Unreadable →
            (facts self.now).names path.now None };

    /// Returns whether `path` leads to a directory.
    fn is_dir(&self, path: &str) -> bool
        ensures { (facts self.now).is_dir path.now result };

    /// Returns whether `path` leads to a file.
    fn is_file(&self, path: &str) -> bool
        ensures { (facts self.now).is_file path.now result };

    /// Returns whether `path` leads to an executable file.
    fn is_executable(&self, path: &str) -> bool
        ensures { (facts self.now).is_executable path.now result };

    /// Returns the home directory of the user, if it is known.
    fn home(&self) -> Option<&str>
        ensures { option_copied result ≡ (facts self.now).home };
}

impl<D: Folder> Folder for &D {
    ghost facts = { λ folder. D.facts folder.now };

    fn names(&self, alloc: Global, path: &str) -> Result<Vec<String>, FolderError> {
        (**self).names(alloc, path)
    }

    fn is_dir(&self, path: &str) -> bool {
        (**self).is_dir(path)
    }

    fn is_file(&self, path: &str) -> bool {
        (**self).is_file(path)
    }

    fn is_executable(&self, path: &str) -> bool {
        (**self).is_executable(path)
    }

    fn home(&self) -> Option<&str> {
        (**self).home()
    }
}
