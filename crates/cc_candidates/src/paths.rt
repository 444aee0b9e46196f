//! Completes paths: a completer, tests that select paths, and the directories in which it looks.
//!
//! ```rattle
//! use cc_candidates::{MemoryFolder, PathCompleter, ValueCompleter};
//!
//! let folder = MemoryFolder::new(
//!     &[("/w", &["notes.md", "src"]), ("/w/src", &[])],
//!     &["/w/notes.md"],
//! );
//! let completer = PathCompleter::file(folder).current_dir(String::from_str(alloc, "/w")?);
//! let found = completer.complete(alloc, "n")?;
//! assert!(rt; found[0].get_value() == "notes.md");
//! ```

mod completer;
mod entry;
mod folder;
mod listing;
mod memory_folder;
mod path_test;
mod path_texts;
mod real_folder;

pub use crate::paths::completer::PathCompleter;
pub use crate::paths::folder::{Folder, FolderError};
pub use crate::paths::listing::path_candidates;
pub use crate::paths::memory_folder::MemoryFolder;
pub use crate::paths::path_test::{
    EveryPath, FnTest, IsDir, IsExecutable, IsFile, PathTest, TextTest,
};
pub use crate::paths::path_texts::{join, join_some, trim_trailing};
pub use crate::paths::real_folder::RealFolder;
