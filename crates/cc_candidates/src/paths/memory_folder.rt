//! Files and directories in memory.

ghost use Rattle.std.specs.Prelude.{◌≡◌, None, Some, true, false, is_some};
ghost use Rattle.std.specs.Option.{option_copied};
ghost use Rattle.cc_candidates.specs.InMemory.{folder_at, has_file, names_in, without_slash};

use crate::copies::owned_texts;
use crate::paths::folder::{Folder, FolderError};
use crate::paths::path_texts::ends_in_slash;
use std::alloc::Global;

/// Files and directories in memory, for tests. Every file counts as executable. One slash at the
/// end of a path is ignored, except in `/`, the path of the root.
#[derive(Drop)]
pub struct MemoryFolder {
    folders: &'static [(&'static str, &'static [&'static str])],
    files: &'static [&'static str],
    home: Option<&'static str>,
    fails: bool,
}

impl MemoryFolder {
    /// Creates a file system with `folders`, pairs of a path and the names in it, and the paths of
    /// `files`. No path except `/` may end in a slash.
    pub fn new(
        folders: &'static [(&'static str, &'static [&'static str])],
        files: &'static [&'static str],
    ) -> MemoryFolder
        ensures folders { result.folders.now ≡ folders.now }
        ensures files { result.files.now ≡ files.now }
        ensures home { option_copied result.home ≡ None }
        ensures fails { result.fails ≡ false }
    {
        MemoryFolder {
            folders,
            files,
            home: None,
            fails: false,
        }
    }

    /// Sets the home directory of the user.
    pub fn with_home(mut self, path: &'static str) -> MemoryFolder
        ensures folders { result.folders.now ≡ self.folders.now }
        ensures files { result.files.now ≡ self.files.now }
        ensures home { option_copied result.home ≡ Some path.now }
        ensures fails { result.fails ≡ self.fails }
    {
        self.home = Some(path);
        self
    }

    /// Makes every call of `names` fail with `Memory`.
    pub fn out_of_memory(mut self) -> MemoryFolder
        ensures { result ≡ record self { fails = true } }
    {
        self.fails = true;
        self
    }
}

impl Folder for MemoryFolder {
    ghost facts = { λ folder. record {
      names = λ path listing. listing ≡ names_in folder.folders.now (without_slash path);
      is_dir = λ path is. is ≡ is_some (folder_at folder.folders.now (without_slash path));
      is_file = λ path is. is ≡ has_file folder.files.now (without_slash path);
      is_executable = λ path is. is ≡ has_file folder.files.now (without_slash path);
      home = option_copied folder.home;
    } };

    fn names(&self, alloc: Global, path: &str) -> Result<Vec<String>, FolderError> {
        if self.fails {
            return Err(FolderError::Memory);
        }
        match folder_at(self.folders, without_slash(path)) {
            Some((_, names)) => Ok(owned_texts(alloc, names)?),
            None => Err(FolderError::Unreadable),
        }
    }

    fn is_dir(&self, path: &str) -> bool {
        folder_at(self.folders, without_slash(path)).is_some()
    }

    fn is_file(&self, path: &str) -> bool {
        has_file(self.files, without_slash(path))
    }

    fn is_executable(&self, path: &str) -> bool {
        has_file(self.files, without_slash(path))
    }

    fn home(&self) -> Option<&str> {
        self.home
    }
}

// Returns the path without one slash at its end, but `/` unchanged.
fn without_slash(path: &str) -> &str
    ensures { result.now ≡ without_slash path.now }
{
    if path.len() > 1 && ends_in_slash(path) {
        &path[..path.len() - 1]
    } else {
        path
    }
}

// Returns the first directory with this path.
fn folder_at(
    folders: &'static [(&'static str, &'static [&'static str])],
    path: &str,
) -> Option<(&'static str, &'static [&'static str])>
    ensures { result ≡ folder_at folders.now path.now }
{
    for folder in folders {
        if folder.0 == path {
            return Some(*folder);
        }
    }
    None
}

// Returns whether one of the files has this path.
fn has_file(files: &[&str], path: &str) -> bool
    ensures { result ≡ has_file files.now path.now }
{
    for file in files {
        if *file == path {
            return true;
        }
    }
    false
}
