//! The file system of the operating system.

ghost use Rattle.std.specs.Prelude.{◌≡◌, ⊤, false, true};
ghost use Rattle.std.specs.Option.{option_map};
ghost use Rattle.std.specs.String.{string_bytes};

use crate::paths::folder::{Folder, FolderError};
use cc_base::Text;
use std::alloc::Global;
use std::fs::{self, DirEntry, ReadDir};
use std::io;
use std::os::unix::fs::PermissionsExt;
use std::path::Path;
use std::rt::Files;

// The bits of a file's mode that let the owner, the group or others execute it.
const EXECUTE_BITS: u32 = 0o111;

/// The files and directories of the operating system. Every file counts as executable, unless
/// `with_modes` is set.
///
/// Names omit entries that cannot be read. A path about which the system returns an error is
/// neither a directory nor a file. The contracts of `Folder` promise nothing about these answers,
/// because they depend on the system.
#[derive(Drop)]
pub struct RealFolder<R> {
    files: R,
    home: Option<Text>,
    by_mode: bool,
}

impl<R: Files + Drop> RealFolder<R> {
    /// Creates a file system over the handle `files`, with the home directory `home` of the user.
    pub fn new(files: R, home: Option<String>) -> RealFolder<R>
        ensures files { result.files ≡ files }
        ensures home { result.home ≡ option_map string_bytes home }
        ensures by_mode { result.by_mode ≡ false }
    {
        RealFolder {
            files,
            home: home.map(|home| Text::from(home)),
            by_mode: false,
        }
    }

    /// Counts a file as executable only if its mode lets the owner, the group or others execute it.
    pub fn with_modes(mut self) -> RealFolder<R>
        ensures { result ≡ record self { by_mode = true } }
    {
        self.by_mode = true;
        self
    }
}

impl<R: Files + Drop> Folder for RealFolder<R> {
    ghost facts = { λ folder. record {
      names = λ _ _. ⊤;
      is_dir = λ _ _. ⊤;
      is_file = λ _ _. ⊤;
      is_executable = λ _ _. ⊤;
      home = folder.home;
    } };

    fn names(&self, alloc: Global, path: &str) -> Result<Vec<String>, FolderError> {
        match fs::read_dir(&(&self.files, alloc), path) {
            Ok(entries) => names_of(alloc, entries),
            Err(error) => Err(reason(&error)),
        }
    }

    fn is_dir(&self, path: &str) -> bool {
        Path::new(path).is_dir(&self.files)
    }

    fn is_file(&self, path: &str) -> bool {
        Path::new(path).is_file(&self.files)
    }

    fn is_executable(&self, path: &str) -> bool {
        if !self.by_mode {
            return self.is_file(path);
        }
        match fs::metadata(&self.files, path) {
            Ok(data) => data.is_file() && data.permissions().mode() & EXECUTE_BITS != 0,
            Err(_) => false,
        }
    }

    fn home(&self) -> Option<&str> {
        self.home.as_ref().map(|home| home.as_str())
    }
}

// Returns the names of the entries that can be read.
fn names_of<F: Files + Clone + Drop>(
    alloc: Global,
    entries: ReadDir<F>,
) -> Result<Vec<String>, FolderError> {
    let mut names = Vec::new(alloc);
    for entry in entries {
        push_name(&mut names, alloc, entry)?;
    }
    Ok(names)
}

// Adds the name of an entry, unless the entry cannot be read.
fn push_name<F: Files + Drop>(
    names: &mut Vec<String>,
    alloc: Global,
    entry: io::Result<DirEntry<F>>,
) -> Result<(), FolderError> {
    match entry {
        Ok(entry) => {
            let name = String::from_str(alloc, entry.file_name());
            // One call here, instead of a drop of each field at each return.
            drop(entry);
            Ok(names.push(name?)?)
        }
        Err(error) => match reason(&error) {
            FolderError::Memory => Err(FolderError::Memory),
            FolderError::Unreadable => Ok(()),
        },
    }
}

// Converts an error of the system into the reason why the directory cannot be listed.
fn reason(error: &io::Error) -> FolderError {
    if error.kind() == io::ErrorKind::OutOfMemory {
        FolderError::Memory
    } else {
        FolderError::Unreadable
    }
}
