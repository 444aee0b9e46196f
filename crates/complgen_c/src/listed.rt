//! A directory whose names the caller passes.

ghost use Rattle.std.specs.Prelude.{◌≡◌, ℕ, List, IfOk, map, string_bytes};
ghost use Rattle.std.specs.BTreeSet.{keys};
ghost use Rattle.std.specs.Option.{option_copied};
ghost use Rattle.complgen_c.specs.Listings.{HoldsListing, facts_of, handed, is_among};
ghost use Rattle.complgen_c.specs.Listings.{listing_of};

use cc_base::Text;
use cc_candidates::{Folder, FolderError};
use std::alloc::{AllocError, Global};
use std::cell::Cell;
use std::collections::BTreeSet;

/// A directory: its path, the names in it, and the paths that lead to directories and to files.
/// Every file counts as executable. The names in other directories are not known. A call for these
/// fails, and the path of that directory is kept.
#[derive(Drop)]
pub struct Listed<'l, 'h> {
    path: &'l [u8],
    names: Vec<String>,
    folders: BTreeSet<&'l [u8]>,
    files: BTreeSet<&'l [u8]>,
    home: Option<&'h str>,
    wanted: Cell<Option<Text>>,
}

impl<'l, 'h> Listed<'l, 'h> {
    /// Returns the directory at `path`, with the `names` in it, the paths `folders` of directories,
    /// the paths `files` of files, and the user's directory `home`.
    ///
    /// # Errors
    ///
    /// `AllocError` if an allocation fails.
    pub(crate) fn new(
        alloc: Global,
        path: &'l [u8],
        names: Vec<String>,
        folders: &[&'l [u8]],
        files: &[&'l [u8]],
        home: Option<&'h str>,
    ) -> Result<Listed<'l, 'h>, AllocError>
        ensures { IfOk result (HoldsListing (record {
          path = path.now;
          names = map string_bytes names.items;
          folders = handed folders.now;
          files = handed files.now;
        }) (option_copied home.entry)) }
    {
        let folders = path_set(alloc, folders)?;
        let files = path_set(alloc, files)?;
        Ok(Listed {
            path,
            names,
            folders,
            files,
            home,
            wanted: Cell::new(None),
        })
    }

    /// Returns the path of the directory.
    pub(crate) fn path(&self) -> &'l [u8]
        ensures { result.now ≡ self.now.path.now }
    {
        self.path
    }

    /// Returns the path of the other directory whose names were requested, if there is one. No
    /// clause can state which one, because a cell hides its content.
    pub(crate) fn into_wanted(self) -> Option<Text> {
        self.wanted.into_inner()
    }
}

impl<'l, 'h> Folder for Listed<'l, 'h> {
    ghost facts = { λ folder. facts_of (listing_of folder) (option_copied folder.home) };

    // There is no reply without the names in another directory. `Memory` is the only error of a
    // folder that ends the whole call, so it is returned here. The path that was kept distinguishes
    // this from memory that ran out.
    fn names(&self, alloc: Global, path: &str) -> Result<Vec<String>, FolderError> {
        if self.path == path.as_bytes() {
            return Ok(self.names.clone()?);
        }
        self.wanted.set(Some(Text::copy_of(alloc, path)?));
        Err(FolderError::Memory)
    }

    fn is_dir(&self, path: &str) -> bool {
        has_path(&self.folders, path)
    }

    fn is_file(&self, path: &str) -> bool {
        has_path(&self.files, path)
    }

    fn is_executable(&self, path: &str) -> bool {
        self.is_file(path)
    }

    fn home(&self) -> Option<&str> {
        self.home
    }
}

// Collects the paths into a set for fast lookup.
fn path_set<'p>(alloc: Global, paths: &[&'p [u8]]) -> Result<BTreeSet<&'p [u8]>, AllocError>
    ensures { IfOk result (λ set. (path : List ℕ) →
        is_among (handed (keys set)) path ≡ is_among (handed paths.now) path) }
{
    paths.iter().copied().collect(alloc)
}

fn has_path(paths: &BTreeSet<&[u8]>, path: &str) -> bool
    ensures { result ≡ is_among (handed (keys paths.now)) path.now }
{
    paths.contains(path.as_bytes())
}
