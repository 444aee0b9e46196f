//! The programs that have tree files in some directories.

ghost use Rattle.std.specs.Prelude.{◌≡◌, ◌++◌, IfOk, OnOk, filter, map, string_bytes};
ghost use Rattle.cc_candidates.specs.PathCandidates.{MayList};
ghost use Rattle.complgen_live.specs.KnownNames.{AreKnown, AreListed, each_once, is_other_name};
ghost use Rattle.complgen_live.specs.TreeFiles.{found_stem, stems, tree_stem};

use crate::files::{plain_names, tree_stem};
use crate::plain_names::PlainNames;
use cc_candidates::{Folder, FolderError};
use std::alloc::{AllocError, Global};

// The name of this program.
const OWN_NAME: &str = "complgen";

/// The names of the programs that have tree files in some directories.
#[derive(Drop)]
pub struct KnownNames {
    /// The plain names, sorted and without duplicates, without the name of this program.
    pub names: PlainNames,
    /// The number of tree files of programs whose name is not plain.
    pub passed_over: usize,
}

/// Returns the names of the programs whose tree files `folder` lists in the directories `folders`.
/// A directory that can't be read has none.
///
/// # Errors
///
/// `AllocError` if an allocation fails, or if `folder` fails with `Memory`.
pub fn known_names<D: Folder>(
    alloc: Global,
    folder: &D,
    folders: &[String],
) -> Result<KnownNames, AllocError>
    ensures { IfOk result (λ known. AreKnown (D.facts folder.now).names
        (map string_bytes folders.now) known.names known.passed_over) }
{
    let names = listed_names(alloc, folder, folders)?;
    let stems = stems_of(alloc, names.as_slice())?;
    let count = stems.len();
    let plain = plain_names(alloc, stems)?;
    let passed_over = count - plain.len();
    let mut names = other_names(alloc, plain)?;
    each_once(&mut names)?;
    Ok(KnownNames {
        names: PlainNames::new(names),
        passed_over,
    })
}

// Lists the names in the directories, one directory after another.
fn listed_names<D: Folder>(
    alloc: Global,
    folder: &D,
    folders: &[String],
) -> Result<Vec<String>, AllocError>
    ensures { IfOk result (λ names. AreListed (D.facts folder.now).names
        (map string_bytes folders.now) (map string_bytes names.items)) }
{
    let mut names = Vec::new(alloc);
    for path in folders {
        let mut here = names_in(alloc, folder, path.as_str())?;
        names.append(&mut here)?;
    }
    Ok(names)
}

// Lists the names in the directory at `path`, or none if it can't be read.
fn names_in<D: Folder>(alloc: Global, folder: &D, path: &str) -> Result<Vec<String>, AllocError>
    ensures { IfOk result (λ names. MayList ((D.facts folder.now).names path.now)
        (map string_bytes names.items)) }
{
    match folder.names(alloc, path) {
        Ok(names) => Ok(names),
        Err(FolderError::Unreadable) => Ok(Vec::new(alloc)),
        Err(FolderError::Memory) => Err(AllocError),
    }
}

// Returns the names of the programs whose tree files have these names.
fn stems_of(alloc: Global, names: &[String]) -> Result<Vec<String>, AllocError>
    ensures { IfOk result (λ found.
        map string_bytes found.items ≡ stems (map string_bytes names.now)) }
{
    let mut found = Vec::new(alloc);
    for name in names {
        push_stem(&mut found, alloc, name.as_str())?;
    }
    Ok(found)
}

// Adds the name of the program whose tree file is called `name`. Does nothing for other files.
fn push_stem(found: &mut Vec<String>, alloc: Global, name: &str) -> Result<(), AllocError>
    ensures { OnOk result (map string_bytes found.new.items
        ≡ map string_bytes found.old.items ++ found_stem (tree_stem name.now)) }
{
    let Some(stem) = tree_stem(name) else {
        return Ok(());
    };
    found.push(String::from_str(alloc, stem)?)?;
    Ok(())
}

// Returns the names without the name of this program.
fn other_names(alloc: Global, names: Vec<String>) -> Result<Vec<String>, AllocError>
    ensures { IfOk result (λ kept.
        map string_bytes kept.items ≡ filter is_other_name (map string_bytes names.items)) }
{
    let mut kept = Vec::new(alloc);
    for name in names {
        if name.as_str() == OWN_NAME {
            continue;
        }
        kept.push(name)?;
    }
    Ok(kept)
}

// Sorts the names, and removes duplicates.
fn each_once(names: &mut Vec<String>) -> Result<(), AllocError>
    ensures { OnOk result
        (map string_bytes names.new.items ≡ each_once (map string_bytes names.old.items)) }
{
    names.sort()?;
    names.dedup();
    Ok(())
}
