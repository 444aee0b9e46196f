//! The names and the paths of tree files.

ghost use Rattle.std.specs.Prelude.{◌≡◌, IfOk, IfSome, IsTrue, filter, map, string_bytes};
ghost use Rattle.std.specs.Option.{option_copied};
ghost use Rattle.std.specs.Path.{path_file_name};
ghost use Rattle.cc_base.specs.PlainName.{is_plain_name};
ghost use Rattle.complgen_live.specs.TreeFiles.{AreInFolders, is_file_name, tree_path, tree_paths};
ghost use Rattle.complgen_live.specs.TreeFiles.{tree_stem};

use cc_base::is_plain_name;
use cc_candidates::join;
use std::alloc::{AllocError, Global};
use std::path::Path;

// The end of a tree file's name.
const ENDING: &str = ".json";

/// Returns the name under which the tree file of a program is looked up. It is the last component
/// of `word`, which calls the program, and contains no slash. Returns `None` if `word` has no such
/// component, as in `..`.
#[tactic(auto, using(crate::proofs::FileNames::file_name))]
pub fn command_name(word: &str) -> Option<&str>
    ensures value { option_copied result ≡ path_file_name word.now }
    ensures plain { IfSome (path_file_name word.now) (λ name. IsTrue (is_file_name name)) }
{
    Path::new(word).file_name()
}

/// Returns the path of the tree file of the program `name` in the directory `folder`.
///
/// # Errors
///
/// `AllocError` if an allocation fails.
pub fn tree_path(alloc: Global, folder: &str, name: &str) -> Result<String, AllocError>
    ensures { IfOk result (λ path. string_bytes path ≡ tree_path folder.now name.now) }
{
    let mut path = join(alloc, folder, name)?;
    path.push_str(ENDING)?;
    Ok(path)
}

/// Returns the paths of the tree files of the program that `word` calls: one in each directory of
/// `folders`, in their order. The list is empty if `word` calls no program. No path leads out of
/// its directory.
///
/// # Errors
///
/// `AllocError` if an allocation fails.
#[tactic(auto, using(crate::proofs::FileNames::inside))]
pub fn tree_paths(alloc: Global, folders: &[String], word: &str) -> Result<Vec<String>, AllocError>
    ensures paths { IfOk result (λ paths. map string_bytes paths.items
        ≡ tree_paths word.now (map string_bytes folders.now)) }
    ensures inside { AreInFolders (map string_bytes folders.now)
        (tree_paths word.now (map string_bytes folders.now)) }
{
    match command_name(word) {
        Some(name) => paths_of(alloc, folders, name),
        None => Ok(Vec::new(alloc)),
    }
}

fn paths_of(alloc: Global, folders: &[String], name: &str) -> Result<Vec<String>, AllocError>
    ensures { IfOk result (λ paths. map string_bytes paths.items
        ≡ map (λ folder. tree_path folder name.now) (map string_bytes folders.now)) }
{
    let mut paths = Vec::new(alloc);
    for folder in folders {
        paths.push(tree_path(alloc, folder.as_str(), name)?)?;
    }
    Ok(paths)
}

/// Returns the name of the program whose tree file is called `name`, or `None` if `name` is not the
/// name of a tree file.
pub fn tree_stem(name: &str) -> Option<&str>
    ensures { option_copied result ≡ tree_stem name.now }
{
    name.strip_suffix(ENDING)
}

/// Returns those of `names` that are plain. Only these are registered.
///
/// # Errors
///
/// `AllocError` if an allocation fails.
pub(crate) fn plain_names(alloc: Global, names: Vec<String>) -> Result<Vec<String>, AllocError>
    ensures { IfOk result (λ kept.
        map string_bytes kept.items ≡ filter is_plain_name (map string_bytes names.items)) }
{
    let mut kept = Vec::new(alloc);
    for name in names {
        if !is_plain_name(name.as_str()) {
            continue;
        }
        kept.push(name)?;
    }
    Ok(kept)
}
