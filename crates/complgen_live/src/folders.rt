//! The directories that hold tree files.

ghost use Rattle.std.specs.Prelude.{◌≡◌, ◌++◌, IfOk, OnOk, codes, filter, map, string_bytes};
ghost use Rattle.std.specs.Option.{option_copied};
ghost use Rattle.cc_replies.specs.Environment.{value_of};
ghost use Rattle.cc_candidates.specs.PathTexts.{is_absolute};
ghost use Rattle.complgen_live.specs.Folders.{data_folder, is_some_text, pieces, some_text};
ghost use Rattle.complgen_live.specs.Folders.{system_folders, tree_folders, user_folders};

use cc_candidates::join;
use cc_replies::EnvValues;
use std::alloc::{AllocError, Global};

// The directory of tree files in a data directory.
const DATA_FOLDER: &str = "complgen";

// The directory of tree files in the home directory.
const HOME_FOLDER: &str = ".local/share/complgen";

// The system's data directories, if the environment names no others.
const DEFAULT_DATA: &str = "/usr/local/share:/usr/share";

/// Returns the directories that hold tree files, in the order in which they are searched. `env`
/// holds the variables:
///
/// - If `COMPLGEN_PATH` is set, it lists the directories, with `:` between them. Empty parts are
///   skipped, and the other variables do not count.
/// - Otherwise, the first directory is `complgen` in `XDG_DATA_HOME`. If that is unset or empty, it
///   is `.local/share/complgen` in `HOME`. If both are, there is no such directory.
/// - Then comes `complgen` in each path that `XDG_DATA_DIRS` lists, or in `/usr/local/share` and
///   `/usr/share` if that is unset or empty. Paths that are not absolute are skipped.
///
/// # Errors
///
/// `AllocError` if an allocation fails.
pub fn tree_folders(alloc: Global, env: &EnvValues) -> Result<Vec<String>, AllocError>
    ensures { IfOk result (λ folders. map string_bytes folders.items
        ≡ tree_folders (value_of (codes "COMPLGEN_PATH") env.now)
        (value_of (codes "XDG_DATA_HOME") env.now) (value_of (codes "HOME") env.now)
        (value_of (codes "XDG_DATA_DIRS") env.now)) }
{
    if let Some(list) = env.get("COMPLGEN_PATH") {
        return named_folders(alloc, list);
    }
    let shared = some_text(env.get("XDG_DATA_HOME"));
    let home = some_text(env.get("HOME"));
    let mut folders = user_folders(alloc, shared, home)?;
    let list = some_text(env.get("XDG_DATA_DIRS")).unwrap_or(DEFAULT_DATA);
    push_system_folders(&mut folders, alloc, list)?;
    Ok(folders)
}

// Returns the value, unless it is missing or empty.
fn some_text(value: Option<&str>) -> Option<&str>
    ensures { option_copied result ≡ some_text (option_copied value.entry) }
{
    match value {
        Some("") => None,
        value => value,
    }
}

// Returns the directories that a list names.
fn named_folders(alloc: Global, list: &str) -> Result<Vec<String>, AllocError>
    ensures { IfOk result (λ folders.
        map string_bytes folders.items ≡ filter is_some_text (pieces list.now)) }
{
    let listed = pieces(alloc, list)?;
    some_texts(alloc, listed.as_slice())
}

// Returns copies of the texts that are not empty.
fn some_texts(alloc: Global, texts: &[&str]) -> Result<Vec<String>, AllocError>
    ensures { IfOk result (λ copies. map string_bytes copies.items
        ≡ filter is_some_text (map (λ text. text.now) texts.now)) }
{
    let mut copies = Vec::new(alloc);
    for text in texts {
        if text.is_empty() {
            continue;
        }
        copies.push(String::from_str(alloc, text)?)?;
    }
    Ok(copies)
}

// Splits a list of paths at each `:`.
fn pieces<'l>(alloc: Global, list: &'l str) -> Result<Vec<&'l str>, AllocError>
    ensures { IfOk result (λ found. map (λ piece. piece.now) found.items ≡ pieces list.now) }
{
    list.split(':').collect(alloc)
}

// Returns the user's directory of tree files, or an empty list if neither variable has a value.
fn user_folders(
    alloc: Global,
    shared: Option<&str>,
    home: Option<&str>,
) -> Result<Vec<String>, AllocError>
    ensures { IfOk result (λ folders. map string_bytes folders.items
        ≡ user_folders (option_copied shared.entry) (option_copied home.entry)) }
{
    let mut folders = Vec::new(alloc);
    match (shared, home) {
        (Some(shared), _) => folders.push(join(alloc, shared, DATA_FOLDER)?)?,
        (None, Some(home)) => folders.push(join(alloc, home, HOME_FOLDER)?)?,
        (None, None) => {}
    }
    Ok(folders)
}

// Adds the system's directories of tree files, in the data directories of a list.
fn push_system_folders(
    folders: &mut Vec<String>,
    alloc: Global,
    list: &str,
) -> Result<(), AllocError>
    ensures { OnOk result (map string_bytes folders.new.items
        ≡ map string_bytes folders.old.items ++ system_folders list.now) }
{
    let listed = pieces(alloc, list)?;
    push_data_folders(folders, alloc, listed.as_slice())
}

// Adds the directory of tree files in each of these data directories that has an absolute path.
fn push_data_folders(
    folders: &mut Vec<String>,
    alloc: Global,
    dirs: &[&str],
) -> Result<(), AllocError>
    ensures { OnOk result (map string_bytes folders.new.items ≡ map string_bytes folders.old.items
        ++ map data_folder (filter is_absolute (map (λ dir. dir.now) dirs.now))) }
{
    for dir in dirs {
        if !dir.starts_with('/') {
            continue;
        }
        folders.push(join(alloc, dir, DATA_FOLDER)?)?;
    }
    Ok(())
}
