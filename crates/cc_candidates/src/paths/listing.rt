//! Lists the names in a directory as candidates.

ghost use Rattle.std.specs.Prelude.{◌≡◌, ◌==◌, ◌++◌, [], Bool, map, filter, slice_index, string_bytes, IfOk, OnOk};
ghost use Rattle.std.specs.List.{AllByRecursion};
ghost use Rattle.std.specs.Option.{option_copied};
ghost use Rattle.std.specs.Path.{dot};
ghost use Rattle.cc_candidates.specs.PathCandidates.{ArePathCandidates, AreCandidatesAt, IsEntry, MayList, begins};
ghost use Rattle.cc_candidates.specs.PathCandidates.{dot_candidate, entry_name, folder_mark, groups, is_unwanted_folder, is_wanted};
ghost use Rattle.cc_candidates.specs.PathCandidates.{path_candidate};

use crate::beginnings::begins_with;
use crate::candidate::CompletionCandidate;
use crate::paths::entry::Entry;
use crate::paths::folder::{Folder, FolderError};
use crate::paths::path_test::PathTest;
use crate::paths::path_texts::{join, search_root, word_name, word_prefix};
use crate::sorting::sort_candidates;
use cc_base::Text;
use std::alloc::{AllocError, Global};

/// Returns the candidates for `word`: the paths that pass `test`, sorted, then the other
/// directories, sorted.
///
/// The word is a directory and the beginning of a name in it. A word that is empty, ends in a slash
/// or in the component `..`, or has no component but `.`, is a directory, and each name counts. Any
/// other word is split as by `parent` and `file_name` of Rust's `Path`: so `a//b` counts as `a/b`,
/// and `src/.` is the beginning `src` of a name.
///
/// - If the first component of that directory is `~`, it is below the home directory. Any other
///   relative directory is below `current_dir`. If the home directory or `current_dir` is needed
///   and missing, there are no candidates.
/// - The value of a directory ends in a slash.
/// - A name that begins with a dot is a hidden candidate.
/// - For an empty word, `.` is a candidate if the current directory passes the test. It is visible
///   and has no slash.
/// - An unreadable directory has no names.
///
/// # Errors
///
/// `AllocError` if an allocation fails.
pub fn path_candidates<D: Folder, T: PathTest<D>>(
    alloc: Global,
    folder: &D,
    test: &T,
    current_dir: Option<&str>,
    word: &str,
) -> Result<Vec<CompletionCandidate>, AllocError>
    ensures { IfOk result (λ candidates. ArePathCandidates (D.facts folder.now)
        (T.may_return test.now folder.now) (option_copied current_dir.entry) word.now
        candidates.items) }
{
    match search_root(alloc, folder.home(), current_dir, word_prefix(word))? {
        Some(root) => candidates_at(alloc, folder, test, root.as_str(), word),
        None => Ok(Vec::new(alloc)),
    }
}

// Returns the candidates for a word from the names at the root.
fn candidates_at<D: Folder, T: PathTest<D>>(
    alloc: Global,
    folder: &D,
    test: &T,
    root: &str,
    word: &str,
) -> Result<Vec<CompletionCandidate>, AllocError>
    ensures { IfOk result (λ candidates. AreCandidatesAt (D.facts folder.now)
        (T.may_return test.now folder.now) word.now root.now candidates.items) }
{
    let dot = dot_candidate(alloc, folder, test, root, word)?;
    let names = names_at(alloc, folder, root)?;
    let entries = inspect_all(alloc, folder, test, root, word_name(word), names)?;
    in_groups(alloc, dot, word_prefix(word), entries.as_slice())
}

// Returns the names at the root, or none if the root is unreadable.
fn names_at<D: Folder>(alloc: Global, folder: &D, root: &str) -> Result<Vec<String>, AllocError>
    ensures { IfOk result (λ names. MayList ((D.facts folder.now).names root.now)
        (map string_bytes names.items)) }
{
    match folder.names(alloc, root) {
        Ok(names) => Ok(names),
        Err(FolderError::Unreadable) => Ok(Vec::new(alloc)),
        Err(FolderError::Memory) => Err(AllocError),
    }
}

// Looks once at each name that begins with `start`, and at no others. Returns the answers of the
// directory and of the test.
fn inspect_all<D: Folder, T: PathTest<D>>(
    alloc: Global,
    folder: &D,
    test: &T,
    root: &str,
    start: &str,
    names: Vec<String>,
) -> Result<Vec<Entry>, AllocError>
    ensures named { IfOk result (λ entries.
        map entry_name entries.items ≡ filter (begins start.now) (map string_bytes names.items)) }
    ensures entries { IfOk result (λ entries. AllByRecursion
        (IsEntry (D.facts folder.now).is_dir (T.may_return test.now folder.now) root.now)
        entries.items) }
{
    let mut entries = Vec::new(alloc);
    for name in names {
        if !begins_with(name.as_str(), start) {
            continue;
        }
        entries.push(inspect(alloc, folder, test, root, name)?)?;
    }
    Ok(entries)
}

// Looks at one name. Returns the answers of the directory and of the test.
fn inspect<D: Folder, T: PathTest<D>>(
    alloc: Global,
    folder: &D,
    test: &T,
    root: &str,
    name: String,
) -> Result<Entry, AllocError>
    ensures name { IfOk result (λ entry. entry.name ≡ string_bytes name) }
    ensures entry { IfOk result
        (IsEntry (D.facts folder.now).is_dir (T.may_return test.now folder.now) root.now) }
{
    let path = join(alloc, root, name.as_str())?;
    let is_folder = folder.is_dir(path.as_str());
    let passes = test.passes_known(folder, path.as_str(), is_folder);
    Ok(Entry {
        name: Text::from(name),
        is_folder,
        passes,
    })
}

// Returns the candidate `.`, if the word is empty and the root passes. For any other word, the test
// is not called.
fn dot_candidate<D: Folder, T: PathTest<D>>(
    alloc: Global,
    folder: &D,
    test: &T,
    root: &str,
    word: &str,
) -> Result<Vec<CompletionCandidate>, AllocError>
    ensures { IfOk result (λ found. (root_passes : Bool)
        × (word.now ≡ [] → T.may_return test.now folder.now root.now root_passes)
        × (found.items ≡ dot_candidate word.now root_passes)) }
{
    let mut found = Vec::new(alloc);
    if word.is_empty() && test.passes(folder, root) {
        found.push(CompletionCandidate::new(String::from_str(alloc, ".")?))?;
        return Ok(found);
    }
    Ok(found)
}

// Returns the candidates in `wanted` and of the entries that pass, sorted, then those of the other
// directories, sorted.
#[tactic(auto, unfolding(crate::specs::PathCandidates::groups))]
fn in_groups(
    alloc: Global,
    mut wanted: Vec<CompletionCandidate>,
    prefix: &str,
    entries: &[Entry],
) -> Result<Vec<CompletionCandidate>, AllocError>
    ensures { IfOk result (λ candidates.
        candidates.items ≡ groups wanted.items prefix.now entries.now) }
{
    push_wanted(&mut wanted, alloc, prefix, entries)?;
    sort_candidates(&mut wanted)?;
    let mut unwanted = unwanted_folders(alloc, prefix, entries)?;
    sort_candidates(&mut unwanted)?;
    wanted.append(&mut unwanted)?;
    Ok(wanted)
}

// Adds the candidates of the entries that pass.
fn push_wanted(
    found: &mut Vec<CompletionCandidate>,
    alloc: Global,
    prefix: &str,
    entries: &[Entry],
) -> Result<(), AllocError>
    ensures { OnOk result (found.new.items ≡ found.old.items
        ++ map (path_candidate prefix.now) (filter is_wanted entries.now)) }
{
    for entry in entries {
        if !entry.passes {
            continue;
        }
        found.push(path_candidate(alloc, prefix, entry)?)?;
    }
    Ok(())
}

// Returns the candidates of the directories that do not pass.
fn unwanted_folders(
    alloc: Global,
    prefix: &str,
    entries: &[Entry],
) -> Result<Vec<CompletionCandidate>, AllocError>
    ensures { IfOk result (λ found. found.items
        ≡ map (path_candidate prefix.now) (filter is_unwanted_folder entries.now)) }
{
    let mut found = Vec::new(alloc);
    for entry in entries {
        if entry.passes || !entry.is_folder {
            continue;
        }
        found.push(path_candidate(alloc, prefix, entry)?)?;
    }
    Ok(found)
}

// Returns the candidate of an entry, after the prefix that the user typed.
fn path_candidate(
    alloc: Global,
    prefix: &str,
    entry: &Entry,
) -> Result<CompletionCandidate, AllocError>
    ensures { IfOk result (λ candidate. candidate ≡ path_candidate prefix.now entry.now) }
{
    let name = entry.name.as_str();
    let hidden = begins_with_dot(name);
    let value = mark_folder(join(alloc, prefix, name)?, entry.is_folder)?;
    Ok(CompletionCandidate::new(value).hide(hidden))
}

fn begins_with_dot(name: &str) -> bool
    ensures { result ≡ (slice_index name.now 0 == dot) }
{
    name.as_bytes().first() == Some(&b'.')
}

// Adds a slash to the path of a directory.
fn mark_folder(mut path: String, is_folder: bool) -> Result<String, AllocError>
    ensures { IfOk result (λ marked. string_bytes marked
        ≡ string_bytes path ++ folder_mark is_folder) }
{
    if is_folder {
        path.push('/')?;
        return Ok(path);
    }
    Ok(path)
}
