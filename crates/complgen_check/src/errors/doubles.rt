//! Finds members of an object that a later member of the same key hides.

ghost use Rattle.std.specs.Prelude.{◌≡◌, ◌++◌, [], IfOk, map};
ghost use Rattle.json.specs.Value.{items_view, members_view, value_view};
ghost use Rattle.complgen_check.specs.FileChecks.{hidden_list};
ghost use Rattle.complgen_check.specs.Doubles.{has_key, hidden_in, hidden_in_items};
ghost use Rattle.complgen_check.specs.Doubles.{hidden_in_members, if_hidden, shown_paths};
ghost use Rattle.complgen_check.specs.Findings.{shown, shown_double};
ghost use Rattle.complgen_check.specs.Places.{shown_step};

use crate::errors::finding::{Finding, Level, Source};
use crate::errors::texts::double_text;
use complgen_tree_file::{Step, Value};
use std::alloc::{AllocError, Global};

/// Returns a warning for each member in the value of `source` that a later member of the same key
/// hides, in the order of the file.
///
/// # Errors
///
/// `AllocError` if an allocation fails.
pub(crate) fn hidden_members(
    alloc: Global,
    source: &mut Source<'_>,
) -> Result<Vec<Finding>, AllocError>
    ensures { IfOk result (λ found. map shown found.items
        ≡ hidden_list (value_view source.old.value)) }
{
    let paths = hidden_paths(alloc, &source.value)?;
    found_at(alloc, source, paths)
}

// Returns a warning about the hidden member at each of `paths`.
fn found_at(
    alloc: Global,
    source: &mut Source<'_>,
    paths: Vec<Vec<Step<'_>>>,
) -> Result<Vec<Finding>, AllocError>
    ensures { IfOk result (λ found. map shown found.items
        ≡ map shown_double (shown_paths paths.entry.items)) }
{
    let mut found = Vec::new(alloc);
    for path in paths {
        found.push(hidden_member(alloc, source, path.as_slice())?)?;
    }
    Ok(found)
}

// Returns the warning that the member at `path` is hidden.
fn hidden_member(
    alloc: Global,
    source: &mut Source<'_>,
    path: &[Step<'_>],
) -> Result<Finding, AllocError>
    ensures { IfOk result (λ finding. shown finding ≡ shown_double (map shown_step path.now)) }
{
    let text = double_text(alloc, path)?;
    source.finding(alloc, Level::Warning, path, true, text)
}

// Returns the paths to all hidden members in `value`, in the order of the file.
fn hidden_paths<'t>(alloc: Global, value: &Value<'t>) -> Result<Vec<Vec<Step<'t>>>, AllocError>
    ensures { IfOk result (λ paths. shown_paths paths.items
        ≡ hidden_in [] (value_view value.now)) }
{
    let mut walk = Walk {
        alloc,
        path: Vec::new(alloc),
        found: Vec::new(alloc),
    };
    find(&mut walk, value)?;
    Ok(walk.found)
}

// A walk through a value, with its current path and the paths that it has found.
#[derive(Drop)]
struct Walk<'t> {
    alloc: Global,
    path: Vec<Step<'t>>,
    found: Vec<Vec<Step<'t>>>,
}

#[cycle(find)]
fn find<'t>(walk: &mut Walk<'t>, value: &Value<'t>) -> Result<(), AllocError>
    ensures path { IfOk result (λ _. walk.new.path.items ≡ walk.old.path.items) }
    ensures found { IfOk result (λ _. shown_paths walk.new.found.items ≡ shown_paths walk.old.found.items
        ++ hidden_in (map shown_step walk.old.path.items) (value_view value.now)) }
{
    match value {
        Value::Array(items) => find_in_items(walk, items),
        Value::Object(members) => find_in_members(walk, members),
        _ => Ok(()),
    }
}

#[cycle(find)]
fn find_in_items<'t>(walk: &mut Walk<'t>, items: &Vec<Value<'t>>) -> Result<(), AllocError>
    ensures path { IfOk result (λ _. walk.new.path.items ≡ walk.old.path.items) }
    ensures found { IfOk result (λ _. shown_paths walk.new.found.items ≡ shown_paths walk.old.found.items
        ++ hidden_in_items (map shown_step walk.old.path.items) 0
        (items_view items.now.items)) }
{
    for (index, item) in items.iter().enumerate() {
        walk.path.push(Step::Item(index))?;
        find(walk, item)?;
        let _ = walk.path.pop();
    }
    Ok(())
}

#[cycle(find)]
fn find_in_members<'t>(
    walk: &mut Walk<'t>,
    members: &Vec<(&'t str, Value<'t>)>,
) -> Result<(), AllocError>
    ensures path { IfOk result (λ _. walk.new.path.items ≡ walk.old.path.items) }
    ensures found { IfOk result (λ _. shown_paths walk.new.found.items ≡ shown_paths walk.old.found.items
        ++ hidden_in_members (map shown_step walk.old.path.items)
        (members_view members.now.items)) }
{
    for (index, member) in members.iter().enumerate() {
        walk.path.push(Step::Member(member.0, index))?;
        note_if_hidden(walk, &members[index + 1..], member.0)?;
        find(walk, &member.1)?;
        let _ = walk.path.pop();
    }
    Ok(())
}

// Notes the path of `walk` if one of the members `later` has the key of the member there.
fn note_if_hidden(
    walk: &mut Walk<'_>,
    later: &[(&str, Value<'_>)],
    key: &str,
) -> Result<(), AllocError>
    ensures path { IfOk result (λ _. walk.new.path.items ≡ walk.old.path.items) }
    ensures found { IfOk result (λ _. shown_paths walk.new.found.items ≡ shown_paths walk.old.found.items
        ++ if_hidden (has_key key.now (members_view later.now))
        (map shown_step walk.old.path.items)) }
{
    if !has_key(later, key) {
        return Ok(());
    }
    let path = Vec::from_slice(walk.alloc, walk.path.as_slice())?;
    walk.found.push(path)?;
    Ok(())
}

fn has_key(members: &[(&str, Value<'_>)], key: &str) -> bool
    ensures { result ≡ has_key key.now (members_view members.now) }
{
    for member in members {
        if member.0 == key {
            return true;
        }
    }
    false
}
