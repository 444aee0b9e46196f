//! Reads the parts that all objects have: known keys only, a text that they need, and values at
//! keys.

ghost use Rattle.std.specs.Prelude.{◌≡◌, ◌&&◌, IfOk, [], is_some, map, not};
ghost use Rattle.std.specs.Prelude.{option_and_then, unwrap_or};
ghost use Rattle.std.specs.List.{list_all, list_any};
ghost use Rattle.std.specs.Str.{bytes_eq};
ghost use Rattle.serde_json.specs.Find.{as_object, as_str, get};
ghost use Rattle.complgen_tree_file.specs.JsonKeys.{has_only};
ghost use Rattle.complgen_tree_file.specs.JsonSeen.{view};
ghost use Rattle.complgen_tree_file.specs.JsonSlots.{held};
ghost use Rattle.complgen_tree_file.specs.Faults.{FindsUnless, Makes, Reads};
ghost use Rattle.complgen_tree_file.specs.Kinds.{kind_keys, needed_key};
ghost use Rattle.complgen_tree_file.specs.TreeForm.{fits_at, is_object_of, text_at};

use crate::faults::{FaultKind, Faults, Step};
use crate::json_values::{Value, member};
use crate::kinds::{ObjectKind, ValueKind};
use crate::values::FromValue;
use cc_base::Text;
use std::alloc::AllocError;

/// Reads `value`, to which `step` leads. Returns `None` if something is wrong with it.
///
/// # Errors
///
/// `AllocError` if an allocation fails.
pub fn inside<'t, T: FromValue>(
    faults: &mut Faults<'t>,
    step: Step<'t>,
    value: &Value<'t>,
) -> Result<Option<T>, AllocError>
    ensures { IfOk result (λ found. Reads (T.form (view value.now)) found
        faults.old faults.new) }
{
    let before = faults.count();
    match T::read(faults, value)? {
        Some(found) => Ok(Some(found)),
        None => {
            faults.put_before(before, step)?;
            Ok(None)
        }
    }
}

/// Reads the value at `key` of the object `tree`. Returns `None` if there is none, or if something
/// is wrong with it.
///
/// # Errors
///
/// `AllocError` if an allocation fails.
#[tactic(auto, unfolding(crate::specs::TreeForm::fits_at))]
pub fn at<'t, T: FromValue>(
    faults: &mut Faults<'t>,
    tree: &Value<'t>,
    key: &'static str,
) -> Result<Option<T>, AllocError>
    ensures { IfOk result (λ found. Makes (option_and_then T.form (get key.now (view tree.now)))
        (λ before. before && fits_at key.now T.form (view tree.now)) found
        faults.old faults.new) }
{
    match member(tree, key) {
        Some(value) => inside::<T>(faults, Step::Key(key), value),
        None => Ok(None),
    }
}

/// Reads the text that each object of `kind` needs. The value at its key is in `slot`, and
/// `has_only_keys` is true if `tree` is an object that has only keys of its kind. If there is no
/// such text, the result is empty.
///
/// # Errors
///
/// `AllocError` if an allocation fails.
#[tactic(auto, using(crate::proofs::FaultLemmas::only_objects))]
pub fn needed_text<'t>(
    faults: &mut Faults<'t>,
    tree: &Value<'t>,
    slot: Option<&Value<'t>>,
    has_only_keys: bool,
    kind: ObjectKind,
) -> Result<Text, AllocError>
    requires known { has_only_keys ≡ has_only (kind_keys kind) (view tree.now) }
    requires found { held slot ≡ get (needed_key kind) (view tree.now) }
    ensures { IfOk result (λ text. Makes (text_at (needed_key kind) (view tree.now))
        (is_object_of (kind_keys kind) (needed_key kind) (view tree.now)) text
        faults.old faults.new) }
{
    note_other_keys(faults, tree, has_only_keys, kind)?;
    match slot {
        Some(value) => text_inside(faults, kind.needed(), value),
        None => no_text(faults, tree, kind),
    }
}

// Reads the text at `key`. If it is no text, the result is empty.
fn text_inside<'t>(
    faults: &mut Faults<'t>,
    key: &'static str,
    value: &Value<'t>,
) -> Result<Text, AllocError>
    ensures { IfOk result (λ text. Makes (unwrap_or (as_str (view value.now)) [])
        (λ before. before && is_some (as_str (view value.now))) text faults.old faults.new) }
{
    match inside::<Text>(faults, Step::Key(key), value)? {
        Some(text) => Ok(text),
        None => Text::copy_of(faults.allocator(), ""),
    }
}

// Returns an empty text, and notes that an object of `kind` lacks the key that it needs.
fn no_text<'t>(
    faults: &mut Faults<'t>,
    tree: &Value<'t>,
    kind: ObjectKind,
) -> Result<Text, AllocError>
    ensures { IfOk result (λ text. Makes []
        (λ before. before && not (is_some (as_object (view tree.now)))) text
        faults.old faults.new) }
{
    note_missing(faults, tree, kind)?;
    Text::copy_of(faults.allocator(), "")
}

// Notes that an object of `kind` lacks the key that it needs. That a value is not an object is
// noted with its keys.
fn note_missing<'t>(
    faults: &mut Faults<'t>,
    tree: &Value<'t>,
    kind: ObjectKind,
) -> Result<(), AllocError>
    ensures { IfOk result (λ _. FindsUnless (not (is_some (as_object (view tree.now))))
        faults.old faults.new) }
{
    if !is_object(tree) {
        return Ok(());
    }
    faults.note(FaultKind::MissingKey(kind, kind.needed()))
}

fn is_object(value: &Value<'_>) -> bool
    ensures { result ≡ is_some (as_object (view value.now)) }
{
    matches!(value, Value::Object(_))
}

// Notes each key of `tree` that objects of `kind` don't have, or that `tree` is not an object,
// unless it has only their keys.
fn note_other_keys<'t>(
    faults: &mut Faults<'t>,
    tree: &Value<'t>,
    has_only_keys: bool,
    kind: ObjectKind,
) -> Result<(), AllocError>
    requires { has_only_keys ≡ has_only (kind_keys kind) (view tree.now) }
    ensures { IfOk result (λ _. FindsUnless (has_only (kind_keys kind) (view tree.now))
        faults.old faults.new) }
{
    if has_only_keys {
        return Ok(());
    }
    note_keys(faults, tree, kind.keys(), kind)
}

// Notes each key of `tree` that is not one of `keys`, or that `tree` is not an object.
fn note_keys<'t>(
    faults: &mut Faults<'t>,
    tree: &Value<'t>,
    keys: &[&str],
    kind: ObjectKind,
) -> Result<(), AllocError>
    ensures { IfOk result (λ _. FindsUnless
        (has_only (map (λ key. key.now) keys.now) (view tree.now))
        faults.old faults.new) }
{
    match tree {
        Value::Object(members) => note_members(faults, members.as_slice(), keys, kind),
        _ => faults.note(FaultKind::OtherKind(ValueKind::Object(kind))),
    }
}

fn note_members<'t>(
    faults: &mut Faults<'t>,
    members: &[(&'t str, Value<'t>)],
    keys: &[&str],
    kind: ObjectKind,
) -> Result<(), AllocError>
    ensures { IfOk result (λ _. FindsUnless (list_all (λ member. list_any
        (λ known. bytes_eq known.now member.0.now) keys.now) members.now) faults.old faults.new) }
{
    for (index, member) in members.iter().enumerate() {
        note_member(faults, member.0, index, keys, kind)?;
    }
    Ok(())
}

fn note_member<'t>(
    faults: &mut Faults<'t>,
    key: &'t str,
    index: usize,
    keys: &[&str],
    kind: ObjectKind,
) -> Result<(), AllocError>
    ensures { IfOk result (λ _. FindsUnless
        (list_any (λ known. bytes_eq known.now key.now) keys.now)
        faults.old faults.new) }
{
    if is_among(keys, key) {
        return Ok(());
    }
    faults.note_at(Step::Member(key, index), FaultKind::UnknownKey(kind))
}

fn is_among(keys: &[&str], key: &str) -> bool
    ensures { result ≡ list_any (λ known. bytes_eq known.now key.now) keys.now }
{
    for known in keys {
        if *known == key {
            return true;
        }
    }
    false
}
