//! Finds the values at the keys of an object in one pass.

ghost use Rattle.std.specs.Prelude.{◌≡◌, ◌&&◌, ◌≤◌, ◌<◌, IfNone, IfSome, None, [], false, get_or, length, map, option_map, true};
ghost use Rattle.std.specs.List.{list_all, list_any};
ghost use Rattle.std.specs.Str.{bytes_eq};
ghost use Rattle.serde_json.specs.Data.{Members, no_members, put};
ghost use Rattle.serde_json.specs.Find.{get};
ghost use Rattle.complgen_tree_file.specs.JsonKeys.{has_only};
ghost use Rattle.complgen_tree_file.specs.JsonSeen.{members_view, view};
ghost use Rattle.complgen_tree_file.specs.JsonSlots.{Hold, are_distinct, held, members_at, values_at};

use crate::json_values::look::is_same;
use json::Value;

/// Finds the values of `value` at the keys of the list `keys`, and puts each into the slot of its
/// key's index. Returns whether `value` is an object that has no other keys.
pub fn find_keys<'v, 't>(
    slots: &mut [Option<&'v Value<'t>>],
    value: &'v Value<'t>,
    keys: &[&str],
) -> bool
    requires distinct { are_distinct (map (λ key. key.now) keys.now) ≡ true }
    requires few { length keys.now ≤ length slots.old }
    requires empty { Hold slots.old (members_at (map (λ key. key.now) keys.now) no_members) }
    ensures known { result ≡ has_only (map (λ key. key.now) keys.now) (view value.now) }
    ensures found { Hold slots.new (values_at (map (λ key. key.now) keys.now) (view value.now)) }
{
    match value {
        Value::Object(members) => fill(slots, members, keys),
        _ => false,
    }
}

// Puts the value of each member into the slot of its key. Returns whether there are no other keys.
fn fill<'v, 't>(
    slots: &mut [Option<&'v Value<'t>>],
    members: &'v Vec<(&'t str, Value<'t>)>,
    keys: &[&str],
) -> bool
    requires distinct { are_distinct (map (λ key. key.now) keys.now) ≡ true }
    requires few { length keys.now ≤ length slots.old }
    requires empty { Hold slots.old (members_at (map (λ key. key.now) keys.now) no_members) }
    ensures known { result ≡ list_all (λ member. list_any
        (λ known. bytes_eq known.now member.0.now) keys.now) members.now.items }
    ensures held { Hold slots.new
        (members_at (map (λ key. key.now) keys.now) (members_view members.now.items)) }
{
    let mut are_known = true;
    for member in members {
        are_known = both(place(slots, keys, member.0, &member.1), are_known);
    }
    are_known
}

#[inline(always)]
fn both(first: bool, second: bool) -> bool
    ensures { result ≡ (first && second) }
{
    first && second
}

// Puts a value into the slot of its key. Returns whether the key is one of `keys`.
fn place<'v, 't>(
    slots: &mut [Option<&'v Value<'t>>],
    keys: &[&str],
    key: &str,
    value: &'v Value<'t>,
) -> bool
    requires distinct { are_distinct (map (λ key. key.now) keys.now) ≡ true }
    requires few { length keys.now ≤ length slots.old }
    ensures known { result ≡ list_any (λ known. bytes_eq known.now key.now) keys.now }
    ensures same_count { length slots.new ≡ length slots.old }
    ensures placed { (ms : Members)
        → Hold slots.old (members_at (map (λ key. key.now) keys.now) ms)
        → Hold slots.new
        (members_at (map (λ key. key.now) keys.now) (put key.now (view value.now) ms)) }
{
    match position(keys, key) {
        Some(index) => {
            slots[index] = Some(value);
            true
        }
        None => false,
    }
}

// Returns the index of the first of `keys` that is `key`.
fn position(keys: &[&str], key: &str) -> Option<usize>
    ensures some { IfSome result (λ k. (k < length keys.now)
        × (bytes_eq (get_or (map (λ key. key.now) keys.now) k []) key.now ≡ true)
        × (list_any (λ known. bytes_eq known.now key.now) keys.now ≡ true)) }
    ensures none { IfNone result
        (list_any (λ known. bytes_eq known.now key.now) keys.now ≡ false) }
{
    let mut index = 0;
    while index < keys.len() {
        if is_same(keys[index], key) {
            return Some(index);
        }
        index += 1;
    }
    None
}
