//! Looks into a JSON value.

ghost use Rattle.std.specs.Prelude.{◌≡◌, is_some, map, option_and_then};
ghost use Rattle.std.specs.List.{list_all, list_any};
ghost use Rattle.std.specs.Option.{option_map};
ghost use Rattle.std.specs.Str.{bytes_eq};
ghost use Rattle.complgen_tree_file.specs.JsonSeen.{items_view, view};
ghost use Rattle.complgen_tree_file.specs.JsonKeys.{has_only};
ghost use Rattle.json.specs.Find.{get_member};
ghost use Rattle.json.specs.Value.{members_view, value_view};
ghost use Rattle.serde_json.specs.Find.{as_array, as_bool, as_null, as_number, as_str, as_u64, get};

use crate::json_values::number::whole;
use json::Value;

/// Returns whether `value` is `null`.
pub fn is_null(value: &Value<'_>) -> bool
    ensures { result ≡ is_some (as_null (view value.now)) }
{
    value.is_null()
}

/// Returns the text of a string, or `None` for any other value.
pub fn text<'t>(value: &Value<'t>) -> Option<&'t str>
    ensures { option_map (λ text. text.now) result ≡ as_str (view value.now) }
{
    value.as_str()
}

/// Returns the value of `true` or `false`, or `None` for any other value.
pub fn boolean(value: &Value<'_>) -> Option<bool>
    ensures { result ≡ as_bool (view value.now) }
{
    value.as_bool()
}

/// Returns the value of a whole number that fits in 64 bits, or `None` for any other value.
#[tactic(auto, using(crate::proofs::JsonFound::whole_seen))]
pub fn whole_number(value: &Value<'_>) -> Option<u64>
    ensures { result ≡ option_and_then as_u64 (as_number (view value.now)) }
{
    whole(value.as_number()?)
}

/// Returns the items of a list, or `None` for any other value.
pub fn items<'v, 't>(value: &'v Value<'t>) -> Option<&'v Vec<Value<'t>>>
    ensures { option_map (λ items. items_view items.now.items) result
        ≡ as_array (view value.now) }
{
    match value {
        Value::Array(items) => Some(items),
        _ => None,
    }
}

/// Returns the value at `key` of an object, the last one if there are several. Returns `None` if
/// the object has no such key, or `value` is not an object.
pub fn member<'v, 't>(value: &'v Value<'t>, key: &str) -> Option<&'v Value<'t>>
    ensures { option_map (λ found. view found.now) result ≡ get key.now (view value.now) }
{
    match value {
        Value::Object(members) => last_member(members, key),
        _ => None,
    }
}

// Returns the value of the last member with the key.
fn last_member<'v, 't>(members: &'v Vec<(&'t str, Value<'t>)>, key: &str) -> Option<&'v Value<'t>>
    ensures { option_map (λ found. value_view found.now) result
        ≡ get_member key.now (members_view members.now.items) }
{
    let mut left = members.len();
    while left > 0 {
        left -= 1;
        let member = &members[left];
        if is_same(member.0, key) {
            return Some(&member.1);
        }
    }
    None
}

/// Returns whether `value` is an object that has only keys of the list `keys`.
pub fn has_only_keys(value: &Value<'_>, keys: &[&str]) -> bool
    ensures { result ≡ has_only (map (λ key. key.now) keys.now) (view value.now) }
{
    match value {
        Value::Object(members) => have_only_keys(members.as_slice(), keys),
        _ => false,
    }
}

fn have_only_keys(members: &[(&str, Value<'_>)], keys: &[&str]) -> bool
    ensures { result ≡ list_all (λ member. list_any (λ known. bytes_eq known.now member.0.now)
        keys.now) members.now }
{
    members.iter().all(|member| is_among(keys, member.0))
}

fn is_among(keys: &[&str], key: &str) -> bool
    ensures { result ≡ list_any (λ known. bytes_eq known.now key.now) keys.now }
{
    keys.iter().any(|known| is_same(*known, key))
}

// Most keys differ in length, and comparing the bytes is a call.
#[inline(always)]
pub fn is_same(known: &str, key: &str) -> bool
    ensures { result ≡ bytes_eq known.now key.now }
{
    known.len() == key.len() && known == key
}
