//! Checks that the numbers of a value are in range.

ghost use Rattle.std.specs.Prelude.{◌≡◌};
ghost use Rattle.complgen_tree_file.specs.JsonSeen.{are_in_range, is_in_range as in_range, members_are_in_range};
ghost use Rattle.json.specs.Value.{items_view, members_view, value_view};

use crate::json_values::number::is_in_range;
use json::Value;

/// Returns whether each number of `value` is in range.
// Inlined into the loops, so that a value without items costs no call.
#[cycle(range)]
#[inline(always)]
pub fn has_range(value: &Value<'_>) -> bool
    ensures { result ≡ in_range (value_view value.now) }
{
    match value {
        Value::Number(text) => is_in_range(*text),
        Value::Array(items) => have_range(items),
        Value::Object(members) => members_have_range(members),
        _ => true,
    }
}

#[cycle(range)]
#[inline(never)]
fn have_range(items: &Vec<Value<'_>>) -> bool
    ensures { result ≡ are_in_range (items_view items.now.items) }
{
    for item in items {
        if !has_range(item) {
            return false;
        }
    }
    true
}

#[cycle(range)]
#[inline(never)]
fn members_have_range(members: &Vec<(&str, Value<'_>)>) -> bool
    ensures { result ≡ members_are_in_range (members_view members.now.items) }
{
    for member in members {
        if !has_range(&member.1) {
            return false;
        }
    }
    true
}
