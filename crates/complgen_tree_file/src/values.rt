//! Reads the values of a tree file, each kind by a type of its own.

ghost use Rattle.std.specs.Prelude.{◌≡◌, ◌<◌, ◌&&◌, IfOk, None, get_or, option_and_then};
ghost use Rattle.std.specs.Str.{chars};
ghost use Rattle.serde_json.specs.Find.{as_str, get};
ghost use Rattle.complgen_tree_file.specs.JsonSeen.{view};
ghost use Rattle.complgen_tree_file.specs.JsonSlots.{held};
ghost use Rattle.complgen_tree_file.specs.Faults.{Makes, Reads};
ghost use Rattle.complgen_tree_file.specs.TreeForm.{action_of, bound_of, character_of};
ghost use Rattle.complgen_tree_file.specs.TreeForm.{field_from, fits_at, hint_of, number_of, only};
ghost use Rattle.complgen_tree_file.specs.TreeForm.{protocol_of, range_of, with_item};

use crate::faults::{FaultKind, Faults, Step};
use crate::json_values::{self, Value, is_null};
use crate::kinds::{ValueKind, each_action, each_hint, each_protocol};
use crate::objects::inside;
use cc_arg::{ArgAction, ValueHint, ValueRange, ValuesProtocol};
use cc_base::{Items, Text};
use std::alloc::AllocError;

/// A type that a value of a tree file is read into.
pub trait FromValue: Drop {
    ghost use Rattle.std.specs.Prelude.{Option, IfOk};
    ghost use Rattle.serde_json.specs.Data.{Data};
    ghost use Rattle.complgen_tree_file.specs.JsonSeen.{view};
    ghost use Rattle.complgen_tree_file.specs.Faults.{Reads};

    // The result of reading a value; `None` if the value is of another kind.
    ghost form: { Data → Option Self };

    /// Reads `value`. If it is of another kind, notes what is wrong, and returns `None`.
    ///
    /// # Errors
    ///
    /// `AllocError` if an allocation fails.
    fn read<'t>(faults: &mut Faults<'t>, value: &Value<'t>) -> Result<Option<Self>, AllocError>
        ensures { IfOk result (λ found. Reads (form (view value.now)) found
            faults.old faults.new) };

    /// Returns the kind of the values; for a list, the kind of its items.
    fn kind() -> ValueKind;
}

/// The most keys that an object may have.
pub const MOST_KEYS: usize = 30;

/// Sets `field` to the value at `key` of `_object`, which is in the slot `index`. Leaves it unchanged
/// if the object lacks the key, or if something is wrong with the value, which it notes. Only the
/// contract reads `_object`.
///
/// # Errors
///
/// `AllocError` if an allocation fails.
#[inline(always)]
#[tactic(auto, unfolding(crate::specs::TreeForm::field_from, crate::specs::TreeForm::fits_at))]
pub fn set<'t, T: FromValue>(
    field: &mut T,
    faults: &mut Faults<'t>,
    _object: &Value<'t>,
    key: &'static str,
    slots: &[Option<&Value<'t>>; MOST_KEYS],
    index: usize,
) -> Result<(), AllocError>
    requires inside { index < 30 }
    requires found { held (get_or slots.now index None) ≡ get key.now (view _object.now) }
    ensures { IfOk result (λ _. Makes (field_from key.now T.form (view _object.now) field.old)
        (λ before. before && fits_at key.now T.form (view _object.now)) field.new
        faults.old faults.new) }
{
    let Some(value) = slots[index] else {
        return Ok(());
    };
    match inside::<T>(faults, Step::Key(key), value)? {
        Some(found) => {
            *field = found;
            Ok(())
        }
        None => Ok(()),
    }
}

// Returns `found`. If it is `None`, notes that a value of `kind` was expected.
fn expected<T: Drop>(
    faults: &mut Faults<'_>,
    found: Option<T>,
    kind: ValueKind,
) -> Result<Option<T>, AllocError>
    ensures { IfOk result (λ same. Reads found same faults.old faults.new) }
{
    match found {
        Some(found) => Ok(Some(found)),
        None => {
            faults.note(FaultKind::OtherKind(kind))?;
            Ok(None)
        }
    }
}

/// Reads a text.
impl FromValue for Text {
    ghost use Rattle.serde_json.specs.Find.{as_str};

    ghost form = { as_str };

    fn read<'t>(faults: &mut Faults<'t>, value: &Value<'t>) -> Result<Option<Text>, AllocError> {
        match json_values::text(value) {
            Some(text) => Ok(Some(Text::copy_of(faults.allocator(), text)?)),
            None => expected(faults, None, ValueKind::Text),
        }
    }

    fn kind() -> ValueKind {
        ValueKind::Text
    }
}

/// Reads `true` or `false`.
impl FromValue for bool {
    ghost use Rattle.serde_json.specs.Find.{as_bool};

    ghost form = { as_bool };

    fn read<'t>(faults: &mut Faults<'t>, value: &Value<'t>) -> Result<Option<bool>, AllocError> {
        expected(faults, json_values::boolean(value), ValueKind::Boolean)
    }

    fn kind() -> ValueKind {
        ValueKind::Boolean
    }
}

/// Reads a whole number that fits in 64 bits.
impl FromValue for usize {
    ghost use Rattle.complgen_tree_file.specs.TreeForm.{number_of};

    ghost form = { number_of };

    fn read<'t>(faults: &mut Faults<'t>, value: &Value<'t>) -> Result<Option<usize>, AllocError> {
        expected(faults, number(value), ValueKind::WholeNumber)
    }

    fn kind() -> ValueKind {
        ValueKind::WholeNumber
    }
}

fn number(value: &Value<'_>) -> Option<usize>
    ensures { result ≡ number_of (view value.now) }
{
    let number = json_values::whole_number(value)?;
    Some(number as usize)
}

/// Reads a text of one character.
impl FromValue for char {
    ghost use Rattle.complgen_tree_file.specs.TreeForm.{character_of};

    ghost form = { character_of };

    fn read<'t>(faults: &mut Faults<'t>, value: &Value<'t>) -> Result<Option<char>, AllocError> {
        expected(faults, character(value), ValueKind::Character)
    }

    fn kind() -> ValueKind {
        ValueKind::Character
    }
}

fn character(value: &Value<'_>) -> Option<char>
    ensures { result ≡ character_of (view value.now) }
{
    only_character(json_values::text(value)?)
}

// Returns the character of a text that has one character.
fn only_character(text: &str) -> Option<char>
    ensures { result ≡ only (chars text.now) }
{
    let mut characters = text.chars();
    let first = characters.next()?;
    match characters.next() {
        Some(_) => None,
        None => Some(first),
    }
}

/// Reads the inner type as `Some`.
impl<T: FromValue> FromValue for Option<T> {
    ghost use Rattle.complgen_tree_file.specs.TreeForm.{given};

    ghost form = { given T.form };

    #[tactic(auto, unfolding(crate::specs::TreeForm::given))]
    fn read<'t>(
        faults: &mut Faults<'t>,
        value: &Value<'t>,
    ) -> Result<Option<Option<T>>, AllocError> {
        match T::read(faults, value)? {
            Some(found) => Ok(Some(Some(found))),
            None => Ok(None),
        }
    }

    fn kind() -> ValueKind {
        T::kind()
    }
}

/// Reads a list of the item type.
impl<T: FromValue> FromValue for Items<T> {
    ghost use Rattle.complgen_tree_file.specs.TreeForm.{list_of};

    ghost form = { list_of T.form };

    #[tactic(auto, unfolding(crate::specs::TreeForm::list_of))]
    fn read<'t>(
        faults: &mut Faults<'t>,
        value: &Value<'t>,
    ) -> Result<Option<Items<T>>, AllocError> {
        let Some(items) = json_values::items(value) else {
            faults.note(FaultKind::NoList(T::kind()))?;
            return Ok(None);
        };
        let mut list = Some(Items::new(faults.allocator()));
        for (index, item) in items.iter().enumerate() {
            let found = inside::<T>(faults, Step::Item(index), item)?;
            list = longer(list, found)?;
        }
        Ok(list)
    }

    fn kind() -> ValueKind {
        T::kind()
    }
}

// Appends an item to a list, if both could be read.
fn longer<T: Drop>(list: Option<Items<T>>, item: Option<T>) -> Result<Option<Items<T>>, AllocError>
    ensures { IfOk result (λ longer. longer ≡ with_item list item) }
{
    let Some(mut list) = list else {
        return Ok(None);
    };
    let Some(item) = item else {
        return Ok(None);
    };
    list.push(item)?;
    Ok(Some(list))
}

/// Reads the least and the greatest number of values; `null` as the greatest is no bound.
impl FromValue for ValueRange {
    ghost use Rattle.complgen_tree_file.specs.TreeForm.{range_of, with_item};

    ghost form = { range_of };

    fn read<'t>(
        faults: &mut Faults<'t>,
        value: &Value<'t>,
    ) -> Result<Option<ValueRange>, AllocError> {
        expected(faults, range(value), ValueKind::ValueRange)
    }

    fn kind() -> ValueKind {
        ValueKind::ValueRange
    }
}

fn range(value: &Value<'_>) -> Option<ValueRange>
    ensures { result ≡ range_of (view value.now) }
{
    let items = json_values::items(value)?;
    let [least, greatest] = items.as_slice() else {
        return None;
    };
    let least = number(least)?;
    let greatest = bound(greatest)?;
    if least > greatest || least > 255 {
        return None;
    }
    Some(ValueRange::new(least, greatest))
}

// Returns a number, or the greatest number of all for `null`.
fn bound(value: &Value<'_>) -> Option<usize>
    ensures { result ≡ bound_of (view value.now) }
{
    if is_null(value) {
        return Some(usize::MAX);
    }
    number(value)
}

// Expands to the variant with the name, if there is one.
macro_rules! variant_named {
    ([$kind:ident, $text:expr] $($name:literal $variant:ident,)*) => {
        match $text {
            $($name => Some($kind::$variant),)*
            _ => None,
        }
    };
}

/// Reads the name of an action.
impl FromValue for ArgAction {
    ghost use Rattle.serde_json.specs.Find.{as_str};
    ghost use Rattle.complgen_tree_file.specs.TreeForm.{◌>>=◌, action_of};

    ghost form = { λ d. as_str d >>= action_of };

    fn read<'t>(
        faults: &mut Faults<'t>,
        value: &Value<'t>,
    ) -> Result<Option<ArgAction>, AllocError> {
        expected(faults, action(value), ValueKind::Action)
    }

    fn kind() -> ValueKind {
        ValueKind::Action
    }
}

fn action(value: &Value<'_>) -> Option<ArgAction>
    ensures { result ≡ option_and_then action_of (as_str (view value.now)) }
{
    each_action!(variant_named! ArgAction, json_values::text(value)?)
}

/// Reads the name of a value hint.
impl FromValue for ValueHint {
    ghost use Rattle.serde_json.specs.Find.{as_str};
    ghost use Rattle.complgen_tree_file.specs.TreeForm.{◌>>=◌, hint_of};

    ghost form = { λ d. as_str d >>= hint_of };

    fn read<'t>(
        faults: &mut Faults<'t>,
        value: &Value<'t>,
    ) -> Result<Option<ValueHint>, AllocError> {
        expected(faults, hint(value), ValueKind::ValueHint)
    }

    fn kind() -> ValueKind {
        ValueKind::ValueHint
    }
}

fn hint(value: &Value<'_>) -> Option<ValueHint>
    ensures { result ≡ option_and_then hint_of (as_str (view value.now)) }
{
    each_hint!(variant_named! ValueHint, json_values::text(value)?)
}

/// Reads the name of a protocol.
impl FromValue for ValuesProtocol {
    ghost use Rattle.serde_json.specs.Find.{as_str};
    ghost use Rattle.complgen_tree_file.specs.TreeForm.{◌>>=◌, protocol_of};

    ghost form = { λ d. as_str d >>= protocol_of };

    fn read<'t>(
        faults: &mut Faults<'t>,
        value: &Value<'t>,
    ) -> Result<Option<ValuesProtocol>, AllocError> {
        expected(faults, protocol(value), ValueKind::ValuesProtocol)
    }

    fn kind() -> ValueKind {
        ValueKind::ValuesProtocol
    }
}

fn protocol(value: &Value<'_>) -> Option<ValuesProtocol>
    ensures { result ≡ option_and_then protocol_of (as_str (view value.now)) }
{
    each_protocol!(variant_named! ValuesProtocol, json_values::text(value)?)
}
