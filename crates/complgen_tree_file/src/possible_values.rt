//! Reads the possible values of an argument of a tree file.

ghost use Rattle.std.specs.Prelude.{◌≡◌, ◌&&◌, IfOk, codes};
ghost use Rattle.serde_json.specs.Find.{as_bool, as_str};
ghost use Rattle.complgen_tree_file.specs.JsonKeys.{has_only};
ghost use Rattle.complgen_tree_file.specs.JsonSeen.{view};
ghost use Rattle.complgen_tree_file.specs.Faults.{Makes};
ghost use Rattle.complgen_tree_file.specs.PossibleValueForm as form;
ghost use Rattle.complgen_tree_file.specs.TreeForm.{fits_at};

use crate::faults::Faults;
use crate::json_values::{Value, has_only_keys, member};
use crate::kinds::{ObjectKind, ValueKind};
use crate::objects::{at, needed_text};
use crate::values::FromValue;
use cc_arg::PossibleValue;
use cc_base::Text;
use std::alloc::AllocError;

pub(crate) const KEYS: &[&str] = &["name", "help", "hide"];

impl FromValue for PossibleValue {
    ghost form = { form.possible_value_of };

    fn read<'t>(
        faults: &mut Faults<'t>,
        value: &Value<'t>,
    ) -> Result<Option<PossibleValue>, AllocError> {
        let mut own = Faults::new(faults.allocator());
        let found = possible_value(&mut own, value)?;
        if own.is_empty() {
            return Ok(Some(found));
        }
        // One call here, instead of a drop of each field.
        drop(found);
        faults.append(own)?;
        Ok(None)
    }

    fn kind() -> ValueKind {
        ValueKind::Object(ObjectKind::PossibleValue)
    }
}

fn possible_value<'t>(
    faults: &mut Faults<'t>,
    tree: &Value<'t>,
) -> Result<PossibleValue, AllocError>
    ensures { IfOk result (λ value. Makes (form.value_in (view tree.now))
        (form.value_fits (view tree.now)) value faults.old faults.new) }
{
    let name = name(faults, tree)?;
    let value = with_help(faults, PossibleValue::new(name.into_string()), tree)?;
    with_hide(faults, value, tree)
}

fn name<'t>(faults: &mut Faults<'t>, tree: &Value<'t>) -> Result<Text, AllocError>
    ensures { IfOk result (λ name. Makes (form.name_in (view tree.now))
        (form.name_fits (view tree.now)) name faults.old faults.new) }
{
    let name = member(tree, "name");
    needed_text(
        faults,
        tree,
        name,
        has_value_keys(tree),
        ObjectKind::PossibleValue,
    )
}

#[tactic(auto, unfolding(crate::specs::PossibleValueForm::value_keys))]
fn has_value_keys(tree: &Value<'_>) -> bool
    ensures { result ≡ has_only form.value_keys (view tree.now) }
{
    has_only_keys(tree, KEYS)
}

fn with_help<'t>(
    faults: &mut Faults<'t>,
    value: PossibleValue,
    tree: &Value<'t>,
) -> Result<PossibleValue, AllocError>
    ensures { IfOk result (λ shown. Makes (form.with_help (view tree.now) value)
        (λ before. before && fits_at (codes "help") as_str (view tree.now)) shown
        faults.old faults.new) }
{
    match at::<Text>(faults, tree, "help") {
        Ok(Some(help)) => Ok(value.help(help.into_string())),
        Ok(None) => Ok(value),
        Err(error) => {
            drop(value);
            Err(error)
        }
    }
}

fn with_hide<'t>(
    faults: &mut Faults<'t>,
    value: PossibleValue,
    tree: &Value<'t>,
) -> Result<PossibleValue, AllocError>
    ensures { IfOk result (λ shown. Makes (form.with_hide (view tree.now) value)
        (λ before. before && fits_at (codes "hide") as_bool (view tree.now)) shown
        faults.old faults.new) }
{
    match at::<bool>(faults, tree, "hide") {
        Ok(Some(hide)) => Ok(value.hide(hide)),
        Ok(None) => Ok(value),
        Err(error) => {
            drop(value);
            Err(error)
        }
    }
}
