//! Reads the arguments of a tree file.

ghost use Rattle.std.specs.Prelude.{◌≡◌, IfOk, None, codes, replicate};
ghost use Rattle.complgen_tree_file.specs.JsonSeen.{view};
ghost use Rattle.complgen_tree_file.specs.JsonKeys.{has_only};
ghost use Rattle.complgen_tree_file.specs.JsonSlots.{Hold, values_at};
ghost use Rattle.complgen_tree_file.specs.ArgumentForm as form;
ghost use Rattle.complgen_tree_file.specs.Faults.{Makes};
ghost use Rattle.complgen_tree_file.specs.Slots.{AreHeldFrom};
ghost use Rattle.complgen_tree_file.specs.TreeForm.{all_fit, is_object_of, set_all, text_at};

use crate::faults::Faults;
use crate::json_values::{Value, find_keys};
use crate::keys::{all_keys, only_in, set_group};
use crate::kinds::ObjectKind;
use crate::objects::needed_text;
use crate::sources::set_sources;
use crate::values::{MOST_KEYS, set};
use cc_arg::{Arg, ArgParts};
use cc_base::Text;
use std::alloc::AllocError;

// One line for each key: its index, the key, its group, and the field that it sets. The id is read
// first.
macro_rules! each_key {
    ($all:ident! $($asked:tt)*) => {
        $all! {
            [$($asked)*]
            0 "id" id id,
            1 "short" names short,
            2 "long" names long,
            3 "help" names help,
            4 "help_heading" names help_heading,
            5 "action" values action,
            6 "num_args" values num_args,
            7 "value_names" values value_names,
            8 "value_delimiter" values value_delimiter,
            9 "value_hint" values value_hint,
            10 "default_value" values default_value,
            11 "possible_values" sources possible_values,
            12 "values_from" sources values_from,
            13 "values_file" sources values_file,
            14 "values_split" sources values_split,
            15 "values_words" sources values_words,
            16 "values_protocol" sources values_protocol,
            17 "index" surroundings index,
            18 "display_order" surroundings display_order,
            19 "value_terminator" surroundings value_terminator,
            20 "conflicts_with" surroundings conflicts,
            21 "required" flags required,
            22 "last" flags last,
            23 "global" flags global,
            24 "hide" flags hide,
            25 "allow_hyphen_values" flags allow_hyphen_values,
            26 "short_aliases" aliases short_aliases,
            27 "aliases" aliases aliases,
            28 "visible_short_aliases" aliases visible_short_aliases,
            29 "visible_aliases" aliases visible_aliases,
        }
    };
}

pub(crate) use each_key;

pub(crate) const KEYS: &[&str] = each_key!(all_keys!);

/// Reads an argument. Notes what is wrong with `tree`; the result then does not count.
///
/// # Errors
///
/// `AllocError` if an allocation fails.
#[tactic(auto, unfolding(crate::specs::ArgumentForm::argument_in, crate::specs::ArgumentForm::argument_fits))]
pub fn arg<'t>(faults: &mut Faults<'t>, tree: &Value<'t>) -> Result<Arg, AllocError>
    ensures { IfOk result (λ arg. Makes (form.argument_in (view tree.now))
        (form.argument_fits (view tree.now)) arg faults.old faults.new) }
{
    let mut slots = [None; MOST_KEYS];
    let has_only_keys = find_values(&mut slots, tree);
    let id = read_id(faults, tree, &slots, has_only_keys)?;
    let mut parts = ArgParts::new(faults.allocator(), id);
    match set_rest(&mut parts, faults, tree, &slots) {
        Ok(()) => Ok(Arg::from(parts)),
        Err(error) => {
            // One call here, instead of a drop of each field.
            drop(parts);
            Err(error)
        }
    }
}

// Puts the values at the keys of an argument into their slots. Returns whether `tree` is an object
// that has no other keys.
#[tactic(auto, unfolding(crate::specs::ArgumentForm::argument_keys))]
fn find_values<'v, 't>(slots: &mut [Option<&'v Value<'t>>; MOST_KEYS], tree: &'v Value<'t>) -> bool
    requires { slots.old ≡ replicate 30 None }
    ensures known { result ≡ has_only form.argument_keys (view tree.now) }
    ensures found { Hold slots.new (values_at form.argument_keys (view tree.now)) }
{
    find_keys(slots, tree, KEYS)
}

fn read_id<'t>(
    faults: &mut Faults<'t>,
    tree: &Value<'t>,
    slots: &[Option<&Value<'t>>; MOST_KEYS],
    has_only_keys: bool,
) -> Result<Text, AllocError>
    requires known { has_only_keys ≡ has_only form.argument_keys (view tree.now) }
    requires found { Hold slots.now (values_at form.argument_keys (view tree.now)) }
    ensures { IfOk result (λ id. Makes (text_at (codes "id") (view tree.now))
        (is_object_of form.argument_keys (codes "id") (view tree.now)) id
        faults.old faults.new) }
{
    needed_text(faults, tree, slots[0], has_only_keys, ObjectKind::Argument)
}

// Sets the fields of the keys other than the id.
fn set_rest<'t>(
    parts: &mut ArgParts,
    faults: &mut Faults<'t>,
    tree: &Value<'t>,
    slots: &[Option<&Value<'t>>; MOST_KEYS],
) -> Result<(), AllocError>
    requires { Hold slots.now (values_at form.argument_keys (view tree.now)) }
    ensures { IfOk result (λ _. Makes (form.with_rest (view tree.now) parts.old)
        (form.rest_fits (view tree.now) parts.old) parts.new faults.old faults.new) }
{
    set_sources(parts, faults, tree, slots)?;
    set_names(parts, faults, tree, slots)?;
    set_values(parts, faults, tree, slots)?;
    set_surroundings(parts, faults, tree, slots)?;
    set_flags(parts, faults, tree, slots)?;
    set_aliases(parts, faults, tree, slots)
}

fn set_names<'t>(
    parts: &mut ArgParts,
    faults: &mut Faults<'t>,
    tree: &Value<'t>,
    slots: &[Option<&Value<'t>>; MOST_KEYS],
) -> Result<(), AllocError>
    requires { AreHeldFrom 1 form.names slots.now (view tree.now) }
    ensures { IfOk result (λ _. Makes (set_all form.names (view tree.now) parts.old)
        (all_fit form.names (view tree.now)) parts.new faults.old faults.new) }
{
    each_key!(set_group! names, parts, faults, tree, slots);
    Ok(())
}

fn set_values<'t>(
    parts: &mut ArgParts,
    faults: &mut Faults<'t>,
    tree: &Value<'t>,
    slots: &[Option<&Value<'t>>; MOST_KEYS],
) -> Result<(), AllocError>
    requires { AreHeldFrom 5 form.values slots.now (view tree.now) }
    ensures { IfOk result (λ _. Makes (set_all form.values (view tree.now) parts.old)
        (all_fit form.values (view tree.now)) parts.new faults.old faults.new) }
{
    each_key!(set_group! values, parts, faults, tree, slots);
    Ok(())
}

fn set_surroundings<'t>(
    parts: &mut ArgParts,
    faults: &mut Faults<'t>,
    tree: &Value<'t>,
    slots: &[Option<&Value<'t>>; MOST_KEYS],
) -> Result<(), AllocError>
    requires { AreHeldFrom 17 form.surroundings slots.now (view tree.now) }
    ensures { IfOk result (λ _. Makes (set_all form.surroundings (view tree.now) parts.old)
        (all_fit form.surroundings (view tree.now)) parts.new faults.old faults.new) }
{
    each_key!(set_group! surroundings, parts, faults, tree, slots);
    Ok(())
}

fn set_flags<'t>(
    parts: &mut ArgParts,
    faults: &mut Faults<'t>,
    tree: &Value<'t>,
    slots: &[Option<&Value<'t>>; MOST_KEYS],
) -> Result<(), AllocError>
    requires { AreHeldFrom 21 form.flags slots.now (view tree.now) }
    ensures { IfOk result (λ _. Makes (set_all form.flags (view tree.now) parts.old)
        (all_fit form.flags (view tree.now)) parts.new faults.old faults.new) }
{
    each_key!(set_group! flags, parts, faults, tree, slots);
    Ok(())
}

fn set_aliases<'t>(
    parts: &mut ArgParts,
    faults: &mut Faults<'t>,
    tree: &Value<'t>,
    slots: &[Option<&Value<'t>>; MOST_KEYS],
) -> Result<(), AllocError>
    requires { AreHeldFrom 26 form.aliases slots.now (view tree.now) }
    ensures { IfOk result (λ _. Makes (set_all form.aliases (view tree.now) parts.old)
        (all_fit form.aliases (view tree.now)) parts.new faults.old faults.new) }
{
    each_key!(set_group! aliases, parts, faults, tree, slots);
    Ok(())
}
