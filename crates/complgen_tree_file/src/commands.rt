//! Reads the command of a tree file.

ghost use Rattle.std.specs.Prelude.{◌≡◌, IfOk, None, codes, fold, get_or, replicate};
ghost use Rattle.serde_json.specs.Find.{get};
ghost use Rattle.complgen_tree_file.specs.JsonSeen.{view};
ghost use Rattle.complgen_tree_file.specs.JsonKeys.{has_only};
ghost use Rattle.complgen_tree_file.specs.JsonSlots.{Hold, held, values_at};
ghost use Rattle.cc_command.specs.Made.{with_argument, with_child};
ghost use Rattle.complgen_tree_file.specs.CommandForm as form;
ghost use Rattle.complgen_tree_file.specs.Faults.{Makes};
ghost use Rattle.complgen_tree_file.specs.Slots.{AreHeldFrom};
ghost use Rattle.complgen_tree_file.specs.TreeForm.{all_fit, set_all};

use crate::args::arg;
use crate::faults::{FaultKind, Faults, Step};
use crate::json_values::{self, Value, find_keys};
use crate::keys::{all_keys, only_in, set_group};
use crate::kinds::{ObjectKind, ValueKind};
use crate::objects::needed_text;
use crate::values::{MOST_KEYS, set};
use cc_command::{
    Command, Node, add_argument, add_child, from_node, reserve_arguments, reserve_children,
};
use std::alloc::AllocError;

// One line for each key: its index, the key, its group, and the field that it sets. The name, the
// arguments and the children are read by functions of their own.
macro_rules! each_key {
    ($all:ident! $($asked:tt)*) => {
        $all! {
            [$($asked)*]
            0 "name" name name,
            1 "about" texts about,
            2 "version" texts version,
            3 "long_about" texts long_about,
            4 "after_help" texts after_help,
            5 "bin_name" names bin_name,
            6 "aliases" names aliases,
            7 "visible_aliases" names visible_aliases,
            8 "subcommand_help_heading" names subcommand_help_heading,
            9 "display_order" names display_order,
            10 "hide" flags hide,
            11 "disable_help_flag" flags disable_help_flag,
            12 "disable_version_flag" flags disable_version_flag,
            13 "disable_help_subcommand" flags disable_help_subcommand,
            14 "allow_external_subcommands" rules allow_external_subcommands,
            15 "no_binary_name" rules no_binary_name,
            16 "subcommand_required" rules subcommand_required,
            17 "arg_required_else_help" rules arg_required_else_help,
            18 "args" lists arguments,
            19 "subcommands" lists children,
        }
    };
}

pub(crate) const KEYS: &[&str] = each_key!(all_keys!);

/// Reads a command with its children. Notes what is wrong with `tree`; the result then does not
/// count.
///
/// # Errors
///
/// `AllocError` if an allocation fails.
#[cycle(commands)]
pub fn read_command<'t>(faults: &mut Faults<'t>, tree: &Value<'t>) -> Result<Command, AllocError>
    ensures { IfOk result (λ command. Makes (form.command_in (view tree.now))
        (form.command_fits (view tree.now)) command faults.old faults.new) }
{
    let mut slots = [None; MOST_KEYS];
    let has_only_keys = find_values(&mut slots, tree);
    let node = own(faults, tree, &slots, has_only_keys)?;
    let mut command = from_node(faults.allocator(), node);
    let Some(value) = children(tree, &slots) else {
        return Ok(command);
    };
    match add_children(&mut command, faults, value) {
        Ok(()) => Ok(command),
        Err(error) => {
            // One call here, instead of a drop of each field.
            drop(command);
            Err(error)
        }
    }
}

// Returns the value that describes the children.
fn children<'v, 't>(
    _object: &Value<'_>,
    slots: &[Option<&'v Value<'t>>; MOST_KEYS],
) -> Option<&'v Value<'t>>
    requires { held (get_or slots.now 19 None) ≡ get (codes "subcommands") (view _object.now) }
    ensures { held result ≡ get (codes "subcommands") (view _object.now) }
{
    slots[19]
}

// Adds the children that the list at `subcommands` describes, each as it is read.
#[cycle(commands)]
fn add_children<'t>(
    parent: &mut Command,
    faults: &mut Faults<'t>,
    value: &Value<'t>,
) -> Result<(), AllocError>
    ensures { IfOk result (λ _. Makes
        (fold with_child parent.old (form.commands_in (view value.now)))
        (form.commands_fit (view value.now)) parent.new faults.old faults.new) }
{
    let before_all = faults.count();
    let Some(items) = json_values::items(value) else {
        let kind = FaultKind::NoList(ValueKind::Object(ObjectKind::Command));
        return faults.note_at(Step::Key("subcommands"), kind);
    };
    // Building may add the child `help`.
    reserve_children(parent, items.len().saturating_add(1))?;
    for (index, item) in items.iter().enumerate() {
        let before = faults.count();
        add_child(parent, read_command(faults, item)?)?;
        faults.put_before(before, Step::Item(index))?;
    }
    faults.put_before(before_all, Step::Key("subcommands"))
}

// Puts the values at the keys of a command into their slots. Returns whether `tree` is an object
// that has no other keys.
#[tactic(auto, unfolding(crate::specs::CommandForm::command_keys))]
fn find_values<'v, 't>(slots: &mut [Option<&'v Value<'t>>; MOST_KEYS], tree: &'v Value<'t>) -> bool
    requires { slots.old ≡ replicate 30 None }
    ensures known { result ≡ has_only form.command_keys (view tree.now) }
    ensures found { Hold slots.new (values_at form.command_keys (view tree.now)) }
{
    find_keys(slots, tree, KEYS)
}

// Reads the node of a command.
#[tactic(auto, unfolding(crate::specs::CommandForm::own_in, crate::specs::CommandForm::own_fits))]
fn own<'t>(
    faults: &mut Faults<'t>,
    tree: &Value<'t>,
    slots: &[Option<&Value<'t>>; MOST_KEYS],
    has_only_keys: bool,
) -> Result<Node, AllocError>
    requires known { has_only_keys ≡ has_only form.command_keys (view tree.now) }
    requires found { Hold slots.now (values_at form.command_keys (view tree.now)) }
    ensures { IfOk result (λ node. Makes (form.own_in (view tree.now))
        (form.own_fits (view tree.now)) node faults.old faults.new) }
{
    let name = needed_text(faults, tree, slots[0], has_only_keys, ObjectKind::Command)?;
    let mut node = Node::new(faults.allocator(), name);
    match set_rest(&mut node, faults, tree, slots) {
        Ok(()) => Ok(node),
        Err(error) => {
            drop(node);
            Err(error)
        }
    }
}

// Sets the fields of the keys other than the name and the children.
fn set_rest<'t>(
    node: &mut Node,
    faults: &mut Faults<'t>,
    tree: &Value<'t>,
    slots: &[Option<&Value<'t>>; MOST_KEYS],
) -> Result<(), AllocError>
    requires { Hold slots.now (values_at form.command_keys (view tree.now)) }
    ensures { IfOk result (λ _. Makes (form.with_rest (view tree.now) node.old)
        (form.rest_fits (view tree.now)) node.new faults.old faults.new) }
{
    set_texts(node, faults, tree, slots)?;
    set_names(node, faults, tree, slots)?;
    set_flags(node, faults, tree, slots)?;
    set_rules(node, faults, tree, slots)?;
    add_args(node, faults, tree, slots)
}

fn set_texts<'t>(
    node: &mut Node,
    faults: &mut Faults<'t>,
    tree: &Value<'t>,
    slots: &[Option<&Value<'t>>; MOST_KEYS],
) -> Result<(), AllocError>
    requires { AreHeldFrom 1 form.texts slots.now (view tree.now) }
    ensures { IfOk result (λ _. Makes (set_all form.texts (view tree.now) node.old)
        (all_fit form.texts (view tree.now)) node.new faults.old faults.new) }
{
    each_key!(set_group! texts, node, faults, tree, slots);
    Ok(())
}

fn set_names<'t>(
    node: &mut Node,
    faults: &mut Faults<'t>,
    tree: &Value<'t>,
    slots: &[Option<&Value<'t>>; MOST_KEYS],
) -> Result<(), AllocError>
    requires { AreHeldFrom 5 form.names slots.now (view tree.now) }
    ensures { IfOk result (λ _. Makes (set_all form.names (view tree.now) node.old)
        (all_fit form.names (view tree.now)) node.new faults.old faults.new) }
{
    each_key!(set_group! names, node, faults, tree, slots);
    Ok(())
}

fn set_flags<'t>(
    node: &mut Node,
    faults: &mut Faults<'t>,
    tree: &Value<'t>,
    slots: &[Option<&Value<'t>>; MOST_KEYS],
) -> Result<(), AllocError>
    requires { AreHeldFrom 10 form.flags slots.now (view tree.now) }
    ensures { IfOk result (λ _. Makes (set_all form.flags (view tree.now) node.old)
        (all_fit form.flags (view tree.now)) node.new faults.old faults.new) }
{
    each_key!(set_group! flags, node, faults, tree, slots);
    Ok(())
}

fn set_rules<'t>(
    node: &mut Node,
    faults: &mut Faults<'t>,
    tree: &Value<'t>,
    slots: &[Option<&Value<'t>>; MOST_KEYS],
) -> Result<(), AllocError>
    requires { AreHeldFrom 14 form.rules slots.now (view tree.now) }
    ensures { IfOk result (λ _. Makes (set_all form.rules (view tree.now) node.old)
        (all_fit form.rules (view tree.now)) node.new faults.old faults.new) }
{
    each_key!(set_group! rules, node, faults, tree, slots);
    Ok(())
}

fn add_args<'t>(
    node: &mut Node,
    faults: &mut Faults<'t>,
    _object: &Value<'t>,
    slots: &[Option<&Value<'t>>; MOST_KEYS],
) -> Result<(), AllocError>
    requires { held (get_or slots.now 18 None) ≡ get (codes "args") (view _object.now) }
    ensures { IfOk result (λ _. Makes (form.with_args (view _object.now) node.old)
        (form.args_fit (view _object.now)) node.new faults.old faults.new) }
{
    let Some(value) = slots[18] else {
        return Ok(());
    };
    let before = faults.count();
    add_each(node, faults, value)?;
    faults.put_before(before, Step::Key("args"))
}

// Adds the arguments that a list describes, each as it is read.
fn add_each<'t>(
    node: &mut Node,
    faults: &mut Faults<'t>,
    value: &Value<'t>,
) -> Result<(), AllocError>
    ensures { IfOk result (λ _. Makes
        (fold with_argument node.old (form.arguments_in (view value.now)))
        (form.arguments_fit (view value.now)) node.new faults.old faults.new) }
{
    let Some(items) = json_values::items(value) else {
        return faults.note(FaultKind::NoList(ValueKind::Object(ObjectKind::Argument)));
    };
    // Building may add the flags `--help` and `--version`.
    reserve_arguments(node, faults.allocator(), items.len().saturating_add(2))?;
    for (index, item) in items.iter().enumerate() {
        let before = faults.count();
        add_argument(node, arg(faults, item)?)?;
        faults.put_before(before, Step::Item(index))?;
    }
    Ok(())
}
