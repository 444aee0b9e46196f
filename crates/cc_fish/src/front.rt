//! The beginning of each record of a node: the command, and the condition under which the record
//! holds.

ghost use Rattle.std.specs.Prelude.{◌≡◌, ◌++◌, [], flat_map, OnOk};
ghost use Rattle.std.specs.String.{string_bytes};
ghost use Rattle.cc_command.specs.Names.{visible_names};
ghost use Rattle.cc_command.specs.Tree.{forest_of};
ghost use Rattle.cc_fish.specs.Script.{condition_text, excluded_text, front_text, key_condition};
ghost use Rattle.cc_fish.specs.Script.{spaced_name};
ghost use Rattle.cc_generator.specs.Subcommands.{sibling_names};

use crate::texts::NOT_SEEN;
use cc_command::Command;
use std::alloc::AllocError;

/// Replaces the text of `front` with the beginning of each record of a node.
#[tactic(auto, unfolding(crate::specs::Script::front_text))]
pub(crate) fn set_front(
    front: &mut String,
    bin_name: &str,
    function: &str,
    key: &str,
    command: &Command,
) -> Result<(), AllocError>
    ensures { OnOk result (string_bytes front.new
        ≡ front_text bin_name.now (key_condition function.now key.now command.now.children)) }
{
    front.clear();
    front.push_str("complete -c ")?;
    front.push_str(bin_name)?;
    push_condition(front, function, key, command)
}

#[tactic(auto, unfolding(crate::specs::Script::key_condition))]
fn push_condition(
    front: &mut String,
    function: &str,
    key: &str,
    command: &Command,
) -> Result<(), AllocError>
    ensures { OnOk result (string_bytes front.new ≡ string_bytes front.old
        ++ condition_text (key_condition function.now key.now command.now.children)) }
{
    if key.is_empty() {
        return push_root(front, function, command);
    }
    front.push_str(" -n \"__fish_")?;
    front.push_str(function)?;
    front.push_str(key)?;
    push_excluded(front, command)?;
    front.push_str("\"")
}

// The records of the root hold until a subcommand is given. Without children, no subcommand can be
// given.
#[tactic(auto, unfolding(crate::specs::Script::key_condition))]
fn push_root(front: &mut String, function: &str, command: &Command) -> Result<(), AllocError>
    ensures { OnOk result (string_bytes front.new ≡ string_bytes front.old
        ++ condition_text (key_condition function.now [] command.now.children)) }
{
    if !command.has_subcommands() {
        return Ok(());
    }
    front.push_str(" -n \"__fish_")?;
    front.push_str(function)?;
    front.push_str("_needs_command\"")
}

// Once the name of a child is given, the records of the child hold instead.
fn push_excluded(front: &mut String, command: &Command) -> Result<(), AllocError>
    ensures { OnOk result (string_bytes front.new
        ≡ string_bytes front.old ++ excluded_text command.now.children) }
{
    if !command.has_subcommands() {
        return Ok(());
    }
    front.push_str(NOT_SEEN)?;
    push_children(front, command.get_subcommands())
}

fn push_children(front: &mut String, children: &[Command]) -> Result<(), AllocError>
    ensures { OnOk result (string_bytes front.new
        ≡ string_bytes front.old ++ flat_map spaced_name (sibling_names (forest_of children.now))) }
{
    for child in children {
        push_names(front, child)?;
    }
    Ok(())
}

fn push_names(front: &mut String, child: &Command) -> Result<(), AllocError>
    ensures { OnOk result (string_bytes front.new
        ≡ string_bytes front.old ++ flat_map spaced_name (visible_names child.now.node)) }
{
    for name in child.get_name_and_visible_aliases() {
        front.push_str(" ")?;
        front.push_str(name)?;
    }
    Ok(())
}
