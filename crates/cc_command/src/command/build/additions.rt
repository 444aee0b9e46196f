//! The additions that building makes to a tree. They are allocated before the tree changes.

ghost use Rattle.std.specs.Prelude.{◌≡◌, IfOk};
ghost use Rattle.cc_command.specs.Tree.{forest_of};
ghost use Rattle.cc_command.specs.Generated.{help_child};
ghost use Rattle.cc_command.specs.Additions.{HasRoom, IsAddition, sibling_count};

use crate::command::Command;
use crate::command::build::arguments::missing_arguments;
use crate::command::build::help::{help_command, needs_help_child};
use crate::node::Node;
use cc_arg::Arg;
use cc_base::Text;
use std::alloc::{AllocError, Global};

/// The additions to one command. Each list has room for those that the command has already, which
/// then come before. A list that adds nothing needs no room.
#[derive(Drop)]
pub(super) struct Addition {
    /// The new bin name of the command.
    pub bin_name: Option<Text>,
    /// The arguments that are missing.
    pub arguments: Vec<Arg>,
    /// The generated child `help`, if it is missing.
    pub children: Vec<Command>,
}

// Makes the additions to a command whose parent propagates `inherited`. This is never inlined, so
// that each level of a tree needs less of the stack.
#[inline(never)]
pub(super) fn addition_to(
    command: &Command,
    alloc: Global,
    inherited: &[Arg],
    bin_name: Option<Text>,
) -> Result<Addition, AllocError>
    ensures ok { IfOk result (λ addition.
        IsAddition inherited.now bin_name command.now.node command.now.children addition) }
{
    let node = &command.node;
    let name = match &bin_name {
        Some(name) => name.as_str(),
        None => node.name.as_str(),
    };
    let children = missing_children(node, &command.children, alloc, name)?;
    let arguments = missing_arguments(node, alloc, inherited)?;
    Ok(Addition {
        bin_name,
        arguments,
        children,
    })
}

// Makes the child `help` if it is missing. `name` is the full name of the command.
fn missing_children(
    node: &Node,
    children: &[Command],
    alloc: Global,
    name: &str,
) -> Result<Vec<Command>, AllocError>
    ensures ok { IfOk result (λ added.
        forest_of added.items ≡ help_child name.now node.now (forest_of children.now)) }
    ensures room { IfOk result (λ added. HasRoom (sibling_count (forest_of children.now)) added) }
{
    if !needs_help_child(node, children) {
        return Ok(Vec::new(alloc));
    }
    let mut added = Vec::with_capacity(alloc, children.len() + 1)?;
    added.push(help_command(children, alloc, name)?)?;
    Ok(added)
}
