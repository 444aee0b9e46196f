//! Values for the arguments whose values come from one source.

ghost use Rattle.std.specs.Prelude.{◌≡◌, map};
ghost use Rattle.cc_arg.specs.ValueSources.{listed};
ghost use Rattle.cc_command.specs.ValueLists.{listed_node, listed_tree};

use crate::command::Command;
use crate::node::Node;
use cc_arg::{Arg, SourceValues, list_if_same_source};
use cc_base::Items;
use std::alloc::Global;
use std::mem;

/// Gives `values` to each argument of a command, and of all commands below it, whose values come
/// from where those of `asked` come from. A built command stays built. This is a
/// free function, so that `clap_complete` does not re-export it.
#[cycle(listed)]
pub fn list_values(command: &mut Command, asked: &Arg, values: SourceValues)
    ensures { command.new ≡ listed_tree asked.now values command.old }
{
    list_in_all(&mut command.children, asked, values);
    let alloc = *command.children.allocator();
    list_in_node(&mut command.node, alloc, asked, values);
}

#[cycle(listed)]
fn list_in_all(siblings: &mut [Command], asked: &Arg, values: SourceValues)
    ensures ok { siblings.new ≡ map (listed_tree asked.now values) siblings.old }
{
    for sibling in siblings.iter_mut() {
        list_values(sibling, asked, values);
    }
}

// The empty list that takes `alloc` allocates nothing.
fn list_in_node(node: &mut Node, alloc: Global, asked: &Arg, values: SourceValues)
    ensures { node.new ≡ listed_node asked.now values node.old }
{
    let own = mem::replace(&mut node.arguments, Items::new(alloc));
    let mut arguments = own.into_vec();
    list_in_arguments(&mut arguments, asked, values);
    node.arguments = Items::from(arguments);
}

fn list_in_arguments(arguments: &mut [Arg], asked: &Arg, values: SourceValues)
    ensures ok { arguments.new ≡ map (listed asked.now values) arguments.old }
{
    for argument in arguments.iter_mut() {
        list_if_same_source(argument, asked, values);
    }
}
