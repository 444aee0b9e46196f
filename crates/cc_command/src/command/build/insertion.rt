//! The steps that put the allocated additions into a tree. They cannot fail.

ghost use Rattle.std.specs.Prelude.{◌≡◌, ◌++◌, length, map, true};
ghost use Rattle.cc_arg.specs.Arguments.{filled};
ghost use Rattle.cc_command.specs.Built.{indexed};
ghost use Rattle.cc_command.specs.Additions.{HasRoom};

use crate::command::build::arguments::fill_in;
use crate::node::Node;
use cc_arg::Arg;
use cc_base::{Items, Text};
use std::alloc::Global;
use std::mem;

// Adds the missing arguments, fills in all arguments, sets the bin name and marks the node as
// built. The empty list that takes `alloc` allocates nothing.
pub(super) fn finish(node: &mut Node, alloc: Global, missing: Vec<Arg>, bin_name: Option<Text>)
    requires room { HasRoom (length node.old.arguments) missing }
    ensures { node.new ≡ record node.old {
      bin_name = bin_name;
      arguments = indexed 1 (map filled (node.old.arguments ++ missing.items));
      built = true;
    } }
{
    let own = mem::replace(&mut node.arguments, Items::new(alloc));
    let mut arguments = own.into_vec();
    put_before(&mut arguments, missing);
    fill_in(&mut arguments);
    node.arguments = Items::from(arguments);
    node.bin_name = bin_name;
    node.built = true;
}

// Appends `added` to the items if they have room for it, which moves none of them. Otherwise it
// moves them to the beginning of `added`, which has room.
pub(super) fn put_before<T: Drop>(items: &mut Vec<T>, mut added: Vec<T>)
    requires room { HasRoom (length items.old.items) added }
    ensures { items.new.items ≡ items.old.items ++ added.items }
{
    let count = added.len();
    if count <= items.capacity() - items.len() {
        items.append(&mut added).unwrap();
        return;
    }
    added.append(items).unwrap();
    added.rotate_left(count);
    *items = added;
}
