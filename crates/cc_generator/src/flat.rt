//! The numbered nodes of a command tree.

ghost use Rattle.std.specs.Prelude.{◌≡◌, ◌<◌, ◌+◌, ◌↔◌, length, IfOk, IfSome, IsNone, OnOk, vec_len};
ghost use Rattle.cc_generator.specs.Flat.{IsFlat, IsChildAt, HasItsChildren, entry_of, entries_of, entry_at, tree_at, trees_of, numbers_between, children_at};
ghost use Rattle.cc_generator.specs.Numbered.{without_numbers, with_children};

use cc_command::Command;
use std::alloc::{AllocError, Global};
use std::marker::Model;
use std::ops::Range;

/// The nodes of a command tree, each with a number. The root has number 0. The children of a node
/// have consecutive numbers in their order, each greater than the number of their parent.
///
/// Clauses see it as a list of entries, by number.
#[derive(Drop)]
pub struct Flat<'a> {
    nodes: Vec<FlatNode<'a>>,
}

// A node, with the numbers of its parent and its children.
#[derive(Clone, Copy)]
pub(crate) struct FlatNode<'a> {
    pub command: &'a Command,
    pub parent: Option<usize>,
    pub first_child: usize,
    pub child_count: usize,
}

impl<'a> Model for Flat<'a> {
    ghost use Rattle.std.specs.Prelude.{List};
    ghost use Rattle.cc_generator.specs.Flat.{Entry, entries_of, IsFlat};
    ghost use Rattle.cc_generator.specs.EntryCode.{entries_code};

    ghost Value = { List Entry };

    ghost coded = { entries_code };

    ghost view = { λ flat. entries_of flat.nodes.items };

    ghost invariant = { λ flat. IsFlat (entries_of flat.nodes.items) };
}

impl<'a> Flat<'a> {
    /// Numbers the nodes of the tree `root`. Time and memory grow with the number of nodes.
    ///
    /// # Errors
    ///
    /// `AllocError` if an allocation fails.
    pub fn new(alloc: Global, root: &'a Command) -> Result<Flat<'a>, AllocError>
        ensures root { IfOk result (λ flat. tree_at flat 0 ≡ root.now) }
        ensures flat { IfOk result IsFlat }
    {
        let mut nodes = Vec::new(alloc);
        nodes.push(FlatNode::without_numbers(None, root))?;
        let mut number = 0;
        while number < nodes.len() {
            number_children(&mut nodes, number)?;
            number += 1;
        }
        Ok(Flat { nodes })
    }

    /// Returns the number of nodes.
    pub fn len(&self) -> usize
        ensures len { result ≡ length self.now }
        ensures flat { IsFlat self.now }
    {
        self.nodes.len()
    }

    /// Returns the command with this `number`.
    pub fn command(&self, number: usize) -> &'a Command
        requires { number < length self.now }
        ensures { result.now ≡ tree_at self.now number }
    {
        self.nodes[number].command
    }

    /// Returns the number of the parent of the node with this `number`, or `None` for the root.
    pub fn parent(&self, number: usize) -> Option<usize>
        requires { number < length self.now }
        ensures value { result ≡ (entry_at self.now number).parent }
        ensures root { IsNone result ↔ (number ≡ 0) }
        ensures before { IfSome result (λ parent. parent < number) }
        ensures child { IfSome result (λ parent. IsChildAt self.now parent number) }
    {
        self.nodes[number].parent
    }

    /// Returns the numbers of the children of the node with this `number`, which must be below
    /// `len`, in order.
    pub fn children(&self, number: usize) -> Range<usize>
        requires { number < length self.now }
        ensures first { result.start ≡ (entry_at self.now number).first_child }
        ensures end { result.end ≡ result.start + (entry_at self.now number).child_count }
        ensures numbers { numbers_between result.start result.end ≡ children_at self.now number }
        ensures children { HasItsChildren self.now number }
        ensures flat { IsFlat self.now }
    {
        let node = &self.nodes[number];
        node.first_child..node.first_child + node.child_count
    }
}

impl<'a> FlatNode<'a> {
    // Creates a node whose children have no numbers yet.
    fn without_numbers(parent: Option<usize>, command: &'a Command) -> FlatNode<'a>
        ensures { entry_of result ≡ without_numbers parent command.now }
    {
        FlatNode {
            command,
            parent,
            first_child: 0,
            child_count: 0,
        }
    }
}

// Adds the children of the node with this number to the end of the list.
fn number_children(nodes: &mut Vec<FlatNode<'_>>, number: usize) -> Result<(), AllocError>
    requires { number < vec_len nodes.old }
    ensures { OnOk result (entries_of nodes.new.items
        ≡ with_children (entries_of nodes.old.items) number
        (trees_of (tree_at (entries_of nodes.old.items) number).children)) }
{
    let children = nodes[number].command.get_subcommands();
    let first_child = nodes.len();
    let node = &mut nodes[number];
    node.first_child = first_child;
    node.child_count = children.len();
    for command in children {
        nodes.push(FlatNode::without_numbers(Some(number), command))?;
    }
    Ok(())
}
