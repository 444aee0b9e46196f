//! A command, and the tree by which clauses see it.

ghost use Rattle.std.specs.Prelude.{◌≡◌};
ghost use Rattle.std.specs.String.{string_bytes};
ghost use Rattle.cc_command.specs.Made.{new_tree, of_node};

mod build;
mod builders;
mod children;
mod conflicts;
mod escaped;
mod getters;
mod iterators;
mod plain;
mod quiet;
mod settings;
mod values;

pub use crate::command::build::{build_as, has_id, lacks_index};
pub use crate::command::builders::{
    add_argument, add_arguments, add_child, add_children, reserve_arguments, reserve_children,
};
pub use crate::command::conflicts::first_with_id;
pub use crate::command::escaped::unescaped_quote;
pub use crate::command::getters::{contains_name, full_name, has_name};
pub use crate::command::iterators::{Arguments, NameAndVisibleAliases};
pub use crate::command::plain::has_no_quote;
pub use crate::command::quiet::is_quiet_value;
pub use crate::command::values::list_values;
use crate::node::Node;
use cc_base::Text;
use std::alloc::Global;
use std::marker::Model;

/// A command with its arguments and its children.
///
/// Builders take the command and return the changed one, which then counts as not built. A builder
/// that adds to a list can fail with `Memory`; it then drops the command.
#[derive(Drop)]
pub struct Command {
    node: Node,
    children: Vec<Command>,
}

impl Model for Command {
    ghost use Rattle.cc_command.specs.Tree.{Tree, forest_of, tree_size, most_le-forest_size};
    ghost use Rattle.cc_command.specs.TreeCode.{tree_code};
    ghost use Rattle.cc_command.specs.Marked.{StaysIfMarked};
    ghost use Rattle.std.proofs.Common.{arith};

    ghost Value = { Tree };

    ghost coded = { tree_code };

    ghost view = { λ c. record { node = c.node; children = forest_of c.children.items } };

    ghost invariant = { λ c.
        StaysIfMarked (record { node = c.node; children = forest_of c.children.items }) };

    ghost size = { tree_size };

    ghost size_decreases = { λ c h. Prim.omega (arith, most_le-forest_size c.children.items) };
}

impl Command {
    /// Makes a command with this name, in which nothing else is set. Its lists allocate from
    /// `alloc`.
    pub fn new(alloc: Global, name: String) -> Command
        ensures { result ≡ new_tree (string_bytes name) }
    {
        Command {
            node: Node::new(alloc, Text::from(name)),
            children: Vec::new(alloc),
        }
    }
}

/// Returns the node of a command: all of it except the children. This is a free function, so that
/// `clap_complete` does not re-export it.
pub fn node_of(command: &Command) -> &Node
    ensures { result.now ≡ command.now.node }
{
    &command.node
}

/// Makes a command from a node, without children and not built. The list of children allocates from
/// `alloc`. This is a free function, so that `clap_complete` does not re-export it.
pub fn from_node(alloc: Global, mut node: Node) -> Command
    ensures { result ≡ of_node node }
{
    node.built = false;
    Command {
        node,
        children: Vec::new(alloc),
    }
}
