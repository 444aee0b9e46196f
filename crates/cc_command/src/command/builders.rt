//! The builders that add an argument or a child to a command.

ghost use Rattle.std.specs.Prelude.{◌≡◌, ◌++◌, ◌∷◌, [], fold, IfOk, IfErr, OnOk, OnErr};
ghost use Rattle.std.specs.Prelude.{false, is_ok};
ghost use Rattle.cc_command.specs.Made.{ordered_node, with_argument, with_child};
ghost use Rattle.cc_command.specs.Made.{order_after, order_after_child};
ghost use Rattle.cc_command.specs.Made.{ordered_arguments, ordered_children};

use crate::command::Command;
use crate::node::Node;
use cc_arg::{Arg, fill_display_order};
use cc_base::{Error, Items};
use std::alloc::{AllocError, Global};
use std::mem::replace;

impl Command {
    /// Adds an argument. An option or a flag advances the counter of display orders of the command,
    /// and gets its number unless it has a display order of its own.
    ///
    /// # Errors
    ///
    /// `Memory` if an allocation fails.
    pub fn arg(mut self, argument: Arg) -> Result<Command, Error>
        ensures ok { IfOk result (λ command.
            command ≡ record self { node = with_argument self.node argument }) }
        ensures memory { IfErr result (λ error. error ≡ Error.Memory) }
    {
        let added = add_argument(&mut self.node, argument);
        if_added(added, self)
    }

    /// Adds a child. It advances the counter of display orders of the command, and gets its number
    /// unless it has a display order of its own.
    ///
    /// # Errors
    ///
    /// `Memory` if an allocation fails.
    pub fn subcommand(mut self, child: Command) -> Result<Command, Error>
        ensures ok { IfOk result (λ command. command ≡ with_child self child) }
        ensures memory { IfErr result (λ error. error ≡ Error.Memory) }
    {
        let added = add_child(&mut self, child);
        if_added(added, self)
    }

    // Sets the display order if none is set. A built command stays built.
    fn fill_display_order(&mut self, order: usize)
        ensures { self.new ≡ record self.old { node = ordered_node order self.old.node } }
    {
        let filled = match self.node.display_order {
            Some(given) => given,
            None => order,
        };
        self.node.display_order = Some(filled);
    }
}

// Returns the command if the addition to one of its lists succeeded. Otherwise drops it.
pub(super) fn if_added<E: Drop>(added: Result<(), E>, command: Command) -> Result<Command, Error>
    ensures same { is_ok result ≡ is_ok added }
    ensures ok { IfOk result (λ kept. kept ≡ command) }
    ensures memory { IfErr result (λ error. error ≡ Error.Memory) }
{
    match added {
        Ok(()) => Ok(command),
        Err(_) => {
            drop(command);
            Err(Error::Memory)
        }
    }
}

// These are free functions, so that `clap_complete` does not re-export them.

/// Adds an argument to a node, which then counts as not built. An option or a flag advances the
/// counter of display orders of the node, and gets its number unless it has a display order of its
/// own.
///
/// # Errors
///
/// `AllocError` if the allocation fails. The argument is then dropped. The node keeps its arguments
/// and counts as not built, and its counter may have advanced.
pub fn add_argument(node: &mut Node, mut argument: Arg) -> Result<(), AllocError>
    ensures ok { OnOk result (node.new ≡ with_argument node.old argument) }
    ensures err { OnErr result (node.new ≡ record node.old {
      next_order = order_after node.old.next_order argument;
      built = false;
    }) }
{
    node.built = false;
    if !argument.is_positional() {
        fill_display_order(&mut argument, node.next_order);
        node.next_order = node.next_order.saturating_add(1);
    }
    node.arguments.push(argument)?;
    Ok(())
}

/// Adds a child to a command, which then counts as not built. The child advances the counter of
/// display orders of the command, and gets its number unless it has a display order of its own.
///
/// # Errors
///
/// `AllocError` if the allocation fails. The child is then dropped, and the command keeps its
/// children.
pub fn add_child(command: &mut Command, mut child: Command) -> Result<(), AllocError>
    ensures ok { OnOk result (command.new ≡ with_child command.old child) }
    ensures err { OnErr result (command.new.children ≡ command.old.children) }
{
    command.node.built = false;
    child.fill_display_order(command.node.next_order);
    command.node.next_order = command.node.next_order.saturating_add(1);
    push_child(&mut command.children, child)?;
    Ok(())
}

/// Adds each of the arguments to a node, in order, as `add_argument` does. An empty list changes
/// nothing. If the node has no arguments yet, the list becomes its list, so no argument is moved.
///
/// # Errors
///
/// `AllocError` if the allocation fails. The arguments are then dropped. The node keeps its
/// arguments and counts as not built, and its counter may have advanced.
pub fn add_arguments(node: &mut Node, mut arguments: Vec<Arg>) -> Result<(), AllocError>
    ensures ok { OnOk result (node.new ≡ fold with_argument node.old arguments.items) }
    ensures err { OnErr result (node.new ≡ record node.old {
      next_order = fold order_after node.old.next_order arguments.items;
      built = false;
    }) }
{
    if arguments.is_empty() {
        return Ok(());
    }
    node.built = false;
    node.next_order = order_arguments(&mut arguments, node.next_order);
    append_arguments(node, arguments)
}

/// Adds each of the children to a command, in order, as `add_child` does. An empty list changes
/// nothing. If the command has no children yet, the list becomes its list, so no child is moved.
///
/// # Errors
///
/// `AllocError` if the allocation fails. These children are then dropped, and the command keeps its
/// own.
pub fn add_children(command: &mut Command, mut children: Vec<Command>) -> Result<(), AllocError>
    ensures ok { OnOk result (command.new ≡ fold with_child command.old children.items) }
    ensures err { OnErr result (command.new.children ≡ command.old.children) }
{
    if children.is_empty() {
        return Ok(());
    }
    command.node.built = false;
    command.node.next_order = order_children(&mut children, command.node.next_order);
    append_to(&mut command.children, children)
}

/// Makes room for `count` more arguments, so that adding these moves the others only once.
///
/// # Errors
///
/// `AllocError` if the allocation fails. The arguments are then dropped.
pub fn reserve_arguments(node: &mut Node, alloc: Global, count: usize) -> Result<(), AllocError>
    ensures ok { OnOk result (node.new ≡ node.old) }
{
    let mut arguments = replace(&mut node.arguments, Items::new(alloc)).into_vec();
    arguments.reserve_exact(count)?;
    node.arguments = Items::from(arguments);
    Ok(())
}

/// Makes room for `count` more children, so that adding these moves the others only once.
///
/// # Errors
///
/// `AllocError` if the allocation fails.
pub fn reserve_children(command: &mut Command, count: usize) -> Result<(), AllocError>
    ensures same { command.new ≡ command.old }
{
    command.children.reserve_exact(count)
}

// Adds a child at the end. The first child gets room for one only: a `Vec` would begin with room
// for four, but in a deep tree most commands have one child.
fn push_child(children: &mut Vec<Command>, child: Command) -> Result<(), AllocError>
    ensures ok { OnOk result (children.new.items ≡ children.old.items ++ child ∷ []) }
    ensures err { OnErr result (children.new.items ≡ children.old.items) }
{
    if children.is_empty()
        && let Err(error) = children.reserve_exact(1)
    {
        // One call here, instead of a drop of each field.
        drop(child);
        return Err(error);
    }
    children.push(child)?;
    Ok(())
}

// Gives each option and flag the next display order, unless it has one of its own. Returns the next
// display order after them.
fn order_arguments(arguments: &mut [Arg], order: usize) -> usize
    ensures ordered { arguments.new ≡ ordered_arguments order arguments.old }
    ensures next { result ≡ fold order_after order arguments.old }
{
    let mut next = order;
    for argument in arguments.iter_mut() {
        if argument.is_positional() {
            continue;
        }
        fill_display_order(argument, next);
        next = next.saturating_add(1);
    }
    next
}

// Gives each child the next display order, unless it has one of its own. Returns the next display
// order after them.
fn order_children(children: &mut [Command], order: usize) -> usize
    ensures ordered { children.new ≡ ordered_children order children.old }
    ensures next { result ≡ fold order_after_child order children.old }
{
    let mut next = order;
    for child in children.iter_mut() {
        child.fill_display_order(next);
        next = next.saturating_add(1);
    }
    next
}

// Appends the arguments to those of the node. If an allocation fails, the node keeps its own.
fn append_arguments(node: &mut Node, arguments: Vec<Arg>) -> Result<(), AllocError>
    ensures ok { OnOk result
        (node.new ≡ record node.old { arguments = node.old.arguments ++ arguments.items }) }
    ensures err { OnErr result (node.new ≡ node.old) }
{
    let alloc = *arguments.allocator();
    let mut own = replace(&mut node.arguments, Items::new(alloc)).into_vec();
    let appended = append_to(&mut own, arguments);
    node.arguments = Items::from(own);
    appended
}

// Appends `added` to the items. If there are none, it becomes the list, so no item is moved. If an
// allocation fails, the items stay.
fn append_to<T: Drop>(items: &mut Vec<T>, mut added: Vec<T>) -> Result<(), AllocError>
    ensures ok { OnOk result (items.new.items ≡ items.old.items ++ added.items) }
    ensures err { OnErr result (items.new.items ≡ items.old.items) }
{
    if items.is_empty() {
        *items = added;
        return Ok(());
    }
    items.append(&mut added)
}
