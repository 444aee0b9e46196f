//! The generated child `help`, with its copies of the children.

ghost use Rattle.std.specs.Prelude.{◌≡◌, ◌∷◌, [], Some, IfOk};
ghost use Rattle.std.specs.Option.{option_copied};
ghost use Rattle.cc_command.specs.Tree.{forest_of, none, join};
ghost use Rattle.cc_command.specs.Built.{built_forest};
ghost use Rattle.cc_command.specs.Names.{joined_name};
ghost use Rattle.cc_command.specs.Texts.{help_name};
ghost use Rattle.cc_command.specs.Generated.{copies, generated_node, help_command};
ghost use Rattle.cc_command.specs.Generated.{needs_help_child};

use crate::command::Command;
use crate::command::build::joined_name;
use crate::command::build::texts::{HELP_ABOUT, HELP_NAME};
use crate::command::children::has_child;
use crate::node::Node;
use cc_base::Text;
use std::alloc::{AllocError, Global};

#[tactic(auto, unfolding(crate::specs::Texts::fixed_texts))]
pub(super) fn needs_help_child(node: &Node, children: &[Command]) -> bool
    ensures { result ≡ needs_help_child node.now (forest_of children.now) }
{
    !children.is_empty() && !node.disable_help_subcommand && !has_child(children, HELP_NAME)
}

// Makes the child `help`. Its children are copies of the siblings, then a child `help` of its own.
#[tactic(auto, unfolding(crate::specs::Texts::fixed_texts))]
pub(super) fn help_command(
    siblings: &[Command],
    alloc: Global,
    parent: &str,
) -> Result<Command, AllocError>
    ensures ok { IfOk result (λ command. forest_of (command ∷ []) ≡ help_command parent.now
        (join (copies (joined_name parent.now help_name) 0 (forest_of siblings.now))
        (help_command (joined_name parent.now help_name) none))) }
{
    let name = joined_name(alloc, parent, HELP_NAME)?;
    let mut children = copies_of(siblings, alloc, name.as_str(), 1)?;
    let last = joined_name(alloc, name.as_str(), HELP_NAME)?;
    children.push(generated_command(
        alloc,
        HELP_NAME,
        last,
        Some(HELP_ABOUT),
        999,
        false,
        Vec::new(alloc),
    )?)?;
    generated_command(
        alloc,
        HELP_NAME,
        name,
        Some(HELP_ABOUT),
        999,
        false,
        children,
    )
}

// Copies the siblings and all commands below them. The list has room for `spare` more commands.
fn copies_of(
    siblings: &[Command],
    alloc: Global,
    parent: &str,
    spare: usize,
) -> Result<Vec<Command>, AllocError>
    ensures ok { IfOk result (λ made.
        forest_of made.items ≡ copies parent.now 0 (forest_of siblings.now)) }
{
    let mut made = Vec::with_capacity(alloc, siblings.len().saturating_add(spare))?;
    for (position, sibling) in siblings.iter().enumerate() {
        let name = joined_name(alloc, parent, sibling.get_name())?;
        let below = copies_of(&sibling.children, alloc, name.as_str(), 0)?;
        let hide = sibling.node.hide;
        made.push(generated_command(
            alloc,
            sibling.get_name(),
            name,
            sibling.get_about(),
            position,
            hide,
            below,
        )?)?;
    }
    Ok(made)
}

fn generated_command(
    alloc: Global,
    name: &str,
    bin_name: Text,
    about: Option<&str>,
    order: usize,
    hide: bool,
    children: Vec<Command>,
) -> Result<Command, AllocError>
    requires stays { built_forest [] bin_name (forest_of children.items)
        ≡ forest_of children.items }
    ensures ok { IfOk result (λ command. command ≡ record {
      node = generated_node name.now bin_name (option_copied about.entry) order hide;
      children = forest_of children.items;
    }) }
{
    let node = generated_node(alloc, name, bin_name, about, order, hide)?;
    Ok(Command { node, children })
}

fn generated_node(
    alloc: Global,
    name: &str,
    bin_name: Text,
    about: Option<&str>,
    order: usize,
    hide: bool,
) -> Result<Node, AllocError>
    ensures ok { IfOk result (λ node.
        node ≡ generated_node name.now bin_name (option_copied about.entry) order hide) }
{
    let name = Text::copy_of(alloc, name)?;
    let about = Text::copy_of_some(alloc, about)?;
    let mut node = Node::new(alloc, name);
    node.bin_name = Some(bin_name);
    node.about = about;
    node.display_order = Some(order);
    node.hide = hide;
    node.disable_help_flag = true;
    node.disable_version_flag = true;
    node.disable_help_subcommand = true;
    node.generated = true;
    node.built = true;
    Ok(node)
}
