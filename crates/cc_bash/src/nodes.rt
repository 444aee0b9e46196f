//! The nodes of a command tree, each with its label.

ghost use Rattle.std.specs.Prelude.{◌≡◌, ◌<◌, length, map, IfOk, OnOk};
ghost use Rattle.std.specs.String.{string_bytes};
ghost use Rattle.cc_generator.specs.Flat.{tree_at};
ghost use Rattle.cc_generator.specs.Nodes.{levelled_of};
ghost use Rattle.cc_bash.specs.Labels.{child_label, labelled_node, labelled_under, sort_text};
ghost use Rattle.cc_bash.specs.Nodes.{labelled_of, last_label, next_labelled, next_path};

use cc_base::Text;
use cc_command::{Command, full_name};
use cc_generator::{Flat, LevelledNode, SharedKey};
use cc_quote::{Replace, escape_text, push_escaped};
use std::alloc::{AllocError, Global};

// The text before the name of a child in a label. It also replaces each space and dash.
const BEFORE_CHILD: &str = "__subcmd__";

/// A node below the root, with its label.
#[derive(Drop)]
pub(crate) struct LabelledNode<'a> {
    pub(crate) command: &'a Command,
    /// The number of names in its path, including the root's.
    pub(crate) level: usize,
    /// The label of its parent.
    pub(crate) parent: SharedKey,
    pub(crate) label: SharedKey,
    /// The text by which its arm is sorted.
    pub(crate) sort_text: Text,
}

/// Returns the nodes below a root with the label `root`, in preorder: each node is followed by
/// everything below it.
#[tactic(auto, using(crate::proofs::LabelledPath::labelled_in_preorder))]
pub(crate) fn labelled_nodes<'a>(
    alloc: Global,
    flat: &Flat<'a>,
    root: &str,
) -> Result<Vec<LabelledNode<'a>>, AllocError>
    requires root { 0 < length flat.now }
    ensures { IfOk result (λ nodes. map labelled_of nodes.items
        ≡ labelled_under root.now 2 (tree_at flat.now 0).children) }
{
    let root = SharedKey::new(alloc, Text::copy_of(alloc, root)?)?;
    let mut path = Vec::new(alloc);
    let mut nodes = Vec::new(alloc);
    for node in flat.preorder() {
        nodes.push(next_labelled(alloc, &root, &mut path, node)?)?;
    }
    Ok(nodes)
}

// Labels the next node in preorder. `path` holds the labels from below the root to the previous
// node, and afterwards to the labelled node.
fn next_labelled<'a>(
    alloc: Global,
    root: &SharedKey,
    path: &mut Vec<SharedKey>,
    node: LevelledNode<'a>,
) -> Result<LabelledNode<'a>, AllocError>
    ensures node { IfOk result (λ made. labelled_of made
        ≡ next_labelled root.now path.old.items (levelled_of node.entry)) }
    ensures path { OnOk result (path.new.items
        ≡ next_path root.now path.old.items (levelled_of node.entry)) }
{
    path.truncate(node.level.saturating_sub(2));
    let parent = last_label(root, path)?;
    let node = labelled_node(alloc, node, parent)?;
    path.push(node.label.share()?)?;
    Ok(node)
}

fn last_label(root: &SharedKey, path: &[SharedKey]) -> Result<SharedKey, AllocError>
    ensures { IfOk result (λ label. label ≡ last_label root.now path.now) }
{
    match path.last() {
        Some(label) => label.share(),
        None => root.share(),
    }
}

fn labelled_node<'a>(
    alloc: Global,
    node: LevelledNode<'a>,
    parent: SharedKey,
) -> Result<LabelledNode<'a>, AllocError>
    ensures { IfOk result (λ made. labelled_of made
        ≡ labelled_node parent node.entry.level node.entry.command.now) }
{
    let command = node.command;
    let label = child_label(alloc, parent.as_str(), command.get_name())?;
    let sort_text = sort_text(alloc, command)?;
    Ok(LabelledNode {
        command,
        level: node.level,
        parent,
        label: SharedKey::new(alloc, Text::from(label))?,
        sort_text: Text::from(sort_text),
    })
}

fn sort_text(alloc: Global, command: &Command) -> Result<String, AllocError>
    ensures { IfOk result (λ text. string_bytes text ≡ sort_text command.now.node) }
{
    let escape = Replace {
        byte: b' ',
        by: BEFORE_CHILD,
    };
    escape_text(alloc, &escape, full_name(command))
}

fn child_label(alloc: Global, parent: &str, name: &str) -> Result<String, AllocError>
    ensures { IfOk result (λ text. string_bytes text ≡ child_label parent.now name.now) }
{
    let added = BEFORE_CHILD.len().saturating_add(name.len());
    let mut label = String::with_capacity(alloc, parent.len().saturating_add(added))?;
    label.push_str(parent)?;
    label.push_str(BEFORE_CHILD)?;
    let escape = Replace {
        byte: b'-',
        by: BEFORE_CHILD,
    };
    push_escaped(&escape, name, &mut label)?;
    label.shrink_to_fit();
    Ok(label)
}
