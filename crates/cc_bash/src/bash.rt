//! The generator and the whole script: its frame, with the cases and the arms.

ghost use Rattle.std.specs.Prelude.{◌≡◌, ◌∷◌, ◌++◌, map, flat_map, IfOk};
ghost use Rattle.std.specs.String.{string_bytes};
ghost use Rattle.cc_base.specs.Sorting.{in_order};
ghost use Rattle.cc_base.specs.Writes.{Writes};
ghost use Rattle.cc_command.specs.Names.{full_name};
ghost use Rattle.cc_bash.specs.Arms.{arm_below, arm_of, node_arm};
ghost use Rattle.cc_bash.specs.CaseTable.{case_below, node_cases};
ghost use Rattle.cc_bash.specs.Labels.{labelled_under, root_label, shared_label};
ghost use Rattle.cc_bash.specs.Nodes.{labelled_of};
ghost use Rattle.cc_bash.specs.Script.{arm_text, script_text, case_text, head_text, tail_text};
ghost use Rattle.cc_bash.specs.Texts.{arms_begin};

use crate::arms::{sort_nodes, write_arm, write_arms};
use crate::cases::{sorted_cases, write_cases};
use crate::clash::shared_label;
use crate::nodes::{LabelledNode, labelled_nodes};
use crate::texts::{
    ARMS_BEGIN, ARMS_END, CASES_BEGIN, FUNCTION_BEGINS, FUNCTION_HEAD, OTHERWISE, SCRIPT_ENDS,
    SORTED_OPTIONS, UNSORTED_OPTIONS,
};
use cc_base::{Error, Sink, Text, put_text, put_texts};
use cc_command::{Command, full_name};
use cc_generator::{Flat, Generator};
use cc_quote::{Replace, escape_text};
use std::alloc::{AllocError, Global};

/// The generator of bash scripts. The script of a program `N` goes into the file `N.bash`.
#[derive(Clone, Copy, PartialEq, Eq, Debug)]
pub struct Bash;

impl Generator for Bash {
    ghost use Rattle.cc_bash.specs.Reads.{bash_spec};

    ghost spec = { λ _. bash_spec };

    fn file_name(&self, alloc: Global, name: &str) -> Result<String, Error> {
        Ok([name, ".bash"].concat(alloc)?)
    }

    #[tactic(auto, using(crate::proofs::WholeScript::generates_memory))]
    fn generate<W: Sink>(
        &self,
        alloc: Global,
        command: &Command,
        sink: &mut W,
    ) -> Result<(), Error> {
        let root = root_label(alloc, command)?;
        let nodes = nodes_below(alloc, command, root.as_str())?;
        if let Some(label) = shared_label(alloc, root.as_str(), &nodes)? {
            return Err(Error::LabelClash(label));
        }
        write_script(alloc, sink, command, root.as_str(), nodes)
    }
}

/// Returns the label that two nodes of `command` share, or `None` if all labels differ. It is the
/// label of the first node whose label an earlier node has. If a command is built under a bin name,
/// the generator fails with this label. Without such a label it reports no clash.
///
/// # Errors
///
/// `AllocError` if an allocation fails.
pub fn clashing_label(alloc: Global, command: &Command) -> Result<Option<Text>, AllocError>
    ensures { IfOk result (λ shared. shared ≡ shared_label command.now) }
{
    let root = root_label(alloc, command)?;
    let nodes = nodes_below(alloc, command, root.as_str())?;
    shared_label(alloc, root.as_str(), &nodes)
}

// Returns the label of the root.
fn root_label(alloc: Global, command: &Command) -> Result<String, AllocError>
    ensures { IfOk result (λ label. string_bytes label ≡ root_label command.now) }
{
    let escape = Replace {
        byte: b'-',
        by: "__",
    };
    escape_text(alloc, &escape, full_name(command))
}

// Returns the nodes below the root, whose label is `root`, in preorder.
fn nodes_below<'a>(
    alloc: Global,
    command: &'a Command,
    root: &str,
) -> Result<Vec<LabelledNode<'a>>, AllocError>
    ensures { IfOk result (λ nodes. map labelled_of nodes.items
        ≡ labelled_under root.now 2 command.now.children) }
{
    let flat = Flat::new(alloc, command)?;
    labelled_nodes(alloc, &flat, root)
}

// Writes the script, given the label of the root and the nodes below it.
fn write_script<W: Sink>(
    alloc: Global,
    sink: &mut W,
    command: &Command,
    root: &str,
    nodes: Vec<LabelledNode<'_>>,
) -> Result<(), Error>
    ensures { Writes W.taken W.failed result sink.old sink.new
        (script_text root.now (full_name command.now.node)
        (in_order case_below (flat_map node_cases (map labelled_of nodes.entry.items)))
        (arm_of root.now 1 command.now
        ∷ map node_arm (in_order arm_below (map labelled_of nodes.entry.items)))) }
{
    write_before_arms(alloc, sink, root, &nodes)?;
    // the root's path has one name
    write_arm(alloc, sink, root, 1, command)?;
    write_sorted_arms(alloc, sink, nodes)?;
    write_tail(sink, root, full_name(command))
}

// Writes the script up to its arms, given the label of the root and the nodes below it.
fn write_before_arms<W: Sink>(
    alloc: Global,
    sink: &mut W,
    root: &str,
    nodes: &[LabelledNode<'_>],
) -> Result<(), Error>
    ensures { Writes W.taken W.failed result sink.old sink.new (head_text root.now
        ++ flat_map case_text
        (in_order case_below (flat_map node_cases (map labelled_of nodes.now)))
        ++ arms_begin) }
{
    write_head(sink, root)?;
    write_table(alloc, sink, nodes)?;
    put_text(sink, ARMS_BEGIN)
}

#[tactic(auto, unfolding(crate::specs::Script::head_text, crate::specs::Texts::fixed_texts))]
fn write_head<W: Sink>(sink: &mut W, label: &str) -> Result<(), Error>
    ensures { Writes W.taken W.failed result sink.old sink.new (head_text label.now) }
{
    let texts = [FUNCTION_BEGINS, label, FUNCTION_HEAD, label, CASES_BEGIN];
    put_texts(sink, &texts)
}

fn write_table<W: Sink>(
    alloc: Global,
    sink: &mut W,
    nodes: &[LabelledNode<'_>],
) -> Result<(), Error>
    ensures { Writes W.taken W.failed result sink.old sink.new
        (flat_map case_text
        (in_order case_below (flat_map node_cases (map labelled_of nodes.now)))) }
{
    let cases = sorted_cases(alloc, nodes)?;
    Ok(write_cases(sink, &cases)?)
}

fn write_sorted_arms<W: Sink>(
    alloc: Global,
    sink: &mut W,
    mut nodes: Vec<LabelledNode<'_>>,
) -> Result<(), Error>
    ensures { Writes W.taken W.failed result sink.old sink.new
        (flat_map arm_text
        (map node_arm (in_order arm_below (map labelled_of nodes.entry.items)))) }
{
    sort_nodes(&mut nodes)?;
    write_arms(alloc, sink, &nodes)
}

#[tactic(auto, unfolding(crate::specs::Script::tail_text, crate::specs::Texts::fixed_texts))]
fn write_tail<'a, W: Sink>(sink: &mut W, label: &'a str, bin: &'a str) -> Result<(), Error>
    ensures { Writes W.taken W.failed result sink.old sink.new (tail_text label.now bin.now) }
{
    let texts = [
        ARMS_END,
        label,
        UNSORTED_OPTIONS,
        bin,
        OTHERWISE,
        label,
        SORTED_OPTIONS,
        bin,
        SCRIPT_ENDS,
    ];
    put_texts(sink, &texts)
}
