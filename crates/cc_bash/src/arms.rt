//! The words and option values that a script offers at each command.

ghost use Rattle.std.specs.Prelude.{◌≡◌, map, flat_map, OnOk};
ghost use Rattle.std.specs.Ordering.{nat_cmp};
ghost use Rattle.std.specs.Cmp.Lexicographic.{slice_cmp};
ghost use Rattle.cc_base.specs.Sorting.{in_order};
ghost use Rattle.cc_base.specs.Writes.{Writes, as_write};
ghost use Rattle.cc_bash.specs.Arms.{Arm, arm_below, arm_of, details_at, node_arm, words_at};
ghost use Rattle.cc_bash.specs.Nodes.{labelled_of};
ghost use Rattle.cc_bash.specs.Script.{arm_text};

use crate::details::write_details;
use crate::nodes::LabelledNode;
use crate::texts::{ARM_BEGINS, ARM_DETAILS, ARM_ENDS, ARM_LEVEL, ARM_WORDS};
use crate::words::write_words;
use cc_base::{Error, Sink, put_around, put_piece};
use cc_command::Command;
use std::alloc::{AllocError, Global};
use std::cmp::Ordering;
use std::io::ErrorKind;

/// Sorts nodes into the order of their arms.
pub(crate) fn sort_nodes(nodes: &mut Vec<LabelledNode<'_>>) -> Result<(), AllocError>
    ensures { OnOk result (map labelled_of nodes.new.items
        ≡ in_order arm_below (map labelled_of nodes.old.items)) }
{
    nodes.sort_by(|one, other| compare_sort_texts(one, other))
}

fn compare_sort_texts(one: &LabelledNode<'_>, other: &LabelledNode<'_>) -> Ordering
    ensures { result ≡ slice_cmp nat_cmp one.now.sort_text other.now.sort_text }
{
    one.sort_text.as_str().cmp(other.sort_text.as_str())
}

#[tactic(auto, using(cc_base::proofs::WrittenTexts::in_steps))]
pub(crate) fn write_arms<W: Sink>(
    alloc: Global,
    sink: &mut W,
    nodes: &[LabelledNode<'_>],
) -> Result<(), Error>
    ensures { Writes W.taken W.failed result sink.old sink.new
        (flat_map arm_text (map node_arm (map labelled_of nodes.now))) }
{
    for node in nodes {
        write_arm(alloc, sink, node.label.as_str(), node.level, node.command)?;
    }
    Ok(())
}

/// Writes the arm of `command` with the given `label` and `level`.
pub(crate) fn write_arm<W: Sink>(
    alloc: Global,
    sink: &mut W,
    label: &str,
    level: usize,
    command: &Command,
) -> Result<(), Error>
    ensures { Writes W.taken W.failed result sink.old sink.new
        (arm_text (arm_of label.now level command.now)) }
{
    let level = format!(in alloc; "{level}")?;
    Ok(write_levelled(sink, label, level.as_str(), command)?)
}

// Writes an arm, given its level in digits.
fn write_levelled<'a, W: Sink>(
    sink: &mut W,
    label: &'a str,
    level: &'a str,
    command: &Command,
) -> Result<(), ErrorKind>
    ensures { Writes W.taken W.failed (as_write result) sink.old sink.new
        (let arm : Arm = record {
          label = label.now;
          level = level.now;
          words = words_at command.now;
          details = details_at command.now.node;
        } in arm_text arm) }
{
    put_around(sink, ARM_BEGINS, label, ARM_WORDS)?;
    write_words(sink, command)?;
    put_around(sink, ARM_LEVEL, level, ARM_DETAILS)?;
    write_details(sink, command.get_opts())?;
    put_piece(sink, ARM_ENDS)
}
