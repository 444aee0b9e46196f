//! The case table.

ghost use Rattle.std.specs.Prelude.{◌≡◌, ◌++◌, map, flat_map, IfOk, OnOk};
ghost use Rattle.cc_base.specs.Sorting.{in_order};
ghost use Rattle.cc_base.specs.Writes.{Writes, as_write};
ghost use Rattle.cc_bash.specs.CaseTable.{case_below, node_cases};
ghost use Rattle.cc_bash.specs.Nodes.{case_of, labelled_of};
ghost use Rattle.cc_bash.specs.Script.{case_text};

use crate::nodes::LabelledNode;
use crate::texts::{CASE_BEGINS, CASE_COMMA, CASE_ENDS, CASE_SETS};
use cc_base::{Sink, put_pieces};
use std::alloc::{AllocError, Global};
use std::io::ErrorKind;

/// A case: from one label a word leads to another.
#[derive(Clone, Copy, PartialEq, Eq, PartialOrd, Ord, Debug)]
pub(crate) struct Case<'a> {
    from: &'a str,
    word: &'a str,
    to: &'a str,
}

/// Returns the cases that lead to the given `nodes`, sorted by their bytes.
#[tactic(auto, using(crate::proofs::CaseOrder::cases_in_order))]
pub(crate) fn sorted_cases<'a, 'b>(
    alloc: Global,
    nodes: &'a [LabelledNode<'b>],
) -> Result<Vec<Case<'a>>, AllocError>
    ensures { IfOk result (λ cases. map case_of cases.items
        ≡ in_order case_below (flat_map node_cases (map labelled_of nodes.now))) }
{
    let mut cases = cases_of(alloc, nodes)?;
    cases.sort()?;
    Ok(cases)
}

// Returns the cases, node by node.
fn cases_of<'a, 'b>(
    alloc: Global,
    nodes: &'a [LabelledNode<'b>],
) -> Result<Vec<Case<'a>>, AllocError>
    ensures { IfOk result (λ cases.
        map case_of cases.items ≡ flat_map node_cases (map labelled_of nodes.now)) }
{
    let mut cases = Vec::new(alloc);
    for node in nodes {
        push_cases(&mut cases, node)?;
    }
    Ok(cases)
}

// Adds a case for each visible name of a node.
fn push_cases<'a, 'b>(
    cases: &mut Vec<Case<'a>>,
    node: &'a LabelledNode<'b>,
) -> Result<(), AllocError>
    ensures { OnOk result (map case_of cases.new.items
        ≡ map case_of cases.old.items ++ node_cases (labelled_of node.now)) }
{
    let from = node.parent.as_str();
    let to = node.label.as_str();
    for word in node.command.get_name_and_visible_aliases() {
        cases.push(Case { from, word, to })?;
    }
    Ok(())
}

#[tactic(auto, using(cc_base::proofs::WrittenTexts::in_steps))]
pub(crate) fn write_cases<W: Sink>(sink: &mut W, cases: &[Case<'_>]) -> Result<(), ErrorKind>
    ensures { Writes W.taken W.failed (as_write result) sink.old sink.new
        (flat_map case_text (map case_of cases.now)) }
{
    for case in cases {
        write_case(sink, case)?;
    }
    Ok(())
}

#[tactic(auto, unfolding(crate::specs::Script::case_text, crate::specs::Texts::fixed_texts))]
fn write_case<W: Sink>(sink: &mut W, case: &Case<'_>) -> Result<(), ErrorKind>
    ensures { Writes W.taken W.failed (as_write result) sink.old sink.new
        (case_text (case_of case.now)) }
{
    let pieces = [
        CASE_BEGINS,
        case.from,
        CASE_COMMA,
        case.word,
        CASE_SETS,
        case.to,
        CASE_ENDS,
    ];
    put_pieces(sink, &pieces)
}
