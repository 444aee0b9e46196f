//! The blocks of a script: the options and words offered at a command, and the arms of its
//! children.

ghost use Rattle.std.specs.Prelude.{◌≡◌, ◌<◌, length, IfOk};
ghost use Rattle.std.specs.List.{flat_map};
ghost use Rattle.std.specs.String.{string_bytes};
ghost use Rattle.cc_base.specs.Writes.{Writes, as_write};
ghost use Rattle.cc_command.specs.ArgumentLists.{positionals};
ghost use Rattle.cc_generator.specs.Flat.{tree_at};
ghost use Rattle.cc_generator.specs.Meaning.{step_of, visit_of};
ghost use Rattle.cc_zsh.specs.Nested.{arm_begins, arms_text, below_text, block_text, case_text, children_text, index_text, nested_begins, nested_ends, root_text};
ghost use Rattle.cc_zsh.specs.Steps.{enter_text, leave_text, step_text};

use crate::names::{write_dashed, write_label_between};
use crate::options::write_arguments;
use crate::positionals::write_positionals;
use crate::texts::{
    ARM_ENDS, BLOCK_BEGINS, BLOCK_ENDS, CASE_LINE, CASE_LINE_IN, CASE_STATE, COMMAND_BEGINS,
    CONTEXT_COMMAND, EXTERNAL_TEXT, NESTED_ENDS, SET_CONTEXT, SET_WORDS, STATE_BEGINS, STATE_ENDS,
};
use cc_base::{Error, Sink, Text, put_around, put_piece, put_pieces, put_text};
use cc_command::{Command, full_name};
use cc_generator::{Flat, KeyScheme, PathStep, PathSteps, Visit};
use std::alloc::{AllocError, Global};
use std::io::ErrorKind;

// The key of a node is the name by which its parent reaches it.
#[derive(Drop)]
struct LastNames;

impl KeyScheme for LastNames {
    ghost use Rattle.cc_zsh.specs.Steps.{last_name};

    ghost child_key = { λ _. last_name };

    fn child_key(&self, alloc: Global, _key: &str, name: &str) -> Result<Text, AllocError> {
        Text::copy_of(alloc, name)
    }
}

#[tactic(auto, unfolding(crate::specs::Nested::root_text))]
pub(crate) fn write_root<W: Sink>(alloc: Global, sink: &mut W, flat: &Flat<'_>) -> Result<(), Error>
    requires { 0 < length flat.now }
    ensures { Writes W.taken W.failed result sink.old sink.new (root_text (tree_at flat.now 0)) }
{
    let root = flat.command(0);
    write_block(sink, root, root)?;
    if !root.has_subcommands() {
        return Ok(());
    }
    write_nested_begins(alloc, sink, root)?;
    write_arms(alloc, sink, flat)?;
    Ok(write_nested_ends(sink)?)
}

#[tactic(auto, unfolding(crate::specs::Nested::nested_ends))]
fn write_nested_ends<W: Sink>(sink: &mut W) -> Result<(), ErrorKind>
    ensures { Writes W.taken W.failed (as_write result) sink.old sink.new nested_ends }
{
    put_piece(sink, NESTED_ENDS)
}

#[tactic(auto, using(crate::proofs::ArmSteps::steps_texts))]
fn write_arms<W: Sink>(alloc: Global, sink: &mut W, flat: &Flat<'_>) -> Result<(), Error>
    requires { 0 < length flat.now }
    ensures { Writes W.taken W.failed result sink.old sink.new
        (arms_text (tree_at flat.now 0).node (tree_at flat.now 0).children) }
{
    let keys = LastNames;
    let steps = PathSteps::below(alloc, flat, "", &keys)?;
    write_steps(alloc, sink, steps)
}

#[tactic(auto, using(cc_base::proofs::WrittenTexts::in_steps))]
fn write_steps<W: Sink>(
    alloc: Global,
    sink: &mut W,
    mut steps: PathSteps<'_, '_, LastNames>,
) -> Result<(), Error>
    ensures { Writes W.taken W.failed result sink.old sink.new
        (flat_map step_text steps.entry) }
{
    while let Some(step) = steps.next(alloc)? {
        let written = write_step(alloc, sink, &step);
        // One call here, instead of a drop of each variant at each exit.
        drop(step);
        written?;
    }
    Ok(())
}

fn write_step<W: Sink>(alloc: Global, sink: &mut W, step: &PathStep<'_>) -> Result<(), Error>
    ensures { Writes W.taken W.failed result sink.old sink.new (step_text (step_of step.now)) }
{
    match step {
        PathStep::Enter(visit) => write_enter(alloc, sink, visit),
        PathStep::Leave(visit) => Ok(write_leave(sink, visit.command)?),
    }
}

// Begins the arm of a node. The arms of its children follow, and `write_leave` ends the arm.
#[tactic(auto, using(cc_base::proofs::WrittenTexts::after_bytes), unfolding(crate::specs::Steps::enter_text, crate::specs::Steps::nested_opens))]
fn write_enter<W: Sink>(alloc: Global, sink: &mut W, visit: &Visit<'_>) -> Result<(), Error>
    ensures { Writes W.taken W.failed result sink.old sink.new (enter_text (visit_of visit.now)) }
{
    write_arm_begins(sink, visit)?;
    if !visit.command.has_subcommands() {
        return Ok(());
    }
    put_text(sink, "\n")?;
    write_nested_begins(alloc, sink, visit.command)
}

#[tactic(auto, using(cc_base::proofs::WrittenTexts::after_bytes))]
fn write_arm_begins<W: Sink>(sink: &mut W, visit: &Visit<'_>) -> Result<(), ErrorKind>
    ensures { Writes W.taken W.failed (as_write result) sink.old sink.new
        (arm_begins visit.now.key (block_text visit.now.above.now.node visit.now.command.now)) }
{
    put_around(sink, "(", visit.key.as_str(), ")\n")?;
    write_block(sink, visit.above, visit.command)
}

#[tactic(auto, unfolding(crate::specs::Steps::leave_text, crate::specs::Steps::nested_closes, crate::specs::Script::fixed_texts))]
fn write_leave<W: Sink>(sink: &mut W, command: &Command) -> Result<(), ErrorKind>
    ensures { Writes W.taken W.failed (as_write result) sink.old sink.new (leave_text command.now) }
{
    if !command.has_subcommands() {
        return put_piece(sink, ARM_ENDS);
    }
    put_pieces(sink, &[NESTED_ENDS, ARM_ENDS])
}

fn write_block<W: Sink>(sink: &mut W, above: &Command, command: &Command) -> Result<(), ErrorKind>
    ensures { Writes W.taken W.failed (as_write result) sink.old sink.new
        (block_text above.now.node command.now) }
{
    put_piece(sink, BLOCK_BEGINS)?;
    write_arguments(sink, above, command, command.get_opts())?;
    write_arguments(sink, above, command, command.get_flags())?;
    write_positionals(sink, command)?;
    write_below(sink, command)?;
    put_piece(sink, BLOCK_ENDS)
}

#[tactic(auto, unfolding(crate::specs::Nested::below_text, crate::specs::Script::fixed_texts))]
fn write_below<W: Sink>(sink: &mut W, command: &Command) -> Result<(), ErrorKind>
    ensures { Writes W.taken W.failed (as_write result) sink.old sink.new (below_text command.now) }
{
    if command.has_subcommands() {
        return write_children(sink, command);
    }
    if command.is_allow_external_subcommands_set() {
        return put_piece(sink, EXTERNAL_TEXT);
    }
    Ok(())
}

#[tactic(auto, using(crate::proofs::FixedParts::in_blocks), unfolding(crate::specs::Nested::children_text))]
fn write_children<W: Sink>(sink: &mut W, command: &Command) -> Result<(), ErrorKind>
    ensures { Writes W.taken W.failed (as_write result) sink.old sink.new
        (children_text command.now.node) }
{
    write_label_between(sink, COMMAND_BEGINS, full_name(command), STATE_BEGINS)?;
    put_pieces(sink, &[command.get_name(), STATE_ENDS])
}

fn write_nested_begins<W: Sink>(alloc: Global, sink: &mut W, command: &Command) -> Result<(), Error>
    ensures { Writes W.taken W.failed result sink.old sink.new
        (nested_begins command.now.node) }
{
    let index = index(alloc, command)?;
    Ok(write_case(sink, command, index.as_str())?)
}

// Writes the text before the arms, given the index of the word in digits.
fn write_case<'a, W: Sink>(
    sink: &mut W,
    command: &'a Command,
    index: &'a str,
) -> Result<(), ErrorKind>
    ensures { Writes W.taken W.failed (as_write result) sink.old sink.new
        (case_text command.now.node index.now) }
{
    let name = command.get_name();
    put_pieces(sink, &[CASE_STATE, name, SET_WORDS, index, SET_CONTEXT])?;
    write_dashed(sink, full_name(command))?;
    let pieces = [CONTEXT_COMMAND, index, CASE_LINE, index, CASE_LINE_IN];
    put_pieces(sink, &pieces)
}

// Returns the index of the word that names a child, which comes after the positionals.
fn index(alloc: Global, command: &Command) -> Result<String, AllocError>
    ensures { IfOk result (λ index. string_bytes index ≡ index_text command.now.node) }
{
    let mut index: usize = 1;
    for argument in command.get_arguments() {
        if !argument.is_positional() {
            continue;
        }
        index += 1;
    }
    format!(in alloc; "{index}")
}
