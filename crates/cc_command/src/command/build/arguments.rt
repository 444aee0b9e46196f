//! The arguments that building adds, and the values that it fills in.

ghost use Rattle.std.specs.Prelude.{◌≡◌, ◌∷◌, ◌++◌, [], ◌+◌, ◌≤◌, map, length, vec_capacity};
ghost use Rattle.std.specs.Prelude.{IfOk, OnOk};
ghost use Rattle.cc_arg.specs.Arguments.{filled};
ghost use Rattle.cc_command.specs.Names.{has_id};
ghost use Rattle.cc_command.specs.Generated.{generated_arguments, generated_help, generated_version};
ghost use Rattle.cc_command.specs.Generated.{generated_flag, help_argument, version_argument};
ghost use Rattle.cc_command.specs.Built.{given_arguments, globals, indexed};
ghost use Rattle.cc_command.specs.Built.{lacks_index, with_missing};
ghost use Rattle.cc_command.specs.Additions.{HasRoom};

use crate::command::build::texts::{HELP_HELP, HELP_NAME, VERSION_HELP, VERSION_NAME};
use crate::node::Node;
use cc_arg::{Arg, ArgAction, ArgParts, copy_of, fill_index, fill_range_and_action};
use cc_base::Text;
use std::alloc::{AllocError, Global};

// Makes the arguments that a node lacks: copies of those of `inherited`, then `help` and `version`.
// The list has room for the node's own arguments too.
pub(super) fn missing_arguments(
    node: &Node,
    alloc: Global,
    inherited: &[Arg],
) -> Result<Vec<Arg>, AllocError>
    ensures ok { IfOk result (λ missing. node.now.arguments ++ missing.items
        ≡ with_missing (given_arguments inherited.now node.now) (generated_arguments node.now)) }
    ensures room { IfOk result (λ missing. HasRoom (length node.now.arguments) missing) }
{
    let own = node.arguments.as_slice();
    let mut missing = missing_inherited(node, alloc, inherited)?;
    push_help(&mut missing, own, alloc, node)?;
    push_version(&mut missing, own, alloc, node)?;
    if missing.is_empty() {
        return Ok(missing);
    }
    missing.reserve_exact(own.len())?;
    Ok(missing)
}

// Copies the inherited arguments that a node lacks.
fn missing_inherited(node: &Node, alloc: Global, inherited: &[Arg]) -> Result<Vec<Arg>, AllocError>
    ensures ok { IfOk result (λ missing.
        node.now.arguments ++ missing.items ≡ given_arguments inherited.now node.now) }
{
    if node.generated {
        return Ok(Vec::new(alloc));
    }
    missing_copies(node.arguments.as_slice(), alloc, inherited)
}

// Copies the arguments of `others` whose ids are missing from `own`.
fn missing_copies(own: &[Arg], alloc: Global, others: &[Arg]) -> Result<Vec<Arg>, AllocError>
    ensures ok { IfOk result (λ missing.
        own.now ++ missing.items ≡ with_missing own.now others.now) }
{
    let mut missing = Vec::with_capacity(alloc, others.len())?;
    for other in others {
        push_copy_if_missing(&mut missing, own, alloc, other)?;
    }
    Ok(missing)
}

// Appends copies of the global arguments among these.
pub(super) fn push_globals(
    kept: &mut Vec<Arg>,
    alloc: Global,
    arguments: &[Arg],
) -> Result<(), AllocError>
    ensures ok { OnOk result (kept.new.items ≡ kept.old.items ++ globals arguments.now) }
{
    for argument in arguments {
        if !argument.is_global_set() {
            continue;
        }
        kept.push(copy_of(alloc, argument)?)?;
    }
    Ok(())
}

// Adds the flag that shows the help, unless it is disabled or exists already.
#[tactic(auto, unfolding(crate::specs::Generated::help_argument, crate::specs::Texts::fixed_texts))]
fn push_help(
    missing: &mut Vec<Arg>,
    own: &[Arg],
    alloc: Global,
    node: &Node,
) -> Result<(), AllocError>
    ensures ok { OnOk result (own.now ++ missing.new.items
        ≡ with_missing (own.now ++ missing.old.items) (generated_help node.now)) }
{
    if node.disable_help_flag {
        return Ok(());
    }
    if has_id(own, HELP_NAME) || has_id(missing, HELP_NAME) {
        return Ok(());
    }
    reserve_for_flag(missing, own)?;
    Ok(missing.push(help_argument(alloc)?)?)
}

// Adds the flag that shows the version, if there is a version, unless the flag is disabled or
// exists already.
#[tactic(auto, unfolding(crate::specs::Generated::version_argument, crate::specs::Texts::fixed_texts))]
fn push_version(
    missing: &mut Vec<Arg>,
    own: &[Arg],
    alloc: Global,
    node: &Node,
) -> Result<(), AllocError>
    ensures ok { OnOk result (own.now ++ missing.new.items
        ≡ with_missing (own.now ++ missing.old.items) (generated_version node.now)) }
{
    if node.version.is_none() || node.disable_version_flag {
        return Ok(());
    }
    if has_id(own, VERSION_NAME) || has_id(missing, VERSION_NAME) {
        return Ok(());
    }
    reserve_for_flag(missing, own)?;
    Ok(missing.push(version_argument(alloc)?)?)
}

// Makes room for one more flag and for the node's own arguments. It reserves no more than that,
// because the list may become the node's.
fn reserve_for_flag(missing: &mut Vec<Arg>, own: &[Arg]) -> Result<(), AllocError>
    ensures same { missing.new.items ≡ missing.old.items }
    ensures room { OnOk result
        (length own.now + 1 + length missing.new.items ≤ vec_capacity missing.new) }
{
    missing.reserve_exact(own.len() + 1)
}

fn push_copy_if_missing(
    missing: &mut Vec<Arg>,
    own: &[Arg],
    alloc: Global,
    other: &Arg,
) -> Result<(), AllocError>
    ensures ok { OnOk result (own.now ++ missing.new.items
        ≡ with_missing (own.now ++ missing.old.items) (other.now ∷ [])) }
{
    let id = other.get_id();
    if has_id(own, id) || has_id(missing, id) {
        return Ok(());
    }
    missing.push(copy_of(alloc, other)?)?;
    Ok(())
}

/// Returns whether one of `arguments` has this id.
pub fn has_id(arguments: &[Arg], id: &str) -> bool
    ensures { result ≡ has_id arguments.now id.now }
{
    for argument in arguments {
        if argument.get_id() == id {
            return true;
        }
    }
    false
}

// Sets the range and the action of each argument, and the index of each positional that has none.
pub(super) fn fill_in(arguments: &mut [Arg])
    ensures ok { arguments.new ≡ indexed 1 (map filled arguments.old) }
{
    let mut count = 0;
    for argument in arguments.iter_mut() {
        fill_range_and_action(argument);
        if !lacks_index(argument) {
            continue;
        }
        count += 1;
        fill_index(argument, count);
    }
}

/// Returns whether `argument` is a positional without an index of its own.
pub fn lacks_index(argument: &Arg) -> bool
    ensures { result ≡ lacks_index argument.now }
{
    argument.is_positional() && argument.get_index().is_none()
}

#[tactic(auto, unfolding(crate::specs::Generated::help_argument, crate::specs::Texts::fixed_texts))]
fn help_argument(alloc: Global) -> Result<Arg, AllocError>
    ensures ok { IfOk result (λ argument. argument ≡ help_argument) }
{
    generated_flag(alloc, HELP_NAME, 'h', HELP_HELP, ArgAction::Help)
}

#[tactic(auto, unfolding(crate::specs::Generated::version_argument, crate::specs::Texts::fixed_texts))]
fn version_argument(alloc: Global) -> Result<Arg, AllocError>
    ensures ok { IfOk result (λ argument. argument ≡ version_argument) }
{
    generated_flag(alloc, VERSION_NAME, 'V', VERSION_HELP, ArgAction::Version)
}

// Makes a flag whose long is its id. The builders would move the argument once for each field.
fn generated_flag(
    alloc: Global,
    id: &str,
    short: char,
    help: &str,
    action: ArgAction,
) -> Result<Arg, AllocError>
    ensures ok { IfOk result
        (λ argument. argument ≡ generated_flag id.now short help.now action) }
{
    let long = Text::copy_of(alloc, id)?;
    let id = Text::copy_of(alloc, id)?;
    let help = Text::copy_of(alloc, help)?;
    let mut parts = ArgParts::new(alloc, id);
    parts.short = Some(short);
    parts.long = Some(long);
    parts.help = Some(help);
    parts.action = Some(action);
    parts.display_order = Some(999);
    Ok(Arg::from(parts))
}
