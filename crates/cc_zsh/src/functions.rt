//! The functions of a script, each of which describes the children of a command.

ghost use Rattle.std.specs.Prelude.{◌≡◌, ◌<◌, ◌++◌, None, length, map, IfOk, OnOk};
ghost use Rattle.std.specs.List.{flat_map};
ghost use Rattle.std.specs.Option.{option_copied};
ghost use Rattle.std.specs.Ordering.{nat_cmp};
ghost use Rattle.std.specs.Cmp.Lexicographic.{slice_cmp};
ghost use Rattle.cc_base.specs.Sorting.{in_order};
ghost use Rattle.cc_base.specs.Writes.{Writes, as_write};
ghost use Rattle.cc_command.specs.Names.{visible_names};
ghost use Rattle.cc_command.specs.Tree.{forest_of};
ghost use Rattle.cc_generator.specs.Flat.{tree_at};
ghost use Rattle.cc_zsh.specs.Functions.{entries_of, entries_text, entry, entry_text, function_below, function_of, function_text, functions_below, is_again, once_after, sorted_functions};
ghost use Rattle.cc_zsh.specs.Functions.{commands_begin, function_begins, unless_defined};
ghost use Rattle.cc_zsh.specs.Named.{function_named};
ghost use Rattle.cc_zsh.specs.Nested.{function_label};
ghost use Rattle.cc_zsh.specs.Script.{functions_text};

use crate::escaped::put_escaped_between;
use crate::names::{write_label, write_label_between};
use crate::texts::{
    COMMANDS_BEGIN, DESCRIBE_BEGINS, DESCRIBE_ENDS, ENTRIES_END, FUNCTION_BEGINS, UNLESS_DEFINED,
};
use cc_base::{Error, Sink, put_piece, put_pieces};
use cc_command::{Command, full_name};
use cc_generator::Flat;
use cc_quote::ZshHelpEscape;
use std::alloc::{AllocError, Global};
use std::cmp::Ordering;
use std::io::ErrorKind;

// A command with its full name.
#[derive(Clone, Copy)]
pub(crate) struct Named<'a> {
    name: &'a str,
    command: &'a Command,
}

/// Writes one function for each full name, because commands that share a name would define it
/// twice.
#[tactic(auto, unfolding(crate::specs::Script::functions_text))]
pub(crate) fn write_functions<W: Sink>(
    alloc: Global,
    sink: &mut W,
    flat: &Flat<'_>,
) -> Result<(), Error>
    requires { 0 < length flat.now }
    ensures { Writes W.taken W.failed result sink.old sink.new
        (functions_text (tree_at flat.now 0)) }
{
    write_function(sink, &with_full_name(flat.command(0)))?;
    write_sorted(alloc, sink, flat)
}

#[tactic(auto, unfolding(crate::specs::Functions::sorted_functions))]
fn write_sorted<W: Sink>(alloc: Global, sink: &mut W, flat: &Flat<'_>) -> Result<(), Error>
    requires { 0 < length flat.now }
    ensures { Writes W.taken W.failed result sink.old sink.new
        (flat_map function_text (sorted_functions (tree_at flat.now 0).children)) }
{
    let sorted = sorted_commands(alloc, flat)?;
    Ok(write_once(sink, &sorted)?)
}

// Returns the commands below the root, sorted by the bytes of their full names.
fn sorted_commands<'a>(alloc: Global, flat: &Flat<'a>) -> Result<Vec<Named<'a>>, AllocError>
    requires { 0 < length flat.now }
    ensures { IfOk result (λ sorted. map function_named sorted.items
        ≡ in_order function_below (functions_below (tree_at flat.now 0).children)) }
{
    let mut commands = commands_below(alloc, flat)?;
    sort_commands(&mut commands)?;
    Ok(commands)
}

fn sort_commands(commands: &mut Vec<Named<'_>>) -> Result<(), AllocError>
    ensures { OnOk result (map function_named commands.new.items
        ≡ in_order function_below (map function_named commands.old.items)) }
{
    commands.sort_by(|one, other| compare_names(one, other))
}

fn compare_names(one: &Named<'_>, other: &Named<'_>) -> Ordering
    ensures { result ≡ slice_cmp nat_cmp one.now.name.now other.now.name.now }
{
    one.name.cmp(other.name)
}

// Returns the commands below the root: for each child the child itself, then everything below it.
#[tactic(auto, using(crate::proofs::PreorderFunctions::functions_in_preorder))]
fn commands_below<'a>(alloc: Global, flat: &Flat<'a>) -> Result<Vec<Named<'a>>, AllocError>
    requires { 0 < length flat.now }
    ensures { IfOk result (λ found.
        map function_named found.items ≡ functions_below (tree_at flat.now 0).children) }
{
    let mut found = Vec::new(alloc);
    for node in flat.preorder() {
        found.push(with_full_name(node.command))?;
    }
    Ok(found)
}

fn with_full_name(command: &Command) -> Named<'_>
    ensures { function_named result ≡ function_of command.now.node command.now.children }
{
    Named {
        name: full_name(command),
        command,
    }
}

// Writes the function of each full name once. Commands with the same full name are neighbours, so
// it is enough to compare each with the last one.
#[tactic(auto, using(cc_base::proofs::WrittenTexts::in_steps))]
fn write_once<W: Sink>(sink: &mut W, commands: &[Named<'_>]) -> Result<(), ErrorKind>
    ensures { Writes W.taken W.failed (as_write result) sink.old sink.new
        (flat_map function_text (once_after None (map function_named commands.now))) }
{
    let mut last = None;
    for command in commands {
        if is_again(last, command.name) {
            continue;
        }
        last = Some(command.name);
        write_function(sink, command)?;
    }
    Ok(())
}

// Returns whether a name equals the name before it.
fn is_again(last: Option<&str>, name: &str) -> bool
    ensures { result ≡ is_again (option_copied last.entry) name.now }
{
    match last {
        Some(last) => last == name,
        None => false,
    }
}

fn write_function<W: Sink>(sink: &mut W, command: &Named<'_>) -> Result<(), ErrorKind>
    ensures { Writes W.taken W.failed (as_write result) sink.old sink.new
        (function_text (function_named command.now)) }
{
    write_function_begins(sink, command.name)?;
    write_entries(sink, command.command)?;
    put_pieces(sink, &[DESCRIBE_BEGINS, command.name, DESCRIBE_ENDS])
}

fn write_function_begins<W: Sink>(sink: &mut W, name: &str) -> Result<(), ErrorKind>
    ensures { Writes W.taken W.failed (as_write result) sink.old sink.new
        (unless_defined ++ function_label name.now ++ function_begins ++ function_label name.now
        ++ commands_begin) }
{
    write_label_between(sink, UNLESS_DEFINED, name, FUNCTION_BEGINS)?;
    write_label(sink, name)?;
    put_piece(sink, COMMANDS_BEGIN)
}

// Writes the entries of the children. If there are none, the brackets of the list stay on one line.
#[tactic(auto, unfolding(crate::specs::Functions::entries_text, crate::specs::Script::fixed_texts), using(crate::proofs::ArmSteps::has_entries_of))]
fn write_entries<W: Sink>(sink: &mut W, command: &Command) -> Result<(), ErrorKind>
    ensures { Writes W.taken W.failed (as_write result) sink.old sink.new
        (entries_text (entries_of command.now.children)) }
{
    if !command.has_subcommands() {
        return Ok(());
    }
    write_children(sink, command.get_subcommands())?;
    put_piece(sink, ENTRIES_END)
}

#[tactic(auto, using(cc_base::proofs::WrittenTexts::in_steps))]
fn write_children<W: Sink>(sink: &mut W, children: &[Command]) -> Result<(), ErrorKind>
    ensures { Writes W.taken W.failed (as_write result) sink.old sink.new
        (flat_map entry_text (entries_of (forest_of children.now))) }
{
    for child in children {
        write_child(sink, child)?;
    }
    Ok(())
}

#[tactic(auto, using(cc_base::proofs::WrittenTexts::in_steps))]
fn write_child<W: Sink>(sink: &mut W, child: &Command) -> Result<(), ErrorKind>
    ensures { Writes W.taken W.failed (as_write result) sink.old sink.new
        (flat_map entry_text (map (entry child.now.node) (visible_names child.now.node))) }
{
    for name in child.get_name_and_visible_aliases() {
        write_entry(sink, name, child)?;
    }
    Ok(())
}

#[tactic(auto, using(cc_base::proofs::WrittenTexts::after_bytes), unfolding(crate::specs::Functions::entry_text))]
fn write_entry<W: Sink>(sink: &mut W, name: &str, child: &Command) -> Result<(), ErrorKind>
    ensures { Writes W.taken W.failed (as_write result) sink.old sink.new
        (entry_text (entry child.now.node name.now)) }
{
    let about = child.get_about().unwrap_or("");
    put_pieces(sink, &["\n'", name])?;
    put_escaped_between(sink, ":", &ZshHelpEscape, about, "' \\")
}
