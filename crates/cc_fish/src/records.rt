//! The records of a node, each a line.

ghost use Rattle.std.specs.Prelude.{◌≡◌, [], flat_map, codes, encode_utf8, if◌then◌else◌};
ghost use Rattle.std.specs.Option.{option_copied};
ghost use Rattle.cc_arg.specs.ShownNames.{shown_longs, shown_shorts};
ghost use Rattle.cc_base.specs.Writes.{Writes, as_write};
ghost use Rattle.cc_command.specs.Iterators.{arguments_left};
ghost use Rattle.cc_command.specs.Names.{visible_names};
ghost use Rattle.cc_command.specs.Tree.{forest_of};
ghost use Rattle.cc_generator.specs.Meaning.{visit_of};
ghost use Rattle.cc_fish.specs.Script.{argument_text, below_text, child_text, children_text};
ghost use Rattle.cc_fish.specs.Script.{help_text, long_text, names_text, node_text, short_text};
ghost use Rattle.cc_fish.specs.Script.{visit_text};
ghost use Rattle.cc_fish.specs.Table.{has_positionals};

use crate::front::set_front;
use crate::values::write_values;
use cc_arg::{Arg, shown_longs, shown_shorts};
use cc_base::{Error, Sink, put_around, put_piece, put_pieces};
use cc_command::{Arguments, Command};
use cc_generator::Visit;
use cc_quote::{FishEscape, put_escaped};
use std::io::ErrorKind;

/// Writes the records of a visit. `front` is a buffer for the beginning of each record; its old
/// text is dropped.
#[tactic(auto, unfolding(crate::specs::Script::visit_text))]
pub(crate) fn write_visit<W: Sink>(
    sink: &mut W,
    bin_name: &str,
    function: &str,
    visit: &Visit<'_>,
    front: &mut String,
) -> Result<(), Error>
    ensures { Writes W.taken W.failed result sink.old sink.new
        (visit_text bin_name.now function.now (visit_of visit.now)) }
{
    set_front(front, bin_name, function, visit.key.as_str(), visit.command)?;
    Ok(write_node(sink, front.as_str(), visit.command)?)
}

// Writes the records of a node. Each begins with `front`.
fn write_node<W: Sink>(sink: &mut W, front: &str, command: &Command) -> Result<(), ErrorKind>
    ensures { Writes W.taken W.failed (as_write result) sink.old sink.new
        (node_text front.now command.now) }
{
    write_arguments(sink, front, true, command.get_opts())?;
    write_arguments(sink, front, false, command.get_flags())?;
    write_below(sink, front, command)
}

// Writes the records of options, which take values, or of flags, which take none.
#[tactic(auto, using(cc_base::proofs::WrittenTexts::in_steps))]
fn write_arguments<W: Sink>(
    sink: &mut W,
    front: &str,
    takes: bool,
    arguments: Arguments<'_>,
) -> Result<(), ErrorKind>
    ensures { Writes W.taken W.failed (as_write result) sink.old sink.new
        (flat_map (argument_text front.now takes) (arguments_left arguments.entry)) }
{
    for argument in arguments {
        write_argument(sink, front, takes, argument)?;
    }
    Ok(())
}

fn write_argument<W: Sink>(
    sink: &mut W,
    front: &str,
    takes: bool,
    argument: &Arg,
) -> Result<(), ErrorKind>
    ensures { Writes W.taken W.failed (as_write result) sink.old sink.new
        (argument_text front.now takes argument.now) }
{
    put_piece(sink, front)?;
    write_names(sink, argument)?;
    write_values(sink, takes, argument)?;
    put_piece(sink, "\n")
}

fn write_names<W: Sink>(sink: &mut W, argument: &Arg) -> Result<(), ErrorKind>
    ensures { Writes W.taken W.failed (as_write result) sink.old sink.new
        (names_text argument.now) }
{
    write_shorts(sink, argument)?;
    write_longs(sink, argument)?;
    write_help(sink, argument.get_help())
}

#[tactic(auto, using(cc_base::proofs::WrittenTexts::in_steps))]
fn write_shorts<W: Sink>(sink: &mut W, argument: &Arg) -> Result<(), ErrorKind>
    ensures { Writes W.taken W.failed (as_write result) sink.old sink.new
        (flat_map short_text (shown_shorts argument.now)) }
{
    for short in shown_shorts(argument) {
        write_short(sink, short)?;
    }
    Ok(())
}

#[tactic(auto, using(cc_base::proofs::WrittenTexts::after_bytes), unfolding(crate::specs::Script::short_text))]
fn write_short<W: Sink>(sink: &mut W, short: char) -> Result<(), ErrorKind>
    ensures { Writes W.taken W.failed (as_write result) sink.old sink.new (short_text short) }
{
    let mut buffer = [0; 4];
    put_pieces(sink, &[" -s ", short.encode_utf8(&mut buffer)])
}

#[tactic(auto, using(cc_base::proofs::WrittenTexts::in_steps))]
fn write_longs<W: Sink>(sink: &mut W, argument: &Arg) -> Result<(), ErrorKind>
    ensures { Writes W.taken W.failed (as_write result) sink.old sink.new
        (flat_map long_text (shown_longs argument.now)) }
{
    for long in shown_longs(argument) {
        write_long(sink, long)?;
    }
    Ok(())
}

#[tactic(auto, using(cc_base::proofs::WrittenTexts::after_bytes), unfolding(crate::specs::Script::long_text, cc_quote::specs::FishQuote::fish_escaped))]
fn write_long<W: Sink>(sink: &mut W, long: &str) -> Result<(), ErrorKind>
    ensures { Writes W.taken W.failed (as_write result) sink.old sink.new (long_text long.now) }
{
    put_piece(sink, " -l ")?;
    put_escaped(sink, &FishEscape, long)
}

// Writes the help text of an argument, or the description of a child.
#[tactic(auto, using(cc_base::proofs::WrittenTexts::after_bytes), unfolding(cc_quote::specs::FishQuote::fish_escaped))]
fn write_help<W: Sink>(sink: &mut W, help: Option<&str>) -> Result<(), ErrorKind>
    ensures { Writes W.taken W.failed (as_write result) sink.old sink.new
        (help_text (option_copied help.entry)) }
{
    let Some(help) = help else {
        return Ok(());
    };
    put_piece(sink, " -d '")?;
    put_escaped(sink, &FishEscape, help)?;
    put_piece(sink, "'")
}

#[tactic(auto, unfolding(crate::specs::Script::below_text))]
fn write_below<W: Sink>(sink: &mut W, front: &str, command: &Command) -> Result<(), ErrorKind>
    ensures { Writes W.taken W.failed (as_write result) sink.old sink.new
        (below_text front.now command.now) }
{
    let no_files = !has_positionals(command);
    write_children(sink, front, no_files, command.get_subcommands())
}

fn has_positionals(command: &Command) -> bool
    ensures { result ≡ has_positionals command.now.node }
{
    command
        .get_arguments()
        .iter()
        .any(|argument| argument.is_positional())
}

#[tactic(auto, using(cc_base::proofs::WrittenTexts::in_steps))]
fn write_children<W: Sink>(
    sink: &mut W,
    front: &str,
    no_files: bool,
    children: &[Command],
) -> Result<(), ErrorKind>
    ensures { Writes W.taken W.failed (as_write result) sink.old sink.new
        (children_text front.now no_files (forest_of children.now)) }
{
    for child in children {
        write_child(sink, front, no_files, child)?;
    }
    Ok(())
}

#[tactic(auto, using(cc_base::proofs::WrittenTexts::in_steps))]
fn write_child<W: Sink>(
    sink: &mut W,
    front: &str,
    no_files: bool,
    child: &Command,
) -> Result<(), ErrorKind>
    ensures { Writes W.taken W.failed (as_write result) sink.old sink.new
        (flat_map (child_text front.now no_files child.now.node.about)
        (visible_names child.now.node)) }
{
    for name in child.get_name_and_visible_aliases() {
        write_name(sink, front, no_files, child.get_about(), name)?;
    }
    Ok(())
}

fn write_name<W: Sink>(
    sink: &mut W,
    front: &str,
    no_files: bool,
    about: Option<&str>,
    name: &str,
) -> Result<(), ErrorKind>
    ensures { Writes W.taken W.failed (as_write result) sink.old sink.new
        (child_text front.now no_files (option_copied about.entry) name.now) }
{
    put_around(sink, front, no_files_mark(no_files), " -a \"")?;
    put_pieces(sink, &[name, "\""])?;
    write_help(sink, about)?;
    put_piece(sink, "\n")
}

// Returns the mark that no file may follow, if the node has no positional.
fn no_files_mark(no_files: bool) -> &'static str
    ensures { result.now ≡ (if no_files then codes " -f" else []) }
{
    if no_files { " -f" } else { "" }
}
