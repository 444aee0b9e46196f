//! The lines of a command's options and flags.

ghost use Rattle.std.specs.Prelude.{◌≡◌, flat_map};
ghost use Rattle.cc_base.specs.Writes.{Writes, as_write};
ghost use Rattle.cc_command.specs.Iterators.{arguments_left};
ghost use Rattle.cc_zsh.specs.Options.{argument_line, argument_text, help_text, repeated_text, value_sign};

use crate::conflicts::write_conflicts;
use crate::escaped::put_escaped_between;
use crate::names::write_name;
use crate::texts::LINE_END;
use crate::values::write_values;
use cc_arg::{Arg, ArgAction, ShownName, shown_names};
use cc_base::{Sink, put_piece};
use cc_command::{Arguments, Command};
use cc_quote::ZshHelpEscape;
use std::io::ErrorKind;

#[tactic(auto, using(cc_base::proofs::WrittenTexts::in_steps))]
pub(crate) fn write_arguments<W: Sink>(
    sink: &mut W,
    above: &Command,
    command: &Command,
    arguments: Arguments<'_>,
) -> Result<(), ErrorKind>
    ensures { Writes W.taken W.failed (as_write result) sink.old sink.new
        (flat_map (argument_text above.now.node command.now.node)
        (arguments_left arguments.entry)) }
{
    for argument in arguments {
        write_argument(sink, above, command, argument)?;
    }
    Ok(())
}

// Writes a line for each shown name of an argument.
#[tactic(auto, using(cc_base::proofs::WrittenTexts::in_steps), unfolding(crate::specs::Options::argument_text))]
fn write_argument<W: Sink>(
    sink: &mut W,
    above: &Command,
    command: &Command,
    argument: &Arg,
) -> Result<(), ErrorKind>
    ensures { Writes W.taken W.failed (as_write result) sink.old sink.new
        (argument_text above.now.node command.now.node argument.now) }
{
    for name in shown_names(argument) {
        write_line(sink, above, command, argument, &name)?;
    }
    Ok(())
}

fn write_line<W: Sink>(
    sink: &mut W,
    above: &Command,
    command: &Command,
    argument: &Arg,
    name: &ShownName<'_>,
) -> Result<(), ErrorKind>
    ensures { Writes W.taken W.failed (as_write result) sink.old sink.new
        (argument_line above.now.node command.now.node argument.now name.now) }
{
    put_piece(sink, "'")?;
    write_conflicts(sink, above, command, argument)?;
    put_piece(sink, star(argument))?;
    write_name(sink, name)?;
    put_piece(sink, value_sign(argument, name))?;
    write_help(sink, argument)?;
    write_values(sink, argument)?;
    put_piece(sink, LINE_END)
}

// Returns a star if the argument may be used again.
fn star(argument: &Arg) -> &'static str
    ensures { result.now ≡ repeated_text argument.now }
{
    match argument.get_action() {
        ArgAction::Count | ArgAction::Append => "*",
        _ => "",
    }
}

// Returns the sign between the name of an option and its value, such as `=`.
fn value_sign(argument: &Arg, name: &ShownName<'_>) -> &'static str
    ensures { result.now ≡ value_sign argument.now name.now }
{
    if !argument.takes_values() {
        return "";
    }
    match name {
        ShownName::Short(_) => "+",
        ShownName::Long(_) => "=",
    }
}

// Writes the help text in brackets, which are there even without a help text.
#[tactic(auto, using(cc_base::proofs::WrittenTexts::after_bytes), unfolding(crate::specs::Options::help_text))]
fn write_help<W: Sink>(sink: &mut W, argument: &Arg) -> Result<(), ErrorKind>
    ensures { Writes W.taken W.failed (as_write result) sink.old sink.new
        (help_text argument.now) }
{
    let help = argument.get_help().unwrap_or("");
    put_escaped_between(sink, "[", &ZshHelpEscape, help, "]")
}
