//! The commands below the root, in preorder, without the hidden ones.

ghost use Rattle.std.specs.Prelude.{◌≡◌, ◌++◌, codes};
ghost use Rattle.cc_base.specs.Writes.{Writes, as_write};
ghost use Rattle.cc_command.specs.Tree.{forest_of};
ghost use Rattle.complgen_man.specs.Page.{command_head, command_text, commands_text, if_shown};

use crate::arguments::write_arguments;
use crate::escapes::{put_request, put_word_between, write_paragraph};
use crate::usage::{description, write_notes, write_usage};
use cc_base::Sink;
use cc_command::{Command, full_name};
use std::io::ErrorKind;

/// Writes each of the commands that is not hidden, and those below it.
#[tactic(auto, using(cc_base::proofs::WrittenTexts::in_steps))]
#[cycle(commands)]
pub(crate) fn write_commands<W: Sink>(sink: &mut W, commands: &[Command]) -> Result<(), ErrorKind>
    ensures { Writes W.taken W.failed (as_write result) sink.old sink.new
        (commands_text (forest_of commands.now)) }
{
    for command in commands {
        write_command(sink, command)?;
    }
    Ok(())
}

// Below a generated `help` are copies of the other commands, which are left out.
#[cycle(commands)]
fn write_command<W: Sink>(sink: &mut W, command: &Command) -> Result<(), ErrorKind>
    ensures { Writes W.taken W.failed (as_write result) sink.old sink.new
        (if_shown command.now.node (command_text command.now)
        (commands_text command.now.children)) }
{
    if command.is_hide_set() {
        return Ok(());
    }
    write_own(sink, command)?;
    if command.is_generated() {
        return Ok(());
    }
    write_commands(sink, command.get_subcommands())
}

#[tactic(auto, unfolding(crate::specs::Page::command_text))]
fn write_own<W: Sink>(sink: &mut W, command: &Command) -> Result<(), ErrorKind>
    ensures { Writes W.taken W.failed (as_write result) sink.old sink.new
        (command_text command.now) }
{
    write_head(sink, command)?;
    write_paragraph(sink, description(command))?;
    write_arguments(sink, command)?;
    write_notes(sink, command.get_after_help())
}

#[tactic(auto, unfolding(crate::specs::Page::command_head))]
fn write_head<W: Sink>(sink: &mut W, command: &Command) -> Result<(), ErrorKind>
    ensures { Writes W.taken W.failed (as_write result) sink.old sink.new
        (command_head command.now) }
{
    put_word_between(sink, ".SS \"", full_name(command), "\"\n\\&")?;
    write_usage(sink, command)?;
    put_request(sink, "PP\n")
}
