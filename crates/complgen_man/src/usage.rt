//! The synopsis of a command, its aliases, and its description.

ghost use Rattle.std.specs.Prelude.{◌≡◌, ◌++◌, codes, filter, flat_map};
ghost use Rattle.std.specs.List.{list_any};
ghost use Rattle.std.specs.Option.{option_copied};
ghost use Rattle.cc_base.specs.Writes.{Writes, as_write};
ghost use Rattle.cc_command.specs.Tree.{forest_of};
ghost use Rattle.complgen_man.specs.Page.{alias_line, aliases_text, bold_text, command_mark};
ghost use Rattle.complgen_man.specs.Page.{command_words, description, further_bold, has_shown};
ghost use Rattle.complgen_man.specs.Page.{is_shown_option, is_shown_positional, notes_text};
ghost use Rattle.complgen_man.specs.Page.{options_mark, request_text, spaced_values};
ghost use Rattle.complgen_man.specs.Page.{synopsis_text, usage_text};

use crate::arguments::{is_shown_option, is_shown_positional};
use crate::escapes::{put_request, write_bold, write_further_bold, write_paragraph};
use crate::labels::write_spaced_values;
use cc_arg::Arg;
use cc_base::{Sink, Text, put_piece, put_pieces};
use cc_command::{Command, full_name};
use std::io::ErrorKind;

/// Writes how a command is called, and its visible aliases.
#[tactic(auto, unfolding(crate::specs::Page::usage_text))]
pub(crate) fn write_usage<W: Sink>(sink: &mut W, command: &Command) -> Result<(), ErrorKind>
    ensures { Writes W.taken W.failed (as_write result) sink.old sink.new
        (usage_text command.now) }
{
    write_synopsis(sink, command)?;
    write_aliases(sink, command.get_visible_aliases())
}

#[tactic(auto, unfolding(crate::specs::Page::synopsis_text))]
fn write_synopsis<W: Sink>(sink: &mut W, command: &Command) -> Result<(), ErrorKind>
    ensures { Writes W.taken W.failed (as_write result) sink.old sink.new
        (synopsis_text command.now) }
{
    write_bold(sink, full_name(command))?;
    put_piece(sink, options_mark(command.get_arguments()))?;
    write_positionals(sink, command.get_arguments())?;
    put_pieces(sink, &[command_mark(command), "\n"])
}

// Returns what represents the options and flags that are not hidden, if there are any.
#[tactic(auto, unfolding(crate::specs::Page::options_mark))]
fn options_mark(arguments: &[Arg]) -> &'static str
    ensures { result.now ≡ options_mark arguments.now }
{
    if has_shown_option(arguments) {
        return " [\\fIOPTIONS\\fR]";
    }
    ""
}

fn has_shown_option(arguments: &[Arg]) -> bool
    ensures { result ≡ list_any is_shown_option arguments.now }
{
    for argument in arguments {
        if is_shown_option(argument) {
            return true;
        }
    }
    false
}

// Returns the placeholder for subcommands, or an empty text if all of them are hidden.
#[tactic(auto, unfolding(crate::specs::Page::command_mark))]
fn command_mark(command: &Command) -> &'static str
    ensures { result.now ≡ command_mark command.now }
{
    if has_shown(command.get_subcommands()) {
        return command_words(command.is_subcommand_required_set());
    }
    ""
}

fn command_words(required: bool) -> &'static str
    ensures { result.now ≡ command_words required }
{
    if required {
        " \\fICOMMAND\\fR"
    } else {
        " [\\fICOMMAND\\fR]"
    }
}

/// Returns whether one of the commands is not hidden.
pub(crate) fn has_shown(children: &[Command]) -> bool
    ensures { result ≡ has_shown (forest_of children.now) }
{
    for child in children {
        if !child.is_hide_set() {
            return true;
        }
    }
    false
}

#[tactic(auto, using(cc_base::proofs::WrittenTexts::in_steps))]
fn write_positionals<W: Sink>(sink: &mut W, arguments: &[Arg]) -> Result<(), ErrorKind>
    ensures { Writes W.taken W.failed (as_write result) sink.old sink.new
        (flat_map spaced_values (filter is_shown_positional arguments.now)) }
{
    for argument in arguments {
        if !is_shown_positional(argument) {
            continue;
        }
        write_spaced_values(sink, argument)?;
    }
    Ok(())
}

fn write_aliases<W: Sink>(sink: &mut W, aliases: &[Text]) -> Result<(), ErrorKind>
    ensures { Writes W.taken W.failed (as_write result) sink.old sink.new
        (aliases_text aliases.now) }
{
    match aliases.split_first() {
        None => Ok(()),
        Some((alias, others)) => write_alias_line(sink, alias.as_str(), others),
    }
}

#[tactic(auto, unfolding(crate::specs::Page::alias_line))]
fn write_alias_line<'a, W: Sink>(
    sink: &mut W,
    alias: &'a str,
    others: &'a [Text],
) -> Result<(), ErrorKind>
    ensures { Writes W.taken W.failed (as_write result) sink.old sink.new
        (alias_line alias.now others.now) }
{
    write_titled_aliases(sink, "br\nAliases: ", alias, others)
}

fn write_titled_aliases<'a, W: Sink>(
    sink: &mut W,
    title: &'a str,
    alias: &'a str,
    others: &'a [Text],
) -> Result<(), ErrorKind>
    ensures { Writes W.taken W.failed (as_write result) sink.old sink.new
        (request_text title.now ++ bold_text alias.now ++ flat_map further_bold others.now
        ++ codes "\n") }
{
    put_request(sink, title)?;
    write_bold(sink, alias)?;
    write_other_aliases(sink, others)?;
    put_piece(sink, "\n")
}

#[tactic(auto, using(cc_base::proofs::WrittenTexts::in_steps))]
fn write_other_aliases<W: Sink>(sink: &mut W, aliases: &[Text]) -> Result<(), ErrorKind>
    ensures { Writes W.taken W.failed (as_write result) sink.old sink.new
        (flat_map further_bold aliases.now) }
{
    for alias in aliases {
        write_further_bold(sink, alias.as_str())?;
    }
    Ok(())
}

/// Returns the long description of a command, or the short one if there is no long one.
pub(crate) fn description(command: &Command) -> &str
    ensures { result.now ≡ description command.now.node }
{
    match command.get_long_about() {
        Some(text) => text,
        None => command.get_about().unwrap_or(""),
    }
}

/// Writes the text at the end of a command's help as a paragraph.
pub(crate) fn write_notes<W: Sink>(sink: &mut W, notes: Option<&str>) -> Result<(), ErrorKind>
    ensures { Writes W.taken W.failed (as_write result) sink.old sink.new
        (notes_text (option_copied notes.entry)) }
{
    let Some(notes) = notes else {
        return Ok(());
    };
    put_request(sink, "PP\n")?;
    write_paragraph(sink, notes)
}
