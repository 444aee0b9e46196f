//! The arguments of a command, each with its help text, its possible values and its default value.

ghost use Rattle.std.specs.Prelude.{◌≡◌, ◌++◌, codes, filter, flat_map, not, OnOk, true};
ghost use Rattle.std.specs.List.{list_any};
ghost use Rattle.std.specs.Option.{option_copied};
ghost use Rattle.cc_arg.specs.Arguments.{possible_values};
ghost use Rattle.cc_base.specs.Joined.{separator};
ghost use Rattle.cc_base.specs.Writes.{Writes, as_write};
ghost use Rattle.complgen_man.specs.Page.{argument_text, arguments_text, bold_text, default_line};
ghost use Rattle.complgen_man.specs.Page.{default_text, described_text, is_shown_option};
ghost use Rattle.complgen_man.specs.Page.{is_shown_positional, is_shown_value, listed_text};
ghost use Rattle.complgen_man.specs.Page.{possible_text, possible_values_text, request_text};
ghost use Rattle.complgen_man.specs.Page.{value_help_text};
ghost use Rattle.complgen_man.specs.Page.{value_line, value_list};

use crate::escapes::{put_request, put_word_between, write_bold, write_paragraph};
use crate::labels::write_label;
use cc_arg::{Arg, PossibleValue, possible_values};
use cc_base::{Sink, put_piece, put_separator};
use cc_command::Command;
use std::io::ErrorKind;

/// Writes the positionals of a command, then its options and flags, without the hidden ones.
#[tactic(auto, unfolding(crate::specs::Page::arguments_text))]
pub(crate) fn write_arguments<W: Sink>(sink: &mut W, command: &Command) -> Result<(), ErrorKind>
    ensures { Writes W.taken W.failed (as_write result) sink.old sink.new
        (arguments_text command.now.node) }
{
    write_positionals(sink, command.get_arguments())?;
    write_options(sink, command.get_arguments())
}

#[tactic(auto, using(cc_base::proofs::WrittenTexts::in_steps))]
fn write_positionals<W: Sink>(sink: &mut W, arguments: &[Arg]) -> Result<(), ErrorKind>
    ensures { Writes W.taken W.failed (as_write result) sink.old sink.new
        (flat_map argument_text (filter is_shown_positional arguments.now)) }
{
    for argument in arguments {
        if !is_shown_positional(argument) {
            continue;
        }
        write_argument(sink, argument)?;
    }
    Ok(())
}

#[tactic(auto, using(cc_base::proofs::WrittenTexts::in_steps))]
fn write_options<W: Sink>(sink: &mut W, arguments: &[Arg]) -> Result<(), ErrorKind>
    ensures { Writes W.taken W.failed (as_write result) sink.old sink.new
        (flat_map argument_text (filter is_shown_option arguments.now)) }
{
    for argument in arguments {
        if !is_shown_option(argument) {
            continue;
        }
        write_argument(sink, argument)?;
    }
    Ok(())
}

/// Returns whether an argument is a positional that is not hidden.
pub(crate) fn is_shown_positional(argument: &Arg) -> bool
    ensures { result ≡ is_shown_positional argument.now }
{
    !argument.is_hide_set() && argument.is_positional()
}

/// Returns whether an argument is an option or a flag that is not hidden.
pub(crate) fn is_shown_option(argument: &Arg) -> bool
    ensures { result ≡ is_shown_option argument.now }
{
    !argument.is_hide_set() && !argument.is_positional()
}

#[tactic(auto, unfolding(crate::specs::Page::argument_text))]
fn write_argument<W: Sink>(sink: &mut W, argument: &Arg) -> Result<(), ErrorKind>
    ensures { Writes W.taken W.failed (as_write result) sink.old sink.new
        (argument_text argument.now) }
{
    put_request(sink, "TP\n\\&")?;
    write_label(sink, argument)?;
    put_piece(sink, "\n")?;
    write_described(sink, argument)
}

#[tactic(auto, unfolding(crate::specs::Page::described_text))]
fn write_described<W: Sink>(sink: &mut W, argument: &Arg) -> Result<(), ErrorKind>
    ensures { Writes W.taken W.failed (as_write result) sink.old sink.new
        (described_text argument.now) }
{
    write_paragraph(sink, argument.get_help().unwrap_or(""))?;
    write_possible_values(sink, argument)?;
    write_default(sink, argument.get_default_value())
}

fn write_possible_values<W: Sink>(sink: &mut W, argument: &Arg) -> Result<(), ErrorKind>
    ensures { Writes W.taken W.failed (as_write result) sink.old sink.new
        (possible_values_text (possible_values argument.now)) }
{
    match possible_values(argument) {
        Some(values) => write_listed(sink, values),
        None => Ok(()),
    }
}

#[tactic(auto, unfolding(crate::specs::Page::listed_text))]
fn write_listed<W: Sink>(sink: &mut W, values: &[PossibleValue]) -> Result<(), ErrorKind>
    ensures { Writes W.taken W.failed (as_write result) sink.old sink.new
        (listed_text values.now) }
{
    if !has_shown_value(values) {
        return Ok(());
    }
    write_value_line(sink, values)
}

#[tactic(auto, unfolding(crate::specs::Page::value_line))]
fn write_value_line<W: Sink>(sink: &mut W, values: &[PossibleValue]) -> Result<(), ErrorKind>
    ensures { Writes W.taken W.failed (as_write result) sink.old sink.new
        (value_line values.now) }
{
    write_titled_values(sink, "br\nPossible values: ", values)
}

// Proofs are short if the title is a variable.
fn write_titled_values<'a, W: Sink>(
    sink: &mut W,
    title: &'a str,
    values: &'a [PossibleValue],
) -> Result<(), ErrorKind>
    ensures { Writes W.taken W.failed (as_write result) sink.old sink.new
        (request_text title.now ++ value_list values.now ++ codes "\n") }
{
    put_request(sink, title)?;
    write_values(sink, values)?;
    put_piece(sink, "\n")
}

fn has_shown_value(values: &[PossibleValue]) -> bool
    ensures { result ≡ list_any is_shown_value values.now }
{
    for value in values {
        if is_shown_value(value) {
            return true;
        }
    }
    false
}

fn is_shown_value(value: &PossibleValue) -> bool
    ensures { result ≡ not value.now.hide }
{
    !value.is_hide_set()
}

#[tactic(auto, using(cc_base::proofs::WrittenTexts::in_steps))]
fn write_values<W: Sink>(sink: &mut W, values: &[PossibleValue]) -> Result<(), ErrorKind>
    ensures { Writes W.taken W.failed (as_write result) sink.old sink.new
        (value_list values.now) }
{
    let mut begun = false;
    for value in values {
        if !is_shown_value(value) {
            continue;
        }
        write_value(sink, &mut begun, value)?;
    }
    Ok(())
}

#[tactic(auto, unfolding(crate::specs::Page::possible_text))]
fn write_value<W: Sink>(
    sink: &mut W,
    begun: &mut bool,
    value: &PossibleValue,
) -> Result<(), ErrorKind>
    ensures written { Writes W.taken W.failed (as_write result) sink.old sink.new
        (separator (codes ", ") begun.old ++ possible_text value.now) }
    ensures begun { OnOk result (begun.new ≡ true) }
{
    put_separator(sink, ", ", begun)?;
    write_bold(sink, value.get_name())?;
    write_value_help(sink, value.get_help())
}

fn write_value_help<W: Sink>(sink: &mut W, help: Option<&str>) -> Result<(), ErrorKind>
    ensures { Writes W.taken W.failed (as_write result) sink.old sink.new
        (value_help_text (option_copied help.entry)) }
{
    let Some(help) = help else {
        return Ok(());
    };
    put_word_between(sink, " (", help, ")")
}

fn write_default<W: Sink>(sink: &mut W, value: Option<&str>) -> Result<(), ErrorKind>
    ensures { Writes W.taken W.failed (as_write result) sink.old sink.new
        (default_text (option_copied value.entry)) }
{
    match value {
        Some(value) => write_default_line(sink, value),
        None => Ok(()),
    }
}

#[tactic(auto, unfolding(crate::specs::Page::default_line))]
fn write_default_line<W: Sink>(sink: &mut W, value: &str) -> Result<(), ErrorKind>
    ensures { Writes W.taken W.failed (as_write result) sink.old sink.new (default_line value.now) }
{
    write_titled_value(sink, "br\nDefault: ", value)
}

fn write_titled_value<'a, W: Sink>(
    sink: &mut W,
    title: &'a str,
    value: &'a str,
) -> Result<(), ErrorKind>
    ensures { Writes W.taken W.failed (as_write result) sink.old sink.new
        (request_text title.now ++ bold_text value.now ++ codes "\n") }
{
    put_request(sink, title)?;
    write_bold(sink, value)?;
    put_piece(sink, "\n")
}
