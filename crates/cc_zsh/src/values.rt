//! The values of an argument.

ghost use Rattle.std.specs.Prelude.{◌≡◌, ◌++◌, true, OnOk};
ghost use Rattle.std.specs.List.{list_any};
ghost use Rattle.cc_base.specs.Joined.{separator};
ghost use Rattle.cc_base.specs.Writes.{Writes, as_write};
ghost use Rattle.cc_zsh.specs.Values.{first_name, hint_text, is_described, item_help, item_separator, item_text, items_text, list_text, one_value, range, times, value_text, values_text};

use crate::escaped::put_escaped_between;
use cc_arg::{Arg, PossibleValue, ValueHint, ValueRange, possible_values};
use cc_base::{Sink, Text, put_around, put_piece, put_separator};
use cc_quote::{ZshHelpEscape, ZshValueEscape, put_escaped};
use std::io::ErrorKind;

// The form of a list of values.
#[derive(Clone, Copy)]
enum Form {
    Names,
    // the names with the help texts
    Helps,
}

/// Returns how many values an argument takes.
pub(crate) fn range(argument: &Arg) -> ValueRange
    ensures { result ≡ range argument.now }
{
    argument.get_num_args().unwrap_or(ValueRange::new(1, 1))
}

/// Writes the values of an argument, or nothing if it takes none.
#[tactic(auto, using(cc_base::proofs::WrittenTexts::after_bytes), unfolding(crate::specs::Values::values_text))]
pub(crate) fn write_values<W: Sink>(sink: &mut W, argument: &Arg) -> Result<(), ErrorKind>
    ensures { Writes W.taken W.failed (as_write result) sink.old sink.new
        (values_text argument.now) }
{
    if !argument.takes_values() {
        return Ok(());
    }
    let least = range(argument).min_values();
    if least == 0 {
        put_piece(sink, ":")?;
        return write_one(sink, argument);
    }
    write_times(sink, least, argument)
}

#[tactic(auto, using(cc_base::proofs::WrittenTexts::in_steps))]
fn write_times<W: Sink>(sink: &mut W, count: usize, argument: &Arg) -> Result<(), ErrorKind>
    ensures { Writes W.taken W.failed (as_write result) sink.old sink.new
        (times count (one_value argument.now)) }
{
    let mut left = count;
    while left > 0 {
        write_one(sink, argument)?;
        left -= 1;
    }
    Ok(())
}

#[tactic(auto, using(cc_base::proofs::WrittenTexts::after_bytes), unfolding(crate::specs::Values::one_value))]
fn write_one<W: Sink>(sink: &mut W, argument: &Arg) -> Result<(), ErrorKind>
    ensures { Writes W.taken W.failed (as_write result) sink.old sink.new (one_value argument.now) }
{
    put_around(sink, ":", first_name(argument.get_value_names()), ":")?;
    write_value(sink, argument)
}

// Returns the first value name, or a space.
fn first_name(names: &[Text]) -> &str
    ensures { result.now ≡ first_name names.now }
{
    match names.first() {
        Some(name) => name.as_str(),
        None => " ",
    }
}

#[tactic(auto, unfolding(crate::specs::Values::value_text))]
pub(crate) fn write_value<W: Sink>(sink: &mut W, argument: &Arg) -> Result<(), ErrorKind>
    ensures { Writes W.taken W.failed (as_write result) sink.old sink.new
        (value_text argument.now) }
{
    match possible_values(argument) {
        Some(values) => write_list(sink, values),
        None => put_piece(sink, hint(argument.get_value_hint())),
    }
}

#[tactic(auto, using(cc_base::proofs::WrittenTexts::after_bytes), unfolding(crate::specs::Values::list_text))]
fn write_list<W: Sink>(sink: &mut W, values: &[PossibleValue]) -> Result<(), ErrorKind>
    ensures { Writes W.taken W.failed (as_write result) sink.old sink.new (list_text values.now) }
{
    if is_any_described(values) {
        return write_bracketed(sink, "((", Form::Helps, values, "))");
    }
    write_bracketed(sink, "(", Form::Names, values, ")")
}

// Writes a list between its brackets.
fn write_bracketed<W: Sink>(
    sink: &mut W,
    opening: &str,
    form: Form,
    values: &[PossibleValue],
    closing: &str,
) -> Result<(), ErrorKind>
    ensures { Writes W.taken W.failed (as_write result) sink.old sink.new
        (opening.now ++ items_text form values.now ++ closing.now) }
{
    put_piece(sink, opening)?;
    write_items(sink, form, values)?;
    put_piece(sink, closing)
}

// Returns whether a value is not hidden and has a help text.
fn is_any_described(values: &[PossibleValue]) -> bool
    ensures { result ≡ list_any is_described values.now }
{
    values
        .iter()
        .any(|value| !value.is_hide_set() && value.get_help().is_some())
}

#[tactic(auto, using(cc_base::proofs::WrittenTexts::in_steps))]
fn write_items<W: Sink>(sink: &mut W, form: Form, values: &[PossibleValue]) -> Result<(), ErrorKind>
    ensures { Writes W.taken W.failed (as_write result) sink.old sink.new
        (items_text form values.now) }
{
    let mut begun = false;
    for value in values {
        if value.is_hide_set() {
            continue;
        }
        write_item(sink, form, value, &mut begun)?;
    }
    Ok(())
}

// Writes an item, after a separator if `begun` says that an item was written before.
#[tactic(auto, unfolding(crate::specs::Values::item_text))]
fn write_item<W: Sink>(
    sink: &mut W,
    form: Form,
    value: &PossibleValue,
    begun: &mut bool,
) -> Result<(), ErrorKind>
    ensures written { Writes W.taken W.failed (as_write result) sink.old sink.new
        (separator (item_separator form) begun.old ++ item_text form value.now) }
    ensures begun { OnOk result (begun.new ≡ true) }
{
    put_separator(sink, item_separator(form), begun)?;
    put_escaped(sink, &ZshValueEscape, value.get_name())?;
    match form {
        Form::Names => Ok(()),
        Form::Helps => write_help(sink, value.get_help().unwrap_or("")),
    }
}

fn item_separator(form: Form) -> &'static str
    ensures { result.now ≡ item_separator form }
{
    match form {
        Form::Names => " ",
        Form::Helps => "\n",
    }
}

#[tactic(auto, using(cc_base::proofs::WrittenTexts::after_bytes), unfolding(crate::specs::Values::item_help))]
fn write_help<W: Sink>(sink: &mut W, help: &str) -> Result<(), ErrorKind>
    ensures { Writes W.taken W.failed (as_write result) sink.old sink.new (item_help help.now) }
{
    put_escaped_between(sink, "\\:\"", &ZshHelpEscape, help, "\"")
}

#[tactic(auto, unfolding(crate::specs::Values::hint_text))]
fn hint(hint: ValueHint) -> &'static str
    ensures { result.now ≡ hint_text hint }
{
    match hint {
        ValueHint::Unknown => "_default",
        ValueHint::Other => "",
        ValueHint::AnyPath | ValueHint::FilePath => "_files",
        ValueHint::DirPath => "_files -/",
        ValueHint::ExecutablePath => "_absolute_command_paths",
        ValueHint::CommandName => "_command_names -e",
        ValueHint::CommandString => "_cmdstring",
        ValueHint::CommandWithArguments => "_cmdambivalent",
        ValueHint::Username => "_users",
        ValueHint::Hostname => "_hosts",
        ValueHint::Url => "_urls",
        ValueHint::EmailAddress => "_email_addresses",
    }
}
