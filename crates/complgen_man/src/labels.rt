//! The label of an argument: its names and its values.

ghost use Rattle.std.specs.Prelude.{◌≡◌, ◌++◌, flat_map, codes, encode_utf8, OnOk, true};
ghost use Rattle.cc_base.specs.Joined.{separator};
ghost use Rattle.cc_base.specs.Writes.{Writes, as_write};
ghost use Rattle.complgen_man.specs.Roff.{escaped_word};
ghost use Rattle.complgen_man.specs.Page.{further_value, is_optional, label_text, labels_text};
ghost use Rattle.complgen_man.specs.Page.{name_text, names_text, spaced_values, takes_more};
ghost use Rattle.complgen_man.specs.Page.{value_text, values_text, where_true};

use crate::escapes::put_word_between;
use cc_arg::{Arg, ArgAction, ShownName, counted_range, shown_names};
use cc_base::{Sink, Text, put_piece, put_pieces, put_separator};
use std::io::ErrorKind;

/// Writes the values of a positional, or the names of an option or a flag and its values if it
/// takes any.
#[tactic(auto, unfolding(crate::specs::Page::label_text))]
pub(crate) fn write_label<W: Sink>(sink: &mut W, argument: &Arg) -> Result<(), ErrorKind>
    ensures { Writes W.taken W.failed (as_write result) sink.old sink.new
        (label_text argument.now) }
{
    if argument.is_positional() {
        return write_values(sink, argument);
    }
    write_names(sink, argument)?;
    if !argument.takes_values() {
        return Ok(());
    }
    write_spaced_values(sink, argument)
}

#[tactic(auto, using(cc_base::proofs::WrittenTexts::in_steps))]
fn write_names<W: Sink>(sink: &mut W, argument: &Arg) -> Result<(), ErrorKind>
    ensures { Writes W.taken W.failed (as_write result) sink.old sink.new
        (names_text argument.now) }
{
    let mut begun = false;
    for name in shown_names(argument) {
        write_joined_name(sink, &mut begun, &name)?;
    }
    Ok(())
}

fn write_joined_name<W: Sink>(
    sink: &mut W,
    begun: &mut bool,
    name: &ShownName<'_>,
) -> Result<(), ErrorKind>
    ensures written { Writes W.taken W.failed (as_write result) sink.old sink.new
        (separator (codes ", ") begun.old ++ name_text name.now) }
    ensures begun { OnOk result (begun.new ≡ true) }
{
    put_separator(sink, ", ", begun)?;
    write_name(sink, name)
}

#[tactic(auto, unfolding(crate::specs::Page::name_text))]
fn write_name<W: Sink>(sink: &mut W, name: &ShownName<'_>) -> Result<(), ErrorKind>
    ensures { Writes W.taken W.failed (as_write result) sink.old sink.new (name_text name.now) }
{
    match name {
        ShownName::Short(short) => write_short(sink, *short),
        ShownName::Long(long) => put_word_between(sink, "\\fB\\-\\-", long.as_str(), "\\fR"),
    }
}

fn write_short<W: Sink>(sink: &mut W, short: char) -> Result<(), ErrorKind>
    ensures { Writes W.taken W.failed (as_write result) sink.old sink.new
        (codes "\\fB\\-" ++ escaped_word (encode_utf8 short) ++ codes "\\fR") }
{
    let mut buffer = [0; 4];
    let name = short.encode_utf8(&mut buffer);
    put_word_between(sink, "\\fB\\-", name, "\\fR")
}

/// Writes the values of an argument after a space.
#[tactic(auto, using(cc_base::proofs::WrittenTexts::after_bytes), unfolding(crate::specs::Page::spaced_values))]
pub(crate) fn write_spaced_values<W: Sink>(sink: &mut W, argument: &Arg) -> Result<(), ErrorKind>
    ensures { Writes W.taken W.failed (as_write result) sink.old sink.new
        (spaced_values argument.now) }
{
    put_piece(sink, " ")?;
    write_values(sink, argument)
}

#[tactic(auto, unfolding(crate::specs::Page::values_text))]
fn write_values<W: Sink>(sink: &mut W, argument: &Arg) -> Result<(), ErrorKind>
    ensures { Writes W.taken W.failed (as_write result) sink.old sink.new
        (values_text argument.now) }
{
    let optional = may_be_left_out(argument);
    put_piece(sink, where_true(optional, "["))?;
    write_value_names(sink, argument.get_id(), argument.get_value_names())?;
    let more = where_true(may_take_more(argument), "...");
    put_pieces(sink, &[more, where_true(optional, "]")])
}

// Returns the text if the test holds, and an empty one otherwise.
fn where_true(holds: bool, text: &'static str) -> &'static str
    ensures { result.now ≡ where_true holds text.now }
{
    if holds { text } else { "" }
}

fn write_value_names<'a, W: Sink>(
    sink: &mut W,
    id: &'a str,
    names: &'a [Text],
) -> Result<(), ErrorKind>
    ensures { Writes W.taken W.failed (as_write result) sink.old sink.new
        (labels_text id.now names.now) }
{
    match names.split_first() {
        None => write_value_name(sink, id),
        Some((name, others)) => {
            write_value_name(sink, name.as_str())?;
            write_other_names(sink, others)
        }
    }
}

#[tactic(auto, using(cc_base::proofs::WrittenTexts::in_steps))]
fn write_other_names<W: Sink>(sink: &mut W, names: &[Text]) -> Result<(), ErrorKind>
    ensures { Writes W.taken W.failed (as_write result) sink.old sink.new
        (flat_map further_value names.now) }
{
    for name in names {
        write_further_name(sink, name.as_str())?;
    }
    Ok(())
}

#[tactic(auto, unfolding(crate::specs::Page::further_value, crate::specs::Page::value_text))]
fn write_further_name<W: Sink>(sink: &mut W, name: &str) -> Result<(), ErrorKind>
    ensures { Writes W.taken W.failed (as_write result) sink.old sink.new
        (further_value name.now) }
{
    put_word_between(sink, " \\fI<", name, ">\\fR")
}

#[tactic(auto, unfolding(crate::specs::Page::value_text))]
fn write_value_name<W: Sink>(sink: &mut W, name: &str) -> Result<(), ErrorKind>
    ensures { Writes W.taken W.failed (as_write result) sink.old sink.new (value_text name.now) }
{
    put_word_between(sink, "\\fI<", name, ">\\fR")
}

// Returns whether the values can be left out.
fn may_be_left_out(argument: &Arg) -> bool
    ensures { result ≡ is_optional argument.now }
{
    counted_range(argument).min_values() == 0
        || (argument.is_positional() && !argument.is_required_set())
}

// Returns whether more values can follow than there are names.
fn may_take_more(argument: &Arg) -> bool
    ensures { result ≡ takes_more argument.now }
{
    let written = argument.get_value_names().len().max(1);
    counted_range(argument).max_values() > written
        || (argument.is_positional() && argument.get_action() == ArgAction::Append)
}
