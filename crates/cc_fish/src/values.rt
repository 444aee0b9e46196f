//! The values of an option in a record.

ghost use Rattle.std.specs.Prelude.{◌≡◌, ◌++◌, ◌∷◌, [], not, true, unwrap_or, OnOk, Some};
ghost use Rattle.cc_base.specs.Bytes.{line_feed};
ghost use Rattle.cc_base.specs.Joined.{separator};
ghost use Rattle.cc_base.specs.Writes.{Writes, as_write};
ghost use Rattle.cc_fish.specs.Script.{hint_text, listed_text, value_lines, value_text};
ghost use Rattle.cc_fish.specs.Script.{values_text};

use crate::texts::LIST_BEGIN;
use cc_arg::{Arg, PossibleValue, ValueHint, possible_values};
use cc_base::{Sink, put_piece, put_separator};
use cc_quote::{put_fish_help_for_eval, put_fish_quoted_for_eval};
use std::io::ErrorKind;

/// Writes the values of an argument, or nothing if it takes none.
#[tactic(auto, unfolding(crate::specs::Script::values_text))]
pub(crate) fn write_values<W: Sink>(
    sink: &mut W,
    takes: bool,
    argument: &Arg,
) -> Result<(), ErrorKind>
    ensures { Writes W.taken W.failed (as_write result) sink.old sink.new
        (values_text takes argument.now) }
{
    if !takes {
        return Ok(());
    }
    match possible_values(argument) {
        Some(values) => write_listed(sink, values),
        None => put_piece(sink, hint_marks(argument.get_value_hint())),
    }
}

#[tactic(auto, unfolding(crate::specs::Script::listed_text))]
fn write_listed<W: Sink>(sink: &mut W, values: &[PossibleValue]) -> Result<(), ErrorKind>
    ensures { Writes W.taken W.failed (as_write result) sink.old sink.new
        (listed_text values.now) }
{
    put_piece(sink, LIST_BEGIN)?;
    write_lines(sink, values)?;
    put_piece(sink, "\"")
}

#[tactic(auto, using(cc_base::proofs::WrittenTexts::in_steps), unfolding(crate::specs::Script::value_lines))]
fn write_lines<W: Sink>(sink: &mut W, values: &[PossibleValue]) -> Result<(), ErrorKind>
    ensures { Writes W.taken W.failed (as_write result) sink.old sink.new
        (value_lines values.now) }
{
    let mut begun = false;
    for value in values {
        if !is_shown(value) {
            continue;
        }
        write_value(sink, &mut begun, value)?;
    }
    Ok(())
}

fn is_shown(value: &PossibleValue) -> bool
    ensures { result ≡ not value.now.hide }
{
    !value.is_hide_set()
}

#[tactic(auto, unfolding(crate::specs::Script::value_text))]
fn write_value<W: Sink>(
    sink: &mut W,
    begun: &mut bool,
    value: &PossibleValue,
) -> Result<(), ErrorKind>
    ensures written { Writes W.taken W.failed (as_write result) sink.old sink.new
        (separator (line_feed ∷ []) begun.old ++ value_text value.now) }
    ensures begun { OnOk result (begun.new ≡ true) }
{
    put_separator(sink, "\n", begun)?;
    put_fish_quoted_for_eval(sink, value.get_name())?;
    put_piece(sink, "\\t")?;
    put_fish_help_for_eval(sink, value.get_help().unwrap_or(""))
}

// A value follows, and fish offers its default completions.
const BY_DEFAULT: &str = " -r";

// A value follows, and files are offered.
const FILES: &str = " -r -F";

// A value follows, and nothing is offered.
const NOTHING: &str = " -r -f";

// A value follows, and a function of fish offers values of its kind.
const DIRECTORIES: &str = " -r -f -a \"(__fish_complete_directories)\"";

const COMMANDS: &str = " -r -f -a \"(__fish_complete_command)\"";

const USERS: &str = " -r -f -a \"(__fish_complete_users)\"";

const HOSTS: &str = " -r -f -a \"(__fish_print_hostnames)\"";

// Returns the marks of an option whose possible values are not listed.
#[tactic(auto, unfolding(crate::specs::Script::hint_text))]
fn hint_marks(hint: ValueHint) -> &'static str
    ensures { result.now ≡ hint_text hint }
{
    match hint {
        ValueHint::Unknown => BY_DEFAULT,
        ValueHint::Other => NOTHING,
        ValueHint::AnyPath => FILES,
        ValueHint::FilePath => FILES,
        ValueHint::DirPath => DIRECTORIES,
        ValueHint::ExecutablePath => FILES,
        ValueHint::CommandName => COMMANDS,
        ValueHint::CommandString => COMMANDS,
        ValueHint::CommandWithArguments => NOTHING,
        ValueHint::Username => USERS,
        ValueHint::Hostname => HOSTS,
        ValueHint::Url => NOTHING,
        ValueHint::EmailAddress => NOTHING,
    }
}
