//! The beginning of a script whose root has children.

ghost use Rattle.std.specs.Prelude.{◌≡◌, filter, flat_map, not, codes, [], if◌then◌else◌};
ghost use Rattle.cc_arg.specs.Arguments.{is_positional, takes_values};
ghost use Rattle.cc_arg.specs.ShownNames.{shown_longs, shown_shorts};
ghost use Rattle.cc_base.specs.Writes.{Writes, as_write};
ghost use Rattle.cc_fish.specs.Script.{first_long, first_short, functions_text, head_text};
ghost use Rattle.cc_fish.specs.Script.{slash_text, spec_text};

use crate::texts::{
    NEEDS_COMMAND_BEGIN, NEEDS_COMMAND_END, NEEDS_COMMAND_PARSE, OPTSPECS_BEGIN, OPTSPECS_JOIN,
    USING_SUBCOMMAND_CALL, USING_SUBCOMMAND_END,
};
use cc_arg::Arg;
use cc_base::{Sink, put_around, put_piece, put_pieces};
use cc_command::Command;
use cc_quote::{FishEscape, put_escaped};
use std::io::ErrorKind;

/// Writes the head, which is empty if the root has no children.
///
/// # Errors
///
/// The kind of the put that failed.
#[tactic(auto, unfolding(crate::specs::Script::head_text))]
pub(crate) fn write_head<W: Sink>(
    sink: &mut W,
    function: &str,
    command: &Command,
) -> Result<(), ErrorKind>
    ensures { Writes W.taken W.failed (as_write result) sink.old sink.new
        (head_text function.now command.now) }
{
    if !command.has_subcommands() {
        return Ok(());
    }
    put_around(sink, OPTSPECS_BEGIN, function, OPTSPECS_JOIN)?;
    write_specs(sink, command.get_arguments())?;
    write_functions(sink, function)
}

// Writes the functions, from the end of the first one on.
#[tactic(auto, unfolding(crate::specs::Script::functions_text, crate::specs::Script::fixed_texts))]
fn write_functions<W: Sink>(sink: &mut W, function: &str) -> Result<(), ErrorKind>
    ensures { Writes W.taken W.failed (as_write result) sink.old sink.new
        (functions_text function.now) }
{
    let pieces = [
        NEEDS_COMMAND_BEGIN,
        function,
        NEEDS_COMMAND_PARSE,
        function,
        NEEDS_COMMAND_END,
        function,
        USING_SUBCOMMAND_CALL,
        function,
        USING_SUBCOMMAND_END,
    ];
    put_pieces(sink, &pieces)
}

#[tactic(auto, using(cc_base::proofs::WrittenTexts::in_steps))]
fn write_specs<W: Sink>(sink: &mut W, arguments: &[Arg]) -> Result<(), ErrorKind>
    ensures { Writes W.taken W.failed (as_write result) sink.old sink.new
        (flat_map spec_text (filter (λ argument. not (is_positional argument)) arguments.now)) }
{
    for argument in arguments {
        if argument.is_positional() {
            continue;
        }
        write_spec(sink, argument)?;
    }
    Ok(())
}

fn write_spec<W: Sink>(sink: &mut W, argument: &Arg) -> Result<(), ErrorKind>
    ensures { Writes W.taken W.failed (as_write result) sink.old sink.new (spec_text argument.now) }
{
    put_piece(sink, " ")?;
    write_first_short(sink, argument)?;
    write_first_long(sink, argument)?;
    put_piece(sink, equals(argument))
}

fn write_first_short<W: Sink>(sink: &mut W, argument: &Arg) -> Result<(), ErrorKind>
    ensures { Writes W.taken W.failed (as_write result) sink.old sink.new
        (first_short (shown_shorts argument.now) (shown_longs argument.now)) }
{
    let Some(short) = argument.get_short() else {
        return Ok(());
    };
    let mut buffer = [0; 4];
    put_pieces(sink, &[short.encode_utf8(&mut buffer), slash(argument)])
}

#[tactic(auto, unfolding(cc_quote::specs::FishQuote::fish_escaped))]
fn write_first_long<W: Sink>(sink: &mut W, argument: &Arg) -> Result<(), ErrorKind>
    ensures { Writes W.taken W.failed (as_write result) sink.old sink.new
        (first_long (shown_longs argument.now)) }
{
    let Some(long) = argument.get_long() else {
        return Ok(());
    };
    put_escaped(sink, &FishEscape, long)
}

// Returns the slash between a short and a long, or an empty text if there is no long. `argparse`
// takes names with a slash between them as one option.
fn slash(argument: &Arg) -> &'static str
    ensures { result.now ≡ slash_text (shown_longs argument.now) }
{
    if argument.get_long().is_some() {
        "/"
    } else {
        ""
    }
}

// Returns `=` if a value follows, as `argparse` expects it after the names.
fn equals(argument: &Arg) -> &'static str
    ensures { result.now ≡ (if takes_values argument.now then codes "=" else []) }
{
    if argument.takes_values() { "=" } else { "" }
}
