//! The lines of a command's positionals.

ghost use Rattle.std.specs.Prelude.{◌≡◌, false};
ghost use Rattle.std.specs.Option.{option_copied};
ghost use Rattle.cc_base.specs.Writes.{Writes, as_write};
ghost use Rattle.cc_command.specs.ArgumentLists.{positionals};
ghost use Rattle.cc_quote.specs.ZshQuote.{zsh_replacement};
ghost use Rattle.cc_zsh.specs.Positionals.{count_text, is_left_out, is_positional_escaped, positional_escaped, positional_help, positional_text, positionals_text, rest_text, takes_all, takes_rest, takes_several};

use crate::escaped::put_escaped_between;
use crate::texts::LINE_END;
use crate::values::{range, write_value};
use cc_arg::Arg;
use cc_base::{Sink, put_piece, put_pieces};
use cc_command::Command;
use cc_quote::{ByteEscape, ZshValueEscape, put_escaped};
use std::io::ErrorKind;

#[tactic(auto, using(cc_base::proofs::WrittenTexts::in_steps), unfolding(crate::specs::Positionals::positionals_text))]
pub(crate) fn write_positionals<W: Sink>(sink: &mut W, command: &Command) -> Result<(), ErrorKind>
    ensures { Writes W.taken W.failed (as_write result) sink.old sink.new
        (positionals_text command.now) }
{
    let has_children = command.has_subcommands();
    let mut taken = false;
    for positional in command.get_positionals() {
        let left_out = is_left_out(taken, positional);
        taken = taken || takes_all(has_children, positional);
        if left_out {
            continue;
        }
        write_positional(sink, has_children, positional)?;
    }
    Ok(())
}

// Returns whether a positional is left out. `taken` says whether a positional before it takes all
// words.
fn is_left_out(taken: bool, argument: &Arg) -> bool
    ensures { result ≡ is_left_out taken argument.now }
{
    taken && (argument.is_last_set() || takes_several(argument))
}

fn takes_several(argument: &Arg) -> bool
    ensures { result ≡ takes_several argument.now }
{
    range(argument).max_values() > 1
}

// Returns whether a positional takes all words that follow, or all up to its terminator.
fn takes_rest(has_children: bool, argument: &Arg) -> bool
    ensures { result ≡ takes_rest has_children argument.now }
{
    takes_several(argument) && !has_children
}

// Returns whether a positional takes all words that follow, to the end.
fn takes_all(has_children: bool, argument: &Arg) -> bool
    ensures { result ≡ takes_all has_children argument.now }
{
    takes_rest(has_children, argument) && !argument.get_value_terminator().is_some()
}

fn write_positional<W: Sink>(
    sink: &mut W,
    has_children: bool,
    argument: &Arg,
) -> Result<(), ErrorKind>
    ensures { Writes W.taken W.failed (as_write result) sink.old sink.new
        (positional_text has_children argument.now) }
{
    put_piece(sink, "'")?;
    write_count(sink, has_children, argument)?;
    put_pieces(sink, &[":", argument.get_id()])?;
    write_help(sink, argument.get_help())?;
    put_piece(sink, ":")?;
    write_value(sink, argument)?;
    put_piece(sink, LINE_END)
}

#[tactic(auto, unfolding(crate::specs::Positionals::count_text))]
fn write_count<W: Sink>(sink: &mut W, has_children: bool, argument: &Arg) -> Result<(), ErrorKind>
    ensures { Writes W.taken W.failed (as_write result) sink.old sink.new
        (count_text has_children argument.now) }
{
    if takes_rest(has_children, argument) {
        return write_rest(sink, argument.get_value_terminator());
    }
    if argument.is_required_set() {
        return Ok(());
    }
    put_piece(sink, ":")
}

#[tactic(auto, using(cc_base::proofs::WrittenTexts::after_bytes), unfolding(cc_quote::specs::ZshQuote::zsh_escaped_value))]
fn write_rest<W: Sink>(sink: &mut W, terminator: Option<&str>) -> Result<(), ErrorKind>
    ensures { Writes W.taken W.failed (as_write result) sink.old sink.new
        (rest_text (option_copied terminator.entry)) }
{
    let Some(terminator) = terminator else {
        return put_piece(sink, "*:");
    };
    put_escaped_between(sink, "*", &ZshValueEscape, terminator, ":")
}

#[tactic(auto, using(cc_base::proofs::WrittenTexts::after_bytes), unfolding(crate::specs::Positionals::positional_escaped))]
fn write_help<W: Sink>(sink: &mut W, help: Option<&str>) -> Result<(), ErrorKind>
    ensures { Writes W.taken W.failed (as_write result) sink.old sink.new
        (positional_help (option_copied help.entry)) }
{
    let Some(help) = help else {
        return Ok(());
    };
    put_piece(sink, " -- ")?;
    put_escaped(sink, &PositionalEscape, help)
}

// The escape of a positional's help text: a backslash before `[`, `]` and `:`, and `'` as `'\''`.
struct PositionalEscape;

impl ByteEscape for PositionalEscape {
    ghost escapes = { λ _. is_positional_escaped };

    ghost replacement = { λ _. zsh_replacement };

    fn replacement(&self, byte: u8) -> Option<&'static str> {
        match byte {
            b'[' => Some("\\["),
            b']' => Some("\\]"),
            b':' => Some("\\:"),
            b'\'' => Some("'\\''"),
            _ => None,
        }
    }
}
