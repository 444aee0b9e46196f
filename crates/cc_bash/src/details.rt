//! The values that a script offers after each option.

ghost use Rattle.std.specs.Prelude.{◌++◌, codes, map, flat_map};
ghost use Rattle.cc_arg.specs.ShownNames.{shown_longs, shown_shorts};
ghost use Rattle.cc_base.specs.Writes.{Writes, as_write};
ghost use Rattle.cc_command.specs.Iterators.{arguments_left};
ghost use Rattle.cc_generator.specs.ArgumentNames.{long_word, short_word};
ghost use Rattle.cc_bash.specs.Arms.{detail_of, mode_of, names_of_shown, offered_by, option_details};
ghost use Rattle.cc_bash.specs.Script.{detail_text, moded_text, offered_text, reply_text};
ghost use Rattle.cc_bash.specs.Texts.{keep_separator, mode_begins, mode_ends, offer_files};
ghost use Rattle.cc_bash.specs.Texts.{offer_word, separator_back, values_begin, values_end};
ghost use Rattle.cc_bash.specs.Words.{words_text};

use crate::texts::{
    DETAIL_BEGINS, DETAIL_ENDS, DETAIL_WORD_ENDS, KEEP_SEPARATOR, MODE_BEGINS, MODE_ENDS,
    OFFER_FILES, OFFER_WORD, REPLY_BEGINS, REPLY_ENDS, SEPARATOR_BACK, VALUES_BEGIN, VALUES_END,
};
use crate::words::write_shown_values;
use cc_arg::{Arg, PossibleValue, ValueHint, possible_values, shown_longs, shown_shorts};
use cc_base::{Sink, put_around, put_piece, put_pieces};
use cc_command::Arguments;
use std::io::ErrorKind;

/// Writes the details of `options`. Flags and positionals have no details.
#[tactic(auto, using(cc_base::proofs::WrittenTexts::in_steps))]
pub(crate) fn write_details<W: Sink>(sink: &mut W, options: Arguments<'_>) -> Result<(), ErrorKind>
    ensures { Writes W.taken W.failed (as_write result) sink.old sink.new
        (flat_map detail_text (flat_map option_details (arguments_left options.entry))) }
{
    for option in options {
        write_option(sink, option)?;
    }
    Ok(())
}

// Writes the details of an argument's longs, then of its shorts.
fn write_option<W: Sink>(sink: &mut W, argument: &Arg) -> Result<(), ErrorKind>
    ensures { Writes W.taken W.failed (as_write result) sink.old sink.new
        (flat_map detail_text (option_details argument.now)) }
{
    write_long_details(sink, argument)?;
    write_short_details(sink, argument)
}

#[tactic(auto, using(cc_base::proofs::WrittenTexts::in_steps))]
fn write_long_details<W: Sink>(sink: &mut W, argument: &Arg) -> Result<(), ErrorKind>
    ensures { Writes W.taken W.failed (as_write result) sink.old sink.new
        (flat_map detail_text
        (map (detail_of argument.now) (map long_word (shown_longs argument.now)))) }
{
    for long in shown_longs(argument) {
        write_detail(sink, argument, "--", long)?;
    }
    Ok(())
}

#[tactic(auto, using(cc_base::proofs::WrittenTexts::in_steps))]
fn write_short_details<W: Sink>(sink: &mut W, argument: &Arg) -> Result<(), ErrorKind>
    ensures { Writes W.taken W.failed (as_write result) sink.old sink.new
        (flat_map detail_text
        (map (detail_of argument.now) (map short_word (shown_shorts argument.now)))) }
{
    for short in shown_shorts(argument) {
        let mut buffer = [0; 4];
        write_detail(sink, argument, "-", short.encode_utf8(&mut buffer))?;
    }
    Ok(())
}

fn write_detail<'a, W: Sink>(
    sink: &mut W,
    argument: &Arg,
    dashes: &'a str,
    name: &'a str,
) -> Result<(), ErrorKind>
    ensures { Writes W.taken W.failed (as_write result) sink.old sink.new
        (detail_text (detail_of argument.now (dashes.now ++ name.now))) }
{
    let pieces = [DETAIL_BEGINS, dashes, name, DETAIL_WORD_ENDS];
    put_pieces(sink, &pieces)?;
    write_moded(sink, argument)?;
    put_piece(sink, DETAIL_ENDS)
}

#[tactic(auto, unfolding(crate::specs::Script::moded_text))]
fn write_moded<W: Sink>(sink: &mut W, argument: &Arg) -> Result<(), ErrorKind>
    ensures { Writes W.taken W.failed (as_write result) sink.old sink.new
        (moded_text (mode_of argument.now) (offered_by argument.now)) }
{
    match argument.get_value_hint() {
        ValueHint::FilePath => write_file_reply(sink, argument),
        ValueHint::DirPath => write_reply_with_mode(sink, argument, "plusdirs"),
        ValueHint::Other => write_reply_with_mode(sink, argument, "nospace"),
        _ => write_reply(sink, argument),
    }
}

// Writes a reply, and the text that sets the mode with the given word.
fn write_reply_with_mode<W: Sink>(sink: &mut W, argument: &Arg, word: &str) -> Result<(), ErrorKind>
    ensures { Writes W.taken W.failed (as_write result) sink.old sink.new
        (reply_text (offered_by argument.now) ++ (mode_begins ++ word.now ++ mode_ends)) }
{
    write_reply(sink, argument)?;
    write_mode(sink, word)
}

// Writes a reply with names of files, for which the separator of words is a line feed.
fn write_file_reply<W: Sink>(sink: &mut W, argument: &Arg) -> Result<(), ErrorKind>
    ensures { Writes W.taken W.failed (as_write result) sink.old sink.new
        (keep_separator ++ reply_text (offered_by argument.now) ++ separator_back
        ++ (mode_begins ++ codes "filenames" ++ mode_ends)) }
{
    put_piece(sink, KEEP_SEPARATOR)?;
    write_reply(sink, argument)?;
    put_pieces(sink, &[SEPARATOR_BACK, MODE_BEGINS, "filenames", MODE_ENDS])
}

fn write_reply<W: Sink>(sink: &mut W, argument: &Arg) -> Result<(), ErrorKind>
    ensures { Writes W.taken W.failed (as_write result) sink.old sink.new
        (reply_text (offered_by argument.now)) }
{
    put_piece(sink, REPLY_BEGINS)?;
    write_offered(sink, argument)?;
    put_piece(sink, REPLY_ENDS)
}

#[tactic(auto, unfolding(crate::specs::Script::offered_text))]
fn write_offered<W: Sink>(sink: &mut W, argument: &Arg) -> Result<(), ErrorKind>
    ensures { Writes W.taken W.failed (as_write result) sink.old sink.new
        (offered_text (offered_by argument.now)) }
{
    if let Some(possible) = possible_values(argument) {
        return write_values(sink, possible);
    }
    match argument.get_value_hint() {
        ValueHint::DirPath => Ok(()),
        ValueHint::Other => write_typed(sink),
        _ => write_files(sink),
    }
}

fn write_values<W: Sink>(sink: &mut W, possible: &[PossibleValue]) -> Result<(), ErrorKind>
    ensures { Writes W.taken W.failed (as_write result) sink.old sink.new
        (values_begin ++ words_text (names_of_shown possible.now) ++ values_end) }
{
    put_piece(sink, VALUES_BEGIN)?;
    write_shown_values(sink, possible)?;
    put_piece(sink, VALUES_END)
}

#[tactic(auto, unfolding(crate::specs::Texts::offer_word))]
fn write_typed<W: Sink>(sink: &mut W) -> Result<(), ErrorKind>
    ensures { Writes W.taken W.failed (as_write result) sink.old sink.new offer_word }
{
    put_piece(sink, OFFER_WORD)
}

#[tactic(auto, unfolding(crate::specs::Texts::offer_files))]
fn write_files<W: Sink>(sink: &mut W) -> Result<(), ErrorKind>
    ensures { Writes W.taken W.failed (as_write result) sink.old sink.new offer_files }
{
    put_piece(sink, OFFER_FILES)
}

#[tactic(auto, unfolding(crate::specs::Texts::fixed_texts))]
fn write_mode<W: Sink>(sink: &mut W, word: &str) -> Result<(), ErrorKind>
    ensures { Writes W.taken W.failed (as_write result) sink.old sink.new
        (mode_begins ++ word.now ++ mode_ends) }
{
    put_around(sink, MODE_BEGINS, word, MODE_ENDS)
}
