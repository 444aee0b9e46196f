//! The words that a script offers at a command: its options, the values of its positionals, and the
//! names of its children.

ghost use Rattle.std.specs.Prelude.{◌≡◌, ◌++◌, ◌||◌, codes, flat_map, true, OnOk};
ghost use Rattle.cc_base.specs.Joined.{has_texts, separator};
ghost use Rattle.cc_base.specs.Writes.{Writes, as_write};
ghost use Rattle.cc_command.specs.Names.{visible_names};
ghost use Rattle.cc_command.specs.Tree.{forest_of};
ghost use Rattle.cc_generator.specs.ArgumentNames.{short_word};
ghost use Rattle.cc_bash.specs.Arms.{long_words, names_of_shown, names_of_values};
ghost use Rattle.cc_generator.specs.Subcommands.{sibling_names};
ghost use Rattle.cc_bash.specs.Arms.{short_words, words_at};
ghost use Rattle.cc_bash.specs.Nodes.{part_words};
ghost use Rattle.cc_bash.specs.Words.{words_after, words_text};
ghost use Rattle.cc_bash.specs.declared.words.Part.TheVariants.{Values};

use cc_arg::{Arg, PossibleValue, possible_values};
use cc_base::{Sink, put_word};
use cc_command::Command;
use std::io::ErrorKind;

// The part of an argument's words that is written together.
#[derive(Clone, Copy)]
enum Part {
    Shorts,
    Longs,
    // the values of positionals
    Values,
}

#[tactic(auto, using(crate::proofs::WordParts::in_words))]
pub(crate) fn write_words<W: Sink>(sink: &mut W, command: &Command) -> Result<(), ErrorKind>
    ensures { Writes W.taken W.failed (as_write result) sink.old sink.new
        (words_text (words_at command.now)) }
{
    let arguments = command.get_arguments();
    let mut begun = false;
    write_part(sink, arguments, Part::Shorts, &mut begun)?;
    write_part(sink, arguments, Part::Longs, &mut begun)?;
    write_part(sink, arguments, Part::Values, &mut begun)?;
    write_children(sink, command.get_subcommands(), &mut begun)
}

// Writes the words of one part of all arguments. `begun` says whether a word was written before.
fn write_part<W: Sink>(
    sink: &mut W,
    arguments: &[Arg],
    part: Part,
    begun: &mut bool,
) -> Result<(), ErrorKind>
    ensures written { Writes W.taken W.failed (as_write result) sink.old sink.new
        (words_after begun.old (flat_map (part_words part) arguments.now)) }
    ensures begun { OnOk result
        (begun.new ≡ (begun.old || has_texts (flat_map (part_words part) arguments.now))) }
{
    for argument in arguments {
        write_argument_words(sink, argument, part, begun)?;
    }
    Ok(())
}

fn write_argument_words<W: Sink>(
    sink: &mut W,
    argument: &Arg,
    part: Part,
    begun: &mut bool,
) -> Result<(), ErrorKind>
    ensures written { Writes W.taken W.failed (as_write result) sink.old sink.new
        (words_after begun.old (part_words part argument.now)) }
    ensures begun { OnOk result
        (begun.new ≡ (begun.old || has_texts (part_words part argument.now))) }
{
    match part {
        Part::Shorts => write_short_words(sink, argument, begun),
        Part::Longs => write_long_words(sink, argument, begun),
        Part::Values => write_positional_values(sink, argument, begun),
    }
}

#[tactic(auto, using(cc_base::proofs::WrittenTexts::in_steps))]
fn write_short_words<W: Sink>(
    sink: &mut W,
    argument: &Arg,
    begun: &mut bool,
) -> Result<(), ErrorKind>
    ensures written { Writes W.taken W.failed (as_write result) sink.old sink.new
        (words_after begun.old (short_words argument.now)) }
    ensures begun { OnOk result (begun.new ≡ (begun.old || has_texts (short_words argument.now))) }
{
    let Some(short) = argument.get_short() else {
        return Ok(());
    };
    for alias in argument.get_visible_short_aliases() {
        write_short_word(sink, *alias, begun)?;
    }
    write_short_word(sink, short, begun)
}

fn write_short_word<W: Sink>(sink: &mut W, short: char, begun: &mut bool) -> Result<(), ErrorKind>
    ensures written { Writes W.taken W.failed (as_write result) sink.old sink.new
        (separator (codes " ") begun.old ++ short_word short) }
    ensures begun { OnOk result (begun.new ≡ true) }
{
    let mut buffer = [0; 4];
    put_word(sink, "-", short.encode_utf8(&mut buffer), begun)
}

#[tactic(auto, using(cc_base::proofs::WrittenTexts::in_steps))]
fn write_long_words<W: Sink>(
    sink: &mut W,
    argument: &Arg,
    begun: &mut bool,
) -> Result<(), ErrorKind>
    ensures written { Writes W.taken W.failed (as_write result) sink.old sink.new
        (words_after begun.old (long_words argument.now)) }
    ensures begun { OnOk result (begun.new ≡ (begun.old || has_texts (long_words argument.now))) }
{
    let Some(long) = argument.get_long() else {
        return Ok(());
    };
    for alias in argument.get_visible_aliases() {
        put_word(sink, "--", alias.as_str(), begun)?;
    }
    put_word(sink, "--", long, begun)
}

fn write_positional_values<W: Sink>(
    sink: &mut W,
    argument: &Arg,
    begun: &mut bool,
) -> Result<(), ErrorKind>
    ensures written { Writes W.taken W.failed (as_write result) sink.old sink.new
        (words_after begun.old (part_words Values argument.now)) }
    ensures begun { OnOk result
        (begun.new ≡ (begun.old || has_texts (part_words Values argument.now))) }
{
    if !argument.is_positional() {
        return Ok(());
    }
    match possible_values(argument) {
        Some(possible) => write_values(sink, possible, begun),
        None => Ok(()),
    }
}

#[tactic(auto, using(cc_base::proofs::WrittenTexts::in_steps))]
fn write_values<W: Sink>(
    sink: &mut W,
    possible: &[PossibleValue],
    begun: &mut bool,
) -> Result<(), ErrorKind>
    ensures written { Writes W.taken W.failed (as_write result) sink.old sink.new
        (words_after begun.old (names_of_values possible.now)) }
    ensures begun { OnOk result
        (begun.new ≡ (begun.old || has_texts (names_of_values possible.now))) }
{
    for value in possible {
        put_word(sink, "", value.get_name(), begun)?;
    }
    Ok(())
}

/// Writes the names of the values that are not hidden.
#[tactic(auto, using(cc_base::proofs::WrittenTexts::in_steps))]
pub(crate) fn write_shown_values<W: Sink>(
    sink: &mut W,
    possible: &[PossibleValue],
) -> Result<(), ErrorKind>
    ensures { Writes W.taken W.failed (as_write result) sink.old sink.new
        (words_text (names_of_shown possible.now)) }
{
    let mut begun = false;
    for value in possible {
        if value.is_hide_set() {
            continue;
        }
        put_word(sink, "", value.get_name(), &mut begun)?;
    }
    Ok(())
}

fn write_children<W: Sink>(
    sink: &mut W,
    children: &[Command],
    begun: &mut bool,
) -> Result<(), ErrorKind>
    ensures { Writes W.taken W.failed (as_write result) sink.old sink.new
        (words_after begun.old (sibling_names (forest_of children.now))) }
{
    for child in children {
        write_names(sink, child, begun)?;
    }
    Ok(())
}

#[tactic(auto, using(cc_base::proofs::WrittenTexts::in_steps))]
fn write_names<W: Sink>(sink: &mut W, command: &Command, begun: &mut bool) -> Result<(), ErrorKind>
    ensures written { Writes W.taken W.failed (as_write result) sink.old sink.new
        (words_after begun.old (visible_names command.now.node)) }
    ensures begun { OnOk result (begun.new ≡ true) }
{
    for name in command.get_name_and_visible_aliases() {
        put_word(sink, "", name, begun)?;
    }
    Ok(())
}
