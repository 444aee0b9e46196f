//! The names of the arguments that conflict with an argument.

ghost use Rattle.std.specs.Prelude.{◌≡◌, ◌||◌, true, codes, OnOk};
ghost use Rattle.std.specs.Option.{option_to_list};
ghost use Rattle.cc_base.specs.Joined.{has_texts, joined, joined_after};
ghost use Rattle.cc_base.specs.Writes.{Writes, as_write};
ghost use Rattle.cc_command.specs.ArgumentLists.{first_with_id};
ghost use Rattle.cc_zsh.specs.Conflicts.{conflict_scope, conflict_words, conflicts_of, conflicts_text, has_arguments, long_words, short_words, with_ids};

use cc_arg::{Arg, conflicting_ids};
use cc_base::{Sink, Text, put_piece, put_word};
use cc_command::{Command, first_with_id};
use std::io::ErrorKind;

/// Writes the names of the arguments that conflict with `argument`. `above` is the command above
/// `command`, in which the conflicts of a global argument are looked up.
pub(crate) fn write_conflicts<W: Sink>(
    sink: &mut W,
    above: &Command,
    command: &Command,
    argument: &Arg,
) -> Result<(), ErrorKind>
    ensures { Writes W.taken W.failed (as_write result) sink.old sink.new
        (conflicts_text (conflicts_of above.now.node command.now.node argument.now)) }
{
    write_found(
        sink,
        conflict_scope(above, command, argument),
        conflicting_ids(argument),
    )
}

// Returns the arguments among which the conflicts of an argument are looked up.
fn conflict_scope<'a>(above: &'a Command, command: &'a Command, argument: &Arg) -> &'a [Arg]
    ensures { result.now ≡ conflict_scope above.now.node command.now.node argument.now }
{
    if argument.is_global_set() {
        above.get_arguments()
    } else {
        command.get_arguments()
    }
}

#[tactic(auto, using(cc_base::proofs::WrittenTexts::after_bytes), unfolding(crate::specs::Conflicts::conflicts_text))]
fn write_found<W: Sink>(sink: &mut W, arguments: &[Arg], ids: &[Text]) -> Result<(), ErrorKind>
    ensures { Writes W.taken W.failed (as_write result) sink.old sink.new
        (conflicts_text (with_ids arguments.now ids.now)) }
{
    if !has_found(arguments, ids) {
        return Ok(());
    }
    put_piece(sink, "(")?;
    write_words(sink, arguments, ids)?;
    put_piece(sink, ")")
}

// Returns whether an argument has one of the ids.
fn has_found(arguments: &[Arg], ids: &[Text]) -> bool
    ensures { result ≡ has_arguments (with_ids arguments.now ids.now) }
{
    for id in ids {
        if first_with_id(arguments, id.as_str()).is_some() {
            return true;
        }
    }
    false
}

#[tactic(auto, using(cc_base::proofs::WrittenTexts::in_steps))]
fn write_words<W: Sink>(sink: &mut W, arguments: &[Arg], ids: &[Text]) -> Result<(), ErrorKind>
    ensures { Writes W.taken W.failed (as_write result) sink.old sink.new
        (joined (codes " ") (conflict_words (with_ids arguments.now ids.now))) }
{
    let mut begun = false;
    for id in ids {
        write_first(sink, arguments, id, &mut begun)?;
    }
    Ok(())
}

// Writes the names of the first argument with an id. `begun` says whether a name was written
// before.
fn write_first<W: Sink>(
    sink: &mut W,
    arguments: &[Arg],
    id: &Text,
    begun: &mut bool,
) -> Result<(), ErrorKind>
    ensures written { Writes W.taken W.failed (as_write result) sink.old sink.new
        (joined_after (codes " ") begun.old
        (conflict_words (option_to_list (first_with_id arguments.now id.now)))) }
    ensures begun { OnOk result (begun.new ≡ (begun.old
        || has_texts (conflict_words (option_to_list (first_with_id arguments.now id.now))))) }
{
    let Some(argument) = first_with_id(arguments, id.as_str()) else {
        return Ok(());
    };
    write_short_word(sink, argument, begun)?;
    write_long_word(sink, argument, begun)
}

fn write_short_word<W: Sink>(
    sink: &mut W,
    argument: &Arg,
    begun: &mut bool,
) -> Result<(), ErrorKind>
    ensures written { Writes W.taken W.failed (as_write result) sink.old sink.new
        (joined_after (codes " ") begun.old (short_words argument.now.short)) }
    ensures begun { OnOk result
        (begun.new ≡ (begun.old || has_texts (short_words argument.now.short))) }
{
    let Some(short) = argument.get_short() else {
        return Ok(());
    };
    let mut buffer = [0; 4];
    put_word(sink, "-", short.encode_utf8(&mut buffer), begun)
}

fn write_long_word<W: Sink>(sink: &mut W, argument: &Arg, begun: &mut bool) -> Result<(), ErrorKind>
    ensures written { Writes W.taken W.failed (as_write result) sink.old sink.new
        (joined_after (codes " ") begun.old (long_words argument.now.long)) }
    ensures begun { OnOk result
        (begun.new ≡ (begun.old || has_texts (long_words argument.now.long))) }
{
    let Some(long) = argument.get_long() else {
        return Ok(());
    };
    put_word(sink, "--", long, begun)
}
