//! Tells for which values a word is asked, by a function over bytes.

ghost use Rattle.std.specs.Prelude.{◌≡◌, IfOk, map, string_bytes};
ghost use Rattle.std.specs.List.{flat_map};
ghost use Rattle.complgen_c.specs.AskedValues.{MakesAsked, TellsAsked, TellsValues, written_value};
ghost use Rattle.complgen_c.specs.Listings.{handed};
ghost use Rattle.complgen_c.specs.Outcomes.{EndsAs};

use crate::outcome::Outcome;
use crate::requests::texts;
use cc_base::Items;
use cc_command::{Command, Release};
use cc_engine::{AskedValue, asked_values};
use complgen_scripts::{Refusal, error_refusal, tree as described};
use std::alloc::{AllocError, Global};

/// Tells for which values the candidates of the last of `words` ask, if these are the words of a
/// command line of the program in the tree file `tree`, the program's name first. Returns the
/// length of the text, and copies the text to the start of `room` if it fits there. Otherwise
/// `room` stays unchanged, and you can call again with more room. You may pass any bytes.
///
/// The text has three parts for each value: the id of the argument, the number of the value in one
/// use of the argument, counted from 0, and the end of the word that is the value so far. Each part
/// has a NUL after it, so a part with a NUL is not read back. First comes the next value of an open
/// option, then the value within the word, then the value of the positional. An argument is among
/// them whether or not it has `values_from`.
///
/// The `status` is:
///
/// - 0: the text is made.
/// - 1: the text is a message, which ends in a line feed.
/// - 2: a word is not UTF-8, and there is no text.
#[unsafe(no_mangle)]
pub extern "C" fn lagvtsune_asked(
    alloc: Global,
    tree: &[u8],
    words: &[&[u8]],
    room: &mut [u8],
    status: &mut u8,
) -> usize
    ensures { EndsAs (MakesAsked tree.now (handed words.now)) room.old room.new status.new result }
{
    make_asked(alloc, tree, words).put(room, status)
}

// Returns the outcome for the words, if all are UTF-8.
fn make_asked(alloc: Global, tree: &[u8], words: &[&[u8]]) -> Outcome
    ensures { MakesAsked tree.now (handed words.now) result }
{
    let words = match texts(alloc, words) {
        Ok(Some(words)) => words,
        Ok(None) => return Outcome::NotUtf8,
        Err(failed) => return Outcome::Failed(Refusal::from(failed)),
    };
    match described(alloc, Some(tree), Release::AtOnce) {
        Ok(command) => tell_asked(alloc, command, words.as_slice()),
        Err(refusal) => Outcome::Failed(refusal),
    }
}

// Returns the outcome for the command of a tree file.
fn tell_asked(alloc: Global, mut command: Command, words: &[String]) -> Outcome
    ensures { TellsAsked command (map string_bytes words.now) result }
{
    let asked = asked_values(alloc, &mut command, words, words.len().saturating_sub(1));
    drop(command);
    match asked {
        Ok(values) => tell_values(alloc, values.as_slice()),
        Err(error) => Outcome::Failed(error_refusal(alloc, &error)),
    }
}

fn tell_values(alloc: Global, values: &[AskedValue]) -> Outcome
    ensures { TellsValues values.now result }
{
    match values_text(alloc, values) {
        Ok(text) => Outcome::Made(Items::from(text.into_bytes())),
        Err(failed) => Outcome::Failed(Refusal::from(failed)),
    }
}

fn values_text(alloc: Global, values: &[AskedValue]) -> Result<String, AllocError>
    ensures { IfOk result (λ text. string_bytes text ≡ flat_map written_value values.now) }
{
    let mut text = String::new(alloc);
    for value in values {
        text.push_str(value_text(alloc, value)?.as_str())?;
    }
    Ok(text)
}

fn value_text(alloc: Global, value: &AskedValue) -> Result<String, AllocError>
    ensures { IfOk result (λ text. string_bytes text ≡ written_value value.now) }
{
    let (id, number, text) = (value.id.as_str(), value.number, value.text.as_str());
    format!(in alloc; "{id}\0{number}\0{text}\0")
}
