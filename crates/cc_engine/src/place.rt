//! The place in a command to which the words before an index lead.

ghost use Rattle.std.specs.Prelude.{◌≡◌, ◌<◌, [], get_or, length, map, string_bytes, true};
ghost use Rattle.cc_engine.specs.Completion.{IsPlace, is_in_range, names_before, words_before};

use crate::walking::{State, Walked, walk};
use cc_command::Command;

/// A word of a command line, with the place to which the words before it lead.
#[derive(Drop)]
pub(crate) struct WordPlace<'a> {
    /// The command to which these words lead.
    pub command: &'a Command,
    /// The state there.
    pub state: State<'a>,
    /// The word.
    pub word: &'a str,
}

/// Returns the place of the word at an index in range, in a command line of a built command.
pub(crate) fn place_at<'a>(command: &'a Command, words: &'a [String], index: usize) -> WordPlace<'a>
    requires { is_in_range command.now.node (length words.now) index ≡ true }
    ensures { IsPlace command.now (map string_bytes words.now) index result.command.now
        result.state result.word.now }
{
    let Walked {
        command: node,
        state,
    } = walk(command, words_before(command, words, index));
    WordPlace {
        command: node,
        state,
        word: word_at(words, index),
    }
}

fn names_before(command: &Command) -> usize
    ensures { result ≡ names_before command.now.node }
{
    if command.is_no_binary_name_set() {
        0
    } else {
        1
    }
}

/// Returns whether a word other than the program's name is at `index`.
pub(crate) fn in_range(command: &Command, count: usize, index: usize) -> bool
    ensures { result ≡ is_in_range command.now.node count index }
{
    names_before(command) <= index && index < count
}

/// Returns the words before the index, without the program's name.
pub fn words_before<'w>(command: &Command, words: &'w [String], index: usize) -> &'w [String]
    requires { is_in_range command.now.node (length words.now) index ≡ true }
    ensures { map string_bytes result.now
        ≡ words_before command.now.node (map string_bytes words.now) index }
{
    let before = &words[..index];
    &before[names_before(command)..]
}

// Returns the word at the index.
fn word_at(words: &[String], index: usize) -> &str
    requires { index < length words.now }
    ensures { result.now ≡ get_or (map string_bytes words.now) index [] }
{
    words[index].as_str()
}
