//! A reader of words that is an automaton.

ghost use Rattle.std.specs.Prelude.{◌≡◌, [], ℕ, Bool, List, Option, encode_utf8, IfOk, OnOk};
ghost use Rattle.std.specs.String.{string_bytes};
ghost use Rattle.cc_quote.specs.QuotedWord.{contents};
ghost use Rattle.cc_quote.specs.WordReader.{ReadsBytes, ended, word_from};

use crate::word::split_first;
use std::alloc::{AllocError, Global};

/// The state of a reader of words.
pub(crate) trait WordState: Copy {
    // The state after a character; `None` if the reading ends before it. The flag says whether only
    // the text up to the closing `"` is read, instead of a whole word.
    ghost next: { Bool → Self → ℕ → Option Self };

    // the word with what a character adds to it; the last list is the bytes of the character
    ghost added: { Self → ℕ → List ℕ → List ℕ → List ℕ };

    // whether a word may end at the state
    ghost may_end: { Self → Bool };

    /// Returns the state after `character`, or `None` if the reading ends before it. `is_double`
    /// says that only the text up to the closing `"` is read.
    fn next_state(self, is_double: bool, character: char) -> Option<Self>
        ensures { result ≡ next is_double self character };

    /// Adds what `character` spells to `word`.
    ///
    /// # Errors
    ///
    /// `AllocError` if an allocation fails.
    fn push_added(self, character: char, word: &mut String) -> Result<(), AllocError>
        ensures { OnOk result (string_bytes word.new
            ≡ added self character (string_bytes word.old) (encode_utf8 character)) };

    /// Returns whether a word may end at the state.
    fn may_end(self) -> bool
        ensures { result ≡ may_end self };
}

/// Reads a word of `text` from the state `first` on. With `is_double` it reads what is spelled up
/// to the closing `"`. Returns the word and the remaining text, or `None` if no word may end
/// where the reading ends.
///
/// # Errors
///
/// `AllocError` if an allocation fails.
pub(crate) fn read_word<S: WordState>(
    alloc: Global,
    first: S,
    is_double: bool,
    text: &str,
) -> Result<Option<(String, &str)>, AllocError>
    ensures { IfOk result (λ read. ReadsBytes (S.next is_double) S.added
        → contents read ≡ word_from (S.next is_double) S.added S.may_end first [] text.now) }
{
    let mut state = first;
    let mut word = String::new(alloc);
    let mut rest = text;
    while let Some((character, after)) = split_first(rest) {
        let Some(next) = state.next_state(is_double, character) else {
            return Ok(end_word(state, word, rest));
        };
        state.push_added(character, &mut word)?;
        state = next;
        rest = after;
    }
    Ok(end_word(state, word, rest))
}

// Returns the word and the rest if a word may end at the state.
fn end_word<S: WordState>(state: S, word: String, rest: &str) -> Option<(String, &str)>
    ensures { contents result ≡ ended (S.may_end state) (string_bytes word) rest.now }
{
    if !state.may_end() {
        return None;
    }
    Some((word, rest))
}
