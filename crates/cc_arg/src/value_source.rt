//! The source of an argument's values outside the command: a command that prints them, a file that
//! lists them, or a hint whose values the system knows.

ghost use Rattle.std.specs.Prelude.{◌≡◌, None};
ghost use Rattle.std.specs.List.{list_all};
ghost use Rattle.cc_arg.specs.ValueSources.{has_byte, has_own_values, has_source, is_listed, is_program, is_runnable};
ghost use Rattle.cc_arg.specs.ValueSources.{is_whole_word, listed, names_source, same_hint};
ghost use Rattle.cc_arg.specs.ValueSources.{same_lines, same_origin, same_protocol};
ghost use Rattle.cc_arg.specs.ValueSources.{same_source, same_texts, with_values};

use crate::arg::{Arg, possible_values, set_candidates, set_value_hint};
use crate::value_hint::ValueHint;
use crate::values_protocol::ValuesProtocol;
use cc_base::{ArgValueCandidates, Text};

/// Returns whether a shell can run `words`, a program and its arguments.
///
/// The program is an absolute path, or a name that contains no slash, so that the current directory
/// does not decide what runs. It contains no `=`. No word contains a NUL or a vertical tab.
pub fn is_runnable(words: &[Text]) -> bool
    ensures { result ≡ is_runnable words.now }
{
    match words {
        [program, ..] => is_program(program.as_str()) && are_whole_words(words),
        [] => false,
    }
}

fn is_program(word: &str) -> bool
    ensures { result ≡ is_program word.now }
{
    match word.as_bytes() {
        [] => false,
        [first, ..] => {
            (*first == b'/' || !has_byte(word.as_bytes(), b'/')) && !has_byte(word.as_bytes(), b'=')
        }
    }
}

fn are_whole_words(words: &[Text]) -> bool
    ensures { result ≡ list_all is_whole_word words.now }
{
    for word in words {
        if !is_whole_word(word) {
            return false;
        }
    }
    true
}

fn is_whole_word(word: &Text) -> bool
    ensures { result ≡ is_whole_word word.now }
{
    let bytes = word.as_str().as_bytes();
    !(has_byte(bytes, 0) || has_byte(bytes, 0x0b))
}

fn has_byte(text: &[u8], byte: u8) -> bool
    ensures { result ≡ has_byte byte text.now }
{
    for one in text {
        if *one == byte {
            return true;
        }
    }
    false
}

/// Returns whether the values of `argument` come from a command that can run, from a file, or from
/// a hint whose values the system knows. A completer, a list of candidates and possible values go
/// before them.
pub fn has_source(argument: &Arg) -> bool
    ensures { result ≡ has_source argument.now }
{
    !has_own_values(argument) && names_source(argument)
}

// Returns whether the command or the program holds the values of `argument`.
fn has_own_values(argument: &Arg) -> bool
    ensures { result ≡ has_own_values argument.now }
{
    argument.get_completer().is_some()
        || argument.get_candidates().is_some()
        || possible_values(argument).is_some()
}

fn names_source(argument: &Arg) -> bool
    ensures { result ≡ names_source argument.now.values_from argument.now.values_file
        argument.now.value_hint }
{
    match (argument.get_values_from(), argument.get_values_file()) {
        (Some(words), _) => is_runnable(words),
        (None, Some(_)) => true,
        (None, None) => is_listed(argument.get_value_hint()),
    }
}

// Returns whether the system knows the values of this hint.
fn is_listed(hint: ValueHint) -> bool
    ensures { result ≡ is_listed hint }
{
    matches!(
        hint,
        ValueHint::CommandName | ValueHint::Username | ValueHint::Hostname
    )
}

/// The values that were read from a source outside the command.
#[derive(Clone, Copy, Debug)]
pub enum SourceValues {
    /// A list of candidates, by its number.
    Listed(ArgValueCandidates),
    /// The paths of this hint.
    Paths(ValueHint),
}

/// Returns whether two arguments have the same source: its program gets words of the command line
/// for both or for neither, and its lines are read in the same way.
pub fn same_source(one: &Arg, other: &Arg) -> bool
    ensures { result ≡ same_source one.now other.now }
{
    (has_source(one) && has_source(other)) && (same_origin(one, other) && same_lines(one, other))
}

fn same_lines(one: &Arg, other: &Arg) -> bool
    ensures { result ≡ same_lines one.now other.now }
{
    one.get_values_split() == other.get_values_split()
        && (one.is_values_words_set() == other.is_values_words_set()
            && same_protocol(one.get_values_protocol(), other.get_values_protocol()))
}

fn same_protocol(protocol: ValuesProtocol, other: ValuesProtocol) -> bool
    ensures { result ≡ same_protocol protocol other }
{
    matches!(
        (protocol, other),
        (ValuesProtocol::Lines, ValuesProtocol::Lines)
            | (ValuesProtocol::Cobra, ValuesProtocol::Cobra)
    )
}

fn same_origin(one: &Arg, other: &Arg) -> bool
    ensures { result ≡ same_origin one.now.values_from one.now.values_file one.now.value_hint
        other.now.values_from other.now.values_file other.now.value_hint }
{
    match (one.get_values_from(), other.get_values_from()) {
        (Some(words), Some(others)) => same_texts(words, others),
        (None, None) => same_file_or_hint(one, other),
        _ => false,
    }
}

fn same_file_or_hint(one: &Arg, other: &Arg) -> bool
    ensures { result ≡ same_origin None one.now.values_file one.now.value_hint
        None other.now.values_file other.now.value_hint }
{
    match (one.get_values_file(), other.get_values_file()) {
        (Some(path), Some(other)) => path == other,
        (None, None) => same_hint(one.get_value_hint(), other.get_value_hint()),
        _ => false,
    }
}

fn same_hint(hint: ValueHint, other: ValueHint) -> bool
    ensures { result ≡ same_hint hint other }
{
    matches!(
        (hint, other),
        (ValueHint::CommandName, ValueHint::CommandName)
            | (ValueHint::Username, ValueHint::Username)
            | (ValueHint::Hostname, ValueHint::Hostname)
    )
}

fn same_texts(texts: &[Text], others: &[Text]) -> bool
    ensures { result ≡ same_texts texts.now others.now }
{
    let Some((text, texts)) = texts.split_first() else {
        return others.is_empty();
    };
    let Some((other, others)) = others.split_first() else {
        return false;
    };
    text.as_str() == other.as_str() && same_texts(texts, others)
}

/// Gives `values` to `argument` if it has the same value source as `asked`.
pub fn list_if_same_source(argument: &mut Arg, asked: &Arg, values: SourceValues)
    ensures { argument.new ≡ listed asked.now values argument.old }
{
    if same_source(argument, asked) {
        set_values(argument, values);
    }
}

fn set_values(argument: &mut Arg, values: SourceValues)
    ensures { argument.new ≡ with_values values argument.old }
{
    match values {
        SourceValues::Listed(list) => set_candidates(argument, list),
        SourceValues::Paths(hint) => set_value_hint(argument, hint),
    }
}
