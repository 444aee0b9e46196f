//! Finds the commands that a tab runs to list values, and keys of sources with no effect.

use crate::found::{Added, Found, Spot};
use crate::place::Key;
use crate::warning::Advice;
use cc_arg::{Arg, ValueHint, ValuesProtocol};
use cc_base::Text;
use std::alloc::{AllocError, Global};
use std::path::Path;

/// Adds findings about the sources of the values of each argument: notes for each command, warnings
/// if its program may run code or act on what is typed, and warnings about keys with no effect.
pub(crate) fn push_sources(found: &mut Found<Advice>, arguments: &[Arg]) -> Added {
    for (index, argument) in arguments.iter().enumerate() {
        let spot = Spot::Argument(index);
        push_command(found, spot, argument)?;
        push_flag(found, spot, argument)?;
        push_unused(found, spot, argument)?;
    }
    Ok(())
}

// Adds findings about the command of an argument, if it has one.
fn push_command(found: &mut Found<Advice>, spot: Spot, argument: &Arg) -> Added {
    let Some(words) = argument.get_values_from() else {
        return Ok(());
    };
    let runs = Advice::RunsCommand(shown_words(found.allocator(), words)?);
    found.note(spot, Key::ValuesFrom, None, runs)?;
    push_program(found, spot, words)?;
    if argument.is_values_words_set() {
        push_passed(found, spot, words)?;
    }
    Ok(())
}

// Returns the words of a command as messages show them.
fn shown_words(alloc: Global, words: &[Text]) -> Result<Text, AllocError> {
    let mut shown = String::new(alloc);
    for word in words {
        push_word(&mut shown, word.as_str())?;
    }
    Ok(Text::from(shown))
}

fn push_word(shown: &mut String, word: &str) -> Result<(), AllocError> {
    shown.push_str(" `")?;
    shown.push_str(word)?;
    shown.push_str("`")
}

// Adds a warning if the program may run its arguments as code.
fn push_program(found: &mut Found<Advice>, spot: Spot, words: &[Text]) -> Added {
    let Some(program) = words.first() else {
        return Ok(());
    };
    if !runs_code(program.as_str()) {
        return Ok(());
    }
    let advice = Advice::RunsCode(program.try_clone(found.allocator())?);
    found.note(spot, Key::ValuesFrom, Some(0), advice)
}

// The names of programs that may run their arguments, or a file in the current directory, as code:
// shells, then other interpreters, then programs that run other programs.
const CODE_RUNNERS: &[&str] = &[
    "sh", "ash", "bash", "csh", "dash", "elvish", "fish", "ksh", "mksh", "nu", "pwsh", "tcsh",
    "zsh", "awk", "bun", "deno", "gawk", "lua", "mawk", "node", "perl", "php", "python", "python2",
    "python3", "ruby", "sed", "tclsh", "busybox", "doas", "env", "eval", "exec", "find", "make",
    "parallel", "ssh", "su", "sudo", "watch", "xargs",
];

// Returns whether the last component of the program's path is one of these names.
fn runs_code(program: &str) -> bool {
    match Path::new(program).file_name() {
        Some(name) => CODE_RUNNERS.iter().any(|runner| *runner == name),
        None => false,
    }
}

// Adds a note that the words of the command line are passed to a command, and a warning if it is
// a program alone, which may act on them.
fn push_passed(found: &mut Found<Advice>, spot: Spot, words: &[Text]) -> Added {
    let passes = Advice::PassesWords(shown_words(found.allocator(), words)?);
    found.note(spot, Key::ValuesWords, None, passes)?;
    let [program] = words else {
        return Ok(());
    };
    let acts = Advice::ActsOnWords(program.try_clone(found.allocator())?);
    found.note(spot, Key::ValuesWords, None, acts)
}

// Adds a warning about each key of a source, if the argument takes no values.
fn push_flag(found: &mut Found<Advice>, spot: Spot, argument: &Arg) -> Added {
    if argument.takes_values() {
        return Ok(());
    }
    let command = argument.get_values_from().is_some();
    found.note_if(command, spot, Key::ValuesFrom, Advice::SourceOfFlag)?;
    let file = argument.get_values_file().is_some();
    found.note_if(file, spot, Key::ValuesFile, Advice::SourceOfFlag)?;
    let split = argument.get_values_split().is_some();
    found.note_if(split, spot, Key::ValuesSplit, Advice::SourceOfFlag)?;
    let words = argument.is_values_words_set();
    found.note_if(words, spot, Key::ValuesWords, Advice::SourceOfFlag)?;
    found.note_if(
        has_protocol(argument),
        spot,
        Key::ValuesProtocol,
        Advice::SourceOfFlag,
    )
}

// Adds a warning about each key that has no effect beside another one, or without it, if the
// argument takes values.
fn push_unused(found: &mut Found<Advice>, spot: Spot, argument: &Arg) -> Added {
    if !argument.takes_values() {
        return Ok(());
    }
    let runs = argument.get_values_from().is_some();
    let lists = runs || argument.get_values_file().is_some();
    let hint = hints_paths(argument.get_value_hint()) && lists;
    found.note_if(hint, spot, Key::ValueHint, Advice::HintBesideSource)?;
    let words = argument.is_values_words_set() && !runs;
    found.note_if(words, spot, Key::ValuesWords, Advice::WithoutCommand)?;
    let protocol = has_protocol(argument);
    found.note_if(
        protocol && !runs,
        spot,
        Key::ValuesProtocol,
        Advice::WithoutCommand,
    )?;
    let split = protocol && runs && argument.get_values_split().is_some();
    found.note_if(split, spot, Key::ValuesSplit, Advice::SplitBesideProtocol)
}

fn has_protocol(argument: &Arg) -> bool {
    matches!(argument.get_values_protocol(), ValuesProtocol::Cobra)
}

fn hints_paths(hint: ValueHint) -> bool {
    matches!(
        hint,
        ValueHint::AnyPath | ValueHint::FilePath | ValueHint::DirPath | ValueHint::ExecutablePath
    )
}
