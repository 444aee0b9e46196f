//! The argument whose values a request asks for, and what answers the request then.

ghost use Rattle.std.specs.Prelude.{◌≡◌, ◌++◌, IfErr, IfOk, OnOk, drop, length, map, string_bytes, true};
ghost use Rattle.std.specs.Option.{option_copied};
ghost use Rattle.cc_command.specs.Built.{built_tree};
ghost use Rattle.cc_engine.specs.Completion.{Refuses, is_in_range, names_before};
ghost use Rattle.cc_env.specs.Asking.{AsksAtLast, AsksOver, CannotAsk, CannotAskAtLast, Wants};
ghost use Rattle.cc_env.specs.Asking.{if_runnable, may_run, next_step, passed_words, run_words};
ghost use Rattle.cc_env.specs.Asking.{step_of_mode, step_of_words, turns_off, values_mode};
ghost use Rattle.cc_env.specs.Asking.{words_for};

use cc_arg::{Arg, is_runnable};
use cc_base::{Error, Items, Text};
use cc_command::Command;
use cc_engine::asked_argument;
use cc_replies::EnvValues;
use std::alloc::{AllocError, Global};

// The variable that a safe registration sets: to `ask` if it can run the words of an answer, and to
// `stdin` if it passes on what they printed.
const VALUES: &str = "_COMPLGEN_VALUES";

// The variable by which a user turns commands off.
const COMMANDS: &str = "COMPLGEN_COMMANDS";

/// The way in which a request is answered.
#[derive(Drop)]
pub enum AnswerStep {
    /// The reply, without values from outside the tree.
    Reply,
    /// These words, for the shell to run.
    Run(Items<Text>),
    /// The reply over lines, which are the values of the argument.
    ReadLines(Arg),
}

/// Returns the words to run for the values of the word at `index`, counted from 0, in a command
/// line of `command`, which is built first. They are those of the argument that is asked for there,
/// and if it gets words of the command line, then those from the first one behind the program's
/// name to the one at `index`. Returns `None` if no argument is asked for there, if its values do
/// not come from a command, or if a shell cannot run the words. The `words` are those that
/// `complete_from` takes.
///
/// # Errors
///
/// Those of `complete_from`.
pub fn wanted_command(
    alloc: Global,
    command: &mut Command,
    words: &[String],
    index: usize,
) -> Result<Option<Items<Text>>, Error>
    ensures wanted { IfOk result
        (λ found. Wants command.new (map string_bytes words.now) index found) }
    ensures built { OnOk result (command.new ≡ built_tree command.old) }
    ensures in_range { OnOk result
        (is_in_range command.new.node (length words.now) index ≡ true) }
    ensures errors { IfErr result (Refuses command.old command.new (length words.now) index) }
{
    let asked = asked_argument(alloc, command, words, index)?;
    let found = words_for(alloc, &asked, behind_name(command, &words[..index + 1]));
    drop(asked);
    Ok(found?)
}

/// Returns the words behind the program's name.
pub(crate) fn behind_name<'w>(command: &Command, words: &'w [String]) -> &'w [String]
    ensures { map string_bytes result.now
        ≡ drop (names_before command.now.node) (map string_bytes words.now) }
{
    match words {
        [_name, rest @ ..] if !command.is_no_binary_name_set() => rest,
        _ => words,
    }
}

// Returns the words that run for the argument that is asked for.
fn words_for(
    alloc: Global,
    asked: &Option<Arg>,
    typed: &[String],
) -> Result<Option<Items<Text>>, AllocError>
    ensures { IfOk result
        (λ words. words ≡ words_for asked.now (map string_bytes typed.now)) }
{
    match asked {
        Some(asked) => run_words(alloc, asked, typed),
        None => Ok(None),
    }
}

// Returns the words that run for an argument, if there are any.
fn run_words(
    alloc: Global,
    asked: &Arg,
    typed: &[String],
) -> Result<Option<Items<Text>>, AllocError>
    ensures { IfOk result
        (λ words. words ≡ run_words asked.now (map string_bytes typed.now)) }
{
    let Some(own) = asked.get_values_from() else {
        return Ok(None);
    };
    let mut words = Items::copy_of_texts(alloc, own)?;
    push_words(alloc, &mut words, passed_words(asked, typed))?;
    Ok(if_runnable(words))
}

// Returns the typed words that the argument's command gets.
fn passed_words<'w>(asked: &Arg, typed: &'w [String]) -> &'w [String]
    ensures { map string_bytes result.now
        ≡ passed_words asked.now.values_words (map string_bytes typed.now) }
{
    if asked.is_values_words_set() {
        typed
    } else {
        &[]
    }
}

fn push_words(alloc: Global, words: &mut Items<Text>, more: &[String]) -> Result<(), AllocError>
    ensures { OnOk result (words.new ≡ words.old ++ map string_bytes more.now) }
{
    for word in more {
        words.push(Text::copy_of(alloc, word.as_str())?)?;
    }
    Ok(())
}

// Returns the words if a shell can run them.
fn if_runnable(words: Items<Text>) -> Option<Items<Text>>
    ensures { result ≡ if_runnable words }
{
    if is_runnable(words.as_slice()) {
        Some(words)
    } else {
        None
    }
}

/// Returns the argument whose values are asked for at the last of `words`, if a safe registration
/// asks and there are words. Builds `command` first.
///
/// # Errors
///
/// `NoCompletion` if the last word is the program's name, and `Memory` if an allocation fails.
pub(crate) fn asked_by(
    alloc: Global,
    command: &mut Command,
    env: &EnvValues,
    words: &[String],
) -> Result<Option<Arg>, Error>
    ensures asks { IfOk result (λ asked. AsksOver (values_mode env.now) (built_tree command.old)
        (map string_bytes words.now) asked) }
    ensures built { OnOk result (command.new ≡ built_tree command.old) }
    ensures whole { OnOk result (built_tree command.new ≡ command.new) }
    ensures errors { IfErr result (CannotAsk (values_mode env.now) (built_tree command.old)
        (map string_bytes words.now)) }
{
    command.build(alloc)?;
    if !env.asks_safely() {
        return Ok(None);
    }
    asked_at_last(alloc, command, words)
}

// Returns the argument whose values are asked for at the last of these words, if there is one.
fn asked_at_last(
    alloc: Global,
    command: &mut Command,
    words: &[String],
) -> Result<Option<Arg>, Error>
    requires { built_tree command.old ≡ command.old }
    ensures asks { IfOk result
        (λ asked. AsksAtLast command.old (map string_bytes words.now) asked) }
    ensures built { OnOk result (command.new ≡ command.old) }
    ensures errors { IfErr result (CannotAskAtLast command.old (map string_bytes words.now)) }
{
    if words.is_empty() {
        return Ok(None);
    }
    asked_argument(alloc, command, words, words.len() - 1)
}

/// Returns what answers a request that asks for the values of `asked`, after these typed words.
///
/// The command of an argument is only run if its tree is `trusted` and the user has not turned
/// commands off.
///
/// # Errors
///
/// `AllocError` if an allocation fails.
pub(crate) fn next_step(
    alloc: Global,
    env: &EnvValues,
    trusted: bool,
    asked: Option<Arg>,
    typed: &[String],
) -> Result<AnswerStep, AllocError>
    ensures { IfOk result
        (λ step. step ≡ next_step env.now trusted asked (map string_bytes typed.now)) }
{
    let Some(asked) = asked else {
        return Ok(AnswerStep::Reply);
    };
    if asked.get_values_from().is_none() {
        return Ok(AnswerStep::ReadLines(asked));
    }
    if may_run(env, trusted) {
        step_of_mode(alloc, env.get(VALUES), asked, typed)
    } else {
        drop(asked);
        Ok(AnswerStep::Reply)
    }
}

// Returns the step for an argument with a command that may run.
fn step_of_mode(
    alloc: Global,
    mode: Option<&str>,
    asked: Arg,
    typed: &[String],
) -> Result<AnswerStep, AllocError>
    ensures { IfOk result (λ step. step
        ≡ step_of_mode (option_copied mode.entry) asked (map string_bytes typed.now)) }
{
    match mode {
        Some("ask") => {
            let words = run_words(alloc, &asked, typed);
            drop(asked);
            Ok(step_of_words(words?))
        }
        Some("stdin") => Ok(AnswerStep::ReadLines(asked)),
        _ => {
            drop(asked);
            Ok(AnswerStep::Reply)
        }
    }
}

fn step_of_words(words: Option<Items<Text>>) -> AnswerStep
    ensures { result ≡ step_of_words words }
{
    match words {
        Some(words) => AnswerStep::Run(words),
        None => AnswerStep::Reply,
    }
}

fn may_run(env: &EnvValues, trusted: bool) -> bool
    ensures { result ≡ may_run env.now trusted }
{
    trusted && !turns_off(env.get(COMMANDS))
}

fn turns_off(value: Option<&str>) -> bool
    ensures { result ≡ turns_off (option_copied value.entry) }
{
    match value {
        Some(value) => value == "0",
        None => false,
    }
}
