//! Values from completers and lists, for whose numbers a tree file has no keys.

ghost use Rattle.std.specs.Prelude.{⊤};

use crate::checks::is;
use clap_complete::Error;
use clap_complete::command::{Arg, Command, ValueRange};
use clap_complete::describe::{arg, command, option, with_arg};
use clap_complete::engine::{
    ArgValueCandidates, ArgValueCompleter, Completers, CompletionCandidate, FnCandidates,
    FnCompleter, MemoryFolder, SubcommandCandidates, ValueCandidates, ValueCompleter, asked_values,
    complete, complete_possible_values, possible_value_candidates,
};
use std::alloc::{AllocError, Global};

/// Completes with the number of the value and the text, such as `1:text`. For any value, completes
/// with the text alone.
#[derive(Drop)]
struct Echo;

impl ValueCompleter for Echo {
    ghost completes = { λ _ _ _ _. ⊤ };

    fn complete(&self, alloc: Global, text: &str) -> Result<Vec<CompletionCandidate>, AllocError> {
        one(alloc, text)
    }

    fn complete_at(
        &self,
        alloc: Global,
        number: usize,
        text: &str,
    ) -> Result<Vec<CompletionCandidate>, AllocError> {
        let value = format!(in alloc; "{number}:{text}")?;
        one(alloc, value.as_str())
    }
}

/// A list of a name.
#[derive(Drop)]
struct Programs;

impl ValueCandidates for Programs {
    ghost lists = { λ _ _. ⊤ };

    fn candidates(&self, alloc: Global) -> Result<Vec<CompletionCandidate>, AllocError> {
        one(alloc, "tee")
    }
}

fn one(alloc: Global, name: &str) -> Result<Vec<CompletionCandidate>, AllocError> {
    let name = String::from_str(alloc, name)?;
    let mut found = Vec::new(alloc);
    found.push(CompletionCandidate::new(name))?;
    Ok(found)
}

// Adds the completer `Echo` and the list `Programs`.
fn add_all(alloc: Global, completers: &mut Completers) -> Result<(), Error> {
    completers.add_completer(Box::new(alloc, Echo)?)?;
    completers.add_list(Box::new(alloc, Programs)?)?;
    Ok(())
}

// Adds a closure of each kind.
fn add_closures(alloc: Global, completers: &mut Completers) -> Result<(), Error> {
    let same = Box::new(alloc, |alloc: Global, text: &str| one(alloc, text))?;
    completers.add_completer_closure(FnCompleter::new(same))?;
    let side = Box::new(alloc, |alloc: Global| one(alloc, "left"))?;
    completers.add_list_closure(FnCandidates::new(side))?;
    Ok(())
}

// Returns `app` with an option of two values, and one of several values in one word, of the completer.
fn app(alloc: Global) -> Result<Command, Error> {
    let app = command(alloc, "app", "", &[]);
    with_arg(with_arg(app, pair(alloc)), parts(alloc))
}

fn pair(alloc: Global) -> Result<Arg, Error> {
    let pair = option("pair", "PAIR", "").completer(ArgValueCompleter::new(0));
    Ok(arg(alloc, &pair)?.num_args(ValueRange::new(2, 2)))
}

fn parts(alloc: Global) -> Result<Arg, Error> {
    let parts = option("parts", "PARTS", "").completer(ArgValueCompleter::new(0));
    Ok(arg(alloc, &parts)?.value_delimiter(','))
}

// Returns the first value that is offered for the last of the words.
fn offered(
    alloc: Global,
    command: &mut Command,
    completers: &Completers,
    words: &[&str],
) -> Result<String, Error> {
    let last = words.len().saturating_sub(1);
    let words = to_strings(alloc, words)?;
    let folder = MemoryFolder::new(&[], &[]);
    let found = complete(alloc, command, words, last, None, &folder, completers)?;
    match found.as_slice() {
        [candidate] => Ok(String::from_str(alloc, candidate.get_value())?),
        _ => Ok(String::new(alloc)),
    }
}

fn to_strings(alloc: Global, words: &[&str]) -> Result<Vec<String>, AllocError> {
    let mut copies = Vec::new(alloc);
    for word in words {
        copies.push(String::from_str(alloc, word)?)?;
    }
    Ok(copies)
}

#[test]
fn a_completer_gets_the_number_and_the_text_of_a_value(rt: HostRuntime) {
    let alloc = rt.alloc();
    let mut completers = Completers::none(alloc);
    assert!(rt; add_all(alloc, &mut completers).is_ok());
    let mut app = app(alloc).expect(&rt, "no command");
    let pair = offered(alloc, &mut app, &completers, &["app", "--pair", "a", "b"]);
    is(&rt, pair, "1:b");
    let parts = offered(alloc, &mut app, &completers, &["app", "--parts", "a,b,c"]);
    is(&rt, parts, "a,b,0:c");
    drop(app);
    drop(completers);
}

// Returns the value that the last of the words is asked for, if there is one, such as `id 1:text`.
fn asked(alloc: Global, command: &mut Command, words: &[&str]) -> Result<String, Error> {
    let last = words.len().saturating_sub(1);
    let words = to_strings(alloc, words)?;
    let found = asked_values(alloc, command, words.as_slice(), last)?;
    match found.as_slice() {
        [value] => {
            let (id, text) = (value.id.as_str(), value.text.as_str());
            Ok(format!(in alloc; "{id} {}:{text}", value.number)?)
        }
        _ => Ok(String::new(alloc)),
    }
}

#[test]
fn a_word_is_asked_for_a_value_by_its_number_and_its_text(rt: HostRuntime) {
    let alloc = rt.alloc();
    let mut app = app(alloc).expect(&rt, "no command");
    let pair = asked(alloc, &mut app, &["app", "--pair", "a", "b"]);
    is(&rt, pair, "pair 1:b");
    let parts = asked(alloc, &mut app, &["app", "--parts=a,b,c"]);
    is(&rt, parts, "parts 0:c");
    drop(app);
}

// Calls each number by itself.
fn call_numbers(alloc: Global, completers: &Completers) -> Result<(), AllocError> {
    let echo = ArgValueCompleter::new(0);
    echo.complete(alloc, completers, "a")?;
    echo.complete_at(alloc, completers, 3, "a")?;
    ArgValueCandidates::new(0).candidates(alloc, completers)?;
    SubcommandCandidates::new(0).candidates(alloc, completers)?;
    Ok(())
}

#[test]
fn closures_are_added_and_numbers_are_called(rt: HostRuntime) {
    let mut completers = Completers::none(rt.alloc());
    assert!(rt; add_closures(rt.alloc(), &mut completers).is_ok());
    assert!(rt; call_numbers(rt.alloc(), &completers).is_ok());
    drop(completers);
}

// Makes candidates of possible values, and one with two prefixes.
fn make_candidates(alloc: Global) -> Result<(), Error> {
    possible_value_candidates(alloc, Vec::new(alloc))?;
    complete_possible_values(alloc, "n", Vec::new(alloc))?;
    let candidate = CompletionCandidate::new(String::new(alloc));
    let candidate = candidate.add_prefix(alloc, "--o=")?;
    candidate.with_prefix(alloc, "-")?;
    Ok(())
}

#[test]
fn possible_values_and_prefixes_make_candidates(rt: HostRuntime) {
    assert!(rt; make_candidates(rt.alloc()).is_ok());
}
