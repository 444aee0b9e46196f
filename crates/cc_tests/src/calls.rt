//! Calls over a tree that nothing else makes succeed.

use crate::trees::{NESTED, read};
use bumpalo::Bump;
use clap_complete::aot::{Held, put_all, utils};
use clap_complete::command::{Arg, Command};
use clap_complete::engine::{Completers, MemoryFolder, Sources};
use clap_complete::parser::{candidates_and_parser, candidates_and_reached_parser};
use clap_complete::{Error, Shell};
use std::alloc::Global;

// Lists what generators share.
fn list(alloc: Global, command: &mut Command) -> Result<(), Error> {
    command.build(alloc)?;
    utils::subcommands(alloc, command)?;
    utils::shorts_and_visible_aliases(alloc, command)?;
    utils::longs_and_visible_aliases(alloc, command)?;
    utils::flags(alloc, command)?;
    Ok(())
}

#[test]
fn lists_are_made(rt: HostRuntime) {
    let mut command = read(rt.alloc(), NESTED).expect(&rt, "no command");
    let listed = list(rt.alloc(), &mut command);
    drop(command);
    assert!(rt; listed.is_ok());
}

// Returns an argument with names of each kind, and with a conflict.
fn aliased(alloc: Global) -> Result<Arg, Error> {
    let new = String::from_str(alloc, "new")?;
    let old = String::from_str(alloc, "old")?;
    let other = String::from_str(alloc, "other")?;
    let named = Arg::new(alloc, String::from_str(alloc, "named")?);
    let named = named.visible_alias(new)?.alias(old)?;
    let named = named.visible_short_alias('p')?.short_alias('q')?;
    named.conflicts_with(other)
}

fn with_alias(alloc: Global) -> Result<Command, Error> {
    let alias = String::from_str(alloc, "t")?;
    Command::new(alloc, String::from_str(alloc, "test")?).alias(alias)
}

#[test]
fn names_and_conflicts_are_added(rt: HostRuntime) {
    let argument = aliased(rt.alloc()).expect(&rt, "no argument");
    let command = with_alias(rt.alloc()).expect(&rt, "no command");
    assert!(rt;
        command
            .get_arg_conflicts_with(rt.alloc(), &argument)
            .is_ok()
    );
    drop(argument);
    drop(command);
}

// Tells whether the command, or its child `run`, gets candidates and a parser.
fn has_parser(
    alloc: Global,
    command: &mut Command,
    words: Vec<String>,
    local: bool,
    current_dir: Option<&str>,
) -> bool {
    let store = Bump::new(alloc);
    let folder = MemoryFolder::new(&[], &[]);
    let completers = Completers::none(alloc);
    let sources = Sources {
        current_dir,
        folder: &folder,
        completers: &completers,
    };
    let called = if local {
        candidates_and_reached_parser(alloc, &store, command, words, 2, &sources)
    } else {
        candidates_and_parser(alloc, &store, command, words, 2, &sources)
    };
    let made = called.is_ok();
    drop(called);
    made
}

fn words(alloc: Global) -> Result<Vec<String>, Error> {
    let mut words = Vec::new(alloc);
    for word in ["app", "run", ""] {
        words.push(String::from_str(alloc, word)?)?;
    }
    Ok(words)
}

#[test]
fn parsers_are_made_with_candidates(rt: HostRuntime) {
    let mut command = read(rt.alloc(), NESTED).expect(&rt, "no command");
    let line = words(rt.alloc()).expect(&rt, "no words");
    let whole = has_parser(rt.alloc(), &mut command, line, false, None);
    let line = words(rt.alloc()).expect(&rt, "no words");
    let local = has_parser(rt.alloc(), &mut command, line, true, None);
    drop(command);
    assert!(rt; whole && local);
}

// Passes bytes on to a vector, by the calls of `Counted`.
fn pass_on(alloc: Global) -> Result<(), Error> {
    let mut sink = Held::new(Vec::new(alloc));
    put_all(&mut sink, b"abc")?;
    sink.flush()
}

#[test]
fn a_sink_is_flushed_and_a_shell_is_a_value(rt: HostRuntime) {
    let passed_on = pass_on(rt.alloc());
    let value = Shell::Elvish.to_possible_value(rt.alloc());
    let succeeded = passed_on.is_ok() && value.is_ok();
    drop(passed_on);
    drop(value);
    assert!(rt; succeeded);
}
