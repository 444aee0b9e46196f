//! The command, and texts for the calls.

use clap_complete::Error;
use clap_complete::command::{Arg, Command, ValueHint};
use clap_complete::describe::{arg, command, flag, option, with_alias, with_arg, with_child};
use clap_complete::engine::{ArgValueCandidates, ArgValueCompleter};
use clap_complete::env::EnvValues;
use std::alloc::{AllocError, Global};

const COLORS: &[(&str, &str)] = &[("auto", "It's here"), ("never", "It's not")];

/// Returns `app` with an option for a path, options with possible values, with the completer and with
/// the list of number 0, and the child `run`. `tests/refusals.py` has the tree file without the two
/// numbers.
pub(crate) fn app(alloc: Global) -> Result<Command, Error> {
    let args = [
        option("root", "DIR", "It's").value_hint(ValueHint::AnyPath),
        option("color", "WHEN", "It's").values(COLORS),
        option("key", "KEY", "It's").completer(ArgValueCompleter::new(0)),
    ];
    let app = command(alloc, "app", "Does it", &args);
    let app = with_arg(app, level(alloc));
    with_child(app, run(alloc))
}

fn level(alloc: Global) -> Result<Arg, Error> {
    let level = arg(alloc, &option("level", "LEVEL", "It's"))?;
    Ok(level.add_candidates(ArgValueCandidates::new(0)))
}

fn run(alloc: Global) -> Result<Command, Error> {
    let verbose = flag("verbose", "It's").short('v').global();
    let run = command(alloc, "run", "Runs it", &[verbose]);
    with_alias(alloc, run, "r")
}

/// Returns an environment in which this shell requests the completion of the word at the index 2.
pub(crate) fn environment(alloc: Global, shell: &str) -> Result<EnvValues, AllocError> {
    let mut values = Vec::new(alloc);
    for (name, value) in [("COMPLETE", shell), ("_CLAP_COMPLETE_INDEX", "2")] {
        let name = String::from_str(alloc, name)?;
        let value = String::from_str(alloc, value)?;
        values.push((name, value))?;
    }
    Ok(EnvValues::new(values))
}

/// Returns owned copies of the texts.
pub(crate) fn texts(alloc: Global, words: &[&str]) -> Result<Vec<String>, AllocError> {
    let mut owned = Vec::new(alloc);
    for word in words {
        owned.push(String::from_str(alloc, word)?)?;
    }
    Ok(owned)
}
