//! `library_calls`: makes a call of the library over a small command, or over a large one.
//! The script `tests/refusals.py` makes its allocations fail and leaves its sink little room.
//! Without words it prints the names of the calls.
//!
//! ```text
//! library_calls CALL ROOM            the sink has room for ROOM bytes, and then fails
//! library_calls CALL ROOM nothing    the sink has room for ROOM bytes, and then takes nothing; with
//!                                    `interrupted`, it is interrupted then
//! library_calls 'chain CALL' DEPTH   the call over a chain of DEPTH commands below a root
//! library_calls 'many CALL' COUNT    the call over a command with COUNT flags
//! ```
#![tactic(auto)]

mod calls;
mod fixtures;
mod large;
mod sinks;
mod sources;
mod state;

use crate::calls::{CALLS, call};
use crate::fixtures::app;
use crate::large::{attempt_large, chain, many};
use crate::sinks::Narrow;
use crate::sources::{Keys, Levels};
use crate::state::state_text;
use clap_complete::Error;
use clap_complete::aot::Counted;
use clap_complete::command::Command;
use clap_complete::engine::{Completers, MemoryFolder, Sources};
use clap_complete::program::words;
use std::io::ErrorKind;
use std::process::ExitCode;

fn main(rt: HostRuntime) -> ExitCode {
    match make_call(&rt) {
        Ok(()) => ExitCode::SUCCESS,
        // An error outside the call.
        Err(_) => ExitCode::from(3),
    }
}

fn make_call(rt: &HostRuntime) -> Result<(), Error> {
    let Ok(words) = words(rt) else {
        return Err(Error::Memory);
    };
    match words.as_slice() {
        [_, name, number] => {
            let number = number_of(number.as_str());
            attempt(
                rt,
                name.as_str(),
                number,
                Some(ErrorKind::StorageFull),
                Some("/w"),
            )
        }
        [_, name, room, kind] => {
            let room = number_of(room.as_str());
            attempt(rt, name.as_str(), room, kind_of(kind.as_str()), Some("/w"))
        }
        _ => print_names(rt),
    }
}

fn number_of(word: &str) -> usize {
    word.parse::<usize>().unwrap_or(0)
}

fn kind_of(word: &str) -> Option<ErrorKind> {
    match word {
        "interrupted" => Some(ErrorKind::Interrupted),
        _ => None,
    }
}

fn print_names(rt: &HostRuntime) -> Result<(), Error> {
    for name in CALLS {
        print(rt, name)?;
    }
    Ok(())
}

// Makes a call over a chain of as many commands as `number` says, or over as many flags. Or makes one
// with a sink that has this room, and then fails with the kind or accepts nothing.
fn attempt(
    rt: &HostRuntime,
    name: &str,
    number: usize,
    spent: Option<ErrorKind>,
    current_dir: Option<&str>,
) -> Result<(), Error> {
    let alloc = rt.alloc();
    let keys = Box::new(alloc, Keys)?;
    let levels = Box::new(alloc, Levels)?;
    let mut completers = Completers::none(alloc);
    completers.add_completer(keys)?;
    completers.add_list(levels)?;
    let folder = MemoryFolder::new(
        &[("/w", &["keys", "key.asc"]), ("/w/keys", &[])],
        &["/w/key.asc"],
    );
    let sources = Sources {
        current_dir,
        folder: &folder,
        completers: &completers,
    };
    match name.split_once(' ') {
        Some(("chain", name)) => attempt_large(rt, name, number, chain(alloc, number), &sources),
        Some(("many", name)) => attempt_large(rt, name, number, many(alloc, number), &sources),
        _ => attempt_twice(rt, name, number, spent, &sources),
    }
}

// Makes a call with a sink that has this room. Repeats the call with enough room.
fn attempt_twice(
    rt: &HostRuntime,
    name: &str,
    room: usize,
    spent: Option<ErrorKind>,
    sources: &Sources<'_, MemoryFolder, Completers>,
) -> Result<(), Error> {
    let mut narrow = Counted::new(Narrow::new(rt.alloc(), room, spent)?);
    let mut wide = Counted::new(Narrow::new(rt.alloc(), usize::MAX, spent)?);
    let mut command = app(rt.alloc())?;
    let first = attempt_first(rt, name, sources, &mut command, &mut narrow);
    let done = match first {
        Ok(()) => attempt_again(rt, name, sources, &mut command, &mut wide),
        Err(error) => Err(error),
    };
    // One call here, instead of a drop of each field at the end.
    drop(command);
    done
}

// Prints the line `begin`, makes the call, and prints the line `end`. Then prints how the call
// ended, the state of the command, and after the line `taken` what the sink accepted.
fn attempt_first(
    rt: &HostRuntime,
    name: &str,
    sources: &Sources<'_, MemoryFolder, Completers>,
    command: &mut Command,
    sink: &mut Counted<Narrow>,
) -> Result<(), Error> {
    print(rt, "begin")?;
    let ended = ending(call(rt, name, sources, command, sink));
    print(rt, "end")?;
    tell(rt, ended, command, sink.get_ref().bytes())
}

fn tell(rt: &HostRuntime, ended: &str, command: &Command, taken: &[u8]) -> Result<(), Error> {
    let state = state_text(rt.alloc(), command)?;
    let taken = String::from_utf8_lossy(rt.alloc(), taken)?;
    let told = format!(in rt.alloc(); "{ended}\n{state}\ntaken\n{taken}")?;
    print(rt, told.as_str())
}

// Prints the line `again`, and after it the text that the call writes.
fn attempt_again(
    rt: &HostRuntime,
    name: &str,
    sources: &Sources<'_, MemoryFolder, Completers>,
    command: &mut Command,
    sink: &mut Counted<Narrow>,
) -> Result<(), Error> {
    print(rt, "again")?;
    call(rt, name, sources, command, sink)?;
    let text = String::from_utf8_lossy(rt.alloc(), sink.get_ref().bytes())?;
    print(rt, text.as_str())
}

fn ending(ended: Result<(), Error>) -> &'static str {
    match ended {
        Ok(()) => "done",
        Err(Error::Memory) => "out of memory",
        Err(Error::Write(ErrorKind::StorageFull)) => "no room",
        Err(Error::Write(ErrorKind::WriteZero)) => "nothing taken",
        Err(Error::Write(ErrorKind::Interrupted)) => "interrupted",
        Err(_) => "another error",
    }
}

pub(crate) fn print(rt: &HostRuntime, line: &str) -> Result<(), Error> {
    match rt.println(line) {
        Ok(()) => Ok(()),
        Err(error) => Err(Error::Write(error.kind())),
    }
}
