//! Calls of programs succeed: `completes` finds no request in the environment of a test, and a
//! generator and an adapter from outside the library, those of `cc_caller`, write.

use crate::trees::{NESTED, read};
use cc_caller::{WordList, answer_prompt};
use clap_complete::aot::Collected;
use clap_complete::command::Command;
use clap_complete::engine::{Completers, MemoryFolder, Sources};
use clap_complete::env::EnvValues;
use clap_complete::program::completes;
use clap_complete::{Error, generate};
use std::alloc::{AllocError, Global};

// Returns the exit status, if a shell asks.
fn asked(rt: &HostRuntime) -> Result<Option<u8>, Error> {
    let completers = Completers::none(rt.alloc());
    let mut out = Collected::new(rt.alloc());
    let factory = |alloc: Global| read(alloc, NESTED);
    completes(rt, &[], factory, &completers, &mut out)
}

#[test]
fn no_shell_asks(rt: HostRuntime) {
    assert!(rt; matches!(asked(&rt), Ok(None)));
}

fn write_words(alloc: Global, command: &mut Command) -> Result<(), Error> {
    let bin_name = String::from_str(alloc, "app")?;
    let mut sink = Collected::new(alloc);
    generate(alloc, WordList, command, bin_name, &mut sink)
}

#[test]
fn a_generator_outside_the_library_writes(rt: HostRuntime) {
    let mut command = read(rt.alloc(), NESTED).expect(&rt, "no command");
    let written = write_words(rt.alloc(), &mut command);
    drop(command);
    assert!(rt; written.is_ok());
}

// Returns an environment in which the prompt asks.
fn environment(alloc: Global) -> Result<EnvValues, AllocError> {
    let name = String::from_str(alloc, "COMPLETE")?;
    let value = String::from_str(alloc, "prompt")?;
    let mut variables = Vec::new(alloc);
    variables.push((name, value))?;
    Ok(EnvValues::new(variables))
}

// Answers the prompt, which asks for the registration.
fn answer(alloc: Global, current_dir: Option<&str>) -> Result<bool, Error> {
    let env = environment(alloc)?;
    let mut arguments = Vec::new(alloc);
    arguments.push(String::from_str(alloc, "app")?)?;
    let folder = MemoryFolder::new(&[], &[]);
    let completers = Completers::none(alloc);
    let sources = Sources {
        current_dir,
        folder: &folder,
        completers: &completers,
    };
    let mut out = Collected::new(alloc);
    let factory = |alloc: Global| read(alloc, NESTED);
    answer_prompt(alloc, factory, arguments, &env, &sources, &mut out)
}

#[test]
fn an_adapter_outside_the_library_answers(rt: HostRuntime) {
    assert!(rt; answer(rt.alloc(), None).is_ok());
}
