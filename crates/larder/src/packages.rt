//! The packages that are installed: the lines of a file in the current directory.

ghost use Rattle.std.specs.Prelude.{⊤};

use clap::ArgMatches;
use clap_complete::engine::{CompletionCandidate, ValueCompleter};
use std::alloc::{AllocError, Global};
use std::fs;
use std::io::{self, IsTerminal};
use std::rt::Files;

/// The file in the current directory that names the installed packages, each on a line.
const LIST: &str = "larder.list";

/// A completer of the names of installed packages. The contents of the file are not known in
/// advance, so it promises nothing about its candidates.
#[derive(Drop)]
pub(crate) struct Installed<R> {
    files: R,
}

impl<R> Installed<R> {
    /// Creates a completer that reads the list from `files`.
    pub(crate) fn new(files: R) -> Installed<R> {
        Installed { files }
    }
}

impl<R: Files + Drop> ValueCompleter for Installed<R> {
    ghost completes = { λ _ _ _ _. ⊤ };

    fn complete(&self, alloc: Global, text: &str) -> Result<Vec<CompletionCandidate>, AllocError> {
        let list = contents(&self.files, alloc)?;
        let mut found = Vec::new(alloc);
        for name in list.lines() {
            // A line without a name is skipped.
            if !name.trim().is_empty() && name.as_bytes().starts_with(text.as_bytes()) {
                found.push(CompletionCandidate::new(String::from_str(alloc, name)?))?;
            }
        }
        Ok(found)
    }
}

// Returns the text of the file, or an empty text if it can't be read.
fn contents<R: Files>(files: &R, alloc: Global) -> Result<String, AllocError> {
    match fs::read_to_string(&(files, alloc), LIST) {
        Ok(text) => Ok(text),
        Err(error) if error.kind() == io::ErrorKind::OutOfMemory => Err(AllocError),
        Err(_) => Ok(String::new(alloc)),
    }
}

/// Adds the packages that the list lacks to it, and prints their names. With `--dry-run` only
/// prints them.
pub(crate) fn install(rt: &HostRuntime, values: &ArgMatches<'_>) -> io::Result<()> {
    let alloc = rt.alloc();
    let dry = values.get_flag("dry-run");
    let mut list = contents(rt, alloc)?;
    for name in values.get_raw("package").unwrap_or(&[]) {
        if has_line(&list, name) {
            continue;
        }
        list.push_str(name)?;
        list.push_str("\n")?;
        say(
            rt,
            if dry { "would install" } else { "installed" },
            name,
            values,
        )?;
    }
    if dry {
        return Ok(());
    }
    fs::write(rt, LIST, list.as_str())
}

/// Removes the packages from the list, and prints their names.
pub(crate) fn remove(rt: &HostRuntime, values: &ArgMatches<'_>) -> io::Result<()> {
    let names = values.get_raw("package").unwrap_or(&[]);
    let mut kept = String::new(rt.alloc());
    for line in contents(rt, rt.alloc())?.lines() {
        if names.iter().any(|name| *name == line) {
            say(rt, "removed", line, values)?;
            continue;
        }
        kept.push_str(line)?;
        kept.push_str("\n")?;
    }
    fs::write(rt, LIST, kept.as_str())
}

fn has_line(list: &str, name: &str) -> bool {
    list.lines().any(|line| line == name)
}

// Prints what was done with a package, and its name in green as `--color` requests.
fn say(rt: &HostRuntime, what: &str, name: &str, values: &ArgMatches<'_>) -> io::Result<()> {
    let colored = match values.get_str("color") {
        Some("always") => true,
        Some("never") => false,
        _ => rt.stdout().is_terminal(),
    };
    let (before, after) = if colored {
        ("\x1b[32m", "\x1b[0m")
    } else {
        ("", "")
    };
    println!(rt; "{what} {before}{name}{after}")
}
