//! `larder`: the command line of a package manager. One tree of commands completes itself in the
//! shell that calls it, and parses its words. It keeps a list of packages and installs none.
#![tactic(auto)]

mod packages;

use crate::packages::{Installed, install, remove};
use clap::ArgMatches;
use clap_complete::Error;
use clap_complete::command::{Command, ValueHint};
use clap_complete::describe::{command, flag, group, option, positional, with_alias, with_child};
use clap_complete::engine::{ArgValueCompleter, Completers};
use clap_complete::program::{Failure, end, run};
use std::alloc::Global;
use std::io;
use std::process::ExitCode;

fn main(rt: HostRuntime) -> ExitCode {
    end(&rt, "larder", started(&rt))
}

fn started(rt: &HostRuntime) -> Result<ExitCode, Failure<io::Error>> {
    let mut completers = Completers::none(rt.alloc());
    let installed = completers.add_completer(Box::new(rt.alloc(), Installed::new(*rt))?)?;
    let tree = |alloc: Global| larder(alloc, installed);
    run(rt, tree, &completers, |found| manage_packages(rt, found))
}

fn manage_packages(rt: &HostRuntime, found: &ArgMatches<'_>) -> io::Result<()> {
    match found.subcommand() {
        Some(("install", values)) => install(rt, values),
        Some(("remove", values)) => remove(rt, values),
        _ => rt.println("There are no sources yet"),
    }
}

// Returns the whole tree. The completer completes the names of installed packages.
fn larder(alloc: Global, installed: ArgValueCompleter) -> Result<Command, Error> {
    let colors = [
        ("auto", "Where the output is a terminal"),
        ("always", "Also into files and pipes"),
        ("never", "Not at all"),
    ];
    let color = option("color", "WHEN", "When to use colours");
    let root = "Work on the installation in this directory";
    let args = [
        flag("verbose", "Say more").short('v').global(),
        option("root", "DIR", root).value_hint(ValueHint::DirPath),
        color.values(&colors).global(),
    ];
    let about = "Install, update and publish packages";
    let larder = group(alloc, "larder", about, &args);
    let larder = with_child(larder, install_tree(alloc));
    let larder = with_child(larder, remove_tree(alloc, installed));
    with_child(larder, source(alloc))
}

fn install_tree(alloc: Global) -> Result<Command, Error> {
    let args = [
        positional("package", "PACKAGE", "Names of packages").many(),
        option("from", "SOURCE", "Take the packages from this source"),
        flag("dry-run", "Only say what would be done").short('n'),
    ];
    let install = command(alloc, "install", "Install packages", &args);
    with_alias(alloc, install, "i")
}

fn remove_tree(alloc: Global, installed: ArgValueCompleter) -> Result<Command, Error> {
    let package = positional("package", "PACKAGE", "Names of packages").many();
    let purge = flag("purge", "Remove their settings too");
    let args = [package.completer(installed), purge];
    let remove = command(alloc, "remove", "Remove packages", &args);
    with_alias(alloc, remove, "rm")
}

fn source(alloc: Global) -> Result<Command, Error> {
    let args = [
        positional("name", "NAME", "What to call it"),
        positional("url", "URL", "Where it is").value_hint(ValueHint::Url),
        option("priority", "N", "Lower numbers come first").short('p'),
    ];
    let add = command(alloc, "add", "Add a source", &args);
    let source = group(alloc, "source", "Manage the sources of packages", &[]);
    let source = with_child(with_alias(alloc, source, "src"), add);
    with_child(source, key(alloc))
}

fn key(alloc: Global) -> Result<Command, Error> {
    let times = [
        ("1 month", "To try a source out"),
        ("1 year", "Until the next key is due"),
        ("never", "Until it is revoked"),
    ];
    let file = positional("file", "FILE", "The key's file");
    let expires = option("expires", "AFTER", "Trust it for this time");
    let args = [file.value_hint(ValueHint::FilePath), expires.values(&times)];
    let add = command(alloc, "add", "Trust a key", &args);
    let about = "Manage the keys that sign a source's packages";
    with_child(group(alloc, "key", about, &[]), add)
}
