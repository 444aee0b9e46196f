//! `pantry`: prints labels for jars, and lists for the shop. One tree of commands completes itself
//! in the shell that calls it, and parses its words. The clauses of the library cover the whole
//! tree: no argument is global, and no subcommand has subcommands.
#![tactic(auto)]

#[cfg(test)]
mod covered;

use clap::ArgMatches;
use clap_complete::Error;
use clap_complete::command::Command;
use clap_complete::describe::{command, flag, group, option, positional, with_alias, with_child};
use clap_complete::engine::Completers;
use clap_complete::program::{Failure, end, run};
use std::alloc::Global;
use std::io;
use std::process::ExitCode;

fn main(rt: HostRuntime) -> ExitCode {
    end(&rt, "pantry", started(&rt))
}

fn started(rt: &HostRuntime) -> Result<ExitCode, Failure<io::Error>> {
    let completers = Completers::none(rt.alloc());
    let tree = |alloc: Global| pantry(alloc);
    run(rt, tree, &completers, |found| print_chosen(rt, found))
}

// Returns the whole tree.
fn pantry(alloc: Global) -> Result<Command, Error> {
    let jars = positional("jar", "JAR", "What is in each jar").many();
    let things = positional("thing", "THING", "Things to buy").many();
    let frames = [("stars", "A star at each end"), ("none", "The text alone")];
    let frame = option("frame", "FRAME", "What is around a label");
    let labels = [frame.values(&frames), jars.required()];
    let list = [
        flag("numbered", "Begin each line with a number").short('n'),
        things.required(),
    ];
    let pantry = group(alloc, "pantry", "Prints labels and lists", &[]);
    let labels = command(alloc, "label", "Print a label for each jar", &labels);
    let pantry = with_child(pantry, labels);
    let list = command(alloc, "list", "Print a list for the shop", &list);
    with_child(pantry, with_alias(alloc, list, "ls"))
}

fn print_chosen(rt: &HostRuntime, found: &ArgMatches<'_>) -> io::Result<()> {
    match found.subcommand() {
        Some(("label", values)) => print_labels(rt, values),
        Some(("list", values)) => print_list(rt, values),
        _ => Ok(()),
    }
}

fn print_labels(rt: &HostRuntime, values: &ArgMatches<'_>) -> io::Result<()> {
    let end = if values.get_str("frame") == Some("none") {
        ""
    } else {
        "*"
    };
    for jar in values.get_raw("jar").unwrap_or(&[]) {
        println!(rt; "{end}{jar}{end}")?;
    }
    Ok(())
}

fn print_list(rt: &HostRuntime, values: &ArgMatches<'_>) -> io::Result<()> {
    let numbered = values.get_flag("numbered");
    let mut number = 1u64;
    for thing in values.get_raw("thing").unwrap_or(&[]) {
        if numbered {
            println!(rt; "{number}. {thing}")?;
        } else {
            println!(rt; "{thing}")?;
        }
        number = number.saturating_add(1);
    }
    Ok(())
}
