//! Parsing the words of a command line, and what follows.

ghost use Rattle.std.specs.Prelude.{◌≡◌, IsTrue, Ok, map, string_bytes};
ghost use Rattle.std.specs.Fn.{FnOnceReturnsAt, FnOnceTakesAt};
ghost use Rattle.clap.specs.Values.{kind_of};
ghost use Rattle.clap.specs.declared.parser.matches.ArgMatches.{ArgMatches as Matches};
ghost use Rattle.cc_program.specs.Messages.{Explains, SaysText, is_out_of_memory, status_of};
ghost use Rattle.cc_program.specs.Statuses.{Carries, EndsTree, parser_facts};

use crate::failure::Failure;
use crate::streams::{Streams, put_message};
use crate::word_parser::WordParser;
use bumpalo::Bump;
use cc_base::{Error, Sink};
use cc_command::Command;
use clap::ArgMatches;
use clap::error::ErrorKind;
use std::alloc::Global;
use std::io;
use std::process::ExitCode;

// Parses the words by a built tree and carries out what they ask for, or writes a help text, the
// version, or what is wrong with them.
pub(crate) fn parse_tree<P, C, E, O, X>(
    alloc: Global,
    parser: &P,
    tree: &Command,
    words: &[String],
    carry_out: C,
    streams: &mut Streams<O, X>,
) -> Result<ExitCode, Failure<E>>
where
    P: WordParser,
    C: FnOnce(&ArgMatches<'_>) -> Result<(), E> + Drop,
    E: Drop,
    O: Sink,
    X: Sink,
    requires tree { IsTrue tree.now.node.built }
    requires work { (found : Matches)
        → P.parses parser.now tree.now (map string_bytes words.now) (Ok found)
        → FnOnceTakesAt C.FnOnce carry_out found }
    ensures { EndsTree O.Sink X.Sink tree.now
        (parser_facts P.WordParser parser.now (map string_bytes words.now))
        (λ found done. FnOnceReturnsAt C.FnOnce carry_out found done)
        streams.old streams.new result }
{
    let store = Bump::new(alloc);
    match parser.parse(alloc, &store, tree, words) {
        Ok(found) => carried(carry_out, &found),
        Err(error) => explained(alloc, parser, &error, streams),
    }
}

// Does the work of the parsed words.
fn carried<C, E>(carry_out: C, found: &ArgMatches<'_>) -> Result<ExitCode, Failure<E>>
where
    C: FnOnce(&ArgMatches<'_>) -> Result<(), E>,
    requires { FnOnceTakesAt C.FnOnce carry_out found.now }
    ensures { Carries (λ done. FnOnceReturnsAt C.FnOnce carry_out found.now done) result }
{
    match carry_out(found) {
        Ok(()) => Ok(ExitCode::SUCCESS),
        Err(error) => Err(Failure::Own(error)),
    }
}

// Writes a help text, the version, or a message about the words.
fn explained<P: WordParser, E, O: Sink, X: Sink>(
    alloc: Global,
    parser: &P,
    error: &clap::Error,
    streams: &mut Streams<O, X>,
) -> Result<ExitCode, Failure<E>>
    ensures { Explains O.Sink X.Sink (kind_of error.now) (λ text. P.says parser.now error.now text)
        streams.old streams.new result }
{
    if is_out_of_memory(error.kind()) {
        return Err(Failure::Library(Error::Memory));
    }
    let text = parser.text(alloc, error)?;
    say(text.as_str(), error.kind(), streams)
}

// Writes the text of a message of this kind, and returns the status after it.
fn say<E, O: Sink, X: Sink>(
    text: &str,
    kind: ErrorKind,
    streams: &mut Streams<O, X>,
) -> Result<ExitCode, Failure<E>>
    ensures { SaysText O.Sink X.Sink kind streams.old streams.new text.now result }
{
    match put_message(text, kind, streams) {
        Ok(()) => Ok(ExitCode::from(status_of(kind))),
        Err(failed) => Err(Failure::Print(io::Error::from(failed))),
    }
}

// Returns whether there was no memory to parse the words.
fn is_out_of_memory(kind: ErrorKind) -> bool
    ensures { result ≡ is_out_of_memory kind }
{
    matches!(kind, ErrorKind::OutOfMemory)
}

// Returns the exit status for words that are not carried out: 0 for a help text or the version, and
// 2 for a mistake.
fn status_of(kind: ErrorKind) -> u8
    ensures { result ≡ status_of kind }
{
    match kind {
        ErrorKind::DisplayHelp | ErrorKind::DisplayVersion => 0,
        _ => 2,
    }
}
