//! A program over values: what it does, apart from where its words and its environment come from.

ghost use Rattle.std.specs.Prelude.{◌≡◌, map, string_bytes};
ghost use Rattle.std.specs.Fn.{FnOnceReturnsAt, FnOnceTakesAt};
ghost use Rattle.cc_env.specs.OwnAnswers.{AnswersCalled, parts_called, requested_by};
ghost use Rattle.cc_env.specs.Wanted.{nothing};
ghost use Rattle.cc_program.specs.Statuses.{EndsOver, EndsParse, HoldsOfMatches, parser_facts};

use crate::failure::Failure;
use crate::parsing::parse_tree;
use crate::streams::Streams;
use crate::word_parser::WordParser;
use cc_base::{CandidateSources, Error, Sink};
use cc_candidates::{CompletionCandidate, Folder};
use cc_command::Command;
use cc_engine::Sources;
use cc_env::{Called, CompleteEnv, LineSource, SafeShell, try_complete_asking};
use clap::ArgMatches;
use std::alloc::Global;
use std::process::ExitCode;

/// The parts of a program that treat its words: the completion, the parser, and the program's own
/// work on the matches.
#[derive(Drop)]
pub struct Program<'s, P, F, C> {
    /// Completes the command that its factory makes, which is also the command that is parsed.
    pub completion: CompleteEnv<'s, F, SafeShell>,
    /// Parses the words.
    pub parser: P,
    /// Does the program's own work on the matches.
    pub carry_out: C,
}

/// Runs `program` over the words and the environment variables in `called`.
///
/// If the environment requests a completion, writes the answer to `streams.out`, as
/// `try_complete_asking` does. Otherwise makes the tree, builds it, and parses the same words with
/// `program.parser`:
///
/// - if they have matches, calls `program.carry_out` with them, and writes nothing. It never calls
///   that with other matches, nor if a completion is requested;
/// - if they ask for a help text or the version, writes it to `streams.out`;
/// - if they are wrong, writes the parser's message to `streams.err`.
///
/// Returns status 0 after a completion, a help text, the version and the program's own work; status
/// 2 after a mistake; status 3 after the words of a command for the shell to run; and
/// status 4 after a reply after whose values no space follows.
///
/// # Errors
///
/// `Library` with an error of `try_complete_asking` or of the factory, or with `Memory` if an
/// allocation fails. `Print` with the kind of the write that failed, if a message can't be written.
/// `Own` with the error of `carry_out`.
pub fn run_over<P, F, C, E, D, K, S, O, X>(
    alloc: Global,
    program: Program<'_, P, F, C>,
    called: &Called<'_>,
    sources: &Sources<'_, D, K>,
    lines: &S,
    streams: &mut Streams<O, X>,
) -> Result<ExitCode, Failure<E>>
where
    P: WordParser + Drop,
    F: Fn(Global) -> Result<Command, Error> + Drop,
    C: FnOnce(&ArgMatches<'_>) -> Result<(), E> + Drop,
    E: Drop,
    D: Folder,
    K: CandidateSources<Candidate = CompletionCandidate>,
    S: LineSource,
    O: Sink,
    X: Sink,
    requires factory { F.IsAlwaysCallable program.completion.factory }
    requires work { requested_by program.completion called.now ≡ nothing
        → HoldsOfMatches (λ made. F.post program.completion.factory alloc made)
        (parser_facts P.WordParser program.parser (map string_bytes called.now.args.now))
        (λ found. FnOnceTakesAt C.FnOnce program.carry_out found) }
    ensures { EndsOver O.Sink X.Sink (requested_by program.entry.completion called.now)
        (AnswersCalled program.entry.completion called.now (parts_called program.entry.completion
        called.now K.CandidateSources (D.facts sources.now.folder.now) sources.now)
        (S.gives lines.now)) (λ made. F.post program.entry.completion.factory alloc made)
        (parser_facts P.WordParser program.entry.parser (map string_bytes called.now.args.now))
        (λ found done. FnOnceReturnsAt C.FnOnce program.entry.carry_out found done)
        streams.old streams.new result }
{
    let Program {
        completion,
        parser,
        carry_out,
    } = program;
    let out = &mut streams.out;
    let ended = match try_complete_asking(alloc, &completion, called, sources, lines, out) {
        Ok(ended) => ended,
        Err(error) => {
            drop(completion);
            return Err(Failure::Library(error));
        }
    };
    match ended {
        Some(status) => {
            drop(completion);
            Ok(ExitCode::from(status))
        }
        None => {
            let ended = parse_made(alloc, &completion, &parser, called.args, carry_out, streams);
            drop(completion);
            ended
        }
    }
}

// Makes the tree, builds it, parses the words by it, and carries out what they ask for.
fn parse_made<P, F, C, E, O, X>(
    alloc: Global,
    completion: &CompleteEnv<'_, F, SafeShell>,
    parser: &P,
    words: &[String],
    carry_out: C,
    streams: &mut Streams<O, X>,
) -> Result<ExitCode, Failure<E>>
where
    P: WordParser,
    F: Fn(Global) -> Result<Command, Error> + Drop,
    C: FnOnce(&ArgMatches<'_>) -> Result<(), E> + Drop,
    E: Drop,
    O: Sink,
    X: Sink,
    requires factory { F.IsAlwaysCallable completion.now.factory }
    requires work { HoldsOfMatches (λ made. F.post completion.now.factory alloc made)
        (parser_facts P.WordParser parser.now (map string_bytes words.now))
        (λ found. FnOnceTakesAt C.FnOnce carry_out found) }
    ensures { EndsParse O.Sink X.Sink (λ made. F.post completion.now.factory alloc made)
        (parser_facts P.WordParser parser.now (map string_bytes words.now))
        (λ found done. FnOnceReturnsAt C.FnOnce carry_out found done)
        streams.old streams.new result }
{
    let mut tree = completion.command(alloc)?;
    match tree.build(alloc) {
        Ok(()) => {
            let ended = parse_tree(alloc, parser, &tree, words, carry_out, streams);
            // One call here, instead of a drop of each field at each return.
            drop(tree);
            ended
        }
        Err(error) => {
            drop(tree);
            Err(Failure::Library(error))
        }
    }
}
