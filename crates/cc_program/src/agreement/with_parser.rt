//! The candidates for a word of a command line, and the parser of the command.

ghost use Rattle.std.specs.Prelude.{◌≡◌, false, length, map, string_bytes, true};
ghost use Rattle.std.specs.Prelude.{IfErr, IfOk, OnOk};
ghost use Rattle.clap.specs.Words.{app_of};
ghost use Rattle.clap.specs.declared.builder.command.Command.TheViews.{out-Command};
ghost use Rattle.cc_command.specs.Built.{built_tree};
ghost use Rattle.cc_engine.specs.Completion.{Completes, is_in_range};
ghost use Rattle.cc_engine.specs.Finished.{Differ};
ghost use Rattle.cc_parser.specs.Parsers.{has_globals};
ghost use Rattle.cc_parser.specs.Taken.{fits_parser};
ghost use Rattle.cc_program.specs.ParserAgreement.{AgreesWithParser, IsParserOf, RefusesBoth};

use bumpalo::Bump;
use cc_base::Error;
use cc_candidates::CompletionCandidate;
use cc_command::Command;
use cc_engine::{Lookup, complete_from};
use cc_parser::parser;
use std::alloc::Global;

/// Builds `command` and returns the candidates for the word at `index`, as `complete_from` does,
/// the parser of the command, as `parser` does, and the built command. The parser is in `store`.
///
/// If no argument of the built command is global, and the command fits its parser (`fits_parser`),
/// the two agree. The words before the index lead to one command. If this is the root, each
/// candidate is the name of a child that the parser knows, a long or a short that it knows, with
/// the id of its argument, a value, or the name of another program. For other commands, or with
/// global arguments, use `candidates_and_reached_parser`.
///
/// # Errors
///
/// `NoCompletion` if no word, or the program's name, is at the index, and `Memory` if an allocation
/// fails. The parser borrows the command, so no clause speaks of it after a failure. If you need
/// one, call `complete_from` and then `parser`.
pub fn candidates_and_parser<'a, L: Lookup>(
    alloc: Global,
    store: &'a Bump,
    command: &'a mut Command,
    words: Vec<String>,
    index: usize,
    lookup: &L,
) -> Result<(Vec<CompletionCandidate>, clap::Command<'a>, &'a Command), Error>
    ensures built { IfOk result (λ all. all.2.now ≡ built_tree command.old) }
    ensures candidates { IfOk result (λ all. Completes (L.may_return lookup.now)
        (built_tree command.old) (map string_bytes words.items) index all.0.items) }
    ensures differ { IfOk result (λ all. Differ all.0.items) }
    ensures in_range { OnOk result
        (is_in_range (built_tree command.old).node (length words.items) index ≡ true) }
    ensures parser { IfOk result (λ all. IsParserOf
        (built_tree command.old) (app_of all.1) (out-Command all.1).has_globals) }
    ensures agree { IfOk result (λ all. has_globals (built_tree command.old) ≡ false
        → fits_parser (built_tree command.old) ≡ true → AgreesWithParser (L.may_return lookup.now)
        (built_tree command.old) (app_of all.1) (map string_bytes words.items) index
        all.0.items) }
    ensures errors { IfErr result
        (RefusesBoth (built_tree command.old) (length words.items) index) }
{
    let found = complete_from(alloc, command, words, index, lookup)?;
    let command = &*command;
    let parser = parser(alloc, store, command)?;
    Ok((found, parser, command))
}
