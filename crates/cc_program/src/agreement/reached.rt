//! The candidates for a word of a command line, and the parser of the command that reads the word.

ghost use Rattle.std.specs.Prelude.{◌≡◌, IfErr, IfOk, OnOk, length, map, string_bytes, true};
ghost use Rattle.clap.specs.Words.{app_of};
ghost use Rattle.clap.specs.declared.builder.command.Command.TheViews.{out-Command};
ghost use Rattle.cc_command.specs.Built.{built_tree};
ghost use Rattle.cc_engine.specs.Completion.{Completes, is_in_range, words_before};
ghost use Rattle.cc_engine.specs.Finished.{Differ};
ghost use Rattle.cc_program.specs.ParserAgreement.{AgreesWhereWordsLead, IsLocalParserOf, RefusesBoth};
ghost use Rattle.cc_program.specs.Reached.{reached};

use bumpalo::Bump;
use cc_base::Error;
use cc_candidates::{CompletionCandidate, copies_of};
use cc_command::Command;
use cc_engine::{Lookup, complete_from, words_before};
use cc_parser::local_parser;
use std::alloc::Global;

/// Builds `command` and returns the candidates for the word at `index`, as `complete_from` does,
/// the parser of the command to which the words before it lead, as `local_parser` does, and that
/// command. The parser is in `store`.
///
/// If the command fits its parser, the two agree. Each candidate is then a name that this parser
/// knows, with the id of its argument, or the value of an argument. Call `fits_parser` on the
/// returned command to test that. Global arguments of the commands above it are its own there.
///
/// # Errors
///
/// `NoCompletion` if no word, or the program's name, is at the index, and `Memory` if an allocation
/// fails. The parser borrows the command, so no clause speaks of it after a failure.
pub fn candidates_and_reached_parser<'a, L: Lookup>(
    alloc: Global,
    store: &'a Bump,
    command: &'a mut Command,
    words: Vec<String>,
    index: usize,
    lookup: &L,
) -> Result<(Vec<CompletionCandidate>, clap::Command<'a>, &'a Command), Error>
    ensures candidates { IfOk result (λ all. Completes (L.may_return lookup.now)
        (built_tree command.old) (map string_bytes words.items) index all.0.items) }
    ensures differ { IfOk result (λ all. Differ all.0.items) }
    ensures in_range { OnOk result
        (is_in_range (built_tree command.old).node (length words.items) index ≡ true) }
    ensures parser { IfOk result (λ all. IsLocalParserOf
        all.2.now (app_of all.1) (out-Command all.1).has_globals) }
    ensures agree { IfOk result (λ all. AgreesWhereWordsLead (L.may_return lookup.now)
        (built_tree command.old) all.2.now (app_of all.1) (map string_bytes words.items) index
        all.0.items) }
    ensures errors { IfErr result
        (RefusesBoth (built_tree command.old) (length words.items) index) }
{
    let line = copies_of(alloc, words.as_slice())?;
    let found = complete_from(alloc, command, words, index, lookup)?;
    let reached = reached_command(&*command, line.as_slice(), index);
    let parser = local_parser(alloc, store, reached)?;
    Ok((found, parser, reached))
}

// Returns the command to which the words before the index lead.
fn reached_command<'c>(command: &'c Command, words: &[String], index: usize) -> &'c Command
    requires { is_in_range command.now.node (length words.now) index ≡ true }
    ensures { result.now ≡ reached command.now
        (words_before command.now.node (map string_bytes words.now) index) }
{
    let before = words_before(command, words, index);
    let mut reached = command;
    for word in before {
        if let Some(child) = reached.find_subcommand(word.as_str()) {
            reached = child;
        }
    }
    reached
}
