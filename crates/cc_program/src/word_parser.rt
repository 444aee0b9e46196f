//! Parses the words of a command line, with the crate `clap` or another parser.

ghost use Rattle.std.specs.Prelude.{ℕ, IfOk, IsTrue, List, Result, map, string_bytes};
ghost use Rattle.clap.specs.declared.error.Error.{Error as ClapError};
ghost use Rattle.clap.specs.declared.parser.matches.ArgMatches.{ArgMatches as Matches};
ghost use Rattle.cc_command.specs.Tree.{Tree};

use bumpalo::Bump;
use cc_command::Command;
use cc_parser::parser;
use clap::ArgMatches;
use std::alloc::{AllocError, Global};

/// Parses the words of a command line by a tree, and puts errors into words.
///
/// A program that is proved with any parser can do its work only on the matches that its parser
/// returned for the words that it was given.
pub trait WordParser {
    // what a parse of words by a built tree may return
    ghost parses: { Self → Tree → List (List ℕ) → Result Matches ClapError → Type 0 };

    // the texts that an error may have
    ghost says: { Self → ClapError → List ℕ → Type 0 };

    /// Parses `words`, the program's name first, by the built `tree`. The matches may borrow from
    /// `store`.
    ///
    /// # Errors
    ///
    /// An error of the words, whose text is a help text or the version if they ask for it. Its kind
    /// is `OutOfMemory` if an allocation fails.
    fn parse<'a>(
        &self,
        alloc: Global,
        store: &'a Bump,
        tree: &'a Command,
        words: &'a [String],
    ) -> Result<ArgMatches<'a>, clap::Error>
        requires { IsTrue tree.now.node.built }
        ensures { parses self.now tree.now (map string_bytes words.now) result };

    /// Returns the text of `error` for the user.
    ///
    /// # Errors
    ///
    /// `AllocError` if an allocation fails.
    fn text(&self, alloc: Global, error: &clap::Error) -> Result<String, AllocError>
        ensures { IfOk result (λ text. says self.now error.now (string_bytes text)) };
}

/// Parses words with the command of the crate `clap` that `cc_parser::parser` makes of a tree.
///
/// `clap` has clauses on the matches of a command that it calls simple. `is_parsed_exactly` tests
/// whether a tree has such a command.
#[derive(Clone, Copy)]
pub struct ClapParser;

impl WordParser for ClapParser {
    ghost use Rattle.std.specs.Prelude.{⊤};
    ghost use Rattle.cc_program.specs.ClapParses.{ParsesWithClap};

    ghost parses = { λ _. ParsesWithClap };

    // `clap` has no clause on its texts.
    ghost says = { λ _ _ _. ⊤ };

    fn parse<'a>(
        &self,
        alloc: Global,
        store: &'a Bump,
        tree: &'a Command,
        words: &'a [String],
    ) -> Result<ArgMatches<'a>, clap::Error> {
        let parser = parser(alloc, store, tree)?;
        parser.try_get_matches_from(words)
    }

    fn text(&self, alloc: Global, error: &clap::Error) -> Result<String, AllocError> {
        format!(in alloc; "{error}")
    }
}
