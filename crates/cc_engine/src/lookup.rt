//! The source of the candidates that a command does not hold.

ghost use Rattle.std.specs.Prelude.{◌≡◌, ℕ, List, Option, IfOk, true};
ghost use Rattle.std.specs.Option.{option_copied};
ghost use Rattle.cc_engine.specs.Completion.{children_question};
ghost use Rattle.cc_engine.specs.Values.{Allows, ArgumentValues, MayReturn};

use cc_arg::Arg;
use cc_candidates::CompletionCandidate;
use cc_command::Command;
use std::alloc::{AllocError, Global};

/// Finds the candidates that a command does not hold, and knows where relative paths begin.
/// `Sources` is the usual implementation.
pub trait Lookup {
    // what completers, lists and folders may return
    ghost may_return: { Self → MayReturn };

    // the directory where relative paths begin
    ghost current: { Self → Option (List ℕ) };

    /// Returns the directory where relative paths begin, if there is one, the same at each call. A
    /// registration needs it if the program was called by a relative path. No clause links it to
    /// `values`, which has to begin there by itself.
    fn current_dir(&self) -> Option<&str>
        ensures { option_copied result ≡ current self.now };

    /// Returns the values of `argument` for `word`, which is its value number `number`, counted
    /// from 0.
    ///
    /// # Errors
    ///
    /// `AllocError` if an allocation fails.
    fn values(
        &self,
        alloc: Global,
        argument: &Arg,
        word: &str,
        number: usize,
    ) -> Result<Vec<CompletionCandidate>, AllocError>
        ensures { IfOk result (λ found. ArgumentValues (may_return self.now) argument.now word.now
            number found.items) };

    /// Returns the names of other programs from the list of `command`, if it takes them as external
    /// subcommands, and otherwise no names.
    ///
    /// # Errors
    ///
    /// `AllocError` if an allocation fails.
    fn other_programs(
        &self,
        alloc: Global,
        command: &Command,
    ) -> Result<Vec<CompletionCandidate>, AllocError>
        ensures { IfOk result (λ found. Allows (may_return self.now)
            (children_question true command.now.node) found.items) };
}
