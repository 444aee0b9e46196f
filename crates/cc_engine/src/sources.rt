//! Completers, lists, and a folder.

ghost use Rattle.std.specs.Prelude.{IfOk};
ghost use Rattle.std.specs.Option.{option_copied};
ghost use Rattle.cc_engine.specs.Paths.{PathsOf};
ghost use Rattle.cc_engine.specs.Sources.{returned_from};

use crate::gathering::{PathSource, arg_values};
use crate::lookup::Lookup;
use cc_arg::{Arg, ValueHint};
use cc_base::CandidateSources;
use cc_candidates::{
    CompletionCandidate, EveryPath, Folder, IsDir, IsExecutable, IsFile, path_candidates,
};
use cc_command::Command;
use std::alloc::{AllocError, Global};

/// A folder and completers, in which live completion looks for candidates.
///
/// The values of an argument come from its completer. Without one they come from its list, then
/// from its possible values, then from its value hint, by the paths in a folder. Arguments and
/// commands name their completers and lists by numbers.
#[derive(Drop)]
pub struct Sources<'a, D, C> {
    /// The directory where relative paths begin. Without one, relative paths have no candidates.
    pub current_dir: Option<&'a str>,
    /// The folder whose paths complete the values of value hints.
    pub folder: &'a D,
    /// The completers and lists, by their numbers; `Completers` as a rule.
    pub completers: &'a C,
}

impl<'a, D: Folder, C: CandidateSources<Candidate = CompletionCandidate>> Lookup
    for Sources<'a, D, C> {
    ghost may_return = { λ sources. returned_from C.CandidateSources sources.completers.now
        (D.facts sources.folder.now) (option_copied sources.current_dir) };

    ghost current = { λ sources. option_copied sources.current_dir };

    fn current_dir(&self) -> Option<&str> {
        self.current_dir
    }

    fn values(
        &self,
        alloc: Global,
        argument: &Arg,
        word: &str,
        number: usize,
    ) -> Result<Vec<CompletionCandidate>, AllocError> {
        arg_values(alloc, argument, word, number, self.completers, self)
    }

    fn other_programs(
        &self,
        alloc: Global,
        command: &Command,
    ) -> Result<Vec<CompletionCandidate>, AllocError> {
        match command.get_candidates() {
            Some(list) if command.is_allow_external_subcommands_set() => {
                list.candidates(alloc, self.completers)
            }
            _ => Ok(Vec::new(alloc)),
        }
    }
}

impl<'a, D: Folder, C> PathSource for Sources<'a, D, C> {
    ghost finds = { λ sources.
        PathsOf (D.facts sources.folder.now) (option_copied sources.current_dir) };

    fn find(
        &self,
        alloc: Global,
        hint: ValueHint,
        text: &str,
    ) -> Result<Vec<CompletionCandidate>, AllocError> {
        match hint {
            ValueHint::AnyPath => {
                path_candidates(alloc, self.folder, &EveryPath, self.current_dir, text)
            }
            ValueHint::FilePath => {
                path_candidates(alloc, self.folder, &IsFile, self.current_dir, text)
            }
            ValueHint::DirPath => {
                path_candidates(alloc, self.folder, &IsDir, self.current_dir, text)
            }
            ValueHint::ExecutablePath => {
                path_candidates(alloc, self.folder, &IsExecutable, self.current_dir, text)
            }
            _ => Ok(Vec::new(alloc)),
        }
    }
}
