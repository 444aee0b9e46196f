//! The adapter for bash.

ghost use Rattle.cc_env.specs.Builtins.{bash_spec};

use crate::env_completer::{EnvCompleter, LookupCompleter};
use crate::reply::{Values, WantedWords, reply_at};
use cc_base::{Error, Sink};
use cc_candidates::{Completers, Folder};
use cc_command::Command;
use cc_engine::{Lookup, Sources};
use cc_registrations::write_bash;
use cc_replies::EnvValues;
use std::alloc::Global;

/// The adapter for bash.
///
/// Completes the word at `_CLAP_COMPLETE_INDEX`, and replies with the values, joined by
/// `_CLAP_IFS`.
#[derive(Clone, Copy, PartialEq, Eq, Debug)]
pub struct Bash;

impl EnvCompleter for Bash {
    ghost spec = { λ _. bash_spec };

    fn name(&self) -> &'static str {
        "bash"
    }

    fn is(&self, name: &str) -> bool {
        name == "bash"
    }

    fn write_registration<W: Sink>(
        &self,
        _alloc: Global,
        variable: &str,
        name: &str,
        bin: &str,
        completer: &str,
        sink: &mut W,
    ) -> Result<(), Error> {
        write_bash(sink, variable, name, bin, completer)
    }

    fn write_complete<D: Folder, W: Sink>(
        &self,
        alloc: Global,
        command: &mut Command,
        words: Vec<String>,
        current_dir: Option<&str>,
        env: &EnvValues,
        folder: &D,
        completers: &Completers,
        sink: &mut W,
    ) -> Result<(), Error> {
        let sources = Sources {
            current_dir,
            folder,
            completers,
        };
        self.write_complete_from(alloc, command, words, env, &sources, sink)
    }
}

impl LookupCompleter for Bash {
    #[tactic(auto, using(cc_replies::proofs::ReplyReadings::values_back))]
    fn write_complete_from<L: Lookup, W: Sink>(
        &self,
        alloc: Global,
        command: &mut Command,
        words: Vec<String>,
        env: &EnvValues,
        lookup: &L,
        sink: &mut W,
    ) -> Result<(), Error> {
        let wanted = WantedWords {
            words,
            index: env.index(),
        };
        let format = Values(env.separator());
        reply_at(alloc, command, wanted, lookup, &format, sink)
    }
}
