//! The adapter for fish.

ghost use Rattle.cc_env.specs.Builtins.{fish_spec};

use crate::env_completer::{EnvCompleter, LookupCompleter};
use crate::reply::{Lines, WantedWords, reply_at};
use cc_base::{Error, Sink};
use cc_candidates::{Completers, Folder};
use cc_command::Command;
use cc_engine::{Lookup, Sources};
use cc_registrations::write_fish;
use cc_replies::EnvValues;
use std::alloc::Global;

/// The adapter for fish.
///
/// Completes the last word, and replies with a line for each value, its help after a tab.
#[derive(Clone, Copy, PartialEq, Eq, Debug)]
pub struct Fish;

impl EnvCompleter for Fish {
    ghost spec = { λ _. fish_spec };

    fn name(&self) -> &'static str {
        "fish"
    }

    fn is(&self, name: &str) -> bool {
        name == "fish"
    }

    fn write_registration<W: Sink>(
        &self,
        alloc: Global,
        variable: &str,
        _name: &str,
        bin: &str,
        completer: &str,
        sink: &mut W,
    ) -> Result<(), Error> {
        write_fish(alloc, sink, variable, bin, completer)
    }

    fn write_complete<D: Folder, W: Sink>(
        &self,
        alloc: Global,
        command: &mut Command,
        words: Vec<String>,
        current_dir: Option<&str>,
        env: &EnvValues,
        folder: &D,
        completers: &Completers,
        sink: &mut W,
    ) -> Result<(), Error> {
        let sources = Sources {
            current_dir,
            folder,
            completers,
        };
        self.write_complete_from(alloc, command, words, env, &sources, sink)
    }
}

impl LookupCompleter for Fish {
    #[tactic(auto, using(cc_replies::proofs::ReplyReadings::lines_back))]
    fn write_complete_from<L: Lookup, W: Sink>(
        &self,
        alloc: Global,
        command: &mut Command,
        words: Vec<String>,
        _env: &EnvValues,
        lookup: &L,
        sink: &mut W,
    ) -> Result<(), Error> {
        reply_at(
            alloc,
            command,
            WantedWords::at_last(words),
            lookup,
            &Lines,
            sink,
        )
    }
}
