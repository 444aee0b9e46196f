//! The adapter for zsh.

ghost use Rattle.std.specs.Prelude.{◌≡◌, IfOk, map, string_bytes};
ghost use Rattle.cc_env.specs.WantedWords.{with_next};
ghost use Rattle.cc_env.specs.Builtins.{zsh_spec};

use crate::env_completer::{EnvCompleter, LookupCompleter};
use crate::reply::{WantedWords, ZshItems, reply_at};
use cc_base::{Error, Sink};
use cc_candidates::{Completers, Folder};
use cc_command::Command;
use cc_engine::{Lookup, Sources};
use cc_registrations::write_zsh;
use cc_replies::EnvValues;
use std::alloc::{AllocError, Global};

/// The adapter for zsh.
///
/// Completes the word at `_CLAP_COMPLETE_INDEX`, which may be an empty word after the last. Replies
/// with the values and their help texts, joined by `_CLAP_IFS`.
#[derive(Clone, Copy, PartialEq, Eq, Debug)]
pub struct Zsh;

impl EnvCompleter for Zsh {
    ghost spec = { λ _. zsh_spec };

    fn name(&self) -> &'static str {
        "zsh"
    }

    fn is(&self, name: &str) -> bool {
        name == "zsh"
    }

    fn write_registration<W: Sink>(
        &self,
        alloc: Global,
        variable: &str,
        name: &str,
        bin: &str,
        completer: &str,
        sink: &mut W,
    ) -> Result<(), Error> {
        write_zsh(alloc, sink, variable, name, bin, completer)
    }

    fn write_complete<D: Folder, W: Sink>(
        &self,
        alloc: Global,
        command: &mut Command,
        words: Vec<String>,
        current_dir: Option<&str>,
        env: &EnvValues,
        folder: &D,
        completers: &Completers,
        sink: &mut W,
    ) -> Result<(), Error> {
        let sources = Sources {
            current_dir,
            folder,
            completers,
        };
        self.write_complete_from(alloc, command, words, env, &sources, sink)
    }
}

impl LookupCompleter for Zsh {
    #[tactic(auto, using(cc_replies::proofs::ReplyReadings::zsh_back))]
    fn write_complete_from<L: Lookup, W: Sink>(
        &self,
        alloc: Global,
        command: &mut Command,
        words: Vec<String>,
        env: &EnvValues,
        lookup: &L,
        sink: &mut W,
    ) -> Result<(), Error> {
        let index = env.index();
        let words = with_next(alloc, words, index)?;
        let wanted = WantedWords { words, index };
        let format = ZshItems(env.separator());
        reply_at(alloc, command, wanted, lookup, &format, sink)
    }
}

// Appends an empty word if `index` is the number of words.
fn with_next(alloc: Global, mut words: Vec<String>, index: usize) -> Result<Vec<String>, AllocError>
    ensures { IfOk result (λ wanted.
        map string_bytes wanted.items ≡ with_next (map string_bytes words.items) index) }
{
    if index == words.len() {
        words.push(String::new(alloc))?;
        return Ok(words);
    }
    Ok(words)
}
