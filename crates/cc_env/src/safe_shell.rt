//! The safe adapters: nothing of a name, a candidate or a typed word is evaluated by the shell.

ghost use Rattle.std.specs.Prelude.{◌≡◌, map};
ghost use Rattle.cc_env.specs.SafeShells.{SafeReads, safe_of, safe_registration, safe_spec};
ghost use Rattle.cc_base.specs.Writes.{Writes};
ghost use Rattle.cc_replies.specs.Environment.{cursor_of};

use crate::builtin::Builtin;
use crate::env_completer::{EnvCompleter, LookupCompleter};
use crate::reply::{SafeReply, WantedWords, reply_at};
use cc_base::{Error, Sink, TextRef};
use cc_candidates::{Completers, Folder};
use cc_command::Command;
use cc_engine::{Lookup, Sources};
use cc_registrations::{
    write_safe_bash, write_safe_elvish, write_safe_fish, write_safe_powershell, write_safe_zsh,
};
use cc_replies::{Cursor, EnvValues};
use std::alloc::Global;

/// The safe adapter for a shell.
///
/// Its registration passes on the words up to the cursor without their quotes, and evaluates
/// nothing of them. Its reply has each value as the shell takes it, and leaves out what the shell
/// cannot take. A request of another registration, such as the built-in adapter's, is answered as
/// the built-in adapter answers it.
#[derive(Clone, Copy, PartialEq, Eq, Debug)]
pub struct SafeShell {
    shell: Builtin,
}

/// The safe adapters, in the order of the built-in ones.
pub(crate) const SAFE_SHELLS: &[SafeShell] = &[
    SafeShell {
        shell: Builtin::Bash,
    },
    SafeShell {
        shell: Builtin::Elvish,
    },
    SafeShell {
        shell: Builtin::Fish,
    },
    SafeShell {
        shell: Builtin::Powershell,
    },
    SafeShell {
        shell: Builtin::Zsh,
    },
];

impl SafeShell {
    /// Returns the safe adapter for a shell.
    pub fn new(shell: Builtin) -> SafeShell
        ensures { result ≡ safe_of shell }
    {
        SafeShell { shell }
    }

    /// Writes one registration for several programs, the binaries, with one function for all of
    /// them, which is named after `name`. The other parameters are those of
    /// `EnvCompleter::write_registration`.
    ///
    /// # Errors
    ///
    /// `Write` if the sink fails, and `Memory` if an allocation fails. The sink then holds a
    /// beginning of the text.
    pub fn write_registrations<W: Sink>(
        &self,
        alloc: Global,
        variable: &str,
        name: &str,
        bins: &[&str],
        completer: &str,
        sink: &mut W,
    ) -> Result<(), Error>
        ensures written { Writes W.taken W.failed result sink.old sink.new
            (safe_registration self.now.shell variable.now name.now
            (map (λ bin. bin.now) bins.now) completer.now) }
        ensures read_back { SafeReads self.now.shell variable.now name.now
            (map (λ bin. bin.now) bins.now) completer.now }
    {
        match self.shell {
            Builtin::Bash => write_safe_bash(alloc, sink, variable, name, bins, completer),
            Builtin::Elvish => write_safe_elvish(alloc, sink, variable, name, bins, completer),
            Builtin::Fish => write_safe_fish(alloc, sink, variable, name, bins, completer),
            Builtin::Powershell => {
                write_safe_powershell(alloc, sink, variable, name, bins, completer)
            }
            Builtin::Zsh => write_safe_zsh(alloc, sink, variable, name, bins, completer),
        }
    }

    // Returns the format of a reply: texts that the shell inserts as the values that they mean.
    fn reply_format<'e>(&self, env: &'e EnvValues) -> SafeReply<'e>
        ensures shell { result.shell ≡ self.now.shell }
        ensures cursor { result.cursor ≡ cursor_of env.now }
    {
        let cursor = Cursor {
            ascii_only: env.ascii_only(),
            kept: TextRef::new(env.kept()),
            quote: env.open_quote(),
            width: env.list_width(),
        };
        SafeReply {
            shell: self.shell,
            cursor,
        }
    }
}

impl EnvCompleter for SafeShell {
    ghost spec = { safe_spec };

    fn name(&self) -> &'static str {
        self.shell.name()
    }

    fn is(&self, name: &str) -> bool {
        self.shell.is(name)
    }

    fn write_registration<W: Sink>(
        &self,
        alloc: Global,
        variable: &str,
        name: &str,
        bin: &str,
        completer: &str,
        sink: &mut W,
    ) -> Result<(), Error> {
        self.write_registrations(alloc, variable, name, &[bin], completer, sink)
    }

    fn write_complete<D: Folder, W: Sink>(
        &self,
        alloc: Global,
        command: &mut Command,
        words: Vec<String>,
        current_dir: Option<&str>,
        env: &EnvValues,
        folder: &D,
        completers: &Completers,
        sink: &mut W,
    ) -> Result<(), Error> {
        let sources = Sources {
            current_dir,
            folder,
            completers,
        };
        self.write_complete_from(alloc, command, words, env, &sources, sink)
    }
}

impl LookupCompleter for SafeShell {
    #[tactic(auto, using(crate::proofs::SafeReplying::back_when))]
    fn write_complete_from<L: Lookup, W: Sink>(
        &self,
        alloc: Global,
        command: &mut Command,
        words: Vec<String>,
        env: &EnvValues,
        lookup: &L,
        sink: &mut W,
    ) -> Result<(), Error> {
        if env.asks_safely() {
            let format = self.reply_format(env);
            return reply_at(
                alloc,
                command,
                WantedWords::at_last(words),
                lookup,
                &format,
                sink,
            );
        }
        self.shell
            .write_complete_from(alloc, command, words, env, lookup, sink)
    }
}
