//! The traits of the adapters for shells.

ghost use Rattle.std.specs.Prelude.{◌≡◌, true, List, map, string_bytes};
ghost use Rattle.std.specs.Option.{option_copied};
ghost use Rattle.cc_env.specs.Builtins.{CompleterSpec};
ghost use Rattle.cc_env.specs.Replies.{Replies};
ghost use Rattle.cc_base.specs.Writes.{Writes};
ghost use Rattle.cc_candidates.specs.declared.candidate.CompletionCandidate.{CompletionCandidate};
ghost use Rattle.cc_engine.specs.Completion.{Completes};
ghost use Rattle.cc_engine.specs.Sources.{returned_from};

use cc_base::{CandidateSources, Error, Sink};
use cc_candidates::{Completers, CompletionCandidate, Folder};
use cc_command::Command;
use cc_engine::Lookup;
use cc_replies::EnvValues;
use std::alloc::Global;

/// An adapter for a shell: it writes what the shell runs for the words of a program, and the reply.
pub trait EnvCompleter {
    // what is said of the adapter: its names, its registration, which words it completes, its reply
    ghost spec: { Self → CompleterSpec };

    /// Returns the name of the shell.
    fn name(&self) -> &'static str
        ensures value { result.now ≡ (spec self.now).name }
        ensures named { (spec self.now).named result.now ≡ true };

    /// Returns whether the shell has this name.
    fn is(&self, name: &str) -> bool
        ensures { result ≡ (spec self.now).named name.now };

    /// Writes the registration: the text by which the shell runs `completer`, with `variable` set
    /// to the shell's name, for the words of `bin`. In bash and zsh, the functions in the text are
    /// named after `name`, with `_` for `-`.
    ///
    /// # Errors
    ///
    /// `Write` if the sink fails, and `Memory` if an allocation fails. The sink then holds a
    /// beginning of the text.
    fn write_registration<W: Sink>(
        &self,
        alloc: Global,
        variable: &str,
        name: &str,
        bin: &str,
        completer: &str,
        sink: &mut W,
    ) -> Result<(), Error>
        ensures written { Writes W.taken W.failed result sink.old sink.new
            ((spec self.now).registration variable.now name.now bin.now completer.now) }
        ensures read_back { (spec self.now).Reads variable.now name.now bin.now completer.now };

    /// Writes the reply for `words`, those of a command line: the candidates for the word that the
    /// shell completes. They come from `command`, which is built first, from `completers`, and from
    /// the paths in `folder`. Relative paths begin at `current_dir`.
    ///
    /// # Errors
    ///
    /// `NoCompletion` if no word, or the program's name, is at the index that the shell asks for;
    /// the command is built all the same. `Memory` if an allocation fails; the command is then as
    /// it was, or built. Neither error writes anything. `Write` if the sink fails, which then holds
    /// a beginning of the reply.
    fn write_complete<D: Folder, W: Sink>(
        &self,
        alloc: Global,
        command: &mut Command,
        words: Vec<String>,
        current_dir: Option<&str>,
        env: &EnvValues,
        folder: &D,
        completers: &Completers,
        sink: &mut W,
    ) -> Result<(), Error>
        ensures reply { Replies W.taken W.failed result sink.old sink.new command.old command.new
            ((spec self.now).Wants env.now (map string_bytes words.items)) (Completes (returned_from
            ⟦<Completers as CandidateSources>⟧ completers.now (D.facts folder.now)
            (option_copied current_dir.entry)) command.new) ((spec self.now).reply env.now) }
        ensures read_back { (candidates : List CompletionCandidate)
            → (spec self.now).ReplyReads env.now candidates };
}

/// An adapter that replies from any `Lookup`, as those of this library do.
pub trait LookupCompleter: EnvCompleter {
    /// Writes the reply for `words`, as `write_complete` does, from what `lookup` finds.
    ///
    /// # Errors
    ///
    /// Those of `write_complete`.
    fn write_complete_from<L: Lookup, W: Sink>(
        &self,
        alloc: Global,
        command: &mut Command,
        words: Vec<String>,
        env: &EnvValues,
        lookup: &L,
        sink: &mut W,
    ) -> Result<(), Error>
        ensures reply { Replies W.taken W.failed result sink.old sink.new command.old command.new
            ((Self.spec self.now).Wants env.now (map string_bytes words.items))
            (Completes (L.may_return lookup.now) command.new) ((Self.spec self.now).reply env.now) }
        ensures read_back { (candidates : List CompletionCandidate)
            → (Self.spec self.now).ReplyReads env.now candidates };
}
