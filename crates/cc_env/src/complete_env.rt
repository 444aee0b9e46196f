//! A program that completes its own command line if the environment requests it.

ghost use Rattle.std.specs.Prelude.{◌≡◌, Some, None, codes, map, string_bytes};
ghost use Rattle.std.specs.Option.{option_copied};
ghost use Rattle.cc_command.specs.declared.release.Release.TheVariants.{AtOnce};
ghost use Rattle.cc_env.specs.Builtins.{all_builtins};
ghost use Rattle.cc_env.specs.SafeShells.{all_safe};
ghost use Rattle.cc_engine.specs.Completion.{Completes};
ghost use Rattle.cc_engine.specs.Sources.{returned_from, returned_of};
ghost use Rattle.cc_replies.specs.Environment.{value_of};
ghost use Rattle.cc_env.specs.Wanted.{wanted_name};
ghost use Rattle.cc_env.specs.Requested.{FindsShell, found_shell};
ghost use Rattle.cc_env.specs.Steps.{MakesText, Tries, made_bytes, names_of};

use crate::builtin::Builtin;
use crate::env_completer::EnvCompleter;
use crate::safe_shell::SafeShell;
use crate::shell_program::ShellProgram;
use crate::shells::Shells;
use crate::wanted::{known_shell, wanted_name};
use cc_base::{CandidateSources, Collected, Error, Sink, Text, put_all};
use cc_candidates::{Completers, Folder};
use cc_command::{Command, Release};
use cc_engine::Sources;
use cc_replies::EnvValues;
use std::alloc::Global;

/// Answers a completion request of the environment.
///
/// A shell runs the program with a variable set to the shell's name: without words for the
/// registration, and with the words of a command line, after a `--`, for the candidates.
#[derive(Drop)]
pub struct CompleteEnv<'s, F, E> {
    factory: F,
    variable: &'static str,
    bin: Option<Text>,
    completer: Option<Text>,
    shells: Shells<'s, E>,
    release: Release,
}

impl<F> CompleteEnv<'static, F, Builtin> {
    /// Completes the command that `factory` makes, for the variable `COMPLETE` and the built-in
    /// shells.
    pub fn with_factory(factory: F) -> CompleteEnv<'static, F, Builtin>
        ensures factory { result.factory ≡ factory }
        ensures variable { result.variable.now ≡ codes "COMPLETE" }
        ensures names { (result.bin ≡ None) × (result.completer ≡ None) }
        ensures shells { result.shells.0.now ≡ all_builtins }
        ensures release { result.release ≡ AtOnce }
    {
        CompleteEnv {
            factory,
            variable: "COMPLETE",
            bin: None,
            completer: None,
            shells: Shells::builtins(),
            release: Release::AtOnce,
        }
    }
}

impl<F> CompleteEnv<'static, F, SafeShell> {
    /// Completes the command that `factory` makes, for the variable `COMPLETE` and the safe shells:
    /// what they register evaluates nothing, and what they reply is inserted as it is meant.
    pub fn safe(factory: F) -> CompleteEnv<'static, F, SafeShell>
        ensures factory { result.factory ≡ factory }
        ensures variable { result.variable.now ≡ codes "COMPLETE" }
        ensures names { (result.bin ≡ None) × (result.completer ≡ None) }
        ensures shells { result.shells.0.now ≡ all_safe }
        ensures release { result.release ≡ AtOnce }
    {
        CompleteEnv {
            factory,
            variable: "COMPLETE",
            bin: None,
            completer: None,
            shells: Shells::safe(),
            release: Release::AtOnce,
        }
    }
}

impl<'s, F, E> CompleteEnv<'s, F, E> {
    /// Sets the name of the variable, by default `COMPLETE`.
    pub fn var(mut self, variable: &'static str) -> CompleteEnv<'s, F, E>
        ensures { result ≡ record self.entry { variable = variable.entry } }
    {
        self.variable = variable;
        self
    }

    /// Sets the name of the binary that a registration is for. By default it is the command's bin
    /// name, or its name if it has no bin name.
    pub fn bin(mut self, bin: String) -> CompleteEnv<'s, F, E>
        ensures { result ≡ record self.entry { bin = Some (string_bytes bin) } }
    {
        self.bin = Some(Text::from(bin));
        self
    }

    /// Sets the path of the program that a shell runs for candidates, in place of an earlier one.
    /// By default it is the first argument.
    pub fn completer(mut self, completer: String) -> CompleteEnv<'s, F, E>
        ensures { result ≡ record self.entry { completer = Some (string_bytes completer) } }
    {
        self.completer = Some(Text::from(completer));
        self
    }

    /// Sets when the memory of the command is released, by default as soon as the text is made. A
    /// program that exits right after the answer can leave that to its end.
    pub fn release(mut self, when: Release) -> CompleteEnv<'s, F, E>
        ensures { result ≡ record self.entry { release = when } }
    {
        self.release = when;
        self
    }

    /// Sets the shells. The first one that has the requested name answers.
    pub fn shells<'t, T>(self, shells: Shells<'t, T>) -> CompleteEnv<'t, F, T>
        ensures factory { result.factory ≡ self.entry.factory }
        ensures variable { result.variable.now ≡ self.entry.variable.now }
        ensures bin { result.bin ≡ self.entry.bin }
        ensures completer { result.completer ≡ self.entry.completer }
        ensures shells { result.shells.0.now ≡ shells.entry.0.now }
        ensures release { result.release ≡ self.entry.release }
    {
        CompleteEnv {
            factory: self.factory,
            variable: self.variable,
            bin: self.bin,
            completer: self.completer,
            shells,
            release: self.release,
        }
    }
}

impl<'s, F: Fn(Global) -> Result<Command, Error> + Drop, E: EnvCompleter> CompleteEnv<'s, F, E> {
    /// Writes a registration or a reply to `out` if the environment requests one, and returns
    /// whether it does.
    ///
    /// 1. If the variable is not set, empty or `0`, nothing is requested. The call writes nothing
    ///    and returns `false`.
    /// 2. The last piece of its value, as of a path and without its extension, names the shell.
    /// 3. The factory makes the command, which is built.
    /// 4. If words follow the first `--` after the first argument, the call writes the reply to
    ///    these words. Otherwise it writes the registration. The text is made whole before any of
    ///    it is written.
    ///
    /// `args` are the arguments of the program, its name first. `env` has the value of the
    /// variable, and those of `_CLAP_COMPLETE_INDEX` and `_CLAP_IFS`, which registrations set.
    /// `folder` and `completers` have the candidates that the command does not hold. Relative paths
    /// begin at `current_dir`. Write nothing else to `out`.
    ///
    /// A registration names the variable, the command, the binary and the completer, as `bin` and
    /// `completer` set them. A completer that was not set and leads through a directory, as `./app`
    /// does, is joined to the current directory if there is one.
    ///
    /// # Errors
    ///
    /// In this order: `UnknownShell` if no shell has the name; the error of the factory;
    /// `NoArguments` if `args` is empty; `NoCompletion` if the word to complete is not there or is
    /// the program's name. Nothing is written then, nor after `Memory`. `Write` if `out` fails,
    /// which then holds a beginning of the text.
    pub fn try_complete<D: Folder, W: Sink>(
        self,
        alloc: Global,
        args: Vec<String>,
        current_dir: Option<&str>,
        env: &EnvValues,
        folder: &D,
        completers: &Completers,
        out: &mut W,
    ) -> Result<bool, Error>
        requires { F.IsAlwaysCallable self.factory }
        ensures { Tries W.taken W.failed E.spec self.entry.shells.0.now (λ shell. MakesText
            (λ made. F.post self.entry.factory alloc made) (E.spec shell)
            (names_of self.entry.variable.now self.entry.bin self.entry.completer
            (option_copied current_dir.entry)) env.now (Completes (returned_from
            ⟦<Completers as CandidateSources>⟧ completers.now (D.facts folder.now)
            (option_copied current_dir.entry))) (map string_bytes args.items))
            (wanted_name (value_of self.entry.variable.now env.now)) out.old out.new result }
    {
        let sources = Sources {
            current_dir,
            folder,
            completers,
        };
        let completed = self.complete(alloc, args, env, &sources, out);
        // One call here, instead of a drop of each field at each return.
        drop(self);
        completed
    }

    // Writes a registration or a reply, as `try_complete` does.
    fn complete<D: Folder, W: Sink>(
        &self,
        alloc: Global,
        args: Vec<String>,
        env: &EnvValues,
        sources: &Sources<'_, D, Completers>,
        out: &mut W,
    ) -> Result<bool, Error>
        requires { F.IsAlwaysCallable self.now.factory }
        ensures { Tries W.taken W.failed E.spec self.now.shells.0.now (λ shell. MakesText
            (λ made. F.post self.now.factory alloc made) (E.spec shell)
            (names_of self.now.variable.now self.now.bin self.now.completer
            (option_copied sources.now.current_dir)) env.now (Completes (returned_of
            ⟦<Completers as CandidateSources>⟧ (D.facts sources.now.folder.now) sources.now))
            (map string_bytes args.items))
            (wanted_name (value_of self.now.variable.now env.now)) out.old out.new result }
    {
        let Some(name) = wanted_name(env.get(self.variable)) else {
            return Ok(false);
        };
        let adapter = known_shell(alloc, &self.shells, name)?;
        let text = self.make_text_of_sources(alloc, adapter, args, env, sources)?;
        put_all(out, text.as_slice())?;
        Ok(true)
    }

    /// Returns the shell that `env` requests by the value of the variable, or `None` if it requests
    /// nothing.
    ///
    /// # Errors
    ///
    /// `UnknownShell` if no shell has the requested name, and `Memory` if there is no memory for
    /// that message.
    pub fn requested_shell(&self, alloc: Global, env: &EnvValues) -> Result<Option<&E>, Error>
        ensures { FindsShell E.spec self.now.shells.0.now
            (wanted_name (value_of self.now.variable.now env.now)) (found_shell result) }
    {
        let Some(name) = wanted_name(env.get(self.variable)) else {
            return Ok(None);
        };
        Ok(Some(known_shell(alloc, &self.shells, name)?))
    }

    /// Returns the program as this shell runs it.
    pub fn shell_program<'p>(&'p self, shell: &'p E) -> ShellProgram<'p, E>
        ensures shell { result.shell.now ≡ shell.now }
        ensures variable { result.variable.now ≡ self.now.variable.now }
        ensures bin { option_copied result.bin ≡ self.now.bin }
        ensures completer { option_copied result.completer ≡ self.now.completer }
        ensures release { result.release ≡ self.now.release }
    {
        ShellProgram {
            shell,
            variable: self.variable,
            bin: some_text(&self.bin),
            completer: some_text(&self.completer),
            release: self.release,
        }
    }

    /// Returns the command that the factory makes. It is not built yet.
    ///
    /// # Errors
    ///
    /// The error of the factory.
    pub fn command(&self, alloc: Global) -> Result<Command, Error>
        requires { F.IsAlwaysCallable self.now.factory }
        ensures { F.post self.now.factory alloc result }
    {
        (self.factory)(alloc)
    }

    // Returns the text for a shell and the arguments of the program, from a folder and completers.
    fn make_text_of_sources<'p, D: Folder>(
        &'p self,
        alloc: Global,
        shell: &'p E,
        args: Vec<String>,
        env: &EnvValues,
        sources: &Sources<'_, D, Completers>,
    ) -> Result<Collected, Error>
        requires { F.IsAlwaysCallable self.now.factory }
        ensures { MakesText (λ made. F.post self.now.factory alloc made) (E.spec shell.now)
            (names_of self.now.variable.now self.now.bin self.now.completer
            (option_copied sources.now.current_dir)) env.now (Completes (returned_of
            ⟦<Completers as CandidateSources>⟧ (D.facts sources.now.folder.now) sources.now))
            (map string_bytes args.items) (made_bytes result) }
    {
        let made = (self.factory)(alloc)?;
        let program = self.shell_program(shell);
        program.text_of_sources(alloc, made, args.as_slice(), env, sources)
    }
}

fn some_text(text: &Option<Text>) -> Option<&str>
    ensures { option_copied result ≡ text.now }
{
    match text {
        Some(text) => Some(text.as_str()),
        None => None,
    }
}
