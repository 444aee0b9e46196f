//! The text that is written for a shell, made in memory.

ghost use Rattle.std.specs.Prelude.{◌≡◌, IfErr, IfOk, map, string_bytes};
ghost use Rattle.std.specs.Option.{option_copied};
ghost use Rattle.cc_base.specs.Collected.{collected_bytes};
ghost use Rattle.cc_command.specs.Built.{built_tree};
ghost use Rattle.cc_engine.specs.Completion.{Completes};
ghost use Rattle.cc_engine.specs.Sources.{returned_of};
ghost use Rattle.cc_env.specs.Steps.{BuiltUnlessMemory, IsRegistration, MakesTextBy, RegistersAs};
ghost use Rattle.cc_env.specs.Steps.{RepliesAs, completer_path, in_memory, made_bytes};
ghost use Rattle.cc_env.specs.Steps.{program_names};

use crate::arguments::{copies_after, program_path};
use crate::env_completer::{EnvCompleter, LookupCompleter};
use cc_base::{CandidateSources, Collected, Error, Text};
use cc_candidates::{Completers, Folder};
use cc_command::{Command, Release, discard, full_name};
use cc_engine::{Lookup, Sources};
use cc_replies::EnvValues;
use std::alloc::{AllocError, Global};

/// A program as one shell runs it: the shell's adapter, and the names in the registration.
#[derive(Drop)]
pub struct ShellProgram<'a, E> {
    /// The adapter of the shell.
    pub shell: &'a E,
    /// The variable whose value requests a registration or a reply.
    pub variable: &'a str,
    /// The binary that is registered. `None` stands for the bin name of the command, or for its
    /// name if it has no bin name.
    pub bin: Option<&'a str>,
    /// The path of the program that the shell runs. `None` stands for the first argument.
    pub completer: Option<&'a str>,
    /// When the memory of the command is released.
    pub release: Release,
}

impl<'a, E: LookupCompleter> ShellProgram<'a, E> {
    /// Returns the text for a run of the program with `args`, the program's name first: the
    /// registration if no words follow a `--`, and otherwise the reply to these words. `command` is
    /// that of the program, and is built first. `env` has the values of the variables that the
    /// registration sets.
    ///
    /// # Errors
    ///
    /// `NoArguments` if `args` is empty, `NoCompletion` if the word to complete is not there or is
    /// the program's name, and `Memory` if an allocation fails.
    pub fn text<L: Lookup>(
        &self,
        alloc: Global,
        mut command: Command,
        args: &[String],
        env: &EnvValues,
        lookup: &L,
    ) -> Result<Collected, Error>
        ensures { MakesTextBy E.spec self.now (L.current lookup.now) command env.now
            (Completes (L.may_return lookup.now)) (map string_bytes args.now) (made_bytes result) }
    {
        let text = self.text_over(alloc, &mut command, args, env, lookup);
        discard(command, self.release);
        text
    }

    // Returns the text, and builds the command.
    fn text_over<L: Lookup>(
        &self,
        alloc: Global,
        command: &mut Command,
        args: &[String],
        env: &EnvValues,
        lookup: &L,
    ) -> Result<Collected, Error>
        ensures { MakesTextBy E.spec self.now (L.current lookup.now) command.old env.now
            (Completes (L.may_return lookup.now)) (map string_bytes args.now) (made_bytes result) }
    {
        command.build(alloc)?;
        let words = copies_after(alloc, args)?;
        if words.is_empty() {
            return self.registration_of(alloc, command, lookup.current_dir(), args);
        }
        self.reply(alloc, command, words, env, lookup)
    }

    fn reply<L: Lookup>(
        &self,
        alloc: Global,
        command: &mut Command,
        words: Vec<String>,
        env: &EnvValues,
        lookup: &L,
    ) -> Result<Collected, Error>
        ensures replied { RepliesAs (E.spec self.now.shell.now) env.now
            (map string_bytes words.items) (Completes (L.may_return lookup.now) command.new)
            command.new (made_bytes result) }
        ensures built { BuiltUnlessMemory (made_bytes result)
            (command.new ≡ built_tree command.old) }
    {
        let mut text = Collected::new(alloc);
        let shell = self.shell;
        in_memory(shell.write_complete_from(alloc, command, words, env, lookup, &mut text))?;
        Ok(text)
    }
}

impl<'a, E: EnvCompleter> ShellProgram<'a, E> {
    // Returns the text, as `text` does, from a folder and completers.
    pub(crate) fn text_of_sources<D: Folder>(
        &self,
        alloc: Global,
        mut command: Command,
        args: &[String],
        env: &EnvValues,
        sources: &Sources<'_, D, Completers>,
    ) -> Result<Collected, Error>
        ensures { MakesTextBy E.spec self.now (option_copied sources.now.current_dir) command
            env.now (Completes (returned_of ⟦<Completers as CandidateSources>⟧
            (D.facts sources.now.folder.now) sources.now)) (map string_bytes args.now)
            (made_bytes result) }
    {
        let text = self.text_over_sources(alloc, &mut command, args, env, sources);
        discard(command, self.release);
        text
    }

    // Returns the text, and builds the command.
    fn text_over_sources<D: Folder>(
        &self,
        alloc: Global,
        command: &mut Command,
        args: &[String],
        env: &EnvValues,
        sources: &Sources<'_, D, Completers>,
    ) -> Result<Collected, Error>
        ensures { MakesTextBy E.spec self.now (option_copied sources.now.current_dir) command.old
            env.now (Completes (returned_of ⟦<Completers as CandidateSources>⟧
            (D.facts sources.now.folder.now) sources.now)) (map string_bytes args.now)
            (made_bytes result) }
    {
        command.build(alloc)?;
        let words = copies_after(alloc, args)?;
        if words.is_empty() {
            return self.registration_of(alloc, command, sources.current_dir, args);
        }
        self.reply_of_sources(alloc, command, words, env, sources)
    }

    fn reply_of_sources<D: Folder>(
        &self,
        alloc: Global,
        command: &mut Command,
        words: Vec<String>,
        env: &EnvValues,
        sources: &Sources<'_, D, Completers>,
    ) -> Result<Collected, Error>
        ensures replied { RepliesAs (E.spec self.now.shell.now) env.now
            (map string_bytes words.items) (Completes (returned_of
            ⟦<Completers as CandidateSources>⟧ (D.facts sources.now.folder.now) sources.now)
            command.new) command.new (made_bytes result) }
        ensures built { BuiltUnlessMemory (made_bytes result)
            (command.new ≡ built_tree command.old) }
    {
        let mut text = Collected::new(alloc);
        let shell = self.shell;
        in_memory(shell.write_complete(
            alloc,
            command,
            words,
            sources.current_dir,
            env,
            sources.folder,
            sources.completers,
            &mut text,
        ))?;
        Ok(text)
    }

    // Returns the registration over a built command, for the program that the first argument calls.
    fn registration_of(
        &self,
        alloc: Global,
        command: &Command,
        current_dir: Option<&str>,
        args: &[String],
    ) -> Result<Collected, Error>
        ensures { RegistersAs (E.spec self.now.shell.now)
            (program_names self.now (option_copied current_dir.entry)) command.now
            (map string_bytes args.now) (made_bytes result) }
    {
        match args.split_first() {
            Some((program, _)) => self.registration(alloc, command, current_dir, program.as_str()),
            None => Err(Error::NoArguments),
        }
    }

    fn registration(
        &self,
        alloc: Global,
        command: &Command,
        current_dir: Option<&str>,
        program: &str,
    ) -> Result<Collected, Error>
        ensures ok { IfOk result (λ text.
            IsRegistration (E.spec self.now.shell.now) (program_names self.now
            (option_copied current_dir.entry) program.now command.now) (collected_bytes text)) }
        ensures memory { IfErr result (λ error. error ≡ Error.Memory) }
    {
        let bin = match self.bin {
            Some(bin) => bin,
            None => full_name(command),
        };
        let completer = self.completer_path(alloc, current_dir, program)?;
        let mut text = Collected::new(alloc);
        in_memory(
            self.shell.write_registration(
                alloc,
                self.variable,
                command.get_name(),
                bin,
                completer.as_str(),
                &mut text,
            ),
        )?;
        Ok(text)
    }

    fn completer_path(
        &self,
        alloc: Global,
        current_dir: Option<&str>,
        program: &str,
    ) -> Result<Text, AllocError>
        ensures { IfOk result (λ path. path ≡ completer_path (option_copied self.now.completer)
            (option_copied current_dir.entry) program.now) }
    {
        match self.completer {
            Some(completer) => Text::copy_of(alloc, completer),
            None => program_path(alloc, current_dir, program),
        }
    }
}

// Replaces the error of a put into memory, which fails only if an allocation does.
fn in_memory(written: Result<(), Error>) -> Result<(), Error>
    ensures { result ≡ in_memory written }
{
    match written {
        Err(Error::Write(_)) => Err(Error::Memory),
        other => other,
    }
}
