//! The adapters as one type.

ghost use Rattle.cc_env.specs.Builtins.{builtin_spec};

use crate::bash::Bash;
use crate::elvish::Elvish;
use crate::env_completer::{EnvCompleter, LookupCompleter};
use crate::fish::Fish;
use crate::powershell::Powershell;
use crate::zsh::Zsh;
use cc_base::{Error, Sink};
use cc_candidates::{Completers, Folder};
use cc_command::Command;
use cc_engine::{Lookup, Sources};
use cc_replies::EnvValues;
use std::alloc::Global;

/// The adapters of this library. Each variant does what the type of its name does.
#[derive(Clone, Copy, PartialEq, Eq, Debug)]
pub enum Builtin {
    /// bash.
    Bash,
    /// Elvish.
    Elvish,
    /// fish.
    Fish,
    /// PowerShell.
    Powershell,
    /// zsh.
    Zsh,
}

// Passes the shells in their order to `$part!`. Each variant has the name of its adapter.
macro_rules! each_builtin {
    ($part:ident! $($wanted:tt)*) => {
        $part! {
            [$($wanted)*]
            Bash Elvish Fish Powershell Zsh
        }
    };
}

// Makes a slice of all variants.
macro_rules! all {
    ([] $($variant:ident)*) => {
        &[$(Builtin::$variant),*]
    };
}

// Calls the adapter of a shell.
macro_rules! adapter {
    ([$shell:tt, $call:ident $arguments:tt] $($variant:ident)*) => {
        match $shell {
            $(Builtin::$variant => $variant.$call $arguments,)*
        }
    };
}

/// All variants, in the order of the type.
pub(crate) const BUILTINS: &[Builtin] = each_builtin!(all!);

impl EnvCompleter for Builtin {
    ghost spec = { builtin_spec };

    fn name(&self) -> &'static str {
        each_builtin!(adapter! self, name())
    }

    fn is(&self, name: &str) -> bool {
        each_builtin!(adapter! self, is(name))
    }

    fn write_registration<W: Sink>(
        &self,
        alloc: Global,
        variable: &str,
        name: &str,
        bin: &str,
        completer: &str,
        sink: &mut W,
    ) -> Result<(), Error> {
        each_builtin!(adapter! self, write_registration(
            alloc,
            variable,
            name,
            bin,
            completer,
            sink
        ))
    }

    fn write_complete<D: Folder, W: Sink>(
        &self,
        alloc: Global,
        command: &mut Command,
        words: Vec<String>,
        current_dir: Option<&str>,
        env: &EnvValues,
        folder: &D,
        completers: &Completers,
        sink: &mut W,
    ) -> Result<(), Error> {
        let sources = Sources {
            current_dir,
            folder,
            completers,
        };
        self.write_complete_from(alloc, command, words, env, &sources, sink)
    }
}

impl LookupCompleter for Builtin {
    fn write_complete_from<L: Lookup, W: Sink>(
        &self,
        alloc: Global,
        command: &mut Command,
        words: Vec<String>,
        env: &EnvValues,
        lookup: &L,
        sink: &mut W,
    ) -> Result<(), Error> {
        each_builtin!(adapter! self, write_complete_from(
            alloc,
            command,
            words,
            env,
            lookup,
            sink
        ))
    }
}
