//! The shells that a program answers.

ghost use Rattle.std.specs.Iterator.{YieldsFirstBy, item_count};
ghost use Rattle.std.specs.Prelude.{◌≡◌, find, map, option_map};
ghost use Rattle.std.specs.Slice.Iter.{iter_rest};
ghost use Rattle.cc_env.specs.Builtins.{all_builtins};
ghost use Rattle.cc_env.specs.SafeShells.{all_safe};
ghost use Rattle.cc_env.specs.Shells.{names_left};

use crate::builtin::{BUILTINS, Builtin};
use crate::env_completer::EnvCompleter;
use crate::safe_shell::{SAFE_SHELLS, SafeShell};
use std::slice;

/// The shells that a program answers, by their adapters.
#[derive(Drop)]
pub struct Shells<'s, E>(pub &'s [E]);

impl Shells<'static, Builtin> {
    /// Returns the shells of this library, in the order of their type.
    pub fn builtins() -> Shells<'static, Builtin>
        ensures { result.0.now ≡ all_builtins }
    {
        Shells(BUILTINS)
    }
}

impl Shells<'static, SafeShell> {
    /// Returns the shells of this library by their safe adapters, in the order of the built-in
    /// ones. Their registrations evaluate nothing, and shells insert their replies as they are
    /// meant.
    pub fn safe() -> Shells<'static, SafeShell>
        ensures { result.0.now ≡ all_safe }
    {
        Shells(SAFE_SHELLS)
    }
}

impl<'s, E: EnvCompleter> Shells<'s, E> {
    /// Returns the first shell that has this name.
    pub fn completer(&self, name: &str) -> Option<&E>
        ensures { option_map (λ shell. shell.now) result
            ≡ find (λ shell. (E.spec shell).named name.now) self.now.0.now }
    {
        self.0.iter().find(|shell| shell.is(name))
    }

    /// Returns the names of the shells, one for each, in their order.
    pub fn names(&self) -> ShellNames<'s, E>
        ensures { names_left E.spec result ≡ map (λ shell. (E.spec shell).name) self.now.0.now }
    {
        ShellNames { shells: self.0 }
    }

    /// Returns the shells, in their order.
    pub fn iter(&self) -> slice::Iter<'s, E>
        ensures { iter_rest result ≡ self.now.0.now }
    {
        self.0.iter()
    }
}

/// An iterator over the names of shells.
#[derive(Drop)]
pub struct ShellNames<'s, E> {
    shells: &'s [E],
}

impl<'s, E: EnvCompleter> Iterator for ShellNames<'s, E> {
    type Item = &'static str;

    ghost next_gives = { YieldsFirstBy (λ name. name.now) (names_left E.spec) };

    ghost remaining = { item_count (names_left E.spec) };

    fn next(&mut self) -> Option<&'static str> {
        let (first, others) = self.shells.split_first()?;
        self.shells = others;
        Some(first.name())
    }
}
