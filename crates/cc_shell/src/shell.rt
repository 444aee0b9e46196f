//! The shells for which scripts are written, as one type.

ghost use Rattle.std.specs.Prelude.{◌≡◌, Some, IfOk, IfErr, codes, find, ◌⊎◌};
ghost use Rattle.std.specs.Option.{option_and_then, option_copied};
ghost use Rattle.std.specs.List.{list_any};
ghost use Rattle.std.specs.Str.{bytes_eq};
ghost use Rattle.cc_base.specs.declared.error.Error.{Error};
ghost use Rattle.cc_arg.specs.PossibleValues.{new_possible_value};
ghost use Rattle.cc_shell.specs.Shells.{ReadsShell, all_shells, invalid_variant, shell_of_path};
ghost use Rattle.cc_shell.specs.Shells.{programs, shell_of_program, shell_text};

use cc_arg::PossibleValue;
use cc_base::{Error, Sink, Text};
use cc_bash::Bash;
use cc_command::Command;
use cc_fish::Fish;
use cc_generator::Generator;
use cc_tables::{Elvish, Nushell, PowerShell};
use cc_zsh::Zsh;
use std::alloc::{AllocError, Global};
use std::fmt;
use std::path::Path;
use std::str::FromStr;

/// A shell for which scripts are written. As a generator it behaves like the generator of that
/// shell.
#[derive(Clone, Copy, PartialEq, Eq, Hash, Debug)]
pub enum Shell {
    /// Bash.
    Bash,
    /// Elvish.
    Elvish,
    /// fish.
    Fish,
    /// PowerShell.
    PowerShell,
    /// zsh.
    Zsh,
    /// Nushell.
    Nushell,
}

/// The error for a text that is not the name of a shell.
#[derive(Clone, Copy, PartialEq, Eq, Debug)]
pub struct InvalidShell;

impl fmt::Display for InvalidShell {
    ghost output = { λ _. Some (codes "invalid variant") };

    fn fmt<W: fmt::Write>(&self, f: &mut fmt::Formatter<W>) -> fmt::Result {
        f.write_str("invalid variant")
    }
}

impl std::error::Error for InvalidShell {}

/// Lists the shells, one per line: the variant, which has the name of its generator, the shell's
/// name, and the names of its programs. `$part!` receives the lines after the caller's own tokens.
#[macro_export]
macro_rules! each_shell {
    ($part:ident! $($asked:tt)*) => {
        $part! {
            [$($asked)*]
            Bash "bash" ("bash"),
            Elvish "elvish" ("elvish"),
            Fish "fish" ("fish"),
            PowerShell "powershell" ("powershell" || "pwsh" || "powershell_ise"),
            Zsh "zsh" ("zsh"),
            Nushell "nushell" ("nu"),
        }
    };
}

// Lists all shells.
macro_rules! all {
    ([] $($variant:ident $text:literal $programs:tt,)*) => {
        &[$(Shell::$variant),*]
    };
}

// Returns the name of a shell.
macro_rules! text {
    ([$shell:tt] $($variant:ident $text:literal $programs:tt,)*) => {
        match $shell {
            $(Shell::$variant => $text,)*
        }
    };
}

// Returns whether a shell has a program with the given name.
macro_rules! program {
    ([$shell:tt, $name:tt] $($variant:ident $text:literal ($($program:literal)||+),)*) => {
        match $shell {
            $(Shell::$variant => $($name == $program)||+,)*
        }
    };
}

// Calls the generator of a shell.
macro_rules! generator {
    ([$shell:tt, $call:ident $arguments:tt] $($variant:ident $text:literal $programs:tt,)*) => {
        match $shell {
            $(Shell::$variant => $variant.$call $arguments,)*
        }
    };
}

const ALL: &[Shell] = each_shell!(all!);

impl Shell {
    /// Returns all shells, in the order of the variants.
    pub fn value_variants() -> &'static [Shell]
        ensures { result.now ≡ all_shells }
    {
        ALL
    }

    /// Parses the name of a shell: its variant in lower case, such as `powershell`, and not the name
    /// of a program, such as `pwsh`.
    ///
    /// # Errors
    ///
    /// - `InvalidVariant` with the message `invalid variant: TEXT` if no shell has the name `text`.
    /// - `Memory` if the message cannot be allocated.
    pub fn parse(alloc: Global, text: &str) -> Result<Shell, Error>
        ensures ok { (shell : Shell) → text.now ≡ shell_text shell → result ≡ Ok shell }
        ensures only { IfOk result (λ shell. text.now ≡ shell_text shell) }
        ensures err { IfErr result (λ error.
            (error ≡ Error.InvalidVariant (invalid_variant text.now)) ⊎ (error ≡ Error.Memory)) }
    {
        match text.parse::<Shell>() {
            Ok(shell) => Ok(shell),
            Err(InvalidShell) => Err(Error::InvalidVariant(message(alloc, text)?)),
        }
    }

    /// Returns the shell to whose program `path` leads, according to the name of the file without
    /// its extension. `powershell`, `pwsh` and `powershell_ise` are PowerShell, and `nu` is
    /// Nushell. The program of each other shell has the shell's name. Returns `None` for any other
    /// name.
    pub fn from_shell_path(path: &str) -> Option<Shell>
        ensures { result ≡ shell_of_path path.now }
    {
        from_program(Path::new(path).file_stem()?)
    }

    /// Returns the shell to whose program the variable `SHELL` leads, given its `value`, as
    /// [`Shell::from_shell_path`] does. Returns `None` if the variable is not set.
    pub fn from_env(value: Option<&str>) -> Option<Shell>
        ensures { result ≡ option_and_then shell_of_path (option_copied value.entry) }
    {
        Shell::from_shell_path(value?)
    }

    /// Returns the shell as a possible value of an argument. The value's name is the shell's name.
    /// The result is never `None`.
    ///
    /// # Errors
    ///
    /// `Memory` if an allocation fails.
    pub fn to_possible_value(&self, alloc: Global) -> Result<Option<PossibleValue>, Error>
        ensures ok { IfOk result
            (λ value. value ≡ Some (new_possible_value (shell_text self.now))) }
        ensures memory { IfErr result (λ error. error ≡ Error.Memory) }
    {
        let name = String::from_str(alloc, self.name())?;
        Ok(Some(PossibleValue::new(name)))
    }

    // Returns the name of the shell.
    fn name(&self) -> &'static str
        ensures { result.now ≡ shell_text self.now }
    {
        each_shell!(text! self)
    }

    // Returns whether the shell has a program with the given name.
    fn runs_as(&self, program: &str) -> bool
        ensures { result ≡ list_any (bytes_eq program.now) (programs self.now) }
    {
        each_shell!(program! self, program)
    }
}

// Returns the first shell with the given name.
fn with_text<'s>(shells: &'s [Shell], text: &str) -> Option<&'s Shell>
    ensures { option_copied result
        ≡ find (λ shell. bytes_eq (shell_text shell) text.now) shells.now }
{
    shells.iter().find(|shell| shell.name() == text)
}

// Returns the first shell that has a program with the given name.
fn with_program<'s>(shells: &'s [Shell], name: &str) -> Option<&'s Shell>
    ensures { option_copied result
        ≡ find (λ shell. list_any (bytes_eq name.now) (programs shell)) shells.now }
{
    shells.iter().find(|shell| shell.runs_as(name))
}

// Returns the shell that has a program with the given name.
fn from_program(name: &str) -> Option<Shell>
    ensures { result ≡ shell_of_program name.now }
{
    with_program(ALL, name).copied()
}

// Returns the message that no shell has the given name.
fn message(alloc: Global, text: &str) -> Result<Text, AllocError>
    ensures { IfOk result (λ message. message ≡ invalid_variant text.now) }
{
    let message = format!(in alloc; "invalid variant: {text}")?;
    Ok(Text::from(message))
}

impl FromStr for Shell {
    type Err = InvalidShell;

    ghost from_str_gives = { ReadsShell };

    /// Parses the name of a shell: its variant in lower case, such as `powershell`, and not the name
    /// of a program, such as `pwsh`.
    ///
    /// # Errors
    ///
    /// `InvalidShell` if no shell has the name `text`.
    fn from_str(text: &str) -> Result<Shell, InvalidShell> {
        with_text(ALL, text).copied().ok_or(InvalidShell)
    }
}

impl fmt::Display for Shell {
    ghost use Rattle.std.specs.Fmt.{styled_text};

    ghost output = { λ shell. Some (shell_text shell) };

    ghost styled_output = { λ shell options. Some (styled_text options (shell_text shell)) };

    fn fmt<W: fmt::Write>(&self, f: &mut fmt::Formatter<W>) -> fmt::Result {
        f.pad(self.name())
    }
}

impl Generator for Shell {
    ghost use Rattle.cc_shell.specs.Shells.{shell_spec};

    ghost spec = { shell_spec };

    fn file_name(&self, alloc: Global, name: &str) -> Result<String, Error> {
        each_shell!(generator! self, file_name(alloc, name))
    }

    fn generate<W: Sink>(
        &self,
        alloc: Global,
        command: &Command,
        sink: &mut W,
    ) -> Result<(), Error> {
        each_shell!(generator! self, generate(alloc, command, sink))
    }
}
