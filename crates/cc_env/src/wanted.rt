//! The shell that the environment wants.

ghost use Rattle.std.specs.Prelude.{◌≡◌, ◌++◌, true, codes, find, map};
ghost use Rattle.std.specs.Prelude.{None, Some, IfErr, IfOk, OnOk};
ghost use Rattle.std.specs.Option.{option_copied};
ghost use Rattle.std.specs.String.{string_bytes};
ghost use Rattle.cc_base.specs.Joined.{joined, separator};
ghost use Rattle.cc_env.specs.Wanted.{wanted_name, quoted_name, unknown_shell};
ghost use Rattle.cc_env.specs.Wanted.{IsUnknownShell};

use crate::env_completer::EnvCompleter;
use crate::shells::Shells;
use cc_base::{Error, Text};
use cc_replies::wants_nothing;
use std::alloc::{AllocError, Global};
use std::path::Path;

/// Returns the name of the shell that the value of a variable requests: the last piece of a path
/// without its extension, or the whole value if it has no such piece. Returns `None` if there is no
/// value, or if it is empty or `0`.
pub fn wanted_name(value: Option<&str>) -> Option<&str>
    ensures { option_copied result ≡ wanted_name (option_copied value.entry) }
{
    let value = value?;
    if wants_nothing(value) {
        return None;
    }
    Some(Path::new(value).file_stem().unwrap_or(value))
}

/// Returns the first of the shells that has a name.
///
/// # Errors
///
/// `UnknownShell` if none has it, and `Memory` if there is no memory for that message.
pub fn known_shell<'a, E: EnvCompleter>(
    alloc: Global,
    shells: &'a Shells<'_, E>,
    name: &str,
) -> Result<&'a E, Error>
    ensures ok { IfOk result (λ shell.
        find (λ shell. (E.spec shell).named name.now) shells.now.0.now ≡ Some shell.now) }
    ensures err { IfErr result (λ error.
        (find (λ shell. (E.spec shell).named name.now) shells.now.0.now ≡ None)
        × IsUnknownShell (map (λ shell. (E.spec shell).name) shells.now.0.now) name.now error) }
{
    match shells.completer(name) {
        Some(shell) => Ok(shell),
        None => Err(unknown_shell(alloc, shells.0, name)),
    }
}

// The error that no shell has this name.
fn unknown_shell<E: EnvCompleter>(alloc: Global, shells: &[E], name: &str) -> Error
    ensures { IsUnknownShell (map (λ shell. (E.spec shell).name) shells.now) name.now result }
{
    match message(alloc, shells, name) {
        Ok(message) => Error::UnknownShell(message),
        Err(_) => Error::Memory,
    }
}

fn message<E: EnvCompleter>(alloc: Global, shells: &[E], name: &str) -> Result<Text, AllocError>
    ensures { IfOk result (λ message.
        message ≡ unknown_shell (map (λ shell. (E.spec shell).name) shells.now) name.now) }
{
    let mut text = String::from_str(alloc, "unknown shell `")?;
    text.push_str(name)?;
    text.push_str("`, expected one of ")?;
    push_names(&mut text, shells)?;
    Ok(Text::from(text))
}

// Appends the names of the shells, with a comma and a space before each but the first.
fn push_names<E: EnvCompleter>(text: &mut String, shells: &[E]) -> Result<(), AllocError>
    ensures { OnOk result (string_bytes text.new ≡ string_bytes text.old
        ++ joined (codes ", ") (map quoted_name (map (λ shell. (E.spec shell).name) shells.now))) }
{
    let mut begun = false;
    for shell in shells {
        push_name(text, shell.name(), &mut begun)?;
    }
    Ok(())
}

fn push_name(text: &mut String, name: &str, begun: &mut bool) -> Result<(), AllocError>
    ensures text { OnOk result (string_bytes text.new ≡ string_bytes text.old
        ++ (separator (codes ", ") begun.old ++ quoted_name name.now)) }
    ensures begun { OnOk result (begun.new ≡ true) }
{
    push_comma(text, begun)?;
    text.push_str("`")?;
    text.push_str(name)?;
    text.push_str("`")
}

fn push_comma(text: &mut String, begun: &mut bool) -> Result<(), AllocError>
    ensures text { OnOk result (string_bytes text.new ≡ string_bytes text.old
        ++ separator (codes ", ") begun.old) }
    ensures begun { OnOk result (begun.new ≡ true) }
{
    if *begun {
        return text.push_str(", ");
    }
    *begun = true;
    Ok(())
}
