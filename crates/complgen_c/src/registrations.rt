//! Makes registrations, by a function over bytes.

ghost use Rattle.std.specs.Prelude.{◌≡◌};
ghost use Rattle.std.specs.Option.{option_copied};
ghost use Rattle.complgen_c.specs.Outcomes.{EndsAs};
ghost use Rattle.complgen_c.specs.Registrations.{AreTexts, IsText, MakesIn, MakesOf};
ghost use Rattle.complgen_c.specs.Registrations.{MakesRegistration, MakesText, passed_names};
ghost use Rattle.complgen_c.specs.Registrations.{text_names};

use crate::outcome::Outcome;
use cc_base::{Collected, Items};
use cc_env::{EnvCompleter, Shells, known_shell};
use complgen_scripts::{Refusal, error_refusal};
use std::alloc::{AllocError, Global};

/// The names in a registration, as the caller passes them.
#[repr(C)]
#[derive(Drop)]
pub struct PassedNames<'p> {
    /// The variable that requests completions from the completer.
    pub variable: &'p [u8],
    /// The name of the command, which is part of the names of functions.
    pub name: &'p [u8],
    /// The program whose words are completed.
    pub bin: &'p [u8],
    /// The program that the shell runs at a Tab.
    pub completer: &'p [u8],
}

// The same names as texts.
#[derive(Drop)]
struct TextNames<'p> {
    variable: &'p str,
    name: &'p str,
    bin: &'p str,
    completer: &'p str,
}

/// Makes the registration for the shell with the name `shell`: the text by which that shell runs
/// the completer at a Tab. If `safe` is true, it is the one of the safe set, which evaluates no
/// name, no value and no typed word. Otherwise it is the original's. Returns the length of the
/// text, and copies the text to the start of `room` if it fits there. Otherwise `room` stays
/// unchanged, and you can call again with more room. You may pass any bytes.
///
/// `names` has the names in the text:
///
/// - `variable` requests completions, by the name of the shell as its value. `COMPLETE` is usual.
/// - `name` is the name of the command, which is part of the names of functions.
/// - `bin` is the program whose words are completed.
/// - `completer` is the program that the shell runs: a name that is looked up in `PATH`, or a path.
///
/// The safe set quotes `bin` and `completer`, and writes the other two as identifiers: with `_` for
/// each byte that is not an ASCII letter, a digit or `_`, and before a digit at the start. An empty
/// one becomes `_`. The original's set writes `variable` and `name` without quotes, and in bash
/// also `bin`. So pass only plain names there.
///
/// The `status` is:
///
/// - 0: the text is the registration.
/// - 1: the text is a message, which ends in a line feed.
/// - 2: `shell` or one of the names is not UTF-8, and there is no text.
#[unsafe(no_mangle)]
pub extern "C" fn lagvtsune_registration(
    alloc: Global,
    safe: bool,
    shell: &[u8],
    names: &PassedNames<'_>,
    room: &mut [u8],
    status: &mut u8,
) -> usize
    ensures { EndsAs (MakesRegistration safe shell.now (passed_names names.now))
        room.old room.new status.new result }
{
    make_registration(alloc, safe, shell, names).put(room, status)
}

// Makes the registration in memory.
fn make_registration(alloc: Global, safe: bool, shell: &[u8], names: &PassedNames<'_>) -> Outcome
    ensures { MakesRegistration safe shell.now (passed_names names.now) result }
{
    let (Some(shell), Some(names)) = (as_text(shell), as_texts(names)) else {
        return Outcome::NotUtf8;
    };
    make_of(alloc, safe, shell, &names)
}

// Returns the names as texts, or `None` if one of them is not UTF-8.
fn as_texts<'p>(names: &PassedNames<'p>) -> Option<TextNames<'p>>
    ensures { AreTexts (passed_names names.now) result }
{
    Some(TextNames {
        variable: as_text(names.variable)?,
        name: as_text(names.name)?,
        bin: as_text(names.bin)?,
        completer: as_text(names.completer)?,
    })
}

// Returns the bytes as a text, or `None` if they are not UTF-8.
fn as_text(bytes: &[u8]) -> Option<&str>
    ensures { IsText bytes.now (option_copied result) }
{
    match std::str::from_utf8(bytes) {
        Ok(text) => Some(text),
        Err(_) => None,
    }
}

// Makes the registration of the safe set or of the original's.
fn make_of(alloc: Global, safe: bool, shell: &str, names: &TextNames<'_>) -> Outcome
    ensures { MakesOf safe shell.now (text_names names.now) result }
{
    if safe {
        return make_in(alloc, &Shells::safe(), shell, names);
    }
    make_in(alloc, &Shells::builtins(), shell, names)
}

// Makes the registration of one of these shells.
fn make_in<E: EnvCompleter>(
    alloc: Global,
    shells: &Shells<'_, E>,
    shell: &str,
    names: &TextNames<'_>,
) -> Outcome
    ensures { MakesIn E.spec shells.now.0.now shell.now (text_names names.now) result }
{
    match known_shell(alloc, shells, shell) {
        Ok(known) => make_text(alloc, known, names),
        Err(error) => Outcome::Failed(error_refusal(alloc, &error)),
    }
}

// Makes the registration of a shell.
fn make_text<E: EnvCompleter>(alloc: Global, shell: &E, names: &TextNames<'_>) -> Outcome
    ensures { MakesText (E.spec shell.now) (text_names names.now) result }
{
    let mut sink = Collected::new(alloc);
    let TextNames {
        variable,
        name,
        bin,
        completer,
    } = names;
    match shell.write_registration(alloc, variable, name, bin, completer, &mut sink) {
        Ok(()) => Outcome::Made(Items::from(sink.into_vec())),
        Err(_) => Outcome::Failed(Refusal::from(AllocError)),
    }
}
