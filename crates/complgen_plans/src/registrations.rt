//! Writes a registration, which makes a shell ask a program for candidates.

ghost use Rattle.std.specs.Prelude.{◌≡◌, find, true};
ghost use Rattle.std.specs.Option.{option_copied};
ghost use Rattle.cc_env.specs.Builtins.{all_builtins, builtin_spec};
ghost use Rattle.cc_base.specs.declared.error.Error.TheVariants.{UnknownShell};
ghost use Rattle.cc_shell.specs.Shells.{shell_text};
ghost use Rattle.complgen_plans.specs.Registrations.{EndsRegistration, IsRegistration, Registers};
ghost use Rattle.complgen_plans.specs.Registrations.{RegistrationReads};
ghost use Rattle.complgen_plans.specs.Registrations.{RegistrationReadsBy, no_registration_text, registration_by};
ghost use Rattle.complgen_plans.specs.Registrations.{registration_for};
ghost use Rattle.complgen_scripts.specs.Refusals.{error_line};
ghost use Rattle.complgen_scripts.specs.Writing.{Finishes};

use cc_base::Sink;
use cc_command::Release;
use cc_env::{Builtin, EnvCompleter, Shells};
use cc_shell::{Shell, each_shell};
use complgen_scripts::{Refusal, error_refusal, shell_of, tree};
use std::alloc::Global;

// The environment variable that makes a program reply to a shell.
const VARIABLE: &str = "COMPLETE";

// Returns the line for a shell without a registration. It names the shells that have one.
macro_rules! no_registration {
    ([$shell:tt] $($variant:ident $text:literal $programs:tt,)*) => {
        match $shell {
            $(Shell::$variant => concat!(
                "unknown shell `", $text,
                "`, expected one of `bash`, `elvish`, `fish`, `powershell`, `zsh`\n"
            ),)*
        }
    };
}

/// Writes the registration for the shell `name` to `out`. `file` has the bytes of the tree file, or
/// is `None` if it cannot be read. Users call the program `bin`.
///
/// # Errors
///
/// A refusal with status 1 and the text of the error. A shell without a registration is reported
/// before the tree is parsed.
pub(crate) fn register<W: Sink>(
    alloc: Global,
    name: &str,
    bin: &str,
    file: Option<&[u8]>,
    out: &mut W,
) -> Result<(), Refusal>
    ensures { EndsRegistration W.taken W.failed name.now bin.now (option_copied file.entry)
        out.old out.new result }
{
    let shell = shell_of(alloc, name)?;
    register_named(alloc, shell, name, bin, file, out)
}

// Writes the registration for `shell`, whose name is `name`, if it has one.
fn register_named<W: Sink>(
    alloc: Global,
    shell: Shell,
    name: &str,
    bin: &str,
    file: Option<&[u8]>,
    out: &mut W,
) -> Result<(), Refusal>
    requires { name.now ≡ shell_text shell }
    ensures { Registers W.taken W.failed (RegistrationReads shell) (no_registration_text shell)
        bin.now (option_copied file.entry) out.old out.new (registration_for shell) result }
{
    match adapter_of(name) {
        Some(adapter) => register_by(alloc, adapter, bin, file, out),
        None => Err(Refusal::from_static(1, no_registration(shell))),
    }
}

// Returns the adapter called `name`, if there is one.
fn adapter_of(name: &str) -> Option<Builtin>
    ensures { result ≡ find (λ adapter. (builtin_spec adapter).named name.now) all_builtins }
{
    let shells = Shells::builtins();
    shells.completer(name).copied()
}

// Writes the registration of `adapter` for the tree in `file`.
fn register_by<W: Sink>(
    alloc: Global,
    adapter: Builtin,
    bin: &str,
    file: Option<&[u8]>,
    out: &mut W,
) -> Result<(), Refusal>
    ensures { Finishes W.taken W.failed true (λ tree refusal. ⊥)
        (IsRegistration (registration_by adapter) (RegistrationReadsBy adapter) bin.now)
        out.old out.new (option_copied file.entry) result }
{
    let command = tree(alloc, file, Release::AtExit)?;
    let name = command.get_name();
    match adapter.write_registration(alloc, VARIABLE, name, bin, bin, out) {
        Ok(()) => Ok(()),
        Err(error) => Err(error_refusal(alloc, &error)),
    }
}

// Returns the line for a shell without a registration.
fn no_registration(shell: Shell) -> &'static str
    ensures { result.now ≡ error_line (UnknownShell (no_registration_text shell)) }
{
    each_shell!(no_registration! shell)
}
