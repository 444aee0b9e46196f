//! The lints of one command and its arguments.

ghost use Rattle.std.specs.Prelude.{◌≡◌, ◌++◌, OnOk};
ghost use Rattle.complgen_lints.specs.PremiseList.{premises_of};

use crate::argument_lints::push_arguments;
use crate::found::{Added, Found, Spot};
use crate::place::Key;
use crate::positionals::push_positionals;
use crate::scopes::push_scope;
use crate::siblings::push_taken_names;
use crate::text_lints::{TextLint, push_text_findings};
use crate::value_lints::push_sources;
use crate::warning::{Advice, Premise};
use crate::zsh_lints::push_zsh_signs;
use cc_arg::Arg;
use cc_command::Command;

/// Adds the premises about `command` by itself that do not hold.
pub(crate) fn push_premises(found: &mut Found<Premise>, command: &Command) -> Added
    ensures { OnOk result (found.new ≡ found.old ++ premises_of command.now) }
{
    push_text_findings(found, TextLint::Plain, command)?;
    push_taken_names(found, command.get_subcommands())?;
    push_text_findings(found, TextLint::Quiet, command)?;
    push_text_findings(found, TextLint::Quotes, command)
}

/// Adds the other findings about `command`, which inherits the arguments `inherited`.
pub(crate) fn push_advice(
    found: &mut Found<Advice>,
    inherited: &[&Arg],
    command: &Command,
) -> Added {
    let arguments = command.get_arguments();
    push_zsh_signs(found, arguments)?;
    push_settings(found, command)?;
    push_scope(found, inherited, arguments)?;
    push_hidden(found, command)?;
    push_sources(found, arguments)
}

fn push_settings(found: &mut Found<Advice>, command: &Command) -> Added {
    push_arguments(found, command)?;
    push_positionals(found, command.get_arguments())
}

fn push_hidden(found: &mut Found<Advice>, command: &Command) -> Added {
    let hidden = command.is_hide_set();
    found.note_if(hidden, Spot::Command, Key::Hide, Advice::HiddenCommand)?;
    for (index, argument) in command.get_arguments().iter().enumerate() {
        let spot = Spot::Argument(index);
        let hidden = argument.is_hide_set();
        found.note_if(hidden, spot, Key::Hide, Advice::HiddenArgument)?;
    }
    Ok(())
}
