//! The state of a command and of all commands below it, by some getters: texts, orders and numbers,
//! and whether it is built.

use clap_complete::command::{Arg, Command};
use std::alloc::{AllocError, Global};
use std::fmt::Write;

/// Returns a line for each command and each argument. The arguments of a command follow it. A built
/// `app` has children and grandchildren, and no grandchild has a child.
pub(crate) fn state_text(alloc: Global, command: &Command) -> Result<String, AllocError> {
    let mut text = String::new(alloc);
    push_command(&mut text, command)?;
    for child in command.get_subcommands() {
        push_command(&mut text, child)?;
        push_siblings(&mut text, child.get_subcommands())?;
    }
    Ok(text)
}

// Adds the lines of commands, without the commands below them.
fn push_siblings(text: &mut String, siblings: &[Command]) -> Result<(), AllocError> {
    for command in siblings {
        push_command(text, command)?;
    }
    Ok(())
}

fn push_command(text: &mut String, command: &Command) -> Result<(), AllocError> {
    let built = if command.is_built() {
        "built"
    } else {
        "not built"
    };
    writeln!(
        text,
        "{built}; {} {:?} {:?}",
        command.get_name(),
        command.get_bin_name(),
        command.get_about()
    )?;
    for argument in command.get_arguments() {
        push_argument(text, argument)?;
    }
    Ok(())
}

fn push_argument(text: &mut String, argument: &Arg) -> Result<(), AllocError> {
    write!(
        text,
        "{} {:?} {:?} {:?} {:?} ",
        argument.get_id(),
        argument.get_long(),
        argument.get_help(),
        argument.get_short(),
        argument.get_index()
    )?;
    writeln!(
        text,
        "{} {:?} {:?}",
        argument.get_display_order(),
        argument.get_action(),
        argument.get_num_args()
    )?;
    Ok(())
}
