//! Finds the shell with a name.

ghost use Rattle.complgen_scripts.specs.Refusals.{FindsShell};

use crate::refusals::{Refusal, error_refusal};
use cc_shell::Shell;
use std::alloc::Global;

/// Returns the shell with this `name`.
///
/// # Errors
///
/// A refusal with status 1 and the text of the error if no shell has the name, or if an allocation
/// fails.
pub fn shell_of(alloc: Global, name: &str) -> Result<Shell, Refusal>
    ensures { FindsShell name.now result }
{
    match Shell::parse(alloc, name) {
        Ok(shell) => Ok(shell),
        Err(unknown) => Err(error_refusal(alloc, &unknown)),
    }
}
