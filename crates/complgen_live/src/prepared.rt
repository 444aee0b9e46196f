//! The shell and the command of a request.

ghost use Rattle.std.specs.Option.{option_copied};
ghost use Rattle.complgen_live.specs.Prepared.{Prepares};
ghost use Rattle.complgen_live.specs.TreeErrors.{DescribedBy};

use crate::reply_errors::ReplyError;
use cc_base::Error;
use cc_command::{Command, Release};
use cc_env::{SafeShell, Shells, known_shell, wanted_name};
use cc_replies::EnvValues;
use complgen_tree_file::{TreeError, read_tree};
use std::alloc::Global;

/// The variable that requests a registration or a reply, by the name of a shell.
pub(crate) const VARIABLE: &str = "COMPLETE";

/// The shell that requests an answer, and the command that the tree file describes.
#[derive(Drop)]
pub(crate) struct Prepared {
    /// The shell.
    pub(crate) shell: SafeShell,
    /// The command.
    pub(crate) command: Command,
}

/// Returns the shell that `env` names and the command that `file` describes, or `None` without a
/// file or a request. `when` tells when the memory of the file's JSON is released.
///
/// # Errors
///
/// `Library` with `UnknownShell` if no shell has the name, which is reported before the file is
/// read, and with `Memory` if an allocation fails. `Tree` if the file is not JSON or describes no
/// command.
pub(crate) fn prepare(
    alloc: Global,
    env: &EnvValues,
    file: Option<&[u8]>,
    when: Release,
) -> Result<Option<Prepared>, ReplyError>
    ensures { Prepares env.now (option_copied file.entry) result }
{
    let Some(bytes) = file else {
        return Ok(None);
    };
    let Some(name) = wanted_name(env.get(VARIABLE)) else {
        return Ok(None);
    };
    let shells = Shells::safe();
    let known = known_shell(alloc, &shells, name)?;
    let command = described(alloc, bytes, when)?;
    Ok(Some(Prepared {
        shell: *known,
        command,
    }))
}

// Returns the command that a tree file describes.
fn described(alloc: Global, bytes: &[u8], when: Release) -> Result<Command, ReplyError>
    ensures { DescribedBy bytes.now result }
{
    match read_tree(alloc, bytes, when) {
        Ok(command) => Ok(command),
        Err(TreeError::NotJson) => Err(ReplyError::Tree(TreeError::NotJson)),
        Err(TreeError::BadForm) => Err(ReplyError::Tree(TreeError::BadForm)),
        Err(TreeError::Memory) => Err(ReplyError::Library(Error::Memory)),
    }
}
