//! Writes the script for one shell.

ghost use Rattle.std.specs.Prelude.{OnOk, true};
ghost use Rattle.std.specs.Option.{option_copied};
ghost use Rattle.complgen_scripts.specs.ScriptEnds.{EndsScript, NamedScriptReads};
ghost use Rattle.complgen_scripts.specs.Scripts.{IsScript, ScriptReads, SharesLabel};
ghost use Rattle.complgen_scripts.specs.Writing.{Finishes};

use crate::refusals::{Refusal, error_refusal};
use crate::shells::shell_of;
use crate::tree_files::tree;
use cc_base::Sink;
use cc_command::{Release, discard};
use cc_generator::generate;
use cc_shell::Shell;
use std::alloc::Global;

/// Writes the script for the shell named `shell` to `out`. `file` has the bytes of the tree file,
/// or is `None` if it cannot be read. The command is built under the name `bin`. `when` tells when
/// the memory of the tree is released.
///
/// # Errors
///
/// A refusal with status 1 and the text of the error. An unknown shell is reported before the tree
/// is parsed.
pub fn script<W: Sink>(
    alloc: Global,
    shell: &str,
    bin: &str,
    file: Option<&[u8]>,
    when: Release,
    out: &mut W,
) -> Result<(), Refusal>
    ensures ends { EndsScript W.taken W.failed shell.now bin.now (option_copied file.entry)
        out.old out.new result }
    ensures read_back { OnOk result
        (NamedScriptReads shell.now bin.now (option_copied file.entry)) }
{
    let shell = shell_of(alloc, shell)?;
    script_by(alloc, shell, bin, file, when, out)
}

// Writes the script for `shell` of the command in a tree file.
fn script_by<W: Sink>(
    alloc: Global,
    shell: Shell,
    bin: &str,
    file: Option<&[u8]>,
    when: Release,
    out: &mut W,
) -> Result<(), Refusal>
    ensures ends { Finishes W.taken W.failed true (SharesLabel shell bin.now)
        (IsScript shell bin.now) out.old out.new (option_copied file.entry) result }
    ensures read_back { OnOk result (ScriptReads shell bin.now (option_copied file.entry)) }
{
    let mut command = tree(alloc, file, when)?;
    let bin = match String::from_str(alloc, bin) {
        Ok(bin) => bin,
        Err(failed) => {
            discard(command, when);
            return Err(Refusal::from(failed));
        }
    };
    match generate(alloc, shell, &mut command, bin, out) {
        Ok(()) => {
            discard(command, when);
            Ok(())
        }
        Err(error) => {
            discard(command, when);
            Err(error_refusal(alloc, &error))
        }
    }
}
