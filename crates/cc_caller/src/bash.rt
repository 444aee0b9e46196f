//! A bash script whose possible values are read back too.

ghost use Rattle.std.specs.Prelude.{◌≡◌, ◌&&◌, IfOk, Some};
ghost use Rattle.std.specs.String.{string_bytes};
ghost use Rattle.clap_complete.specs.cc_command.Built.{built_under};
ghost use Rattle.clap_complete.specs.cc_command.Plain.{is_plain_tree};
ghost use Rattle.clap_complete.specs.cc_base.PlainName.{is_plain_name};
ghost use Rattle.clap_complete.specs.cc_command.Quiet.{is_quiet_tree};
ghost use Rattle.cc_caller.specs.QuietScript.{TakesQuiet};

use clap_complete::aot::{Bash, Sink};
use clap_complete::command::{Command, is_plain_name};
use clap_complete::{Error, generate};
use std::alloc::Global;

/// Writes the bash script of `command` under `bin_name` to `sink`, and returns `true`, if the
/// command is plain, has quiet possible values, and the bin name is plain. Otherwise returns
/// `false` and writes nothing.
///
/// # Errors
///
/// `Memory`, `Write` and `LabelClash`, as `generate` returns them.
pub fn write_bash_if_quiet<W: Sink>(
    alloc: Global,
    command: &mut Command,
    bin_name: String,
    sink: &mut W,
) -> Result<bool, Error>
    ensures takes { TakesQuiet result (W.taken sink.old) (W.taken sink.new)
        (built_under (Some (string_bytes bin_name)) command.old) }
    ensures writes { IfOk result (λ done. done ≡ (is_plain_tree command.old
        && is_quiet_tree command.old && is_plain_name (string_bytes bin_name))) }
{
    if !command.is_plain() || !command.has_quiet_values() || !is_plain_name(bin_name.as_str()) {
        return Ok(false);
    }
    generate(alloc, Bash, command, bin_name, sink)?;
    Ok(true)
}
