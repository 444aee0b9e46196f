//! The interface of every generator, and the call that builds a command and writes its script.

ghost use Rattle.std.specs.Prelude.{◌≡◌, Some, IsTrue, IfOk, IfErr, OnOk};
ghost use Rattle.std.specs.String.{string_bytes};
ghost use Rattle.cc_command.specs.Plain.{is_plain_tree};
ghost use Rattle.cc_base.specs.PlainName.{is_plain_name};
ghost use Rattle.cc_command.specs.Quiet.{is_quiet_tree};
ghost use Rattle.cc_command.specs.Built.{built_under};
ghost use Rattle.cc_generator.specs.Generators.{Generates, IsReady, LeavesBuilt, ShellSpec};

use cc_base::{Error, Sink};
use cc_command::{Command, build_as};
use std::alloc::Global;

/// A generator of completion scripts for one shell.
pub trait Generator {
    // the specification of the scripts: their text, what they read back to, their labels and their
    // files
    ghost spec: { Self → ShellSpec };

    /// Returns the name of the file that the shell looks for if the program is called `name`.
    ///
    /// # Errors
    ///
    /// `Memory` if an allocation fails.
    fn file_name(&self, alloc: Global, name: &str) -> Result<String, Error>
        ensures ok { IfOk result (λ text. string_bytes text ≡ (spec self.now).file name.now) }
        ensures memory { IfErr result (λ error. error ≡ Error.Memory) };

    /// Writes the script of a `command` to `sink`, piece by piece. The command must be built and
    /// have a bin name.
    ///
    /// # Errors
    ///
    /// - `LabelClash` if the script needs labels and two nodes share one. Nothing is written then.
    /// - `Write` if the sink fails.
    /// - `Memory` if an allocation fails.
    ///
    /// After an error, the sink holds a beginning of the script.
    fn generate<W: Sink>(&self, alloc: Global, command: &Command, sink: &mut W) -> Result<(), Error>
        requires ready { IsReady command.now }
        ensures { Generates W.taken W.failed (spec self.now) command.now result
            sink.old sink.new };

    /// Writes the script as [`Generator::generate`] does.
    ///
    /// # Errors
    ///
    /// The errors of [`Generator::generate`], with the same effect on the sink.
    fn try_generate<W: Sink>(
        &self,
        alloc: Global,
        command: &Command,
        sink: &mut W,
    ) -> Result<(), Error>
        requires ready { IsReady command.now }
        ensures { Generates W.taken W.failed (spec self.now) command.now result
            sink.old sink.new }
    {
        self.generate(alloc, command, sink)
    }
}

/// Sets the bin name, builds `command` and writes the script of `generator` to `sink`.
///
/// The script reads back if the command and the bin name are plain. What a bash script offers at
/// each command reads back if the possible values are quiet too (`Command::has_quiet_values`).
/// Building a command keeps its values quiet.
///
/// # Errors
///
/// `Memory` if an allocation fails, and the errors of [`Generator::generate`]. If the build fails,
/// the command stays as it was and nothing is written. If a later step fails, the command stays
/// built, and the sink holds a beginning of the script.
pub fn generate<G: Generator + Drop, W: Sink>(
    alloc: Global,
    generator: G,
    command: &mut Command,
    bin_name: String,
    sink: &mut W,
) -> Result<(), Error>
    ensures built { LeavesBuilt result command.old command.new
        (built_under (Some (string_bytes bin_name)) command.old)
        (W.taken sink.old) (W.taken sink.new) }
    ensures written { Generates W.taken W.failed (G.spec generator)
        (built_under (Some (string_bytes bin_name)) command.old) result sink.old sink.new }
    ensures plain { OnOk result (IsTrue (is_plain_tree command.old) →
        IsTrue (is_plain_name (string_bytes bin_name)) →
        (G.spec generator).Reads (built_under (Some (string_bytes bin_name)) command.old)) }
    ensures quiet { OnOk result (IsTrue (is_quiet_tree command.old) →
        IsTrue (is_quiet_tree (built_under (Some (string_bytes bin_name)) command.old))) }
{
    build_as(command, alloc, bin_name)?;
    generator.generate(alloc, command, sink)
}
