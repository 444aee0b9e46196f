//! The bash script of a command, and the candidates for a word of a command line.

ghost use Rattle.std.specs.Prelude.{◌≡◌, ◌++◌, Some, length, map, string_bytes};
ghost use Rattle.std.specs.Prelude.{IfErr, IfOk, OnOk};
ghost use Rattle.cc_program.specs.BashAgreement.{AgreesWithBash, ArePlain, FailsBefore};
ghost use Rattle.cc_base.specs.Writes.{CountsWrite};
ghost use Rattle.cc_bash.specs.Script.{bash_script};
ghost use Rattle.cc_command.specs.Built.{built_under};

use cc_base::{Error, Sink};
use cc_bash::Bash;
use cc_candidates::CompletionCandidate;
use cc_command::Command;
use cc_engine::{Lookup, complete_from};
use cc_generator::generate;
use std::alloc::Global;

/// Writes the bash script of `command` under `bin_name` to `sink`, as `generate` does, and returns
/// the candidates for the word at `index`, as `complete_from` does.
///
/// If the command and the bin name are plain, and none of the words before the index is a hidden
/// alias at the command that reads it, the two agree. Over these words the cases that are read
/// from the script lead to the label of the very command whose candidates are returned. The arm at
/// that label is that command's. `Command::is_plain`, `is_plain_name` and `has_no_hidden_alias`
/// test this before the call.
///
/// # Errors
///
/// `Write` if the sink fails. `LabelClash`, before anything is written, if two commands share a
/// label. `NoCompletion`, after the script, if no word, or the program's name, is at the index.
/// `Memory` if an allocation fails. After an error of the script, the sink holds a beginning of it,
/// and no candidates are gathered.
pub fn bash_script_and_candidates<L: Lookup, W: Sink>(
    alloc: Global,
    command: &mut Command,
    bin_name: String,
    words: Vec<String>,
    index: usize,
    lookup: &L,
    sink: &mut W,
) -> Result<Vec<CompletionCandidate>, Error>
    ensures built { OnOk result
        (command.new ≡ built_under (Some (string_bytes bin_name)) command.old) }
    ensures written { OnOk result
        (W.taken sink.new ≡ W.taken sink.old ++ bash_script command.new) }
    ensures agree { IfOk result (λ found. ArePlain command.old (string_bytes bin_name)
        (map string_bytes words.items) index → AgreesWithBash (L.may_return lookup.now)
        command.new (map string_bytes words.items) index found.items) }
    ensures errors { IfErr result (FailsBefore command.old command.new
        (built_under (Some (string_bytes bin_name)) command.old)
        (W.taken sink.old) (W.taken sink.new) (length words.items) index) }
    ensures failures { CountsWrite result (W.failed sink.old) (W.failed sink.new) }
{
    generate(alloc, Bash, command, bin_name, sink)?;
    complete_from(alloc, command, words, index, lookup)
}
