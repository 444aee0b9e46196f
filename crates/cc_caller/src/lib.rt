//! Proved callers of the library. The contracts of two promise that the scripts that they write
//! read back. The contract of one lists the names with which it completes a word. Others compare
//! values. There is also a generator outside the library, and an adapter.
#![tactic(auto)]

ghost use Rattle.std.specs.Prelude.{◌≡◌, ◌&&◌, IfOk, Some};
ghost use Rattle.std.specs.String.{string_bytes};
ghost use Rattle.clap_complete.specs.cc_command.Built.{built_under};
ghost use Rattle.clap_complete.specs.cc_command.Plain.{is_plain_tree};
ghost use Rattle.clap_complete.specs.cc_base.PlainName.{is_plain_name};
ghost use Rattle.cc_caller.specs.PlainScript.{TakesPlain};

mod bash;
mod branches;
mod equality;
mod known_names;
mod prompt;
mod word_list;

pub use crate::bash::write_bash_if_quiet;
pub use crate::branches::{branch, write_answer_over};
pub use crate::equality::{
    Adapters, Generators, same_action, same_adapters, same_builtin, same_generators, same_hash,
    same_hint, same_range, same_refusal, same_safe_shell, same_shell,
};
pub use crate::known_names::{KnownNames, tools};
pub use crate::prompt::{Prompt, answer_prompt};
pub use crate::word_list::WordList;
use clap_complete::aot::{Elvish, Sink};
use clap_complete::command::{Command, is_plain_name};
use clap_complete::{Error, generate};
use std::alloc::Global;

/// Writes the Elvish script of `command` under `bin_name` to `sink`, and returns `true`, if both
/// are plain. Otherwise returns `false` and writes nothing.
///
/// # Errors
///
/// `Memory` and `Write`, as `generate` returns them.
pub fn write_if_plain<W: Sink>(
    alloc: Global,
    command: &mut Command,
    bin_name: String,
    sink: &mut W,
) -> Result<bool, Error>
    ensures takes { TakesPlain result (W.taken sink.old) (W.taken sink.new)
        (built_under (Some (string_bytes bin_name)) command.old) }
    ensures writes { IfOk result (λ done. done ≡ (is_plain_tree command.old
        && is_plain_name (string_bytes bin_name))) }
{
    if !command.is_plain() || !is_plain_name(bin_name.as_str()) {
        return Ok(false);
    }
    generate(alloc, Elvish, command, bin_name, sink)?;
    Ok(true)
}
