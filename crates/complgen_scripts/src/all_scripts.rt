//! Writes the scripts of all shells to files.

ghost use Rattle.std.specs.Prelude.{◌≡◌, IfOk, IsTrue, OnOk, Some};
ghost use Rattle.std.specs.List.{AllByRecursion};
ghost use Rattle.std.specs.Option.{option_copied};
ghost use Rattle.std.specs.String.{string_bytes};
ghost use Rattle.cc_command.specs.Built.{built_under};
ghost use Rattle.cc_command.specs.Plain.{is_plain_tree};
ghost use Rattle.cc_base.specs.PlainName.{is_plain_name};
ghost use Rattle.cc_shell.specs.Shells.{shell_spec};
ghost use Rattle.cc_shell.specs.declared.shell.Shell.{Shell};
ghost use Rattle.complgen_scripts.specs.Scripts.{ScriptReads};
ghost use Rattle.complgen_scripts.specs.AllScripts.{EndsFile, EndsFiles, EndsScripts, HasNoLabels};
ghost use Rattle.complgen_scripts.specs.AllScripts.{PrintsLine, ReadsBack, ReportsFile};
ghost use Rattle.complgen_scripts.specs.AllScripts.{folder_line, path_line, path_lines};
ghost use Rattle.complgen_scripts.specs.Refusals.{as_line};

use crate::refusals::{Refusal, WRITE_FAILED, as_line, error_refusal, text_refusal};
use crate::tree_files::{TreeFile, named_tree};
use cc_base::{Error, Sink, on_one_line, put_piece};
use cc_command::Command;
use cc_shell::{Shell, generate_to};
use std::alloc::{AllocError, Global};
use std::rt::Files;

/// Writes the scripts of all shells for the tree in `file`, built under the name `bin`. Each goes
/// to a file in `folder`, with the name that its shell looks for. Prints the paths of these files
/// to `out`, one on each line, with `?` for each control character.
///
/// # Errors
///
/// A refusal with status 1:
///
/// - before any file is made, if the tree file, which the text names, holds no tree, or if two of
///   its commands share a label of the bash script;
/// - if a file cannot be made or written, for example because the directory does not exist;
/// - if a path cannot be printed, or an allocation fails.
pub fn scripts<R: Files, W: Sink>(
    files: &R,
    alloc: Global,
    bin: &str,
    folder: &str,
    file: TreeFile<'_>,
    out: &mut W,
) -> Result<(), Refusal>
    ensures ends { EndsScripts W.taken W.failed bin.now folder.now file.entry.path.now out.old out.new
        (option_copied file.entry.bytes) result }
    ensures read_back { OnOk result
        ((shell : Shell) → ScriptReads shell bin.now (option_copied file.entry.bytes)) }
{
    let mut command = named_tree(alloc, file)?;
    // Only the bash script has labels that two commands may share. It is written first, so that a
    // shared label is reported before any file is made.
    match write_one(files, alloc, Shell::Bash, &mut command, bin, folder, out) {
        Ok(()) => {
            let ended = write_each(files, alloc, OTHERS, &mut command, bin, folder, out);
            // One call here, instead of a drop of each field at each return.
            drop(command);
            ended
        }
        Err(refusal) => {
            drop(command);
            Err(refusal)
        }
    }
}

const OTHERS: &[Shell] = &[
    Shell::Elvish,
    Shell::Fish,
    Shell::PowerShell,
    Shell::Zsh,
    Shell::Nushell,
];

// Writes the script of each of `shells`. Their scripts have no labels that two commands could
// share.
fn write_each<R: Files, W: Sink>(
    files: &R,
    alloc: Global,
    shells: &[Shell],
    command: &mut Command,
    bin: &str,
    folder: &str,
    out: &mut W,
) -> Result<(), Refusal>
    requires built { built_under (Some bin.now) command.now ≡ command.now }
    requires no_labels { AllByRecursion HasNoLabels shells.now }
    ensures ends { EndsFiles W.taken W.failed folder.now (path_lines bin.now folder.now shells.now)
        out.old out.new result }
    ensures reads { OnOk result (AllByRecursion (ReadsBack bin.now command.old) shells.now) }
{
    for shell in shells {
        write_one(files, alloc, *shell, command, bin, folder, out)?;
    }
    Ok(())
}

// Writes the script of `shell` to its file in `folder`, and the path of the file to `out`.
fn write_one<R: Files, W: Sink>(
    files: &R,
    alloc: Global,
    shell: Shell,
    command: &mut Command,
    bin: &str,
    folder: &str,
    out: &mut W,
) -> Result<(), Refusal>
    ensures built { OnOk result (command.new ≡ built_under (Some bin.now) command.old) }
    ensures ends { EndsFile W.taken W.failed
        ((shell_spec shell).clash (built_under (Some bin.now) command.old)) folder.now
        (path_line bin.now folder.now shell) out.old out.new result }
    ensures reads { OnOk result (IsTrue (is_plain_tree command.old) → IsTrue (is_plain_name bin.now)
        → (shell_spec shell).Reads (built_under (Some bin.now) command.old)) }
{
    let name = String::from_str(alloc, bin)?;
    match generate_to(files, alloc, shell, command, name, folder) {
        Ok(path) => put_path(alloc, out, path.as_str()),
        Err(error) => Err(file_refusal(alloc, folder, &error)),
    }
}

// Writes `path` as a line, with `?` for each control character.
fn put_path<W: Sink>(alloc: Global, out: &mut W, path: &str) -> Result<(), Refusal>
    ensures { PrintsLine W.taken W.failed (as_line path.now) out.old out.new result }
{
    let line = as_line(alloc, path)?;
    match put_piece(out, line.as_str()) {
        Ok(()) => Ok(()),
        Err(_) => Err(Refusal::from_static(1, WRITE_FAILED)),
    }
}

// Returns the refusal for an `error` of writing a script to a file in `folder`.
fn file_refusal(alloc: Global, folder: &str, error: &Error) -> Refusal
    ensures { ReportsFile folder.now error.now result }
{
    match error {
        Error::Write(_) => text_refusal(folder_line(alloc, folder)),
        error => error_refusal(alloc, error),
    }
}

// Returns the line for a file in `folder` that cannot be made or written.
fn folder_line(alloc: Global, folder: &str) -> Result<String, AllocError>
    ensures { IfOk result (λ line. string_bytes line ≡ folder_line folder.now) }
{
    let mut line = on_one_line(alloc, folder)?;
    line.push_str(": write failed\n")?;
    Ok(line)
}
