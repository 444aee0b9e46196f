//! Carries out each plan.

ghost use Rattle.std.specs.Prelude.{◌≡◌, IfOk, Some, codes, option_map, string_bytes};
ghost use Rattle.std.specs.Option.{option_copied};
ghost use Rattle.cc_engine.specs.Paths.{PathsOf};
ghost use Rattle.complgen_plans.specs.Ends.{Ends, ReadsBack};

use crate::checks::write_findings;
use crate::inputs::Inputs;
use crate::page::write_man_page;
use crate::registrations::register;
use crate::replies::reply;
use crate::values::write_candidates;
use crate::wanted::write_wanted;
use crate::word_at::WordAt;
use cc_base::Sink;
use cc_candidates::Folder;
use cc_command::Release;
use complgen_scripts::{Plan, Refusal, TreeFile, script, scripts};
use std::alloc::Global;
use std::rt::Files;

/// Carries out `plan` over the bytes in `inputs`, and writes its output to `out`. Returns the exit
/// status: 1 if `check` finds an error or a warning, and otherwise 0.
///
/// Looks up the shell of a script or a registration before it parses the tree. Only `scripts` makes
/// files, with the handle `files`. May leave the memory of the tree to the end of the process.
///
/// # Errors
///
/// A refusal with status 1 and the text of the error.
pub fn carry_out<R: Files, D: Folder, W: Sink>(
    files: &R,
    alloc: Global,
    plan: &Plan,
    inputs: &Inputs<'_, D>,
    out: &mut W,
) -> Result<u8, Refusal>
    ensures ends { Ends W.taken W.failed (PathsOf (D.facts inputs.now.folder.now) (Some (codes ".")))
        plan.now (option_copied inputs.now.tree) (option_copied inputs.now.values)
        out.old out.new result }
    ensures read_back { IfOk result (ReadsBack plan.now (option_copied inputs.now.tree)) }
{
    match plan {
        Plan::Script(shell, bin, _) => {
            let (shell, bin) = (shell.as_str(), bin.as_str());
            script(alloc, shell, bin, inputs.tree, Release::AtExit, out).and(Ok(0))
        }
        Plan::Register(shell, bin, _) => {
            register(alloc, shell.as_str(), bin.as_str(), inputs.tree, out).and(Ok(0))
        }
        Plan::Candidates(index, _, words) => {
            let word = word_at(words.as_slice(), *index);
            reply(alloc, word, inputs.tree, inputs.folder, out).and(Ok(0))
        }
        Plan::CandidatesWith {
            values,
            index,
            words,
            ..
        } => {
            let word = word_at(words.as_slice(), *index);
            write_candidates(alloc, values.as_str(), word, inputs, out).and(Ok(0))
        }
        Plan::Wanted(index, _, words) => {
            let word = word_at(words.as_slice(), *index);
            write_wanted(alloc, word, inputs.tree, out).and(Ok(0))
        }
        Plan::Check { bin, json, tree } => {
            let bin = text_of(bin);
            let tree = tree_file(tree.as_str(), inputs.tree);
            write_findings(alloc, bin, *json, tree, out)
        }
        Plan::Man { bin, tree } => {
            let tree = tree_file(tree.as_str(), inputs.tree);
            write_man_page(alloc, bin.as_str(), tree, out).and(Ok(0))
        }
        Plan::Scripts { bin, out_dir, tree } => {
            let tree = tree_file(tree.as_str(), inputs.tree);
            scripts(files, alloc, bin.as_str(), out_dir.as_str(), tree, out).and(Ok(0))
        }
    }
}

// Returns the text, if there is one.
fn text_of(text: &Option<String>) -> Option<&str>
    ensures { option_copied result ≡ option_map string_bytes text.now }
{
    match text {
        Some(text) => Some(text.as_str()),
        None => None,
    }
}

// Returns the word at the index.
fn word_at(words: &[String], index: usize) -> WordAt<'_>
    ensures words { result.words.now ≡ words.now }
    ensures index { result.index ≡ index }
{
    WordAt { words, index }
}

// Returns the tree file at `path`.
fn tree_file<'f>(path: &'f str, bytes: Option<&'f [u8]>) -> TreeFile<'f>
    ensures path { result.path.now ≡ path.now }
    ensures bytes { option_copied result.bytes ≡ option_copied bytes.entry }
{
    TreeFile { path, bytes }
}
