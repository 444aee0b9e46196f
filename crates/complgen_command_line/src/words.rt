//! Finds the plan that the words of the command line ask for.

ghost use Rattle.std.specs.Prelude.{◌≡◌, ◌⊎◌, [], IfOk, IfErr, IsSome, Some, codes, map, option_map, true};
ghost use Rattle.std.specs.Prelude.{string_bytes};
ghost use Rattle.clap.specs.Words.{fault_of, first_of, found_of, rows_of, subcommand_of};
ghost use Rattle.clap.specs.Words.{subcommand_rows_of, takes};
ghost use Rattle.complgen_command_line.specs.CommandLine.{program_line};
ghost use Rattle.complgen_command_line.specs.Plans.{AsksFor, EntersOne, EntersTree, GivesDirectory, GivesNames};
ghost use Rattle.complgen_command_line.specs.Plans.{GivesPage, GivesTree, GivesWords, HasBadIndex, HasDirectory};
ghost use Rattle.complgen_command_line.specs.Plans.{HasIndex, HasNames, HasReport, HasWords, words_of};
ghost use Rattle.complgen_command_line.specs.Refusals.{IsBadIndex, Reports};
ghost use Rattle.complgen_scripts.specs.Refusals.{IsOutOfMemory};

use crate::command_line::command_line;
use crate::parse::{flag, optional, refusal_of, text, value};
use cc_candidates::owned_texts;
use clap::ArgMatches;
use complgen_scripts::{Plan, Refusal};
use std::alloc::{AllocError, Global};

const BAD_INDEX: &str = "index: bad number\n";

/// Returns the plan that `words` ask for. The first word is the program's name.
///
/// # Errors
///
/// A refusal with
///
/// - status 2 if the command line does not accept the words, or if the index among them is not a
///   number that fits in a `usize`;
/// - status 0 and the text that they ask for: a help text or the version;
/// - status 1 if an allocation fails.
pub fn plan(alloc: Global, words: &[String]) -> Result<Plan, Refusal>
    ensures ok { IfOk result (AsksFor (subcommand_of program_line (map string_bytes words.now))) }
    ensures fits { IfOk result (λ _. fault_of program_line (map string_bytes words.now) ≡ []) }
    ensures taken { IfErr result (λ refusal.
        takes program_line (map string_bytes words.now) ≡ true
        → Reports [] (subcommand_of program_line (map string_bytes words.now)) refusal) }
    ensures err { IfErr result (Reports (fault_of program_line (map string_bytes words.now))
        (subcommand_of program_line (map string_bytes words.now))) }
{
    let command = command_line(alloc)?;
    match command.try_get_matches_from(words) {
        Ok(matches) => {
            let planned = plan_of(alloc, &matches);
            drop(matches);
            planned
        }
        Err(error) => Err(refusal_of(alloc, &error)),
    }
}

// Returns the plan of a parse.
fn plan_of(alloc: Global, matches: &ArgMatches<'_>) -> Result<Plan, Refusal>
    requires { EntersOne (subcommand_rows_of matches.now) }
    ensures ok { IfOk result (AsksFor (subcommand_rows_of matches.now)) }
    ensures err { IfErr result (Reports [] (subcommand_rows_of matches.now)) }
{
    match matches.subcommand() {
        Some(("man", values)) => man(alloc, values),
        _ => tree_plan_of(alloc, matches),
    }
}

// Returns the plan of a parse, if it reads a tree file to complete or to check.
fn tree_plan_of(alloc: Global, matches: &ArgMatches<'_>) -> Result<Plan, Refusal>
    requires { EntersTree (subcommand_rows_of matches.now) }
    ensures ok { IfOk result (AsksFor (subcommand_rows_of matches.now)) }
    ensures err { IfErr result (Reports [] (subcommand_rows_of matches.now)) }
{
    match matches.subcommand() {
        Some(("script", values)) => {
            let (shell, bin, tree) = names(alloc, values)?;
            Ok(Plan::Script(shell, bin, tree))
        }
        Some(("scripts", values)) => {
            let (bin, out_dir, tree) = directory(alloc, values)?;
            Ok(Plan::Scripts { bin, out_dir, tree })
        }
        Some(("register", values)) => {
            let (shell, bin, tree) = names(alloc, values)?;
            Ok(Plan::Register(shell, bin, tree))
        }
        Some(("candidates", values)) => candidates(alloc, values),
        Some(("wanted", values)) => {
            let (index, tree, words) = line(alloc, values)?;
            Ok(Plan::Wanted(index, tree, words))
        }
        Some(("check", values)) => {
            let (bin, json, tree) = report(alloc, values)?;
            Ok(Plan::Check { bin, json, tree })
        }
        _ => unreachable!(),
    }
}

// Reads the values of `--shell`, `--bin` and `TREE`.
fn names(alloc: Global, values: &ArgMatches<'_>) -> Result<(String, String, String), AllocError>
    requires { GivesNames (rows_of (found_of values.now)) }
    ensures { IfOk result (λ names. HasNames (string_bytes names.0) (string_bytes names.1)
        (string_bytes names.2) (rows_of (found_of values.now))) }
{
    let shell = value(alloc, values, "shell")?;
    let bin = value(alloc, values, "bin")?;
    let tree = value(alloc, values, "tree")?;
    Ok((shell, bin, tree))
}

// Reads the values of `--bin`, `--out-dir` and `TREE`.
fn directory(alloc: Global, values: &ArgMatches<'_>) -> Result<(String, String, String), AllocError>
    requires { GivesDirectory (rows_of (found_of values.now)) }
    ensures { IfOk result (λ texts. HasDirectory (string_bytes texts.0) (string_bytes texts.1)
        (string_bytes texts.2) (rows_of (found_of values.now))) }
{
    let bin = value(alloc, values, "bin")?;
    let out_dir = value(alloc, values, "out-dir")?;
    let tree = value(alloc, values, "tree")?;
    Ok((bin, out_dir, tree))
}

// Reads the values of `--bin`, which may be left out, `--json` and `TREE`.
fn report(
    alloc: Global,
    values: &ArgMatches<'_>,
) -> Result<(Option<String>, bool, String), AllocError>
    requires { GivesTree (rows_of (found_of values.now)) }
    ensures { IfOk result (λ report. HasReport (option_map string_bytes report.0) report.1
        (string_bytes report.2) (rows_of (found_of values.now))) }
{
    let bin = optional(alloc, values, "bin")?;
    let tree = value(alloc, values, "tree")?;
    Ok((bin, flag(values, "json"), tree))
}

// Returns the plan of `candidates`.
fn candidates(alloc: Global, values: &ArgMatches<'_>) -> Result<Plan, Refusal>
    requires { GivesWords (rows_of (found_of values.now)) }
    ensures ok { IfOk result
        (AsksFor (Some (codes "candidates", rows_of (found_of values.now)))) }
    ensures err { IfErr result
        (Reports [] (Some (codes "candidates", rows_of (found_of values.now)))) }
{
    let (index, tree, words) = line(alloc, values)?;
    let Some(values) = optional(alloc, values, "values")? else {
        return Ok(Plan::Candidates(index, tree, words));
    };
    Ok(Plan::CandidatesWith {
        values,
        index,
        tree,
        words,
    })
}

// Returns the plan of `man`.
fn man(alloc: Global, values: &ArgMatches<'_>) -> Result<Plan, Refusal>
    requires { GivesPage (rows_of (found_of values.now)) }
    ensures ok { IfOk result (AsksFor (Some (codes "man", rows_of (found_of values.now)))) }
    ensures err { IfErr result
        (Reports [] (Some (codes "man", rows_of (found_of values.now)))) }
{
    let bin = value(alloc, values, "bin")?;
    let tree = value(alloc, values, "tree")?;
    Ok(Plan::Man { bin, tree })
}

// Reads the values of `--index`, `TREE` and `WORDS`.
fn line(alloc: Global, values: &ArgMatches<'_>) -> Result<(usize, String, Vec<String>), Refusal>
    requires { GivesWords (rows_of (found_of values.now)) }
    ensures ok { IfOk result (λ line. HasWords line.0 (string_bytes line.1)
        (map string_bytes line.2.items) (rows_of (found_of values.now))) }
    ensures err { IfErr result (λ refusal. IsOutOfMemory refusal
        ⊎ (IsBadIndex refusal × HasBadIndex (rows_of (found_of values.now)))) }
{
    let index = index(values)?;
    let tree = value(alloc, values, "tree")?;
    let words = words(alloc, values)?;
    Ok((index, tree, words))
}

// Reads the value of `--index`.
fn index(values: &ArgMatches<'_>) -> Result<usize, Refusal>
    requires { IsSome (first_of (codes "index") (rows_of (found_of values.now))) }
    ensures ok { IfOk result (λ index. HasIndex index (rows_of (found_of values.now))) }
    ensures err { IfErr result (λ refusal.
        IsBadIndex refusal × HasBadIndex (rows_of (found_of values.now))) }
{
    match text(values, "index").parse::<usize>() {
        Ok(index) => Ok(index),
        Err(_) => Err(Refusal::from_static(2, BAD_INDEX)),
    }
}

// Reads the values of `WORDS`.
fn words(alloc: Global, values: &ArgMatches<'_>) -> Result<Vec<String>, AllocError>
    ensures { IfOk result (λ words.
        map string_bytes words.items ≡ words_of (rows_of (found_of values.now))) }
{
    match values.get_raw("words") {
        Some(words) => owned_texts(alloc, words),
        None => Ok(Vec::new(alloc)),
    }
}
