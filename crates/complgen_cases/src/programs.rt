//! The programs that command lines call: `complgen`, and a program that completes itself.

use crate::document::Document;
use cc_base::{Collected, Error};
use cc_candidates::{Completers, MemoryFolder};
use cc_command::{Command, Release};
use cc_env::{CompleteEnv, EnvCompleter};
use cc_quote::posix_word;
use cc_replies::EnvValues;
use complgen_command_line::plan;
use complgen_plans::{Inputs, carry_out};
use complgen_scripts::{Plan, Refusal};
use complgen_tree_file::read_tree;
use std::alloc::{AllocError, Global};
use std::convert::AsStr;
use std::rt::Files;

// The exit status of a plan that writes files, which no case carries out.
const WRITES_FILES: u8 = 3;

/// The output of a command line, on stdout and stderr, and its exit status.
#[derive(Drop)]
pub(crate) struct Outcome {
    /// The exit status.
    pub status: u8,
    /// The output.
    pub text: String,
}

/// Runs a command line: words quoted as for a shell, after variables such as `NAME=VALUE`. The
/// files are those of the document. `complgen scripts` is not carried out, since it writes files.
///
/// `complgen` is the program with that name. Any other program completes itself. The variable
/// `TREE` names the tree of its command, `PWD` is its current directory, and `BIN` and `COMPLETER`
/// are the names in its registration. With `SAFE`, it uses the safe adapters. If it is not called
/// for a completion, it prints `(goes on)`.
///
/// # Errors
///
/// `Memory` if an allocation fails.
pub(crate) fn run_line<R: Files>(
    files: &R,
    alloc: Global,
    document: &Document,
    command: &str,
) -> Result<Outcome, Error> {
    let words = words(alloc, command)?;
    let (variables, words) = apart(alloc, words)?;
    let is_complgen = words
        .first()
        .is_some_and(|word| word.as_str() == "complgen");
    if is_complgen {
        return Ok(complgen(files, alloc, document, words.as_slice())?);
    }
    completed(alloc, document, &variables, words)
}

// Splits a command line into words. Text that is not a word, such as the text after an unclosed
// quote, becomes one word unchanged.
fn words(alloc: Global, command: &str) -> Result<Vec<String>, Error> {
    let mut words = Vec::new(alloc);
    let mut rest = command;
    for _ in 0..command.len() {
        let Some((word, after)) = posix_word(alloc, rest.trim_start())? else {
            break;
        };
        words.push(word)?;
        rest = after;
    }
    if !rest.trim_start().is_empty() {
        words.push(String::from_str(alloc, rest)?)?;
    }
    Ok(words)
}

// Separates the variables before the words from the words.
fn apart(alloc: Global, all: Vec<String>) -> Result<(EnvValues, Vec<String>), AllocError> {
    let mut variables = Vec::new(alloc);
    let mut words: Vec<String> = Vec::new(alloc);
    for word in all {
        if !words.is_empty() {
            words.push(word)?;
            continue;
        }
        match variable(alloc, word.as_str())? {
            Some(found) => variables.push(found)?,
            None => words.push(word)?,
        }
    }
    Ok((EnvValues::new(variables), words))
}

// Returns the name and the value, if the word is `NAME=VALUE`.
fn variable(alloc: Global, word: &str) -> Result<Option<(String, String)>, AllocError> {
    let Some((name, value)) = word.split_once("=") else {
        return Ok(None);
    };
    let name = String::from_str(alloc, name)?;
    let value = String::from_str(alloc, value)?;
    Ok(Some((name, value)))
}

// Returns the output of `complgen` for these words.
fn complgen<R: Files>(
    files: &R,
    alloc: Global,
    document: &Document,
    words: &[String],
) -> Result<Outcome, AllocError> {
    let mut out = Collected::new(alloc);
    let carried_out = carry_out_words(files, alloc, document, words, &mut out);
    let mut text = String::from_utf8_lossy(alloc, out.as_slice())?;
    match carried_out {
        Ok(status) => Ok(Outcome { status, text }),
        Err(refusal) => {
            text.push_str(refusal.text.as_str())?;
            let status = refusal.status;
            Ok(Outcome { status, text })
        }
    }
}

// Does what the words request, and returns the exit status. No case writes files.
fn carry_out_words<R: Files>(
    files: &R,
    alloc: Global,
    document: &Document,
    words: &[String],
    out: &mut Collected,
) -> Result<u8, Refusal> {
    let plan = plan(alloc, words)?;
    if matches!(&plan, Plan::Scripts { .. }) {
        return Ok(WRITES_FILES);
    }
    let inputs = Inputs {
        tree: document.file(plan.tree()),
        values: plan.values().and_then(|path| document.file(path)),
        folder: &folders(),
    };
    carry_out(files, alloc, &plan, &inputs, out)
}

// Returns the output of a program that completes itself.
fn completed(
    alloc: Global,
    document: &Document,
    variables: &EnvValues,
    words: Vec<String>,
) -> Result<Outcome, Error> {
    let tree = variables
        .get("TREE")
        .and_then(|name| document.file(name))
        .unwrap_or(&[]);
    let factory = |alloc: Global| command(alloc, tree);
    if variables.get("SAFE").is_some() {
        return completed_by(alloc, CompleteEnv::safe(factory), variables, words);
    }
    completed_by(alloc, CompleteEnv::with_factory(factory), variables, words)
}

// Returns the output of a program that completes itself with these adapters.
fn completed_by<F, E>(
    alloc: Global,
    program: CompleteEnv<'_, F, E>,
    variables: &EnvValues,
    words: Vec<String>,
) -> Result<Outcome, Error>
where
    F: Fn(Global) -> Result<Command, Error> + Drop,
    E: EnvCompleter,
    requires { F.IsAlwaysCallable program.factory }
{
    let mut program = program;
    if let Some(bin) = variables.get("BIN") {
        program = program.bin(String::from_str(alloc, bin)?);
    }
    if let Some(completer) = variables.get("COMPLETER") {
        program = program.completer(String::from_str(alloc, completer)?);
    }
    let mut out = Collected::new(alloc);
    let done = program.try_complete(
        alloc,
        words,
        variables.get("PWD"),
        variables,
        &folders(),
        &Completers::none(alloc),
        &mut out,
    );
    ended(alloc, done, out.as_slice())
}

// Returns the text that was written, and the text that a program which completes itself prints
// after it.
fn ended(alloc: Global, done: Result<bool, Error>, written: &[u8]) -> Result<Outcome, Error> {
    let mut text = String::from_utf8_lossy(alloc, written)?;
    match done {
        Ok(true) => Ok(Outcome { status: 0, text }),
        Ok(false) => {
            text.push_str("(goes on)\n")?;
            Ok(Outcome { status: 0, text })
        }
        Err(error) => {
            let error = format!(in alloc; "{error}\n")?;
            text.push_str(error.as_str())?;
            Ok(Outcome { status: 1, text })
        }
    }
}

fn command(alloc: Global, tree: &[u8]) -> Result<Command, Error> {
    match read_tree(alloc, tree, Release::AtOnce) {
        Ok(command) => Ok(command),
        Err(_) => Err(Error::Memory),
    }
}

// The directories in memory: `/w` with a file and two directories, one of them hidden; `/o` and the
// current directory of `complgen`, with two files and a directory; and a home directory with a
// directory.
fn folders() -> MemoryFolder {
    MemoryFolder::new(
        &[
            ("/w", &["src", ".git", "a.txt"]),
            ("/w/.git", &[]),
            ("/w/src", &[]),
            ("/o", &["foobar", "foo", "bar"]),
            ("/o/foo", &[]),
            (".", &["foo", "foobar", "bar"]),
            ("./foo", &[]),
            ("/home/u", &["src"]),
            ("/home/u/src", &[]),
        ],
        &["/w/a.txt", "/o/foobar", "/o/bar", "./foobar", "./bar"],
    )
    .with_home("/home/u")
}
