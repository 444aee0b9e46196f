//! Answers requests of shells: writes the registration of all programs that have a tree file, the
//! candidates for a word of one of them, or the words of a command that lists them.

use crate::output::{buffered, flush};
use crate::{as_bytes, contents};
use cc_base::{Error, Sink};
use cc_candidates::{Folder, RealFolder};
use cc_command::Release;
use cc_lines::SystemLines;
use cc_replies::{EnvValues, home, variables};
use complgen_live::{
    OWN_TREE, Origin, ReplyError, Request, command_name, known_names, reply, request_words,
    tree_folders, tree_paths, write_registrations,
};
use complgen_scripts::{Refusal, error_refusal, named_refusal};
use std::alloc::{AllocError, Global};
use std::convert::AsStr;
use std::env::{self, Env};
use std::io::Input;
use std::rt::Files;

// The environment variables that shells set, the one that turns commands off, those that name the
// directories of tree files, and the one that lists the directories of programs.
const VARIABLES: [&str; 15] = [
    "COMPLETE",
    "_COMPLGEN_VALUES",
    "_COMPLGEN_ASCII",
    "_COMPLGEN_KEPT",
    "_COMPLGEN_QUOTE",
    "_COMPLGEN_WIDTH",
    "_COMPLGEN_SPACE",
    "_CLAP_COMPLETE_INDEX",
    "_CLAP_IFS",
    "COMPLGEN_COMMANDS",
    "COMPLGEN_PATH",
    "XDG_DATA_HOME",
    "XDG_DATA_DIRS",
    "HOME",
    "PATH",
];

// The path that is printed for the built-in tree.
const OWN_PATH: &str = "own tree";

// A tree file, and its bytes if there is one.
#[derive(Drop)]
struct TreeFile {
    path: String,
    bytes: Option<Vec<u8>>,
}

/// Writes what a shell requests, and returns the exit status: 3 if the shell is to run a command
/// whose words are written, 4 if no space follows a value, and 1 if nothing is written, because the
/// completed program has no tree file. Then the shell goes on without candidates. `words` are all
/// words of the command line.
///
/// # Errors
///
/// A refusal with status 1.
pub(crate) fn complete<R: Env + Files + Input + Print + Eprint + AllocGlobal>(
    rt: &R,
    words: Vec<String>,
) -> Result<u8, Refusal> {
    let env = variables(rt, &VARIABLES)?;
    let folders = tree_folders(rt.alloc(), &env)?;
    let folder = RealFolder::new(rt, home(rt)?).with_modes();
    print(rt, &env, words.as_slice(), folders.as_slice(), &folder)
}

// Writes what a shell requests, over tree files in `folders` and paths in `folder`.
fn print<R: Env + Files + Input + Print + Eprint + AllocGlobal, D: Folder>(
    rt: &R,
    env: &EnvValues,
    words: &[String],
    folders: &[String],
    folder: &D,
) -> Result<u8, Refusal> {
    let mut out = buffered(rt)?;
    let status = write_requested(rt, env, words, folders, folder, &mut out)?;
    flush(&mut out)?;
    Ok(status)
}

// Writes the registration, or the answer if words follow the `--`. Returns the exit status.
fn write_requested<R: Env + Files + Input + Eprint + AllocGlobal, D: Folder, W: Sink>(
    rt: &R,
    env: &EnvValues,
    words: &[String],
    folders: &[String],
    folder: &D,
    out: &mut W,
) -> Result<u8, Refusal> {
    let current = env::current_dir(rt).ok();
    let current_dir = match &current {
        Some(path) => Some(path.as_str()),
        None => None,
    };
    let Some([word, ..]) = request_words(words) else {
        let program = called_as(words);
        return match write_known(rt, env, program, current_dir, folder, folders, out) {
            Ok(()) => Ok(0),
            Err(error) => Err(error_refusal(rt.alloc(), &error)),
        };
    };
    let file = tree_file(rt, folders, word.as_str())?;
    write_answer(rt, env, words, &file, current_dir, folder, out)
}

// Returns the name by which the program was called.
fn called_as(words: &[String]) -> &str {
    match words {
        [program, ..] => program.as_str(),
        [] => "complgen",
    }
}

// Writes the answer to a request for candidates, over a tree file. Returns the exit status.
fn write_answer<'r, R: Files + Input + AllocGlobal, D: Folder, W: Sink>(
    rt: &'r R,
    env: &'r EnvValues,
    words: &'r [String],
    tree: &'r TreeFile,
    current_dir: Option<&'r str>,
    folder: &'r D,
    out: &mut W,
) -> Result<u8, Refusal> {
    let path = tree.path.as_str();
    let origin = Origin::File(path);
    let file = as_bytes(&tree.bytes);
    let request = Request {
        env,
        words,
        origin,
        file,
        current_dir,
        folder,
        release: Release::AtExit,
    };
    let lines = SystemLines {
        rt,
        env,
        current_dir,
        folder,
    };
    match reply(rt.alloc(), &request, &lines, out) {
        Ok(status) => Ok(status),
        Err(error) => Err(reply_refusal(rt.alloc(), path, error)),
    }
}

// Returns what is printed if there is no reply, over the tree file at `path`.
fn reply_refusal(alloc: Global, path: &str, error: ReplyError) -> Refusal {
    match error {
        ReplyError::Library(error) => error_refusal(alloc, &error),
        ReplyError::Tree(error) => named_refusal(alloc, path, error),
    }
}

fn write_known<R: Eprint + AllocGlobal, D: Folder, W: Sink>(
    rt: &R,
    env: &EnvValues,
    program: &str,
    current_dir: Option<&str>,
    folder: &D,
    folders: &[String],
    out: &mut W,
) -> Result<(), Error> {
    let alloc = rt.alloc();
    let known = known_names(alloc, folder, folders)?;
    write_registrations(alloc, env, program, current_dir, &known.names, out)?;
    report_passed_over(rt, known.passed_over);
    Ok(())
}

// Prints how many tree files are skipped because their names are not plain. Does not print the
// names, since a terminal may take a part of them for a command.
fn report_passed_over<R: Eprint>(rt: &R, count: usize) {
    if count > 0 {
        let _ = eprintln!(rt;
            "complgen: tree files skipped because their names are not plain: {count}"
        );
    }
}

// Returns the first readable tree file of the program that `word` calls, or the built-in tree if
// that program is this one.
fn tree_file<R: Files + AllocGlobal>(
    rt: &R,
    folders: &[String],
    word: &str,
) -> Result<TreeFile, AllocError> {
    let alloc = rt.alloc();
    for path in tree_paths(alloc, folders, word)? {
        match contents(rt, path.as_str()) {
            Ok(None) => {}
            Ok(bytes) => return Ok(TreeFile { path, bytes }),
            Err(_) => return Err(AllocError),
        }
    }
    built_in(alloc, word)
}

// Returns the built-in tree if `word` calls this program.
fn built_in(alloc: Global, word: &str) -> Result<TreeFile, AllocError> {
    let path = String::from_str(alloc, OWN_PATH)?;
    let mut bytes = None;
    if command_name(word) == Some("complgen") {
        bytes = Some(String::from_str(alloc, OWN_TREE)?.into_bytes());
    }
    Ok(TreeFile { path, bytes })
}
