//! Writes a script for `./complgen`, which compiles this program without a proof.
//!
//! The first word is the directory of the caller, where a relative path of a tree file begins. The
//! others are `script`, `--shell SHELL`, `--bin NAME` and the tree file, in any order after `script`.
#![tactic(auto)]

use cc_base::Counted;
use cc_command::Release;
use complgen_scripts::{Refusal, script};
use std::alloc::AllocError;
use std::convert::AsStr;
use std::env::{self, Env};
use std::process::ExitCode;
use std::rt::Files;
use std::{fs, io};

const NOT_UTF8: &str = "words: not UTF-8\n";

const NEEDS_PROOF: &str = concat!(
    "complgen: without a proof only `script --shell SHELL --bin NAME TREE` runs: ",
    "call `./complgen --prove` first\n"
);

// What the words of `script` name.
#[derive(Clone, Copy)]
struct Wanted<'w> {
    shell: &'w str,
    bin: &'w str,
    tree: &'w str,
}

fn main(rt: HostRuntime) -> ExitCode {
    match print_script(&rt) {
        Ok(()) => ExitCode::SUCCESS,
        Err(refusal) => {
            let _ = rt.eprint(refusal.text.as_str());
            ExitCode::from(refusal.status)
        }
    }
}

// Prints the script that the words ask for.
fn print_script<R: Env + Files + Print + AllocGlobal>(rt: &R) -> Result<(), Refusal> {
    let Ok(words) = env::args(rt) else {
        return Err(Refusal::from_static(2, NOT_UTF8));
    };
    let words: Vec<String> = words.collect(rt.alloc())?;
    let Some((folder, wanted)) = read_words(words.as_slice()) else {
        return Err(Refusal::from_static(1, NEEDS_PROOF));
    };
    let file = contents(rt, folder, wanted.tree)?;
    let file = file.as_ref().map(Vec::as_slice);
    let mut out = Counted::new(io::writer(rt));
    script(
        rt.alloc(),
        wanted.shell,
        wanted.bin,
        file,
        Release::AtExit,
        &mut out,
    )
}

// Returns the directory of the caller and what the words of `script` name, or `None` for other words.
fn read_words(words: &[String]) -> Option<(&str, Wanted<'_>)> {
    let [_, folder, command, words @ ..] = words else {
        return None;
    };
    let (tree, one, other) = match words {
        [tree, a, b, c, d] if !is_option(tree) => (tree, (a, b), (c, d)),
        [a, b, tree, c, d] if !is_option(tree) => (tree, (a, b), (c, d)),
        [a, b, c, d, tree] if !is_option(tree) => (tree, (a, b), (c, d)),
        _ => return None,
    };
    let (shell, bin) = match (command.as_str(), one.0.as_str(), other.0.as_str()) {
        ("script", "--shell", "--bin") => (one.1, other.1),
        ("script", "--bin", "--shell") => (other.1, one.1),
        _ => return None,
    };
    if is_option(shell) || is_option(bin) {
        return None;
    }
    let wanted = Wanted {
        shell: shell.as_str(),
        bin: bin.as_str(),
        tree: tree.as_str(),
    };
    Some((folder.as_str(), wanted))
}

fn is_option(word: &String) -> bool {
    word.as_str().starts_with('-')
}

// Returns the bytes of the file at `path`, or `None` if it cannot be read. A relative path begins
// in `folder`.
fn contents<R: Files + AllocGlobal>(
    rt: &R,
    folder: &str,
    path: &str,
) -> Result<Option<Vec<u8>>, AllocError> {
    let mut whole = String::new(rt.alloc());
    if !path.starts_with('/') {
        whole.push_str(folder)?;
        whole.push_str("/")?;
    }
    whole.push_str(path)?;
    Ok(fs::read(rt, whole.as_str()).ok())
}
