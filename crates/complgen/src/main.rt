//! `complgen`: completion scripts, registrations and candidates for a program that a tree file
//! describes.
#![tactic(auto)]

mod live;
mod output;
mod plans;

use crate::plans::carry_out_plan;
use cc_replies::variables;
use complgen_command_line::{is_shell_request, plan};
use complgen_scripts::{Refusal, WRITE_FAILED};
use std::alloc::AllocError;
use std::convert::AsStr;
use std::env::{self, Env};
use std::fs::OpenFile;
use std::io::{Input, Read};
use std::process::ExitCode;
use std::rt::Files;
use std::{fs, io};

const NOT_UTF8: &str = "words: not UTF-8\n";

// The most room that is made for a file before it is read. The size that a system states need not be
// true.
const MOST_ROOM: u64 = 1 << 24;

fn main(rt: HostRuntime) -> ExitCode {
    match respond(&rt) {
        Ok(status) => ExitCode::from(status),
        Err(refusal) => ExitCode::from(report(&rt, &refusal)),
    }
}

// Replies to a shell, or carries out what the command line asks for. Returns the exit status. Most
// environment variables are read only for a reply.
fn respond<R: Env + Files + Input + Print + Eprint + AllocGlobal>(rt: &R) -> Result<u8, Refusal> {
    let words = words(rt)?;
    let env = variables(rt, &["COMPLETE"])?;
    if is_shell_request(&env, words.as_slice()) {
        return live::complete(rt, words);
    }
    let plan = plan(rt.alloc(), words.as_slice())?;
    carry_out_plan(rt, &plan)
}

// Returns the words of the command line. The first is the program's name.
fn words<R: Env + AllocGlobal>(rt: &R) -> Result<Vec<String>, Refusal> {
    match env::args(rt) {
        Ok(words) => Ok(words.collect(rt.alloc())?),
        Err(error) if error.kind() == io::ErrorKind::OutOfMemory => Err(Refusal::from(AllocError)),
        Err(_) => Err(Refusal::from_static(2, NOT_UTF8)),
    }
}

// Returns the bytes of the file at `path`, or `None` if it cannot be read.
fn contents<R: Files + AllocGlobal>(rt: &R, path: &str) -> Result<Option<Vec<u8>>, Refusal> {
    match read_whole(rt, path) {
        Ok(bytes) => Ok(Some(bytes)),
        Err(error) if error.kind() == io::ErrorKind::OutOfMemory => Err(Refusal::from(AllocError)),
        Err(_) => Ok(None),
    }
}

// Returns the bytes of a file that could be read.
fn as_bytes(contents: &Option<Vec<u8>>) -> Option<&[u8]> {
    match contents {
        Some(bytes) => Some(bytes.as_slice()),
        None => None,
    }
}

// Returns the bytes of the file at `path`. The list has room for them from the start, because
// growing it takes 3 % of the instructions of a script.
fn read_whole<R: Files + AllocGlobal>(rt: &R, path: &str) -> io::Result<Vec<u8>> {
    let mut file = fs::open(rt, path)?;
    let size = match file.metadata() {
        Ok(about) => about.len(),
        Err(_) => 0,
    };
    // One byte more shows the end of the file without another growth.
    let room = size.min(MOST_ROOM) as usize + 1;
    let mut bytes = Vec::with_capacity(rt.alloc(), room)?;
    file.read_to_end(&mut bytes)?;
    Ok(bytes)
}

// Prints the text of a refusal, and returns the exit status.
fn report<R: Print + Eprint>(rt: &R, refusal: &Refusal) -> u8 {
    let text = refusal.text.as_str();
    if refusal.status == 0 {
        if rt.print(text).is_ok() {
            return 0;
        }
        let _ = rt.eprint(WRITE_FAILED);
        return 1;
    }
    let _ = rt.eprint(text);
    refusal.status
}
