//! Runs the cases in documents: command lines and their expected output.
//!
//! The arguments are the names of documents. For each document, the program prints the actual
//! output of each failed case, and then the number of cases and of failed cases. The exit status is
//! 0 if none failed.
#![tactic(auto)]

mod document;
mod matching;
mod programs;

use crate::document::{Case, Document};
use crate::matching::holds;
use crate::programs::run_line;
use cc_base::Error;
use std::env::{self, Env};
use std::process::ExitCode;
use std::rt::Files;
use std::{fs, io};

fn main(rt: HostRuntime) -> ExitCode {
    match failures(&rt) {
        Ok(0) => ExitCode::SUCCESS,
        _ => ExitCode::FAILURE,
    }
}

// Runs the cases of each document that an argument names, and returns the number of failed cases.
fn failures<R: Env + Files + Print + AllocGlobal>(rt: &R) -> io::Result<usize> {
    let mut all = 0;
    for name in env::args(rt)?.skip(1) {
        all = usize::saturating_add(all, failures_of(rt, name.as_str())?);
    }
    Ok(all)
}

// Runs the cases of the document with this name, prints the number of cases and of failed cases,
// and returns the latter.
fn failures_of<R: Files + Print + AllocGlobal>(rt: &R, name: &str) -> io::Result<usize> {
    let text = fs::read_to_string(rt, name)?;
    let document = Document::read(rt.alloc(), text.as_str())?;
    let failed = failures_in(rt, &document)?;
    let count = document.cases.len();
    println!(rt; "{name}: {count} cases, {failed} failed")?;
    Ok(failed)
}

// Runs the cases of a document. Returns the number of failed cases, plus one for each line that is
// not read.
fn failures_in<R: Files + Print + AllocGlobal>(rt: &R, document: &Document) -> io::Result<usize> {
    for line in &document.strays {
        println!(rt; "not read: {line}")?;
    }
    let mut failed = document.strays.len();
    for case in &document.cases {
        if !is_kept(rt, document, case)? {
            failed = failed.saturating_add(1);
        }
    }
    Ok(failed)
}

// Runs a case, and prints the actual output if it fails. Returns whether it passed.
fn is_kept<R: Files + Print + AllocGlobal>(
    rt: &R,
    document: &Document,
    case: &Case,
) -> io::Result<bool> {
    let alloc = rt.alloc();
    let Ok(outcome) = run_line(rt, alloc, document, case.command.as_str()) else {
        println!(rt; "{}: {}\nout of memory", case.title, case.command)?;
        return Ok(false);
    };
    if outcome.status == case.status && holds(alloc, case.wanted.as_slice(), &outcome.text)? {
        return Ok(true);
    }
    println!(rt;
        "{}\n$ {}\n? {}\n{}",
        case.title, case.command, outcome.status, outcome.text
    )?;
    Ok(false)
}
