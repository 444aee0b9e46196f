//! Carries out the plans of the command line over the files of the machine.

use crate::output::{buffered, flush};
use crate::{as_bytes, contents};
use cc_candidates::{Folder, RealFolder};
use cc_replies::home;
use complgen_plans::{Inputs, carry_out};
use complgen_scripts::{Plan, Refusal};
use std::alloc::AllocError;
use std::env::Env;
use std::rt::Files;

/// Carries out `plan` and prints what it writes. Returns the exit status, which is 1 if `check`
/// finds an error or a warning.
///
/// # Errors
///
/// A refusal with status 1 and the text of the error.
pub(crate) fn carry_out_plan<R: Env + Files + Print + AllocGlobal>(
    rt: &R,
    plan: &Plan,
) -> Result<u8, Refusal> {
    let tree = contents(rt, plan.tree())?;
    let values = values(rt, plan)?;
    let folder = RealFolder::new(rt, home_for(rt, plan)?);
    let inputs = Inputs {
        tree: as_bytes(&tree),
        values: as_bytes(&values),
        folder: &folder,
    };
    print(rt, plan, &inputs)
}

// Carries out `plan` over the inputs, and prints what it writes.
fn print<R: Files + Print + AllocGlobal, D: Folder>(
    rt: &R,
    plan: &Plan,
    inputs: &Inputs<'_, D>,
) -> Result<u8, Refusal> {
    let mut out = buffered(rt)?;
    let status = carry_out(rt, rt.alloc(), plan, inputs, &mut out)?;
    flush(&mut out)?;
    Ok(status)
}

// Returns the bytes of the file with values, if the plan reads one and it can be read.
fn values<R: Files + AllocGlobal>(rt: &R, plan: &Plan) -> Result<Option<Vec<u8>>, Refusal> {
    match plan.values() {
        Some(path) => contents(rt, path),
        None => Ok(None),
    }
}

// Returns the home directory of the user if the plan completes paths.
fn home_for<R: Env + AllocGlobal>(rt: &R, plan: &Plan) -> Result<Option<String>, AllocError> {
    match plan {
        Plan::Candidates(..) | Plan::CandidatesWith { .. } => home(rt),
        _ => Ok(None),
    }
}
