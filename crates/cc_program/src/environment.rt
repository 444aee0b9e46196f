//! Reads what a completion depends on besides the words, if a shell requests one: environment
//! variables, the home directory and the current directory.

ghost use Rattle.std.specs.Prelude.{◌≡◌, IfOk, None, codes};
ghost use Rattle.cc_replies.specs.Environment.{value_of};

use cc_replies::{EnvValues, home, variables};
use std::alloc::AllocError;
use std::env::{self, Env};
use std::path::PathBuf;

// The variable by which a shell requests something.
const REQUEST: &str = "COMPLETE";

// The variable that only the safe registration sets.
const SAFE: &str = "_COMPLGEN_VALUES";

// The variables of a request by the safe registration: those that it sets, the one by which a user
// turns commands off, and the one that lists the directories of programs.
const SAFE_VARIABLES: [&str; 9] = [
    REQUEST,
    SAFE,
    "_COMPLGEN_ASCII",
    "_COMPLGEN_KEPT",
    "_COMPLGEN_QUOTE",
    "_COMPLGEN_WIDTH",
    "_COMPLGEN_SPACE",
    "COMPLGEN_COMMANDS",
    "PATH",
];

// The variables of any other request: those that a registration of the original's form sets.
const OTHER_VARIABLES: [&str; 3] = [REQUEST, "_CLAP_COMPLETE_INDEX", "_CLAP_IFS"];

/// Returns the environment variables that a completion depends on. If no shell requests something,
/// `COMPLETE` is not among them, and no other is of use.
///
/// # Errors
///
/// `AllocError` if an allocation fails.
pub(crate) fn environment<R: Env + AllocGlobal>(rt: &R) -> Result<EnvValues, AllocError> {
    let requested = variables(rt, &[REQUEST, SAFE])?;
    if requested.get(REQUEST).is_none() {
        return Ok(requested);
    }
    if requested.asks_safely() {
        return variables(rt, &SAFE_VARIABLES);
    }
    variables(rt, &OTHER_VARIABLES)
}

/// Returns the user's home directory and the current directory, as far as they are known. Without a
/// request in `variables`, reads neither.
///
/// # Errors
///
/// `AllocError` if an allocation fails.
pub(crate) fn directories<R: Env + AllocGlobal>(
    rt: &R,
    variables: &EnvValues,
) -> Result<(Option<String>, Option<PathBuf>), AllocError>
    ensures { IfOk result (λ found. value_of (codes "COMPLETE") variables.now ≡ None
        → found ≡ (None, None)) }
{
    if variables.get(REQUEST).is_none() {
        return Ok((None, None));
    }
    Ok((home(rt)?, env::current_dir(rt).ok()))
}
