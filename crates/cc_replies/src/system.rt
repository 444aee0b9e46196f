//! Asks the system for the words and environment variables of the program.

ghost use Rattle.std.specs.Prelude.{◌≡◌, IfOk, IfSome, map, string_bytes};
ghost use Rattle.cc_replies.specs.Variables.{AreNamed};

use crate::environment::EnvValues;
use std::alloc::AllocError;
use std::env::{self, Env, VarError};
use std::io;
use std::path::PathBuf;

/// Returns the words of the command line. The first is the program's name.
///
/// # Errors
///
/// - `OutOfMemory` if an allocation fails.
/// - `InvalidData` if a word is not UTF-8.
//
// There is no clause: the standard library states nothing of the words that it returns.
pub fn words<R: Env + AllocGlobal>(rt: &R) -> io::Result<Vec<String>> {
    Ok(env::args(rt)?.collect(rt.alloc())?)
}

/// Returns the values of these environment variables, without those that are not set or not UTF-8.
///
/// # Errors
///
/// `AllocError` if an allocation fails.
pub fn variables<R: Env + AllocGlobal>(rt: &R, names: &[&str]) -> Result<EnvValues, AllocError>
    ensures { IfOk result (λ values. AreNamed (map (λ name. name.now) names.now) values) }
{
    let mut found = Vec::new(rt.alloc());
    for name in names {
        let Some(variable) = variable(rt, name)? else {
            continue;
        };
        found.push(variable)?;
    }
    Ok(EnvValues::new(found))
}

// Returns the name and the value of one variable, if it is set and UTF-8.
fn variable<R: Env + AllocGlobal>(
    rt: &R,
    name: &str,
) -> Result<Option<(String, String)>, AllocError>
    ensures { IfOk result (λ found. IfSome found (λ variable. string_bytes variable.0 ≡ name.now)) }
{
    match env::var(rt, name) {
        Ok(value) => Ok(Some((String::from_str(rt.alloc(), name)?, value))),
        Err(VarError::OutOfMemory) => Err(AllocError),
        Err(_) => Ok(None),
    }
}

/// Returns the home directory of the user, if the environment names one that is UTF-8 and not
/// empty.
///
/// # Errors
///
/// `AllocError` if an allocation fails.
//
// There is no clause: the standard library states nothing of the directory that it returns.
pub fn home<R: Env + AllocGlobal>(rt: &R) -> Result<Option<String>, AllocError> {
    match env::home_dir(rt) {
        Ok(home) => Ok(home.map(PathBuf::into_string)),
        Err(error) if error.kind() == io::ErrorKind::OutOfMemory => Err(AllocError),
        Err(_) => Ok(None),
    }
}
