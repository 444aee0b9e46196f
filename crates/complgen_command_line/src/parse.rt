//! Reads the values of arguments from a parse, and the text to print if the parse failed.

ghost use Rattle.std.specs.Prelude.{◌≡◌, IfOk, IsSome, Some, option_map, string_bytes};
ghost use Rattle.std.specs.Option.{option_copied};
ghost use Rattle.clap.specs.Words.{first_of, found_of, kind_of, rows_of};
ghost use Rattle.complgen_command_line.specs.Plans.{is_set, is_true};
ghost use Rattle.complgen_command_line.specs.Refusals.{ReportsKind};

use clap::ArgMatches;
use clap::error::{Error, ErrorKind};
use complgen_scripts::Refusal;
use std::alloc::{AllocError, Global};
use std::borrow::CowStr;

/// Returns a copy of the value of the argument `id`.
///
/// # Errors
///
/// `AllocError` if an allocation fails.
pub fn value(alloc: Global, values: &ArgMatches<'_>, id: &str) -> Result<String, AllocError>
    requires { IsSome (first_of id.now (rows_of (found_of values.now))) }
    ensures { IfOk result (λ value. first_of id.now (rows_of (found_of values.now))
        ≡ Some (string_bytes value)) }
{
    String::from_str(alloc, text(values, id))
}

/// Returns the value of the argument `id`.
pub fn text<'a>(values: &ArgMatches<'a>, id: &str) -> &'a str
    requires { IsSome (first_of id.now (rows_of (found_of values.now))) }
    ensures { first_of id.now (rows_of (found_of values.now)) ≡ Some result.now }
{
    values.get_str(id).unwrap()
}

/// Returns a copy of the value of the argument `id`, or `None` if it has none.
///
/// # Errors
///
/// `AllocError` if an allocation fails.
pub fn optional(
    alloc: Global,
    values: &ArgMatches<'_>,
    id: &str,
) -> Result<Option<String>, AllocError>
    ensures { IfOk result (λ copy. option_map string_bytes copy
        ≡ first_of id.now (rows_of (found_of values.now))) }
{
    match values.get_str(id) {
        Some(text) => Ok(Some(String::from_str(alloc, text)?)),
        None => Ok(None),
    }
}

/// Returns whether the flag `id` is set. Its value is then the text `true`.
pub fn flag(values: &ArgMatches<'_>, id: &str) -> bool
    ensures { result ≡ is_set id.now (rows_of (found_of values.now)) }
{
    is_true(values.get_str(id))
}

fn is_true(value: Option<&str>) -> bool
    ensures { result ≡ is_true (option_copied value.entry) }
{
    match value {
        Some(value) => value == "true",
        None => false,
    }
}

/// Returns what is printed for the `error` of a parse.
pub fn refusal_of(alloc: Global, error: &Error) -> Refusal
    ensures { ReportsKind (kind_of error.now) result }
{
    if matches!(error.kind(), ErrorKind::OutOfMemory) {
        return Refusal::from(AllocError);
    }
    let status = if error.use_stderr() { 2 } else { 0 };
    match error.to_string(alloc) {
        Ok(text) => Refusal {
            status,
            text: CowStr::Owned(text),
        },
        Err(failed) => Refusal::from(failed),
    }
}
