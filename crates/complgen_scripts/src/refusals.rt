//! The texts that the program prints instead of its output, and the text of each error.

ghost use Rattle.std.specs.Prelude.{◌≡◌, IfOk};
ghost use Rattle.std.specs.String.{string_bytes};
ghost use Rattle.complgen_scripts.specs.Refusals.{HasText, Reports, ReportsTree, as_line, shown_line};

use cc_base::{Error, on_one_line};
use complgen_tree_file::TreeError;
use std::alloc::{AllocError, Global};
use std::borrow::CowStr;

/// A text that the program prints instead of its output: an error, a help text or the version.
#[derive(Debug, Drop)]
pub struct Refusal {
    /// The exit status: 0 for a help text or the version, 1 for an error, and 2 for words that the
    /// command line does not accept.
    pub status: u8,
    /// Exactly what is printed: on the standard output if the status is 0, or else on the standard
    /// error.
    pub text: CowStr<'static, Global>,
}

/// The text that is printed if the output cannot be written.
pub const WRITE_FAILED: &str = "write failed\n";

const OUT_OF_MEMORY: &str = "out of memory\n";

/// The text that is printed if the tree file cannot be read.
pub const UNREADABLE: &str = "tree: unreadable\n";

/// The text that is printed if a file of values cannot be read.
pub(crate) const VALUES_UNREADABLE: &str = "values: unreadable\n";

const NOT_JSON: &str = "tree: not JSON\n";

const BAD_FORM: &str = "tree: bad form\n";

const NO_COMPLETION: &str = "no completion generated\n";

const NO_ARGUMENTS: &str = "no arguments\n";

impl Refusal {
    ghost use Rattle.std.specs.Prelude.{◌≡◌};
    ghost use Rattle.complgen_scripts.specs.Refusals.{text_of};

    /// Returns a refusal with this exit status and a fixed text. Allocates nothing.
    pub fn from_static(status: u8, text: &'static str) -> Refusal
        ensures status { result.status ≡ status }
        ensures text { text_of result ≡ text.entry.now }
    {
        Refusal {
            status,
            text: CowStr::Borrowed(text),
        }
    }
}

impl From<AllocError> for Refusal {
    ghost use Rattle.complgen_scripts.specs.Refusals.{IsOutOfMemory};

    ghost from_gives = { λ _ refusal. IsOutOfMemory refusal };

    fn from(_failed: AllocError) -> Refusal {
        Refusal::from_static(1, OUT_OF_MEMORY)
    }
}

/// Returns what is printed for the `error` of a tree file.
pub(crate) fn tree_refusal(error: TreeError) -> Refusal
    ensures { ReportsTree error result }
{
    match error {
        TreeError::NotJson => Refusal::from_static(1, NOT_JSON),
        TreeError::BadForm => Refusal::from_static(1, BAD_FORM),
        TreeError::Memory => Refusal::from(AllocError),
    }
}

/// Returns what is printed for an `error` of the library: status 1 and the error's text as a line,
/// or the text of `Memory` if there is no memory for the line. A text that names a label or a shell
/// may come from a tree file or a caller, so each control character in it becomes `?`.
pub fn error_refusal(alloc: Global, error: &Error) -> Refusal
    ensures { Reports error.now result }
{
    match error {
        Error::Memory => Refusal::from(AllocError),
        Error::Write(_) => Refusal::from_static(1, WRITE_FAILED),
        Error::NoCompletion => Refusal::from_static(1, NO_COMPLETION),
        Error::NoArguments => Refusal::from_static(1, NO_ARGUMENTS),
        Error::LabelClash(_) | Error::UnknownShell(_) | Error::InvalidVariant(_) => {
            text_refusal(shown_line(alloc, error))
        }
    }
}

// Returns the text of an error as a line, with `?` for each control character.
fn shown_line(alloc: Global, error: &Error) -> Result<String, AllocError>
    ensures { IfOk result (λ line. string_bytes line ≡ shown_line error.now) }
{
    let text = error.to_string(alloc)?;
    as_line(alloc, text.as_str())
}

/// Returns `text`, which comes from outside, as a line with `?` for each control character.
///
/// # Errors
///
/// `AllocError` if an allocation fails.
pub(crate) fn as_line(alloc: Global, text: &str) -> Result<String, AllocError>
    ensures { IfOk result (λ line. string_bytes line ≡ as_line text.now) }
{
    let mut line = on_one_line(alloc, text)?;
    line.push_str("\n")?;
    Ok(line)
}

/// Returns a refusal with `text` and status 1, or the one for out of memory if `text` was not made.
pub(crate) fn text_refusal(text: Result<String, AllocError>) -> Refusal
    ensures { HasText text result }
{
    match text {
        Ok(text) => Refusal {
            status: 1,
            text: CowStr::Owned(text),
        },
        Err(failed) => Refusal::from(failed),
    }
}
