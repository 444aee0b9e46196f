//! The library's error.

ghost use Rattle.std.specs.Prelude.{◌≡◌, Some};
ghost use Rattle.cc_base.specs.ErrorText.{error_text};
ghost use Rattle.cc_base.specs.declared.error.Error.TheVariants.{Memory as OutOfMemory, Write as FailedWrite};

use crate::text::Text;
use std::alloc::{AllocError, AllocFailed};
use std::fmt;
use std::io::ErrorKind;

/// The reason why a call of this library failed.
#[derive(Debug, Drop)]
pub enum Error {
    /// An allocation failed.
    Memory,
    /// A put or a flush of the sink failed during the call. The field is the kind of its error.
    Write(ErrorKind),
    /// Two commands have the same label in a bash script. The field is the label.
    LabelClash(Text),
    /// The index of the word to complete is out of range.
    NoCompletion,
    /// The list of arguments is empty.
    NoArguments,
    /// No shell has the requested name. The field is the whole message.
    UnknownShell(Text),
    /// The text is not the name of a shell. The field is the whole message.
    InvalidVariant(Text),
}

impl fmt::Display for Error {
    ghost output = { λ error. Some (error_text error) };

    fn fmt<W: fmt::Write>(&self, f: &mut fmt::Formatter<W>) -> fmt::Result {
        match self {
            Error::Memory => f.write_str("out of memory"),
            Error::Write(_) => f.write_str("write failed"),
            Error::LabelClash(label) => {
                let label = label.as_str();
                write!(f, "two commands share the label {label}")
            }
            Error::NoCompletion => f.write_str("no completion generated"),
            Error::NoArguments => f.write_str("no arguments"),
            Error::UnknownShell(text) => f.write_str(text.as_str()),
            Error::InvalidVariant(text) => f.write_str(text.as_str()),
        }
    }
}

impl std::error::Error for Error {}

impl From<AllocError> for Error {
    ghost from_gives = { λ _ error. error ≡ OutOfMemory };

    fn from(_failure: AllocError) -> Error {
        Error::Memory
    }
}

impl<T: Drop> From<AllocFailed<T>> for Error {
    ghost from_gives = { λ _ error. error ≡ OutOfMemory };

    fn from(_failure: AllocFailed<T>) -> Error {
        Error::Memory
    }
}

impl From<ErrorKind> for Error {
    ghost from_gives = { λ kind error. error ≡ FailedWrite kind };

    fn from(kind: ErrorKind) -> Error {
        Error::Write(kind)
    }
}
