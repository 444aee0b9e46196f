//! The failures of a program.

ghost use Rattle.std.specs.Prelude.{◌≡◌};
ghost use Rattle.cc_base.specs.declared.error.Error.TheVariants.{Memory};
ghost use Rattle.cc_program.specs.declared.failure.Failure.TheVariants.{Library};

use cc_base::Error;
use std::alloc::{AllocError, AllocFailed};
use std::{fmt, io};

/// The failure of a program whose own work fails with `E`.
#[derive(Debug, Drop)]
pub enum Failure<E> {
    /// The words could not be read: memory ran out, or one of them is not UTF-8.
    Words(io::Error),
    /// A call of this library failed.
    Library(Error),
    /// A help text, the version, or a message about the words could not be printed.
    Print(io::Error),
    /// The program's own work failed.
    Own(E),
}

impl<E: fmt::Display> fmt::Display for Failure<E> {
    ghost use Rattle.cc_program.specs.FailureText.{failure_text};

    ghost output = { failure_text E.output };

    fn fmt<W: fmt::Write>(&self, f: &mut fmt::Formatter<W>) -> fmt::Result {
        match self {
            Failure::Words(error) => fmt::Display::fmt(error, f),
            Failure::Library(error) => fmt::Display::fmt(error, f),
            Failure::Print(error) => fmt::Display::fmt(error, f),
            Failure::Own(error) => fmt::Display::fmt(error, f),
        }
    }
}

impl<E: fmt::Debug + fmt::Display + Drop> std::error::Error for Failure<E> {}

impl<E> From<Error> for Failure<E> {
    ghost from_gives = { λ error failure. failure ≡ Library error };

    fn from(error: Error) -> Failure<E> {
        Failure::Library(error)
    }
}

impl<E> From<AllocError> for Failure<E> {
    ghost from_gives = { λ _ failure. failure ≡ Library Memory };

    fn from(_failure: AllocError) -> Failure<E> {
        Failure::Library(Error::Memory)
    }
}

impl<T: Drop, E> From<AllocFailed<T>> for Failure<E> {
    ghost from_gives = { λ _ failure. failure ≡ Library Memory };

    fn from(_failure: AllocFailed<T>) -> Failure<E> {
        Failure::Library(Error::Memory)
    }
}
