//! The end of a program.

ghost use Rattle.std.specs.Prelude.{◌≡◌};
ghost use Rattle.std.specs.Process.{exit_status};
ghost use Rattle.cc_program.specs.Statuses.{status_after};

use std::fmt::Display;
use std::process::ExitCode;

/// Returns the status with which the program ends: that of `ended`, or 1 if it failed. The error is
/// then printed to standard error, after `name` and a colon. A print that fails is passed over.
pub fn end<R: Eprint, E: Display + Drop>(rt: &R, name: &str, ended: Result<ExitCode, E>) -> ExitCode
    ensures { exit_status result ≡ status_after ended }
{
    match ended {
        Ok(status) => status,
        Err(error) => {
            let _ = eprintln!(rt; "{name}: {error}");
            ExitCode::FAILURE
        }
    }
}
