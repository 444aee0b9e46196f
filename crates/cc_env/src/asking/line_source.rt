//! Sources of the lines that are the values of an argument.

ghost use Rattle.std.specs.Prelude.{◌≡◌, ℕ, IfOk, List};
ghost use Rattle.cc_arg.specs.declared.parts.ArgParts.{ArgParts as Arg};

use cc_arg::Arg;
use std::alloc::{AllocError, Global};

/// Reads the lines that are the values of an argument.
pub trait LineSource {
    // the lines that the values of an argument may be
    ghost gives: { Self → Arg → List ℕ → Type 0 };

    /// Returns the lines that are the values of `asked`.
    ///
    /// # Errors
    ///
    /// `AllocError` if an allocation fails.
    fn lines(&self, alloc: Global, asked: &Arg) -> Result<Vec<u8>, AllocError>
        ensures { IfOk result (λ lines. gives self.now asked.now lines.items) };
}

/// The output of a command, which the caller has read. An argument whose values come from a file or
/// from the system has no lines.
#[derive(Drop)]
pub struct PassedLines<'l> {
    /// The output of the command.
    pub bytes: &'l [u8],
}

impl LineSource for PassedLines<'_> {
    ghost use Rattle.cc_env.specs.WithLines.{passed_lines};

    ghost gives = { λ passed asked lines. lines ≡ passed_lines passed.bytes.now asked };

    fn lines(&self, alloc: Global, asked: &Arg) -> Result<Vec<u8>, AllocError> {
        let mut lines = Vec::new(alloc);
        if asked.get_values_from().is_some() {
            lines.extend_from_slice(self.bytes)?;
        }
        Ok(lines)
    }
}
