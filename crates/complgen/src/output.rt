//! Writes to the standard output through a buffer.

use cc_base::Counted;
use complgen_scripts::{Refusal, WRITE_FAILED};
use std::alloc::AllocError;
use std::io::{self, BufWriter, Printer, Write};

/// Returns the standard output with a buffer, which `flush` empties.
///
/// # Errors
///
/// `AllocError` if an allocation fails.
pub(crate) fn buffered<R: Print + AllocGlobal>(
    rt: &R,
) -> Result<Counted<BufWriter<Printer<'_, R>>>, AllocError> {
    match BufWriter::new(rt.alloc(), io::writer(rt)) {
        Ok(out) => Ok(Counted::new(out)),
        Err(_) => Err(AllocError),
    }
}

/// Prints what the buffer holds.
///
/// # Errors
///
/// A refusal with status 1 if printing fails.
pub(crate) fn flush<W: Write>(out: &mut Counted<W>) -> Result<(), Refusal> {
    match out.flush() {
        Ok(()) => Ok(()),
        Err(_) => Err(Refusal::from_static(1, WRITE_FAILED)),
    }
}
