//! The messages about sources of values that cannot be used.

use complgen_tree_file::SourceFault;
use std::alloc::{AllocError, Global};

/// Returns the message that the source at `key` cannot be used. `found` is the value there in
/// words.
///
/// # Errors
///
/// `AllocError` if an allocation fails.
pub(crate) fn source_text(
    alloc: Global,
    fault: SourceFault,
    key: &str,
    found: &str,
) -> Result<String, AllocError> {
    match fault {
        SourceFault::NoProgram => String::from_str(
            alloc,
            "expected a program and its arguments, found an empty list",
        ),
        SourceFault::NotProgram => format!(in alloc;
            "expected a program's name or its absolute path, without `=`; found {found}"
        ),
        SourceFault::CutWord => format!(in alloc;
            "expected a word without a NUL or a vertical tab; found {found}"
        ),
        SourceFault::NotPath => format!(in alloc;
            "expected the path of a file, without a NUL; found {found}"
        ),
        SourceFault::NoSeparator => String::from_str(
            alloc,
            "expected a text that is not empty; leave the key out to split lines at a tab",
        ),
        SourceFault::SecondSource(other) => format!(in alloc;
            "an argument can't have both `{other}` and `{key}`; keep one of them"
        ),
    }
}
