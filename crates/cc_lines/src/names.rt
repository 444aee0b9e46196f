//! The lines of names.

use std::alloc::AllocError;

/// Adds a line with the name, unless the name is empty.
pub(crate) fn push_name(lines: &mut Vec<u8>, name: &[u8]) -> Result<(), AllocError> {
    if name.is_empty() {
        return Ok(());
    }
    lines.extend_from_slice(name)?;
    Ok(lines.extend_from_slice(b"\n")?)
}

/// Adds a line with the name of a program. A name with a control character, such as a line feed, is
/// left out, so that each line is one of the names.
pub(crate) fn push_program(lines: &mut Vec<u8>, name: &str) -> Result<(), AllocError> {
    for byte in name.as_bytes() {
        if *byte < b' ' || *byte == 0x7f {
            return Ok(());
        }
    }
    push_name(lines, name.as_bytes())
}

/// Adds a line with the name of a host, unless it is a pattern or empty.
pub(crate) fn push_host(lines: &mut Vec<u8>, name: &[u8]) -> Result<(), AllocError> {
    for byte in name {
        if matches!(*byte, b'*' | b'?' | b'!') {
            return Ok(());
        }
    }
    push_name(lines, name)
}
