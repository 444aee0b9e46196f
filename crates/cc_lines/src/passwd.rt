//! The users of the system.

use crate::mark::{Mark, after, before};
use std::alloc::{AllocError, Global};

/// Returns the names of the users in `passwd`, the contents of `/etc/passwd`, each with the full
/// name as the description. A line without a colon is no user, nor is a comment, or a line of NIS,
/// which begins with `+` or `-`.
///
/// # Errors
///
/// `AllocError` if an allocation fails.
pub(crate) fn users(alloc: Global, passwd: &[u8]) -> Result<Vec<u8>, AllocError> {
    let mut lines = Vec::new(alloc);
    for line in passwd.split(|byte| Mark::Feed.is(*byte)) {
        push_user(&mut lines, line)?;
    }
    Ok(lines)
}

// Adds a line with the name of a user and the full name, if the line has a user.
fn push_user(lines: &mut Vec<u8>, line: &[u8]) -> Result<(), AllocError> {
    let name = before(Mark::Colon, line);
    if name.len() == line.len() || matches!(name, [] | [b'+' | b'-' | b'#', ..]) {
        return Ok(());
    }
    lines.extend_from_slice(name)?;
    lines.extend_from_slice(b"\t")?;
    lines.extend_from_slice(full_name(line))?;
    Ok(lines.extend_from_slice(b"\n")?)
}

// Returns the fifth field up to its first comma. A phone number may follow the comma.
fn full_name(line: &[u8]) -> &[u8] {
    let rest = after(Mark::Colon, after(Mark::Colon, line));
    let rest = after(Mark::Colon, after(Mark::Colon, rest));
    before(Mark::Comma, before(Mark::Colon, rest))
}
