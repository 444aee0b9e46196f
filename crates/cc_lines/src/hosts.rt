//! The names of hosts in the table of the system, in what ssh knows, and in its configuration.

use crate::mark::{Mark, after, before, from};
use crate::names::{push_host, push_name};
use std::alloc::AllocError;

/// Adds the names of the hosts in `table`, the contents of `/etc/hosts`: in each line the words
/// after the address, without a comment.
///
/// # Errors
///
/// `AllocError` if an allocation fails.
pub(crate) fn push_table(lines: &mut Vec<u8>, table: &[u8]) -> Result<(), AllocError> {
    for line in table.split(|byte| Mark::Feed.is(*byte)) {
        let entry = from(Mark::Visible, before(Mark::Hash, line));
        push_names(lines, after(Mark::Blank, entry))?;
    }
    Ok(())
}

fn push_names(lines: &mut Vec<u8>, words: &[u8]) -> Result<(), AllocError> {
    for name in words.split(|byte| Mark::Blank.is(*byte)) {
        push_name(lines, name)?;
    }
    Ok(())
}

/// Adds the names of the hosts in `known`, the contents of `~/.ssh/known_hosts`. A hashed name is
/// left out, because it cannot be read, and so are a pattern, a comment, and a line that begins
/// with a marker such as `@revoked`.
///
/// # Errors
///
/// `AllocError` if an allocation fails.
pub(crate) fn push_known(lines: &mut Vec<u8>, known: &[u8]) -> Result<(), AllocError> {
    for line in known.split(|byte| Mark::Feed.is(*byte)) {
        if !matches!(line, [b'#' | b'@', ..]) {
            push_known_names(lines, before(Mark::Blank, line))?;
        }
    }
    Ok(())
}

fn push_known_names(lines: &mut Vec<u8>, names: &[u8]) -> Result<(), AllocError> {
    for name in names.split(|byte| Mark::Comma.is(*byte)) {
        push_host(lines, known_name(name))?;
    }
    Ok(())
}

// Returns the name without brackets and port, or nothing for a hashed name.
fn known_name(name: &[u8]) -> &[u8] {
    match name {
        [b'|', ..] => b"",
        [b'[', rest @ ..] => before(Mark::Bracket, rest),
        _ => name,
    }
}

/// Adds the names of the hosts in `config`, the contents of `~/.ssh/config`: the words of each line
/// that begins with `Host`, in any case, after which an `=` may follow. A pattern is left out.
///
/// # Errors
///
/// `AllocError` if an allocation fails.
pub(crate) fn push_config(lines: &mut Vec<u8>, config: &[u8]) -> Result<(), AllocError> {
    for line in config.split(|byte| Mark::Feed.is(*byte)) {
        let entry = from(Mark::Visible, line);
        if before(Mark::Setting, entry).eq_ignore_ascii_case(b"host") {
            push_config_names(lines, after(Mark::Setting, entry))?;
        }
    }
    Ok(())
}

fn push_config_names(lines: &mut Vec<u8>, names: &[u8]) -> Result<(), AllocError> {
    for name in names.split(|byte| Mark::Setting.is(*byte)) {
        push_host(lines, name)?;
    }
    Ok(())
}
