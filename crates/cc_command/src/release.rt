//! When the memory of a command that is no longer needed is released.

use std::mem::forget;

/// When memory that is no longer needed is released.
#[derive(Clone, Copy, Drop)]
pub enum Release {
    /// As soon as it is no longer needed.
    AtOnce,
    /// When the process exits. That takes fewer instructions, and suits a process that exits soon.
    AtExit,
}

/// Drops `value`, or leaves its memory in use until the process exits.
pub fn discard<T: Drop>(value: T, when: Release) {
    match when {
        Release::AtOnce => drop(value),
        Release::AtExit => forget(value),
    }
}
