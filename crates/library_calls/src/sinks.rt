//! A writer with limited room.

use std::alloc::{AllocError, Global};
use std::io::{self, ErrorKind, Write};

// More bytes than any call writes, so that writing allocates nothing.
const HELD: usize = 1 << 16;

/// A writer that accepts a byte per call while there is room.
#[derive(Drop)]
pub(crate) struct Narrow {
    held: Vec<u8>,
    room: usize,
    spent: Option<ErrorKind>,
    most: usize,
}

impl Narrow {
    /// Returns a writer with room for `room` bytes. One more byte is an error of the kind `spent`.
    /// If there is no kind, the byte is not accepted.
    pub(crate) fn new(
        alloc: Global,
        room: usize,
        spent: Option<ErrorKind>,
    ) -> Result<Narrow, AllocError> {
        let held = Vec::with_capacity(alloc, HELD)?;
        Ok(Narrow {
            held,
            room,
            spent,
            most: 0,
        })
    }

    /// Returns the length of the longest slice that it was given.
    pub(crate) fn most(&self) -> usize {
        self.most
    }

    /// Returns the accepted bytes.
    pub(crate) fn bytes(&self) -> &[u8] {
        self.held.as_slice()
    }
}

impl Write for Narrow {
    fn write(&mut self, bytes: &[u8]) -> io::Result<usize> {
        self.most = self.most.max(bytes.len());
        let left = self.room.saturating_sub(self.held.len());
        let taken = &bytes[..bytes.len().min(left).min(1)];
        if taken.is_empty() && !bytes.is_empty() {
            return match self.spent {
                Some(kind) => Err(io::Error::from(kind)),
                None => Ok(0),
            };
        }
        self.held.extend_from_slice(taken)?;
        Ok(taken.len())
    }

    fn flush(&mut self) -> io::Result<()> {
        Ok(())
    }
}
