//! A word of a command line.

/// A word of a command line, by its index.
#[derive(Clone, Copy)]
pub(crate) struct WordAt<'w> {
    /// The words of the command line.
    pub words: &'w [String],
    /// The index of the word, counted from 0.
    pub index: usize,
}
