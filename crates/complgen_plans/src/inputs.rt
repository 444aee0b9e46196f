//! The bytes and the folder over which a plan is carried out.

/// The bytes of the files that a plan reads, and the folder in which it completes paths.
#[derive(Drop)]
pub struct Inputs<'g, D> {
    /// The bytes of the tree file, or `None` if it cannot be read.
    pub tree: Option<&'g [u8]>,
    /// The bytes of the file with values, or `None` if the plan reads none or it cannot be read.
    pub values: Option<&'g [u8]>,
    /// The folder whose paths complete the values of value hints. Its current directory is `.`.
    pub folder: &'g D,
}
