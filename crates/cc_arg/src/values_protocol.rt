//! The form in which a program prints values.

/// The form of the lines that a program prints, from which the values of an argument are read.
#[derive(Clone, Copy, PartialEq, Eq, Debug, Default)]
pub enum ValuesProtocol {
    /// Each line is a value with its description.
    #[default]
    Lines,
    /// The lines of a program that uses the library Cobra. The last one is a directive: a number
    /// that tells what the values are, and what to offer instead of them.
    Cobra,
}
