//! The value hint of an argument.

/// The kind of values that an argument takes, from which a shell chooses what to offer.
#[derive(Clone, Copy, PartialEq, Eq, Hash, Debug, Default)]
pub enum ValueHint {
    /// Nothing is known, and the shell completes by its default.
    #[default]
    Unknown,
    /// A value of another kind than those below, for which nothing is offered.
    Other,
    /// Any existing path.
    AnyPath,
    /// A path to a file.
    FilePath,
    /// A path to a directory.
    DirPath,
    /// A path to an executable file.
    ExecutablePath,
    /// The name of a command, without arguments.
    CommandName,
    /// A command line in one value.
    CommandString,
    /// A command and its arguments, each as one value.
    CommandWithArguments,
    /// The name of a user.
    Username,
    /// The name of a host.
    Hostname,
    /// A complete web address.
    Url,
    /// An email address.
    EmailAddress,
}
