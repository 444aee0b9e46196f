//! The action of an argument.

ghost use Rattle.std.specs.Prelude.{◌≡◌};
ghost use Rattle.cc_arg.specs.Action.{action_takes_values};

/// The action of an argument: what a parser does each time the argument is used.
#[derive(Clone, Copy, PartialEq, Eq, Debug)]
pub enum ArgAction {
    /// Keeps the values of the last use.
    Set,
    /// Keeps the values of all uses.
    Append,
    /// Sets the value `true`.
    SetTrue,
    /// Sets the value `false`.
    SetFalse,
    /// Counts the uses.
    Count,
    /// Shows the help: the short one for `-h`, the long one for `--help`.
    Help,
    /// Shows the short help.
    HelpShort,
    /// Shows the long help.
    HelpLong,
    /// Shows the version.
    Version,
}

impl ArgAction {
    /// Returns whether the action takes values: true only for `Set` and `Append`.
    pub fn takes_values(&self) -> bool
        ensures { result ≡ action_takes_values self.now }
    {
        matches!(self, ArgAction::Set | ArgAction::Append)
    }
}
