//! The texts of the flags and the child that building adds.

pub(super) const HELP_NAME: &str = "help";

pub(super) const HELP_HELP: &str = "Print help";

pub(super) const HELP_ABOUT: &str = "Print this message or the help of the given subcommand(s)";

pub(super) const VERSION_NAME: &str = "version";

pub(super) const VERSION_HELP: &str = "Print version";
