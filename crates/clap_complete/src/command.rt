//! The description of a command line: a tree of commands with their arguments.

pub use cc_arg::{
    Arg, ArgAction, LongAndVisibleAliases, PossibleValue, ShortAndVisibleAliases, ValueHint,
    ValueRange, ValuesProtocol,
};
pub use cc_base::{Text, is_plain_name};
pub use cc_command::{Arguments, Command, NameAndVisibleAliases};
