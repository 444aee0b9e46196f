//! Short functions that describe a command line, for the arguments and commands of most programs.

pub use cc_program::{
    ArgDescription, arg, command, flag, group, option, positional, possible_values, with_alias,
    with_arg, with_child,
};
