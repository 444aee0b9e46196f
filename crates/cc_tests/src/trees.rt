//! A small tree, as a tree file and as a command.

use cc_command::Release;
use clap_complete::Error;
use clap_complete::command::Command;
use complgen_tree_file::read_tree;
use std::alloc::Global;

/// A tree file: `app` with a child `run`, which is also shown as `r` and has a child `job`. Nothing
/// is generated.
pub(crate) const NESTED: &str = r#"{"name": "app", "disable_help_flag": true,
    "disable_help_subcommand": true, "subcommands": [
        {"name": "run", "disable_help_flag": true, "disable_help_subcommand": true,
            "visible_aliases": ["r"], "subcommands": [
                {"name": "job", "disable_help_flag": true, "disable_help_subcommand": true}]}]}"#;

/// Reads the command in the tree file `text`. Whatever fails, the error is `Memory`.
pub(crate) fn read(alloc: Global, text: &str) -> Result<Command, Error> {
    match read_tree(alloc, text.as_bytes(), Release::AtOnce) {
        Ok(command) => Ok(command),
        Err(_) => Err(Error::Memory),
    }
}
