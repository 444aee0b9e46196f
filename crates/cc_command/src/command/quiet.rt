//! The check that possible values are quiet: a bash script can then contain them unchanged.

ghost use Rattle.std.specs.Prelude.{◌≡◌};
ghost use Rattle.std.specs.List.{list_all};
ghost use Rattle.cc_command.specs.Tree.{forest_of};
ghost use Rattle.cc_command.specs.Quiet.{are_quiet_values, is_quiet_argument, is_quiet_byte};
ghost use Rattle.cc_command.specs.Quiet.{is_quiet_forest, is_quiet_node, is_quiet_tree};
ghost use Rattle.cc_command.specs.Quiet.{is_quiet_value};

use crate::command::Command;
use crate::node::Node;
use cc_arg::{Arg, PossibleValue, possible_values};

impl Command {
    /// Returns whether each possible value in the tree is quiet, including hidden ones. A quiet
    /// value is not empty and consists of ASCII letters, digits and `+-./:@_,=`. A bash script
    /// contains possible values unchanged. The script of a plain tree reads back completely if they
    /// are quiet.
    ///
    /// The possible values of an argument count only if it takes values. Allocates nothing.
    #[cycle(quiet)]
    pub fn has_quiet_values(&self) -> bool
        ensures { result ≡ is_quiet_tree self.now }
    {
        is_quiet_node(&self.node) && is_quiet_forest(&self.children)
    }
}

#[cycle(quiet)]
fn is_quiet_forest(siblings: &[Command]) -> bool
    ensures { result ≡ is_quiet_forest (forest_of siblings.now) }
{
    for sibling in siblings {
        if !sibling.has_quiet_values() {
            return false;
        }
    }
    true
}

fn is_quiet_node(node: &Node) -> bool
    ensures { result ≡ is_quiet_node node.now }
{
    for argument in node.arguments.as_slice() {
        if !is_quiet_argument(argument) {
            return false;
        }
    }
    true
}

fn is_quiet_argument(argument: &Arg) -> bool
    ensures { result ≡ is_quiet_argument argument.now }
{
    match possible_values(argument) {
        Some(values) => are_quiet_values(values),
        None => true,
    }
}

fn are_quiet_values(values: &[PossibleValue]) -> bool
    ensures { result ≡ list_all (λ value. is_quiet_value value.name) values.now }
{
    for value in values {
        if !is_quiet_value(value.get_name()) {
            return false;
        }
    }
    true
}

/// Returns whether a possible value of this name is quiet: it is not empty, and consists of ASCII
/// letters, digits and `+-./:@_,=`. This is a free function, so that `clap_complete` does not
/// re-export it.
pub fn is_quiet_value(name: &str) -> bool
    ensures { result ≡ is_quiet_value name.now }
{
    !name.is_empty() && are_quiet_bytes(name.as_bytes())
}

fn are_quiet_bytes(bytes: &[u8]) -> bool
    ensures { result ≡ list_all is_quiet_byte bytes.now }
{
    for byte in bytes {
        if !is_quiet_byte(*byte) {
            return false;
        }
    }
    true
}

fn is_quiet_byte(byte: u8) -> bool
    ensures { result ≡ is_quiet_byte byte }
{
    byte.is_ascii_alphanumeric()
        || matches!(
            byte,
            b'+' | b'-' | b'.' | b'/' | b':' | b'@' | b'_' | b',' | b'='
        )
}
