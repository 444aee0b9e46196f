//! The children of a command.

ghost use Rattle.std.specs.Prelude.{◌≡◌};
ghost use Rattle.std.specs.Option.{option_copied};
ghost use Rattle.cc_command.specs.Tree.{forest_of, has_nodes};
ghost use Rattle.cc_command.specs.Names.{find_child, has_child};

use crate::command::Command;
use crate::command::getters::has_name;

impl Command {
    /// Returns the children, in the order in which they were added.
    pub fn get_subcommands(&self) -> &[Command]
        ensures { forest_of result.now ≡ self.now.children }
    {
        &self.children
    }

    /// Returns whether the command has children.
    #[tactic(auto, using(crate::proofs::Forests::has_nodes_forest_of))]
    pub fn has_subcommands(&self) -> bool
        ensures { result ≡ has_nodes self.now.children }
    {
        !self.children.is_empty()
    }

    /// Returns the first child that has the word as its name or as an alias, visible or hidden.
    pub fn find_subcommand(&self, word: &str) -> Option<&Command>
        ensures { option_copied result ≡ find_child self.now.children word.now }
    {
        for child in &self.children {
            if has_name(child, word) {
                return Some(child);
            }
        }
        None
    }
}

pub(super) fn has_child(siblings: &[Command], word: &str) -> bool
    ensures { result ≡ has_child (forest_of siblings.now) word.now }
{
    for sibling in siblings {
        if has_name(sibling, word) {
            return true;
        }
    }
    false
}
