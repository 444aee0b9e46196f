//! The keys of nodes: the part of a condition that states the path.

use cc_base::Text;
use cc_generator::{Joined, KeyScheme};
use std::alloc::{AllocError, Global};

const FIRST: Joined<'static> = Joined {
    separator: "_using_subcommand ",
};

const FURTHER: Joined<'static> = Joined {
    separator: "; and __fish_seen_subcommand_from ",
};

/// The part of a condition that states the path of a node. It is empty for the root.
#[derive(Drop)]
pub struct FishKeys;

impl KeyScheme for FishKeys {
    ghost use Rattle.cc_fish.specs.Script.{fish_key};

    ghost child_key = { λ _. fish_key };

    fn child_key(&self, alloc: Global, key: &str, name: &str) -> Result<Text, AllocError> {
        if key.is_empty() {
            return FIRST.child_key(alloc, "", name);
        }
        FURTHER.child_key(alloc, key, name)
    }
}
