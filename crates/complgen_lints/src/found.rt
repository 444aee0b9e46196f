//! Collects what is found about one command.

ghost use Rattle.std.specs.Prelude.{◌≡◌, ◌∷◌, [], ◌++◌, IfOk, OnOk};
ghost use Rattle.complgen_lints.specs.Findings.{finding, spot_argument, spot_path};

use crate::place::{Key, TreePlace};
use cc_base::Items;
use std::alloc::{AllocError, Global};
use std::marker::Model;

/// The result of adding to a list: `AllocError` if an allocation fails.
pub(crate) type Added = Result<(), AllocError>;

/// A command, one of its subcommands, or one of its arguments. Subcommands and arguments are
/// counted from 0.
#[derive(Clone, Copy)]
pub(crate) enum Spot {
    Command,
    Child(usize),
    Argument(usize),
}

/// A premise that does not hold, or advice, with its place, which begins at a command.
#[derive(Drop)]
pub(crate) struct Finding<K> {
    pub(crate) place: TreePlace,
    pub(crate) kind: K,
}

/// Findings about one command, in the order in which they were added.
#[derive(Drop)]
pub(crate) struct Found<K> {
    alloc: Global,
    list: Items<Finding<K>>,
}

impl<K> Model for Found<K> {
    ghost use Rattle.std.specs.Prelude.{List};
    ghost use Rattle.complgen_lints.specs.declared.found.Finding.{Finding};

    ghost Value = { List (Finding K) };

    ghost view = { λ found. found.list };
}

impl<K: Drop> Found<K> {
    /// Returns an empty collector.
    pub(crate) fn new(alloc: Global) -> Found<K>
        ensures { result ≡ [] }
    {
        let list = Items::new(alloc);
        Found { alloc, list }
    }

    /// Returns the allocator for the texts of findings.
    pub(crate) fn allocator(&self) -> Global {
        self.alloc
    }

    /// Adds a finding about `key`, or about `item` of the key's list.
    pub(crate) fn note(&mut self, spot: Spot, key: Key, item: Option<usize>, kind: K) -> Added
        ensures { OnOk result (self.new ≡ self.old ++ finding spot key item kind ∷ []) }
    {
        match spot_path(self.alloc, spot) {
            Ok(command) => {
                let place = TreePlace {
                    command,
                    argument: spot_argument(spot),
                    key: Some(key),
                    item,
                };
                self.list.push(Finding { place, kind })?;
                Ok(())
            }
            Err(error) => {
                // One call here, instead of a drop of each variant.
                drop(kind);
                Err(error)
            }
        }
    }

    /// Adds a finding about `key` if `wrong` is true. Inlined, so that nothing is made if it is not.
    #[inline(always)]
    pub(crate) fn note_if(&mut self, wrong: bool, spot: Spot, key: Key, kind: K) -> Added {
        if !wrong {
            drop(kind);
            return Ok(());
        }
        self.note(spot, key, None, kind)
    }

    /// Returns the findings. Allocates nothing.
    pub(crate) fn into_vec(self) -> Vec<Finding<K>>
        ensures { result.items ≡ self }
    {
        self.list.into_vec()
    }
}

// Returns the path from a command to the command of a spot.
fn spot_path(alloc: Global, spot: Spot) -> Result<Items<usize>, AllocError>
    ensures { IfOk result (λ path. path ≡ spot_path spot) }
{
    let mut path = Items::new(alloc);
    let Spot::Child(index) = spot else {
        return Ok(path);
    };
    path.push(index)?;
    Ok(path)
}

fn spot_argument(spot: Spot) -> Option<usize>
    ensures { result ≡ spot_argument spot }
{
    match spot {
        Spot::Argument(index) => Some(index),
        _ => None,
    }
}
