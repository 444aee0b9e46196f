//! A visit of a node.

ghost use Rattle.std.specs.Prelude.{◌≡◌, ◌<◌, length};
ghost use Rattle.cc_generator.specs.Flat.{tree_at};
ghost use Rattle.cc_generator.specs.Meaning.{visit_of};
ghost use Rattle.cc_generator.specs.Visits.{keyed};

use crate::flat::Flat;
use cc_base::Text;
use cc_command::Command;

/// A node of a command tree under one of its keys.
#[derive(Drop)]
pub struct Visit<'a> {
    /// The key.
    pub key: Text,
    /// The node above it: its parent, or the root itself if the root is visited.
    pub above: &'a Command,
    /// The node, with everything below it.
    pub command: &'a Command,
}

/// Returns the visit of the node with a `number` under `key`. `above` is the number of the node
/// above it.
pub(crate) fn visit_at<'a>(flat: &Flat<'a>, above: usize, number: usize, key: Text) -> Visit<'a>
    requires above { above < length flat.now }
    requires number { number < length flat.now }
    ensures { visit_of result ≡ keyed key (tree_at flat.now above).node (tree_at flat.now number) }
{
    let above = flat.command(above);
    let command = flat.command(number);
    Visit {
        key,
        above,
        command,
    }
}
