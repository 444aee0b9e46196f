//! The search for two nodes with the same label.

ghost use Rattle.std.specs.Prelude.{◌≡◌, ◌∷◌, [], ◌||◌, not, ℕ, List, map, bytes_eq, IfOk, OnOk};
ghost use Rattle.cc_bash.specs.Labels.{first_again};
ghost use Rattle.cc_bash.specs.Seen.{is_seen};

use crate::nodes::LabelledNode;
use cc_base::Text;
use std::alloc::{AllocError, Global};
use std::collections::BTreeMap;

/// Returns the label of the first node whose label an earlier node has. The time grows with the
/// number of nodes times its logarithm.
pub(crate) fn shared_label(
    alloc: Global,
    root: &str,
    nodes: &[LabelledNode<'_>],
) -> Result<Option<Text>, AllocError>
    ensures { IfOk result (λ shared. shared
        ≡ first_again [] (root.now ∷ map (λ node. node.label) nodes.now)) }
{
    let mut seen = BTreeMap::new(alloc);
    insert_label(&mut seen, root)?;
    for node in nodes {
        let label = node.label.as_str();
        if !insert_label(&mut seen, label)? {
            return Ok(Some(Text::copy_of(alloc, label)?));
        }
    }
    Ok(None)
}

// Keeps the label, and returns whether it is new.
fn insert_label<'a>(seen: &mut BTreeMap<&'a str, ()>, label: &'a str) -> Result<bool, AllocError>
    ensures new { IfOk result (λ new. new ≡ not (is_seen seen.old label.now)) }
    ensures kept { OnOk result ((word : List ℕ) →
        is_seen seen.new word ≡ (is_seen seen.old word || bytes_eq label.now word)) }
{
    Ok(seen.insert(label, ())?.is_none())
}
