// Walks along words.
ghost use Rattle.std.specs.Prelude.{◌≡◌};
ghost use Rattle.rt_shape.specs.Graphs.{node_of};

use indexmap::IndexMap;
use rt_lines::{Base, Dtv, Label};

/// The node of a variable: its base's, and a step for each letter of its word. It is found in time linear in the word.
pub fn walk(
    bases: &IndexMap<Base, u32>,
    edges: &IndexMap<(u32, Label), u32>,
    x: &Dtv,
) -> Option<u32>
    ensures { result ≡ node_of (record { count = 0; bases = bases.now.entries; edges = edges.now.entries }) x.now }
{
    let mut node = *bases.get(&x.base)?;
    for label in x.word.items() {
        node = *edges.get(&(node, *label))?;
    }
    Some(node)
}
