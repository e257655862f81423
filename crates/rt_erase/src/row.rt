// Fields of what pointers lead to.
ghost use Rattle.std.specs.Prelude.{◌≡◌, ◌<◌, All, IfOk, IfSome, length};
ghost use Rattle.std.specs.List.{AllByRecursion, slice_get};
ghost use Rattle.std.specs.Map.{lookup};
ghost use Rattle.rt_lines.specs.Equality.{label_eq};
ghost use Rattle.rt_lines.specs.Words.{IsLabel};
ghost use Rattle.rt_tree.specs.Trees.{AreOrdered, node_at};
ghost use Rattle.rt_erase.specs.Inside.Places.{end_of, is_argument};
ghost use Rattle.rt_erase.specs.Rows.{AreApart, IsRow, fields_of, pointee_of, scalar_number};

use crate::extremes::Extremes;
use crate::sorting::{keep, sort};
use rt_base::Memory;
use rt_lines::Label;
use rt_tree::Tree;
use std::alloc::Global;

/// A field of what a pointer leads to.
#[derive(Clone, Copy, PartialEq, Eq)]
pub struct Row {
    /// Where it begins, in bytes from where the pointer leads.
    pub offset: u32,
    /// Its width in bits: 8, 16 or 32.
    pub bits: u8,
    /// The node of the tree that it leads to.
    pub node: u32,
}

/// The fields of what a pointer to a node leads to: by offset, at one offset the widest alone, and none that overlaps
/// one before it or begins before the start. The error is out of memory.
pub fn fields(alloc: Global, tree: &Tree, node: u32) -> Result<Vec<Row>, Memory>
    requires { node < length tree.now }
    ensures rows { IfOk result (λ rows. rows.items ≡ fields_of (node_at tree.now node)) }
    ensures each { IfOk result (λ rows. All (IsRow (length tree.now)) rows.items) }
    ensures apart { IfOk result (λ rows. AreApart 0 rows.items) }
{
    let _size = tree.size();
    let sorted = sort(alloc, tree.edges(node))?;
    keep(alloc, sorted)
}

// Whether a label is that of an argument.
fn is_argument(label: Label) -> bool
    ensures { result ≡ is_argument label }
{
    matches!(label, Label::In(_))
}

// The end of the edge at a place, where there is one and it has the label.
fn end_at(edges: &[(Label, u32)], place: usize, label: Label) -> Option<u32>
    ensures { result ≡ end_of label (slice_get edges.now place) }
{
    if place >= edges.len() {
        return None;
    }
    let (other, to) = edges[place];
    (label == other).then_some(to)
}

// What a load leads to, found in time logarithmic in the edges: those of arguments alone come before it.
fn load_in(edges: &[(Label, u32)]) -> Option<u32>
    requires { AreOrdered edges.now }
    ensures { result ≡ lookup (label_eq Label.Load) edges.now }
{
    let place = edges.partition_point(|edge| is_argument(edge.0));
    end_at(edges, place, Label::Load)
}

// What a store leads to: its edge comes last.
fn store_in(edges: &[(Label, u32)]) -> Option<u32>
    requires ordered { AreOrdered edges.now }
    requires labels { AllByRecursion (λ edge. IsLabel edge.0) edges.now }
    ensures { result ≡ lookup (label_eq Label.Store) edges.now }
{
    end_at(edges, edges.len().saturating_sub(1), Label::Store)
}

/// What a load or a store of a node leads to, the load first, found in time logarithmic in the node's edges. It takes
/// no memory.
pub fn pointee(tree: &Tree, node: u32) -> Option<u32>
    requires { node < length tree.now }
    ensures node { result ≡ pointee_of tree.now node }
    ensures within { IfSome result (λ n. n < length tree.now) }
{
    let _size = tree.size();
    let edges = tree.edges(node);
    load_in(edges).or(store_in(edges))
}

/// The number of the name of a scalar at a node: the upper mark where that isn't the top, else the lower one where that
/// isn't the bottom, else the top. It takes no memory.
pub fn scalar(tree: &Tree, node: u32, extremes: Extremes) -> u16
    requires { node < length tree.now }
    ensures { result ≡ scalar_number extremes.top extremes.bottom (node_at tree.now node) }
{
    let (low, up) = tree.mark(node);
    if up != extremes.top {
        up
    } else if low != extremes.bottom {
        low
    } else {
        extremes.top
    }
}
