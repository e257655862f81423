// Printing of trees.
ghost use Rattle.std.specs.Prelude.{◌≡◌, ◌++◌, ◌∷◌, ◌<◌, [], OnOk, length, slice_index_or};
ghost use Rattle.std.specs.List.{flat_map};
ghost use Rattle.rt_tree.specs.Trees.{IsTree, node_at};
ghost use Rattle.rt_sketch.specs.Texts.{AreMarksBelow, conflict_text, edge_text, is_at_or_below, node_text, tree_text};

use rt_base::Memory;
use rt_lines::{Label, Names, Order};
use rt_texts::{print_label, print_number, print_numbered};
use rt_tree::Tree;

// Adds an edge's line.
fn push_edge(number: u32, label: Label, end: u32, out: &mut Vec<u8>) -> Result<(), Memory>
    ensures { OnOk result (out.new.items ≡ out.old.items ++ edge_text number (label, end)) }
{
    print_number(number, out)?;
    out.extend_from_slice(b" ")?;
    print_label(label, out)?;
    print_numbered(b" ", end, out)?;
    out.extend_from_slice(b"\n")
}

// Adds the lines of a node's edges.
fn push_edges(number: u32, edges: &[(Label, u32)], out: &mut Vec<u8>) -> Result<(), Memory>
    ensures { OnOk result (out.new.items ≡ out.old.items ++ flat_map (edge_text number) edges.now) }
{
    for (label, end) in edges {
        push_edge(number, *label, *end, out)?;
    }
    Ok(())
}

// Adds a space and the name of a mark.
fn push_mark(mark: u16, names: &Names, out: &mut Vec<u8>) -> Result<(), Memory>
    requires { mark < length names.now }
    ensures { OnOk result (out.new.items ≡ out.old.items ++ (32 ∷ slice_index_or names.now mark [])) }
{
    out.push(b' ')?;
    let name = &names.items()[usize::from(mark)];
    out.extend_from_slice(name.items())
}

// Whether a number is at or below another.
fn is_at_or_below(order: &Order, a: u16, b: u16) -> bool
    requires first { a < order.now.count }
    requires second { b < order.now.count }
    ensures { result ≡ is_at_or_below order.now a b }
{
    order.le(a, b)
}

// Adds a node's line.
fn push_node(
    tree: &Tree,
    number: u32,
    names: &Names,
    order: &Order,
    out: &mut Vec<u8>,
) -> Result<(), Memory>
    requires number { number < length tree.now }
    requires names { AreMarksBelow (length names.now) tree.now }
    requires order { AreMarksBelow order.now.count tree.now }
    ensures { OnOk result (out.new.items ≡ out.old.items ++ node_text names.now order.now number (node_at tree.now number)) }
{
    let (low, up) = tree.mark(number);
    print_numbered(b"node ", number, out)?;
    push_mark(low, names, out)?;
    push_mark(up, names, out)?;
    let end: &[u8] = if is_at_or_below(order, low, up) {
        b"\n"
    } else {
        b" conflict\n"
    };
    out.extend_from_slice(end)
}

/// Adds the text of a tree at the end: of each node its number, the names of its marks and, where the lower mark isn't at or
/// below the upper one, that they conflict; then its edges, each with the node's number, its label and its end. Each mark has a
/// name.
pub fn print(tree: &Tree, names: &Names, order: &Order, out: &mut Vec<u8>) -> Result<(), Memory>
    requires names { AreMarksBelow (length names.now) tree.now }
    requires order { AreMarksBelow order.now.count tree.now }
    ensures printed { OnOk result (out.new.items ≡ out.old.items ++ tree_text names.now order.now tree.now) }
    ensures tree { IsTree tree.now }
{
    for number in 0..tree.size() {
        push_node(tree, number, names, order, out)?;
        push_edges(number, tree.edges(number), out)?;
    }
    Ok(())
}
