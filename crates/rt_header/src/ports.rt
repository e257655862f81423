// Which nodes arguments and results lead to.
ghost use Rattle.std.specs.Prelude.{◌≡◌, ◌∷◌, ◌++◌, ◌<◌, [], IfOk, List, OnOk, ℕ, length};
ghost use Rattle.rt_lines.specs.declared.label.Label.{Label};
ghost use Rattle.std.specs.List.{AllByRecursion};
ghost use Rattle.std.specs.Map.{lookup};
ghost use Rattle.rt_lines.specs.declared.label.Label.TheVariants.{Out};
ghost use Rattle.rt_lines.specs.Equality.{label_eq};
ghost use Rattle.rt_lines.specs.Words.{IsLabel, IsLoc};
ghost use Rattle.rt_tree.specs.Trees.{IsEdge};
ghost use Rattle.rt_header.specs.Inside.Ports.{AreArguments, IsNoted, index_of};

use rt_base::Memory;
use rt_lines::{Label, Loc};
use std::alloc::Global;

// The index of an argument's place: the registers, then the words of the stack.
fn index(loc: Loc) -> usize
    requires { IsLoc loc }
    ensures index { result ≡ index_of loc }
    ensures within { result < 16392 }
{
    match loc {
        Loc::Arg(number) => usize::from(number),
        Loc::Stack(offset) => 8 + (offset / 4) as usize,
    }
}

// Notes the node of an argument by its index, unless there is one.
fn note(nodes: &mut Vec<Option<u32>>, index: usize, node: u32) -> Result<(), Memory>
    requires { index < 16392 }
    ensures { OnOk result (IsNoted nodes.old.items nodes.new.items index node) }
{
    if nodes.len() <= index {
        nodes.resize(index + 1, None)?;
    }
    if nodes[index].is_none() {
        nodes[index] = Some(node);
    }
    Ok(())
}

// Notes the node of an edge, if that is one of an argument.
fn note_edge(nodes: &mut Vec<Option<u32>>, label: Label, node: u32) -> Result<(), Memory>
    requires { IsLabel label }
    ensures { OnOk result ((edges : List (Label × ℕ)) → AreArguments edges nodes.old.items →
        AreArguments (edges ++ (label, node) ∷ []) nodes.new.items) }
{
    match label {
        Label::In(loc) => note(nodes, index(loc), node),
        Label::Out(_) | Label::Load | Label::Store | Label::Field(_, _) => Ok(()),
    }
}

// The nodes that arguments lead to by edges, by index, up to the last one that there is.
pub(crate) fn arguments(alloc: Global, edges: &[(Label, u32)]) -> Result<Vec<Option<u32>>, Memory>
    requires { AllByRecursion (IsEdge 4294967296) edges.now }
    ensures { IfOk result (λ nodes. AreArguments edges.now nodes.items) }
{
    let mut nodes = Vec::new(alloc);
    for (label, node) in edges {
        note_edge(&mut nodes, *label, *node)?;
    }
    Ok(nodes)
}

// Whether a label is that of a result.
fn is_result(label: Label, number: u8) -> bool
    ensures { result ≡ label_eq (Out number) label }
{
    Label::Out(number) == label
}

// The node that a result leads to by edges.
pub(crate) fn result_node(edges: &[(Label, u32)], number: u8) -> Option<u32>
    ensures { result ≡ lookup (label_eq (Out number)) edges.now }
{
    for (label, node) in edges {
        if is_result(*label, number) {
            return Some(*node);
        }
    }
    None
}
