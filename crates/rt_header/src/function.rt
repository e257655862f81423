// Functions of sketches.
ghost use Rattle.std.specs.Prelude.{◌≡◌, ◌<◌, ◌≤◌, IfOk, IfSome, OnOk, length};
ghost use Rattle.rt_tree.specs.Trees.{Stand};
ghost use Rattle.rt_cdecl.specs.Types.{IsWide};
ghost use Rattle.rt_cdecl.specs.GoodDecls.{IsFunction, LeadsBelow, place_of};
ghost use Rattle.rt_header.specs.Inside.Built.{HasMore, IsFunctionBuilt, IsMaking, IsNodeOf};
ghost use Rattle.rt_header.specs.Met.{struct_in, structs_of_function};
ghost use Rattle.rt_header.specs.Inside.Ports.{AreNodesOf, AreTyped, IsPortType, structs_of_arguments};

use crate::forest::Forest;
use crate::making::Making;
use crate::ports::{arguments, result_node};
use rt_base::{Memory, Sequence};
use rt_cdecl::{CFunction, CType};
use rt_lines::Loc;
use std::alloc::Global;

// The place of an argument by its index: the registers, then the words of the stack.
fn place(index: usize) -> Loc
    requires { index < 16392 }
    ensures { result ≡ place_of index }
{
    if index < 8 {
        Loc::Arg(index as u8)
    } else {
        Loc::Stack(4 * (index as u32 - 8))
    }
}

// The type of an argument or a result that leads to a node, or to none.
fn port_type(
    alloc: Global,
    forest: &Forest,
    making: &mut Making,
    i: usize,
    node: Option<u32>,
) -> Result<CType, Memory>
    requires making { IsMaking forest.now making.old.structs.items making.old.numbers.items }
    requires node { IfSome node (IsNodeOf forest.now i) }
    ensures making { OnOk result (IsMaking forest.now making.new.structs.items making.new.numbers.items) }
    ensures more { OnOk result (HasMore making.old.structs.items making.new.structs.items) }
    ensures is { IfOk result (IsPortType forest.now making.new.structs.items i node) }
    ensures good { IfOk result (λ t. IsWide t × LeadsBelow (length making.new.structs.items) t) }
    ensures stands { IfOk result (λ t. Stand (length making.old.structs.items) (struct_in t) (length making.new.structs.items)) }
{
    match node {
        Some(node) => making.type_of(alloc, forest, i, 32, node),
        None => Ok(CType::Unused),
    }
}

// The arguments that lead to nodes, in the order of their places.
fn typed(
    alloc: Global,
    forest: &Forest,
    making: &mut Making,
    i: usize,
    nodes: &[Option<u32>],
) -> Result<Vec<(Loc, CType)>, Memory>
    requires making { IsMaking forest.now making.old.structs.items making.old.numbers.items }
    requires nodes { AreNodesOf forest.now i nodes.now }
    requires few { length nodes.now ≤ 16392 }
    ensures making { OnOk result (IsMaking forest.now making.new.structs.items making.new.numbers.items) }
    ensures more { OnOk result (HasMore making.old.structs.items making.new.structs.items) }
    ensures typed { IfOk result (λ args. AreTyped forest.now making.new.structs.items i nodes.now (length nodes.now) args.items) }
    ensures stands { IfOk result (λ args.
        Stand (length making.old.structs.items) (structs_of_arguments args.items) (length making.new.structs.items)) }
{
    let mut args = Vec::with_capacity(alloc, nodes.len())?;
    for index in 0..nodes.len() {
        let kind = port_type(alloc, forest, making, i, nodes[index])?;
        args.push((place(index), kind))?;
    }
    Ok(args)
}

// The function of a tree, with the number of its procedure.
pub(crate) fn function_of(
    alloc: Global,
    forest: &Forest,
    making: &mut Making,
    i: usize,
    number: u32,
) -> Result<CFunction, Memory>
    requires making { IsMaking forest.now making.old.structs.items making.old.numbers.items }
    requires tree { i < length forest.now.trees }
    ensures making { OnOk result (IsMaking forest.now making.new.structs.items making.new.numbers.items) }
    ensures more { OnOk result (HasMore making.old.structs.items making.new.structs.items) }
    ensures number { IfOk result (λ f. f.number ≡ number) }
    ensures built { IfOk result (IsFunctionBuilt forest.now making.new.structs.items i) }
    ensures good { IfOk result (IsFunction (length making.new.structs.items)) }
    ensures stands { IfOk result (λ f.
        Stand (length making.old.structs.items) (structs_of_function f) (length making.new.structs.items)) }
{
    let edges = forest.tree(i).edges(0);
    let nodes = arguments(alloc, edges)?;
    let args = typed(alloc, forest, making, i, &nodes)?;
    let out0 = port_type(alloc, forest, making, i, result_node(edges, 0))?;
    let out1 = port_type(alloc, forest, making, i, result_node(edges, 1))?;
    Ok(CFunction {
        number,
        args: Sequence::from_vec(args),
        out0,
        out1,
    })
}
