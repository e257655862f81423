// The nodes of definitions with an operation, and of joins.
ghost use Rattle.std.specs.Prelude.{◌≡◌, ◌<◌, ℕ, [], IfOk, length, slice_index_or};
ghost use Rattle.rt_track.specs.Changes.{IsAscending};
ghost use Rattle.rt_track.specs.Inside.Inputs.{node_of, use_in, AreNodes};
ghost use Rattle.rt_track.specs.Placed.{NamesRegisters};

use crate::changes::change_at;
use crate::nodes::{Input, Node};
use crate::op::Op;
use crate::ops::Ops;
use crate::value::Value;
use rt_base::{Memory, Sequence};
use std::alloc::Global;

// What a use of a register at a site takes.
fn use_at(uses: &[Sequence<(u32, Input)>], site: u32, reg: u8) -> Input
    requires reg { reg < length uses.now }
    requires ascending { (r : ℕ) → r < length uses.now → IsAscending (slice_index_or uses.now r []) }
    ensures { result ≡ use_in uses.now site reg }
{
    change_at(uses[reg as usize].items(), site, Input::Nothing)
}

// The node of a definition of a register by its operation.
fn node(uses: &[Sequence<(u32, Input)>], site: u32, reg: u8, op: Op) -> Node
    requires each { length uses.now ≡ 32 }
    requires ascending { (r : ℕ) → r < length uses.now → IsAscending (slice_index_or uses.now r []) }
    requires named { NamesRegisters op }
    ensures { result ≡ node_of (use_in uses.now site) site reg op }
{
    match op {
        Op::Own => Node::Fixed(Value::At(site, reg, 0)),
        Op::Const(word) => Node::Fixed(Value::Const(word)),
        Op::Sym(symbol, offset) => Node::Fixed(Value::Sym(symbol, offset)),
        Op::AddI(source, number) => Node::AddI(use_at(uses, site, source), number),
        Op::Add(left, right) => {
            let left = use_at(uses, site, left);
            let right = use_at(uses, site, right);
            Node::Add(left, right, site, reg)
        }
    }
}

/// The nodes of definitions with an operation, in the order of their numbers, and those of joins behind them. The error is
/// out of memory.
pub(crate) fn nodes(
    alloc: Global,
    ops: &Ops,
    uses: &[Sequence<(u32, Input)>],
    joins: &[(Input, Input)],
) -> Result<Vec<Node>, Memory>
    requires each { length uses.now ≡ 32 }
    requires ascending { (r : ℕ) → r < length uses.now → IsAscending (slice_index_or uses.now r []) }
    ensures { IfOk result (λ nodes. AreNodes ops.now uses.now joins.now nodes.items) }
{
    let mut nodes = Vec::with_capacity(alloc, ops.count())?;
    for number in 0..ops.count() {
        let ((site, reg), op) = ops.given(number);
        nodes.push(node(uses, site, reg, op))?;
    }
    for (left, right) in joins {
        nodes.push(Node::Join(*left, *right))?;
    }
    Ok(nodes)
}
