// The edges of subtype lines.
ghost use Rattle.std.specs.Prelude.{◌≡◌, ◌++◌, ◌∷◌, ℕ, [], List, Contains, IfOk, OnOk};
ghost use Rattle.rt_lines.specs.declared.variable.Dtv.{Dtv as Variable};
ghost use Rattle.rt_lines.specs.declared.line.Line.{Line as Given};
ghost use Rattle.rt_rules.specs.Rules.{HasSide};
ghost use Rattle.rt_sat.specs.Closings.{AreLineEdges, IsLineEntered};

use crate::count::Count;
use crate::state::{Edge, State};
use rt_base::Memory;
use rt_lines::{Dtv, Line};
use rt_named::Named;
use std::alloc::Global;

// The edges of subtype lines, and of them turned round.
pub(crate) fn line_edges(alloc: Global, named: &Named, lines: &[Line]) -> Result<Vec<Edge>, Memory>
    requires { (l : Given) (x : Variable) → Contains lines.now l → HasSide l x → Contains named.now x }
    ensures { IfOk result (λ edges. AreLineEdges lines.now named.now edges.items) }
{
    let mut edges = Vec::new(alloc);
    for line in lines {
        enter_line(alloc, named, &mut edges, line)?;
    }
    Ok(edges)
}

// Puts the edges of a line behind others.
pub(crate) fn enter_line(
    alloc: Global,
    named: &Named,
    edges: &mut Vec<Edge>,
    line: &Line,
) -> Result<(), Memory>
    requires { (x : Variable) → HasSide line.now x → Contains named.now x }
    ensures { OnOk result ((before : List Given) → AreLineEdges before named.now edges.old.items →
        AreLineEdges (before ++ line.now ∷ []) named.now edges.new.items) }
{
    match line {
        Line::Sub(x, y) => {
            enter_sub(alloc, named, edges, x, y)?;
            Ok(())
        }
        Line::Var(_) => Ok(()),
        Line::Same(_, _) => Ok(()),
        Line::Low(_, _) => Ok(()),
        Line::Up(_, _) => Ok(()),
    }
}

// Puts the edges of a subtype line behind others.
fn enter_sub(
    alloc: Global,
    named: &Named,
    edges: &mut Vec<Edge>,
    x: &Dtv,
    y: &Dtv,
) -> Result<(), Memory>
    requires left { Contains named.now x.now }
    requires right { Contains named.now y.now }
    ensures { OnOk result (IsLineEntered named.now x.now y.now edges.old.items edges.new.items) }
{
    let left = named.number(x);
    let right = named.number(y);
    edges.push(edge(alloc, left, right, false))?;
    edges.push(edge(alloc, right, left, true))?;
    Ok(())
}

// An edge of count nought, between states of one sign.
fn edge(alloc: Global, from: u32, to: u32, contra: bool) -> Edge
    ensures from { result.from ≡ record { variable = from; contra = contra } }
    ensures to { result.to ≡ record { variable = to; contra = contra } }
    ensures count { result.count ≡ 0 }
{
    Edge {
        from: State {
            variable: from,
            contra,
        },
        to: State {
            variable: to,
            contra,
        },
        count: Count::small(alloc, 0),
    }
}
