// The edges of lines with all that is pushed from their ways.
ghost use Rattle.std.specs.Prelude.{◌≡◌, [], List, Bool, IfOk};
ghost use Rattle.rt_shape.specs.Shapes.{IsShapeOf};
ghost use Rattle.rt_sat.specs.Mattering.{AreMarked};
ghost use Rattle.rt_sat.specs.Tables.{AreThere, IsBegun, IsLayered, IsWholeTableOf};

use crate::closing::{children, closed};
use crate::entering::line_edges;
use crate::marking::{marks, matters};
use crate::pushing::Frame;
use crate::state::Edge;
use rt_base::Memory;
use rt_lines::{Dtv, Line};
use rt_named::Named;
use rt_named::nodes::{flips, nodes};
use rt_shape::Shape;
use std::alloc::Global;

/// Named variables, and edges between their numbers: those of the lines, and behind them what is pushed from ways, as far as
/// counts matter.
#[derive(Drop)]
pub struct Table {
    /// The variables.
    pub named: Named,
    /// The edges.
    pub edges: Vec<Edge>,
    /// How many of the edges are those of lines.
    pub lines: usize,
}

// Named variables with what is known of them, and the edges of lines.
#[derive(Drop)]
pub(crate) struct Begun {
    pub(crate) frame: Frame,
    pub(crate) first: Vec<Edge>,
}

/// The table of the lines, between the variables that they and more variables name. The error is out of memory.
pub fn saturated(
    alloc: Global,
    lines: &[Line],
    shape: &Shape,
    extra: &[Dtv],
) -> Result<Table, Memory>
    requires shape { IsShapeOf lines.now shape.now }
    requires there { AreThere lines.now extra.now }
    ensures { IfOk result (λ t. IsLayered lines.now extra.now t.named t.edges.items t.lines) }
{
    let marks = marks(alloc, shape)?;
    let table = saturated_by(alloc, lines, shape, extra, &marks)?;
    Ok(table)
}

// The table of the lines that has all counts.
pub(crate) fn whole(
    alloc: Global,
    lines: &[Line],
    shape: &Shape,
    extra: &[Dtv],
) -> Result<Table, Memory>
    requires shape { IsShapeOf lines.now shape.now }
    requires there { AreThere lines.now extra.now }
    ensures { IfOk result (λ t. IsWholeTableOf lines.now extra.now t.named t.edges.items) }
{
    let marks = Vec::new(alloc);
    let table = saturated_by(alloc, lines, shape, extra, &marks)?;
    Ok(table)
}

// The table of the lines that has all counts at marked nodes, and nought elsewhere.
fn saturated_by(
    alloc: Global,
    lines: &[Line],
    shape: &Shape,
    extra: &[Dtv],
    marks: &[bool],
) -> Result<Table, Memory>
    requires shape { IsShapeOf lines.now shape.now }
    requires there { AreThere lines.now extra.now }
    requires marked { AreMarked shape.now marks.now }
    ensures layered { IfOk result (λ t. IsLayered lines.now extra.now t.named t.edges.items t.lines) }
    ensures whole { IfOk result (λ t. marks.now ≡ [] → IsWholeTableOf lines.now extra.now t.named t.edges.items) }
{
    let begun = begin_by(alloc, lines, shape, extra, marks)?;
    let Begun { frame, first } = begun;
    let count = first.len();
    let edges = closed(alloc, &frame, first)?;
    let Frame { named, .. } = frame;
    Ok(Table {
        named,
        edges,
        lines: count,
    })
}

// What the table of the lines begins with.
pub(crate) fn begin(
    alloc: Global,
    lines: &[Line],
    shape: &Shape,
    extra: &[Dtv],
) -> Result<Begun, Memory>
    requires shape { IsShapeOf lines.now shape.now }
    requires there { AreThere lines.now extra.now }
    ensures { IfOk result (λ begun. (marks : List Bool) × IsBegun lines.now extra.now marks begun) }
{
    let marks = marks(alloc, shape)?;
    let begun = begin_by(alloc, lines, shape, extra, &marks)?;
    Ok(begun)
}

// What a table begins with, where counts matter at marked nodes.
fn begin_by(
    alloc: Global,
    lines: &[Line],
    shape: &Shape,
    extra: &[Dtv],
    marks: &[bool],
) -> Result<Begun, Memory>
    requires shape { IsShapeOf lines.now shape.now }
    requires there { AreThere lines.now extra.now }
    requires marked { AreMarked shape.now marks.now }
    ensures { IfOk result (λ begun. IsBegun lines.now extra.now marks.now begun) }
{
    let named = Named::of(alloc, lines, extra)?;
    let nodes = nodes(alloc, &named, shape)?;
    let flips = flips(alloc, shape, &nodes)?;
    let matters = matters(alloc, &nodes, marks)?;
    let children = children(alloc, &named)?;
    let first = line_edges(alloc, &named, lines)?;
    Ok(Begun {
        frame: Frame {
            named,
            flips,
            matters,
            children,
            nodes,
        },
        first,
    })
}
