// What lines say of some variables, in tables of bytes.
ghost use Rattle.std.specs.Prelude.{List, IfOk, OnOk};
ghost use Rattle.rt_lines.specs.declared.line.Line.{Line as Given};
ghost use Rattle.rt_sat.specs.Increments.{Tells};
ghost use Rattle.rt_sat.specs.Tables.{AreThere};
ghost use Rattle.rt_shape.specs.Shapes.{IsShapeOf};
ghost use Rattle.rt_sure.specs.Grounds.{IsTableOf};

use crate::shortening::shortened;
use rt_base::Memory;
use rt_lines::{Dtv, Line};
use rt_sat::{Extent, GrowingTable};
use rt_shape::Shape;
use std::alloc::Global;

/// What lines say, with a place for those of some variables that exist: a table of the bases that `<=` lines and these variables
/// name, made as far as it is asked for. Nothing is promised of how much it finds. The error is out of memory.
pub fn table_of(
    alloc: Global,
    lines: &[Line],
    sides: &[Dtv],
    extent: Extent,
) -> Result<GrowingTable, Memory>
    ensures { IfOk result (IsTableOf lines.now) }
{
    let short = shortened(alloc, lines, sides)?;
    grown(alloc, &short, sides, extent)
}

// What lines say, with a place for those of some variables that exist.
fn grown(
    alloc: Global,
    lines: &[Line],
    sides: &[Dtv],
    extent: Extent,
) -> Result<GrowingTable, Memory>
    ensures { IfOk result (λ growing. Tells lines.now growing) }
{
    let shape = rt_shape::of(alloc, lines)?;
    let extra = existing(alloc, &shape, sides)?;
    GrowingTable::of(alloc, lines, &shape, &extra, extent)
}

// Those of the variables that exist by the lines of a shape.
fn existing(alloc: Global, shape: &Shape, sides: &[Dtv]) -> Result<Vec<Dtv>, Memory>
    ensures { IfOk result (λ existing. (lines : List Given) → IsShapeOf lines shape.now → AreThere lines existing.items) }
{
    let mut existing = Vec::new(alloc);
    for x in sides {
        add_existing(shape, &mut existing, x)?;
    }
    Ok(existing)
}

// Adds the variable, if it exists.
fn add_existing(shape: &Shape, existing: &mut Vec<Dtv>, x: &Dtv) -> Result<(), Memory>
    ensures { OnOk result ((lines : List Given) → IsShapeOf lines shape.now → AreThere lines existing.old.items →
        AreThere lines existing.new.items) }
{
    if shape.node(x).is_some() {
        existing.push(x.copy()?)?;
    }
    Ok(())
}
