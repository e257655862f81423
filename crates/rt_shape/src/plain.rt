//! Shapes by plain means: while two nodes have to be one, all nodes are gone through, to find two such nodes and to make
//! them one. It takes time quadratic in the letters of the lines, and serves to compare.
ghost use Rattle.std.specs.Prelude.{IfOk};
ghost use Rattle.rt_shape.specs.Shapes.{IsShapeOf};

use crate::closing::own_classes;
use crate::naming::named;
use crate::quotient::shape_of;
use crate::shape::Shape;
use rt_base::Memory;
use rt_lines::Line;
use std::alloc::Global;

/// The graph of what the variables of the lines can do. The error is out of memory.
pub fn of(alloc: Global, lines: &[Line]) -> Result<Shape, Memory>
    ensures { IfOk result (IsShapeOf lines.now) }
{
    let naming = named(alloc, lines)?;
    let class = own_classes(alloc, naming.tree.count())?;
    shape_of(alloc, &naming.tree, &naming.pairs, class)
}
