//! The graph of what the variables of lines can do (PLDI 2016, section 4.1 and appendix E): which derived variables
//! there are, and which have one shape.
#![tactic(auto)]

ghost use Rattle.std.specs.Prelude.{IfOk};
ghost use Rattle.rt_shape.specs.Shapes.{IsShapeOf};

mod closing;
mod joining;
pub mod laws;
mod naming;
pub mod plain;
mod quotient;
mod shape;
mod tree;
mod walking;

use naming::named;
use rt_base::Memory;
use rt_lines::Line;
pub use shape::Shape;
use std::alloc::Global;

/// The graph of what the variables of the lines can do: a variable has a node exactly if the lines derive that it exists,
/// and two have one node exactly if they derive that the two have one shape. It takes memory linear in the letters of
/// the lines, and time linear in them but for a logarithm. The error is out of memory.
pub fn of(alloc: Global, lines: &[Line]) -> Result<Shape, Memory>
    ensures { IfOk result (IsShapeOf lines.now) }
{
    let naming = named(alloc, lines)?;
    let class = joining::joined(alloc, &naming.tree, &naming.pairs)?;
    quotient::shape_of(alloc, &naming.tree, &naming.pairs, class)
}
