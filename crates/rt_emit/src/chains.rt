// Lines of which a chain leads to a procedure or a global. The chains are lines of their own, in which each base stands
// alone and one variable stands for all procedures and globals: a base is joined to one of these exactly if it has the
// shape of that variable.
ghost use Rattle.std.specs.Prelude.{◌≡◌, ◌↔◌, ◌∷◌, ◌++◌, IsTrue, IfOk, OnOk};
ghost use Rattle.rt_lines.specs.declared.line.Line.TheVariants.{Same};
ghost use Rattle.rt_shape.specs.Graphs.{bare};
ghost use Rattle.rt_shape.specs.Shapes.{IsShapeOf};
ghost use Rattle.rt_reduction.specs.Emits.{first_side, AreJoined};
ghost use Rattle.rt_emit.specs.Inside.Joins.{ground_links, links, links_of, HasNoOuter, IsGrounded, IsKeptOrLeft};

use rt_base::Memory;
use rt_lines::{Base, Dtv, Line, Word};
use rt_shape::Shape;
use std::alloc::Global;

// A base alone.
fn bare(alloc: Global, base: Base) -> Dtv
    ensures { result ≡ bare base }
{
    Dtv {
        base,
        word: Word::empty(alloc),
    }
}

// Adds that the base is a procedure or a global, if it is.
fn push_ground(alloc: Global, base: Base, out: &mut Vec<Line>) -> Result<(), Memory>
    ensures { OnOk result (out.new.items ≡ out.old.items ++ ground_links base) }
{
    match base {
        Base::Proc(_) | Base::Global(_) => {
            out.push(Line::Same(bare(alloc, base), bare(alloc, Base::Outer(0))))?;
            Ok(())
        }
        Base::Exist(_) | Base::Outer(_) => Ok(()),
    }
}

// Adds that a line joins two bases.
fn push_pair(alloc: Global, left: Base, right: Base, out: &mut Vec<Line>) -> Result<(), Memory>
    ensures { OnOk result (out.new.items ≡ out.old.items ++ (Same (bare left) (bare right) ∷ ground_links left ++ ground_links right)) }
{
    out.push(Line::Same(bare(alloc, left), bare(alloc, right)))?;
    push_ground(alloc, left, out)?;
    push_ground(alloc, right, out)
}

// Adds that the line joins the bases of its sides.
fn push_links(alloc: Global, line: &Line, out: &mut Vec<Line>) -> Result<(), Memory>
    ensures { OnOk result (out.new.items ≡ out.old.items ++ links_of line.now) }
{
    match line {
        Line::Var(x) | Line::Low(_, x) | Line::Up(x, _) => push_ground(alloc, x.base, out),
        Line::Same(x, y) | Line::Sub(x, y) => push_pair(alloc, x.base, y.base, out),
    }
}

// The chains of the lines.
fn links(alloc: Global, lines: &[Line]) -> Result<Vec<Line>, Memory>
    ensures { IfOk result (λ out. out.items ≡ links lines.now) }
{
    let mut out = Vec::new(alloc);
    for line in lines {
        push_links(alloc, line, &mut out)?;
    }
    Ok(out)
}

// The variable of the line, the left one of two.
fn first_side(line: &Line) -> &Dtv
    ensures { result.now ≡ first_side line.now }
{
    match line {
        Line::Var(x) | Line::Low(_, x) | Line::Up(x, _) => x,
        Line::Same(x, _) | Line::Sub(x, _) => x,
    }
}

// Whether the base has the shape of the variable that stands for procedures and globals.
fn is_grounded(alloc: Global, shape: &Shape, base: Base) -> bool
    ensures { IsTrue result ↔ IsGrounded shape.now base }
{
    let Some(node) = shape.node(&bare(alloc, base)) else {
        return false;
    };
    match shape.node(&bare(alloc, Base::Outer(0))) {
        Some(ground) => node == ground,
        None => false,
    }
}

// Adds the line, where a chain leads to a procedure or a global.
fn push_joined(alloc: Global, shape: &Shape, line: &Line, out: &mut Vec<Line>) -> Result<(), Memory>
    ensures { OnOk result (IsKeptOrLeft shape.now line.now out.old.items out.new.items) }
{
    if is_grounded(alloc, shape, first_side(line).base) {
        out.push(line.copy()?)?;
    }
    Ok(())
}

// The lines of which a chain leads to a procedure or a global, where the shape is that of their chains.
fn kept(alloc: Global, shape: &Shape, lines: &[Line]) -> Result<Vec<Line>, Memory>
    requires inner { HasNoOuter lines.now }
    requires shape { IsShapeOf (links lines.now) shape.now }
    ensures { IfOk result (λ out. AreJoined lines.now out.items) }
{
    let mut out = Vec::new(alloc);
    for line in lines {
        push_joined(alloc, shape, line, &mut out)?;
    }
    Ok(out)
}

/// The lines of which a chain leads to a procedure or a global, in order. No side is of another object. The error is out
/// of memory.
pub fn joined(alloc: Global, lines: &[Line]) -> Result<Vec<Line>, Memory>
    requires { HasNoOuter lines.now }
    ensures { IfOk result (λ out. AreJoined lines.now out.items) }
{
    let chains = links(alloc, lines)?;
    let shape = rt_shape::of(alloc, &chains)?;
    kept(alloc, &shape, lines)
}
