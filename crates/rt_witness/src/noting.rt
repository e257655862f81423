// Numbers of lines in the rows of the nodes of what they name.
ghost use Rattle.std.specs.Prelude.{◌≡◌, ◌∷◌, [], length, IfOk, OnOk};
ghost use Rattle.rt_lines.specs.declared.variable.Dtv.{Dtv as Variable};
ghost use Rattle.rt_shape.specs.Graphs.{bare, node_of, walk};
ghost use Rattle.rt_shape.specs.Shapes.{IsFront};
ghost use Rattle.rt_witness.specs.Witnesses.{AreKept, AreNoted, HasFront, IsNotedAt, IsNotedIn};

use crate::rows::{empty_rows, put};
use rt_base::{Memory, Sequence};
use rt_lines::{Base, Dtv, Label, Line, Word};
use rt_shape::Shape;
use std::alloc::Global;

// For each node of a shape the numbers of the lines that name a variable of that node.
pub(crate) fn noted(
    alloc: Global,
    shape: &Shape,
    lines: &[Line],
) -> Result<Vec<Sequence<usize>>, Memory>
    ensures { IfOk result (λ rows. AreNoted shape.now lines.now (length lines.now) rows.items) }
{
    let mut rows = empty_rows(alloc, shape.node_count() as usize)?;
    for i in 0..lines.len() {
        note_line(alloc, shape, &lines[i], i, &mut rows)?;
    }
    Ok(rows)
}

// Notes the number in the rows of what the line names.
fn note_line(
    alloc: Global,
    shape: &Shape,
    line: &Line,
    i: usize,
    rows: &mut Vec<Sequence<usize>>,
) -> Result<(), Memory>
    ensures noted { OnOk result ((y : Variable) → HasFront line.now y → IsNotedIn shape.now rows.new.items i y) }
    ensures kept { OnOk result (AreKept rows.old.items rows.new.items) }
{
    match line {
        Line::Var(x) | Line::Low(_, x) | Line::Up(x, _) => {
            note_side(alloc, shape, x, i, rows)?;
            Ok(())
        }
        Line::Same(x, y) | Line::Sub(x, y) => {
            note_side(alloc, shape, x, i, rows)?;
            note_side(alloc, shape, y, i, rows)?;
            Ok(())
        }
    }
}

// Notes the number in the rows of the fronts of a variable, letter by letter.
fn note_side(
    alloc: Global,
    shape: &Shape,
    x: &Dtv,
    i: usize,
    rows: &mut Vec<Sequence<usize>>,
) -> Result<(), Memory>
    ensures noted { OnOk result ((y : Variable) → IsFront y x.now → IsNotedIn shape.now rows.new.items i y) }
    ensures kept { OnOk result (AreKept rows.old.items rows.new.items) }
{
    let mut node = node_of_base(alloc, shape, x.base);
    note(node, i, rows)?;
    for letter in x.word.items() {
        node = node_after(shape, node, letter);
        note(node, i, rows)?;
    }
    Ok(())
}

// The node of a base alone.
fn node_of_base(alloc: Global, shape: &Shape, base: Base) -> Option<u32>
    ensures { result ≡ node_of shape.now (bare base) }
{
    shape.node(&Dtv {
        base,
        word: Word::empty(alloc),
    })
}

// The node after a node, by a label.
fn node_after(shape: &Shape, node: Option<u32>, label: &Label) -> Option<u32>
    ensures { result ≡ walk shape.now.edges node (label.now ∷ []) }
{
    match node {
        Some(node) => shape.step(node, label),
        None => None,
    }
}

// Notes the number in the row of a node, if there is one.
fn note(node: Option<u32>, i: usize, rows: &mut Vec<Sequence<usize>>) -> Result<(), Memory>
    ensures noted { OnOk result (IsNotedAt rows.new.items i node) }
    ensures kept { OnOk result (AreKept rows.old.items rows.new.items) }
{
    if let Some(node) = node {
        put(node, i, rows)?;
    }
    Ok(())
}
