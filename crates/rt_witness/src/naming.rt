// Numbers of lines in the rows of the variables that their sides begin with.
ghost use Rattle.std.specs.Prelude.{length, IfOk, OnOk};
ghost use Rattle.rt_lines.specs.declared.variable.Dtv.{Dtv as Variable};
ghost use Rattle.rt_shape.specs.Shapes.{IsFront};
ghost use Rattle.rt_witness.specs.Witnesses.{AreNaming, HasFront, HasNaming};

use crate::rows::{empty_rows, put};
use rt_base::{Memory, Sequence};
use rt_lines::{Dtv, Line};
use rt_named::{Named, Origin};
use std::alloc::Global;

// For each of the variables the numbers of lines with a side that begins with it.
pub(crate) fn naming(
    alloc: Global,
    named: &Named,
    lines: &[Line],
) -> Result<Vec<Sequence<usize>>, Memory>
    ensures { IfOk result (λ rows. AreNaming named.now lines.now rows.items) }
{
    let mut rows = empty_rows(alloc, named.len())?;
    for i in 0..lines.len() {
        name_line(named, &lines[i], i, &mut rows)?;
    }
    Ok(rows)
}

// Puts the number into the rows of what the sides of the line begin with.
fn name_line(
    named: &Named,
    line: &Line,
    i: usize,
    rows: &mut Vec<Sequence<usize>>,
) -> Result<(), Memory>
    ensures { OnOk result (HasNaming named.now (HasFront line.now) rows.old.items i rows.new.items) }
{
    match line {
        Line::Var(x) | Line::Low(_, x) | Line::Up(x, _) => {
            name_side(named, x, i, rows)?;
            Ok(())
        }
        Line::Same(x, y) | Line::Sub(x, y) => {
            name_side(named, x, i, rows)?;
            name_side(named, y, i, rows)?;
            Ok(())
        }
    }
}

// Puts the number into the rows of what the variable begins with, the longest first.
fn name_side(
    named: &Named,
    x: &Dtv,
    i: usize,
    rows: &mut Vec<Sequence<usize>>,
) -> Result<(), Memory>
    ensures { OnOk result (HasNaming named.now (λ (y : Variable). IsFront y x.now) rows.old.items i rows.new.items) }
{
    let Some(mut number) = named.index(x) else {
        return Ok(());
    };
    while let Origin::Longer(earlier, _) = named.origin(number) {
        put(number, i, rows)?;
        number = earlier;
    }
    put(number, i, rows)?;
    Ok(())
}
