// Whether a table of ways has all that classes from outside say of existentials.
ghost use Rattle.std.specs.Prelude.{◌≡◌, ◌⊎◌, [], ℕ, ◌<◌, List, Contains, IfOk, IfSome, IsTrue, OnOk, length, slice_index_or};
ghost use Rattle.rt_lines.specs.declared.line.Line.{Line as Given};
ghost use Rattle.rt_lines.specs.declared.variable.Dtv.{Dtv as Variable};
ghost use Rattle.rt_named.specs.Naming.{named as named_by};
ghost use Rattle.rt_outline.specs.Equal.{AreOuterEquals};
ghost use Rattle.rt_sat.specs.Increments.{named_of, Tells};
ghost use Rattle.rt_equals.specs.Comparing.{AreEquals, AreMarked};
ghost use Rattle.rt_equals.specs.Joined.{AreJoined, IsJoined};

use crate::agreeing::marked;
use rt_base::Memory;
use rt_lines::{Dtv, Line};
use rt_named::Named;
use rt_outline::Classes;
use rt_sat::{Extent, GrowingTable};
use std::alloc::Global;

// Whether it is known that classes from outside are exact, and a table of ways, if one was made.
#[derive(Drop)]
pub(crate) struct Finding {
    pub exact: bool,
    pub table: Option<GrowingTable>,
}

// Whether a table of ways has each below the other of what the classes put together with an existential, and the table.
pub(crate) fn told(
    alloc: Global,
    named: &Named,
    lines: &[Line],
    outer: &Classes,
) -> Result<Finding, Memory>
    requires named { named.now ≡ named_by lines.now [] }
    requires outer { AreOuterEquals lines.now named.now outer.now.count outer.now.numbers.items }
    ensures exact { IfOk result (λ told. IsTrue told.exact → AreEquals lines.now named.now outer.now.numbers.items) }
    ensures table { IfOk result (λ told. IfSome told.table (Tells lines.now)) }
{
    let marks = own_marks(alloc, named, outer)?;
    let growing = grown(alloc, named, lines, outer, &marks)?;
    let exact = are_joined(&growing, &outer.numbers, &marks);
    Ok(Finding {
        exact,
        table: Some(growing),
    })
}

// At each number of an existential one of the variables that have it.
fn own_marks(alloc: Global, named: &Named, outer: &Classes) -> Result<Vec<Option<usize>>, Memory>
    requires each { length outer.now.numbers.items ≡ length named.now }
    requires few { (i : ℕ) → i < length named.now → slice_index_or outer.now.numbers.items i 0 < outer.now.count }
    ensures each { IfOk result (λ marks. length marks.items ≡ outer.now.count) }
    ensures marked { IfOk result (λ marks. AreMarked named.now outer.now.numbers.items (length named.now) marks.items) }
{
    let own = apart(alloc, named.len())?;
    marked(alloc, named, outer, &own)
}

// A table of ways, with places for the sides that have a marked number and for the variables of bounds.
fn grown(
    alloc: Global,
    named: &Named,
    lines: &[Line],
    outer: &Classes,
    marks: &[Option<usize>],
) -> Result<GrowingTable, Memory>
    requires { named.now ≡ named_by lines.now [] }
    ensures named { IfOk result (λ growing. (extra : List Variable) × (named_of growing ≡ named_by lines.now extra)) }
    ensures tells { IfOk result (λ growing. Tells lines.now growing) }
{
    let sides = marked_sides(alloc, named, lines, outer, marks)?;
    let shape = rt_shape::of(alloc, lines)?;
    GrowingTable::of(alloc, lines, &shape, &sides, Extent::Whole)
}

// So many numbers, no two of them equal.
pub(crate) fn apart(alloc: Global, count: usize) -> Result<Vec<usize>, Memory>
    ensures each { IfOk result (λ numbers. length numbers.items ≡ count) }
    ensures own { IfOk result (λ numbers. (i : ℕ) → i < count → slice_index_or numbers.items i 0 ≡ i) }
{
    let mut numbers = Vec::with_capacity(alloc, count)?;
    for i in 0..count {
        numbers.push(i)?;
    }
    Ok(numbers)
}

// The sides of the lines that have a marked number, and the variables of bounds.
fn marked_sides(
    alloc: Global,
    named: &Named,
    lines: &[Line],
    outer: &Classes,
    marks: &[Option<usize>],
) -> Result<Vec<Dtv>, Memory>
    ensures { IfOk result (λ sides. (x : Variable) → Contains sides.items x → Contains named.now x) }
{
    let mut sides = Vec::new(alloc);
    for line in lines {
        add_sides(named, outer, marks, line, &mut sides)?;
    }
    Ok(sides)
}

// Adds those sides of a line that have a marked number, and the variable of a bound.
fn add_sides(
    named: &Named,
    outer: &Classes,
    marks: &[Option<usize>],
    line: &Line,
    sides: &mut Vec<Dtv>,
) -> Result<(), Memory>
    ensures { OnOk result ((x : Variable) → Contains sides.new.items x → Contains sides.old.items x ⊎ Contains named.now x) }
{
    match line {
        Line::Var(x) => add_marked(named, outer, marks, x, sides),
        Line::Low(_, x) | Line::Up(x, _) => add_named(named, x, sides),
        Line::Same(x, y) | Line::Sub(x, y) => {
            add_marked(named, outer, marks, x, sides)?;
            add_marked(named, outer, marks, y, sides)
        }
    }
}

// Adds a variable, if it is named.
fn add_named(named: &Named, side: &Dtv, sides: &mut Vec<Dtv>) -> Result<(), Memory>
    ensures { OnOk result ((x : Variable) → Contains sides.new.items x → Contains sides.old.items x ⊎ Contains named.now x) }
{
    if named.index(side).is_some() {
        sides.push(side.copy()?)?;
    }
    Ok(())
}

// Adds a variable, if it has a marked number.
fn add_marked(
    named: &Named,
    outer: &Classes,
    marks: &[Option<usize>],
    side: &Dtv,
    sides: &mut Vec<Dtv>,
) -> Result<(), Memory>
    ensures { OnOk result ((x : Variable) → Contains sides.new.items x → Contains sides.old.items x ⊎ Contains named.now x) }
{
    if let Some(number) = named.index(side)
        && has_mark(outer, marks, number as usize)
    {
        sides.push(side.copy()?)?;
    }
    Ok(())
}

// Whether a variable's number is marked.
fn has_mark(outer: &Classes, marks: &[Option<usize>], variable: usize) -> bool {
    match outer.numbers.get(variable) {
        Some(number) => match marks.get(*number) {
            Some(mark) => mark.is_some(),
            None => false,
        },
        None => false,
    }
}

// Whether the table has each below the other of a variable with a marked number and of the one that it is marked with.
fn are_joined(growing: &GrowingTable, numbers: &[usize], marks: &[Option<usize>]) -> bool
    requires few { (i : ℕ) → i < length numbers.now → slice_index_or numbers.now i 0 < length marks.now }
    requires tells { (lines : List Given) × Tells lines growing.now }
    ensures { IsTrue result → AreJoined growing.now numbers.now (length numbers.now) marks.now }
{
    for j in 0..numbers.len() {
        if let Some(mark) = marks[numbers[j]] {
            if mark >= numbers.len() || !is_joined(growing, mark, j) {
                return false;
            }
        }
    }
    true
}

// Whether the table has each of two variables below the other.
fn is_joined(growing: &GrowingTable, first: usize, second: usize) -> bool
    requires { (lines : List Given) × Tells lines growing.now }
    ensures { IsTrue result → IsJoined growing.now first second }
{
    let Ok(first) = u32::try_from(first) else {
        return false;
    };
    let Ok(second) = u32::try_from(second) else {
        return false;
    };
    growing.has_numbers(first, second) && growing.has_numbers(second, first)
}
