// Bounds of named variables.
ghost use Rattle.std.specs.Prelude.{◌≡◌, ◌∷◌, ℕ, ◌<◌, [], Contains, IfOk, OnOk, length, slice_index_or};
ghost use Rattle.rt_lines.specs.declared.line.Line.{Line as Given};
ghost use Rattle.rt_lines.specs.declared.variable.Dtv.{Dtv as Variable};
ghost use Rattle.rt_rules.specs.Rules.{HasSide};
ghost use Rattle.rt_ways.specs.Arcs.{AreMore, IsAdded};
ghost use Rattle.rt_ways.specs.Pushes.{AreDistinct};
ghost use Rattle.rt_sketch.specs.Bounds.{AreBoundsOf, IsLow, IsUp};

use rt_base::{Memory, Sequence};
use rt_lines::Line;
use rt_named::Named;
use std::alloc::Global;

// For each named variable the lower bounds that lines give it.
pub(crate) fn lows_of(
    alloc: Global,
    named: &Named,
    lines: &[Line],
) -> Result<Vec<Sequence<u16>>, Memory>
    requires distinct { AreDistinct named.now }
    requires sides { (l : Given) (x : Variable) → Contains lines.now l → HasSide l x → Contains named.now x }
    ensures { IfOk result (λ rows. AreBoundsOf (length named.now) (IsLow named.now lines.now) rows.items) }
{
    let mut rows = empty_rows(alloc, named.len())?;
    enter_lows(named, lines, &mut rows)?;
    Ok(rows)
}

// Adds the lower bounds of lines.
fn enter_lows(named: &Named, lines: &[Line], rows: &mut Vec<Sequence<u16>>) -> Result<(), Memory>
    requires distinct { AreDistinct named.now }
    requires sides { (l : Given) (x : Variable) → Contains lines.now l → HasSide l x → Contains named.now x }
    requires each { length rows.old.items ≡ length named.now }
    ensures { OnOk result (AreMore (IsLow named.now lines.now) rows.old.items rows.new.items) }
{
    for line in lines {
        enter_low(named, line, rows)?;
    }
    Ok(())
}

// Adds the lower bound that a line is, if it is one.
fn enter_low(named: &Named, line: &Line, rows: &mut Vec<Sequence<u16>>) -> Result<(), Memory>
    requires distinct { AreDistinct named.now }
    requires sides { (x : Variable) → HasSide line.now x → Contains named.now x }
    requires each { length rows.old.items ≡ length named.now }
    ensures { OnOk result (AreMore (IsLow named.now (line.now ∷ [])) rows.old.items rows.new.items) }
{
    match line {
        Line::Low(bound, x) => {
            let number = named.number(x);
            add(rows, number, *bound)?;
            Ok(())
        }
        _ => Ok(()),
    }
}

// For each named variable the upper bounds that lines give it.
pub(crate) fn ups_of(
    alloc: Global,
    named: &Named,
    lines: &[Line],
) -> Result<Vec<Sequence<u16>>, Memory>
    requires distinct { AreDistinct named.now }
    requires sides { (l : Given) (x : Variable) → Contains lines.now l → HasSide l x → Contains named.now x }
    ensures { IfOk result (λ rows. AreBoundsOf (length named.now) (IsUp named.now lines.now) rows.items) }
{
    let mut rows = empty_rows(alloc, named.len())?;
    enter_ups(named, lines, &mut rows)?;
    Ok(rows)
}

// Adds the upper bounds of lines.
fn enter_ups(named: &Named, lines: &[Line], rows: &mut Vec<Sequence<u16>>) -> Result<(), Memory>
    requires distinct { AreDistinct named.now }
    requires sides { (l : Given) (x : Variable) → Contains lines.now l → HasSide l x → Contains named.now x }
    requires each { length rows.old.items ≡ length named.now }
    ensures { OnOk result (AreMore (IsUp named.now lines.now) rows.old.items rows.new.items) }
{
    for line in lines {
        enter_up(named, line, rows)?;
    }
    Ok(())
}

// Adds the upper bound that a line is, if it is one.
fn enter_up(named: &Named, line: &Line, rows: &mut Vec<Sequence<u16>>) -> Result<(), Memory>
    requires distinct { AreDistinct named.now }
    requires sides { (x : Variable) → HasSide line.now x → Contains named.now x }
    requires each { length rows.old.items ≡ length named.now }
    ensures { OnOk result (AreMore (IsUp named.now (line.now ∷ [])) rows.old.items rows.new.items) }
{
    match line {
        Line::Up(x, bound) => {
            let number = named.number(x);
            add(rows, number, *bound)?;
            Ok(())
        }
        _ => Ok(()),
    }
}

// So many empty rows.
fn empty_rows(alloc: Global, count: usize) -> Result<Vec<Sequence<u16>>, Memory>
    ensures length { IfOk result (λ rows. length rows.items ≡ count) }
    ensures empty { IfOk result (λ rows. (v : ℕ) → slice_index_or rows.items v [] ≡ []) }
{
    let mut rows = Vec::new(alloc);
    while rows.len() < count {
        rows.push(Sequence::new(alloc))?;
    }
    Ok(rows)
}

// Adds a bound to a row.
fn add(rows: &mut Vec<Sequence<u16>>, number: u32, bound: u16) -> Result<(), Memory>
    requires { number < length rows.old.items }
    ensures { OnOk result (IsAdded number bound rows.old.items rows.new.items) }
{
    rows[number as usize].push(bound)?;
    Ok(())
}
