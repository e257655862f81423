// What arcs lead to.
ghost use Rattle.std.specs.Prelude.{◌≡◌, ◌<◌, ℕ, [], Contains, IfOk, OnOk, length, slice_index_or};
ghost use Rattle.rt_named.specs.Numbers.{IsLeft};
ghost use Rattle.rt_ways.specs.Arcs.{AreRows, IsInRow, IsReached, IsSpread};

use rt_base::{Memory, Sequence};
use rt_named::Numbers;
use std::alloc::Global;

// For each number itself and all that arcs lead to from it, nearest first.
pub(crate) fn rows_of(alloc: Global, arcs: &[Sequence<u32>]) -> Result<Vec<Numbers>, Memory>
    requires { length arcs.now < 4294967296 }
    ensures { IfOk result (λ rows. AreRows (IsInRow arcs.now) (length arcs.now) rows.items) }
{
    let mut rows = Vec::new(alloc);
    for number in 0..arcs.len() as u32 {
        rows.push(reached(alloc, arcs, number)?)?;
    }
    Ok(rows)
}

// A number and what arcs lead to from it, nearest first.
fn reached(alloc: Global, arcs: &[Sequence<u32>], source: u32) -> Result<Numbers, Memory>
    ensures { IfOk result (λ found. IsReached (IsInRow arcs.now) source found) }
{
    let mut found = Numbers::new(alloc);
    found.note(source)?;
    spread(arcs, &mut found)?;
    Ok(found)
}

// Adds all that arcs lead to from those that are found.
fn spread(arcs: &[Sequence<u32>], found: &mut Numbers) -> Result<(), Memory>
    ensures { OnOk result (IsSpread (IsInRow arcs.now) found.old found.new) }
{
    let mut place: usize = 0;
    while place < found.items().len() {
        let next = found.items()[place];
        leave(arcs, found, next)?;
        place += 1;
    }
    Ok(())
}

// Adds what arcs lead to from a number.
fn leave(arcs: &[Sequence<u32>], found: &mut Numbers, from: u32) -> Result<(), Memory>
    ensures { OnOk result (IsLeft (IsInRow arcs.now from) found.old found.new) }
{
    found.note_all(row(arcs, from))?;
    Ok(())
}

// The row of a number.
pub(crate) fn row(rows: &[Sequence<u32>], number: u32) -> &[u32]
    ensures { result.now ≡ slice_index_or rows.now number [] }
{
    match rows.get(number as usize) {
        Some(row) => row.items(),
        None => &[],
    }
}
