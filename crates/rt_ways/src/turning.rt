// Rows the other way.
ghost use Rattle.std.specs.Prelude.{◌≡◌, ℕ, ◌<◌, Contains, IfOk, OnOk, length};
ghost use Rattle.rt_ways.specs.Arcs.{AreMore, AreTurned, IsInRow};

use crate::arcs::empty_rows;
use crate::closing::{add, row};
use rt_base::{Memory, Sequence};
use rt_named::Numbers;
use std::alloc::Global;

// For each number those in whose rows it is.
pub(crate) fn turned(alloc: Global, rows: &[Numbers]) -> Result<Vec<Sequence<u32>>, Memory>
    requires few { length rows.now < 4294967296 }
    requires within { (v w : ℕ) → IsInRow rows.now v w → w < length rows.now }
    ensures { IfOk result (λ back. AreTurned rows.now back.items) }
{
    let mut back = empty_rows(alloc, rows.len())?;
    for number in 0..rows.len() as u32 {
        turn(&mut back, number, row(rows, number))?;
    }
    Ok(back)
}

// Adds a number to the rows of the members of its row.
fn turn(back: &mut Vec<Sequence<u32>>, number: u32, row: &[u32]) -> Result<(), Memory>
    requires { (w : ℕ) → Contains row.now w → w < length back.old.items }
    ensures { OnOk result (AreMore (λ v w. Contains row.now v × (w ≡ number)) back.old.items back.new.items) }
{
    for other in row {
        add(back, *other, number)?;
    }
    Ok(())
}
