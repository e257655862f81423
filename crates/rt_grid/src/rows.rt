// Rows of counts.
ghost use Rattle.std.specs.Prelude.{◌≡◌, ◌<◌, ℕ, length, IfOk};
ghost use Rattle.rt_grid.specs.Tables.{count_at, AreWithin, IsLowered, IsRelaxed};

use crate::grid::{NONE, Step};
use rt_base::Memory;
use std::alloc::Global;

// A row that knows of one place alone, that of the row.
pub(crate) fn first_row(alloc: Global, size: usize, place: usize) -> Result<Vec<u8>, Memory>
    requires { place < size }
    ensures each { IfOk result (λ row. length row.items ≡ size) }
    ensures own { IfOk result (λ row. (j : ℕ) → count_at row.items j < 255 → (j ≡ place) × (count_at row.items j ≡ 0)) }
{
    let mut row = vec![in alloc; NONE; size]?;
    row[place] = 0;
    Ok(row)
}

// Takes in the counts of ways that begin with a step of a count to the place of another row. Whether one was less.
pub(crate) fn relax(row: &mut [u8], by: &[u8], count: u8) -> bool
    requires { length by.now ≡ length row.old }
    ensures each { length row.new ≡ length row.old }
    ensures counts { IsRelaxed row.old by.now count row.new }
{
    let mut changed = 0;
    for j in 0..row.len() {
        let sum = by[j].saturating_add(count);
        let known = row[j];
        let least = if sum < known { sum } else { known };
        changed |= least ^ known;
        row[j] = least;
    }
    changed != 0
}

// Takes in the counts of steps, as far as they are less. Whether one was.
pub(crate) fn lower(row: &mut [u8], steps: &[Step]) -> bool
    requires { AreWithin (length row.old) steps.now }
    ensures each { length row.new ≡ length row.old }
    ensures counts { IsLowered row.old steps.now row.new }
{
    let mut any = false;
    for step in steps {
        if step.count < row[step.to] {
            row[step.to] = step.count;
            any = true;
        }
    }
    any
}
