// Rows of numbers of lines.
ghost use Rattle.std.specs.Prelude.{◌≡◌, ◌<◌, ℕ, [], replicate, length, Contains, true, false, slice_index_or, IfOk, OnOk};
ghost use Rattle.rt_witness.specs.Witnesses.{AreKept, HasMore};

use rt_base::{Memory, Sequence};
use std::alloc::Global;

// So many rows that are empty.
pub(crate) fn empty_rows(alloc: Global, count: usize) -> Result<Vec<Sequence<usize>>, Memory>
    ensures { IfOk result (λ rows. rows.items ≡ replicate count []) }
{
    let mut rows = Vec::with_capacity(alloc, count)?;
    for _ in 0..count {
        rows.push(Sequence::new(alloc))?;
    }
    Ok(rows)
}

// Puts the number of a line at the end of a row, if there is that row.
pub(crate) fn put(row: u32, i: usize, rows: &mut Vec<Sequence<usize>>) -> Result<(), Memory>
    ensures put { OnOk result (row < length rows.new.items → Contains (slice_index_or rows.new.items row []) i) }
    ensures kept { OnOk result (AreKept rows.old.items rows.new.items) }
    ensures more { OnOk result (HasMore rows.old.items row i rows.new.items) }
{
    if (row as usize) < rows.len() {
        rows[row as usize].push(i)?;
    }
    Ok(())
}

// Whether the flag of one of the numbers is set. As lines go from the last to the first, all before the first that has gone
// stand: of a row with ascending numbers, all are gone through only where the first has gone.
pub(crate) fn have_standing(row: &[usize], stands: &[bool]) -> bool
    ensures none { result ≡ false → (i : ℕ) → Contains row.now i → slice_index_or stands.now i false ≡ false }
    ensures some { result ≡ true → (i : ℕ) × Contains row.now i × (slice_index_or stands.now i false ≡ true) }
{
    for i in row {
        if is_set(stands, *i) {
            return true;
        }
    }
    false
}

// Whether there is a flag of the number, and it is set.
fn is_set(stands: &[bool], i: usize) -> bool
    ensures { result ≡ slice_index_or stands.now i false }
{
    match stands.get(i) {
        Some(flag) => *flag,
        None => false,
    }
}
