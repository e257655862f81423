// Rows of items.
ghost use Rattle.std.specs.Prelude.{◌≡◌, ◌⊎◌, ℕ, [], Contains, OnOk, Some, slice_get, slice_index_or};
ghost use Rattle.rt_earlier.specs.Inside.Earlier.{HasMore};

use rt_base::{Memory, Sequence};
use rt_lines::Label;
use std::alloc::Global;
use std::mem;

// Puts a number at the end of a row, if there is that row.
pub(crate) fn put(row: u32, number: u32, rows: &mut Vec<Sequence<u32>>) -> Result<(), Memory>
    ensures { OnOk result (HasMore rows.old.items row number rows.new.items) }
{
    if (row as usize) < rows.len() {
        rows[row as usize].push(number)?;
    }
    Ok(())
}

// Puts a label at the end of a row, if there is that row.
pub(crate) fn put_label(
    row: u32,
    label: Label,
    rows: &mut Vec<Sequence<Label>>,
) -> Result<(), Memory> {
    if (row as usize) < rows.len() {
        rows[row as usize].push(label)?;
    }
    Ok(())
}

// Takes all numbers out of a row.
pub(crate) fn take(alloc: Global, row: u32, rows: &mut Vec<Sequence<u32>>) -> Sequence<u32>
    ensures taken { (n : ℕ) → Contains result n → Contains (slice_index_or rows.old.items row []) n }
    ensures left { (r n : ℕ) → Contains (slice_index_or rows.new.items r []) n →
        Contains (slice_index_or rows.old.items r []) n }
{
    if (row as usize) < rows.len() {
        return mem::replace(&mut rows[row as usize], Sequence::new(alloc));
    }
    Sequence::new(alloc)
}

// Takes all labels out of a row.
pub(crate) fn take_labels(
    alloc: Global,
    row: u32,
    rows: &mut Vec<Sequence<Label>>,
) -> Sequence<Label> {
    if (row as usize) < rows.len() {
        return mem::replace(&mut rows[row as usize], Sequence::new(alloc));
    }
    Sequence::new(alloc)
}

// How many numbers there are in a row.
pub(crate) fn count(row: u32, rows: &[Sequence<u32>]) -> usize {
    match rows.get(row as usize) {
        Some(row) => row.len(),
        None => 0,
    }
}

// Sets a number, if it is there.
pub(crate) fn set(place: u32, number: u32, numbers: &mut Vec<u32>)
    ensures { (i n : ℕ) → slice_get numbers.new.items i ≡ Some n →
        (slice_get numbers.old.items i ≡ Some n) ⊎ ((i ≡ place) × (n ≡ number)) }
{
    if (place as usize) < numbers.len() {
        numbers[place as usize] = number;
    }
}
