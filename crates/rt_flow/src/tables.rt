// The lists of definitions that reach blocks, for each class of locations.
ghost use Rattle.std.specs.Prelude.{◌≡◌, ℕ, ◌+◌, ◌<◌, [], All, IfOk, OnOk, length, slice_index, slice_index_or};
ghost use Rattle.std.specs.List.Sorted.{IsStrictlyIncreasing};
ghost use Rattle.rt_flow.specs.Tables.{AreNumbers, AreOfBody, Grows, IsTable};

use crate::blocks::Blocks;
use crate::def::Def;
use crate::lasts::lasts;
use crate::lists::Lists;
use crate::rows::rows;
use rt_base::{Memory, Sequence};
use std::alloc::Global;

// The number of each row.
fn numbers(
    alloc: Global,
    rows: Vec<Sequence<Def>>,
    sets: &mut Lists<Def>,
) -> Result<Vec<u32>, Memory>
    ensures numbers { IfOk result (λ numbers. AreNumbers rows.items sets.new numbers.items) }
    ensures grows { OnOk result (Grows sets.old sets.new) }
{
    let mut numbers = Vec::with_capacity(alloc, rows.len())?;
    for row in rows {
        numbers.push(sets.number(row.into_vec())?)?;
    }
    Ok(numbers)
}

// The table of the locations that these sites define.
fn table(
    alloc: Global,
    blocks: &Blocks,
    targets: &[Sequence<u32>],
    entry: u32,
    sites: &[u32],
    sets: &mut Lists<Def>,
) -> Result<Vec<u32>, Memory>
    requires of_body { AreOfBody blocks.now.block.items blocks.now.firsts.items targets.now }
    requires entry_in { entry + 1 < length blocks.now.firsts.items }
    requires ascending { IsStrictlyIncreasing sites.now }
    ensures table { IfOk result (λ table. IsTable blocks.now.firsts.items targets.now entry sites.now sets.new table.items) }
    ensures grows { OnOk result (Grows sets.old sets.new) }
{
    let lasts = lasts(alloc, blocks, sites)?;
    let rows = rows(alloc, targets, &lasts, entry)?;
    numbers(alloc, rows, sets)
}

/// For each class the table of its locations: for each block the number of a list of the definitions that reach it. The
/// error is out of memory.
pub(crate) fn tables(
    alloc: Global,
    blocks: &Blocks,
    targets: &[Sequence<u32>],
    entry: u32,
    classes: &Lists<u32>,
    sets: &mut Lists<Def>,
) -> Result<Vec<Sequence<u32>>, Memory>
    requires of_body { AreOfBody blocks.now.block.items blocks.now.firsts.items targets.now }
    requires entry_in { entry + 1 < length blocks.now.firsts.items }
    requires ascending { All IsStrictlyIncreasing classes.now }
    ensures each { IfOk result (λ tables. length tables.items ≡ length classes.now) }
    ensures tables { IfOk result (λ tables. (c : ℕ) → c < length classes.now →
        IsTable blocks.now.firsts.items targets.now entry (slice_index_or classes.now c []) sets.new (slice_index_or tables.items c [])) }
{
    let mut tables = Vec::with_capacity(alloc, classes.len())?;
    for class in 0..classes.len() {
        let table = table(alloc, blocks, targets, entry, classes.list(class), sets)?;
        tables.push(Sequence::from_vec(table))?;
    }
    Ok(tables)
}
