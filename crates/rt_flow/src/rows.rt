// The definitions that reach each block, one definition after the other.
ghost use Rattle.std.specs.Prelude.{◌≡◌, ℕ, ◌<◌, ◌⊎◌, ◌↔◌, ◌∷◌, [], AllPairs, Contains, IfOk, IsTrue, OnOk, length, slice_index_or};
ghost use Rattle.rt_flow.specs.declared.def.Def.{Def};
ghost use Rattle.rt_flow.specs.Bodies.{Precedes};
ghost use Rattle.rt_flow.specs.Inside.Spreading.{AreReady, AreAscending, AreRows, AreWithin, Marks, MarksAll, Spreads};

use crate::def::Def;
use crate::lists::empty_lists;
use rt_base::{Memory, Sequence};
use std::alloc::Global;

// Whether a row has a definition after which none of the row comes.
fn has_last(row: &[Def], def: Def) -> bool
    requires order { AllPairs Precedes row.now }
    requires upto { (y : Def) → Contains row.now y → (y ≡ def) ⊎ Precedes y def }
    ensures { IsTrue result ↔ Contains row.now def }
{
    match row.last() {
        Some(last) => *last == def,
        None => false,
    }
}

// Adds a definition to a block's row, unless it's there, and the block to those that are still to be left.
fn mark(
    rows: &mut Vec<Sequence<Def>>,
    work: &mut Vec<u32>,
    def: Def,
    block: u32,
) -> Result<(), Memory>
    requires within { block < length rows.old.items }
    requires ready { AreReady def rows.old.items }
    ensures { OnOk result (Marks def block rows.old.items work.old.items rows.new.items work.new.items) }
{
    if !has_last(rows[block as usize].items(), def) {
        rows[block as usize].push(def)?;
        work.push(block)?;
    }
    Ok(())
}

// The same for each of some blocks.
fn mark_all(
    rows: &mut Vec<Sequence<Def>>,
    work: &mut Vec<u32>,
    def: Def,
    blocks: &[u32],
) -> Result<(), Memory>
    requires within { (b : ℕ) → Contains blocks.now b → b < length rows.old.items }
    requires ready { AreReady def rows.old.items }
    ensures { OnOk result (MarksAll def blocks.now rows.old.items work.old.items rows.new.items work.new.items) }
{
    for block in blocks {
        mark(rows, work, def, *block)?;
    }
    Ok(())
}

// Adds a definition to the rows of the blocks to which one comes from some blocks, through blocks without a definition.
fn spread(
    rows: &mut Vec<Sequence<Def>>,
    work: &mut Vec<u32>,
    def: Def,
    starts: &[u32],
    targets: &[Sequence<u32>],
    lasts: &[Option<u32>],
) -> Result<(), Memory>
    requires rows_each { length rows.old.items ≡ length targets.now }
    requires lasts_each { length lasts.now ≡ length targets.now }
    requires within { AreWithin targets.now }
    requires starts_in { (b : ℕ) → Contains starts.now b → b < length targets.now }
    requires order { (b : ℕ) → AllPairs Precedes (slice_index_or rows.old.items b []) }
    requires before { (b : ℕ) (y : Def) → Contains (slice_index_or rows.old.items b []) y → Precedes y def }
    requires empty { work.old.items ≡ [] }
    ensures spreads { OnOk result (Spreads targets.now lasts.now starts.now def rows.old.items rows.new.items) }
    ensures empty { OnOk result (work.new.items ≡ []) }
{
    mark_all(rows, work, def, starts)?;
    while let Some(block) = work.pop() {
        let block = block as usize;
        if lasts[block].is_some() {
            continue;
        }
        mark_all(rows, work, def, targets[block].items())?;
    }
    Ok(())
}

/// For each block the definitions that reach its first site, in order: Entry comes from the entry's block, and the last
/// definition of a block from the block's targets. It takes time linear in the rows and the targets of their blocks. The
/// error is out of memory.
pub(crate) fn rows(
    alloc: Global,
    targets: &[Sequence<u32>],
    lasts: &[Option<u32>],
    entry: u32,
) -> Result<Vec<Sequence<Def>>, Memory>
    requires lasts_each { length lasts.now ≡ length targets.now }
    requires within { AreWithin targets.now }
    requires ascending { AreAscending lasts.now }
    requires entry_in { entry < length targets.now }
    ensures { IfOk result (λ rows. AreRows targets.now lasts.now entry rows.items) }
{
    let mut rows = empty_lists(alloc, targets.len())?;
    let mut work = Vec::new(alloc);
    let start = [entry];
    spread(&mut rows, &mut work, Def::Entry, &start, targets, lasts)?;
    for block in 0..targets.len() {
        if let Some(site) = lasts[block] {
            let starts = targets[block].items();
            spread(&mut rows, &mut work, Def::At(site), starts, targets, lasts)?;
        }
    }
    Ok(rows)
}
