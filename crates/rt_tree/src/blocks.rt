// Items in blocks, which are split by what leads to one of them.
ghost use Rattle.std.specs.Prelude.{◌≡◌, ℕ, ◌<◌, ◌≤◌, All, IfOk, OnOk, [], length, slice_index, slice_set};
ghost use Rattle.rt_tree.specs.Inside.Splits.{AreBlocks, AreLed, HasMoreRows, IsMoved, IsSplit, IsTwin, led_to, living_in};

use crate::links::empty_rows;
use rt_base::{Memory, Sequence};
use std::alloc::Global;

// What leads to items.
fn gathered(alloc: Global, into: &[Sequence<usize>], items: &[usize]) -> Result<Vec<usize>, Memory>
    requires { All (λ u. u < length into.now) items.now }
    ensures { IfOk result (λ led. led.items ≡ led_to into.now items.now) }
{
    let mut led = Vec::new(alloc);
    for item in items {
        led.extend_from_slice(into[*item].items())?;
    }
    Ok(led)
}

/// Blocks of items: each item is in one.
#[derive(Drop)]
pub(crate) struct Blocks {
    // The block of each item.
    pub(crate) class: Vec<usize>,
    // The items that came into each block; some of them have left it since.
    pub(crate) members: Vec<Sequence<usize>>,
    // For each block the last one that was split off from it, or itself.
    pub(crate) twin: Vec<usize>,
}

impl Blocks {
    /// The blocks that items are in. The error is out of memory.
    pub(crate) fn of(alloc: Global, class: Vec<usize>) -> Result<Blocks, Memory>
        requires { All (λ b. b < length class.items) class.items }
        ensures class { IfOk result (λ blocks. blocks.class.items ≡ class.items) }
        ensures blocks { IfOk result (λ blocks. AreBlocks (length class.items) blocks.class.items blocks.members.items blocks.twin.items) }
    {
        let mut members = empty_rows(alloc, class.len())?;
        let mut twin = Vec::with_capacity(alloc, class.len())?;
        for item in 0..class.len() {
            members[class[item]].push(item)?;
            twin.push(item)?;
        }
        Ok(Blocks {
            class,
            members,
            twin,
        })
    }

    /// How many blocks there are. It takes no memory.
    pub(crate) fn count(&self) -> usize
        ensures { result ≡ length self.now.members.items }
    {
        self.members.len()
    }

    // The items of a row that are in a block.
    fn living(&self, alloc: Global, row: &[usize], block: usize) -> Result<Vec<usize>, Memory>
        requires { All (λ x. x < length self.now.class.items) row.now }
        ensures { IfOk result (λ living. living.items ≡ living_in self.now.class.items block row.now) }
    {
        let mut living = Vec::new(alloc);
        for item in row {
            if self.class[*item] == block {
                living.push(*item)?;
            }
        }
        Ok(living)
    }

    /// What leads to the items of a block. The error is out of memory.
    pub(crate) fn led(
        &mut self,
        alloc: Global,
        into: &[Sequence<usize>],
        block: usize,
    ) -> Result<Vec<usize>, Memory>
        requires blocks { AreBlocks (length into.now) self.old.class.items self.old.members.items self.old.twin.items }
        requires block { block < length self.old.members.items }
        ensures class { OnOk result (self.new.class.items ≡ self.old.class.items) }
        ensures blocks { OnOk result (AreBlocks (length into.now) self.new.class.items self.new.members.items self.new.twin.items) }
        ensures led { IfOk result (λ led. AreLed into.now self.old.class.items block led.items) }
    {
        let living = self.living(alloc, self.members[block].items(), block)?;
        let led = gathered(alloc, into, &living)?;
        self.members[block] = Sequence::from_vec(living);
        Ok(led)
    }

    // The twin of a block, of those from a number on: a new one, if it has none there.
    fn twin_of(&mut self, alloc: Global, block: usize, count: usize) -> Result<usize, Memory>
        requires blocks { AreBlocks (length self.old.class.items) self.old.class.items self.old.members.items self.old.twin.items }
        requires block { block < count }
        requires count { count ≤ length self.old.members.items }
        ensures class { OnOk result (self.new.class.items ≡ self.old.class.items) }
        ensures blocks { OnOk result (AreBlocks (length self.old.class.items) self.new.class.items self.new.members.items
            self.new.twin.items) }
        ensures rows { OnOk result (HasMoreRows self.old.members.items self.new.members.items) }
        ensures twin { IfOk result (λ twin. IsTwin count block self.old.twin.items self.new.twin.items twin) }
        ensures within { IfOk result (λ twin. twin < length self.new.members.items) }
    {
        let twin = self.twin[block];
        if twin >= count {
            return Ok(twin);
        }
        let fresh = self.members.len();
        self.members.push(Sequence::new(alloc))?;
        self.twin.push(fresh)?;
        self.twin[block] = fresh;
        Ok(fresh)
    }

    // Puts an item into the twin of its block, of those from a number on. The result is that twin.
    fn leave(
        &mut self,
        alloc: Global,
        item: usize,
        block: usize,
        count: usize,
    ) -> Result<usize, Memory>
        requires blocks { AreBlocks (length self.old.class.items) self.old.class.items self.old.members.items self.old.twin.items }
        requires item { item < length self.old.class.items }
        requires block { block < count }
        requires count { count ≤ length self.old.members.items }
        ensures blocks { OnOk result (AreBlocks (length self.old.class.items) self.new.class.items self.new.members.items
            self.new.twin.items) }
        ensures long { OnOk result (length self.old.members.items ≤ length self.new.members.items) }
        ensures twin { IfOk result (λ twin. IsTwin count block self.old.twin.items self.new.twin.items twin) }
        ensures class { IfOk result (λ twin. self.new.class.items ≡ slice_set self.old.class.items item twin) }
    {
        let twin = self.twin_of(alloc, block, count)?;
        self.class[item] = twin;
        self.members[twin].push(item)?;
        Ok(twin)
    }

    // Puts an item into the twin of its block, of those from a number on, unless it is in one of these. Notes the block and the
    // twin then.
    fn pass(
        &mut self,
        alloc: Global,
        item: usize,
        count: usize,
        moves: &mut Vec<(usize, usize)>,
    ) -> Result<(), Memory>
        requires blocks { AreBlocks (length self.old.class.items) self.old.class.items self.old.members.items self.old.twin.items }
        requires item { item < length self.old.class.items }
        requires count { count ≤ length self.old.members.items }
        ensures blocks { OnOk result (AreBlocks (length self.old.class.items) self.new.class.items self.new.members.items
            self.new.twin.items) }
        ensures long { OnOk result (length self.old.members.items ≤ length self.new.members.items) }
        ensures moved { OnOk result (IsMoved count item self.old.class.items self.old.twin.items self.new.class.items
            self.new.twin.items) }
    {
        let block = self.class[item];
        if block >= count {
            return Ok(());
        }
        let twin = self.leave(alloc, item, block, count)?;
        moves.push((block, twin))?;
        Ok(())
    }

    /// Puts what is led to into twins of the blocks: what was in one block is in one twin, which is new. The result has for each
    /// of these items its block and the twin. The error is out of memory.
    pub(crate) fn split(
        &mut self,
        alloc: Global,
        led: &[usize],
    ) -> Result<Vec<(usize, usize)>, Memory>
        requires blocks { AreBlocks (length self.old.class.items) self.old.class.items self.old.members.items self.old.twin.items }
        requires led { All (λ x. x < length self.old.class.items) led.now }
        ensures blocks { OnOk result (AreBlocks (length self.old.class.items) self.new.class.items self.new.members.items
            self.new.twin.items) }
        ensures split { OnOk result (IsSplit led.now self.old.class.items self.new.class.items self.new.twin.items
            (length self.old.members.items)) }
    {
        let count = self.members.len();
        let mut moves = Vec::new(alloc);
        for item in led {
            self.pass(alloc, *item, count, &mut moves)?;
        }
        Ok(moves)
    }
}
