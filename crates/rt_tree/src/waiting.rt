// Which blocks are still to split others: of the two that a block becomes the smaller one, unless the block waits.
use rt_base::Memory;
use std::alloc::Global;

// A block: how many items it has, which one it was split off from, and whether it waits.
#[derive(Clone, Copy)]
struct Seat {
    size: usize,
    from: usize,
    waits: bool,
}

/// The blocks, and those that wait.
#[derive(Drop)]
pub(crate) struct Waiting {
    seats: Vec<Seat>,
    waiting: Vec<usize>,
}

impl Waiting {
    /// As many blocks as there are items, all of which wait, with the items of these classes. The error is out of memory.
    pub(crate) fn of(alloc: Global, class: &[usize]) -> Result<Waiting, Memory> {
        let count = class.len();
        let mut waiting = Waiting {
            seats: Vec::with_capacity(alloc, count)?,
            waiting: Vec::with_capacity(alloc, count)?,
        };
        for block in 0..count {
            waiting.seats.push(Seat {
                size: 0,
                from: block,
                waits: true,
            })?;
            waiting.waiting.push(block)?;
        }
        for block in class {
            waiting.grow(*block);
        }
        Ok(waiting)
    }

    /// One that waits, which doesn't wait any more.
    pub(crate) fn next(&mut self) -> Option<usize> {
        let block = self.waiting.pop()?;
        if let Some(seat) = self.seats.get_mut(block) {
            seat.waits = false;
        }
        Some(block)
    }

    // One item more.
    fn grow(&mut self, block: usize) {
        if let Some(seat) = self.seats.get_mut(block) {
            seat.size = seat.size.saturating_add(1);
        }
    }

    // One item less.
    fn shrink(&mut self, block: usize) {
        if let Some(seat) = self.seats.get_mut(block) {
            seat.size = seat.size.saturating_sub(1);
        }
    }

    /// Items moved, each from a block to one that was split off from it; new blocks come in the order of their numbers.
    pub(crate) fn note(&mut self, moves: &[(usize, usize)]) -> Result<(), Memory> {
        let count = self.seats.len();
        for (from, to) in moves {
            if *to == self.seats.len() {
                self.seats.push(Seat {
                    size: 0,
                    from: *from,
                    waits: false,
                })?;
            }
            self.shrink(*from);
            self.grow(*to);
        }
        for block in count..self.seats.len() {
            self.choose(block)?;
        }
        Ok(())
    }

    // Lets a block wait, or the one that it was split off from if that is smaller and doesn't wait.
    fn choose(&mut self, block: usize) -> Result<(), Memory> {
        let Some(seat) = self.seats.get(block).copied() else {
            return Ok(());
        };
        match self.seats.get(seat.from).copied() {
            Some(from) if !from.waits && from.size < seat.size => self.wait(seat.from),
            _ => self.wait(block),
        }
    }

    // Lets a block wait.
    fn wait(&mut self, block: usize) -> Result<(), Memory> {
        if let Some(seat) = self.seats.get_mut(block) {
            seat.waits = true;
            self.waiting.push(block)?;
        }
        Ok(())
    }
}
