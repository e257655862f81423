// Numbers for pairs of numbers.
ghost use Rattle.std.specs.Prelude.{◌≡◌, ◌<◌, ◌*◌, ◌++◌, ◌∷◌, [], OnOk, IfOk, length};
ghost use Rattle.rt_lattice.specs.Grids.{cell_of};

use std::alloc::{AllocError, Global};

// For each pair of numbers below a count a number, the pairs of a first number in a row.
#[derive(Drop)]
pub(crate) struct Grid {
    pub(crate) count: u16,
    pub(crate) cells: Vec<u16>,
}

impl Grid {
    // A grid without numbers, with room for all.
    pub(crate) fn new(alloc: Global, count: u16) -> Result<Grid, AllocError>
        ensures count { IfOk result (λ grid. grid.count ≡ count) }
        ensures cells { IfOk result (λ grid. grid.cells.items ≡ []) }
    {
        let cells = Vec::with_capacity(alloc, usize::from(count) * usize::from(count))?;
        Ok(Grid { count, cells })
    }

    // Adds the number of the next pair.
    pub(crate) fn push(&mut self, number: u16) -> Result<(), AllocError>
        ensures count { self.new.count ≡ self.old.count }
        ensures cells { OnOk result (self.new.cells.items ≡ self.old.cells.items ++ number ∷ []) }
    {
        self.cells.push(number)?;
        Ok(())
    }

    // The number for a pair.
    pub(crate) fn get(&self, a: u16, b: u16) -> u16
        requires full { length self.now.cells.items ≡ self.now.count * self.now.count }
        requires first { a < self.now.count }
        requires second { b < self.now.count }
        ensures { result ≡ cell_of self.now a b }
    {
        self.cells[usize::from(a) * usize::from(self.count) + usize::from(b)]
    }
}
