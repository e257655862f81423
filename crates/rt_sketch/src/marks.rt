// Marks: joins and meets of bounds.
ghost use Rattle.std.specs.Prelude.{◌≡◌, ◌⊎◌, ℕ, ◌<◌, [], Contains, length, slice_index_or};
ghost use Rattle.rt_lattice.specs.Lattices.{IsBelow, IsLattice, size_of};
ghost use Rattle.rt_ways.specs.Arcs.{IsInRow};
ghost use Rattle.rt_sketch.specs.Bounds.{AreBelow, IsBoundOf, IsGreatestUnder, IsLeastOver};

use rt_base::Sequence;
use rt_lattice::Lattice;

// The join of the bounds of numbers.
pub(crate) fn joined(lattice: &Lattice, rows: &[Sequence<u16>], numbers: &[u32]) -> u16
    requires lattice { IsLattice lattice.now }
    requires bounds { AreBelow (size_of lattice.now) rows.now }
    ensures { IsLeastOver (IsBelow lattice.now) (size_of lattice.now) (IsBoundOf rows.now numbers.now) result }
{
    let mut mark = lattice.bottom();
    for number in numbers {
        mark = join_row(lattice, row(rows, *number), mark);
    }
    mark
}

// The join of a name and those of a row.
fn join_row(lattice: &Lattice, row: &[u16], first: u16) -> u16
    requires lattice { IsLattice lattice.now }
    requires first { first < size_of lattice.now }
    requires bounds { (k : ℕ) → Contains row.now k → k < size_of lattice.now }
    ensures { IsLeastOver (IsBelow lattice.now) (size_of lattice.now) (λ k. (k ≡ first) ⊎ Contains row.now k) result }
{
    let mut mark = first;
    for bound in row {
        mark = lattice.join(mark, *bound);
    }
    mark
}

// The meet of the bounds of numbers.
pub(crate) fn met(lattice: &Lattice, rows: &[Sequence<u16>], numbers: &[u32]) -> u16
    requires lattice { IsLattice lattice.now }
    requires bounds { AreBelow (size_of lattice.now) rows.now }
    ensures { IsGreatestUnder (IsBelow lattice.now) (size_of lattice.now) (IsBoundOf rows.now numbers.now) result }
{
    let mut mark = lattice.top();
    for number in numbers {
        mark = meet_row(lattice, row(rows, *number), mark);
    }
    mark
}

// The meet of a name and those of a row.
fn meet_row(lattice: &Lattice, row: &[u16], first: u16) -> u16
    requires lattice { IsLattice lattice.now }
    requires first { first < size_of lattice.now }
    requires bounds { (k : ℕ) → Contains row.now k → k < size_of lattice.now }
    ensures { IsGreatestUnder (IsBelow lattice.now) (size_of lattice.now) (λ k. (k ≡ first) ⊎ Contains row.now k) result }
{
    let mut mark = first;
    for bound in row {
        mark = lattice.meet(mark, *bound);
    }
    mark
}

// The row of a number.
fn row(rows: &[Sequence<u16>], number: u32) -> &[u16]
    ensures { result.now ≡ slice_index_or rows.now number [] }
{
    match rows.get(number as usize) {
        Some(row) => row.items(),
        None => &[],
    }
}
