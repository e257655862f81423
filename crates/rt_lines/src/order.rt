// Orders of constants.
ghost use Rattle.std.specs.Prelude.{◌≡◌, ℕ, ◌+◌, ◌*◌, ◌<◌, ◌⊎◌, ◌↔◌, IsTrue, IfOk, length};
ghost use Rattle.rt_lines.specs.Orders.{IsAtOrBelow};
ghost use Rattle.rt_lines.specs.OrderFacts.{order_of, Admits, IsOrder, IsFlat, PutsBelow};

use crate::line::Direction;
use std::alloc::{AllocError, Global};
use std::marker::Model;

/// An order of the numbers below a count, which contracts see as that count and the relation. Each number
/// is at or below itself, and the relation is transitive; two numbers may be below each other.
#[derive(Drop)]
pub struct Order {
    count: u16,
    // For each pair whether the first is below the second, the pairs of a first number in a row. The cell
    // of a number and itself may hold either.
    cells: Vec<bool>,
}

impl Model for Order {
    ghost use Rattle.rt_lines.specs.Orders.{Below};
    ghost use Rattle.rt_lines.specs.OrderFacts.{order_of, IsOrder};

    ghost Value = { Below };

    ghost view = { λ o. order_of o.count o.cells.items };

    ghost invariant = { λ o. IsOrder (order_of o.count o.cells.items) };
}

impl Order {
    /// The order in which each number is at or below itself alone.
    pub fn flat(alloc: Global, count: u16) -> Result<Order, AllocError>
        ensures { IfOk result (λ order. IsFlat order count) }
    {
        let size = usize::from(count) * usize::from(count);
        let cells = vec![in alloc; false; size]?;
        Ok(Order { count, cells })
    }

    /// How many numbers there are.
    pub fn count(&self) -> u16
        ensures count { result ≡ self.now.count }
        ensures order { IsOrder self.now }
    {
        self.count
    }

    /// Puts `a` below `b`, and what is at or below `a` below all that `b` is at or below. It takes no memory.
    pub fn add(&mut self, a: u16, b: u16)
        requires first { a < self.old.count }
        requires second { b < self.old.count }
        ensures { PutsBelow self.old self.new a b }
    {
        put_below(&mut self.cells, self.count, a, b);
    }

    /// Whether `a` is at or below `b`. It takes no memory.
    pub fn le(&self, a: u16, b: u16) -> bool
        requires first { a < self.now.count }
        requires second { b < self.now.count }
        ensures { IsTrue result ↔ IsAtOrBelow self.now a b }
    {
        is_at_or_below(&self.cells, self.count, a, b)
    }

    /// Whether a bound `a` of a variable says that `b` is one too, on the same side: a lower bound admits what is at or
    /// below it, an upper bound what is at or above it. It takes no memory.
    pub fn admits(&self, direction: Direction, a: u16, b: u16) -> bool
        requires first { a < self.now.count }
        requires second { b < self.now.count }
        ensures { IsTrue result ↔ Admits self.now direction a b }
    {
        match direction {
            Direction::Lower => self.le(b, a),
            Direction::Upper => self.le(a, b),
        }
    }

    /// An equal order.
    pub fn copy(&self) -> Result<Order, AllocError>
        ensures { IfOk result (λ copy. copy ≡ self.now) }
    {
        let cells = self.cells.as_slice().to_vec(*self.cells.allocator())?;
        Ok(Order {
            count: self.count,
            cells,
        })
    }
}

// The place of a pair's cell.
fn place(count: u16, a: u16, b: u16) -> usize
    requires first { a < count }
    requires second { b < count }
    ensures place { result ≡ a * count + b }
    ensures within { result < count * count }
{
    usize::from(a) * usize::from(count) + usize::from(b)
}

// Whether the first number is the second one, or below it.
fn is_at_or_below(cells: &[bool], count: u16, a: u16, b: u16) -> bool
    requires full { length cells.now ≡ count * count }
    requires first { a < count }
    requires second { b < count }
    ensures { IsTrue result ↔ IsAtOrBelow (order_of count cells.now) a b }
{
    a == b || cells[place(count, a, b)]
}

// Puts x below all that b is at or below.
fn put_row(cells: &mut [bool], count: u16, x: u16, b: u16)
    requires full { length cells.old ≡ count * count }
    requires first { x < count }
    requires second { b < count }
    ensures { (p q : ℕ) → p < count → q < count → IsAtOrBelow (order_of count cells.new) p q
        ↔ (IsAtOrBelow (order_of count cells.old) p q ⊎ ((p ≡ x) × IsAtOrBelow (order_of count cells.old) b q)) }
{
    for y in 0..count {
        if is_at_or_below(cells, count, b, y) {
            cells[place(count, x, y)] = true;
        }
    }
}

// Puts what is at or below a below all that b is at or below. A row is written after it was read, and what
// b is at or below stays the same, so that each test sees the relation as it was at first.
fn put_below(cells: &mut [bool], count: u16, a: u16, b: u16)
    requires full { length cells.old ≡ count * count }
    requires first { a < count }
    requires second { b < count }
    ensures { PutsBelow (order_of count cells.old) (order_of count cells.new) a b }
{
    for x in 0..count {
        if is_at_or_below(cells, count, x, a) {
            put_row(cells, count, x, b);
        }
    }
}
