// Counts without a bound.
ghost use Rattle.std.specs.Prelude.{◌≡◌, ◌+◌, ◌/◌, ◌%◌, ◌<◌, ◌↔◌, IsTrue, min, IfOk};
ghost use Rattle.rt_sat.specs.Counts.{IsLeastHalf};

use crate::digits;
use rt_base::Memory;
use rt_lines::Variance;
use std::alloc::Global;
use std::marker::Model;

/// A natural number without a bound, which contracts see as that number. One below 2^32 needs no memory beyond its own.
#[derive(Drop)]
pub struct Count {
    low: u32,
    // The digits above the low 32, the lowest first.
    high: Vec<bool>,
}

impl Model for Count {
    ghost use Rattle.std.specs.Prelude.{ℕ, ◌+◌, ◌*◌, ◌<◌};
    ghost use Rattle.rt_sat.specs.Counts.{value_of};

    ghost Value = { ℕ };

    ghost view = { λ c. c.low + 4294967296 * value_of c.high.items };

    ghost invariant = { λ c. c.low < 4294967296 };
}

impl Count {
    /// A small number. It takes no memory, and keeps the allocator.
    pub fn small(alloc: Global, number: u32) -> Count
        ensures { result ≡ number }
    {
        Count {
            low: number,
            high: Vec::new(alloc),
        }
    }

    /// An equal number.
    pub fn copy(&self, alloc: Global) -> Result<Count, Memory>
        ensures { IfOk result (λ copy. copy ≡ self.now) }
    {
        if self.high.is_empty() {
            return Ok(Count::small(alloc, self.low));
        }
        let high = self.high.as_slice().to_vec(alloc)?;
        Ok(Count {
            low: self.low,
            high,
        })
    }

    /// The sum.
    pub fn plus(&self, alloc: Global, other: &Count) -> Result<Count, Memory>
        ensures { IfOk result (λ sum. sum ≡ self.now + other.now) }
    {
        let low = u64::from(self.low) + u64::from(other.low);
        if self.high.is_empty() && other.high.is_empty() && low <= 0xffff_ffff {
            return Ok(Count::small(alloc, low as u32));
        }
        let high = digits::sum(alloc, &self.high, &other.high, low > 0xffff_ffff)?;
        Ok(Count {
            low: (low % 0x1_0000_0000) as u32,
            high,
        })
    }

    /// The half, rounded down.
    pub fn half(&self, alloc: Global) -> Result<Count, Memory>
        ensures { IfOk result (λ half. half ≡ self.now / 2) }
    {
        let high = digits::half(alloc, &self.high)?;
        let low = self.low / 2;
        let low = if digits::digit(&self.high, 0) {
            low + 0x8000_0000
        } else {
            low
        };
        Ok(Count { low, high })
    }

    /// Whether it is odd.
    pub fn is_odd(&self) -> bool
        ensures { IsTrue result ↔ (self.now % 2 ≡ 1) }
    {
        self.low % 2 == 1
    }

    /// Whether it is less than another.
    pub fn is_less(&self, other: &Count) -> bool
        ensures { IsTrue result ↔ (self.now < other.now) }
    {
        if self.high.is_empty() && other.high.is_empty() {
            return self.low < other.low;
        }
        if digits::is_less(&self.high, &other.high) {
            return true;
        }
        if digits::is_less(&other.high, &self.high) {
            return false;
        }
        self.low < other.low
    }

    /// The number, or 4,294,967,295 where it is greater.
    pub fn capped(&self) -> u32
        ensures { result ≡ min self.now 4294967295 }
    {
        if digits::is_zero(&self.high) {
            self.low
        } else {
            u32::MAX
        }
    }

    /// The least count between two children behind pointer letters, where this is the count between their parents: half
    /// of it by the signs of the parents, and rounded up to the parity of the children's signs.
    pub fn half_push(
        &self,
        alloc: Global,
        left: Variance,
        right: Variance,
        first: Variance,
        second: Variance,
    ) -> Result<Count, Memory>
        ensures { IfOk result (λ half. IsLeastHalf self.now left right first second half) }
    {
        let more = match (left, right) {
            (Variance::Contra, Variance::Co) => 0,
            (Variance::Co, Variance::Co) | (Variance::Contra, Variance::Contra) => 1,
            (Variance::Co, Variance::Contra) => 2,
        };
        let half = self.plus(alloc, &Count::small(alloc, more))?.half(alloc)?;
        if half.is_odd() == (first != second) {
            return Ok(half);
        }
        half.plus(alloc, &Count::small(alloc, 1))
    }
}
