// A counter of groups that were solved.
ghost use Rattle.std.specs.Prelude.{◌≡◌};
ghost use Rattle.rt_solve.specs.Steps.{RoseBy};

use std::marker::Model;

/// How many groups were solved, as far as 64 bits count: contracts see this number. It holds a value of its owner's type, of which code
/// that is given a counter can make none, so it can make no other counter.
#[derive(Drop)]
pub struct Steps<L> {
    owner: L,
    count: u64,
}

impl<L> Model for Steps<L> {
    ghost use Rattle.std.specs.Prelude.{ℕ};

    ghost Value = { ℕ };

    ghost view = { λ s. s.count };
}

impl<L> Steps<L> {
    /// The counter at 0. It takes no memory.
    pub fn new(owner: L) -> Steps<L>
        ensures { result ≡ 0 }
    {
        Steps { owner, count: 0 }
    }

    /// The number. It takes no memory.
    pub fn count(&self) -> u64
        ensures { result ≡ self.now }
    {
        self.count
    }

    // One more.
    pub(crate) fn tick(&mut self)
        ensures { RoseBy 1 self.old self.new }
    {
        self.count = self.count.saturating_add(1);
    }
}
