// The least of some numbers below a count.
ghost use Rattle.std.specs.Prelude.{◌≡◌, ◌<◌, ◌^◌, true, false, IfOk, length, replicate, slice_set};
ghost use Rattle.rt_plan.specs.Inside.Leasts.{leaf_of, least_of, lesser};

use rt_base::Memory;
use std::alloc::Global;
use std::marker::Model;

// Some of the numbers below a count, of which the least is known at once. Contracts see for each number whether it is among them.
#[derive(Drop)]
pub(crate) struct Leasts {
    members: Vec<bool>,
    // At 1 the least of all, at i the lesser of those at 2i and 2i + 1, from the count on the numbers themselves.
    tree: Vec<Option<u32>>,
}

impl Model for Leasts {
    ghost use Rattle.std.specs.Prelude.{Bool, List};
    ghost use Rattle.rt_plan.specs.Inside.Leasts.{IsTree};

    ghost Value = { List Bool };

    ghost view = { λ l. l.members.items };

    ghost invariant = { λ l. IsTree l.members.items l.tree.items };
}

// The lesser of two numbers that there may be.
pub(crate) fn lesser(a: Option<u32>, b: Option<u32>) -> Option<u32>
    ensures { result ≡ lesser a b }
{
    match (a, b) {
        (None, b) => b,
        (Some(a), None) => Some(a),
        (Some(a), Some(b)) => Some(if b < a { b } else { a }),
    }
}

// What the leaf of a number says.
fn leaf_of(is_member: bool, number: u32) -> Option<u32>
    ensures { result ≡ leaf_of is_member number }
{
    if is_member { Some(number) } else { None }
}

impl Leasts {
    // None of so many numbers. The error is out of memory.
    pub(crate) fn none(alloc: Global, count: u32) -> Result<Leasts, Memory>
        ensures { IfOk result (λ leasts. leasts ≡ replicate count false) }
    {
        let count = count as usize;
        let members = vec![in alloc; false; count]?;
        let tree = vec![in alloc; None; 2 * count]?;
        Ok(Leasts { members, tree })
    }

    // All of so many numbers. The error is out of memory.
    pub(crate) fn all(alloc: Global, count: u32) -> Result<Leasts, Memory>
        ensures { IfOk result (λ leasts. leasts ≡ replicate count true) }
    {
        let mut leasts = Leasts::none(alloc, count)?;
        for number in 0..count {
            leasts.set(number, true);
        }
        Ok(leasts)
    }

    // Says whether a number is among them. It takes as many steps as the count has binary digits.
    pub(crate) fn set(&mut self, number: u32, is_member: bool)
        requires few { length self.old < 2 ^ 32 }
        requires within { number < length self.old }
        ensures { self.new ≡ slice_set self.old number is_member }
    {
        let mut place = self.members.len() + number as usize;
        self.members[number as usize] = is_member;
        self.tree[place] = leaf_of(is_member, number);
        while 1 < place {
            place /= 2;
            self.tree[place] = lesser(self.tree[2 * place], self.tree[2 * place + 1]);
        }
    }

    // The least of them, if there is any.
    pub(crate) fn least(&self) -> Option<u32>
        ensures { result ≡ least_of self.now }
    {
        if self.tree.is_empty() {
            None
        } else {
            self.tree[1]
        }
    }
}
