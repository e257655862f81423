// Who calls whom.
ghost use Rattle.std.specs.Prelude.{◌≡◌, ◌+◌, ◌==◌, ◌<◌, ◌^◌, ℕ, All, IfOk, OnOk, [], length, replicate, slice_index_or, if◌then◌else◌};
ghost use Rattle.rt_plan.specs.Plans.{AreLower};
ghost use Rattle.rt_plan.specs.Inside.Boards.{times};

use rt_base::{Memory, Sequence};
use std::alloc::Global;
use std::marker::Model;

/// For one group the groups that it calls.
pub type Callees = Sequence<u32>;

// For each group the groups that it calls, which are of lower numbers, and those that call it. Contracts see the former.
#[derive(Drop)]
pub(crate) struct Calls {
    callees: Vec<Callees>,
    callers: Vec<Sequence<u32>>,
}

impl Model for Calls {
    ghost use Rattle.std.specs.Prelude.{ℕ, List};
    ghost use Rattle.rt_plan.specs.Inside.Boards.{AreCallers};

    ghost Value = { List (List ℕ) };

    ghost view = { λ c. c.callees.items };

    ghost invariant = { λ c. AreCallers c.callees.items c.callers.items };
}

// So many empty lists.
fn empty_lists(alloc: Global, count: usize) -> Result<Vec<Sequence<u32>>, Memory>
    ensures { IfOk result (λ lists. lists.items ≡ replicate count []) }
{
    let mut lists = Vec::with_capacity(alloc, count)?;
    for _ in 0..count {
        lists.push(Sequence::new(alloc))?;
    }
    Ok(lists)
}

// Notes a group as a caller of each of these, as often as it stands.
fn push_caller(callers: &mut Vec<Sequence<u32>>, callees: &[u32], group: u32) -> Result<(), Memory>
    requires within { All (λ c. c < length callers.old.items) callees.now }
    ensures each { OnOk result (length callers.new.items ≡ length callers.old.items) }
    ensures called { OnOk result ((g c : ℕ) → times g (slice_index_or callers.new.items c [])
        ≡ times g (slice_index_or callers.old.items c []) + (if g == group then times c callees.now else 0)) }
{
    for callee in callees {
        callers[*callee as usize].push(group)?;
    }
    Ok(())
}

// For each group those that call it, each as often as it does.
fn callers_of(alloc: Global, callees: &[Callees]) -> Result<Vec<Sequence<u32>>, Memory>
    requires lower { AreLower callees.now }
    requires few { length callees.now < 2 ^ 32 }
    ensures each { IfOk result (λ callers. length callers.items ≡ length callees.now) }
    ensures called { IfOk result (λ callers. (g c : ℕ) → times g (slice_index_or callers.items c [])
        ≡ times c (slice_index_or callees.now g [])) }
{
    let mut callers = empty_lists(alloc, callees.len())?;
    for group in 0..callees.len() {
        push_caller(&mut callers, callees[group].items(), group as u32)?;
    }
    Ok(callers)
}

// Equal lists.
fn copies_of(alloc: Global, callees: &[Callees]) -> Result<Vec<Callees>, Memory>
    ensures { IfOk result (λ copies. copies.items ≡ callees.now) }
{
    let mut copies = Vec::with_capacity(alloc, callees.len())?;
    for called in callees {
        copies.push(Sequence::from_vec(called.items().to_vec(alloc)?))?;
    }
    Ok(copies)
}

impl Calls {
    // The calls of groups that call these. The error is out of memory.
    pub(crate) fn new(alloc: Global, callees: &[Callees]) -> Result<Calls, Memory>
        requires lower { AreLower callees.now }
        requires few { length callees.now < 2 ^ 32 }
        ensures { IfOk result (λ calls. calls ≡ callees.now) }
    {
        let callers = callers_of(alloc, callees)?;
        let callees = copies_of(alloc, callees)?;
        Ok(Calls { callees, callers })
    }

    // The groups that a group calls.
    pub(crate) fn callees(&self, group: u32) -> &[u32]
        requires { group < length self.now }
        ensures value { result.now ≡ slice_index_or self.now group [] }
        ensures lower { All (λ c. c < group) result.now }
    {
        self.callees[group as usize].items()
    }

    // The groups that call a group, each as often as it does.
    pub(crate) fn callers(&self, group: u32) -> &[u32]
        requires { group < length self.now }
        ensures within { All (λ g. g < length self.now) result.now }
        ensures called { (g : ℕ) → times g result.now ≡ times group (slice_index_or self.now g []) }
    {
        self.callers[group as usize].items()
    }
}
