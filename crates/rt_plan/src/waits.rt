// How many callees groups wait for.
ghost use Rattle.std.specs.Prelude.{◌≡◌, ◌+◌, ◌-◌, ◌<◌, ◌≤◌, ◌==◌, ◌&&◌, ◌^◌, ℕ, All, IfOk, [], false, length, slice_index_or, slice_set};
ghost use Rattle.rt_plan.specs.Plans.{is_open};
ghost use Rattle.rt_plan.specs.Inside.Boards.{AreReady, AreReadyAt, times};

use crate::calls::Callees;
use crate::event::State;
use crate::leasts::Leasts;
use rt_base::Memory;
use std::alloc::Global;

// How many callees of each group aren't published, each as often as it stands, and which open groups wait for none.
#[derive(Drop)]
pub(crate) struct Waits {
    pub(crate) left: Vec<usize>,
    pub(crate) ready: Leasts,
}

// How many callees each group has.
fn lengths_of(alloc: Global, callees: &[Callees]) -> Result<Vec<usize>, Memory>
    ensures each { IfOk result (λ left. length left.items ≡ length callees.now) }
    ensures left { IfOk result (λ left. (g : ℕ) → slice_index_or left.items g 0 ≡ length (slice_index_or callees.now g [])) }
{
    let mut left = Vec::with_capacity(alloc, callees.len())?;
    for called in callees {
        left.push(called.len())?;
    }
    Ok(left)
}

// Which of these groups wait for none.
fn ready_of(alloc: Global, left: &[usize]) -> Result<Leasts, Memory>
    requires { length left.now < 2 ^ 32 }
    ensures { IfOk result (λ ready. AreReadyAt left.now ready) }
{
    let count = left.len() as u32;
    let mut ready = Leasts::none(alloc, count)?;
    for group in 0..count {
        ready.set(group, left[group as usize] == 0);
    }
    Ok(ready)
}

impl Waits {
    // Of groups that call these, where each is open. The error is out of memory.
    pub(crate) fn new(alloc: Global, callees: &[Callees]) -> Result<Waits, Memory>
        requires { length callees.now < 2 ^ 32 }
        ensures each { IfOk result (λ waits. length waits.left.items ≡ length callees.now) }
        ensures left { IfOk result (λ waits. (g : ℕ) → slice_index_or waits.left.items g 0 ≡ length (slice_index_or callees.now g [])) }
        ensures ready { IfOk result (λ waits. AreReadyAt waits.left.items waits.ready) }
    {
        let left = lengths_of(alloc, callees)?;
        let ready = ready_of(alloc, &left)?;
        Ok(Waits { left, ready })
    }

    // A group is open now, or it isn't.
    pub(crate) fn turn(&mut self, group: u32, is_open: bool)
        requires few { length self.old.left.items < 2 ^ 32 }
        requires within { group < length self.old.left.items }
        requires each { length self.old.ready ≡ length self.old.left.items }
        ensures left { self.new.left.items ≡ self.old.left.items }
        ensures ready { self.new.ready ≡ slice_set self.old.ready group (is_open && (slice_index_or self.old.left.items group 0 == 0)) }
    {
        let is_ready = is_open && self.left[group as usize] == 0;
        self.ready.set(group, is_ready);
    }

    // A callee of a group, which isn't ready, is published: the group waits for one less.
    fn release(&mut self, group: u32, state: State)
        requires few { length self.old.left.items < 2 ^ 32 }
        requires within { group < length self.old.left.items }
        requires each { length self.old.ready ≡ length self.old.left.items }
        requires waits { 0 < slice_index_or self.old.left.items group 0 }
        requires not_ready { slice_index_or self.old.ready group false ≡ false }
        ensures left { self.new.left.items ≡ slice_set self.old.left.items group (slice_index_or self.old.left.items group 0 - 1) }
        ensures ready { self.new.ready ≡ slice_set self.old.ready group (is_open state && (slice_index_or self.old.left.items group 0 - 1 == 0)) }
    {
        self.left[group as usize] -= 1;
        if self.left[group as usize] == 0 {
            self.turn(group, state.is_open());
        }
    }

    // A callee of these groups is published: each waits for one less, as often as it stands.
    pub(crate) fn publish(&mut self, callers: &[u32], states: &[State])
        requires few { length self.old.left.items < 2 ^ 32 }
        requires states { length states.now ≡ length self.old.left.items }
        requires within { All (λ g. g < length self.old.left.items) callers.now }
        requires enough { (g : ℕ) → times g callers.now ≤ slice_index_or self.old.left.items g 0 }
        requires ready { AreReady states.now self.old.left.items self.old.ready }
        ensures each { length self.new.left.items ≡ length self.old.left.items }
        ensures left { (g : ℕ) → slice_index_or self.new.left.items g 0 + times g callers.now ≡ slice_index_or self.old.left.items g 0 }
        ensures ready { AreReady states.now self.new.left.items self.new.ready }
    {
        for caller in callers {
            self.release(*caller, states[*caller as usize]);
        }
    }
}
