// The order of classes: each after those that it leads to, and of those that may come next the one with the least member.
ghost use Rattle.std.specs.Prelude.{◌≡◌, ◌∷◌, ℕ, ◌<◌, ◌≤◌, All, IfOk, List, [], OnOk, length, slice_index};
ghost use Rattle.rt_components.specs.Inside.Orders.{AreAllInOrder, AreLinked, HasCome, IsBegun};
ghost use Rattle.rt_components.specs.Inside.Orders.{IsQueue, IsToCome, MaySettle, MayTake, left_to_come};

use crate::classes::Classes;
use crate::graph::empty_lists;
use rt_base::{Memory, Sequence};
use std::alloc::Global;
use std::collections::BTreeSet;
use std::mem;

// Classes on their way into the order. Each that has not come may come next, or waits for one that has not come.
#[derive(Drop)]
struct Queue {
    // Which classes have come.
    come: Vec<bool>,
    order: Vec<usize>,
    // For each class, how many of its successors are known to have come: those before this index.
    passed: Vec<usize>,
    // For each class, those that wait for it.
    waiting: Vec<Sequence<usize>>,
    // The least members of the classes that may come next.
    ready: BTreeSet<u32>,
}

// The index of the first successor from an index on that has not come, or their number.
fn first_left(come: &[bool], successors: &[usize], from: usize) -> usize
    requires { All (λ k. k < length come.now) successors.now }
    ensures come { (e : ℕ) → from ≤ e → e < result → e < length successors.now →
        HasCome come.now (slice_index successors.now e) }
    ensures left { result < length successors.now → IsToCome come.now (slice_index successors.now result) }
{
    let mut next = from;
    while next < successors.len() && come[successors[next]] {
        next += 1;
    }
    next
}

// The numbers below a count, ascending.
fn all_below(alloc: Global, count: usize) -> Result<Vec<usize>, Memory>
    ensures each { IfOk result (λ all. length all.items ≡ count) }
    ensures same { IfOk result (λ all. (k : ℕ) → k < count → slice_index all.items k ≡ k) }
{
    let mut all = Vec::with_capacity(alloc, count)?;
    for number in 0..count {
        all.push(number)?;
    }
    Ok(all)
}

impl Queue {
    // No class of so many has come, and each is to be looked at.
    fn new(alloc: Global, count: usize) -> Result<Queue, Memory>
        ensures { IfOk result (IsBegun count) }
    {
        Ok(Queue {
            come: vec![in alloc; false; count]?,
            order: Vec::new(alloc),
            passed: vec![in alloc; 0; count]?,
            waiting: empty_lists(alloc, count)?,
            ready: BTreeSet::new(alloc),
        })
    }

    // A class waits for the first of its successors that has not come, or may come next.
    fn settle(
        &mut self,
        class: usize,
        members: &[Sequence<u32>],
        successors: &[Sequence<usize>],
    ) -> Result<(), Memory>
        requires { MaySettle successors.now members.now self.old class }
        ensures queue { OnOk result ((rest : List ℕ) → IsQueue successors.now members.now self.old (class ∷ rest) →
            IsQueue successors.now members.now self.new rest) }
        ensures come { OnOk result (self.new.come.items ≡ self.old.come.items) }
    {
        let others = successors[class].items();
        let next = first_left(&self.come, others, self.passed[class]);
        self.passed[class] = next;
        if next < others.len() {
            self.waiting[others[next]].push(class)?;
            Ok(())
        } else {
            self.ready.insert(members[class].items()[0])?;
            Ok(())
        }
    }

    // The same of several classes.
    fn settle_all(
        &mut self,
        classes: &[usize],
        members: &[Sequence<u32>],
        successors: &[Sequence<usize>],
    ) -> Result<(), Memory>
        requires linked { (class : List ℕ) × AreLinked class members.now successors.now }
        requires queue { IsQueue successors.now members.now self.old classes.now }
        ensures queue { OnOk result (IsQueue successors.now members.now self.new []) }
        ensures come { OnOk result (self.new.come.items ≡ self.old.come.items) }
    {
        for class in classes {
            self.settle(*class, members, successors)?;
        }
        Ok(())
    }

    // A class comes, and those that waited for it are looked at.
    fn take(
        &mut self,
        class: usize,
        members: &[Sequence<u32>],
        successors: &[Sequence<usize>],
    ) -> Result<(), Memory>
        requires linked { (class : List ℕ) × AreLinked class members.now successors.now }
        requires may { MayTake successors.now members.now self.old class }
        ensures queue { OnOk result (IsQueue successors.now members.now self.new []) }
        ensures left { OnOk result (left_to_come self.new.come.items < left_to_come self.old.come.items) }
    {
        let alloc = *self.come.allocator();
        self.come[class] = true;
        self.order.push(class)?;
        let waiting = mem::replace(&mut self.waiting[class], Sequence::new(alloc));
        self.settle_all(waiting.items(), members, successors)
    }
}

/// The classes in order. The error is out of memory.
pub(crate) fn order_of(
    alloc: Global,
    classes: &Classes,
    members: &[Sequence<u32>],
    successors: &[Sequence<usize>],
) -> Result<Vec<usize>, Memory>
    requires { AreLinked classes.now.class.items members.now successors.now }
    ensures { IfOk result (λ order. AreAllInOrder successors.now members.now order.items) }
{
    let count = successors.len();
    let mut queue = Queue::new(alloc, count)?;
    let all = all_below(alloc, count)?;
    queue.settle_all(&all, members, successors)?;
    while let Some(least) = queue.ready.pop_first() {
        queue.take(classes.class[least as usize], members, successors)?;
    }
    Ok(queue.order)
}
