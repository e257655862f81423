// The board of a plan.
ghost use Rattle.std.specs.Prelude.{◌≡◌, ◌<◌, ◌≤◌, ◌^◌, IfOk, IfSome, None, Some, length};
ghost use Rattle.rt_plan.specs.Plans.{AreLower, applied, claim, first_missing, first_open, first_ready, held_by, is_done, published_by, start, with_state, worker_of};
ghost use Rattle.rt_plan.specs.Inside.Boards.{waiting};

use crate::calls::{Callees, Calls};
use crate::event::{Answer, Event, State};
use crate::leasts::{Leasts, lesser};
use crate::waits::Waits;
use rt_base::Memory;
use std::alloc::{AllocError, Global};
use std::marker::Model;

/// The groups of a plan, those that each one calls, and what each is: open, held by a worker, or published. Contracts see this, with the
/// number of workers.
#[derive(Drop)]
pub struct Board {
    calls: Calls,
    states: Vec<State>,
    waits: Waits,
    opened: Leasts,
    // The group that each worker holds.
    held: Vec<Option<u32>>,
    unpublished: u32,
}

impl Model for Board {
    ghost use Rattle.std.specs.Prelude.{length};
    ghost use Rattle.rt_plan.specs.Plans.{Board as Plan};
    ghost use Rattle.rt_plan.specs.Inside.Boards.{IsKept};

    ghost Value = { Plan };

    ghost view = { λ b. record { workers = length b.held.items; callees = b.calls; states = b.states.items } };

    ghost invariant = { λ b. IsKept (record { workers = length b.held.items; callees = b.calls; states = b.states.items })
        b.waits.left.items b.opened b.waits.ready b.held.items b.unpublished };
}

impl Board {
    /// The board of groups that call these, each open, and so many workers. The error is out of memory, which also comes where
    /// 32 bits don't number the groups.
    ///
    /// Condition: there is a worker, and each group calls only groups of lower numbers.
    pub fn new(alloc: Global, callees: &[Callees], workers: u32) -> Result<Board, Memory>
        requires workers { 1 ≤ workers }
        requires lower { AreLower callees.now }
        ensures { IfOk result (λ board. board ≡ start workers callees.now) }
    {
        let Ok(count) = u32::try_from(callees.len()) else {
            return Err(AllocError);
        };
        let calls = Calls::new(alloc, callees)?;
        let states = vec![in alloc; State::Open; count as usize]?;
        let waits = Waits::new(alloc, callees)?;
        let opened = Leasts::all(alloc, count)?;
        let held = vec![in alloc; None; workers as usize]?;
        Ok(Board {
            calls,
            states,
            waits,
            opened,
            held,
            unpublished: count,
        })
    }

    /// The group that a worker holds, if it holds one. It takes no memory.
    pub fn held(&self, worker: u32) -> Option<u32>
        requires { worker < self.now.workers }
        ensures held { result ≡ held_by self.now worker }
        ensures within { IfSome result (λ g. g < length self.now.states) }
    {
        self.held[worker as usize]
    }

    /// The group that an event publishes, if it publishes one. It takes no memory.
    ///
    /// Condition: the event's worker is one of the board's.
    pub fn published(&self, event: Event) -> Option<u32>
        requires { worker_of event < self.now.workers }
        ensures published { result ≡ published_by self.now event }
        ensures within { IfSome result (λ g. g < length self.now.states) }
    {
        match event {
            Event::Publish(worker) => self.held(worker),
            Event::Claim(_) | Event::Abandon(_) => None,
        }
    }

    // Whether each group is published.
    fn is_done(&self) -> bool
        ensures { result ≡ is_done self.now }
    {
        self.unpublished == 0
    }

    // The least group that is open.
    fn first_open(&self) -> Option<u32>
        ensures least { result ≡ first_open self.now }
        ensures within { IfSome result (λ g. g < length self.now.states) }
    {
        self.opened.least()
    }

    // The least group that is open and of which each callee is published.
    fn first_ready(&self) -> Option<u32>
        ensures { result ≡ first_ready self.now }
    {
        self.waits.ready.least()
    }

    // A group that isn't published.
    fn waiting(&self, group: u32) -> Option<u32>
        requires { group < length self.now.states }
        ensures { result ≡ waiting self.now group }
    {
        if self.states[group as usize].is_published() {
            None
        } else {
            Some(group)
        }
    }

    // The least callee of a group that isn't published.
    fn missing(&self, group: u32) -> Option<u32>
        requires { group < length self.now.states }
        ensures { result ≡ first_missing self.now group }
    {
        let called = self.calls.callees(group);
        let mut least = None;
        for callee in called {
            least = lesser(least, self.waiting(*callee));
        }
        least
    }

    // A worker that holds none takes a group that is ready.
    fn take(&mut self, worker: u32, group: u32)
        requires worker { worker < self.old.workers }
        requires holds_none { held_by self.old worker ≡ None }
        requires ready { first_ready self.old ≡ Some group }
        ensures { self.new ≡ with_state self.old group (State.Held worker) }
    {
        self.states[group as usize] = State::Held(worker);
        self.held[worker as usize] = Some(group);
        self.opened.set(group, false);
        self.waits.turn(group, false);
    }

    // A worker gives back the group that it holds.
    fn give_back(&mut self, worker: u32, group: u32)
        requires worker { worker < self.old.workers }
        requires holds { held_by self.old worker ≡ Some group }
        ensures { self.new ≡ with_state self.old group State.Open }
    {
        self.states[group as usize] = State::Open;
        self.held[worker as usize] = None;
        self.opened.set(group, true);
        self.waits.turn(group, true);
    }

    // A worker publishes the group that it holds.
    fn publish(&mut self, worker: u32, group: u32)
        requires worker { worker < self.old.workers }
        requires holds { held_by self.old worker ≡ Some group }
        ensures { self.new ≡ with_state self.old group State.Published }
    {
        self.states[group as usize] = State::Published;
        self.held[worker as usize] = None;
        self.unpublished -= 1;
        self.waits.publish(self.calls.callers(group), &self.states);
    }

    // A claim of a worker that holds none.
    fn claim(&mut self, worker: u32) -> Answer
        requires worker { worker < self.old.workers }
        requires holds_none { held_by self.old worker ≡ None }
        ensures { (result, self.new) ≡ claim self.old worker None }
    {
        let Some(first) = self.first_open() else {
            return Answer::Idle;
        };
        match self.first_ready() {
            Some(group) => {
                self.take(worker, group);
                Answer::Done
            }
            None => match self.missing(first) {
                Some(group) => Answer::NotReady(group),
                None => Answer::Idle,
            },
        }
    }
}

/// One event: an answer other than Done leaves the board as it is. It takes no memory. Where each group is published the answer is
/// `AllDone`. Else a claim takes the least open group whose callees are all published; a publish makes the group that the worker holds
/// published, and an abandon makes it open. A claim and an abandon take as many steps as the groups have binary digits, a publish one for
/// each caller of the group and so many for each that becomes ready, and a claim that is not ready one for each callee of the least
/// open group.
///
/// Condition: the event's worker is one of the board's.
pub fn apply(board: &mut Board, event: Event) -> Answer
    requires { worker_of event < board.old.workers }
    ensures { (result, board.new) ≡ applied board.old event }
{
    if board.is_done() {
        return Answer::AllDone;
    }
    match event {
        Event::Claim(worker) => match board.held(worker) {
            Some(group) => Answer::Busy(group),
            None => board.claim(worker),
        },
        Event::Publish(worker) => match board.held(worker) {
            Some(group) => {
                board.publish(worker, group);
                Answer::Done
            }
            None => Answer::Idle,
        },
        Event::Abandon(worker) => match board.held(worker) {
            Some(group) => {
                board.give_back(worker, group);
                Answer::Done
            }
            None => Answer::Idle,
        },
    }
}
