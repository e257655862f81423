// What workers do, what comes of it, and what groups are.
ghost use Rattle.std.specs.Prelude.{◌≡◌};
ghost use Rattle.rt_plan.specs.Plans.{is_open, is_published};

/// What a worker, by its number, does.
#[derive(Clone, Copy, Debug, PartialEq, Eq)]
pub enum Event {
    /// It asks for a group.
    Claim(u32),
    /// It publishes the group that it holds.
    Publish(u32),
    /// It gives back the group that it holds.
    Abandon(u32),
}

/// What comes of an event.
#[derive(Clone, Copy, Debug, PartialEq, Eq)]
pub enum Answer {
    /// The worker got a group, or the one that it held is published or open again.
    Done,
    /// The worker holds this group already.
    Busy(u32),
    /// Each open group waits for another; the least open group waits for this one, and for none that is less.
    NotReady(u32),
    /// No group is open, or the worker holds none.
    Idle,
    /// Each group is published.
    AllDone,
}

/// What a group is.
#[derive(Clone, Copy, Debug, PartialEq, Eq)]
pub enum State {
    /// No worker holds it, and it is not published.
    Open,
    /// The worker of this number holds it.
    Held(u32),
    /// It is published.
    Published,
}

impl State {
    pub(crate) fn is_open(self) -> bool
        ensures { result ≡ is_open self }
    {
        matches!(self, State::Open)
    }

    pub(crate) fn is_published(self) -> bool
        ensures { result ≡ is_published self }
    {
        matches!(self, State::Published)
    }
}
