//! The laws of plans: functions that do nothing, each for the law that it ensures.
ghost use Rattle.rt_plan.specs.Laws.{Driven, Kept, OneDrive, Undone};

/// An event whose answer isn't `Done` leaves the board as it was.
pub fn undone()
    ensures { Undone }
{}

/// An event leaves the workers, the groups and what they call.
pub fn kept()
    ensures { Kept }
{}

/// Each number drives four workers through a plan to its end.
pub fn driven()
    ensures { Driven }
{}

/// A number drives them in one way alone.
pub fn one_drive()
    ensures { OneDrive }
{}
