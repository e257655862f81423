// The laws of callees: functions that do nothing, each for the law that it ensures.
ghost use Rattle.rt_calls.specs.Callees.{CalleesFirst, OneCallees};

/// Groups of procedures call only groups before them.
pub fn callees_first()
    ensures { CalleesFirst }
{}

/// Groups of procedures have one list of callees alone.
pub fn one_callees()
    ensures { OneCallees }
{}
