// The law of groups: a function that does nothing, for the law that it ensures.
ghost use Rattle.rt_components.specs.Laws.{OneOrder};

/// A graph has one list of groups alone.
pub fn one_order()
    ensures { OneOrder }
{}
