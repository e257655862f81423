// Laws of trees: functions that do nothing, for the laws that they ensure.
ghost use Rattle.rt_tree.specs.Laws.{OneTree, Unfolds};

/// Two minimal trees, numbered breadth first, with the same words and marks are one.
pub fn one_tree()
    ensures { OneTree }
{}

/// A tree whose nodes stand for the states of a deterministic machine, the root for the first one, with their marks and steps,
/// has the words and marks of the machine.
pub fn unfolds<S>()
    ensures { Unfolds S }
{}
