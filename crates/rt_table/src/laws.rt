//! The law of the lists of groups: a function that does nothing, for the law that it ensures.
ghost use Rattle.rt_table.specs.Laws.{OneList};

/// A group has one family of lists: an object, its procedures, the constants of the roles, the signatures of external
/// functions and the schemes of procedures outside the group determine it.
pub fn one_list()
    ensures { OneList }
{}
