//! Laws of lattices: functions that do nothing, each for the laws that it ensures.
ghost use Rattle.rt_lattice.specs.Laws.{OneOfText, OneStandard, PartialOfText, PartialStandard};

/// Two lattices that one text says have the same names, and the same order of all numbers; so have two standard ones.
pub fn one_order()
    ensures text { OneOfText }
    ensures standard { OneStandard }
{}

/// The order of a lattice has as many numbers as there are names, and no two of them are below each other.
pub fn partial()
    ensures text { PartialOfText }
    ensures standard { PartialStandard }
{}
