//! The laws of instances and of splitting: functions that do nothing, each for the law that it ensures.
ghost use Rattle.rt_scheme.specs.Laws.{FewAreNew};
ghost use Rattle.rt_scheme.specs.Splitting.{SplittingLaw};

/// An instance of a scheme has at most two existentials for each line.
pub fn few_are_new()
    ensures { FewAreNew }
{}

/// The arguments and results of inside procedures may be split, all at once, into an existential for each: the outside can
/// derive the same from the lines before and after.
pub fn splitting()
    ensures { SplittingLaw }
{}
