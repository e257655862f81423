//! The laws of twins: functions that do nothing, each for the law that it ensures.
ghost use Rattle.rt_twins.specs.Laws.{OneTwinnedLaw, OneTwinningLaw, TwinnedAlikeLaw};
ghost use Rattle.rt_twins.specs.Laws.{TwinnedLosesLaw, TwinnedNamesLaw, TwinnedRestLaw};

/// Where every existential is inside, the least of each class of twins may take the places of the others: the outside can
/// derive the same from the lines before and after.
pub fn alike()
    ensures { TwinnedAlikeLaw }
{}

/// Lines have one coarsest twinning of a sign at most, so one list at most is left by it, and that list has no twinning of the
/// sign any more that makes two existentials one.
pub fn one()
    ensures class { OneTwinningLaw }
    ensures lines { OneTwinnedLaw }
    ensures rest { TwinnedRestLaw }
{}

/// What is left names bases that the lines name, and no existential any more that had its place taken.
pub fn keeping()
    ensures names { TwinnedNamesLaw }
    ensures loses { TwinnedLosesLaw }
{}
