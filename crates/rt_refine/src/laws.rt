//! The laws of refinement: functions that do nothing, each for the law that it ensures.
ghost use Rattle.rt_refine.specs.Laws.{OneCoarsestLaw, OneRefinedLaw, RefinedAlikeLaw, RefinedConstantsLaw};
ghost use Rattle.rt_refine.specs.Laws.{RefinedLeastLaw, RefinedNamesLaw, RefinedRestLaw, RefinedSidesLaw};

/// Where every existential is inside, the least of each class of a refinement may take the places of the others: the outside
/// can derive the same from the lines before and after.
pub fn alike()
    ensures { RefinedAlikeLaw }
{}

/// Lines have one coarsest refinement at most, so one list at most is left by it, and that list has no refinement any more
/// that makes two existentials one.
pub fn one()
    ensures class { OneCoarsestLaw }
    ensures lines { OneRefinedLaw }
    ensures rest { RefinedRestLaw }
{}

/// The sides of what is left are the lines' but for classes, of bases that the lines name, and of each class the least
/// existential alone; the constants are those of the lines.
pub fn keeping()
    ensures sides { RefinedSidesLaw }
    ensures names { RefinedNamesLaw }
    ensures least { RefinedLeastLaw }
    ensures constants { RefinedConstantsLaw }
{}
