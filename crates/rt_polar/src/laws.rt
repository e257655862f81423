//! The laws of putting: functions that do nothing, each for the law that it ensures.
ghost use Rattle.rt_polar.specs.Laws.{NoneLeftLaw, OneAnswerLaw, PuttingLaw, PuttingOneLaw, StayingLaw, TidyingLaw};

/// An inside existential may give its place to its candidate: the outside can derive the same from the lines before and
/// after.
pub fn putting_one()
    ensures { PuttingOneLaw }
{}

/// All existentials being inside, they may give their places away until none has a candidate: the outside can derive the
/// same from the lines before and after.
pub fn putting()
    ensures { PuttingLaw }
{}

/// There is one list at most that is left when no existential has a candidate.
pub fn one_answer()
    ensures { OneAnswerLaw }
{}

/// In what is left no existential has a candidate, and so neither a sole definition nor a sole consumer of another base.
pub fn none_left()
    ensures { NoneLeftLaw }
{}

/// Tidied lines judge the same; and lines that say nothing twice stay as they are, when they are tidied.
pub fn tidying()
    ensures alike { TidyingLaw }
    ensures stay { StayingLaw }
{}
