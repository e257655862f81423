// The laws of derivations: functions that do nothing, each for the law that it ensures.
ghost use Rattle.rt_rules.specs.Laws.{DeduplicationLaw, DropLaw, FollowingLaw};
ghost use Rattle.rt_rules.specs.Laws.{NumberingLaw, PuttingLaw, RenamingLaw, SubstitutionLaw, UnionLaw};
ghost use Rattle.rt_rules.specs.Paper.{WithoutSameLow, WithoutSameSub, WithoutSameUp, WithoutSameVar};

/// Each of many inside existentials may give its place to its only definition, all at once: the outside can derive the
/// same from the lines before and after.
pub fn putting()
    ensures { PuttingLaw }
{}

/// Each of many inside existentials may give its place to what all of its definitions become when this is done, where that
/// lies below it: the outside can derive the same from the lines before and after.
pub fn following()
    ensures { FollowingLaw }
{}

/// The only definition of an inside existential, or its only consumer, may take its place: the outside can derive the
/// same from the lines before and after.
pub fn substitution()
    ensures { SubstitutionLaw }
{}

/// The names of inside bases do not matter: whoever renames them, so that no two that the lines name fall together and
/// none becomes one of the outside, changes nothing of what the outside can derive.
pub fn renaming()
    ensures { RenamingLaw }
{}

/// Lists of lines that say the same to the outside still do when both get the same more lines of the outside.
pub fn union()
    ensures { UnionLaw }
{}

/// A line that the others derive may be dropped: the outside can derive the same without it.
pub fn dropping()
    ensures { DropLaw }
{}

/// Lines that are there twice say no more to the outside than once.
pub fn deduplication()
    ensures { DeduplicationLaw }
{}

/// The numbers of existentials, all of which are inside, do not matter.
pub fn numbering()
    ensures { NumberingLaw }
{}

/// Where no line is a `same`, the rules derive what the rules of PLDI 2016 (figure 3) derive, with two rules more (of two
/// variables of which one lies below the other, each has the letters of the other): the same variables, the same
/// subtypings, and the same bounds by constants over these.
pub fn without_same()
    ensures var { WithoutSameVar }
    ensures sub { WithoutSameSub }
    ensures low { WithoutSameLow }
    ensures up { WithoutSameUp }
{}
