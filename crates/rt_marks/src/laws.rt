// The laws of the steps of the reduction: functions that do nothing, each for the law that it ensures.
ghost use Rattle.rt_marks.specs.Laws.{DeduplicationLaw, NumberingLaw, RenamingLaw, SplitForLaw, SplittingLaw};
ghost use Rattle.rt_marks.specs.Laws.{DropsAlikeLaw, EmitsAlikeLaw, FormAlikeLaw, MergesAlikeLaw, TidyingLaw};
ghost use Rattle.rt_marks.specs.Laws.{PuttingLaw, PuttingOneLaw, RefinedAlikeLaw, SubstitutionLaw, TwinnedAlikeLaw};
ghost use Rattle.rt_marks.specs.Laws.{SimplifiesAlikeLaw, SplitsAlikeLaw, TrimsAlikeLaw};

/// Of lines that say nothing twice, the outside can derive loosely what it can of the lines.
pub fn tidying()
    ensures once { DeduplicationLaw }
    ensures tidied { TidyingLaw }
{}

/// And of lines whose inside bases have new names, or whose existentials are numbered.
pub fn naming()
    ensures renamed { RenamingLaw }
    ensures numbered { NumberingLaw }
{}

/// And of lines with an existential for each argument and result of inside procedures, as of all procedures but one.
pub fn splitting()
    ensures each { SplittingLaw }
    ensures other { SplitForLaw }
{}

/// And where existentials gave their places to their only definition or their only consumer.
pub fn putting()
    ensures substitution { SubstitutionLaw }
    ensures one { PuttingOneLaw }
    ensures each { PuttingLaw }
{}

/// And where existentials of one shape that have the same lines but for classes became one.
pub fn refined()
    ensures { RefinedAlikeLaw }
{}

/// And where twins became one.
pub fn twinned()
    ensures { TwinnedAlikeLaw }
{}

/// And where places were given away and twins became one, in turn.
pub fn simplified()
    ensures { SimplifiesAlikeLaw }
{}

/// And where the lines of idle existentials became their shapes.
pub fn trimmed()
    ensures { TrimsAlikeLaw }
{}

/// And where fields of existentials that do nothing but hold fields became existentials of their own.
pub fn split()
    ensures { SplitsAlikeLaw }
{}

/// And where the shape was written anew.
pub fn emitted()
    ensures { EmitsAlikeLaw }
{}

/// And where existentials that equal other variables became these.
pub fn merged()
    ensures { MergesAlikeLaw }
{}

/// And where lines were dropped that others derive.
pub fn dropped()
    ensures { DropsAlikeLaw }
{}

/// So of the reduced form the outside can derive loosely what it can of the lines.
pub fn reduced()
    ensures { FormAlikeLaw }
{}
