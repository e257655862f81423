//! The laws of reduced schemes: functions that do nothing, each for the law that it ensures.
ghost use Rattle.rt_reduction.specs.Laws.{DropsAlikeLaw, EmitsAlikeLaw, EmitsJoinedLaw};
ghost use Rattle.rt_reduction.specs.Laws.{EmitsNoSelfLaw, EmitsOfSchemeLaw};
ghost use Rattle.rt_reduction.specs.Laws.{EmitsUsedLaw, FormAlikeLaw, FormConstantsLaw};
ghost use Rattle.rt_reduction.specs.Laws.{FormReducedLaw, FormSidesLaw, KeptDeriveLaw};
ghost use Rattle.rt_reduction.specs.Laws.{KeptLaw, MergesAlikeLaw, MergesNoSelfLaw};
ghost use Rattle.rt_reduction.specs.Laws.{NoEqualLaw, NoneToSpareLaw, NumberedReducedLaw};
ghost use Rattle.rt_reduction.specs.Laws.{OneDropLaw, OneEmitLaw, OneFormLaw};
ghost use Rattle.rt_reduction.specs.Laws.{OneMergeLaw, OneSimpleLaw, ReorderedReducedLaw};
ghost use Rattle.rt_reduction.specs.Laws.{RoundLosesLaw, RoundNamesLaw, SimplifiesAlikeLaw, SimplifiesRestLaw};

/// Dropping, from the last line to the first, each line that the others derive: one list at most is kept; what is kept
/// stood there; it derives each line, and so the outside can derive the same from it; and no line of it is derivable from
/// the others.
pub fn dropping()
    ensures one { OneDropLaw }
    ensures stood { KeptLaw }
    ensures derive { KeptDeriveLaw }
    ensures alike { DropsAlikeLaw }
    ensures needed { NoneToSpareLaw }
{}

/// Existentials that give their places away, and the classes of the coarsest twinnings that become one, in turn: where every
/// existential is inside, the outside can derive the same from what is left; one list at most is left; and no existential of
/// it has a candidate, nor is any a twin.
pub fn simplifying()
    ensures alike { SimplifiesAlikeLaw }
    ensures one { OneSimpleLaw }
    ensures rest { SimplifiesRestLaw }
{}

/// Existentials that equal a side of another base give their places to the first of these, one after another: where every
/// existential is inside, the outside can derive the same from what is left; one list at most is left; no existential of it
/// equals a side of another base; and it puts no variable beside itself, if the lines don't.
pub fn merging()
    ensures alike { MergesAlikeLaw }
    ensures one { OneMergeLaw }
    ensures no_equal { NoEqualLaw }
    ensures no_self { MergesNoSelfLaw }
{}

/// The `<=` lines and bounds, with the shape of all variables written anew over existentials that have a use, globals,
/// arguments and results, and without what no chain of lines joins to a procedure or a global: where every existential is
/// inside, the outside can derive the same from these; there is one such list at most; each existential that it names has a
/// use, and a chain of its lines joins it to a procedure or a global; and it puts no variable beside itself.
pub fn emitting()
    ensures alike { EmitsAlikeLaw }
    ensures of_scheme { EmitsOfSchemeLaw }
    ensures one { OneEmitLaw }
    ensures used { EmitsUsedLaw }
    ensures joined { EmitsJoinedLaw }
    ensures no_self { EmitsNoSelfLaw }
{}

/// The reduced form of lines, which rounds of these steps leave: there is one at most; where every existential is inside, the
/// outside can derive the same from it; its sides are of the procedures that the lines name, of globals and existentials; its
/// constants stand in the lines; and that of lines of one procedure has nothing to spare.
pub fn one_form()
    ensures one { OneFormLaw }
    ensures alike { FormAlikeLaw }
    ensures sides { FormSidesLaw }
    ensures constants { FormConstantsLaw }
    ensures reduced { FormReducedLaw }
{}

/// Lines with nothing to spare have nothing to spare when their existentials are numbered, nor in another order, each once.
pub fn numbering()
    ensures numbered { NumberedReducedLaw }
    ensures reordered { ReorderedReducedLaw }
{}

/// Rounds come to an end: a round names no base anew, and where something was left to do it loses an existential.
pub fn ending()
    ensures names { RoundNamesLaw }
    ensures loses { RoundLosesLaw }
{}
