// The laws of ways and of marks: functions that do nothing, each for the law that it ensures.
ghost use Rattle.rt_loose.specs.Laws.{BelowLaw, FlexibleLaw, LoosenessLaw, NamedLaw, TurnedLaw};
ghost use Rattle.rt_loose.specs.Laws.{LowMarksLaw, PointerLaw, StartLaw, StepLaw, UpMarksLaw};

/// What lines derive with some added pointer lines, `X.load <= X.store` of what can be read and written through, is what
/// the rules with one more derive.
pub fn looseness()
    ensures { LoosenessLaw }
{}

/// Each way has one the other way round, of the opposite kind, and one of letters that can be exchanged; between named
/// variables ways go over named variables alone; and a covariant way leads from one variable to another exactly if the
/// first lies loosely below the second.
pub fn ways()
    ensures turned { TurnedLaw }
    ensures named { NamedLaw }
    ensures below { BelowLaw }
{}

/// The sets of a base are what ways over named variables lead to it from, and from it to.
pub fn start()
    ensures { StartLaw }
{}

/// The sets of a variable with a letter more are what such ways lead to from the named variables behind the sets of the
/// variable.
pub fn step()
    ensures { StepLaw }
{}

/// The loose bounds of a variable are those of lines whose variables are in its sets.
pub fn marks()
    ensures low { LowMarksLaw }
    ensures up { UpMarksLaw }
{}

/// Behind the load and the store of what can be read and written through there are the same letters with the same bounds.
pub fn pointer()
    ensures { PointerLaw }
{}

/// Ways of letters that can be exchanged join named variables that have one shape by the subtype lines alone.
pub fn flexible()
    ensures { FlexibleLaw }
{}
