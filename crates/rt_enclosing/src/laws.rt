// The laws of the lower and the upper relations: functions that do nothing, each for the law that it ensures.
ghost use Rattle.rt_enclosing.specs.Laws.{ExactLaw, FewerLaw, HubsLaw, ImplicitLaw, LowerLaw, TurningLaw, UpperLaw};

/// The lower relations say what is derivable: that one variable lies below another, or that some variable lies below both,
/// or above both.
pub fn lower()
    ensures { LowerLaw }
{}

/// An upper relation that has the subtype lines has whatever they derive between named variables.
pub fn upper()
    ensures { UpperLaw }
{}

/// Steps of some of the lines, and of what an upper relation of all lines pushes, lead from one named variable to another
/// wherever these lines derive that it lies below.
pub fn fewer()
    ensures { FewerLaw }
{}

/// So it is where each two variables that need a common lower one have a hub.
pub fn hubs()
    ensures { HubsLaw }
{}

/// The lower relation is derivability itself where by it each two such variables have a common lower one.
pub fn exact()
    ensures { ExactLaw }
{}

/// The upper relation may leave out load and store of variables that no line reads or writes, if it has what is pushed
/// behind these.
pub fn implicit()
    ensures { ImplicitLaw }
{}

/// So it is with an upper relation that tells which variables may have a common lower one, and which a common upper one, where
/// counts matter.
pub fn turning()
    ensures { TurningLaw }
{}
