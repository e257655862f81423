// The laws of counted judgements: functions that do nothing, each for the law that it ensures.
ghost use Rattle.rt_bridge.specs.Laws.{ExactLaw, FewerLaw, LowLaw, TableLaw, UpLaw, WaysLaw};

/// Between variables that lines name one lies below another exactly if there is a counted judgement of count nought,
/// over named variables alone.
pub fn exact()
    ensures { ExactLaw }
{}

/// Edges that are counted judgements, have the subtype lines and are closed under pushes have a way for each counted
/// judgement, and so decide which named variable lies below which.
pub fn table()
    ensures ways { WaysLaw }
    ensures below { TableLaw }
{}

/// Edges that are closed under the pushes of a list have a way for all that a shorter list derives, if they have its lines.
pub fn fewer()
    ensures { FewerLaw }
{}

/// A bound is derivable exactly if a bound of a line reaches it.
pub fn bounds()
    ensures low { LowLaw }
    ensures up { UpLaw }
{}
