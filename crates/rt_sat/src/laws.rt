//! The laws of saturation: functions that do nothing, each for the law that it ensures.
ghost use Rattle.rt_sat.specs.Closings.{ClosingLaw};
ghost use Rattle.rt_sat.specs.Deciding.{DecidingLaw};
ghost use Rattle.rt_sat.specs.Numbered.{NumberedLaw};
ghost use Rattle.rt_sat.specs.Tables.{BelowLaw, FrameLaw};
ghost use Rattle.rt_sat.specs.Weighing.{CountLaw, RisingLaw};

/// The variables that lines and a question name, and what their shape says can be read and written through, are enough to
/// decide which variable lies below which by counted judgements.
pub fn deciding()
    ensures { DecidingLaw }
{}

/// Ways along edges between numbers of distinct variables are the ways along the edges between the variables.
pub fn numbered()
    ensures { NumberedLaw }
{}

/// The edges of subtype lines, with all that is pushed from ways along edges, are a table of the lines.
pub fn closing()
    ensures { ClosingLaw }
{}

/// What lines name, with what their shape says can be read and written through, is what pushes ask for.
pub fn frames()
    ensures { FrameLaw }
{}

/// In a table of lines a way of count nought leads from one variable to another exactly if the lines derive that the first
/// is a subtype of the second.
pub fn below()
    ensures { BelowLaw }
{}

/// In a table each way has the count of a probe, and each count of a probe has a way that is no longer: the least counts of
/// ways are those of probes.
pub fn counting()
    ensures { CountLaw }
{}

/// Where below a probe one variable lies below another, the number of its rest is no greater than that of the other's: no
/// count of a probe would be below nought.
pub fn rising()
    ensures { RisingLaw }
{}
