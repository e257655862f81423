//! What the forms of sites have in common.
ghost use Rattle.rt_control.specs.Laws.{IsLawOfOneForm, IsLawOfPlaces, IsLawOfNames};

/// The site at a place does one thing at most, or has one fault.
pub fn one_form()
    ensures { IsLawOfOneForm }
{}

/// Each place of what a site does is good.
pub fn places()
    ensures { IsLawOfPlaces }
{}

/// Each symbol of what a site does is an undefined one of the object, each register is x0 to x31, and the fields of an
/// instruction are in their ranges.
pub fn names()
    ensures { IsLawOfNames }
{}
