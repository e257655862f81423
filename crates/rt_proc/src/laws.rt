//! What the entries, the bodies and the faults of an object's code have in common.
ghost use Rattle.rt_proc.specs.Laws.{IsLawOfLeast, IsLawOfClosed, IsLawOfBodies, IsLawOfSteps, IsLawOfCallees};
ghost use Rattle.rt_proc.specs.Laws.{IsLawOfPlaces, IsLawOfFaultPlaces, IsLawOfOneFault, IsLawOfOneList};

/// Entries are the least set of places that has the functions and what is called in the bodies of its places, where a
/// body goes up to other places of the set.
pub fn entries()
    ensures least { IsLawOfLeast }
    ensures closed { IsLawOfClosed }
{}

/// What is reached is what the bodies have together.
pub fn bodies()
    ensures { IsLawOfBodies }
{}

/// The entry of a procedure is one of its sites, and each step of a site leads to one.
pub fn steps()
    ensures { IsLawOfSteps }
{}

/// Each callee is the number of a procedure, an undefined symbol of the object, or one of the 32 registers.
pub fn callees()
    ensures { IsLawOfCallees }
{
    rt_control::laws::names();
}

/// Each site stands at a good place, and so does each first fault but that of a function, which is 31.
pub fn places()
    ensures sites { IsLawOfPlaces }
    ensures faults { IsLawOfFaultPlaces }
{
    rt_control::laws::places();
}

/// There is one first fault at most.
pub fn one_fault()
    ensures { IsLawOfOneFault }
{
    rt_control::laws::one_form();
}

/// An object has one list of procedures, where these symbols end paths.
pub fn one_list()
    ensures { IsLawOfOneList }
{
    rt_control::laws::one_form();
}
