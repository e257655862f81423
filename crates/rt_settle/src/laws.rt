//! The laws of the schemes that are chosen: functions that do nothing, each for the law that it ensures.
ghost use Rattle.rt_settle.specs.Chosen.{ChosenAlike, ChosenReduced, ChosenScheme, ConstantsStand, OneChoice};
ghost use Rattle.rt_settle.specs.Marks.{ChosenLoosely, ChosenMarks};

/// Of all schemes that say the same, one is chosen: no two are, whatever the procedure and the lines of its group.
pub fn one_choice()
    ensures { OneChoice }
{}

/// Each constant of a scheme that is chosen is in the lines of its group.
pub fn constants()
    ensures { ConstantsStand }
{}

/// What is chosen for a procedure says to the outside of it what the lines of its group say.
pub fn alike()
    ensures { ChosenAlike }
{}

/// What is chosen for a procedure is the lines of a scheme of it.
pub fn scheme()
    ensures { ChosenScheme }
{}

/// What is chosen for a procedure has nothing to spare: each existential has a use and equals no other variable, no line
/// follows from the others, and a chain of lines joins each existential to the procedure or to a global.
pub fn reduced()
    ensures { ChosenReduced }
{}

/// Marks of a scheme are marks of its lists: the loose bounds of the procedure's variables that follow from the lines of its
/// group are those that follow from what is chosen; and whatever lines the outside of the procedure adds, it can derive the
/// same loosely from both.
pub fn marks()
    ensures alike { ChosenLoosely }
    ensures loose { ChosenMarks }
{}
