//! The laws of definitions that agree: functions that do nothing, for the laws that they ensure.
ghost use Rattle.rt_agreement.specs.Laws.{CallsTold, ChosenObjects, ChosenTaken, ObjectsTaken, OneReal};

/// A real definition of a result reaches a site by what the frame's questions say exactly where it does by what callees
/// give: one that an instruction wrote which is no call, or a call whose callee gives the result.
pub fn one_real()
    ensures { OneReal }
{}

/// The rows of a procedure name only objects of its own frame, and only those that it has: some line speaks of the
/// offset at which each begins. This is of a frame that is right, and of calls that are stated by what a register holds
/// only where they jump there plainly, and by a scheme only where the callee takes the argument registers that are
/// passed to the scheme.
pub fn objects_taken()
    ensures { ObjectsTaken }
{}

/// What the table is read against for a group is such: its frame is right, its calls through registers are plain, and
/// callees take what is passed to their schemes, as long as no scheme of a procedure outside the group names an
/// argument register that the procedure doesn't take.
pub fn calls_told()
    ensures { CallsTold }
{}

/// No scheme that is chosen for a procedure names an argument register that the procedure doesn't take.
pub fn chosen_taken()
    ensures { ChosenTaken }
{}

/// So the rows of a procedure, where callees have the schemes that are chosen for them, name only objects of its own
/// frame, and only those that it has.
pub fn chosen_objects()
    ensures { ChosenObjects }
{}
