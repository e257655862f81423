// The laws of instances of lists alike and of unfolded lists: functions that do nothing, each for the laws that it ensures.
ghost use Rattle.rt_unfold.specs.Instances.{InstanceLaw};
ghost use Rattle.rt_unfold.specs.Labels.{LabelsLaw, UnfoldedLabelsLaw};
ghost use Rattle.rt_unfold.specs.There.{OneLaw, ThereLaw};
ghost use Rattle.rt_unfold.specs.Unfolded.{UnfoldingLaw};

/// Whoever has an instance of a list may have one of a list alike to it in its place: the outside can derive the same.
pub fn instance()
    ensures { InstanceLaw }
{}

/// Lists alike for a procedure name the same of its arguments and results.
pub fn labels()
    ensures { LabelsLaw }
{}

/// What a caller can conclude from a procedure's scheme is what it could conclude from all of the lists below it, under the
/// order of constants under which the schemes say what their groups' lists say: in unfolded lists, an instance of a
/// callee's own unfolded list stands in place of each instance of its scheme. Both name the same arguments and results of
/// the procedure. There are unfolded lists, one of each procedure.
pub fn unfolding()
    ensures there { ThereLaw }
    ensures one { OneLaw }
    ensures alike { UnfoldingLaw }
    ensures labels { UnfoldedLabelsLaw }
{}
