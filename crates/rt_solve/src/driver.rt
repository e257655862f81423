// A run is driven to its end.
ghost use Rattle.std.specs.Prelude.{◌≡◌, [], OnErr, OnOk, length};
ghost use Rattle.rt_plan.specs.Driver.{Drives, IsFrontOf};
ghost use Rattle.rt_plan.specs.Plans.{start};
ghost use Rattle.rt_solve.specs.Runs.{IsTask, first_stage};
ghost use Rattle.rt_solve.specs.Steps.{RoseAtMost, RoseBy};
ghost use Rattle.rt_solve.specs.Inside.Turns.{IsOver};

use crate::run::Run;
use crate::schedule::Schedule;
use crate::steps::Steps;
use crate::turn::{next_state, turn, turn_of};
use rt_base::Memory;

/// Drives four workers through a run from its first event to its end, by the schedule's number, and notes the claims that are done. The
/// error is out of memory, where the claims that were noted are the first ones.
pub fn drive<L>(
    run: &mut Run<'_>,
    schedule: &mut Schedule,
    steps: &mut Steps<L>,
) -> Result<(), Memory>
    requires task { IsTask run.old.task }
    requires start { run.old.stage ≡ first_stage run.old.task 4 }
    requires schedule { schedule.old.claims ≡ [] }
    ensures over { OnOk result (IsOver run.old run.new) }
    ensures number { schedule.new.number ≡ schedule.old.number }
    ensures claims { OnOk result (Drives schedule.old.number (start 4 run.old.task.callees) schedule.new.claims) }
    ensures front { IsFrontOf schedule.old.number (start 4 run.old.task.callees) schedule.new.claims }
    ensures rose { OnOk result (RoseBy (length run.old.task.groups) steps.old steps.new) }
    ensures rose_at_most { OnErr result (RoseAtMost (length run.old.task.groups) steps.old steps.new) }
{
    let mut state = schedule.number();
    let mut goes_on = true;
    while goes_on {
        state = next_state(state);
        goes_on = turn(run, turn_of(state), schedule, steps)?;
    }
    Ok(())
}
