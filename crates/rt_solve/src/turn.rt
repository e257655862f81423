// One turn of the driver of a run.
ghost use Rattle.std.specs.Prelude.{◌≡◌, ◌<◌, ◌++◌, ℕ, IfOk, None, OnErr, OnOk, Some, IsSome, [], ◌∷◌};
ghost use Rattle.rt_plan.specs.Driver.{first_holder, next_state, turn_of};
ghost use Rattle.rt_plan.specs.Laws.{AreDriven};
ghost use Rattle.rt_plan.specs.Plans.{AreLower, held_by};
ghost use Rattle.rt_solve.specs.Steps.{RoseBy};
ghost use Rattle.rt_solve.specs.Inside.Turns.{Helps, Publishes, Turns};

use crate::run::Run;
use crate::schedule::Schedule;
use crate::steps::Steps;
use rt_base::Memory;
use rt_plan::{Answer, Event};

/// How many workers are driven.
pub const WORKERS: u32 = 4;

/// The state of the driver in the next turn.
pub fn next_state(state: u32) -> u32
    ensures { result ≡ next_state state }
{
    state.wrapping_mul(1_664_525).wrapping_add(1_013_904_223)
}

/// The worker whose turn it is.
pub fn turn_of(state: u32) -> u32
    ensures worker { result ≡ turn_of state }
    ensures within { result < 4 }
{
    state / 65_536 % WORKERS
}

// The least worker that holds a group.
fn first_holder(run: &Run<'_>) -> Option<u32>
    requires { run.now.stage.board.workers ≡ 4 }
    ensures { result ≡ first_holder run.now.stage.board }
{
    for worker in 0..WORKERS {
        if run.held(worker).is_some() {
            return Some(worker);
        }
    }
    None
}

// A worker publishes the group that it holds.
fn publish<L>(run: &mut Run<'_>, worker: u32, steps: &mut Steps<L>) -> Result<(), Memory>
    requires worker { worker < run.old.stage.board.workers }
    requires holds { IsSome (held_by run.old.stage.board worker) }
    ensures publishes { OnOk result (Publishes worker run.old run.new) }
    ensures rose { OnOk result (RoseBy 1 steps.old steps.new) }
    ensures err_steps { OnErr result (steps.new ≡ steps.old) }
{
    run.step(Event::Publish(worker), steps)?;
    Ok(())
}

// The least worker that holds a group publishes it.
fn help<L>(run: &mut Run<'_>, steps: &mut Steps<L>) -> Result<(), Memory>
    requires workers { run.old.stage.board.workers ≡ 4 }
    requires holds { IsSome (first_holder run.old.stage.board) }
    ensures helps { OnOk result (Helps run.old run.new) }
    ensures rose { OnOk result (RoseBy 1 steps.old steps.new) }
    ensures err_steps { OnErr result (steps.new ≡ steps.old) }
{
    let Some(worker) = first_holder(run) else {
        unreachable!()
    };
    publish(run, worker, steps)
}

// Notes that a worker got the group that it holds. When out of memory, the schedule is as it was.
fn note(run: &Run<'_>, worker: u32, schedule: &mut Schedule) -> Result<(), Memory>
    requires { worker < run.now.stage.board.workers }
    ensures noted { OnOk result ((group : ℕ) → held_by run.now.stage.board worker ≡ Some group
        → schedule.new ≡ record { number = schedule.old.number; claims = schedule.old.claims ++ (worker, group) ∷ [] }) }
    ensures err { OnErr result (schedule.new ≡ schedule.old) }
{
    if let Some(group) = run.held(worker) {
        schedule.note(worker, group)?;
    }
    Ok(())
}

// A worker that holds none claims a group; where none is ready, the least worker that holds one publishes it. The answer is whether
// something was left to do.
fn claim<L>(
    run: &mut Run<'_>,
    worker: u32,
    schedule: &mut Schedule,
    steps: &mut Steps<L>,
) -> Result<bool, Memory>
    requires workers { run.old.stage.board.workers ≡ 4 }
    requires worker { worker < 4 }
    requires lower { AreLower run.old.stage.board.callees }
    requires driven { AreDriven run.old.stage.board }
    requires none { held_by run.old.stage.board worker ≡ None }
    ensures turns { IfOk result (λ goes_on. Turns goes_on worker run.old run.new schedule.old schedule.new steps.old steps.new) }
    ensures err { OnErr result (schedule.new ≡ schedule.old) }
    ensures err_steps { OnErr result (steps.new ≡ steps.old) }
{
    match run.step(Event::Claim(worker), steps)? {
        Answer::AllDone => return Ok(false),
        Answer::Done => note(run, worker, schedule)?,
        _ => help(run, steps)?,
    }
    Ok(true)
}

/// One turn of a worker: it publishes the group that it holds. Where it holds none it claims one, and where none is ready the least
/// worker that holds one publishes it. The answer is whether something was left to do. The error is out of memory; schedule and counter
/// are then as they were.
pub fn turn<L>(
    run: &mut Run<'_>,
    worker: u32,
    schedule: &mut Schedule,
    steps: &mut Steps<L>,
) -> Result<bool, Memory>
    requires workers { run.old.stage.board.workers ≡ 4 }
    requires worker { worker < 4 }
    requires lower { AreLower run.old.stage.board.callees }
    requires driven { AreDriven run.old.stage.board }
    ensures turns { IfOk result (λ goes_on. Turns goes_on worker run.old run.new schedule.old schedule.new steps.old steps.new) }
    ensures err { OnErr result (schedule.new ≡ schedule.old) }
    ensures err_steps { OnErr result (steps.new ≡ steps.old) }
{
    if run.held(worker).is_none() {
        return claim(run, worker, schedule, steps);
    }
    publish(run, worker, steps)?;
    Ok(true)
}
