// The schemes of all procedures of an object.
ghost use Rattle.std.specs.Prelude.{◌≡◌, ℕ, List, [], IfOk, OnErr, OnOk, length};
ghost use Rattle.rt_lattice.specs.Lattices.{size_of};
ghost use Rattle.rt_calls.specs.Calls.{AreGroupsOf};
ghost use Rattle.rt_calls.specs.Callees.{AreCalleesOf};
ghost use Rattle.rt_plan.specs.Driver.{Drives, IsFrontOf};
ghost use Rattle.rt_plan.specs.Plans.{start};
ghost use Rattle.rt_sigs.specs.Signatures.{AreSignatures};
ghost use Rattle.rt_table.specs.Facts.{IsFactsOf};
ghost use Rattle.rt_table.specs.Lists.{AreGiven};
ghost use Rattle.rt_solve.specs.Solved.{AreSolved};
ghost use Rattle.rt_solve.specs.Steps.{RoseAtMost, RoseBy};

use crate::driver::drive;
use crate::run::Run;
use crate::schedule::Schedule;
use crate::steps::Steps;
use crate::turn::WORKERS;
use rt_base::Memory;
use rt_calls::Groups;
use rt_lattice::Lattice;
use rt_scheme::Schemes;
use rt_sigs::Sigs;
use rt_table::Facts;
use std::alloc::Global;

/// The schemes of all procedures, group after group as four workers get and publish them who are driven by the schedule's number: those of
/// a group's members have nothing to spare, and say to whoever calls them, under the order of the lattice, the same as the lists of the
/// members together, where callees outside the group have the schemes that are answered and functions outside their signatures. They are
/// the same for each number. The schedule notes the claims that are done, and the counter rises by the number of groups.
///
/// The error is out of memory: the claims that are noted are then the first ones, and the counter rose by no more.
///
/// Condition: the groups are those of the facts' procedures, callees first, the signatures are those that the facts were
/// prepared with, their constants are names of the lattice, and the schedule has no claims.
pub fn solve_all<L>(
    alloc: Global,
    facts: &Facts<'_>,
    groups: &Groups,
    sigs: &Sigs,
    lattice: &Lattice,
    schedule: &mut Schedule,
    steps: &mut Steps<L>,
) -> Result<Schemes, Memory>
    requires facts { IsFactsOf facts.now.object.now facts.now.procs.now facts.now.sigs.now facts.now }
    requires groups { AreGroupsOf facts.now.procs.now groups.now }
    requires sigs { sigs.now ≡ facts.now.sigs.now }
    requires signatures { AreSignatures (size_of lattice.now) sigs.now }
    requires schedule { schedule.old.claims ≡ [] }
    ensures solved { IfOk result (AreSolved facts.now.object.now lattice.now.roles lattice.now.order facts.now.procs.now sigs.now
        groups.now) }
    ensures given { IfOk result (AreGiven facts.now.object.now (size_of lattice.now)) }
    ensures number { schedule.new.number ≡ schedule.old.number }
    ensures claims { OnOk result ((callees : List (List ℕ)) → AreCalleesOf facts.now.procs.now groups.now callees
        → Drives schedule.old.number (start 4 callees) schedule.new.claims) }
    ensures front { (callees : List (List ℕ)) → AreCalleesOf facts.now.procs.now groups.now callees
        → IsFrontOf schedule.old.number (start 4 callees) schedule.new.claims }
    ensures rose { OnOk result (RoseBy (length groups.now) steps.old steps.new) }
    ensures rose_at_most { OnErr result (RoseAtMost (length groups.now) steps.old steps.new) }
{
    let mut run = Run::new(alloc, facts, groups, sigs, lattice, WORKERS)?;
    drive(&mut run, schedule, steps)?;
    Ok(run.into_schemes())
}
