// Runs of a plan over the groups of an object's procedures.
ghost use Rattle.std.specs.Prelude.{◌≡◌, ◌<◌, ◌≤◌, All, IfOk, IsSome, OnErr, OnOk, Some, fold, length};
ghost use Rattle.rt_lattice.specs.Lattices.{size_of};
ghost use Rattle.rt_components.specs.Groups.{group_at};
ghost use Rattle.rt_calls.specs.Calls.{AreGroupsOf};
ghost use Rattle.rt_plan.specs.Plans.{held_by, published_by, worker_of};
ghost use Rattle.rt_sigs.specs.Signatures.{AreSignatures};
ghost use Rattle.rt_table.specs.Facts.{IsFactsOf};
ghost use Rattle.rt_table.specs.Lists.{AreGiven};
ghost use Rattle.rt_solve.specs.Runs.{AreSchemesAfter, IsStep, IsTaskWith, first_stage};
ghost use Rattle.rt_solve.specs.Solved.{with_scheme};
ghost use Rattle.rt_solve.specs.Steps.{RoseBy, once};
ghost use Rattle.rt_solve.specs.Inside.Courses.{AreFoundFor};

use crate::group::solve_group;
use crate::steps::Steps;
use rt_base::Memory;
use rt_calls::{Groups, callees_of};
use rt_lattice::Lattice;
use rt_plan::{Answer, Board, Event, apply};
use rt_scheme::Schemes;
use rt_settle::GroupSchemes;
use rt_sigs::Sigs;
use rt_table::{Facts, lines_of};
use std::alloc::Global;
use std::marker::Model;

/// A run of a plan over the groups of an object's procedures: what is solved, the board of the plan, and the schemes that were found,
/// which are those of the published groups. Contracts see these, with how many constants the lattice has.
#[derive(Drop)]
pub struct Run<'a> {
    alloc: Global,
    facts: &'a Facts<'a>,
    groups: &'a Groups,
    sigs: &'a Sigs,
    lattice: &'a Lattice,
    board: Board,
    schemes: Schemes,
}

impl<'a> Model for Run<'a> {
    ghost use Rattle.rt_solve.specs.Runs.{Course};
    ghost use Rattle.rt_solve.specs.Inside.Courses.{IsCourse, course_of};

    ghost Value = { Course };

    ghost view = { λ r. course_of r.facts.now r.groups.now r.sigs.now r.lattice.now r.board r.schemes };

    ghost invariant = { λ r. IsCourse r.facts.now r.groups.now r.sigs.now r.lattice.now r.board r.schemes };
}

// Puts each scheme at its procedure's number.
fn set_schemes(schemes: &mut Schemes, found: GroupSchemes)
    requires { All (λ scheme. scheme.base < length schemes.old) found }
    ensures { schemes.new ≡ fold with_scheme schemes.old found }
{
    for scheme in found.into_vec() {
        schemes.set(scheme.base, scheme);
    }
}

impl<'a> Run<'a> {
    /// A run of so many workers before its first event: each group is open, and no scheme was found. The error is out of memory.
    ///
    /// Condition: there is a worker, the groups are those of the facts' procedures, callees first, the signatures are those that the
    /// facts were prepared with, and their constants are names of the lattice.
    pub fn new(
        alloc: Global,
        facts: &'a Facts<'a>,
        groups: &'a Groups,
        sigs: &'a Sigs,
        lattice: &'a Lattice,
        workers: u32,
    ) -> Result<Run<'a>, Memory>
        requires facts { IsFactsOf facts.now.object.now facts.now.procs.now facts.now.sigs.now facts.now }
        requires groups { AreGroupsOf facts.now.procs.now groups.now }
        requires sigs { sigs.now ≡ facts.now.sigs.now }
        requires signatures { AreSignatures (size_of lattice.now) sigs.now }
        requires workers { 1 ≤ workers }
        ensures task { IfOk result (λ run. IsTaskWith facts.now.object.now lattice.now.roles lattice.now.order facts.now.procs.now sigs.now
            groups.now run.task) }
        ensures stage { IfOk result (λ run. run.stage ≡ first_stage run.task workers) }
        ensures count { IfOk result (λ run. run.count ≡ size_of lattice.now) }
    {
        let callees = callees_of(alloc, facts.procs(), groups)?;
        let board = Board::new(alloc, callees.items(), workers)?;
        let schemes = Schemes::new(alloc, facts.procs().len() as u32)?;
        Ok(Run {
            alloc,
            facts,
            groups,
            sigs,
            lattice,
            board,
            schemes,
        })
    }

    /// The group that a worker holds, if it holds one. It takes no memory.
    pub fn held(&self, worker: u32) -> Option<u32>
        requires { worker < self.now.stage.board.workers }
        ensures { result ≡ held_by self.now.stage.board worker }
    {
        self.board.held(worker)
    }

    /// The schemes that were found, by their procedures' numbers. It takes no memory.
    pub fn schemes(&self) -> &Schemes
        ensures { result.now ≡ self.now.stage.schemes }
    {
        &self.schemes
    }

    // The schemes that were found, of a run that is over.
    pub(crate) fn into_schemes(self) -> Schemes
        ensures schemes { result ≡ self.entry.stage.schemes }
        ensures given { AreGiven self.entry.task.object self.entry.count result }
    {
        self.schemes
    }

    // The schemes of the members of a group.
    fn found<L>(&self, group: u32, steps: &mut Steps<L>) -> Result<GroupSchemes, Memory>
        requires { group < length self.now.task.groups }
        ensures found { IfOk result (AreFoundFor self.now (group_at self.now.task.groups group)) }
        ensures rose { OnOk result (RoseBy 1 steps.old steps.new) }
        ensures err { OnErr result (steps.new ≡ steps.old) }
    {
        let members = self.groups.items()[group as usize].items();
        let bodies = lines_of(
            self.alloc,
            self.facts,
            members,
            &self.schemes,
            self.sigs,
            self.lattice,
        )?;
        solve_group(self.alloc, &bodies, self.lattice.order(), steps)
    }

    // Solves a group, and adds the schemes of its members.
    fn solve<L>(&mut self, group: u32, steps: &mut Steps<L>) -> Result<(), Memory>
        requires { group < length self.old.task.groups }
        ensures task { self.new.task ≡ self.old.task }
        ensures count { self.new.count ≡ self.old.count }
        ensures board { self.new.stage.board ≡ self.old.stage.board }
        ensures added { OnOk result (AreSchemesAfter self.old.task (Some group) self.old.stage.schemes self.new.stage.schemes) }
        ensures rose { OnOk result (RoseBy 1 steps.old steps.new) }
        ensures err { OnErr result (self.new ≡ self.old) }
        ensures err_steps { OnErr result (steps.new ≡ steps.old) }
    {
        let found = self.found(group, steps)?;
        set_schemes(&mut self.schemes, found);
        Ok(())
    }

    /// One event of a worker: its answer is the plan's, and an event that publishes a group solves it first. The schemes of the group's
    /// members have nothing to spare, and say to whoever calls them, under the order of the lattice, the same as the lists of the
    /// members together, where callees outside the group have the schemes that were found before and functions outside their
    /// signatures. The counter rises by one where a group is published. The error is out of memory, which comes only where a group is
    /// to be published; run and counter are then as they were.
    ///
    /// Condition: the event's worker is one of the run's.
    pub fn step<L>(&mut self, event: Event, steps: &mut Steps<L>) -> Result<Answer, Memory>
        requires { worker_of event < self.old.stage.board.workers }
        ensures task { self.new.task ≡ self.old.task }
        ensures count { self.new.count ≡ self.old.count }
        ensures step { IfOk result (λ answer. IsStep self.old.task self.old.stage event answer self.new.stage) }
        ensures rose { OnOk result (RoseBy (once (published_by self.old.stage.board event)) steps.old steps.new) }
        ensures err { OnErr result (self.new ≡ self.old) }
        ensures err_steps { OnErr result (steps.new ≡ steps.old) }
        ensures publishes { OnErr result (IsSome (published_by self.old.stage.board event)) }
    {
        if let Some(group) = self.board.published(event) {
            self.solve(group, steps)?;
        }
        Ok(apply(&mut self.board, event))
    }
}
