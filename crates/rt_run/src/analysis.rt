// What is worked out of an object before it is written.
ghost use Rattle.std.specs.Prelude.{◌≡◌, None, IfOk};

use crate::objects::Program;
use rt_base::Memory;
use rt_calls::{Groups, groups_of};
use rt_lattice::Lattice;
use rt_scheme::Schemes;
use rt_sigs::Sigs;
use rt_solve::{Schedule, Steps, solve_all};
use rt_table::{Facts, prepare};
use std::alloc::Global;

/// The number by which the workers are driven who solve the groups.
const SCHEDULE: u32 = 0;

/// What is known of an object's procedures, the groups of those that call each other, and their schemes.
#[derive(Drop)]
pub struct Analysis<'a> {
    /// What is known of the procedures.
    pub facts: Facts<'a>,
    /// Their groups, callees first.
    pub groups: Groups,
    /// Their schemes.
    pub schemes: Schemes,
    /// The signatures of functions outside.
    pub sigs: &'a Sigs,
    /// The lattice of the constants.
    pub lattice: &'a Lattice,
}

impl<'a> Analysis<'a> {
    ghost use Rattle.rt_lattice.specs.Lattices.{size_of};
    ghost use Rattle.rt_link.specs.Links.{AreLinksOf};
    ghost use Rattle.rt_liveness.specs.Ends.{ends_of};
    ghost use Rattle.rt_sigs.specs.Signatures.{AreSignatures};
    ghost use Rattle.rt_run.specs.Inside.Analyses.{IsAnalysis, object_in, procs_in};
    ghost use Rattle.rt_run.specs.Objects.{IsInProfile};

    /// The analysis of an object of the profile, with these signatures and this lattice.
    pub fn of(
        alloc: Global,
        program: &'a Program,
        sigs: &'a Sigs,
        lattice: &'a Lattice,
    ) -> Result<Analysis<'a>, Memory>
        requires in_profile { IsInProfile program.now.object (ends_of program.now.object sigs.now) program.now.procs }
        requires links { AreLinksOf program.now.object program.now.links }
        requires signatures { AreSignatures (size_of lattice.now) sigs.now }
        ensures is_analysis { IfOk result IsAnalysis }
        ensures object { IfOk result (λ analysis. object_in analysis ≡ program.now.object) }
        ensures procs { IfOk result (λ analysis. procs_in analysis ≡ program.now.procs) }
        ensures signatures { IfOk result (λ analysis. analysis.sigs.now ≡ sigs.now) }
        ensures lattice { IfOk result (λ analysis. analysis.lattice.now ≡ lattice.now) }
    {
        let facts = prepare(alloc, &program.object, &program.links, &program.procs, sigs)?;
        let groups = groups_of(alloc, &program.procs)?;
        let mut schedule = Schedule::new(alloc, SCHEDULE);
        let mut steps = Steps::new(());
        let schemes = solve_all(
            alloc,
            &facts,
            &groups,
            sigs,
            lattice,
            &mut schedule,
            &mut steps,
        )?;
        Ok(Analysis {
            facts,
            groups,
            schemes,
            sigs,
            lattice,
        })
    }
}
