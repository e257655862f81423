// The texts that `constraints` and `schemes` write.
ghost use Rattle.std.specs.Prelude.{IfOk};
ghost use Rattle.rt_lattice.specs.Lattices.{size_of};
ghost use Rattle.rt_link.specs.Links.{AreLinksOf};
ghost use Rattle.rt_liveness.specs.Ends.{ends_of};
ghost use Rattle.rt_sigs.specs.Signatures.{AreSignatures};
ghost use Rattle.rt_run.specs.Objects.{IsInProfile};
ghost use Rattle.rt_run.specs.Reports.{IsReportOf};

use crate::analysis::Analysis;
use crate::content::Told;
use crate::entries::entries_of;
use crate::globals::globals_of;
use crate::objects::Program;
use rt_base::Memory;
use rt_lattice::Lattice;
use rt_scheme::{Report, print_report};
use rt_sigs::Sigs;
use std::alloc::Global;

/// The text of a report of an object of the profile, with these lines of each procedure. The error is out of memory.
pub fn report_text(
    alloc: Global,
    told: Told,
    program: &Program,
    sigs: &Sigs,
    lattice: &Lattice,
) -> Result<Vec<u8>, Memory>
    requires in_profile { IsInProfile program.now.object (ends_of program.now.object sigs.now) program.now.procs }
    requires links { AreLinksOf program.now.object program.now.links }
    requires signatures { AreSignatures (size_of lattice.now) sigs.now }
    ensures { IfOk result (λ text. IsReportOf told lattice.now sigs.now program.now.object text.items) }
{
    let analysis = Analysis::of(alloc, program, sigs, lattice)?;
    let entries = entries_of(alloc, told, &analysis)?;
    let globals = globals_of(alloc, &program.object, entries.items())?;
    let report = Report { globals, entries };
    print_report(alloc, &report, lattice.names())
}
