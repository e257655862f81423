// The text that `header` writes.
ghost use Rattle.std.specs.Prelude.{◌<◌, All, IfOk, length, ℕ};
ghost use Rattle.rt_lattice.specs.Lattices.{size_of};
ghost use Rattle.rt_link.specs.Links.{AreLinksOf};
ghost use Rattle.rt_liveness.specs.Ends.{ends_of};
ghost use Rattle.rt_sigs.specs.Signatures.{AreSignatures};
ghost use Rattle.rt_tree.specs.Trees.{Nodes};
ghost use Rattle.rt_sketch.specs.Sketches.{HasMarksBelow};
ghost use Rattle.rt_run.specs.Inside.Analyses.{IsAnalysis, procs_in};
ghost use Rattle.rt_run.specs.Headers.{AreSketches, IsHeaderTextOf};
ghost use Rattle.rt_run.specs.Objects.{IsInProfile};
ghost use Rattle.rt_run.specs.Sketches.{IsSketch};

use crate::analysis::Analysis;
use crate::objects::Program;
use rt_base::Memory;
use rt_cdecl::print;
use rt_header::{Sketches, header};
use rt_lattice::Lattice;
use rt_sigs::Sigs;
use rt_sketch::{Sketch, of};
use std::alloc::Global;

impl Analysis<'_> {
    // The sketch of the scheme of the procedure of a number.
    fn sketch(&self, alloc: Global, number: u32) -> Result<Sketch, Memory>
        requires analysis { IsAnalysis self.now }
        requires number { number < length (procs_in self.now) }
        ensures sketch { IfOk result (IsSketch self.now.lattice.now self.now.schemes number) }
        ensures marks { IfOk result (HasMarksBelow (size_of self.now.lattice.now)) }
    {
        let sketch = of(alloc, self.scheme(number), self.lattice)?;
        let _size = sketch.tree().size();
        let _names = self.lattice.names();
        Ok(sketch)
    }

    // Those of all procedures, with their numbers.
    fn sketches(&self, alloc: Global) -> Result<Sketches, Memory>
        requires { IsAnalysis self.now }
        ensures sketches { IfOk result (AreSketches self.now.lattice.now self.now.schemes (length (procs_in self.now))) }
        ensures marks { IfOk result (λ sketches. All (λ (s : ℕ × Nodes). HasMarksBelow (size_of self.now.lattice.now) s.1) sketches) }
    {
        let mut sketches = Sketches::new(alloc);
        for place in 0..self.facts.procs().items().len() {
            let number = place as u32;
            sketches.push((number, self.sketch(alloc, number)?))?;
        }
        Ok(sketches)
    }
}

/// The text of the header of an object of the profile. It holds the sketches of all procedures at a time. The error is out of
/// memory.
pub fn header_text(
    alloc: Global,
    program: &Program,
    sigs: &Sigs,
    lattice: &Lattice,
) -> Result<Vec<u8>, Memory>
    requires in_profile { IsInProfile program.now.object (ends_of program.now.object sigs.now) program.now.procs }
    requires links { AreLinksOf program.now.object program.now.links }
    requires signatures { AreSignatures (size_of lattice.now) sigs.now }
    ensures { IfOk result (λ text. IsHeaderTextOf lattice.now sigs.now program.now.object text.items) }
{
    let analysis = Analysis::of(alloc, program, sigs, lattice)?;
    let sketches = analysis.sketches(alloc)?;
    let decls = header(alloc, &sketches, lattice)?;
    print(alloc, &decls)
}
