// The text that `sketches` writes.
ghost use Rattle.std.specs.Prelude.{◌≡◌, ◌<◌, All, None, Some, IfOk, OnOk, length, slice_index_or};
ghost use Rattle.rt_lines.specs.Lines.{HasConstantsBelow};
ghost use Rattle.rt_lattice.specs.Lattices.{size_of};
ghost use Rattle.rt_link.specs.Links.{AreLinksOf};
ghost use Rattle.rt_liveness.specs.Ends.{ends_of};
ghost use Rattle.rt_sigs.specs.Signatures.{AreSignatures};
ghost use Rattle.rt_run.specs.Inside.Analyses.{IsAnalysis, procs_in};
ghost use Rattle.rt_run.specs.Objects.{IsInProfile};
ghost use Rattle.rt_run.specs.Sketches.{AddsSketch, IsSketchesOf};

use crate::analysis::Analysis;
use crate::objects::Program;
use rt_base::Memory;
use rt_lattice::Lattice;
use rt_proc::Proc;
use rt_scheme::{Place2, Scheme, print_heading};
use rt_sigs::Sigs;
use rt_sketch::{of, print};
use std::alloc::Global;

impl Analysis<'_> {
    // The scheme of the procedure of a number.
    pub(crate) fn scheme(&self, number: u32) -> &Scheme
        requires analysis { IsAnalysis self.now }
        requires number { number < length (procs_in self.now) }
        ensures found { slice_index_or self.now.schemes number None ≡ Some result.now }
        ensures own { result.now.base ≡ number }
        ensures constants { All (HasConstantsBelow (size_of self.now.lattice.now)) result.now.lines }
    {
        match self.schemes.get(number) {
            Some(scheme) => scheme,
            // Each procedure has a scheme.
            None => unreachable!(),
        }
    }

    // Adds a procedure with the sketch of its scheme.
    fn push_sketch(
        &self,
        alloc: Global,
        number: u32,
        proc: &Proc,
        text: &mut Vec<u8>,
    ) -> Result<(), Memory>
        requires analysis { IsAnalysis self.now }
        requires number { number < length (procs_in self.now) }
        ensures { OnOk result (AddsSketch self.now.lattice.now self.now.schemes number proc.now text.old.items text.new.items) }
    {
        let sketch = of(alloc, self.scheme(number), self.lattice)?;
        let place = Place2 {
            section: proc.entry.section,
            offset: proc.entry.offset,
        };
        print_heading(number, place, proc.name.items(), text)?;
        print(
            sketch.tree(),
            self.lattice.names(),
            self.lattice.order(),
            text,
        )?;
        text.extend_from_slice(b"end\n")
    }
}

/// The text of the sketches of an object of the profile. Beside the text it holds one sketch at a time. The error is out of memory.
pub fn sketches_text(
    alloc: Global,
    program: &Program,
    sigs: &Sigs,
    lattice: &Lattice,
) -> Result<Vec<u8>, Memory>
    requires in_profile { IsInProfile program.now.object (ends_of program.now.object sigs.now) program.now.procs }
    requires links { AreLinksOf program.now.object program.now.links }
    requires signatures { AreSignatures (size_of lattice.now) sigs.now }
    ensures { IfOk result (λ text. IsSketchesOf lattice.now sigs.now program.now.object text.items) }
{
    let analysis = Analysis::of(alloc, program, sigs, lattice)?;
    let mut text = Vec::new(alloc);
    for (place, proc) in analysis.facts.procs().items().iter().enumerate() {
        let number = place as u32;
        analysis.push_sketch(alloc, number, proc, &mut text)?;
    }
    Ok(text)
}
