// The machine of lines, and the marks of its states.
ghost use Rattle.std.specs.Prelude.{All, IfOk, List};
ghost use Rattle.rt_lines.specs.declared.line.Line.{Line as Given};
ghost use Rattle.rt_lines.specs.declared.variable.Dtv.{Dtv as Variable};
ghost use Rattle.rt_lines.specs.Lines.{HasConstantsBelow};
ghost use Rattle.rt_lines.specs.OrderFacts.{IsOrder};
ghost use Rattle.rt_lattice.specs.Lattices.{IsLattice, size_of};
ghost use Rattle.rt_sketch.specs.Bounds.{AreBelow};
ghost use Rattle.rt_sketch.specs.Sketches.{AreMarks};
ghost use Rattle.rt_sketch.specs.States.{Denotes, IsMachineOf};

use crate::bounds::{lows_of, ups_of};
use crate::machine::Machine;
use crate::marks::{joined, met};
use crate::state::State;
use rt_base::Memory;
use rt_lattice::Lattice;
use rt_lines::Line;
use rt_ways::Ways;
use std::alloc::Global;

impl Machine {
    // The machine of lines.
    pub(crate) fn of(alloc: Global, lines: &[Line]) -> Result<Machine, Memory>
        ensures { IfOk result (IsMachineOf lines.now) }
    {
        let shape = rt_shape::of(alloc, lines)?;
        let ways = Ways::of(alloc, lines)?;
        let lows = lows_of(alloc, ways.named(), lines)?;
        let ups = ups_of(alloc, ways.named(), lines)?;
        Ok(Machine {
            shape,
            ways,
            lows,
            ups,
        })
    }

    // The marks of what a state denotes: the join of the lower bounds of what is below, the meet of the upper bounds of what is
    // above.
    pub(crate) fn mark(&self, lattice: &Lattice, state: &State) -> (u16, u16)
        requires lattice { IsLattice lattice.now }
        requires order { IsOrder lattice.now.order }
        requires lows { AreBelow (size_of lattice.now) self.now.lows.items }
        requires ups { AreBelow (size_of lattice.now) self.now.ups.items }
        ensures { (lines : List Given) (x : Variable) → IsMachineOf lines self.now →
            All (HasConstantsBelow (size_of lattice.now)) lines →
            Denotes lines self.now state.now x → AreMarks lattice.now.order lines x result }
    {
        let low = joined(lattice, &self.lows, &state.below);
        let up = met(lattice, &self.ups, &state.above);
        (low, up)
    }
}
