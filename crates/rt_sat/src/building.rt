// Tables of the ways along edges.
ghost use Rattle.std.specs.Prelude.{◌≡◌, ◌≤◌, length, IfOk};
ghost use Rattle.rt_sat.specs.Inside.Checks.{AreWalked};
ghost use Rattle.rt_sat.specs.Hints.{IsFamily};

use crate::family::Family;
use crate::hints::enter_lines;
use crate::state::Edge;
use rt_base::Memory;
use std::alloc::Global;

// The ways along edges, in tables of the classes of variables whose flags are set, those of one node, as far as counts are small. The error is
// out of memory.
pub(crate) fn built(
    alloc: Global,
    nodes: &[Option<u32>],
    edges: &[Edge],
    used: &[bool],
) -> Result<Family, Memory>
    requires each { length used.now ≡ length nodes.now }
    requires few { length nodes.now ≤ 4294967296 }
    ensures family { IfOk result (λ family. IsFamily (length nodes.now) family) }
    ensures walked { IfOk result (λ family. AreWalked family edges.now) }
{
    let mut family = Family::of(alloc, nodes, used)?;
    enter_lines(alloc, &mut family, edges)?;
    for class in 0..family.members.len() {
        family.close(alloc, class)?;
    }
    Ok(family)
}
