// The coarsest classes.
ghost use Rattle.std.specs.Prelude.{◌≡◌, IfOk};
ghost use Rattle.std.specs.BTreeMap.{get};
ghost use Rattle.std.specs.Ordering.{nat_cmp};
ghost use Rattle.rt_refine.specs.Groups.{AreListed, class_of};
ghost use Rattle.rt_refine.specs.Refinements.{IsCoarsest};
ghost use Rattle.rt_refine.specs.Splits.{AreClasses, IsSplitTwice};

use crate::grouping::Classes;
use crate::listing::named;
use crate::splitting::{either, shape_classes, split};
use crate::uses::Side;
use rt_base::Memory;
use rt_lines::Line;
use std::alloc::Global;

// The classes split by what stands beside their members on either side, and whether that gives other classes.
fn split_twice(
    alloc: Global,
    lines: &[Line],
    named: &[u32],
    classes: &Classes,
) -> Result<(Classes, bool), Memory>
    requires { AreListed lines.now named.now }
    ensures { IfOk result (λ r. AreClasses lines.now (class_of (get nat_cmp classes.now)) →
        IsSplitTwice lines.now (class_of (get nat_cmp classes.now)) (class_of (get nat_cmp r.0)) r.1) }
{
    let (lefts, left) = split(alloc, lines, named, classes, classes, Side::Left)?;
    let (rights, right) = split(alloc, lines, named, &lefts, &lefts, Side::Right)?;
    Ok((rights, either(left, right)))
}

/// The least member of the class of each existential that the lines name, in the coarsest classes whose members have one
/// shape and the same lines but for classes. The error is out of memory.
pub fn classes(alloc: Global, lines: &[Line]) -> Result<Classes, Memory>
    ensures { IfOk result (λ classes. IsCoarsest lines.now (class_of (get nat_cmp classes))) }
{
    let named = named(alloc, lines)?;
    let mut now = shape_classes(alloc, lines)?;
    let mut changed = true;
    while changed {
        let (parts, more) = split_twice(alloc, lines, &named, &now)?;
        now = parts;
        changed = more;
    }
    Ok(now)
}
