// The existentials that lead out, and the classes that begin with them.
ghost use Rattle.std.specs.Prelude.{◌≡◌, ◌↔◌, ℕ, true, IfOk};
ghost use Rattle.std.specs.BTreeMap.{get};
ghost use Rattle.std.specs.BTreeSet.{contains};
ghost use Rattle.std.specs.Ordering.{nat_cmp};
ghost use Rattle.rt_refine.specs.Groups.{class_of};
ghost use Rattle.rt_twins.specs.Inside.Leading.{DoLead, lead_key};
ghost use Rattle.rt_twins.specs.Inside.Splits.{AreClasses};

use crate::arrows::{arrows, beside_others, first_arrow};
use rt_base::Memory;
use rt_lines::{Line, Variance};
use rt_refine::{Classes, existentials, follow};
use std::alloc::Global;
use std::collections::{BTreeMap, BTreeSet};

/// The existentials that lead out: a chain of uses of the sign without a letter goes from them to a base that is no
/// existential with such a use. The error is out of memory.
pub fn leading(alloc: Global, lines: &[Line], sign: Variance) -> Result<BTreeSet<u32>, Memory>
    ensures { IfOk result (λ out. DoLead sign lines.now (contains nat_cmp out)) }
{
    let none = BTreeSet::new(alloc);
    // All with such a use, and of these the ones with one beside an end.
    let bare = beside_others(alloc, lines, sign, &none)?;
    let mut pending = beside_others(alloc, lines, sign, &bare)?;
    let mut arrows = arrows(alloc, lines, sign)?;
    let mut out = BTreeSet::new(alloc);
    while let Some(least) = pending.first() {
        let existential = *least;
        match first_arrow(&arrows, existential) {
            Some(other) => {
                arrows.remove(&(existential, other));
                pending.insert(other)?;
            }
            None => {
                pending.remove(&existential);
                out.insert(existential)?;
            }
        }
    }
    Ok(out)
}

// What those share that lead out: nothing. Each other one has its number.
fn lead_key(alloc: Global, out: &BTreeSet<u32>, existential: u32) -> Result<Vec<usize>, Memory>
    ensures { IfOk result (λ key. key.items ≡ lead_key (contains nat_cmp out.now existential) existential) }
{
    if out.contains(&existential) {
        Ok(Vec::new(alloc))
    } else {
        Ok(vec![in alloc; existential as usize]?)
    }
}

/// All existentials that lead out in one class, and each other one alone. The error is out of memory.
pub fn leading_classes(
    alloc: Global,
    lines: &[Line],
    sign: Variance,
    out: &BTreeSet<u32>,
) -> Result<Classes, Memory>
    requires { DoLead sign lines.now (contains nat_cmp out.now) }
    ensures { IfOk result (λ classes. AreClasses sign lines.now (class_of (get nat_cmp classes))) }
{
    let mut pending = existentials(alloc, lines)?;
    let mut leaders = BTreeMap::new(alloc);
    let mut classes = BTreeMap::new(alloc);
    while let Some(existential) = pending.pop_first() {
        let key = lead_key(alloc, out, existential)?;
        follow(&mut leaders, &mut classes, key, existential)?;
    }
    Ok(classes)
}
