// What arcs lead to.
ghost use Rattle.std.specs.Prelude.{◌≡◌, ℕ, true, false, [], Contains, IsTrue, ◌↔◌, IfOk, OnOk, slice_index_or};
ghost use Rattle.rt_named.specs.Numbers.{IsLeft};
ghost use Rattle.rt_outline.specs.Arcs.{AreLed, IsSpread, Leads, MayLead, allows};
ghost use Rattle.rt_outline.specs.declared.led.Led.TheVariants.{No as Never, Yes as Always};

use crate::arc::Arc;
use crate::found::Found;
use crate::led::Led;
use rt_base::{Memory, Sequence};
use std::alloc::{AllocError, Global};

// No fewer than there are numbers of variables.
pub(crate) const NUMBERS: usize = 0x1_0000_0000;

// Yes where arcs of lines that stand lead from a source to a target, and no where no such arcs and pushed ones do.
pub(crate) fn between(
    alloc: Global,
    arcs: &[Sequence<Arc>],
    stands: &[bool],
    sources: &[u32],
    targets: &[u32],
) -> Result<Led, Memory>
    ensures no { IfOk result (λ led. led ≡ Never → MayLead (Leads arcs.now stands.now true) sources.now targets.now → ⊥) }
    ensures yes { IfOk result (λ led. led ≡ Always → AreLed (Leads arcs.now stands.now false) sources.now targets.now) }
{
    if !may_lead(alloc, arcs, stands, sources, targets)? {
        return Ok(Led::No);
    }
    if are_led(alloc, arcs, stands, sources, targets)? {
        return Ok(Led::Yes);
    }
    Ok(Led::Open)
}

// Whether arcs, one or more, of lines that stand lead from one of the sources to one of the targets.
fn are_led(
    alloc: Global,
    arcs: &[Sequence<Arc>],
    stands: &[bool],
    sources: &[u32],
    targets: &[u32],
) -> Result<bool, Memory>
    ensures { IfOk result (λ yes. IsTrue yes ↔ AreLed (Leads arcs.now stands.now false) sources.now targets.now) }
{
    let mut found = Found::new(alloc, arcs.len())?;
    for source in sources {
        leave(arcs, stands, false, &mut found, *source)?;
    }
    spread(arcs, stands, false, &mut found)?;
    Ok(meets(&found, targets))
}

/// Whether one of the targets is one of the sources, or arcs of lines that stand and pushed arcs lead to it from one. The
/// error is out of memory.
pub fn may_lead(
    alloc: Global,
    arcs: &[Sequence<Arc>],
    stands: &[bool],
    sources: &[u32],
    targets: &[u32],
) -> Result<bool, Memory>
    ensures { IfOk result (λ yes. IsTrue yes ↔ MayLead (Leads arcs.now stands.now true) sources.now targets.now) }
{
    let mut found = Found::new(alloc, arcs.len())?;
    for source in sources {
        found.insert(*source)?;
    }
    spread(arcs, stands, true, &mut found)?;
    Ok(meets(&found, targets))
}

// Adds all that arcs lead to from those that are found.
pub(crate) fn spread(
    arcs: &[Sequence<Arc>],
    stands: &[bool],
    pushed: bool,
    found: &mut Found,
) -> Result<(), Memory>
    ensures { OnOk result (IsSpread (Leads arcs.now stands.now pushed) found.old found.new) }
{
    for i in 0..NUMBERS {
        let Some(next) = found.get(i) else {
            return Ok(());
        };
        leave(arcs, stands, pushed, found, next)?;
    }
    Err(AllocError)
}

// Adds what arcs lead to from a variable.
pub(crate) fn leave(
    arcs: &[Sequence<Arc>],
    stands: &[bool],
    pushed: bool,
    found: &mut Found,
    from: u32,
) -> Result<(), Memory>
    ensures { OnOk result (IsLeft (Leads arcs.now stands.now pushed from) found.old found.new) }
{
    for arc in leaving(arcs, from) {
        follow(stands, pushed, found, *arc)?;
    }
    Ok(())
}

// Adds what an arc leads to, where it is open.
fn follow(stands: &[bool], pushed: bool, found: &mut Found, arc: Arc) -> Result<(), Memory>
    ensures { OnOk result (IsLeft (λ (w : ℕ). (arc.to ≡ w) × (allows stands.now pushed arc.line ≡ true)) found.old found.new) }
{
    if is_open(stands, pushed, arc.line) {
        found.insert(arc.to)?;
    }
    Ok(())
}

// Whether an arc may be followed: one of a line that stands, or a pushed one.
pub(crate) fn is_open(stands: &[bool], pushed: bool, line: Option<u32>) -> bool
    ensures { result ≡ allows stands.now pushed line }
{
    match line {
        Some(i) => is_standing(stands, i as usize),
        None => pushed,
    }
}

// Whether there is a flag at the index, and it is set.
pub(crate) fn is_standing(stands: &[bool], i: usize) -> bool
    ensures { result ≡ slice_index_or stands.now i false }
{
    match stands.get(i) {
        Some(flag) => *flag,
        None => false,
    }
}

// The arcs that leave a variable.
pub(crate) fn leaving(arcs: &[Sequence<Arc>], variable: u32) -> &[Arc]
    ensures { result.now ≡ slice_index_or arcs.now variable [] }
{
    match arcs.get(variable as usize) {
        Some(leaving) => leaving.items(),
        None => &[],
    }
}

// Whether one of the numbers is found.
pub(crate) fn meets(found: &Found, targets: &[u32]) -> bool
    ensures { IsTrue result ↔ ((t : ℕ) × Contains targets.now t × Contains found.now t) }
{
    for target in targets {
        if found.contains(*target) {
            return true;
        }
    }
    false
}
