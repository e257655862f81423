// Ways of arcs of lines that stand, and of pushed arcs that rest on such ways.
ghost use Rattle.std.specs.Prelude.{◌≡◌, ℕ, true, false, Contains, Some, IsTrue, IfOk, IfSome, OnOk};
ghost use Rattle.rt_outline.specs.Arcs.{AreTurned, HasArc, Leads, MayLead};
ghost use Rattle.rt_outline.specs.Inside.Resting.{AreBelowSome, AreKnown, AreMoreRested, AreRested};
ghost use Rattle.rt_outline.specs.Inside.Resting.{IsBehind, IsBelowSome, IsOrdered, IsPointer, IsSide, Rests};
ghost use Rattle.rt_outline.specs.declared.resting.Kept.{Kept as Told};
ghost use Rattle.rt_outline.specs.declared.led.Led.TheVariants.{No as Never, Yes as Always};

use crate::arc::Arc;
use crate::found::Found;
use crate::led::Led;
use crate::spreading::{NUMBERS, between, is_open, leaving, meets};
use rt_base::{Memory, Sequence};
use rt_lines::{Label, Variance};
use rt_named::{Named, Origin};
use std::alloc::{AllocError, Global};

// How far pushed arcs are followed back to lines.
const DEPTH: u32 = 6;

// Of how many sources it is kept what such ways lead to. Each takes a flag for each node.
const KEPT: usize = 64;

// A source, and what such ways lead to from it.
#[derive(Drop)]
pub(crate) struct Kept {
    source: u32,
    found: Found,
}

// Arcs between variables and the same arcs the other way, and which lines stand.
#[derive(Drop)]
pub(crate) struct Ground<'a> {
    pub(crate) named: &'a Named,
    pub(crate) arcs: &'a [Sequence<Arc>],
    pub(crate) back: &'a [Sequence<Arc>],
    pub(crate) stands: &'a [bool],
}

// Yes where arcs of lines that stand, and pushed arcs that rest on such ways, lead from a source to a target, and no
// where no arcs of lines that stand and pushed ones do.
pub(crate) fn tell(
    alloc: Global,
    ground: &Ground<'_>,
    sources: &[u32],
    targets: &[u32],
) -> Result<Led, Memory>
    requires { AreTurned ground.now.arcs.now ground.now.back.now }
    ensures no { IfOk result (λ led. led ≡ Never →
        MayLead (Leads ground.now.arcs.now ground.now.stands.now true) sources.now targets.now → ⊥) }
    ensures yes { IfOk result (λ led. led ≡ Always →
        AreBelowSome ground.now.named.now ground.now.arcs.now ground.now.stands.now sources.now targets.now) }
{
    let led = between(alloc, ground.arcs, ground.stands, sources, targets)?;
    match led {
        Led::No => Ok(Led::No),
        Led::Yes => Ok(Led::Yes),
        Led::Open => {
            if are_below(alloc, ground, sources, targets)? {
                Ok(Led::Yes)
            } else {
                Ok(Led::Open)
            }
        }
    }
}

// Whether such ways lead from one of the sources to one of the targets.
fn are_below(
    alloc: Global,
    ground: &Ground<'_>,
    sources: &[u32],
    targets: &[u32],
) -> Result<bool, Memory>
    requires { AreTurned ground.now.arcs.now ground.now.back.now }
    ensures { IfOk result (λ yes. IsTrue yes →
        AreBelowSome ground.now.named.now ground.now.arcs.now ground.now.stands.now sources.now targets.now) }
{
    let mut known = Vec::new(alloc);
    for source in sources {
        if is_below(alloc, ground, &mut known, *source, targets)? {
            return Ok(true);
        }
    }
    Ok(false)
}

// Whether such ways lead from a source that exists to one of the targets.
fn is_below(
    alloc: Global,
    ground: &Ground<'_>,
    known: &mut Vec<Kept>,
    source: u32,
    targets: &[u32],
) -> Result<bool, Memory>
    requires turned { AreTurned ground.now.arcs.now ground.now.back.now }
    requires known { AreKnown ground.now.named.now ground.now.arcs.now ground.now.stands.now known.old.items }
    ensures known { OnOk result
        (AreKnown ground.now.named.now ground.now.arcs.now ground.now.stands.now known.new.items) }
    ensures below { IfOk result (λ yes. IsTrue yes →
        IsBelowSome ground.now.named.now ground.now.arcs.now ground.now.stands.now source targets.now) }
{
    let found = reach(alloc, ground, known, source, targets, DEPTH)?;
    if !meets(&found, targets) {
        return Ok(false);
    }
    Ok(is_there(ground, &found))
}

// Whether one of the numbers is a side of a line that stands. So they all exist, if such ways lead to them from one.
fn is_there(ground: &Ground<'_>, found: &Found) -> bool
    requires { AreTurned ground.now.arcs.now ground.now.back.now }
    ensures { IsTrue result → (v : ℕ) × Contains found.now v × IsSide ground.now.arcs.now ground.now.stands.now v }
{
    for i in 0..NUMBERS {
        let Some(next) = found.get(i) else {
            return false;
        };
        if is_side(ground, next) {
            return true;
        }
    }
    false
}

// Whether a variable is a side of a line that stands.
fn is_side(ground: &Ground<'_>, variable: u32) -> bool
    requires { AreTurned ground.now.arcs.now ground.now.back.now }
    ensures { IsTrue result → IsSide ground.now.arcs.now ground.now.stands.now variable }
{
    if is_left(ground.arcs, ground.stands, variable) {
        return true;
    }
    is_left(ground.back, ground.stands, variable)
}

// Whether an arc of a line that stands leaves a variable.
fn is_left(arcs: &[Sequence<Arc>], stands: &[bool], variable: u32) -> bool
    ensures { IsTrue result → (w : ℕ) × Leads arcs.now stands.now false variable w }
{
    for arc in leaving(arcs, variable) {
        if is_open(stands, false, arc.line) {
            return true;
        }
    }
    false
}

// What such ways lead to from a source, until one of the targets is found.
#[cycle(resting)]
fn reach(
    alloc: Global,
    ground: &Ground<'_>,
    known: &mut Vec<Kept>,
    source: u32,
    targets: &[u32],
    depth: u32,
) -> Result<Found, Memory>
    requires turned { AreTurned ground.now.arcs.now ground.now.back.now }
    requires known { AreKnown ground.now.named.now ground.now.arcs.now ground.now.stands.now known.old.items }
    ensures known { OnOk result
        (AreKnown ground.now.named.now ground.now.arcs.now ground.now.stands.now known.new.items) }
    ensures found { IfOk result
        (λ found. AreRested ground.now.named.now ground.now.arcs.now ground.now.stands.now source found) }
{
    let mut found = Found::new(alloc, ground.arcs.len())?;
    found.insert(source)?;
    for i in 0..NUMBERS {
        if meets(&found, targets) {
            return Ok(found);
        }
        let Some(next) = found.get(i) else {
            return Ok(found);
        };
        step(alloc, ground, known, &mut found, next, depth)?;
    }
    Err(AllocError)
}

// Adds what arcs lead to from a variable, each of which is of a line that stands, or rests on such ways.
#[cycle(resting)]
fn step(
    alloc: Global,
    ground: &Ground<'_>,
    known: &mut Vec<Kept>,
    found: &mut Found,
    from: u32,
    depth: u32,
) -> Result<(), Memory>
    requires turned { AreTurned ground.now.arcs.now ground.now.back.now }
    requires known { AreKnown ground.now.named.now ground.now.arcs.now ground.now.stands.now known.old.items }
    ensures known { OnOk result
        (AreKnown ground.now.named.now ground.now.arcs.now ground.now.stands.now known.new.items) }
    ensures more { OnOk result
        (AreMoreRested ground.now.named.now ground.now.arcs.now ground.now.stands.now from found.old found.new) }
{
    for arc in leaving(ground.arcs, from) {
        take(alloc, ground, known, found, from, *arc, depth)?;
    }
    Ok(())
}

// Adds what an arc leads to, where it is of a line that stands, or rests on such ways.
#[cycle(resting)]
fn take(
    alloc: Global,
    ground: &Ground<'_>,
    known: &mut Vec<Kept>,
    found: &mut Found,
    from: u32,
    arc: Arc,
    depth: u32,
) -> Result<(), Memory>
    requires turned { AreTurned ground.now.arcs.now ground.now.back.now }
    requires known { AreKnown ground.now.named.now ground.now.arcs.now ground.now.stands.now known.old.items }
    requires arc { HasArc ground.now.arcs.now from arc.to arc.line }
    ensures known { OnOk result
        (AreKnown ground.now.named.now ground.now.arcs.now ground.now.stands.now known.new.items) }
    ensures more { OnOk result
        (AreMoreRested ground.now.named.now ground.now.arcs.now ground.now.stands.now from found.old found.new) }
{
    if found.contains(arc.to) {
        return Ok(());
    }
    if rests(alloc, ground, known, from, arc, depth)? {
        found.insert(arc.to)?;
    }
    Ok(())
}

// Whether an arc is of a line that stands, or rests on such ways.
#[cycle(resting)]
fn rests(
    alloc: Global,
    ground: &Ground<'_>,
    known: &mut Vec<Kept>,
    from: u32,
    arc: Arc,
    depth: u32,
) -> Result<bool, Memory>
    requires turned { AreTurned ground.now.arcs.now ground.now.back.now }
    requires known { AreKnown ground.now.named.now ground.now.arcs.now ground.now.stands.now known.old.items }
    requires arc { HasArc ground.now.arcs.now from arc.to arc.line }
    ensures known { OnOk result
        (AreKnown ground.now.named.now ground.now.arcs.now ground.now.stands.now known.new.items) }
    ensures rests { IfOk result (λ yes. IsTrue yes →
        Rests ground.now.named.now ground.now.arcs.now ground.now.stands.now from arc.to) }
{
    if is_open(ground.stands, false, arc.line) {
        return Ok(true);
    }
    if is_access(ground, from, arc.to) {
        return Ok(true);
    }
    let yes = is_pushed(alloc, ground, known, from, arc.to, depth)?;
    Ok(yes)
}

// Whether two variables are the store and the load of one, and sides of lines that stand.
fn is_access(ground: &Ground<'_>, from: u32, to: u32) -> bool
    requires { AreTurned ground.now.arcs.now ground.now.back.now }
    ensures { IsTrue result → Rests ground.now.named.now ground.now.arcs.now ground.now.stands.now from to }
{
    if !is_pointer(ground.named, from, to) {
        return false;
    }
    if !is_side(ground, from) {
        return false;
    }
    is_side(ground, to)
}

// Whether two variables are the store and the load of one.
fn is_pointer(named: &Named, from: u32, to: u32) -> bool
    ensures { IsTrue result → IsPointer named.now from to }
{
    if from as usize >= named.len() || to as usize >= named.len() {
        return false;
    }
    match (named.origin(from), named.origin(to)) {
        (Origin::Longer(p, Label::Store), Origin::Longer(q, Label::Load)) => p == q,
        _ => false,
    }
}

// Whether both variables are made by one letter, and such ways lead between what they are made of, by its sign.
#[cycle(resting)]
fn is_pushed(
    alloc: Global,
    ground: &Ground<'_>,
    known: &mut Vec<Kept>,
    from: u32,
    to: u32,
    depth: u32,
) -> Result<bool, Memory>
    requires turned { AreTurned ground.now.arcs.now ground.now.back.now }
    requires known { AreKnown ground.now.named.now ground.now.arcs.now ground.now.stands.now known.old.items }
    ensures known { OnOk result
        (AreKnown ground.now.named.now ground.now.arcs.now ground.now.stands.now known.new.items) }
    ensures rests { IfOk result (λ yes. IsTrue yes →
        Rests ground.now.named.now ground.now.arcs.now ground.now.stands.now from to) }
{
    if depth == 0 {
        return Ok(false);
    }
    let Some((below, above)) = behind(ground.named, from, to) else {
        return Ok(false);
    };
    let yes = leads(alloc, ground, known, below, above, depth - 1)?;
    Ok(yes)
}

// What two variables are made of, if they are made by one letter: by its sign, of the first one and of the second one,
// or the other way.
fn behind(named: &Named, from: u32, to: u32) -> Option<(u32, u32)>
    ensures { IfSome result (λ pair. IsBehind named.now from to pair) }
{
    if from as usize >= named.len() || to as usize >= named.len() {
        return None;
    }
    match (named.origin(from), named.origin(to)) {
        (Origin::Longer(p, l), Origin::Longer(q, m)) => ordered(p, l, q, m),
        _ => None,
    }
}

// The two numbers by the sign of the letter, if it is one.
fn ordered(p: u32, l: Label, q: u32, m: Label) -> Option<(u32, u32)>
    ensures { IfSome result (λ pair. (l ≡ m) × IsOrdered l p q pair) }
{
    if l != m {
        return None;
    }
    match l.variance() {
        Variance::Co => Some((p, q)),
        Variance::Contra => Some((q, p)),
    }
}

// Whether such ways lead from one variable to another. What they lead to from it is kept, while there is room.
#[cycle(resting)]
fn leads(
    alloc: Global,
    ground: &Ground<'_>,
    known: &mut Vec<Kept>,
    from: u32,
    to: u32,
    depth: u32,
) -> Result<bool, Memory>
    requires turned { AreTurned ground.now.arcs.now ground.now.back.now }
    requires known { AreKnown ground.now.named.now ground.now.arcs.now ground.now.stands.now known.old.items }
    ensures known { OnOk result
        (AreKnown ground.now.named.now ground.now.arcs.now ground.now.stands.now known.new.items) }
    ensures rests { IfOk result (λ yes. IsTrue yes →
        Rests ground.now.named.now ground.now.arcs.now ground.now.stands.now from to) }
{
    if let Some(yes) = known_at(known, from, to) {
        return Ok(yes);
    }
    if known.len() >= KEPT {
        return Ok(false);
    }
    let found = reach(alloc, ground, known, from, &[], depth)?;
    let yes = found.contains(to);
    known.push(Kept {
        source: from,
        found,
    })?;
    Ok(yes)
}

// Whether such ways lead from one variable to another, where that is kept.
fn known_at(known: &[Kept], from: u32, to: u32) -> Option<bool>
    ensures { result ≡ Some true → (k : Told) × Contains known.now k × (k.source ≡ from) × Contains k.found to }
{
    for kept in known {
        if kept.source == from {
            return Some(kept.found.contains(to));
        }
    }
    None
}
