// Lines that may matter for ways between some variables.

use crate::arc::Arc;
use crate::found::Found;
use crate::frame::Frame;
use crate::spreading::{NUMBERS, is_open, leaving, spread};
use rt_base::{Memory, Sequence};
use rt_lines::{Dtv, Label, Line};
use rt_named::Named;
use std::alloc::Global;

// How often what the found variables are made of is added at most.
const ROUNDS: usize = 1000;

// How a node was reached: from which one, and by how many lines.
#[derive(Clone, Copy)]
struct Step {
    from: u32,
    count: u8,
}

// For each line whether it is a `<=` line both of whose sides lie between some variables, or between what these, or others that
// do, are made of: arcs of lines that stand and pushed ones lead to it from one of them, and from it to one. Where hubs lie
// between them, so does what lies on ways of so many lines at most, in either direction, between those that may have a common
// lower variable. Nothing is promised of this: effort alone rests on it.
pub(crate) fn confined(
    alloc: Global,
    frame: &Frame,
    named: &Named,
    lines: &[Line],
    stands: &[bool],
    ends: &[Dtv],
    far: u8,
) -> Result<Vec<bool>, Memory> {
    let mut known = numbered(alloc, named, ends)?;
    let mut inside = closed(alloc, frame, stands, &mut known)?;
    if far > 0 && has_hub(frame, named, &inside) {
        let meeting = accessed(alloc, frame, &known)?;
        join(alloc, frame, stands, &meeting, &mut known, far)?;
        inside = closed(alloc, frame, stands, &mut known)?;
    }
    flags(alloc, named, lines, &inside)
}

// What lies between known nodes, to which what it is made of is added.
fn closed(
    alloc: Global,
    frame: &Frame,
    stands: &[bool],
    known: &mut Found,
) -> Result<Found, Memory> {
    for _ in 0..ROUNDS {
        let inside = between(alloc, frame, stands, known)?;
        if !add_parents(frame, &inside, known)? {
            return Ok(inside);
        }
    }
    between(alloc, frame, stands, known)
}

// Whether a hub is among the nodes.
fn has_hub(frame: &Frame, named: &Named, inside: &Found) -> bool {
    for i in 0..NUMBERS {
        let Some(next) = inside.get(i) else {
            return false;
        };
        if is_hub(frame, named, next) {
            return true;
        }
    }
    false
}

// Whether the node is a hub.
fn is_hub(frame: &Frame, named: &Named, node: u32) -> bool {
    match frame.origins.get(node as usize) {
        Some(None) => node as usize >= named.len(),
        Some(Some(_)) | None => false,
    }
}

// The known nodes of which there are load and store.
fn accessed(alloc: Global, frame: &Frame, known: &Found) -> Result<Found, Memory> {
    let mut accessed = Found::new(alloc, frame.arcs.len())?;
    for i in 0..NUMBERS {
        let Some(next) = known.get(i) else {
            break;
        };
        if frame.step(next, Label::Load).is_some() && frame.step(next, Label::Store).is_some() {
            accessed.insert(next)?;
        }
    }
    Ok(accessed)
}

// Adds what lies on shortest ways between some nodes, along so many lines that stand at most, in either direction.
fn join(
    alloc: Global,
    frame: &Frame,
    stands: &[bool],
    ends: &Found,
    known: &mut Found,
    far: u8,
) -> Result<(), Memory> {
    for i in 0..NUMBERS {
        let Some(end) = ends.get(i) else {
            return Ok(());
        };
        join_from(alloc, frame, stands, ends, known, end, far)?;
    }
    Ok(())
}

// Adds what lies on shortest ways from one of some nodes to others, along so many lines that stand at most, in either direction.
fn join_from(
    alloc: Global,
    frame: &Frame,
    stands: &[bool],
    ends: &Found,
    known: &mut Found,
    start: u32,
    far: u8,
) -> Result<(), Memory> {
    let first = Step {
        from: start,
        count: 0,
    };
    let mut steps = vec![in alloc; first; frame.arcs.len()]?;
    let mut found = Found::new(alloc, frame.arcs.len())?;
    found.insert(start)?;
    for i in 0..NUMBERS {
        let Some(next) = found.get(i) else {
            break;
        };
        let count = match steps.get(next as usize) {
            Some(step) => step.count,
            None => far,
        };
        if ends.contains(next) {
            trace(&steps, known, next, count)?;
        }
        if count >= far {
            continue;
        }
        let step = Step {
            from: next,
            count: count + 1,
        };
        follow(
            leaving(&frame.arcs, next),
            stands,
            step,
            &mut steps,
            &mut found,
        )?;
        follow(
            leaving(&frame.back, next),
            stands,
            step,
            &mut steps,
            &mut found,
        )?;
    }
    Ok(())
}

// Adds what arcs of lines that stand lead to by a step.
fn follow(
    arcs: &[Arc],
    stands: &[bool],
    step: Step,
    steps: &mut Vec<Step>,
    found: &mut Found,
) -> Result<(), Memory> {
    for arc in arcs {
        let to = arc.to as usize;
        if is_open(stands, false, arc.line) && !found.contains(arc.to) && to < steps.len() {
            found.insert(arc.to)?;
            steps[to] = step;
        }
    }
    Ok(())
}

// Adds the nodes of the way of so many steps by which one was reached.
fn trace(steps: &[Step], known: &mut Found, node: u32, count: u8) -> Result<(), Memory> {
    let mut node = node;
    for _ in 0..count {
        known.insert(node)?;
        node = match steps.get(node as usize) {
            Some(step) => step.from,
            None => return Ok(()),
        };
    }
    Ok(())
}

// The numbers of variables, as far as they are named.
fn numbered(alloc: Global, named: &Named, ends: &[Dtv]) -> Result<Found, Memory> {
    let mut known = Found::new(alloc, named.len())?;
    for x in ends {
        if let Some(number) = named.index(x) {
            known.insert(number)?;
        }
    }
    Ok(known)
}

// What arcs lead to from known nodes, and from which they lead to known ones.
fn between(alloc: Global, frame: &Frame, stands: &[bool], known: &Found) -> Result<Found, Memory> {
    let forth = reached(alloc, &frame.arcs, stands, known)?;
    let back = reached(alloc, &frame.back, stands, known)?;
    let mut both = Found::new(alloc, frame.arcs.len())?;
    for i in 0..NUMBERS {
        let Some(next) = forth.get(i) else {
            return Ok(both);
        };
        if back.contains(next) {
            both.insert(next)?;
        }
    }
    Ok(both)
}

// Known nodes, and all that arcs of lines that stand and pushed ones lead to from these.
fn reached(
    alloc: Global,
    arcs: &[Sequence<Arc>],
    stands: &[bool],
    known: &Found,
) -> Result<Found, Memory> {
    let mut found = Found::new(alloc, arcs.len())?;
    for i in 0..NUMBERS {
        let Some(next) = known.get(i) else {
            break;
        };
        found.insert(next)?;
    }
    spread(arcs, stands, true, &mut found)?;
    Ok(found)
}

// Adds what nodes are made of. Whether one was added.
fn add_parents(frame: &Frame, inside: &Found, known: &mut Found) -> Result<bool, Memory> {
    let mut any = false;
    for i in 0..NUMBERS {
        let Some(next) = inside.get(i) else {
            return Ok(any);
        };
        if let Some(Some((parent, _))) = frame.origins.get(next as usize)
            && !known.contains(*parent)
        {
            known.insert(*parent)?;
            any = true;
        }
    }
    Ok(any)
}

// For each line whether it is a `<=` line both of whose sides are among the nodes.
fn flags(
    alloc: Global,
    named: &Named,
    lines: &[Line],
    inside: &Found,
) -> Result<Vec<bool>, Memory> {
    let mut flags = Vec::with_capacity(alloc, lines.len())?;
    for line in lines {
        flags.push(is_inside(named, line, inside))?;
    }
    Ok(flags)
}

// Whether the line is a `<=` line both of whose sides are among the nodes.
fn is_inside(named: &Named, line: &Line, inside: &Found) -> bool {
    match line {
        Line::Sub(x, y) => is_among(named, x, inside) && is_among(named, y, inside),
        Line::Var(_) | Line::Same(_, _) | Line::Low(_, _) | Line::Up(_, _) => false,
    }
}

// Whether the variable is among the nodes.
fn is_among(named: &Named, x: &Dtv, inside: &Found) -> bool {
    match named.index(x) {
        Some(number) => inside.contains(number),
        None => false,
    }
}
