// Classes whose variables pass on what is pushed to them: each is a load or a store of another variable, no edge begins or ends
// there, and no way between two of them is asked about. What is pushed to such goes on to what is behind them at once.
ghost use Rattle.std.specs.Prelude.{◌≡◌, ◌<◌, IfOk, length};

use crate::family::class_count;
use crate::hints::set;
use crate::pushing::{Frame, flag, is_pointer};
use crate::state::Edge;
use rt_base::Memory;
use rt_lines::Dtv;
use rt_named::Origin;
use std::alloc::Global;

// The flags, but for those of variables of such classes. Effort alone rests on which these are.
pub(crate) fn without_passing(
    alloc: Global,
    frame: &Frame,
    edges: &[Edge],
    asked: &[Dtv],
    flags: Vec<bool>,
) -> Result<Vec<bool>, Memory>
    ensures { IfOk result (λ rest. length rest.items ≡ length flags.items) }
{
    let used = used_by(alloc, frame, edges, asked)?;
    let whole = whole(alloc, frame, &flags, &used)?;
    let kept = kept(alloc, frame, &whole)?;
    Ok(cleared(frame, &kept, flags))
}

// For each variable whether an edge begins or ends there, or it is one of some.
fn used_by(
    alloc: Global,
    frame: &Frame,
    edges: &[Edge],
    variables: &[Dtv],
) -> Result<Vec<bool>, Memory> {
    let mut used = vec![in alloc; false; frame.named.len()]?;
    for edge in edges {
        set(&mut used, edge.from.variable);
        set(&mut used, edge.to.variable);
    }
    for x in variables {
        if let Some(number) = frame.named.index(x) {
            set(&mut used, number);
        }
    }
    Ok(used)
}

// For each class whether it has a flagged variable that is used, or is no load and no store of a flagged one.
fn whole(alloc: Global, frame: &Frame, flags: &[bool], used: &[bool]) -> Result<Vec<bool>, Memory> {
    let mut whole = vec![in alloc; false; class_count(&frame.nodes)]?;
    for number in 0..frame.named.len() {
        if is_whole(frame, flags, used, number as u32) {
            set_class(frame, &mut whole, number as u32);
        }
    }
    Ok(whole)
}

// Whether a variable is flagged, and is used, or is no load and no store of a flagged one.
fn is_whole(frame: &Frame, flags: &[bool], used: &[bool], variable: u32) -> bool
    requires { variable < length frame.now.named }
{
    if !flag(flags, variable) {
        return false;
    }
    match frame.named.origin(variable) {
        Origin::Longer(parent, letter) => {
            flag(used, variable) || !is_pointer(letter) || !flag(flags, parent)
        }
        Origin::Bare(_) => true,
    }
}

// The same flags, with those of the classes of loads and stores of variables of classes that have none: of two such one has its
// places.
fn kept(alloc: Global, frame: &Frame, whole: &[bool]) -> Result<Vec<bool>, Memory> {
    let mut kept = whole.to_vec(alloc)?;
    for number in 0..frame.named.len() {
        if let Origin::Longer(parent, _) = frame.named.origin(number as u32)
            && !has_class(frame, whole, parent)
        {
            set_class(frame, &mut kept, number as u32);
        }
    }
    Ok(kept)
}

// The flags of variables, but for those whose class has none.
fn cleared(frame: &Frame, kept: &[bool], flags: Vec<bool>) -> Vec<bool>
    ensures { length result.items ≡ length flags.items }
{
    let mut flags = flags;
    for number in 0..frame.named.len() {
        if !has_class(frame, kept, number as u32) {
            clear(&mut flags, number as u32);
        }
    }
    flags
}

// Clears a flag, if there is one of this number.
fn clear(flags: &mut Vec<bool>, number: u32)
    ensures { length flags.new.items ≡ length flags.old.items }
{
    let number = number as usize;
    if number < flags.len() {
        flags[number] = false;
    }
}

// Sets the flag of a variable's class.
fn set_class(frame: &Frame, classes: &mut Vec<bool>, variable: u32) {
    if let Some(Some(class)) = frame.nodes.get(variable as usize) {
        set(classes, *class);
    }
}

// Whether the flag of a variable's class is set, or it has none.
fn has_class(frame: &Frame, classes: &[bool], variable: u32) -> bool {
    match frame.nodes.get(variable as usize) {
        Some(Some(class)) => flag(classes, *class),
        Some(None) | None => true,
    }
}
