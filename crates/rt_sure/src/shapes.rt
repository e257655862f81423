// Lines that stay, and what is told of the shapes of others.
ghost use Rattle.std.specs.Prelude.{◌≡◌, ◌≤◌, IfOk, IsTrue, ◌↔◌, drop, length};
ghost use Rattle.rt_sure.specs.Fates.{flag_at, AreSure};
ghost use Rattle.rt_sure.specs.Inside.Shapes.{AreFewer, AreJoined, AreShaped, IsSubtype};
ghost use Rattle.rt_sure.specs.Shapes.{shape_of};

use rt_base::Memory;
use rt_lines::Line;
use std::alloc::Global;

// For each of the first lines whether its shape is known to follow from those that are flagged and those before it.
pub(crate) fn joined(alloc: Global, lines: &[Line], stays: &[bool]) -> Result<Vec<bool>, Memory>
    requires { length stays.now ≤ length lines.now }
    ensures each { IfOk result (λ joined. length joined.items ≡ length stays.now) }
    ensures joined { IfOk result (λ joined. AreJoined lines.now stays.now joined.items) }
{
    let mut shapes = sure(alloc, lines, stays)?;
    let count = shapes.len();
    for i in 0..stays.len() {
        shapes.push(shape_of(&lines[i])?)?;
    }
    let mut joined = rt_earlier::told(alloc, &shapes)?;
    take_first(&mut joined, count);
    Ok(joined)
}

// Takes out the first flags, so many as the count says.
fn take_first(flags: &mut Vec<bool>, count: usize)
    requires { count ≤ length flags.old.items }
    ensures { flags.new.items ≡ drop count flags.old.items }
{
    flags.drain(..count);
}

// The lines that are flagged, but that `<=` lines which aren't among some give their places to their shapes, and the shapes of
// the other `<=` lines.
pub(crate) fn shaped_among(
    alloc: Global,
    lines: &[Line],
    stays: &[bool],
    among: &[bool],
) -> Result<Vec<Line>, Memory>
    requires { length stays.now ≤ length lines.now }
    ensures { IfOk result (λ shaped. AreShaped lines.now stays.now shaped.items) }
{
    let given = without_others(alloc, lines, stays, among)?;
    let shaped = shaped(alloc, lines, &given)?;
    Ok(shaped)
}

// The flags, without those of `<=` lines that aren't among some.
fn without_others(
    alloc: Global,
    lines: &[Line],
    stays: &[bool],
    among: &[bool],
) -> Result<Vec<bool>, Memory>
    requires { length stays.now ≤ length lines.now }
    ensures each { IfOk result (λ given. length given.items ≡ length stays.now) }
    ensures fewer { IfOk result (λ given. AreFewer given.items stays.now) }
{
    let mut given = stays.to_vec(alloc)?;
    for i in 0..stays.len() {
        if is_below(&lines[i]) && !is_set(among, i) {
            given[i] = false;
        }
    }
    Ok(given)
}

// Whether there is a flag at the index, and it is set.
pub(crate) fn is_set(flags: &[bool], i: usize) -> bool
    ensures { result ≡ flag_at flags.now i }
{
    match flags.get(i) {
        Some(flag) => *flag,
        None => false,
    }
}

// The lines that are flagged, and the shapes of the other `<=` lines.
fn shaped(alloc: Global, lines: &[Line], stays: &[bool]) -> Result<Vec<Line>, Memory>
    requires { length stays.now ≤ length lines.now }
    ensures { IfOk result (λ shaped. AreShaped lines.now stays.now shaped.items) }
{
    let mut shaped = sure(alloc, lines, stays)?;
    for i in 0..stays.len() {
        if !stays[i] && is_below(&lines[i]) {
            shaped.push(shape_of(&lines[i])?)?;
        }
    }
    Ok(shaped)
}

/// The line, but that a `<=` line says no more than that its sides have one shape. The error is out of memory.
pub fn shape_of(line: &Line) -> Result<Line, Memory>
    ensures { IfOk result (λ shape. shape ≡ shape_of line.now) }
{
    match line {
        Line::Sub(x, y) => Ok(Line::Same(x.copy()?, y.copy()?)),
        Line::Var(_) | Line::Same(_, _) | Line::Low(_, _) | Line::Up(_, _) => {
            let shape = line.copy()?;
            Ok(shape)
        }
    }
}

// Whether the line is a `<=` line.
pub(crate) fn is_below(line: &Line) -> bool
    ensures { IsTrue result ↔ IsSubtype line.now }
{
    match line {
        Line::Sub(_, _) => true,
        Line::Var(_) | Line::Same(_, _) | Line::Low(_, _) | Line::Up(_, _) => false,
    }
}

// The lines that are flagged.
pub(crate) fn sure(alloc: Global, lines: &[Line], stays: &[bool]) -> Result<Vec<Line>, Memory>
    requires { length stays.now ≤ length lines.now }
    ensures { IfOk result (λ sure. AreSure lines.now stays.now sure.items) }
{
    let mut sure = Vec::new(alloc);
    for i in 0..stays.len() {
        if stays[i] {
            sure.push(lines[i].copy()?)?;
        }
    }
    Ok(sure)
}
