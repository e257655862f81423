// Lines whose sides no others join.
ghost use Rattle.std.specs.Prelude.{◌≡◌, ◌<◌, Bool, All, true, map, IfOk, OnOk, length, replicate};
ghost use Rattle.rt_lines.specs.Orders.{Below};
ghost use Rattle.rt_lines.specs.Words.{IsLabel};
ghost use Rattle.rt_reduce.specs.Inside.Dropping.{AreStaying, IsStaying};
ghost use Rattle.rt_reduce.specs.Inside.Parting.{pointed as pointed_variable, pointed_letter, AreAdded, AreJoins};

use crate::derivable::are_one;
use crate::loose::Loose;
use rt_base::Memory;
use rt_lines::{Dtv, Label, Line, Word};
use std::alloc::Global;

// Of so many lines at most it is asked whether others join their sides.
const MOST: usize = 200;

// The flags, and those of `<=` lines set that stay since no others join their sides: what lies below something has one shape
// with it by `<=` lines alone, where a store counts as a load. Those are looked at that flagged lines don't join.
pub(crate) fn with_parted(
    alloc: Global,
    lines: &[Line],
    stays: &[bool],
) -> Result<Vec<bool>, Memory>
    requires each { length stays.now ≡ length lines.now }
    ensures each { IfOk result (λ now. length now.items ≡ length stays.now) }
    ensures staying { IfOk result (λ now. (order : Below) → AreStaying order lines.now stays.now →
        AreStaying order lines.now now.items) }
{
    let joins = joins(alloc, lines, stays)?;
    let shape = rt_shape::of(alloc, &joins)?;
    let loose = Loose::of(alloc, lines, &shape)?;
    let mut others = vec![in alloc; true; lines.len()]?;
    let mut now = Vec::with_capacity(alloc, stays.len())?;
    let mut asked: usize = 0;
    for i in 0..stays.len() {
        let mut yes = stays[i];
        if !yes && asked < MOST && loose.has(i) {
            asked += 1;
            yes = is_parted_there(alloc, &loose, lines, &mut others, i)?;
        }
        now.push(yes)?;
    }
    Ok(now)
}

// Whether the line at the index is a `<=` line whose sides no others join, where all flags are set but the one that is cleared
// meanwhile. It isn't looked at where loose lines go round it.
fn is_parted_there(
    alloc: Global,
    loose: &Loose,
    lines: &[Line],
    others: &mut Vec<bool>,
    i: usize,
) -> Result<bool, Memory>
    requires within { i < length lines.now }
    requires flags { others.old.items ≡ replicate (length lines.now) true }
    ensures same { OnOk result (others.new.items ≡ others.old.items) }
    ensures staying { IfOk result (λ yes. yes ≡ true → (order : Below) → IsStaying order lines.now i) }
{
    if loose.goes_round(alloc, i)? {
        return Ok(false);
    }
    is_parted(alloc, lines, others, i)
}

// Whether the line at the index is a `<=` line whose sides no others join, where all flags are set but the one that is cleared
// meanwhile.
fn is_parted(
    alloc: Global,
    lines: &[Line],
    others: &mut Vec<bool>,
    i: usize,
) -> Result<bool, Memory>
    requires within { i < length lines.now }
    requires flags { others.old.items ≡ replicate (length lines.now) true }
    ensures same { OnOk result (others.new.items ≡ others.old.items) }
    ensures staying { IfOk result (λ yes. yes ≡ true → (order : Below) → IsStaying order lines.now i) }
{
    let Line::Sub(x, y) = &lines[i] else {
        return Ok(false);
    };
    others[i] = false;
    let joins = joins(alloc, lines, others)?;
    others[i] = true;
    let shape = rt_shape::of(alloc, &joins)?;
    let left = pointed(alloc, x)?;
    let right = pointed(alloc, y)?;
    Ok(!are_one(&shape, &left, &right))
}

// What `<=` lines say of shapes where a store counts as a load: that the sides of one that is flagged have one shape, and that
// those of the others exist.
fn joins(alloc: Global, lines: &[Line], flags: &[bool]) -> Result<Vec<Line>, Memory>
    requires { length flags.now ≡ length lines.now }
    ensures { IfOk result (λ joins. AreJoins lines.now flags.now joins.items) }
{
    let mut joins = Vec::with_capacity(alloc, lines.len())?;
    for i in 0..lines.len() {
        if let Line::Sub(x, y) = &lines[i] {
            let left = pointed(alloc, x)?;
            let right = pointed(alloc, y)?;
            add(&mut joins, left, right, flags[i])?;
        }
    }
    Ok(joins)
}

// Adds that two variables have one shape, or that they exist.
fn add(joins: &mut Vec<Line>, left: Dtv, right: Dtv, are_one: bool) -> Result<(), Memory>
    ensures { OnOk result (AreAdded left right are_one joins.old.items joins.new.items) }
{
    if are_one {
        joins.push(Line::Same(left, right))?;
        return Ok(());
    }
    joins.push(Line::Var(left))?;
    joins.push(Line::Var(right))?;
    Ok(())
}

// The variable, but that stores count as loads.
pub(crate) fn pointed(alloc: Global, x: &Dtv) -> Result<Dtv, Memory>
    ensures { IfOk result (λ pointed. pointed ≡ pointed_variable x.now) }
{
    let mut word = Word::empty(alloc);
    for letter in x.word.items() {
        word.push(pointed_label(*letter))?;
    }
    Ok(Dtv { base: x.base, word })
}

// The letter, but that a store counts as a load.
fn pointed_label(letter: Label) -> Label
    ensures letter { result ≡ pointed_letter letter }
    ensures label { IsLabel letter → IsLabel result }
{
    match letter {
        Label::Store => Label::Load,
        Label::In(_) | Label::Out(_) | Label::Load | Label::Field(_, _) => letter,
    }
}
