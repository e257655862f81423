// Lines that stay, since they stood among lines of which none follows from the others.
ghost use Rattle.std.specs.Prelude.{◌≡◌, ◌⊎◌, ℕ, All, Contains, IfOk, IsTrue, Some, false, length, slice_get, slice_index_or, true};
ghost use Rattle.rt_lines.specs.Numbering.{deduplicated};
ghost use Rattle.rt_lines.specs.declared.line.Line.{Line as Given};
ghost use Rattle.rt_lines.specs.Lines.{HasConstantsBelow};
ghost use Rattle.rt_rules.specs.Rules.{Derivable};
ghost use Rattle.rt_reduce.specs.Inside.Dropping.{AreStaying};
ghost use Rattle.rt_reduce.specs.Inside.Handing.{AreNeeded, DoFollow};

use crate::copying::copies;
use crate::derivable::derives_line;
use indexmap::IndexSet;
use rt_base::{Memory, Sequence};
use rt_lines::{Line, Order, deduplicate};
use std::alloc::Global;

// Where more lines came, or went, it isn't worth while to ask of each.
const MOST: usize = 250;

// For each of the lines whether it is known to stay, where lines that stood before are given, of which none follows from the
// others: one that was among these stays, if each other line was among them too, or follows from those of them that are gone.
pub(crate) fn handed(
    alloc: Global,
    lines: &[Line],
    before: &[Line],
    order: &Order,
) -> Result<Vec<bool>, Memory>
    requires needed { AreNeeded order.now before.now }
    requires below { All (HasConstantsBelow order.now.count) before.now }
    requires constants { All (HasConstantsBelow order.now.count) lines.now }
    ensures each { IfOk result (λ stays. length stays.items ≡ length lines.now) }
    ensures staying { IfOk result (λ stays. AreStaying order.now lines.now stays.items) }
{
    let known = set_of(alloc, before)?;
    if !is_each_once(alloc, lines)? || !come_follow(alloc, lines, before, &known, order)? {
        let none = vec![in alloc; false; lines.len()]?;
        return Ok(none);
    }
    flags(alloc, lines, &known)
}

// Whether each of the lines that isn't among known ones follows from those that stood before and are gone.
fn come_follow(
    alloc: Global,
    lines: &[Line],
    before: &[Line],
    known: &IndexSet<Line>,
    order: &Order,
) -> Result<bool, Memory>
    requires below { All (HasConstantsBelow order.now.count) before.now }
    requires constants { All (HasConstantsBelow order.now.count) lines.now }
    ensures { IfOk result (λ yes. IsTrue yes → DoFollow order.now lines.now before.now known.now.keys) }
{
    let here = set_of(alloc, lines)?;
    let gone = without(alloc, before, &here)?;
    let come = without(alloc, lines, known)?;
    let yes = follow(alloc, &come, &gone, order)?;
    Ok(yes)
}

// The lines as a set.
fn set_of(alloc: Global, lines: &[Line]) -> Result<IndexSet<Line>, Memory>
    ensures { IfOk result (λ set. set.keys ≡ deduplicated lines.now) }
{
    let all = copies(alloc, lines)?;
    let set: IndexSet<Line> = all.into_iter().collect(alloc)?;
    Ok(set)
}

// Whether no two of the lines are equal.
fn is_each_once(alloc: Global, lines: &[Line]) -> Result<bool, Memory>
    ensures { IfOk result (λ yes. IsTrue yes → deduplicated lines.now ≡ lines.now) }
{
    let all = copies(alloc, lines)?;
    let once = deduplicate(alloc, Sequence::from_vec(all))?;
    Ok(once.items() == lines)
}

// Those of the lines that aren't in a set.
fn without(alloc: Global, lines: &[Line], set: &IndexSet<Line>) -> Result<Vec<Line>, Memory>
    ensures stood { IfOk result (λ others. (l : Given) → Contains others.items l → Contains lines.now l × (Contains set.now.keys l → ⊥)) }
    ensures all { IfOk result (λ others. (l : Given) → Contains lines.now l → Contains others.items l ⊎ Contains set.now.keys l) }
{
    let mut others = Vec::new(alloc);
    for line in lines {
        if !set.contains(line) {
            others.push(line.copy()?)?;
        }
    }
    Ok(others)
}

// Whether each of the lines is found to follow from others.
fn follow(alloc: Global, lines: &[Line], others: &[Line], order: &Order) -> Result<bool, Memory>
    requires others { All (HasConstantsBelow order.now.count) others.now }
    requires lines { All (HasConstantsBelow order.now.count) lines.now }
    ensures { IfOk result (λ yes. IsTrue yes → (l : Given) → Contains lines.now l → Derivable order.now others.now l) }
{
    if lines.len() > MOST || others.len() > MOST {
        return Ok(false);
    }
    for line in lines {
        if !derives_line(alloc, others, order, line)? {
            return Ok(false);
        }
    }
    Ok(true)
}

// For each of the lines whether it is in a set.
fn flags(alloc: Global, lines: &[Line], set: &IndexSet<Line>) -> Result<Vec<bool>, Memory>
    ensures each { IfOk result (λ flags. length flags.items ≡ length lines.now) }
    ensures known { IfOk result (λ flags. (i : ℕ) (l : Given) → slice_get lines.now i ≡ Some l → slice_index_or flags.items i false ≡ true →
        Contains set.now.keys l) }
{
    let mut flags = Vec::with_capacity(alloc, lines.len())?;
    for line in lines {
        flags.push(set.contains(line))?;
    }
    Ok(flags)
}
