// Lines with the least of each class in the place of the others.
ghost use Rattle.std.specs.Prelude.{◌≡◌, ℕ, map, IfOk};
ghost use Rattle.std.specs.BTreeMap.{get};
ghost use Rattle.std.specs.Ordering.{nat_cmp};
ghost use Rattle.rt_lines.specs.Sides.{map_line};
ghost use Rattle.rt_refine.specs.Groups.{class_of};
ghost use Rattle.rt_refine.specs.Refinements.{IsCoarsest, move, refined};

use crate::coarsest::classes;
use crate::grouping::{Classes, moved};
use rt_base::{Memory, Sequence};
use rt_lines::{Dtv, Line, Lines};
use std::alloc::Global;

// The variable, with the least of its base's class for the base.
fn move_variable(classes: &Classes, x: &Dtv) -> Result<Dtv, Memory>
    ensures { IfOk result (λ r. r ≡ move (class_of (get nat_cmp classes.now)) x.now) }
{
    let word = x.word.copy()?;
    let base = moved(classes, x.base);
    Ok(Dtv { base, word })
}

// The line, with the least of each class in the place of the others.
fn move_line(classes: &Classes, line: &Line) -> Result<Line, Memory>
    ensures { IfOk result (λ r. r ≡ map_line (move (class_of (get nat_cmp classes.now))) line.now) }
{
    match line {
        Line::Var(x) => Ok(Line::Var(move_variable(classes, x)?)),
        Line::Same(x, y) => Ok(Line::Same(move_variable(classes, x)?, move_variable(classes, y)?)),
        Line::Sub(x, y) => Ok(Line::Sub(move_variable(classes, x)?, move_variable(classes, y)?)),
        Line::Low(k, x) => Ok(Line::Low(*k, move_variable(classes, x)?)),
        Line::Up(x, k) => Ok(Line::Up(move_variable(classes, x)?, *k)),
    }
}

/// The lines, with the least of each class in the place of the others. The error is out of memory.
pub fn move_lines(alloc: Global, classes: &Classes, lines: &[Line]) -> Result<Lines, Memory>
    ensures { IfOk result (λ r. r ≡ refined (class_of (get nat_cmp classes.now)) lines.now) }
{
    let mut moved = Vec::with_capacity(alloc, lines.len())?;
    for line in lines {
        moved.push(move_line(classes, line)?)?;
    }
    Ok(Sequence::from_vec(moved))
}

/// The lines with the least existential of each class in the place of the others, by the coarsest classes whose members have
/// one shape and the same lines but for classes. The error is out of memory.
pub fn refine(alloc: Global, lines: &[Line]) -> Result<Lines, Memory>
    ensures { IfOk result (λ after. (class : ℕ → ℕ) × IsCoarsest lines.now class × (after ≡ refined class lines.now)) }
{
    let classes = classes(alloc, lines)?;
    move_lines(alloc, &classes, lines)
}
