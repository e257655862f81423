// Steps that others make spare.
ghost use Rattle.std.specs.Prelude.{◌<◌, Contains, length, IfOk};
ghost use Rattle.rt_grid.specs.declared.grid.Step.{Step as Pace};
ghost use Rattle.rt_grid.specs.Tables.{AreSquare, AreWithin};

use crate::grid::Step;
use rt_base::{Memory, Sequence};
use std::alloc::Global;

// The steps from a place without those that others make spare, the least counts first.
pub(crate) fn pruned(
    alloc: Global,
    rows: &[Sequence<u8>],
    steps: &[Step],
    place: usize,
) -> Result<Sequence<Step>, Memory>
    requires square { AreSquare rows.now }
    requires steps { AreWithin (length rows.now) steps.now }
    requires place { place < length rows.now }
    ensures { IfOk result (λ kept. (s : Pace) → Contains kept s → Contains steps.now s) }
{
    let mut kept = Sequence::new(alloc);
    let levels = most(steps) as usize + 1;
    for level in 0..levels {
        for step in steps {
            if step.count as usize == level && !is_spare(rows, kept.items(), *step, place) {
                kept.push(*step)?;
            }
        }
    }
    Ok(kept)
}

// The greatest count.
fn most(steps: &[Step]) -> u8 {
    let mut most = 0;
    for step in steps {
        if step.count > most {
            most = step.count;
        }
    }
    most
}

// Whether a way that is as short begins with one of other steps.
fn is_spare(rows: &[Sequence<u8>], kept: &[Step], step: Step, place: usize) -> bool
    requires square { AreSquare rows.now }
    requires kept { AreWithin (length rows.now) kept.now }
    requires step { step.to < length rows.now }
    requires place { place < length rows.now }
{
    if rows[place].items()[step.to] < step.count {
        return true;
    }
    for other in kept {
        if is_around(rows, *other, step, place) {
            return true;
        }
    }
    false
}

// Whether a way that is as short as a step begins with another step, and doesn't come back.
fn is_around(rows: &[Sequence<u8>], other: Step, step: Step, place: usize) -> bool
    requires square { AreSquare rows.now }
    requires other { other.to < length rows.now }
    requires step { step.to < length rows.now }
    requires place { place < length rows.now }
{
    let row = rows[other.to].items();
    let sum = u16::from(other.count) + u16::from(row[step.to]);
    sum <= u16::from(step.count) && (other.count > 0 || row[place] > 0)
}
