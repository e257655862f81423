// The lines in which an existential stands on one side.
ghost use Rattle.std.specs.Prelude.{◌≡◌, ℕ, IfOk, MatchOption};
ghost use Rattle.std.specs.BTreeMap.{get};
ghost use Rattle.std.specs.Ordering.{nat_cmp};
ghost use Rattle.rt_lines.specs.declared.variable.Base.TheVariants.{Exist as Existential};
ghost use Rattle.rt_refine.specs.Groups.{class_of};
ghost use Rattle.rt_refine.specs.Ranks.{use_ranks};
ghost use Rattle.rt_refine.specs.Uses.{Use, use_line, move_use};

use crate::grouping::Classes;
use crate::ranks::{Rank, bound_ranks, pair_ranks};
use rt_base::Memory;
use rt_lines::{Base, Dtv, Line};
use std::alloc::Global;

/// A side of a `<=` line or a bound.
#[derive(Clone, Copy)]
pub enum Side {
    /// The lower one.
    Left,
    /// The upper one.
    Right,
}

// The variable's base, if it is an existential.
fn exist_of(x: &Dtv) -> Option<u32>
    ensures { MatchOption result ((n : ℕ) → x.now.base ≡ Existential n → ⊥) (λ n. x.now.base ≡ Existential n) }
{
    match x.base {
        Base::Exist(n) => Some(n),
        Base::Proc(_) | Base::Global(_) | Base::Outer(_) => None,
    }
}

/// The existential that stands on the side of the line. It takes no memory.
pub fn owner(line: &Line, side: Side) -> Option<u32>
    ensures { MatchOption result ((n : ℕ) (u : Use) → line.now ≡ use_line side n u → ⊥)
        (λ n. (u : Use) × (line.now ≡ use_line side n u)) }
{
    match side {
        Side::Left => match line {
            Line::Sub(x, _) => exist_of(x),
            Line::Up(x, _) => exist_of(x),
            Line::Var(_) | Line::Same(_, _) | Line::Low(_, _) => None,
        },
        Side::Right => match line {
            Line::Sub(_, y) => exist_of(y),
            Line::Low(_, y) => exist_of(y),
            Line::Var(_) | Line::Same(_, _) | Line::Up(_, _) => None,
        },
    }
}

/// The ranks of what stands in the line beside the existential on the side. The error is out of memory.
pub fn use_ranks(
    alloc: Global,
    classes: &Classes,
    line: &Line,
    side: Side,
) -> Result<Vec<Rank>, Memory>
    ensures { IfOk result (λ ranks. (n : ℕ) (u : Use) → line.now ≡ use_line side n u →
        ranks.items ≡ use_ranks (move_use (class_of (get nat_cmp classes.now)) u)) }
{
    match line {
        Line::Sub(x, y) => match side {
            Side::Left => pair_ranks(alloc, classes, x, y),
            Side::Right => pair_ranks(alloc, classes, y, x),
        },
        Line::Low(k, x) | Line::Up(x, k) => bound_ranks(alloc, x, *k),
        Line::Var(_) | Line::Same(_, _) => Ok(Vec::new(alloc)),
    }
}
