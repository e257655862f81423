// Which slots hold lines of a kind, for each existential.
ghost use Rattle.std.specs.Prelude.{◌≡◌, ◌↔◌, ℕ, ◌≤◌, Some, true, IsTrue, MatchOption, OnOk};
ghost use Rattle.rt_polar.specs.Index.{has, IsBaseForgotten, IsBaseNoted, IsForgotten, IsNoted, IsOfKind, Names};

use crate::row::Row;
use rt_base::Memory;
use rt_lines::{Base, Line, Variance};
use std::collections::BTreeSet;

/// What a line does with an existential.
#[derive(Clone, Copy)]
pub enum Kind {
    /// A side of it has the existential as its base.
    Naming,
    /// It has a use that defines the existential.
    Defining,
    /// It has a use that consumes the existential.
    Consuming,
}

/// Numbers with slots: existentials with slots that hold lines of a kind, or digests with slots of their lines.
pub type Index = BTreeSet<(u32, usize)>;

// Whether a side of the line has the existential as its base.
fn names(line: &Line, v: u32) -> bool
    ensures { IsTrue result ↔ Names v line.now }
{
    let base = Base::Exist(v);
    match line {
        Line::Var(x) | Line::Low(_, x) | Line::Up(x, _) => x.base == base,
        Line::Same(x, y) | Line::Sub(x, y) => x.base == base || y.base == base,
    }
}

// Whether the line is of the kind for the existential.
fn is_of_kind(row: &Row, kind: Kind, v: u32) -> bool
    ensures { IsTrue result ↔ IsOfKind kind v row.now }
{
    match kind {
        Kind::Naming => names(row.line(), v),
        Kind::Defining => row.has_use(v, Variance::Co),
        Kind::Consuming => row.has_use(v, Variance::Contra),
    }
}

// Adds the line's slot to the existential, where the base is one for which the line is of the kind.
fn note_base(
    index: &mut Index,
    kind: Kind,
    row: &Row,
    base: Base,
    slot: usize,
) -> Result<(), Memory>
    ensures { OnOk result (IsBaseNoted kind row.now base slot (has index.old) (has index.new)) }
{
    if let Base::Exist(v) = base {
        if is_of_kind(row, kind, v) {
            index.insert((v, slot))?;
        }
    }
    Ok(())
}

/// Adds the line's slot to each existential for which the line is of the kind. The error is out of memory.
pub fn note(index: &mut Index, kind: Kind, row: &Row, slot: usize) -> Result<(), Memory>
    ensures { OnOk result (IsNoted kind row.now slot (has index.old) (has index.new)) }
{
    match row.line() {
        Line::Var(x) | Line::Low(_, x) | Line::Up(x, _) => {
            note_base(index, kind, row, x.base, slot)
        }
        Line::Same(x, y) | Line::Sub(x, y) => {
            note_base(index, kind, row, x.base, slot)?;
            note_base(index, kind, row, y.base, slot)
        }
    }
}

// Takes the slot away from the existential, where the base is one.
fn forget_base(index: &mut Index, base: Base, slot: usize)
    ensures { IsBaseForgotten base slot (has index.old) (has index.new) }
{
    if let Base::Exist(v) = base {
        index.remove(&(v, slot));
    }
}

/// Takes the slot away from each existential that the line names. It takes no memory.
pub fn forget(index: &mut Index, line: &Line, slot: usize)
    ensures { IsForgotten line.now slot (has index.old) (has index.new) }
{
    match line {
        Line::Var(x) | Line::Low(_, x) | Line::Up(x, _) => forget_base(index, x.base, slot),
        Line::Same(x, y) | Line::Sub(x, y) => {
            forget_base(index, x.base, slot);
            forget_base(index, y.base, slot);
        }
    }
}

/// The least slot of the existential, or of the digest, from one on. It takes no memory.
pub fn next_at(index: &Index, v: u32, from: usize) -> Option<usize>
    ensures { MatchOption result ((i : ℕ) → from ≤ i → has index.now v i ≡ true → ⊥)
        (λ slot. (from ≤ slot) × (has index.now v slot ≡ true) ×
        ((i : ℕ) → from ≤ i → has index.now v i ≡ true → slot ≤ i)) }
{
    let Some(least) = index.range((v, from)..).next() else {
        return None;
    };
    let (existential, slot) = *least;
    if existential == v { Some(slot) } else { None }
}
