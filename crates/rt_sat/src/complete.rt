// Whether tables of bytes have all ways along edges.
ghost use Rattle.std.specs.Prelude.{◌≡◌, ◌+◌, ◌*◌, ◌<◌, ◌≤◌, ℕ, Contains, true, false, length};
ghost use Rattle.rt_grid.specs.Tables.{size_of};
ghost use Rattle.rt_sat.specs.declared.state.Edge.{Edge as Arrow};
ghost use Rattle.rt_sat.specs.Inside.Checks.{AreComplete, AreTurning, HasEdge, HasTurn, HasTurns, TakesIn};
ghost use Rattle.rt_sat.specs.Hints.{IsFamily};

use crate::family::{Family, place};
use crate::state::Edge;
use rt_grid::{Grid, NONE};

// Whether the rows of all classes have all ways along the edges.
pub(crate) fn is_complete(family: &Family, edges: &[Edge]) -> bool
    requires { (count : ℕ) × IsFamily count family.now }
    ensures { result ≡ true → AreComplete family.now edges.now }
{
    are_turning(family) && has_edges(family, edges)
}

// Whether all rows know of their own places, and have the ways of the states that are turned round.
fn are_turning(family: &Family) -> bool
    requires { (count : ℕ) × IsFamily count family.now }
    ensures { result ≡ true → AreTurning family.now }
{
    for class in 0..family.members.len() {
        let count = family.members[class].len();
        if !has_turns(&family.grids[class], count) {
            return false;
        }
    }
    true
}

// Whether the rows of so many members know of their own places, and have the ways of the states that are turned round.
fn has_turns(grid: &Grid, count: usize) -> bool
    requires few { count ≤ 6000 }
    requires size { size_of grid.now ≡ 2 * count }
    ensures { result ≡ true → HasTurns grid.now.rows count }
{
    for index in 0..count {
        if !has_turn(grid, index, false) || !has_turn(grid, index, true) {
            return false;
        }
    }
    true
}

// Whether the row of a member's state knows of the state itself, and has the ways of the state that is turned round.
fn has_turn(grid: &Grid, index: usize, contra: bool) -> bool
    requires few { index < 6000 }
    requires size { 2 * index + 1 < size_of grid.now }
    ensures { result ≡ true → HasTurn grid.now.rows index contra }
{
    let here = place(index, contra);
    let there = place(index, !contra);
    let row = grid.row(here);
    row[here] == 0 && is_relaxed(row, grid.row(there), 1)
}

// Whether the rows of the edges' starts have the ways from their ends.
fn has_edges(family: &Family, edges: &[Edge]) -> bool
    requires { (count : ℕ) × IsFamily count family.now }
    ensures { result ≡ true → (e : Arrow) → Contains edges.now e → HasEdge family.now e }
{
    for edge in edges {
        if !has_edge(family, edge) {
            return false;
        }
    }
    true
}

// Whether the row of the edge's start, if it stands in a class, has the ways from its end.
fn has_edge(family: &Family, edge: &Edge) -> bool
    requires { (count : ℕ) × IsFamily count family.now }
    ensures { result ≡ true → HasEdge family.now edge.now }
{
    let Some(from) = family.home(edge.from) else {
        return true;
    };
    let Some(to) = family.home(edge.to) else {
        return false;
    };
    let count = edge.count.capped();
    if to.class != from.class || count >= 255 {
        return false;
    }
    let grid = &family.grids[from.class];
    is_relaxed(grid.row(from.index), grid.row(to.index), count as u8)
}

// Whether a row has the ways of another one, with counts that are no greater than that of a step before them.
fn is_relaxed(row: &[u8], by: &[u8], count: u8) -> bool
    requires { length by.now ≡ length row.now }
    ensures { result ≡ true → TakesIn row.now by.now count }
{
    let mut bad = false;
    for j in 0..row.len() {
        bad |= is_far(row[j], by[j], count);
    }
    !bad
}

// Whether a count is greater than that of a step and of what comes behind it.
fn is_far(known: u8, behind: u8, count: u8) -> bool
    ensures { result ≡ false → behind < 255 → (known < 255) × (known ≤ count + behind) }
{
    let sum = behind.saturating_add(count);
    (known > sum) | ((known == NONE) & (behind != NONE))
}
