// What lines that stay say, with the shapes of others, to be asked with lines that stand.
ghost use Rattle.std.specs.Prelude.{◌≡◌, ◌<◌, ◌∷◌, List, Some, true, IfOk, length, slice_get};
ghost use Rattle.rt_lines.specs.declared.line.Line.{Line as Given};
ghost use Rattle.rt_lines.specs.declared.line.Line.TheVariants.{Var as Exists};
ghost use Rattle.rt_lines.specs.Orders.{Below};
ghost use Rattle.rt_rules.specs.Rules.{Derivable};
ghost use Rattle.rt_sure.specs.Fates.{flag_at, AreSure, DerivesAll, HasBefore};
ghost use Rattle.rt_sure.specs.Grounds.{HasFlagged, HasShape, IsGround};

use crate::shapes::{is_below, is_set};
use rt_base::Memory;
use rt_lines::{Dtv, Line};
use rt_sat::{GrowingTable, Snapshot};
use rt_shape::Shape;
use std::alloc::Global;
use std::marker::Model;

/// A table that grows, and what it said at a time.
#[derive(Drop)]
pub(crate) struct Snapshotted {
    pub(crate) growing: GrowingTable,
    pub(crate) base: Snapshot,
}

/// Lines, and what is known of which of them stay.
#[derive(Drop)]
pub(crate) struct Flagged {
    pub(crate) lines: Vec<Line>,
    pub(crate) stays: Vec<bool>,
    // Which of them are joined.
    pub(crate) joined: Vec<bool>,
    // The shape of lines that stay.
    pub(crate) shape: Shape,
}

/// What lines that stay say, with the shapes of others, in a table that is asked with lines that stand.
#[derive(Drop)]
pub struct Ground {
    table: Snapshotted,
    known: Flagged,
}

impl Model for Ground {
    ghost use Rattle.std.specs.Prelude.{};
    ghost use Rattle.rt_sure.specs.Grounds.{Grounded, HasShape, IsGround};

    ghost Value = { Grounded };

    ghost view = { λ g. record { lines = g.known.lines.items; stays = g.known.stays.items } };

    ghost invariant = { λ g. IsGround g.known.lines.items g.known.stays.items g.known.joined.items g.table.base g.table.growing ×
        HasShape g.known.lines.items g.known.stays.items g.known.shape };
}

impl Ground {
    // What a table said of the lines at a time, where it is known which of them stay and which are joined.
    pub(crate) fn new(table: Snapshotted, known: Flagged) -> Ground
        requires ground { IsGround known.lines.items known.stays.items known.joined.items table.base table.growing }
        requires shape { HasShape known.lines.items known.stays.items known.shape }
        ensures { result ≡ record { lines = known.lines.items; stays = known.stays.items } }
    {
        Ground { table, known }
    }

    /// Whether it is found that a variable is there by lines that stay. Where it isn't, nothing is said.
    pub fn exists(&self, x: &Dtv) -> bool
        ensures { result ≡ true → (order : Below) (left : List Given) → HasFlagged self.now.lines self.now.stays left →
            Derivable order left (Exists x.now) }
    {
        self.known.shape.node(x).is_some()
    }

    /// Whether it is found that the `<=` line at a place follows from the lines that stand: those that stay, those before it, and
    /// others that are flagged. Where it isn't, nothing is said. The error is out of memory.
    pub fn is_derived(&self, alloc: Global, stands: &[bool], place: usize) -> Result<bool, Memory>
        ensures { IfOk result (λ yes. yes ≡ true → (order : Below) (l : Given) → slice_get self.now.lines place ≡ Some l →
            (left : List Given) → HasFlagged self.now.lines self.now.stays left → HasBefore self.now.lines place left →
            HasFlagged self.now.lines stands.now left → DerivesAll order (l ∷ left) self.now.lines → Derivable order left l) }
    {
        let Some(Line::Sub(x, y)) = self.known.lines.get(place) else {
            return Ok(false);
        };
        if !is_set(&self.known.joined, place) {
            return Ok(false);
        }
        let more = beside(alloc, &self.known.lines, &self.known.stays, stands)?;
        let yes = self
            .table
            .growing
            .had_with(alloc, &self.table.base, &more, x, y)?;
        Ok(yes)
    }
}

// The lines and the flags, once more.
pub(crate) fn copies(
    alloc: Global,
    lines: &[Line],
    flags: &[bool],
) -> Result<(Vec<Line>, Vec<bool>), Memory>
    ensures { IfOk result (λ copies. (copies.0.items ≡ lines.now) × (copies.1.items ≡ flags.now)) }
{
    let lines = copied(alloc, lines)?;
    let flags = flags.to_vec(alloc)?;
    Ok((lines, flags))
}

// The lines, once more.
fn copied(alloc: Global, lines: &[Line]) -> Result<Vec<Line>, Memory>
    ensures { IfOk result (λ copied. copied.items ≡ lines.now) }
{
    let mut copied = Vec::new(alloc);
    for line in lines {
        copied.push(line.copy()?)?;
    }
    Ok(copied)
}

// The `<=` lines that stand, without those that stay.
fn beside(
    alloc: Global,
    lines: &[Line],
    stays: &[bool],
    stands: &[bool],
) -> Result<Vec<Line>, Memory>
    ensures { IfOk result (λ beside. AreSure lines.now stands.now beside.items) }
{
    let mut beside = Vec::new(alloc);
    for i in 0..lines.len() {
        if is_beside(lines, stays, stands, i) {
            beside.push(lines[i].copy()?)?;
        }
    }
    Ok(beside)
}

// Whether the line at an index is a `<=` line that stands, and isn't known to stay.
fn is_beside(lines: &[Line], stays: &[bool], stands: &[bool], i: usize) -> bool
    requires { i < length lines.now }
    ensures { result ≡ true → flag_at stands.now i ≡ true }
{
    is_below(&lines[i]) && is_set(stands, i) && !is_set(stays, i)
}
