// What becomes of lines.
ghost use Rattle.std.specs.Prelude.{◌≡◌, ◌≤◌, ℕ, List, Some, ◌↔◌, true, length, IfOk, IfSome, OnOk};
ghost use Rattle.rt_lines.specs.declared.line.Line.{Line as Given};
ghost use Rattle.rt_lines.specs.Orders.{Below};
ghost use Rattle.rt_rules.specs.Rules.{Derivable};
ghost use Rattle.rt_sat.specs.declared.increments.Snapshot.{Snapshot as Earlier};
ghost use Rattle.rt_sat.specs.Increments.{IsAdded, Tells, Told};
ghost use Rattle.rt_sure.specs.Fates.{fate_at, AreGoing, AreSure, DoStay};
ghost use Rattle.rt_sure.specs.Grounds.{HasShape};
ghost use Rattle.rt_sure.specs.Inside.Grounds.{IsTold};
ghost use Rattle.rt_sure.specs.Inside.Shapes.{AreJoined, IsSubtype};
ghost use Rattle.rt_sure.specs.declared.fate.Fate.TheVariants.{Stays as Staying, Goes as Going};

use crate::ground::{Flagged, Ground, Snapshotted, copies};
use crate::shapes::{is_below, is_set, joined, shaped_among, sure};
use crate::tables::table_of;
use rt_base::Memory;
use rt_lines::{Dtv, Line};
use rt_sat::{Extent, GrowingTable};
use rt_shape::Shape;
use std::alloc::Global;

/// What becomes of a line, whatever becomes of others.
#[derive(Clone, Copy, PartialEq, Eq)]
pub enum Fate {
    /// It stays.
    Stays,
    /// What stays derives it, where those before it stand and no line went that the others don't derive.
    Goes,
    /// Neither is known.
    Open,
}

/// What becomes of lines, and what is known of the ground on which it was said.
#[derive(Drop)]
pub struct Fated {
    /// What becomes of each of the lines.
    pub fates: Vec<Fate>,
    /// What lines that stay say, if there are `<=` lines that aren't known to stay.
    pub ground: Option<Ground>,
}

/// What becomes of the first lines, where the flags say which of them stay, one for each. Only `<=` lines go: such a line goes, if
/// its shape follows from those that stay and those before it, and if it follows from these and the shapes of all. Of the `<=`
/// lines that stay those alone are looked at that are among some; nothing is promised of how many lines go. With them comes what
/// can be asked of the others. The error is out of memory.
pub fn fates(alloc: Global, lines: &[Line], stays: &[bool], among: &[bool]) -> Result<Fated, Memory>
    requires within { length stays.now ≤ length lines.now }
    ensures each { IfOk result (λ fated. length fated.fates.items ≡ length stays.now) }
    ensures staying { IfOk result (λ fated. DoStay stays.now fated.fates.items) }
    ensures going { IfOk result (λ fated. (order : Below) → AreGoing order lines.now fated.fates.items) }
    ensures ground { IfOk result (λ fated. IfSome fated.ground (λ g. (g.lines ≡ lines.now) × (g.stays ≡ stays.now))) }
{
    if !has_open(lines, stays) {
        let fates = known(alloc, stays)?;
        return Ok(Fated {
            fates,
            ground: None,
        });
    }
    with_going(alloc, lines, stays, among)
}

// Whether one of the first lines is a `<=` line that isn't flagged.
fn has_open(lines: &[Line], stays: &[bool]) -> bool
    requires { length stays.now ≤ length lines.now }
{
    for i in 0..stays.len() {
        if !stays[i] && is_below(&lines[i]) {
            return true;
        }
    }
    false
}

// What becomes of lines, where no more is known than which of them stay.
fn known(alloc: Global, stays: &[bool]) -> Result<Vec<Fate>, Memory>
    ensures each { IfOk result (λ fates. length fates.items ≡ length stays.now) }
    ensures staying { IfOk result (λ fates. DoStay stays.now fates.items) }
    ensures going { IfOk result (λ fates. (i : ℕ) → fate_at fates.items i ≡ Going → ⊥) }
{
    let mut fates = Vec::with_capacity(alloc, stays.len())?;
    for i in 0..stays.len() {
        fates.push(fate_by(stays[i]))?;
    }
    Ok(fates)
}

// What becomes of a line, where no more is known than whether it stays.
fn fate_by(stays: bool) -> Fate
    ensures stays { result ≡ Staying ↔ stays ≡ true }
    ensures goes { result ≡ Going → ⊥ }
{
    if stays { Fate::Stays } else { Fate::Open }
}

// What becomes of the first lines, where it is known which of them stay.
fn with_going(
    alloc: Global,
    lines: &[Line],
    stays: &[bool],
    among: &[bool],
) -> Result<Fated, Memory>
    requires within { length stays.now ≤ length lines.now }
    ensures each { IfOk result (λ fated. length fated.fates.items ≡ length stays.now) }
    ensures staying { IfOk result (λ fated. DoStay stays.now fated.fates.items) }
    ensures going { IfOk result (λ fated. (order : Below) → AreGoing order lines.now fated.fates.items) }
    ensures ground { IfOk result (λ fated. IfSome fated.ground (λ g. (g.lines ≡ lines.now) × (g.stays ≡ stays.now))) }
{
    let known = lines_known(alloc, lines, stays)?;
    let mut table = first_table(alloc, lines, stays, among)?;
    let fates = fates_by(alloc, &mut table, lines, stays, &known)?;
    Ok(Fated {
        fates,
        ground: Some(Ground::new(table, known)),
    })
}

// The lines, with which of them stay and which are joined, and the shape of those that stay.
fn lines_known(alloc: Global, lines: &[Line], stays: &[bool]) -> Result<Flagged, Memory>
    requires { length stays.now ≤ length lines.now }
    ensures lines { IfOk result (λ known. known.lines.items ≡ lines.now) }
    ensures stays { IfOk result (λ known. known.stays.items ≡ stays.now) }
    ensures each { IfOk result (λ known. length known.joined.items ≡ length stays.now) }
    ensures joined { IfOk result (λ known. AreJoined lines.now stays.now known.joined.items) }
    ensures shape { IfOk result (λ known. HasShape lines.now stays.now known.shape) }
{
    let joined = joined(alloc, lines, stays)?;
    let shape = staying_shape(alloc, lines, stays)?;
    let (lines, stays) = copies(alloc, lines, stays)?;
    Ok(Flagged {
        lines,
        stays,
        joined,
        shape,
    })
}

// What lines that stay say, and the shapes of others, in a table that can grow, and what it says before it does.
fn first_table(
    alloc: Global,
    lines: &[Line],
    stays: &[bool],
    among: &[bool],
) -> Result<Snapshotted, Memory>
    requires { length stays.now ≤ length lines.now }
    ensures told { IfOk result (λ table. IsTold lines.now stays.now 0 table.growing) }
    ensures base { IfOk result (λ table. (told : List Given) → Tells told table.growing → Told told table.base table.growing) }
{
    let growing = grown(alloc, lines, stays, among)?;
    let base = growing.snapshot(alloc)?;
    Ok(Snapshotted { growing, base })
}

// What lines that stay say, and the shapes of others, in a table to which those can be added that don't stay.
fn grown(
    alloc: Global,
    lines: &[Line],
    stays: &[bool],
    among: &[bool],
) -> Result<GrowingTable, Memory>
    requires { length stays.now ≤ length lines.now }
    ensures { IfOk result (λ growing. IsTold lines.now stays.now 0 growing) }
{
    let shaped = shaped_among(alloc, lines, stays, among)?;
    let sides = open_sides(alloc, lines, stays)?;
    let growing = table_of(alloc, &shaped, &sides, Extent::Whole)?;
    Ok(growing)
}

// What becomes of the first lines by a table, to which those are added that don't stay.
fn fates_by(
    alloc: Global,
    table: &mut Snapshotted,
    lines: &[Line],
    stays: &[bool],
    known: &Flagged,
) -> Result<Vec<Fate>, Memory>
    requires within { length stays.now ≤ length lines.now }
    requires long { length stays.now ≤ length known.now.joined.items }
    requires joined { AreJoined lines.now stays.now known.now.joined.items }
    requires told { IsTold lines.now stays.now 0 table.old.growing }
    ensures each { IfOk result (λ fates. length fates.items ≡ length stays.now) }
    ensures staying { IfOk result (λ fates. DoStay stays.now fates.items) }
    ensures going { IfOk result (λ fates. (order : Below) → AreGoing order lines.now fates.items) }
    ensures base { OnOk result (table.new.base ≡ table.old.base) }
    ensures then { OnOk result ((told : List Given) (base : Earlier) →
        Told told base table.old.growing → Told told base table.new.growing) }
{
    one_by_one(alloc, &mut table.growing, lines, stays, &known.joined)
}

// What becomes of the first lines, which are added to the table one by one if they don't stay.
fn one_by_one(
    alloc: Global,
    growing: &mut GrowingTable,
    lines: &[Line],
    stays: &[bool],
    joined: &[bool],
) -> Result<Vec<Fate>, Memory>
    requires within { length stays.now ≤ length lines.now }
    requires long { length stays.now ≤ length joined.now }
    requires joined { AreJoined lines.now stays.now joined.now }
    requires told { IsTold lines.now stays.now 0 growing.old }
    ensures each { IfOk result (λ fates. length fates.items ≡ length stays.now) }
    ensures staying { IfOk result (λ fates. DoStay stays.now fates.items) }
    ensures going { IfOk result (λ fates. (order : Below) → AreGoing order lines.now fates.items) }
    ensures then { OnOk result ((told : List Given) (base : Earlier) → Told told base growing.old → Told told base growing.new) }
{
    let mut fates = Vec::with_capacity(alloc, stays.len())?;
    for i in 0..stays.len() {
        let fate = going(alloc, growing, &lines[i], stays[i], joined[i])?;
        fates.push(fate)?;
    }
    Ok(fates)
}

// The sides of `<=` lines that aren't flagged.
fn open_sides(alloc: Global, lines: &[Line], stays: &[bool]) -> Result<Vec<Dtv>, Memory>
    requires { length stays.now ≤ length lines.now }
{
    let mut sides = Vec::new(alloc);
    for i in 0..stays.len() {
        if !stays[i] {
            add_sides(&mut sides, &lines[i])?;
        }
    }
    Ok(sides)
}

// Adds the sides of a line, if it is a `<=` line.
fn add_sides(sides: &mut Vec<Dtv>, line: &Line) -> Result<(), Memory> {
    if let Line::Sub(x, y) = line {
        sides.push(x.copy()?)?;
        sides.push(y.copy()?)?;
    }
    Ok(())
}

// What becomes of a line where it is known whether it stays, and whether its shape follows from those that stay and those before
// it, and the table says of these and of the shapes of all. A `<=` line that doesn't stay is added to the table, if this doesn't
// have it.
fn going(
    alloc: Global,
    growing: &mut GrowingTable,
    line: &Line,
    stays: bool,
    joined: bool,
) -> Result<Fate, Memory>
    requires { (told : List Given) × Tells told growing.old }
    ensures stays { IfOk result (λ fate. fate ≡ Staying ↔ stays ≡ true) }
    ensures goes { IfOk result (λ fate. fate ≡ Going → (joined ≡ true) × IsSubtype line.now ×
        ((order : Below) (told : List Given) → Tells told growing.old → Derivable order told line.now)) }
    ensures added { OnOk result ((told : List Given) → Tells told growing.old → IsAdded told line.now growing.new) }
    ensures then { OnOk result ((told : List Given) (base : Earlier) → Told told base growing.old → Told told base growing.new) }
{
    if stays {
        return Ok(Fate::Stays);
    }
    let Line::Sub(x, y) = line else {
        return Ok(Fate::Open);
    };
    if !growing.has(x, y) {
        growing.add(alloc, line)?;
        return Ok(Fate::Open);
    }
    if !joined {
        return Ok(Fate::Open);
    }
    Ok(Fate::Goes)
}

// The shape of the lines that are flagged, if there is a bound that isn't; else that of no lines.
fn staying_shape(alloc: Global, lines: &[Line], stays: &[bool]) -> Result<Shape, Memory>
    requires { length stays.now ≤ length lines.now }
    ensures { IfOk result (HasShape lines.now stays.now) }
{
    let staying = staying_lines(alloc, lines, stays)?;
    let shape = rt_shape::of(alloc, &staying)?;
    Ok(shape)
}

// The lines that are flagged, if there is a bound that isn't.
fn staying_lines(alloc: Global, lines: &[Line], stays: &[bool]) -> Result<Vec<Line>, Memory>
    requires { length stays.now ≤ length lines.now }
    ensures { IfOk result (λ staying. AreSure lines.now stays.now staying.items) }
{
    if !has_open_bound(lines, stays) {
        return Ok(Vec::new(alloc));
    }
    sure(alloc, lines, stays)
}

// Whether there is a bound among the lines that isn't flagged.
fn has_open_bound(lines: &[Line], stays: &[bool]) -> bool {
    for i in 0..lines.len() {
        if is_bound(&lines[i]) && !is_set(stays, i) {
            return true;
        }
    }
    false
}

/// Whether the line is a bound. Effort alone rests on it.
pub fn is_bound(line: &Line) -> bool {
    match line {
        Line::Var(_) | Line::Same(_, _) | Line::Sub(_, _) => false,
        Line::Low(_, _) | Line::Up(_, _) => true,
    }
}
