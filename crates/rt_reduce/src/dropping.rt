// Lines that others derive, dropped from the end.
ghost use Rattle.std.specs.Prelude.{◌≡◌, ℕ, ◌+◌, ◌<◌, ◌≤◌, [], List, All, Contains, true, false, OnOk, IfOk, IfSome};
ghost use Rattle.std.specs.Prelude.{MatchBool, length, replicate, slice_index_or};
ghost use Rattle.std.specs.List.{remove_range};
ghost use Rattle.rt_lines.specs.declared.line.Line.{Line as Given};
ghost use Rattle.rt_lines.specs.Lines.{HasConstantsBelow};
ghost use Rattle.rt_reduction.specs.Drops.{Drops};
ghost use Rattle.rt_reduction.specs.Emits.{is_flow as is_flow_line};
ghost use Rattle.rt_outline.specs.Lines.{HaveSameFlow};
ghost use Rattle.rt_witness.specs.Witnesses.{IsWitnesses};
ghost use Rattle.rt_reduce.specs.Inside.Deciding.{AreStanding, AreWitnessed, IsGroundAt, IsInnerFor, IsLowerWith, IsOuterOf, IsOwnGround, IsOwnOuter, IsTableAbout};
ghost use Rattle.rt_reduce.specs.Inside.Deciding.{IsWaysFor};
ghost use Rattle.rt_reduce.specs.Inside.Handing.{AreNeeded};
ghost use Rattle.rt_sure.specs.Fates.{fate_at};
ghost use Rattle.rt_sure.specs.declared.fate.Fate.TheVariants.{Open as Unknown, Stays as Staying};
ghost use Rattle.rt_reduce.specs.Inside.Dropping.{AreFated, AreLeft, AreShape, AreStaying, AreTold, Decides, IsFatedAt, IsKeptOrGone, IsMoved, IsSpared, IsToldAt};

use crate::confining::{among, is_set};
use crate::copying::copies;
use crate::deciding::{is_derivable_open, is_spare, told};
use crate::handing::handed;
use crate::inner::Inner;
use crate::parting::with_parted;
use crate::staying::{staying, staying_beside};
use rt_base::{Memory, Sequence};
use rt_lines::{Line, Lines, Order};
use rt_outline::{Led, Upper};
use rt_sat::GrowingTable;
use rt_sure::{Fate, Fated, Ground, Ways, is_bound};
use rt_witness::Witnesses;
use std::alloc::Global;

// From so many `<=` lines on of which nothing is known it pays to saturate all lines once.
const MANY: usize = 50;

// From so many bounds on of which nothing is known it pays to saturate all lines once.
const SEVERAL: usize = 4;

/// What stays of the lines when, from the last to the first, each line goes that the lines before it and those that stayed
/// behind it derive with the order of constants. One of which `rt_earlier` says that the lines before it derive it goes at
/// once. Arcs from outside of all lines, and what joins their sides, say beforehand which of them stay, however many of the
/// others go, and `rt_sure` which others go. Where many `<=` lines are left of which nothing is known, or several bounds that
/// neither arcs from inside nor a table tell of, ways of all lines, which are saturated once, say which of them stay, and
/// decide bounds. Of the rest `rt_sure`'s table says, with the lines that stand, arcs from outside and from inside, or what is
/// left is saturated. The error is out of memory.
pub fn drop_derivable(alloc: Global, lines: &[Line], order: &Order) -> Result<Lines, Memory>
    requires { All (HasConstantsBelow order.now.count) lines.now }
    ensures drops { IfOk result (λ left. Drops order.now [] lines.now left) }
    ensures stood { IfOk result (λ left. (l : Given) → Contains left l → Contains lines.now l) }
{
    drop_known(alloc, lines, &[], None, &mut None, order)
}

// The same, where lines that stood before are given, of which none follows from the others, and maybe arcs from outside of all
// lines, and a table of what they say.
pub(crate) fn drop_known(
    alloc: Global,
    lines: &[Line],
    before: &[Line],
    outer: Option<Upper>,
    table: &mut Option<GrowingTable>,
    order: &Order,
) -> Result<Lines, Memory>
    requires outer { IfSome outer (IsOuterOf lines.now) }
    requires table { IfSome table.old (IsTableAbout lines.now) }
    requires needed { AreNeeded order.now before.now }
    requires below { All (HasConstantsBelow order.now.count) before.now }
    requires constants { All (HasConstantsBelow order.now.count) lines.now }
    ensures drops { IfOk result (λ left. Drops order.now [] lines.now left) }
    ensures stood { IfOk result (λ left. (l : Given) → Contains left l → Contains lines.now l) }
{
    let first = shape_place(lines);
    let shaped = drop_shapes(alloc, lines, order, first)?;
    let outer = outer_for(alloc, outer, lines, &shaped)?;
    let left = drop_flow(alloc, &shaped, before, outer, table, order, first)?;
    Ok(Sequence::from_vec(left))
}

// The same arcs for what is left of lines of which some went that are no `<=` lines and no bounds.
fn outer_for(
    alloc: Global,
    outer: Option<Upper>,
    lines: &[Line],
    left: &[Line],
) -> Result<Option<Upper>, Memory>
    requires outer { IfSome outer (IsOuterOf lines.now) }
    requires same { HaveSameFlow lines.now left.now }
    ensures { IfOk result (λ found. IfSome found (IsOuterOf left.now)) }
{
    match outer {
        Some(outer) => {
            let outer = outer.for_lines(alloc, left)?;
            Ok(Some(outer))
        }
        None => Ok(None),
    }
}

// Where the lines begin behind which there is no `<=` line and no bound.
fn shape_place(lines: &[Line]) -> usize
    ensures within { result ≤ length lines.now }
    ensures shape { AreShape lines.now result }
{
    let mut place = lines.len();
    while place > 0 && !is_flow(&lines[place - 1]) {
        place -= 1;
    }
    place
}

// What is left when lines from a place on go.
fn drop_shapes(
    alloc: Global,
    lines: &[Line],
    order: &Order,
    first: usize,
) -> Result<Vec<Line>, Memory>
    requires first { first ≤ length lines.now }
    requires constants { All (HasConstantsBelow order.now.count) lines.now }
    ensures left { IfOk result (λ left. AreLeft order.now lines.now first left.items) }
    ensures stood { IfOk result (λ left. (l : Given) → Contains left.items l → Contains lines.now l) }
{
    let told = rt_earlier::told(alloc, lines)?;
    let witnesses = Witnesses::of(alloc, lines)?;
    let left = drop_from(
        alloc,
        lines,
        None,
        None,
        None,
        None,
        &told,
        &[],
        &witnesses,
        order,
        first,
    )?;
    Ok(left)
}

// What is left when lines before a place go, where those from the place on stay, and arcs from outside may be given, and a table.
fn drop_flow(
    alloc: Global,
    lines: &[Line],
    before: &[Line],
    outer: Option<Upper>,
    table: &mut Option<GrowingTable>,
    order: &Order,
    first: usize,
) -> Result<Vec<Line>, Memory>
    requires left { (all : List Given) × AreLeft order.now all first lines.now }
    requires needed { AreNeeded order.now before.now }
    requires below { All (HasConstantsBelow order.now.count) before.now }
    requires outer { IfSome outer (IsOuterOf lines.now) }
    requires table { IfSome table.old (IsTableAbout lines.now) }
    requires constants { All (HasConstantsBelow order.now.count) lines.now }
    ensures drops { IfOk result (λ left. Drops order.now [] lines.now left.items) }
    ensures stood { IfOk result (λ left. (l : Given) → Contains left.items l → Contains lines.now l) }
{
    let known = known(alloc, lines, before, order, first)?;
    let outer = outer_of(alloc, lines, &known, outer)?;
    let left = drop_staying(alloc, lines, outer.as_ref(), table, &known, order)?;
    Ok(left)
}

// The same, where it is known of some lines that they stay.
fn drop_staying(
    alloc: Global,
    lines: &[Line],
    outer: Option<&Upper>,
    table: &mut Option<GrowingTable>,
    known: &[bool],
    order: &Order,
) -> Result<Vec<Line>, Memory>
    requires outer { IfSome outer (λ t. IsOuterOf lines.now t.now) }
    requires table { IfSome table.old (IsTableAbout lines.now) }
    requires each { length known.now ≡ length lines.now }
    requires known { AreStaying order.now lines.now known.now }
    requires constants { All (HasConstantsBelow order.now.count) lines.now }
    ensures drops { IfOk result (λ left. Drops order.now [] lines.now left.items) }
    ensures stood { IfOk result (λ left. (l : Given) → Contains left.items l → Contains lines.now l) }
{
    let told = vec![in alloc; false; lines.len()]?;
    let fated = fates_of(alloc, outer, lines, known, order)?;
    let left = drop_fated(alloc, lines, outer, table, &told, &fated, order)?;
    Ok(left)
}

// For each of the lines whether it is known to stay: those from a place on do, and those that lines say which stood before.
fn known(
    alloc: Global,
    lines: &[Line],
    before: &[Line],
    order: &Order,
    first: usize,
) -> Result<Vec<bool>, Memory>
    requires left { (all : List Given) × AreLeft order.now all first lines.now }
    requires needed { AreNeeded order.now before.now }
    requires below { All (HasConstantsBelow order.now.count) before.now }
    requires constants { All (HasConstantsBelow order.now.count) lines.now }
    ensures each { IfOk result (λ known. length known.items ≡ length lines.now) }
    ensures staying { IfOk result (λ known. AreStaying order.now lines.now known.items) }
{
    let mut known = handed(alloc, lines, before, order)?;
    for i in first..known.len() {
        known[i] = true;
    }
    Ok(known)
}

// What is left when lines go, where arcs from outside of all lines may be given, and a table, and which of them follow from those
// before them is, and what is known of what becomes of them.
fn drop_fated(
    alloc: Global,
    lines: &[Line],
    outer: Option<&Upper>,
    table: &mut Option<GrowingTable>,
    told: &[bool],
    fated: &Fated,
    order: &Order,
) -> Result<Vec<Line>, Memory>
    requires outer { IfSome outer (λ t. IsOuterOf lines.now t.now) }
    requires table { IfSome table.old (IsTableAbout lines.now) }
    requires each { length lines.now ≤ length told.now }
    requires told { AreTold lines.now told.now }
    requires long { length fated.now.fates.items ≡ length lines.now }
    requires fated { AreFated order.now lines.now (replicate (length lines.now) true) fated.now.fates.items }
    requires ground { IfSome fated.now.ground (IsOwnGround lines.now fated.now.fates.items) }
    requires constants { All (HasConstantsBelow order.now.count) lines.now }
    ensures drops { IfOk result (λ left. Drops order.now [] lines.now left.items) }
    ensures stood { IfOk result (λ left. (l : Given) → Contains left.items l → Contains lines.now l) }
{
    let inner = inner_beside(alloc, lines, table, &fated.fates, order)?;
    let left = drop_by(
        alloc,
        lines,
        outer,
        inner.as_ref(),
        fated.ground.as_ref(),
        told,
        &fated.fates,
        order,
    )?;
    Ok(left)
}

// The same, where arcs from inside of the lines may be given, and what lines that stay say.
fn drop_by(
    alloc: Global,
    lines: &[Line],
    outer: Option<&Upper>,
    inner: Option<&Inner>,
    ground: Option<&Ground>,
    told: &[bool],
    fates: &[Fate],
    order: &Order,
) -> Result<Vec<Line>, Memory>
    requires outer { IfSome outer (λ t. IsOuterOf lines.now t.now) }
    requires inner { IfSome inner (λ t. IsLowerWith lines.now [] t.now) }
    requires ground { IfSome ground (λ g. IsOwnGround lines.now fates.now g.now) }
    requires each { length lines.now ≤ length told.now }
    requires told { AreTold lines.now told.now }
    requires long { length fates.now ≡ length lines.now }
    requires fated { AreFated order.now lines.now (replicate (length lines.now) true) fates.now }
    requires constants { All (HasConstantsBelow order.now.count) lines.now }
    ensures drops { IfOk result (λ left. Drops order.now [] lines.now left.items) }
    ensures stood { IfOk result (λ left. (l : Given) → Contains left.items l → Contains lines.now l) }
{
    let ways = ways_beside(alloc, lines, fates, inner, order)?;
    let left = drop_beside(
        alloc,
        lines,
        outer,
        inner,
        ways.as_ref(),
        ground,
        told,
        fates,
        order,
    )?;
    Ok(left)
}

// The same, where ways of the lines may be given.
fn drop_beside(
    alloc: Global,
    lines: &[Line],
    outer: Option<&Upper>,
    inner: Option<&Inner>,
    ways: Option<&Ways>,
    ground: Option<&Ground>,
    told: &[bool],
    fates: &[Fate],
    order: &Order,
) -> Result<Vec<Line>, Memory>
    requires outer { IfSome outer (λ t. IsOuterOf lines.now t.now) }
    requires inner { IfSome inner (λ t. IsLowerWith lines.now [] t.now) }
    requires ways { IfSome ways (λ t. IsOwnOuter lines.now t.now) }
    requires ground { IfSome ground (λ g. IsOwnGround lines.now fates.now g.now) }
    requires each { length lines.now ≤ length told.now }
    requires told { AreTold lines.now told.now }
    requires long { length fates.now ≡ length lines.now }
    requires fated { AreFated order.now lines.now (replicate (length lines.now) true) fates.now }
    requires constants { All (HasConstantsBelow order.now.count) lines.now }
    ensures drops { IfOk result (λ left. Drops order.now [] lines.now left.items) }
    ensures stood { IfOk result (λ left. (l : Given) → Contains left.items l → Contains lines.now l) }
{
    let now = settled(alloc, ways, lines, fates, order)?;
    let left = drop_on(alloc, lines, outer, inner, ways, ground, told, &now, order)?;
    Ok(left)
}

// What becomes of the lines in any case, of which there may be arcs from outside.
fn fates_of(
    alloc: Global,
    outer: Option<&Upper>,
    lines: &[Line],
    known: &[bool],
    order: &Order,
) -> Result<Fated, Memory>
    requires outer { IfSome outer (λ t. IsOuterOf lines.now t.now) }
    requires each { length known.now ≡ length lines.now }
    requires known { AreStaying order.now lines.now known.now }
    requires constants { All (HasConstantsBelow order.now.count) lines.now }
    ensures each { IfOk result (λ fated. length fated.fates.items ≡ length lines.now) }
    ensures fated { IfOk result (λ fated.
        AreFated order.now lines.now (replicate (length lines.now) true) fated.fates.items) }
    ensures ground { IfOk result (λ fated. IfSome fated.ground (IsOwnGround lines.now fated.fates.items)) }
{
    let near = staying(alloc, outer, lines, known, order)?;
    let stays = with_parted(alloc, lines, &near)?;
    let among = among(alloc, outer, lines, &stays)?;
    let fated = rt_sure::fates(alloc, lines, &stays, &among)?;
    Ok(fated)
}

// The ways between the variables that the lines name, if nothing is known of many `<=` lines, or of several bounds.
fn ways_beside(
    alloc: Global,
    lines: &[Line],
    fates: &[Fate],
    inner: Option<&Inner>,
    order: &Order,
) -> Result<Option<Ways>, Memory>
    requires inner { IfSome inner (λ t. IsLowerWith lines.now [] t.now) }
    requires constants { All (HasConstantsBelow order.now.count) lines.now }
    ensures { IfOk result (λ ways. IfSome ways (λ t. IsOwnOuter lines.now t)) }
{
    if open_count(lines, fates) < MANY
        && bound_count(alloc, lines, fates, inner, order)? < SEVERAL
    {
        return Ok(None);
    }
    let copies = copies(alloc, lines)?;
    let ways = Ways::of(alloc, copies, &[])?;
    Ok(Some(ways))
}

// How many bounds there are of which nothing is known, where arcs from inside may be given.
fn bound_count(
    alloc: Global,
    lines: &[Line],
    fates: &[Fate],
    inner: Option<&Inner>,
    order: &Order,
) -> Result<usize, Memory>
    requires inner { IfSome inner (λ t. IsLowerWith lines.now [] t.now) }
    requires constants { All (HasConstantsBelow order.now.count) lines.now }
{
    match inner {
        Some(inner) => inner.open_count(alloc, lines, fates, order),
        None => Ok(0),
    }
}

// How many `<=` lines there are of which nothing is known.
fn open_count(lines: &[Line], fates: &[Fate]) -> usize {
    let mut count: usize = 0;
    for i in 0..lines.len() {
        if is_below(&lines[i]) && fate_of(fates, i) == Fate::Open {
            count = count.saturating_add(1);
        }
    }
    count
}

// Whether the line is a `<=` line.
fn is_below(line: &Line) -> bool {
    match line {
        Line::Sub(_, _) => true,
        Line::Var(_) | Line::Same(_, _) | Line::Low(_, _) | Line::Up(_, _) => false,
    }
}

// What becomes of the lines, where ways of them may say more.
fn settled(
    alloc: Global,
    ways: Option<&Ways>,
    lines: &[Line],
    fates: &[Fate],
    order: &Order,
) -> Result<Vec<Fate>, Memory>
    requires ways { IfSome ways (λ t. IsOwnOuter lines.now t.now) }
    requires each { length fates.now ≡ length lines.now }
    requires fated { AreFated order.now lines.now (replicate (length lines.now) true) fates.now }
    ensures fated { IfOk result (λ now. AreFated order.now lines.now (replicate (length lines.now) true) now.items) }
    ensures kept { IfOk result (λ now. (i : ℕ) → fate_at fates.now i ≡ Staying → fate_at now.items i ≡ Staying) }
{
    let Some(ways) = ways else {
        let now = fates.to_vec(alloc)?;
        return Ok(now);
    };
    let now = staying_beside(alloc, ways, lines, fates, order)?;
    Ok(now)
}

// Arcs from inside of the lines, if there is a bound among them of which nothing is known. A table of what they say may be given.
fn inner_beside(
    alloc: Global,
    lines: &[Line],
    table: &mut Option<GrowingTable>,
    fates: &[Fate],
    order: &Order,
) -> Result<Option<Inner>, Memory>
    requires table { IfSome table.old (IsTableAbout lines.now) }
    requires constants { All (HasConstantsBelow order.now.count) lines.now }
    ensures { IfOk result (λ inner. IfSome inner (λ t. IsLowerWith lines.now [] t)) }
{
    if !has_open_bound(lines, fates) {
        return Ok(None);
    }
    let inner = Inner::of(alloc, lines, table, fates, order)?;
    Ok(Some(inner))
}

// Whether there is a bound among the lines of which nothing is known.
fn has_open_bound(lines: &[Line], fates: &[Fate]) -> bool {
    for i in 0..lines.len() {
        if is_bound(&lines[i]) && fate_of(fates, i) == Fate::Open {
            return true;
        }
    }
    false
}

// The same, where which lines name which variables isn't given.
fn drop_on(
    alloc: Global,
    lines: &[Line],
    outer: Option<&Upper>,
    inner: Option<&Inner>,
    ways: Option<&Ways>,
    ground: Option<&Ground>,
    told: &[bool],
    fates: &[Fate],
    order: &Order,
) -> Result<Vec<Line>, Memory>
    requires outer { IfSome outer (λ t. IsOuterOf lines.now t.now) }
    requires inner { IfSome inner (λ t. IsLowerWith lines.now [] t.now) }
    requires ways { IfSome ways (λ t. IsOwnOuter lines.now t.now) }
    requires ground { IfSome ground (λ g. IsOwnGround lines.now fates.now g.now) }
    requires each { length lines.now ≤ length told.now }
    requires told { AreTold lines.now told.now }
    requires fated { AreFated order.now lines.now (replicate (length lines.now) true) fates.now }
    requires constants { All (HasConstantsBelow order.now.count) lines.now }
    ensures drops { IfOk result (λ left. Drops order.now [] lines.now left.items) }
    ensures stood { IfOk result (λ left. (l : Given) → Contains left.items l → Contains lines.now l) }
{
    let witnesses = Witnesses::of(alloc, lines)?;
    let left = drop_from(
        alloc, lines, outer, inner, ways, ground, told, fates, &witnesses, order, 0,
    )?;
    Ok(left)
}

// What is left when lines go, the last of them first. Which of them follow from those before them is given, and what becomes of
// them, as far as it is known, and maybe arcs of all lines from outside and from inside and their ways, and which lines name
// which variables.
fn drop_from(
    alloc: Global,
    lines: &[Line],
    outer: Option<&Upper>,
    inner: Option<&Inner>,
    ways: Option<&Ways>,
    ground: Option<&Ground>,
    told: &[bool],
    fates: &[Fate],
    witnesses: &Witnesses,
    order: &Order,
    first: usize,
) -> Result<Vec<Line>, Memory>
    requires first { first ≤ length lines.now }
    requires outer { IfSome outer (λ t. IsOuterOf lines.now t.now) }
    requires inner { IfSome inner (λ t. IsLowerWith lines.now [] t.now) }
    requires ways { IfSome ways (λ t. IsOwnOuter lines.now t.now) }
    requires ground { IfSome ground (λ g. IsOwnGround lines.now fates.now g.now) }
    requires each { length lines.now ≤ length told.now }
    requires told { AreTold lines.now told.now }
    requires fated { AreFated order.now lines.now (replicate (length lines.now) true) fates.now }
    requires witnesses { IsWitnesses lines.now witnesses.now }
    requires constants { All (HasConstantsBelow order.now.count) lines.now }
    ensures left { IfOk result (λ left. AreLeft order.now lines.now first left.items) }
    ensures stood { IfOk result (λ left. (l : Given) → Contains left.items l → Contains lines.now l) }
{
    let mut stands = vec![in alloc; true; lines.len()]?;
    let mut left = copies(alloc, lines)?;
    let mut place = lines.len();
    // The lines from the place to this one went, and weren't taken out yet.
    let mut next = place;
    while place > first {
        place -= 1;
        next = drop_before(
            alloc,
            outer,
            inner,
            ways,
            ground,
            told[place],
            fate_of(fates, place),
            witnesses,
            &mut stands,
            &mut left,
            order,
            place,
            next,
        )?;
    }
    take_out(&mut left, place, next);
    Ok(left)
}

// What becomes of the line at the place, as far as it is known.
pub(crate) fn fate_of(fates: &[Fate], place: usize) -> Fate
    ensures { result ≡ fate_at fates.now place }
{
    match fates.get(place) {
        Some(fate) => *fate,
        None => Fate::Open,
    }
}

// Arcs from outside of the lines, which may be given, if there is a `<=` line or a bound among them that isn't known to stay.
fn outer_of(
    alloc: Global,
    lines: &[Line],
    known: &[bool],
    outer: Option<Upper>,
) -> Result<Option<Upper>, Memory>
    requires { IfSome outer (IsOuterOf lines.now) }
    ensures { IfOk result (λ found. IfSome found (IsOuterOf lines.now)) }
{
    if !has_open_flow(lines, known) {
        return Ok(None);
    }
    if outer.is_some() {
        return Ok(outer);
    }
    let made = Upper::of(alloc, lines, &[])?;
    Ok(Some(made))
}

// Whether there is a `<=` line or a bound among the lines that isn't flagged.
fn has_open_flow(lines: &[Line], known: &[bool]) -> bool {
    for i in 0..lines.len() {
        if is_flow(&lines[i]) && !is_set(known, i) {
            return true;
        }
    }
    false
}

// Whether the line is a `<=` line or a bound.
pub(crate) fn is_flow(line: &Line) -> bool
    ensures { result ≡ is_flow_line line.now }
{
    match line {
        Line::Var(_) | Line::Same(_, _) => false,
        Line::Sub(_, _) | Line::Low(_, _) | Line::Up(_, _) => true,
    }
}

// Lets the line at the place go, if the others but for those behind it and before the next one derive it. One that is said to
// follow from those before it, of which it is known that it goes, or of which the lines that name which variables say that it
// goes, isn't taken out yet. The place from which on lines that went weren't taken out ends at the result.
fn drop_before(
    alloc: Global,
    outer: Option<&Upper>,
    inner: Option<&Inner>,
    ways: Option<&Ways>,
    ground: Option<&Ground>,
    told: bool,
    fate: Fate,
    witnesses: &Witnesses,
    stands: &mut Vec<bool>,
    left: &mut Vec<Line>,
    order: &Order,
    place: usize,
    next: usize,
) -> Result<usize, Memory>
    requires within { place < next × (next ≤ length left.old.items) }
    requires flags { place < length stands.old.items }
    requires constants { All (HasConstantsBelow order.now.count) (remove_range left.old.items (place + 1) next) }
    requires standing { IfSome outer (λ t. AreStanding (remove_range left.old.items (place + 1) next) stands.old.items (place + 1) t.now) }
    requires inner { IfSome inner (λ t. IsInnerFor order.now (remove_range left.old.items (place + 1) next) t.now) }
    requires ways { IfSome ways (λ t. IsWaysFor order.now (remove_range left.old.items (place + 1) next) t.now) }
    requires ground { IfSome ground (λ g.
        IsGroundAt order.now fate (remove_range left.old.items (place + 1) next) stands.old.items place g.now) }
    requires told { IsToldAt told (remove_range left.old.items (place + 1) next) place }
    requires fated { IsFatedAt order.now fate (remove_range left.old.items (place + 1) next) place }
    requires stood { slice_index_or stands.old.items place false ≡ true }
    requires witnesses { (lines : List Given) × IsWitnesses lines witnesses.now
        × AreWitnessed lines (remove_range left.old.items (place + 1) next) stands.old.items (place + 1) }
    ensures within { IfOk result (λ end. place ≤ end × (end ≤ length left.new.items)) }
    ensures lines { IfOk result (λ end. IsKeptOrGone (remove_range left.old.items (place + 1) next) place
        (remove_range left.new.items place end)) }
    ensures decides { IfOk result (λ end. Decides order.now (remove_range left.old.items (place + 1) next) place
        (remove_range left.new.items place end)) }
    ensures moved { IfOk result (λ end. IsMoved (remove_range left.old.items (place + 1) next) stands.old.items place
        (remove_range left.new.items place end) stands.new.items) }
    ensures stays { OnOk result (fate ≡ Staying → stands.new.items ≡ stands.old.items) }
{
    if fate == Fate::Stays {
        take_out(left, place + 1, next);
        return Ok(place);
    }
    if told || fate == Fate::Goes {
        stands[place] = false;
        return Ok(next);
    }
    if goes(witnesses, stands, &left[place], place) {
        return Ok(next);
    }
    take_out(left, place + 1, next);
    drop_at(
        alloc, outer, inner, ways, ground, witnesses, stands, left, order, place,
    )?;
    Ok(place)
}

// Takes out the lines from one place up to another.
fn take_out(left: &mut Vec<Line>, from: usize, to: usize)
    requires { from ≤ to × (to ≤ length left.old.items) }
    ensures { left.new.items ≡ remove_range left.old.items from to }
{
    left.drain(from..to);
}

// Whether the line at the place says that a variable is there which another line that stands names. If so its flag is cleared.
fn goes(witnesses: &Witnesses, stands: &mut Vec<bool>, line: &Line, place: usize) -> bool
    requires within { place < length stands.old.items }
    requires stood { slice_index_or stands.old.items place false ≡ true }
    ensures { MatchBool result (IsSpared witnesses.now stands.old.items line.now place stands.new.items)
        (stands.new.items ≡ stands.old.items) }
{
    stands[place] = false;
    if is_spare(witnesses, stands, line) {
        return true;
    }
    stands[place] = true;
    false
}

// Takes out the line at the place, if the others derive it. It is asked about where it stands, and isn't moved where arcs from
// outside or which lines name which variables say that it stays.
fn drop_at(
    alloc: Global,
    outer: Option<&Upper>,
    inner: Option<&Inner>,
    ways: Option<&Ways>,
    ground: Option<&Ground>,
    witnesses: &Witnesses,
    stands: &mut Vec<bool>,
    left: &mut Vec<Line>,
    order: &Order,
    place: usize,
) -> Result<(), Memory>
    requires within { place < length left.old.items }
    requires flags { place < length stands.old.items }
    requires constants { All (HasConstantsBelow order.now.count) left.old.items }
    requires standing { IfSome outer (λ t. AreStanding left.old.items stands.old.items (place + 1) t.now) }
    requires inner { IfSome inner (λ t. IsInnerFor order.now left.old.items t.now) }
    requires ways { IfSome ways (λ t. IsWaysFor order.now left.old.items t.now) }
    requires ground { IfSome ground (λ g. IsGroundAt order.now Unknown left.old.items stands.old.items place g.now) }
    requires witnesses { (lines : List Given) × IsWitnesses lines witnesses.now
        × AreWitnessed lines left.old.items stands.old.items (place + 1) }
    ensures lines { OnOk result (IsKeptOrGone left.old.items place left.new.items) }
    ensures decides { OnOk result (Decides order.now left.old.items place left.new.items) }
    ensures moved { OnOk result (IsMoved left.old.items stands.old.items place left.new.items stands.new.items) }
{
    stands[place] = false;
    match told(
        alloc,
        outer,
        ground,
        witnesses,
        stands,
        order,
        &left[place],
        place,
    )? {
        Led::No => {
            stands[place] = true;
            return Ok(());
        }
        Led::Yes => {
            left.remove(place);
            return Ok(());
        }
        Led::Open => {}
    }
    let line = left.remove(place);
    let derived = is_derivable_open(
        alloc, inner, ground, ways, witnesses, stands, left, order, &line,
    )?;
    if derived {
        return Ok(());
    }
    left.insert(place, line)?;
    stands[place] = true;
    Ok(())
}
