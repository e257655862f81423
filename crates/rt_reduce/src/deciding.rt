// Whether a line is derivable from others, which are some of the lines of arcs from outside.
ghost use Rattle.std.specs.Prelude.{◌≡◌, ◌∷◌, ◌↔◌, ◌<◌, List, All, Contains, IsTrue, true, IfOk, IfSome};
ghost use Rattle.rt_lines.specs.declared.line.Line.{Line as Given};
ghost use Rattle.rt_lines.specs.declared.variable.Dtv.{Dtv as Variable};
ghost use Rattle.rt_lines.specs.declared.line.Line.TheVariants.{Low as LowerBound, Sub as Subtype, Up as UpperBound, Var as Exists};
ghost use Rattle.rt_lines.specs.Lines.{HasConstantsBelow};
ghost use Rattle.rt_lines.specs.Orders.{Below};
ghost use Rattle.rt_rules.specs.Rules.{Derivable, HasSide};
ghost use Rattle.rt_outline.specs.Lines.{standing};
ghost use Rattle.rt_sure.specs.Grounds.{HasFlagged};
ghost use Rattle.rt_witness.specs.Witnesses.{IsLeft, IsWitnesses};
ghost use Rattle.rt_reduce.specs.Inside.Deciding.{IsAskable, IsGroundFor, IsInnerFor, IsUpperWith, IsWaysFor, Tells};

use crate::derivable::{are_one, derives_line};
use crate::early::{decided, is_told};
use crate::inner::{Inner, is_tabled};
use crate::merging::push_sides;
use crate::opened::seen;
use rt_base::Memory;
use rt_lines::{Dtv, Line, Order};
use rt_outline::{Led, Upper};
use rt_sure::{Ground, Ways};
use rt_witness::Witnesses;
use std::alloc::Global;
use std::slice;

// Of so few lines all are saturated as soon.
const FEW: usize = 1000;

// Of so many lines no arcs are made anew before all are saturated. Of fewer it was measured that such arcs pay, where the answer
// is no; of so many the saturation alone was measured.
const PLENTY: usize = 2400;

// Whether the line is derivable from the lines left, where arcs from outside and which lines name which variables leave it
// open: if it is a bound, by ways or arcs from inside that were made before, else by what is left. Where there are ways, many
// lines were left open, and arcs from outside of what is left seldom say more.
pub(crate) fn is_derivable_open(
    alloc: Global,
    inner: Option<&Inner>,
    ground: Option<&Ground>,
    ways: Option<&Ways>,
    witnesses: &Witnesses,
    stands: &[bool],
    left: &[Line],
    order: &Order,
    line: &Line,
) -> Result<bool, Memory>
    requires inner { IfSome inner (λ t. IsInnerFor order.now (line.now ∷ left.now) t.now) }
    requires ground { IfSome ground (λ g. HasFlagged g.now.lines g.now.stays left.now) }
    requires ways { IfSome ways (λ t. IsWaysFor order.now (line.now ∷ left.now) t.now) }
    requires witnesses { (lines : List Given) × IsWitnesses lines witnesses.now × IsLeft lines stands.now left.now }
    requires constants { All (HasConstantsBelow order.now.count) left.now }
    requires constant { HasConstantsBelow order.now.count line.now }
    ensures { IfOk result (λ yes. IsTrue yes ↔ Derivable order.now left.now line.now) }
{
    if let Some(yes) = decided(alloc, ways, witnesses, stands, left, order, line)? {
        return Ok(yes);
    }
    if is_told(alloc, inner, ground, witnesses, stands, left, order, line)? {
        return Ok(true);
    }
    if ways.is_some() {
        return derives_seen(alloc, left, order, line);
    }
    derives_anew(alloc, left, order, line)
}

// Whether the line is derivable from the lines left: by their shape and arcs from inside, where these say, else by a saturation.
fn derives_seen(alloc: Global, left: &[Line], order: &Order, line: &Line) -> Result<bool, Memory>
    requires constants { All (HasConstantsBelow order.now.count) left.now }
    requires constant { HasConstantsBelow order.now.count line.now }
    ensures { IfOk result (λ yes. IsTrue yes ↔ Derivable order.now left.now line.now) }
{
    if let Some(yes) = seen(alloc, left, order, line)? {
        return Ok(yes);
    }
    derives_line(alloc, left, order, line)
}

// Whether the line is derivable from the lines left: by arcs from outside of these alone, narrower ones first where it's worth
// while, or by their shape and arcs from inside, where one of these says, else by a saturation.
fn derives_anew(alloc: Global, left: &[Line], order: &Order, line: &Line) -> Result<bool, Memory>
    requires constants { All (HasConstantsBelow order.now.count) left.now }
    requires constant { HasConstantsBelow order.now.count line.now }
    ensures { IfOk result (λ yes. IsTrue yes ↔ Derivable order.now left.now line.now) }
{
    match told_narrow(alloc, left, order, line)? {
        Led::No => Ok(false),
        Led::Yes => Ok(true),
        Led::Open => derives_open(alloc, left, order, line),
    }
}

// The same, without narrower arcs, and by a table where there are many lines.
fn derives_open(alloc: Global, left: &[Line], order: &Order, line: &Line) -> Result<bool, Memory>
    requires constants { All (HasConstantsBelow order.now.count) left.now }
    requires constant { HasConstantsBelow order.now.count line.now }
    ensures { IfOk result (λ yes. IsTrue yes ↔ Derivable order.now left.now line.now) }
{
    if let Some(yes) = seen(alloc, left, order, line)? {
        return Ok(yes);
    }
    if is_told_below(alloc, left, line)? {
        return Ok(true);
    }
    match told_anew(alloc, left, order, line)? {
        Led::No => Ok(false),
        Led::Yes => Ok(true),
        Led::Open => derives_line(alloc, left, order, line),
    }
}

// Whether a table of the lines left tells a `<=` line, if there are so many lines that it's worth while.
fn is_told_below(alloc: Global, left: &[Line], line: &Line) -> Result<bool, Memory>
    ensures { IfOk result (λ yes. yes ≡ true → (order : Below) → Derivable order left.now line.now) }
{
    let Line::Sub(x, y) = line else {
        return Ok(false);
    };
    if left.len() < FEW {
        return Ok(false);
    }
    let yes = is_tabled(alloc, left, x, y)?;
    Ok(yes)
}

// What arcs from outside of the lines left alone say of a `<=` line or a bound, unless there are so many that it isn't worth while.
fn told_anew(alloc: Global, left: &[Line], order: &Order, line: &Line) -> Result<Led, Memory>
    requires constants { All (HasConstantsBelow order.now.count) left.now }
    requires constant { HasConstantsBelow order.now.count line.now }
    ensures { IfOk result (Tells order.now left.now line.now) }
{
    if left.len() >= PLENTY {
        return Ok(Led::Open);
    }
    match line {
        Line::Var(_) | Line::Same(_, _) => Ok(Led::Open),
        Line::Sub(_, _) | Line::Low(_, _) | Line::Up(_, _) => {
            told_wide(alloc, left, order, line)
        }
    }
}

// What all arcs from outside say of a line.
fn told_wide(alloc: Global, left: &[Line], order: &Order, line: &Line) -> Result<Led, Memory>
    requires constants { All (HasConstantsBelow order.now.count) left.now }
    requires constant { HasConstantsBelow order.now.count line.now }
    ensures { IfOk result (Tells order.now left.now line.now) }
{
    let outer = upper_with(alloc, left, line)?;
    let led = told_of_all(alloc, &outer, left, order, line)?;
    Ok(led)
}

// What their shape and narrower arcs say of a `<=` line, if there are so many lines, and no more, that it's worth while.
fn told_narrow(alloc: Global, left: &[Line], order: &Order, line: &Line) -> Result<Led, Memory>
    requires constants { All (HasConstantsBelow order.now.count) left.now }
    requires constant { HasConstantsBelow order.now.count line.now }
    ensures { IfOk result (Tells order.now left.now line.now) }
{
    if left.len() < FEW || left.len() >= PLENTY {
        return Ok(Led::Open);
    }
    let Line::Sub(x, y) = line else {
        return Ok(Led::Open);
    };
    let shape = rt_shape::of(alloc, left)?;
    if !are_one(&shape, x, y) {
        return Ok(Led::No);
    }
    match narrow_with(alloc, left, line)? {
        Some(outer) => told_of_all(alloc, &outer, left, order, line),
        None => Ok(Led::Open),
    }
}

// What arcs from outside of lines say of a line, where all of these stand.
fn told_of_all(
    alloc: Global,
    outer: &Upper,
    left: &[Line],
    order: &Order,
    line: &Line,
) -> Result<Led, Memory>
    requires outer { IsUpperWith left.now line.now outer.now }
    requires constants { All (HasConstantsBelow order.now.count) left.now }
    requires constant { HasConstantsBelow order.now.count line.now }
    ensures { IfOk result (Tells order.now left.now line.now) }
{
    let stands = vec![in alloc; true; left.len()]?;
    let led = told_by(alloc, outer, &stands, order, line)?;
    Ok(led)
}

// The arcs from outside of lines, between the variables that these and another line name.
fn upper_with(alloc: Global, lines: &[Line], line: &Line) -> Result<Upper, Memory>
    ensures { IfOk result (IsUpperWith lines.now line.now) }
{
    let mut sides = Vec::new(alloc);
    push_sides(line, &mut sides)?;
    let outer = Upper::of(alloc, lines, &sides)?;
    Ok(outer)
}

// The same, but that the arcs lead to fewer, where such were found.
fn narrow_with(alloc: Global, lines: &[Line], line: &Line) -> Result<Option<Upper>, Memory>
    ensures { IfOk result (λ found. IfSome found (IsUpperWith lines.now line.now)) }
{
    let mut sides = Vec::new(alloc);
    push_sides(line, &mut sides)?;
    let outer = Upper::narrow(alloc, lines, &sides)?;
    Ok(outer)
}

// Whether the line at a place is derivable from the lines that stand, as far as their sides, arcs from outside, and what lines that
// stay say with those that stand. It needs no list of all of these lines.
pub(crate) fn told(
    alloc: Global,
    outer: Option<&Upper>,
    ground: Option<&Ground>,
    witnesses: &Witnesses,
    stands: &[bool],
    order: &Order,
    line: &Line,
    place: usize,
) -> Result<Led, Memory>
    requires outer { IfSome outer (λ t. IsAskable order.now stands.now line.now t.now) }
    requires constant { HasConstantsBelow order.now.count line.now }
    ensures { IfOk result (λ led. (left : List Given) → IfSome outer.entry (λ t. left ≡ standing t.now.lines stands.now) →
        IfSome ground.entry (λ g. IsGroundFor order.now left stands.now line.now place g.now) →
        (lines : List Given) → IsWitnesses lines witnesses.now → IsLeft lines stands.now left →
        Tells order.now left line.now led) }
{
    if let Line::Var(x) = line {
        return Ok(told_named(witnesses, stands, x));
    }
    let Some(outer) = outer else {
        return Ok(Led::Open);
    };
    let led = told_by(alloc, outer, stands, order, line)?;
    match led {
        Led::Yes | Led::No => Ok(led),
        Led::Open => told_beside(alloc, ground, stands, place),
    }
}

// What lines that stay say of the line at a place, with those that stand: yes, or nothing.
fn told_beside(
    alloc: Global,
    ground: Option<&Ground>,
    stands: &[bool],
    place: usize,
) -> Result<Led, Memory>
    ensures { IfOk result (λ led. (order : Below) (left : List Given) (l : Given) →
        IfSome ground.entry (λ g. IsGroundFor order left stands.now l place g.now) → Tells order left l led) }
{
    let Some(ground) = ground else {
        return Ok(Led::Open);
    };
    if ground.is_derived(alloc, stands, place)? {
        return Ok(Led::Yes);
    }
    Ok(Led::Open)
}

// Whether the line says that a variable is there, and a line that stands names it.
pub(crate) fn is_spare(witnesses: &Witnesses, stands: &[bool], line: &Line) -> bool
    ensures { result ≡ true → (order : Below) (lines left : List Given) → IsWitnesses lines witnesses.now →
        IsLeft lines stands.now left →
        Derivable order left line.now }
{
    let Line::Var(x) = line else {
        return false;
    };
    match told_named(witnesses, stands, x) {
        Led::Yes => true,
        Led::No | Led::Open => false,
    }
}

// Whether the variable exists, as far as the lines that stand say which name it, and which name one of its shape.
pub(crate) fn told_named(witnesses: &Witnesses, stands: &[bool], x: &Dtv) -> Led
    ensures { (order : Below) (lines left : List Given) → IsWitnesses lines witnesses.now → IsLeft lines stands.now left →
        Tells order left (Exists x.now) result }
{
    if witnesses.is_named(stands, x) {
        return Led::Yes;
    }
    if witnesses.may_be_there(stands, x) {
        Led::Open
    } else {
        Led::No
    }
}

// Whether the line is derivable from the lines that stand, as far as arcs from outside say.
pub(crate) fn told_by(
    alloc: Global,
    outer: &Upper,
    stands: &[bool],
    order: &Order,
    line: &Line,
) -> Result<Led, Memory>
    requires sides { (x : Variable) → HasSide line.now x → Contains outer.now.named x }
    requires constants { All (HasConstantsBelow order.now.count) (standing outer.now.lines stands.now) }
    requires constant { HasConstantsBelow order.now.count line.now }
    ensures { IfOk result (Tells order.now (standing outer.now.lines stands.now) line.now) }
{
    match line {
        Line::Var(_) => Ok(Led::Open),
        Line::Same(_, _) => Ok(Led::Open),
        Line::Sub(x, y) => told_below(alloc, outer, stands, x, y),
        Line::Low(k, x) => told_low(alloc, outer, stands, order, *k, x),
        Line::Up(x, k) => told_up(alloc, outer, stands, order, x, *k),
    }
}

// Whether the first variable is a subtype of the second by the lines that stand, as far as arcs from outside say.
fn told_below(
    alloc: Global,
    outer: &Upper,
    stands: &[bool],
    x: &Dtv,
    y: &Dtv,
) -> Result<Led, Memory>
    requires first { Contains outer.now.named x.now }
    requires second { Contains outer.now.named y.now }
    ensures { IfOk result (λ led. (order : Below) → Tells order (standing outer.now.lines stands.now) (Subtype x.now y.now) led) }
{
    let from = slice::from_ref(x);
    let led = outer.led(alloc, stands, from, y)?;
    Ok(led)
}

// Whether the constant is a lower bound of the variable by the lines that stand, as far as arcs from outside say.
fn told_low(
    alloc: Global,
    outer: &Upper,
    stands: &[bool],
    order: &Order,
    k: u16,
    x: &Dtv,
) -> Result<Led, Memory>
    requires variable { Contains outer.now.named x.now }
    requires constants { All (HasConstantsBelow order.now.count) (standing outer.now.lines stands.now) }
    requires constant { k < order.now.count }
    ensures { IfOk result (Tells order.now (standing outer.now.lines stands.now) (LowerBound k x.now)) }
{
    // The call says that the order is transitive.
    order.count();
    let led = outer.led_low(alloc, stands, order, k, x)?;
    Ok(led)
}

// Whether the constant is an upper bound of the variable by the lines that stand, as far as arcs from outside say.
fn told_up(
    alloc: Global,
    outer: &Upper,
    stands: &[bool],
    order: &Order,
    x: &Dtv,
    k: u16,
) -> Result<Led, Memory>
    requires variable { Contains outer.now.named x.now }
    requires constants { All (HasConstantsBelow order.now.count) (standing outer.now.lines stands.now) }
    requires constant { k < order.now.count }
    ensures { IfOk result (Tells order.now (standing outer.now.lines stands.now) (UpperBound x.now k)) }
{
    // The call says that the order is transitive.
    order.count();
    let led = outer.led_up(alloc, stands, order, x, k)?;
    Ok(led)
}
