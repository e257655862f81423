// Bounds of which arcs from inside or ways, which were made before, say whether they are derivable.
ghost use Rattle.std.specs.Prelude.{◌∷◌, ◌<◌, ◌↔◌, List, All, IsTrue, IfOk, IfSome};
ghost use Rattle.rt_lines.specs.declared.line.Line.{Line as Given};
ghost use Rattle.rt_lines.specs.declared.line.Line.TheVariants.{Low as LowerBound, Up as UpperBound, Var as Exists};
ghost use Rattle.rt_lines.specs.Lines.{HasConstantsBelow};
ghost use Rattle.rt_lines.specs.Orders.{Below};
ghost use Rattle.rt_rules.specs.Rules.{Derivable};
ghost use Rattle.rt_witness.specs.Witnesses.{IsLeft, IsWitnesses};
ghost use Rattle.rt_sure.specs.Grounds.{HasFlagged};
ghost use Rattle.rt_reduce.specs.Inside.Deciding.{IsInnerFor, IsWaysFor};

use crate::bounds::{lows, ups};
use crate::deciding::told_named;
use crate::derivable::exists;
use crate::inner::Inner;
use rt_base::Memory;
use rt_lines::{Dtv, Line, Order};
use rt_outline::Led;
use rt_sure::{Ground, Ways};
use rt_witness::Witnesses;
use std::alloc::Global;
use std::slice;

// Whether a bound is derivable from the lines left, by ways of lines that these and the bound derive, the lines left among them,
// if there are such ways. No bound has an arc, so the bound itself may be among those. Of other lines nothing is said.
pub(crate) fn decided(
    alloc: Global,
    ways: Option<&Ways>,
    witnesses: &Witnesses,
    stands: &[bool],
    left: &[Line],
    order: &Order,
    line: &Line,
) -> Result<Option<bool>, Memory>
    requires ways { IfSome ways (λ t. IsWaysFor order.now (line.now ∷ left.now) t.now) }
    requires witnesses { (lines : List Given) × IsWitnesses lines witnesses.now × IsLeft lines stands.now left.now }
    requires constants { All (HasConstantsBelow order.now.count) left.now }
    requires constant { HasConstantsBelow order.now.count line.now }
    ensures { IfOk result (λ decided. IfSome decided (λ yes. IsTrue yes ↔ Derivable order.now left.now line.now)) }
{
    let Some(ways) = ways else {
        return Ok(None);
    };
    match line {
        Line::Var(_) | Line::Same(_, _) | Line::Sub(_, _) => Ok(None),
        Line::Low(k, x) => {
            let yes = is_low(alloc, ways, witnesses, stands, left, order, *k, x)?;
            Ok(Some(yes))
        }
        Line::Up(x, k) => {
            let yes = is_up(alloc, ways, witnesses, stands, left, order, x, *k)?;
            Ok(Some(yes))
        }
    }
}

// Whether the constant is a lower bound of the variable: whether this exists, and ways lead to it from those of other lower
// bounds.
fn is_low(
    alloc: Global,
    ways: &Ways,
    witnesses: &Witnesses,
    stands: &[bool],
    left: &[Line],
    order: &Order,
    k: u16,
    x: &Dtv,
) -> Result<bool, Memory>
    requires ways { IsWaysFor order.now (LowerBound k x.now ∷ left.now) ways.now }
    requires witnesses { (lines : List Given) × IsWitnesses lines witnesses.now × IsLeft lines stands.now left.now }
    requires constants { All (HasConstantsBelow order.now.count) left.now }
    requires constant { k < order.now.count }
    ensures { IfOk result (λ yes. IsTrue yes ↔ Derivable order.now left.now (LowerBound k x.now)) }
{
    // The call says that the order is transitive.
    order.count();
    let from = lows(alloc, left, order, k)?;
    let led = ways.leads(alloc, &from, slice::from_ref(x))?;
    if !led {
        return Ok(false);
    }
    let there = is_there(alloc, None, witnesses, stands, left, x)?;
    Ok(there)
}

// Whether the constant is an upper bound of the variable: whether this exists, and ways lead from it to those of other upper
// bounds.
fn is_up(
    alloc: Global,
    ways: &Ways,
    witnesses: &Witnesses,
    stands: &[bool],
    left: &[Line],
    order: &Order,
    x: &Dtv,
    k: u16,
) -> Result<bool, Memory>
    requires ways { IsWaysFor order.now (UpperBound x.now k ∷ left.now) ways.now }
    requires witnesses { (lines : List Given) × IsWitnesses lines witnesses.now × IsLeft lines stands.now left.now }
    requires constants { All (HasConstantsBelow order.now.count) left.now }
    requires constant { k < order.now.count }
    ensures { IfOk result (λ yes. IsTrue yes ↔ Derivable order.now left.now (UpperBound x.now k)) }
{
    // The call says that the order is transitive.
    order.count();
    let to = ups(alloc, left, order, k)?;
    let led = ways.leads(alloc, slice::from_ref(x), &to)?;
    if !led {
        return Ok(false);
    }
    let there = is_there(alloc, None, witnesses, stands, left, x)?;
    Ok(there)
}

// Whether the line is derivable from the lines left, as far as arcs from inside say, of lines that these and the line derive.
// No bound has an arc, so a bound itself may be among those.
pub(crate) fn is_told(
    alloc: Global,
    inner: Option<&Inner>,
    ground: Option<&Ground>,
    witnesses: &Witnesses,
    stands: &[bool],
    left: &[Line],
    order: &Order,
    line: &Line,
) -> Result<bool, Memory>
    requires inner { IfSome inner (λ t. IsInnerFor order.now (line.now ∷ left.now) t.now) }
    requires ground { IfSome ground (λ g. HasFlagged g.now.lines g.now.stays left.now) }
    requires witnesses { (lines : List Given) × IsWitnesses lines witnesses.now × IsLeft lines stands.now left.now }
    requires constants { All (HasConstantsBelow order.now.count) left.now }
    requires constant { HasConstantsBelow order.now.count line.now }
    ensures { IfOk result (λ yes. IsTrue yes → Derivable order.now left.now line.now) }
{
    match line {
        Line::Var(_) | Line::Same(_, _) | Line::Sub(_, _) => Ok(false),
        Line::Low(k, x) => match inner {
            Some(inner) => has_low(alloc, inner, ground, witnesses, stands, left, order, *k, x),
            None => Ok(false),
        },
        Line::Up(x, k) => match inner {
            Some(inner) => has_up(alloc, inner, ground, witnesses, stands, left, order, x, *k),
            None => Ok(false),
        },
    }
}

// Whether the variable exists, as far as the lines that stand say which name it, or the shape of lines that stay does, else by
// the shape of what is left.
fn is_there(
    alloc: Global,
    ground: Option<&Ground>,
    witnesses: &Witnesses,
    stands: &[bool],
    left: &[Line],
    x: &Dtv,
) -> Result<bool, Memory>
    requires ground { IfSome ground (λ g. HasFlagged g.now.lines g.now.stays left.now) }
    requires witnesses { (lines : List Given) × IsWitnesses lines witnesses.now × IsLeft lines stands.now left.now }
    ensures { IfOk result (λ yes. (order : Below) → IsTrue yes ↔ Derivable order left.now (Exists x.now)) }
{
    match told_named(witnesses, stands, x) {
        Led::No => Ok(false),
        Led::Yes => Ok(true),
        Led::Open => {
            if let Some(ground) = ground
                && ground.exists(x)
            {
                return Ok(true);
            }
            let shape = rt_shape::of(alloc, left)?;
            Ok(exists(&shape, x))
        }
    }
}

// Whether the constant is a lower bound of the variable, as far as arcs say that lead from those of other lower bounds.
fn has_low(
    alloc: Global,
    inner: &Inner,
    ground: Option<&Ground>,
    witnesses: &Witnesses,
    stands: &[bool],
    left: &[Line],
    order: &Order,
    k: u16,
    x: &Dtv,
) -> Result<bool, Memory>
    requires inner { IsInnerFor order.now (LowerBound k x.now ∷ left.now) inner.now }
    requires ground { IfSome ground (λ g. HasFlagged g.now.lines g.now.stays left.now) }
    requires witnesses { (lines : List Given) × IsWitnesses lines witnesses.now × IsLeft lines stands.now left.now }
    requires constants { All (HasConstantsBelow order.now.count) left.now }
    requires constant { k < order.now.count }
    ensures { IfOk result (λ yes. IsTrue yes → Derivable order.now left.now (LowerBound k x.now)) }
{
    // The call says that the order is transitive.
    order.count();
    let from = lows(alloc, left, order, k)?;
    if !inner.leads(alloc, &from, slice::from_ref(x))? {
        return Ok(false);
    }
    let there = is_there(alloc, ground, witnesses, stands, left, x)?;
    Ok(there)
}

// Whether the constant is an upper bound of the variable, as far as arcs say that lead to those of other upper bounds.
fn has_up(
    alloc: Global,
    inner: &Inner,
    ground: Option<&Ground>,
    witnesses: &Witnesses,
    stands: &[bool],
    left: &[Line],
    order: &Order,
    x: &Dtv,
    k: u16,
) -> Result<bool, Memory>
    requires inner { IsInnerFor order.now (UpperBound x.now k ∷ left.now) inner.now }
    requires ground { IfSome ground (λ g. HasFlagged g.now.lines g.now.stays left.now) }
    requires witnesses { (lines : List Given) × IsWitnesses lines witnesses.now × IsLeft lines stands.now left.now }
    requires constants { All (HasConstantsBelow order.now.count) left.now }
    requires constant { k < order.now.count }
    ensures { IfOk result (λ yes. IsTrue yes → Derivable order.now left.now (UpperBound x.now k)) }
{
    // The call says that the order is transitive.
    order.count();
    let to = ups(alloc, left, order, k)?;
    if !inner.leads(alloc, slice::from_ref(x), &to)? {
        return Ok(false);
    }
    let there = is_there(alloc, ground, witnesses, stands, left, x)?;
    Ok(there)
}
