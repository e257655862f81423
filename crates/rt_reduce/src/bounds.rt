// The variables of bounds.
ghost use Rattle.std.specs.Prelude.{◌∷◌, ◌++◌, ◌<◌, [], List, All, IfOk, OnOk};
ghost use Rattle.rt_lines.specs.declared.line.Line.{Line as Given};
ghost use Rattle.rt_lines.specs.Lines.{HasConstantsBelow};
ghost use Rattle.rt_reduce.specs.Inside.Deciding.{AreAbove, AreBelow};

use rt_base::Memory;
use rt_lines::{Dtv, Line, Order};
use std::alloc::Global;

// The variables of lower bounds at or above the constant.
pub fn lows(alloc: Global, lines: &[Line], order: &Order, k: u16) -> Result<Vec<Dtv>, Memory>
    requires constants { All (HasConstantsBelow order.now.count) lines.now }
    requires constant { k < order.now.count }
    ensures { IfOk result (λ found. AreAbove order.now lines.now k found.items) }
{
    let mut found = Vec::new(alloc);
    for line in lines {
        enter_low(order, k, &mut found, line)?;
    }
    Ok(found)
}

// Puts the line's variable behind others, if the line is a lower bound at or above the constant.
fn enter_low(order: &Order, k: u16, found: &mut Vec<Dtv>, line: &Line) -> Result<(), Memory>
    requires constants { HasConstantsBelow order.now.count line.now }
    requires constant { k < order.now.count }
    ensures { OnOk result ((before : List Given) →
        AreAbove order.now before k found.old.items → AreAbove order.now (before ++ line.now ∷ []) k found.new.items) }
{
    match line {
        Line::Low(bound, x) => {
            if order.le(k, *bound) {
                found.push(x.copy()?)?;
            }
            Ok(())
        }
        Line::Var(_) => Ok(()),
        Line::Same(_, _) => Ok(()),
        Line::Sub(_, _) => Ok(()),
        Line::Up(_, _) => Ok(()),
    }
}

// The variables of upper bounds at or below the constant.
pub fn ups(alloc: Global, lines: &[Line], order: &Order, k: u16) -> Result<Vec<Dtv>, Memory>
    requires constants { All (HasConstantsBelow order.now.count) lines.now }
    requires constant { k < order.now.count }
    ensures { IfOk result (λ found. AreBelow order.now lines.now k found.items) }
{
    let mut found = Vec::new(alloc);
    for line in lines {
        enter_up(order, k, &mut found, line)?;
    }
    Ok(found)
}

// Puts the line's variable behind others, if the line is an upper bound at or below the constant.
fn enter_up(order: &Order, k: u16, found: &mut Vec<Dtv>, line: &Line) -> Result<(), Memory>
    requires constants { HasConstantsBelow order.now.count line.now }
    requires constant { k < order.now.count }
    ensures { OnOk result ((before : List Given) →
        AreBelow order.now before k found.old.items → AreBelow order.now (before ++ line.now ∷ []) k found.new.items) }
{
    match line {
        Line::Up(x, bound) => {
            if order.le(*bound, k) {
                found.push(x.copy()?)?;
            }
            Ok(())
        }
        Line::Var(_) => Ok(()),
        Line::Same(_, _) => Ok(()),
        Line::Sub(_, _) => Ok(()),
        Line::Low(_, _) => Ok(()),
    }
}
