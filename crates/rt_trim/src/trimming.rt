// Lines without idle existentials.
ghost use Rattle.std.specs.Prelude.{◌≡◌, ◌≢◌, ◌<◌, not, IfOk, MatchBool, MatchOption, OnSome, IfSome};
ghost use Rattle.std.specs.BTreeSet.{contains};
ghost use Rattle.std.specs.Ordering.{nat_cmp};
ghost use Rattle.rt_lines.specs.FlowCounts.{flow_count};
ghost use Rattle.rt_trim.specs.Idle.{is_idle, trimmed, trimmed_line as line_trimmed};
ghost use Rattle.rt_trim.specs.Trimming.{HasNoneIdle, IsTrimmed};

use crate::idle::{Existentials, spoiled};
use rt_base::{Memory, Sequence};
use rt_lines::{Base, Line, Lines};
use std::alloc::Global;

/// The lines with those of idle existentials as their shapes, so fewer `<=` lines and bounds, or None where there are
/// no such lines. It takes time nearly linear in the lines, and for each variable in the letters of all that begin it.
/// The error is out of memory.
pub fn trim(alloc: Global, lines: &[Line]) -> Result<Option<Lines>, Memory>
    ensures trimmed { IfOk result (λ after. MatchOption after (HasNoneIdle lines.now) (IsTrimmed lines.now)) }
    ensures smaller { IfOk result (λ after. IfSome after (λ left. flow_count left < flow_count lines.now)) }
{
    let spoiled = spoiled(alloc, lines)?;
    if !have_idle(&spoiled, lines) {
        return Ok(None);
    }
    let left = without_idle(alloc, &spoiled, lines)?;
    Ok(Some(left))
}

// Whether one of the lines is other than what is left of it.
fn have_idle(spoiled: &Existentials, lines: &[Line]) -> bool
    ensures { MatchBool result (trimmed (λ n. not (contains nat_cmp spoiled.now n)) lines.now ≢ lines.now)
        (trimmed (λ n. not (contains nat_cmp spoiled.now n)) lines.now ≡ lines.now) }
{
    for line in lines {
        if has_idle(spoiled, line) {
            return true;
        }
    }
    false
}

// Whether it is a `<=` line or bound with an existential that is not among these.
fn has_idle(spoiled: &Existentials, line: &Line) -> bool
    ensures { MatchBool result (line_trimmed (λ n. not (contains nat_cmp spoiled.now n)) line.now ≢ line.now)
        (line_trimmed (λ n. not (contains nat_cmp spoiled.now n)) line.now ≡ line.now) }
{
    match line {
        Line::Var(_) | Line::Same(_, _) => false,
        Line::Sub(x, y) => is_idle_base(spoiled, x.base) || is_idle_base(spoiled, y.base),
        Line::Low(_, x) | Line::Up(x, _) => is_idle_base(spoiled, x.base),
    }
}

// Whether the base is an existential that is not among these.
fn is_idle_base(spoiled: &Existentials, base: Base) -> bool
    ensures { result ≡ is_idle (λ n. not (contains nat_cmp spoiled.now n)) base }
{
    match base {
        Base::Exist(n) => !spoiled.contains(&n),
        Base::Proc(_) | Base::Global(_) | Base::Outer(_) => false,
    }
}

// The lines with those as their shapes that have an existential that is not among these.
fn without_idle(alloc: Global, spoiled: &Existentials, lines: &[Line]) -> Result<Lines, Memory>
    ensures { IfOk result (λ left. left ≡ trimmed (λ n. not (contains nat_cmp spoiled.now n)) lines.now) }
{
    let mut left = Sequence::new(alloc);
    for line in lines {
        left.push(trimmed_line(spoiled, line)?)?;
    }
    Ok(left)
}

// What is left of the line.
fn trimmed_line(spoiled: &Existentials, line: &Line) -> Result<Line, Memory>
    ensures { IfOk result (λ left. left ≡ line_trimmed (λ n. not (contains nat_cmp spoiled.now n)) line.now) }
{
    match line {
        Line::Sub(x, y) if is_idle_base(spoiled, x.base) || is_idle_base(spoiled, y.base) => {
            Ok(Line::Same(x.copy()?, y.copy()?))
        }
        Line::Low(_, x) | Line::Up(x, _) if is_idle_base(spoiled, x.base) => {
            Ok(Line::Var(x.copy()?))
        }
        _ => line.copy(),
    }
}
