// Numbers of variables, equal exactly for those that lie below each other.
ghost use Rattle.std.specs.Prelude.{◌≡◌, Contains, length, IfOk, MatchOption};
ghost use Rattle.rt_lines.specs.declared.variable.Dtv.{Dtv as Variable};
ghost use Rattle.rt_reduce.specs.Inside.Alike.{AreNumbered, HasNumber};

use rt_base::Memory;
use rt_equals::Comparison;
use rt_lines::Dtv;
use std::alloc::Global;

/// The number that stands for a variable, or `None` where it isn't named.
pub fn number(comparison: &Comparison, equals: &[usize], x: &Dtv) -> Option<usize>
    requires { length equals.now ≡ length comparison.now.named }
    ensures { MatchOption result (Contains comparison.now.named x.now → ⊥) (λ k. HasNumber comparison.now.named equals.now x.now k) }
{
    match comparison.number(x) {
        Some(i) => Some(equals[i as usize]),
        None => None,
    }
}

/// The numbers that stand for named variables. The error is out of memory.
pub fn numbers(
    alloc: Global,
    comparison: &Comparison,
    equals: &[usize],
    sides: &[Dtv],
) -> Result<Vec<usize>, Memory>
    requires each { length equals.now ≡ length comparison.now.named }
    requires named { (x : Variable) → Contains sides.now x → Contains comparison.now.named x }
    ensures { IfOk result (λ numbers. AreNumbered comparison.now.named equals.now sides.now numbers.items) }
{
    let mut numbers = Vec::with_capacity(alloc, sides.len())?;
    for side in sides {
        numbers.push(known(comparison, equals, side))?;
    }
    Ok(numbers)
}

// The number that stands for a named variable.
fn known(comparison: &Comparison, equals: &[usize], x: &Dtv) -> usize
    requires each { length equals.now ≡ length comparison.now.named }
    requires named { Contains comparison.now.named x.now }
    ensures { HasNumber comparison.now.named equals.now x.now result }
{
    match number(comparison, equals, x) {
        Some(number) => number,
        None => unreachable!(),
    }
}
