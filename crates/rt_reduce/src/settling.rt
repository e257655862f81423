// Whether something is left for another round.
ghost use Rattle.std.specs.Prelude.{◌≡◌, ◌↔◌, ℕ, IfOk, IsTrue, MatchBool, OnOk};
ghost use Rattle.std.specs.BTreeSet.{contains};
ghost use Rattle.std.specs.Ordering.{nat_cmp};
ghost use Rattle.rt_lines.specs.declared.variable.Base.TheVariants.{Exist as Existential};
ghost use Rattle.rt_polar.specs.Tidied.{tidied};
ghost use Rattle.rt_reduce.specs.Inside.Settling.{AreUsed, HasMissing, HaveMissing, IsMissing, IsSimplified, IsUnused, IsUsedBy};
ghost use Rattle.rt_reduction.specs.Rounds.{IsUnfinished};
ghost use Rattle.rt_refine.specs.Groups.{AreNoted};
ghost use Rattle.rt_twins.specs.Inside.Leading.{AreOfLines};

use crate::copying::copies;
use rt_base::{Memory, Sequence};
use rt_lines::{Base, Line};
use rt_simplify::simplify;
use std::alloc::Global;
use std::collections::BTreeSet;

// Numbers of existentials.
type Existentials = BTreeSet<u32>;

/// Whether no existential of the tidied lines has a candidate, none is a twin, and each has a use. The error is out of
/// memory.
pub fn is_settled(alloc: Global, lines: &[Line]) -> Result<bool, Memory>
    requires { tidied lines.now ≡ lines.now }
    ensures { IfOk result (λ yes. MatchBool yes (IsSimplified lines.now × AreUsed lines.now) (IsUnfinished lines.now)) }
{
    let used = are_used(alloc, lines)?;
    if !used {
        return Ok(false);
    }
    let simple = is_simplified(alloc, lines)?;
    Ok(simple)
}

// Whether no existential of the tidied lines has a candidate, and none is a twin: whether simplifying leaves them as they are.
fn is_simplified(alloc: Global, lines: &[Line]) -> Result<bool, Memory>
    requires { tidied lines.now ≡ lines.now }
    ensures { IfOk result (λ yes. MatchBool yes (IsSimplified lines.now) (IsUnfinished lines.now)) }
{
    let start = copies(alloc, lines)?;
    let left = simplify(alloc, Sequence::from_vec(start))?;
    Ok(left.items() == lines)
}

// Whether each existential that the lines name has a use.
fn are_used(alloc: Global, lines: &[Line]) -> Result<bool, Memory>
    ensures { IfOk result (λ yes. MatchBool yes (AreUsed lines.now) ((n : ℕ) × IsUnused lines.now n)) }
{
    let used = used_existentials(alloc, lines)?;
    Ok(!have_missing(&used, lines))
}

// Whether the lines name an existential that is not among these.
fn have_missing(found: &Existentials, lines: &[Line]) -> bool
    ensures { MatchBool result (HaveMissing (contains nat_cmp found.now) lines.now)
        (HaveMissing (contains nat_cmp found.now) lines.now → ⊥) }
{
    for line in lines {
        if has_missing(found, line) {
            return true;
        }
    }
    false
}

// Whether the line names an existential that is not among these.
fn has_missing(found: &Existentials, line: &Line) -> bool
    ensures { IsTrue result ↔ HasMissing (contains nat_cmp found.now) line.now }
{
    match line {
        Line::Var(x) | Line::Low(_, x) | Line::Up(x, _) => is_missing(found, x.base),
        Line::Same(x, y) | Line::Sub(x, y) => {
            is_missing(found, x.base) || is_missing(found, y.base)
        }
    }
}

// Whether the base is an existential, and not among these.
fn is_missing(found: &Existentials, base: Base) -> bool
    ensures { IsTrue result ↔ IsMissing (contains nat_cmp found.now) base }
{
    match base {
        Base::Exist(n) => !found.contains(&n),
        Base::Proc(_) | Base::Global(_) | Base::Outer(_) => false,
    }
}

// The existentials that have a use.
fn used_existentials(alloc: Global, lines: &[Line]) -> Result<Existentials, Memory>
    ensures { IfOk result (λ found. AreOfLines IsUsedBy lines.now (contains nat_cmp found)) }
{
    let mut found = BTreeSet::new(alloc);
    for line in lines {
        note_uses(&mut found, line)?;
    }
    Ok(found)
}

// Adds the existentials of which the line has a use.
fn note_uses(found: &mut Existentials, line: &Line) -> Result<(), Memory>
    ensures { OnOk result (AreNoted (λ n. IsUsedBy n line.now) (contains nat_cmp found.old) (contains nat_cmp found.new)) }
{
    match line {
        Line::Var(_) | Line::Same(_, _) => Ok(()),
        Line::Sub(x, y) => {
            note_base(found, x.base)?;
            note_base(found, y.base)
        }
        Line::Low(_, x) | Line::Up(x, _) => note_base(found, x.base),
    }
}

// Adds the base, where it is an existential.
fn note_base(found: &mut Existentials, base: Base) -> Result<(), Memory>
    ensures { OnOk result (AreNoted (λ n. base ≡ Existential n) (contains nat_cmp found.old) (contains nat_cmp found.new)) }
{
    if let Base::Exist(n) = base {
        found.insert(n)?;
    }
    Ok(())
}
