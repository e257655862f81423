// The existentials that lines name.
ghost use Rattle.std.specs.Prelude.{◌≡◌, ℕ, IfOk, OnOk};
ghost use Rattle.std.specs.BTreeSet.{contains};
ghost use Rattle.std.specs.Ordering.{nat_cmp};
ghost use Rattle.rt_lines.specs.declared.variable.Base.TheVariants.{Exist as Existential};
ghost use Rattle.rt_polar.specs.Index.{Names};
ghost use Rattle.rt_refine.specs.Groups.{AreListed, AreNamed, AreNoted};

use rt_base::Memory;
use rt_lines::{Base, Line};
use std::alloc::Global;
use std::collections::BTreeSet;

// Adds the base, if it is an existential.
fn note_base(found: &mut BTreeSet<u32>, base: Base) -> Result<(), Memory>
    ensures { OnOk result (AreNoted (λ n. base ≡ Existential n) (contains nat_cmp found.old) (contains nat_cmp found.new)) }
{
    if let Base::Exist(n) = base {
        found.insert(n)?;
    }
    Ok(())
}

// Adds the existentials that the line names.
fn note_line(found: &mut BTreeSet<u32>, line: &Line) -> Result<(), Memory>
    ensures { OnOk result (AreNoted (λ n. Names n line.now) (contains nat_cmp found.old) (contains nat_cmp found.new)) }
{
    match line {
        Line::Var(x) | Line::Low(_, x) | Line::Up(x, _) => note_base(found, x.base),
        Line::Same(x, y) | Line::Sub(x, y) => {
            note_base(found, x.base)?;
            note_base(found, y.base)
        }
    }
}

/// The existentials that the lines name. The error is out of memory.
pub fn existentials(alloc: Global, lines: &[Line]) -> Result<BTreeSet<u32>, Memory>
    ensures { IfOk result (λ found. AreNamed lines.now (contains nat_cmp found)) }
{
    let mut found = BTreeSet::new(alloc);
    for line in lines {
        note_line(&mut found, line)?;
    }
    Ok(found)
}

// The existentials of a set, in order.
fn listed(alloc: Global, set: &BTreeSet<u32>) -> Result<Vec<u32>, Memory>
    ensures { IfOk result (λ list. list.items ≡ set.now.keys) }
{
    set.iter().copied().collect(alloc)
}

/// The existentials that the lines name, in order. The error is out of memory.
pub fn named(alloc: Global, lines: &[Line]) -> Result<Vec<u32>, Memory>
    ensures { IfOk result (λ named. AreListed lines.now named.items) }
{
    let found = existentials(alloc, lines)?;
    let named = listed(alloc, &found)?;
    Ok(named)
}
