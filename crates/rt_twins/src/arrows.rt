// Uses that have no letter, as arrows from what they stand beside.
ghost use Rattle.std.specs.Prelude.{◌≡◌, ℕ, true, IfOk, MatchOption, OnOk};
ghost use Rattle.std.specs.BTreeSet.{contains};
ghost use Rattle.std.specs.Ordering.{nat_cmp};
ghost use Rattle.rt_lines.specs.declared.variable.Base.{Base as TheBase};
ghost use Rattle.rt_lines.specs.declared.variable.Base.TheVariants.{Exist as Existential};
ghost use Rattle.rt_polar.specs.Index.{has};
ghost use Rattle.rt_rules.specs.Put.{exist};
ghost use Rattle.rt_refine.specs.Groups.{AreNoted};
ghost use Rattle.rt_twins.specs.Inside.Leading.{is_in, AreArrows, AreOfLines, IsBare, IsBareBut};

use rt_base::Memory;
use rt_lines::{Base, Dtv, Line, Variance};
use std::alloc::Global;
use std::collections::BTreeSet;

/// Existentials, each with one that has a use without a letter beside a variable of it.
pub type Arrows = BTreeSet<(u32, u32)>;

// The existential that the variable is.
fn bare(x: &Dtv) -> Option<u32>
    ensures { MatchOption result ((n : ℕ) → x.now ≡ exist n → ⊥) (λ n. x.now ≡ exist n) }
{
    let Base::Exist(n) = x.base else {
        return None;
    };
    if x.word.items().is_empty() {
        Some(n)
    } else {
        None
    }
}

// The existential that the one variable is, and the base of the other.
fn bare_beside(own: &Dtv, other: &Dtv) -> Option<(u32, Base)>
    ensures { MatchOption result ((n : ℕ) → own.now ≡ exist n → ⊥) (λ r. (own.now ≡ exist r.0) × (other.now.base ≡ r.1)) }
{
    match bare(own) {
        Some(existential) => Some((existential, other.base)),
        None => None,
    }
}

// The existential of which the line is a use of the sign without a letter, and the base that stands beside it.
fn bare_use(line: &Line, sign: Variance) -> Option<(u32, Base)>
    ensures { MatchOption result ((n : ℕ) (b : TheBase) → IsBare sign n b line.now → ⊥) (λ r. IsBare sign r.0 r.1 line.now) }
{
    let Line::Sub(x, y) = line else {
        return None;
    };
    match sign {
        Variance::Co => bare_beside(y, x),
        Variance::Contra => bare_beside(x, y),
    }
}

// Whether the base is an existential of the set.
fn is_in(known: &BTreeSet<u32>, base: Base) -> bool
    ensures { result ≡ is_in (contains nat_cmp known.now) base }
{
    match base {
        Base::Exist(n) => known.contains(&n),
        Base::Proc(_) | Base::Global(_) | Base::Outer(_) => false,
    }
}

// Adds the existential of which the line is such a use, if what stands beside it is none of the set.
fn note_other(
    found: &mut BTreeSet<u32>,
    known: &BTreeSet<u32>,
    line: &Line,
    sign: Variance,
) -> Result<(), Memory>
    ensures { OnOk result (AreNoted (λ n. IsBareBut sign (contains nat_cmp known.now) n line.now) (contains nat_cmp found.old)
        (contains nat_cmp found.new)) }
{
    if let Some((existential, base)) = bare_use(line, sign) {
        if !is_in(known, base) {
            found.insert(existential)?;
        }
    }
    Ok(())
}

/// The existentials that have a use of the sign without a letter, beside a base that is no existential of the set. The error
/// is out of memory.
pub fn beside_others(
    alloc: Global,
    lines: &[Line],
    sign: Variance,
    known: &BTreeSet<u32>,
) -> Result<BTreeSet<u32>, Memory>
    ensures { IfOk result (λ found. AreOfLines (IsBareBut sign (contains nat_cmp known.now)) lines.now (contains nat_cmp found)) }
{
    let mut found = BTreeSet::new(alloc);
    for line in lines {
        note_other(&mut found, known, line, sign)?;
    }
    Ok(found)
}

// Adds the arrow that the line is, if it is such a use beside a variable of an existential.
fn note_arrow(arrows: &mut Arrows, line: &Line, sign: Variance) -> Result<(), Memory>
    ensures { OnOk result ((m : ℕ) → AreNoted (λ n. IsBare sign n (Existential m) line.now) (has arrows.old m) (has arrows.new m)) }
{
    if let Some((existential, base)) = bare_use(line, sign) {
        if let Base::Exist(n) = base {
            arrows.insert((n, existential))?;
        }
    }
    Ok(())
}

/// The arrows of the lines' uses of the sign. The error is out of memory.
pub fn arrows(alloc: Global, lines: &[Line], sign: Variance) -> Result<Arrows, Memory>
    ensures { IfOk result (λ found. AreArrows sign lines.now (has found)) }
{
    let mut found = BTreeSet::new(alloc);
    for line in lines {
        note_arrow(&mut found, line, sign)?;
    }
    Ok(found)
}

/// The least existential to which there is an arrow from this one. It takes no memory.
pub fn first_arrow(arrows: &Arrows, existential: u32) -> Option<u32>
    ensures { MatchOption result ((n : ℕ) → has arrows.now existential n ≡ true → ⊥)
        (λ n. has arrows.now existential n ≡ true) }
{
    let Some(least) = arrows.range((existential, 0)..).next() else {
        return None;
    };
    let (from, to) = *least;
    if from == existential { Some(to) } else { None }
}
