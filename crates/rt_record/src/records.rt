// Which existentials do more than hold fields.
ghost use Rattle.std.specs.Prelude.{◌↔◌, not, IfOk, IsTrue, OnOk};
ghost use Rattle.std.specs.BTreeSet.{contains};
ghost use Rattle.std.specs.Ordering.{nat_cmp};
ghost use Rattle.rt_record.specs.Records.{IsHeld, IsHolding};
ghost use Rattle.rt_record.specs.Slots.{AreRecords, IsHeldWord, LeavesOut};

use rt_base::Memory;
use rt_lines::{Base, Dtv, Label, Line, Variance, Word, variance_of};
use std::alloc::Global;
use std::collections::BTreeSet;

// Numbers of existentials.
pub(crate) type Existentials = BTreeSet<u32>;

// The existentials that do more than hold fields.
pub(crate) fn spoiled(alloc: Global, lines: &[Line]) -> Result<Existentials, Memory>
    ensures { IfOk result (λ found. AreRecords lines.now (λ n. not (contains nat_cmp found n))) }
{
    let mut found = BTreeSet::new(alloc);
    for line in lines {
        spoil(line, &mut found)?;
    }
    Ok(found)
}

// Adds the existentials that do more in the line than hold fields.
fn spoil(line: &Line, found: &mut Existentials) -> Result<(), Memory>
    ensures { OnOk result (LeavesOut (λ n. IsHolding n line.now) (contains nat_cmp found.old) (contains nat_cmp found.new)) }
{
    match line {
        Line::Var(_) | Line::Same(_, _) => Ok(()),
        Line::Sub(x, y) => {
            spoil_side(x, Variance::Co, found)?;
            spoil_side(y, Variance::Contra, found)?;
            Ok(())
        }
        Line::Low(_, x) => spoil_side(x, Variance::Contra, found),
        Line::Up(x, _) => spoil_side(x, Variance::Co, found),
    }
}

// Adds the existential of the variable, if that isn't a part of the sign.
fn spoil_side(x: &Dtv, sign: Variance, found: &mut Existentials) -> Result<(), Memory>
    ensures { OnOk result (LeavesOut (λ n. IsHeld n sign x.now) (contains nat_cmp found.old) (contains nat_cmp found.new)) }
{
    let Base::Exist(n) = x.base else {
        return Ok(());
    };
    if !is_held(&x.word, sign) {
        found.insert(n)?;
    }
    Ok(())
}

// Whether the word begins with an access and a field, and has the sign.
fn is_held(word: &Word, sign: Variance) -> bool
    ensures { IsTrue result ↔ IsHeldWord sign word.now }
{
    match word.items() {
        [Label::Load | Label::Store, Label::Field(_, _), ..] => variance_of(word) == sign,
        _ => false,
    }
}
