// The coarsest twins.
ghost use Rattle.std.specs.Prelude.{◌≡◌, ◌||◌, List, IfOk};
ghost use Rattle.rt_lines.specs.declared.label.Variance.{Variance as TheVariance};
ghost use Rattle.rt_lines.specs.declared.line.Line.{Line as TheLine};
ghost use Rattle.std.specs.BTreeMap.{get};
ghost use Rattle.std.specs.Ordering.{nat_cmp};
ghost use Rattle.rt_refine.specs.Groups.{AreListed, class_of};
ghost use Rattle.rt_twins.specs.declared.parts.Part.TheVariants.{Left as LeftUses, Right as RightUses};
ghost use Rattle.rt_twins.specs.Inside.Parts.{part_of};
ghost use Rattle.rt_twins.specs.Inside.Splits.{AreClasses, AreExactClasses, IsSplitTwice};
ghost use Rattle.rt_twins.specs.Twinnings.{IsCoarsestTwinning};

use crate::parts::{Part, part_of};
use rt_base::Memory;
use rt_lines::{Line, Variance};
use rt_refine::{Classes, Side, named, split};
use std::alloc::Global;
use std::collections::BTreeMap;

// The classes split by what stands beside their members and is used so itself.
fn exact_classes(
    alloc: Global,
    lines: &[Line],
    sign: Variance,
    classes: &Classes,
) -> Result<Classes, Memory>
    requires { AreClasses sign lines.now (class_of (get nat_cmp classes.now)) }
    ensures { IfOk result (λ exact. AreExactClasses sign lines.now (class_of (get nat_cmp exact))) }
{
    let both = part_of(alloc, lines, sign, Part::Both)?;
    let named = named(alloc, both.items())?;
    let none = BTreeMap::new(alloc);
    let (lefts, _) = split(alloc, both.items(), &named, &none, classes, Side::Left)?;
    let (rights, _) = split(alloc, both.items(), &named, &none, &lefts, Side::Right)?;
    Ok(rights)
}

// Whether one of the two is true.
fn either(left: bool, right: bool) -> bool
    ensures { result ≡ (left || right) }
{
    left || right
}

// The classes split by what else stands beside their members, on the left side and on the right one, and whether that gives
// other classes. The existentials that the lines of each side name are given.
fn split_twice(
    alloc: Global,
    lefts: &[Line],
    left_names: &[u32],
    rights: &[Line],
    right_names: &[u32],
    classes: &Classes,
) -> Result<(Classes, bool), Memory>
    requires left_names { AreListed lefts.now left_names.now }
    requires right_names { AreListed rights.now right_names.now }
    ensures { IfOk result (λ r. (sign : TheVariance) (lines : List TheLine) → lefts.now ≡ part_of sign LeftUses lines →
        rights.now ≡ part_of sign RightUses lines → AreExactClasses sign lines (class_of (get nat_cmp classes.now)) →
        IsSplitTwice sign lines (class_of (get nat_cmp classes.now)) (class_of (get nat_cmp r.0)) r.1) }
{
    let (left_parts, left) = split(alloc, lefts, left_names, classes, classes, Side::Left)?;
    let (parts, right) = split(
        alloc,
        rights,
        right_names,
        &left_parts,
        &left_parts,
        Side::Right,
    )?;
    Ok((parts, either(left, right)))
}

/// The least member of the class of each existential that the lines name, in the coarsest twinning of the sign, which is
/// finer than the given classes. The error is out of memory.
pub fn classes_from(
    alloc: Global,
    lines: &[Line],
    sign: Variance,
    first: &Classes,
) -> Result<Classes, Memory>
    requires { AreClasses sign lines.now (class_of (get nat_cmp first.now)) }
    ensures { IfOk result (λ classes. IsCoarsestTwinning sign lines.now (class_of (get nat_cmp classes))) }
{
    let lefts = part_of(alloc, lines, sign, Part::Left)?;
    let rights = part_of(alloc, lines, sign, Part::Right)?;
    let left_names = named(alloc, lefts.items())?;
    let right_names = named(alloc, rights.items())?;
    let mut now = exact_classes(alloc, lines, sign, first)?;
    let mut changed = true;
    while changed {
        let (parts, more) = split_twice(
            alloc,
            lefts.items(),
            &left_names,
            rights.items(),
            &right_names,
            &now,
        )?;
        now = parts;
        changed = more;
    }
    Ok(now)
}
