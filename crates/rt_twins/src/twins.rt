// The coarsest twinning, and the lines that it leaves.
ghost use Rattle.std.specs.Prelude.{◌≡◌, ◌≢◌, ◌↔◌, ℕ, IfOk, IsTrue, MatchBool};
ghost use Rattle.std.specs.BTreeMap.{get};
ghost use Rattle.std.specs.Ordering.{nat_cmp};
ghost use Rattle.rt_refine.specs.Groups.{class_of};
ghost use Rattle.rt_refine.specs.Refinements.{refined};
ghost use Rattle.rt_twins.specs.Twinnings.{IsCoarsestTwinning};

use crate::coarsest::classes_from;
use crate::leading::{leading, leading_classes};
use rt_base::Memory;
use rt_lines::{Line, Lines, Variance};
use rt_refine::{Classes, move_lines};
use std::alloc::Global;

/// The least member of the class of each existential that the lines name, in the coarsest twinning of the sign: at `Co` the
/// existentials of a class are defined alike, at `Contra` they are consumed alike. The error is out of memory.
pub fn classes(alloc: Global, lines: &[Line], sign: Variance) -> Result<Classes, Memory>
    ensures { IfOk result (λ classes. IsCoarsestTwinning sign lines.now (class_of (get nat_cmp classes))) }
{
    let out = leading(alloc, lines, sign)?;
    let first = leading_classes(alloc, lines, sign, &out)?;
    classes_from(alloc, lines, sign, &first)
}

// Whether the two lists are the same.
fn are_same(left: &[Line], right: &[Line]) -> bool
    ensures { IsTrue result ↔ (left.now ≡ right.now) }
{
    left == right
}

/// The lines with the least existential of each class in the place of the others, by the coarsest twinning of the sign, and
/// whether these are other lines. The error is out of memory.
pub fn twin(alloc: Global, lines: &[Line], sign: Variance) -> Result<(Lines, bool), Memory>
    ensures twinned { IfOk result
        (λ r. (class : ℕ → ℕ) × IsCoarsestTwinning sign lines.now class × (r.0 ≡ refined class lines.now)) }
    ensures changed { IfOk result (λ r. MatchBool r.1 (r.0 ≢ lines.now) (r.0 ≡ lines.now)) }
{
    let classes = classes(alloc, lines, sign)?;
    let after = move_lines(alloc, &classes, lines)?;
    let same = are_same(after.items(), lines);
    Ok((after, !same))
}
