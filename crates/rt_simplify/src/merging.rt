// Twins that become one.
ghost use Rattle.std.specs.Prelude.{IfOk, MatchOption};
ghost use Rattle.rt_lines.specs.declared.label.Variance.TheVariants.{Co as Defining, Contra as Consuming};
ghost use Rattle.rt_reduction.specs.Simplifies.{HasNoTwins, IsTurnOf};
ghost use Rattle.rt_simplify.specs.Inside.Twins.{BecomeOne};

use rt_base::Memory;
use rt_lines::{Line, Lines, Variance};
use rt_twins::twin;
use std::alloc::Global;

// The lines in which each class of the coarsest twinning of the sign, whose turn it is, became one, if there are any twins.
fn merge_of(alloc: Global, lines: &[Line], sign: Variance) -> Result<Option<Lines>, Memory>
    requires { IsTurnOf sign lines.now }
    ensures { IfOk result (λ merged. MatchOption merged (HasNoTwins sign lines.now) (BecomeOne lines.now)) }
{
    let (merged, differs) = twin(alloc, lines, sign)?;
    if !differs {
        return Ok(None);
    }
    Ok(Some(merged))
}

/// The lines in which all twins that are defined alike became one with the least of them, or all those that are consumed
/// alike where there are none of the former; `None` where there are neither. The error is out of memory.
pub fn merge_twins(alloc: Global, lines: &[Line]) -> Result<Option<Lines>, Memory>
    ensures { IfOk result (λ merged. MatchOption merged (HasNoTwins Defining lines.now × HasNoTwins Consuming lines.now)
        (BecomeOne lines.now)) }
{
    if let Some(merged) = merge_of(alloc, lines, Variance::Co)? {
        return Ok(Some(merged));
    }
    merge_of(alloc, lines, Variance::Contra)
}
