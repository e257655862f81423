//! The shape of lines written anew: of the lines that are left, the `<=` lines and bounds, and the shape over the bases that
//! these need, each class of variables of one shape by the first of them (PLDI 2016, section 5). Variables are in the
//! order of their keys.
#![tactic(auto)]

ghost use Rattle.std.specs.Prelude.{IfOk};
ghost use Rattle.rt_lines.specs.Orders.{Below};
ghost use Rattle.rt_reduction.specs.Emits.{AreOfScheme, IsEmitted};
ghost use Rattle.rt_emit.specs.Inside.Writing.{IsFlowAndShape};

mod bases;
mod chains;
mod flow;
mod key;
mod letters;
mod queue;
mod writing;

pub use key::key_of;
use rt_base::{Memory, Sequence};
use rt_lines::{Line, Lines};
use std::alloc::Global;

// The `<=` lines and bounds, and the lines of the shape.
fn all_lines(alloc: Global, lines: &[Line]) -> Result<Vec<Line>, Memory>
    requires scheme { AreOfScheme lines.now }
    ensures { IfOk result (λ all. IsFlowAndShape lines.now all.items) }
{
    let flow = flow::flow_lines(alloc, lines)?;
    let mut shape = writing::shape_lines(alloc, lines, flow.items())?;
    let mut all = flow.into_vec();
    all.append(&mut shape)?;
    Ok(all)
}

/// The `<=` lines and bounds, and the shape written anew over the bases that are kept, but for what no chain of these joins
/// to a procedure or a global. Kept are existentials that have a use, globals and procedures. Each class of variables of
/// one shape has its first variable over kept bases as its word: existentials come before globals, these before arguments
/// and results of procedures, and fewer letters before more. Each side is an argument or a result of a procedure, a global,
/// an existential, or taken from one.
///
/// Time is near linear in the letters of the lines and of the answer, but for sorting, and memory is linear in them. The
/// error is out of memory.
pub fn emit_shape(alloc: Global, lines: &[Line]) -> Result<Lines, Memory>
    requires scheme { AreOfScheme lines.now }
    ensures { IfOk result (λ out. (order : Below) → IsEmitted order lines.now out) }
{
    let all = all_lines(alloc, lines)?;
    let joined = chains::joined(alloc, &all)?;
    Ok(Sequence::from_vec(joined))
}
