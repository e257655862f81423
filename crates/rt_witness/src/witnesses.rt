// Lines by what they name.
ghost use Rattle.std.specs.Prelude.{◌≡◌, List, true, false, length, IfOk};
ghost use Rattle.rt_lines.specs.declared.line.Line.{Line as Given};
ghost use Rattle.rt_lines.specs.declared.line.Line.TheVariants.{Var as Exists};
ghost use Rattle.rt_lines.specs.Orders.{Below};
ghost use Rattle.rt_rules.specs.Rules.{Derivable};
ghost use Rattle.rt_shape.specs.Shapes.{IsNamed, IsShapeOf};
ghost use Rattle.rt_witness.specs.Witnesses.{AreNaming, AreNoted, IsLeft, IsWitnesses};

use crate::naming::naming;
use crate::noting::noted;
use crate::rows::have_standing;
use rt_base::{Memory, Sequence};
use rt_lines::{Dtv, Line};
use rt_named::Named;
use rt_shape::Shape;
use std::alloc::Global;

/// Lines by what they name: by the nodes of it in their shape, and by the variables themselves.
#[derive(Drop)]
pub struct Witnesses {
    shape: Shape,
    noted: Vec<Sequence<usize>>,
    named: Named,
    naming: Vec<Sequence<usize>>,
}

// The shape of the lines, and for each of its nodes the numbers of the lines that name a variable of that node.
fn by_shape(alloc: Global, lines: &[Line]) -> Result<(Shape, Vec<Sequence<usize>>), Memory>
    ensures { IfOk result (λ made. IsShapeOf lines.now made.0 × AreNoted made.0 lines.now (length lines.now) made.1.items) }
{
    let shape = rt_shape::of(alloc, lines)?;
    let noted = noted(alloc, &shape, lines)?;
    Ok((shape, noted))
}

// The variables that the lines name, and for each the numbers of the lines with a side that begins with it.
fn by_variable(alloc: Global, lines: &[Line]) -> Result<(Named, Vec<Sequence<usize>>), Memory>
    ensures { IfOk result (λ made. AreNaming made.0 lines.now made.1.items) }
{
    let named = Named::of(alloc, lines, &[])?;
    let naming = naming(alloc, &named, lines)?;
    Ok((named, naming))
}

impl Witnesses {
    /// Of the lines, in memory and time linear in their letters, but for what their shape takes. The error is out of memory.
    pub fn of(alloc: Global, lines: &[Line]) -> Result<Witnesses, Memory>
        ensures { IfOk result (IsWitnesses lines.now) }
    {
        let (shape, noted) = by_shape(alloc, lines)?;
        let (named, naming) = by_variable(alloc, lines)?;
        Ok(Witnesses {
            shape,
            noted,
            named,
            naming,
        })
    }

    /// Whether one of the lines that stand, those whose flags are set, has a side that begins with the variable. If lines go
    /// from the last to the first, and each time it is asked of a side of the line that goes, then all answers together take
    /// time linear in the letters of the lines: only where no earlier line has such a side are others looked at.
    pub fn is_named(&self, stands: &[bool], x: &Dtv) -> bool
        ensures { result ≡ true → (lines left : List Given) →
            IsWitnesses lines self.now → IsLeft lines stands.now left → IsNamed left x.now }
    {
        let Some(number) = self.named.index(x) else {
            return false;
        };
        let Some(row) = self.naming.get(number as usize) else {
            return false;
        };
        have_standing(row.items(), stands)
    }

    /// Whether some of the lines that stand, those whose flags are set, may derive that the variable is there: whether one of
    /// these names a variable of one shape with it. It takes the time of [`Witnesses::is_named`].
    pub fn may_be_there(&self, stands: &[bool], x: &Dtv) -> bool
        ensures { result ≡ false → (order : Below) (lines left : List Given) → IsWitnesses lines self.now →
            IsLeft lines stands.now left → Derivable order left (Exists x.now) → ⊥ }
    {
        let Some(node) = self.shape.node(x) else {
            return true;
        };
        let Some(row) = self.noted.get(node as usize) else {
            return true;
        };
        have_standing(row.items(), stands)
    }
}
