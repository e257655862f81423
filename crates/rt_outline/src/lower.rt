// Inner arcs.
ghost use Rattle.std.specs.Prelude.{◌≡◌, ◌<◌, Contains, IsTrue, IfOk, MatchOption, Some, length, slice_get};
ghost use Rattle.rt_lines.specs.declared.variable.Dtv.{Dtv as Variable};
ghost use Rattle.rt_lines.specs.declared.line.Line.TheVariants.{Sub};
ghost use Rattle.rt_lines.specs.Orders.{Below};
ghost use Rattle.rt_rules.specs.Rules.{Derivable};
ghost use Rattle.rt_named.specs.Naming.{named};
ghost use Rattle.rt_outline.specs.Enclosing.{AreThere};
ghost use Rattle.rt_outline.specs.Equal.{AreInnerEquals};
ghost use Rattle.rt_outline.specs.Frames.{variable_at};
ghost use Rattle.rt_outline.specs.Lines.{HasBelow};

use crate::classes::classes;
use crate::closing::close;
use crate::entering::{enter_lines, enter_pointers, numbers};
use crate::frame::Frame;
use crate::grouping::Classes;
use crate::spreading::may_lead;
use rt_base::Memory;
use rt_lines::{Dtv, Line};
use rt_named::Named;
use std::alloc::Global;
use std::marker::Model;

/// Arcs between the variables that lines name, of which each is derivable. The variables are numbered.
#[derive(Drop)]
pub struct Lower {
    lines: Vec<Line>,
    named: Named,
    frame: Frame,
    stands: Vec<bool>,
}

impl Model for Lower {
    ghost use Rattle.rt_outline.specs.Lines.{Lined};
    ghost use Rattle.std.specs.Prelude.{◌≡◌, length};
    ghost use Rattle.rt_outline.specs.Enclosing.{IsInner};
    ghost use Rattle.rt_outline.specs.Frames.{IsFrame};

    ghost Value = { Lined };

    ghost view = { λ t. record { lines = t.lines.items; named = t.named } };

    ghost invariant = { λ t. IsInner t.lines.items t.named t.frame.arcs.items t.stands.items ×
        IsFrame t.frame.origins.items t.frame.steps t.frame.arcs.items t.frame.back.items ×
        (length t.frame.origins.items ≡ length t.named) };
}

impl Lower {
    /// The arcs of the lines, closed under what is pushed from ways of them. The error is out of memory.
    pub fn of(alloc: Global, lines: &[Line], extra: &[Dtv]) -> Result<Lower, Memory>
        requires { AreThere lines.now extra.now }
        ensures { IfOk result (λ lower. lower ≡ record { lines = lines.now; named = named lines.now extra.now }) }
    {
        let named = Named::of(alloc, lines, extra)?;
        let mut frame = Frame::of(alloc, &named)?;
        let stands = vec![in alloc; true; lines.len()]?;
        enter_lines(&named, lines, &mut frame)?;
        enter_pointers(&mut frame)?;
        close(alloc, &mut frame, &stands)?;
        let lines = copied(alloc, lines)?;
        Ok(Lower {
            lines,
            named,
            frame,
            stands,
        })
    }

    /// The number of a variable, or `None` where it isn't named.
    pub fn number(&self, x: &Dtv) -> Option<u32>
        ensures { MatchOption result (Contains self.now.named x.now → ⊥) (λ i. slice_get self.now.named i ≡ Some x.now) }
    {
        self.named.index(x)
    }

    /// Whether arcs lead from the variable of a number to that of another one. The error is out of memory.
    pub fn leads_number(&self, alloc: Global, from: u32, to: u32) -> Result<bool, Memory>
        requires from { from < length self.now.named }
        requires to { to < length self.now.named }
        ensures { IfOk result (λ yes. IsTrue yes → (order : Below) →
            Derivable order self.now.lines (Sub (variable_at self.now.named from) (variable_at self.now.named to))) }
    {
        let yes = may_lead(alloc, &self.frame.arcs, &self.stands, &[from], &[to])?;
        Ok(yes)
    }

    /// Whether arcs lead from one of the variables to one of the others. All are named. The error is out of memory.
    pub fn leads(&self, alloc: Global, from: &[Dtv], to: &[Dtv]) -> Result<bool, Memory>
        requires from { (x : Variable) → Contains from.now x → Contains self.now.named x }
        requires to { (x : Variable) → Contains to.now x → Contains self.now.named x }
        ensures { IfOk result (λ yes. IsTrue yes → (order : Below) → HasBelow order self.now.lines from.now to.now) }
    {
        let sources = numbers(alloc, &self.named, from)?;
        let targets = numbers(alloc, &self.named, to)?;
        let yes = may_lead(alloc, &self.frame.arcs, &self.stands, &sources, &targets)?;
        Ok(yes)
    }

    /// Classes of the variables; those of one class lie below each other. The error is out of memory.
    pub fn equals(&self, alloc: Global) -> Result<Classes, Memory>
        ensures { IfOk result (λ classes. AreInnerEquals self.now.lines self.now.named classes.numbers.items) }
    {
        let classes = classes(alloc, &self.frame.arcs, &self.stands)?;
        Ok(classes)
    }
}

// The lines, once more.
pub(crate) fn copied(alloc: Global, lines: &[Line]) -> Result<Vec<Line>, Memory>
    ensures { IfOk result (λ copied. copied.items ≡ lines.now) }
{
    let mut copied = Vec::new(alloc);
    for line in lines {
        copied.push(line.copy()?)?;
    }
    Ok(copied)
}
