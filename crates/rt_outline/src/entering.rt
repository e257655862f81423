// The first arcs: those of lines, and from the store to the load of each node that has both.
ghost use Rattle.std.specs.Prelude.{◌≡◌, ◌+◌, ℕ, ◌<◌, ◌≤◌, Contains, IfOk, OnOk, length};
ghost use Rattle.rt_lines.specs.declared.line.Line.{Line as Given};
ghost use Rattle.rt_lines.specs.declared.variable.Dtv.{Dtv as Variable};
ghost use Rattle.rt_rules.specs.Rules.{HasSide};
ghost use Rattle.rt_outline.specs.Frames.{AreKept, AreMore, ArePushedKept, HavePointers, HavePointersAt, IsFrame, IsPointerPair};
ghost use Rattle.rt_outline.specs.Lines.{AreLineArcs, AreNumbers};

use crate::arc::Arc;
use crate::frame::Frame;
use rt_base::Memory;
use rt_lines::{Dtv, Label, Line};
use rt_named::Named;
use std::alloc::Global;

// Adds the arcs of lines.
pub(crate) fn enter_lines(named: &Named, lines: &[Line], frame: &mut Frame) -> Result<(), Memory>
    requires sides { (l : Given) (x : Variable) → Contains lines.now l → HasSide l x → Contains named.now x }
    requires frame { IsFrame frame.old.origins.items frame.old.steps frame.old.arcs.items frame.old.back.items }
    requires nodes { length named.now ≤ length frame.old.origins.items }
    requires none { AreLineArcs lines.now 0 named.now frame.old.arcs.items }
    ensures frame { OnOk result (IsFrame frame.new.origins.items frame.new.steps frame.new.arcs.items frame.new.back.items) }
    ensures origins { OnOk result (frame.new.origins.items ≡ frame.old.origins.items) }
    ensures arcs { OnOk result (AreLineArcs lines.now (length lines.now) named.now frame.new.arcs.items) }
    ensures kept { OnOk result (AreKept frame.old.arcs.items frame.new.arcs.items) }
    ensures pushed { OnOk result (ArePushedKept frame.old.arcs.items frame.new.arcs.items) }
{
    for i in 0..lines.len() {
        enter_line(named, lines, frame, i)?;
    }
    Ok(())
}

// Adds the arc of a line.
fn enter_line(named: &Named, lines: &[Line], frame: &mut Frame, i: usize) -> Result<(), Memory>
    requires sides { (l : Given) (x : Variable) → Contains lines.now l → HasSide l x → Contains named.now x }
    requires index { i < length lines.now }
    requires frame { IsFrame frame.old.origins.items frame.old.steps frame.old.arcs.items frame.old.back.items }
    requires nodes { length named.now ≤ length frame.old.origins.items }
    requires arcs { AreLineArcs lines.now i named.now frame.old.arcs.items }
    ensures frame { OnOk result (IsFrame frame.new.origins.items frame.new.steps frame.new.arcs.items frame.new.back.items) }
    ensures origins { OnOk result (frame.new.origins.items ≡ frame.old.origins.items) }
    ensures arcs { OnOk result (AreLineArcs lines.now (i + 1) named.now frame.new.arcs.items) }
    ensures kept { OnOk result (AreKept frame.old.arcs.items frame.new.arcs.items) }
    ensures pushed { OnOk result (ArePushedKept frame.old.arcs.items frame.new.arcs.items) }
{
    match &lines[i] {
        Line::Sub(x, y) => {
            let from = named.number(x);
            let arc = Arc {
                to: named.number(y),
                line: Some(Arc::line_at(i)?),
            };
            frame.join(from, arc)?;
            Ok(())
        }
        Line::Var(_) => Ok(()),
        Line::Same(_, _) => Ok(()),
        Line::Low(_, _) => Ok(()),
        Line::Up(_, _) => Ok(()),
    }
}

// Adds an arc from the store to the load of each node that has both.
pub(crate) fn enter_pointers(frame: &mut Frame) -> Result<(), Memory>
    requires { IsFrame frame.old.origins.items frame.old.steps frame.old.arcs.items frame.old.back.items }
    ensures frame { OnOk result (IsFrame frame.new.origins.items frame.new.steps frame.new.arcs.items frame.new.back.items) }
    ensures origins { OnOk result (frame.new.origins.items ≡ frame.old.origins.items) }
    ensures kept { OnOk result (AreKept frame.old.arcs.items frame.new.arcs.items) }
    ensures pointers { OnOk result (HavePointers frame.new.origins.items frame.new.arcs.items) }
    ensures only { OnOk result (AreMore (IsPointerPair frame.old.origins.items) frame.old.arcs.items frame.new.arcs.items) }
{
    for node in 0..frame.origins.len() as u32 {
        enter_pointer(frame, node)?;
    }
    Ok(())
}

// Adds the arc from the store to the load of a node, if it has both.
fn enter_pointer(frame: &mut Frame, node: u32) -> Result<(), Memory>
    requires { IsFrame frame.old.origins.items frame.old.steps frame.old.arcs.items frame.old.back.items }
    ensures frame { OnOk result (IsFrame frame.new.origins.items frame.new.steps frame.new.arcs.items frame.new.back.items) }
    ensures origins { OnOk result (frame.new.origins.items ≡ frame.old.origins.items) }
    ensures kept { OnOk result (AreKept frame.old.arcs.items frame.new.arcs.items) }
    ensures pointers { OnOk result (HavePointersAt frame.new.origins.items frame.new.arcs.items node) }
    ensures only { OnOk result (AreMore (IsPointerPair frame.old.origins.items) frame.old.arcs.items frame.new.arcs.items) }
{
    match (
        frame.step(node, Label::Store),
        frame.step(node, Label::Load),
    ) {
        (Some(from), Some(to)) => {
            frame.join(from, Arc { to, line: None })?;
            Ok(())
        }
        _ => Ok(()),
    }
}

// The numbers of named variables.
pub(crate) fn numbers(alloc: Global, named: &Named, variables: &[Dtv]) -> Result<Vec<u32>, Memory>
    requires { (x : Variable) → Contains variables.now x → Contains named.now x }
    ensures { IfOk result (λ numbers. AreNumbers named.now variables.now numbers.items) }
{
    let mut numbers = Vec::new(alloc);
    for x in variables {
        numbers.push(named.number(x))?;
    }
    Ok(numbers)
}
