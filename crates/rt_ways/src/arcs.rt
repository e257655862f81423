// The first arcs: of lines, and between what can be exchanged.
ghost use Rattle.std.specs.Prelude.{◌≡◌, ◌↔◌, ◌∷◌, ◌+◌, ℕ, ◌<◌, [], Contains};
ghost use Rattle.std.specs.Prelude.{IsTrue, IfOk, OnOk, MatchOption, length, slice_index_or};
ghost use Rattle.rt_lines.specs.declared.line.Line.{Line as Given};
ghost use Rattle.rt_lines.specs.declared.variable.Dtv.{Dtv as Variable};
ghost use Rattle.rt_rules.specs.Rules.{HasSide};
ghost use Rattle.rt_loose.specs.Kinds.{IsPointer};
ghost use Rattle.rt_shape.specs.Graphs.{IsReadWrite};
ghost use Rattle.rt_ways.specs.Arcs.{AreMore};
ghost use Rattle.rt_ways.specs.Inside.Frames.{AreFirst, IsAtHub, IsForHub, IsFrameOf, IsOfLine, IsPointee, IsReady, IsToHub, hub_of};
ghost use Rattle.rt_ways.specs.Pushes.{AreDistinct};

use crate::closing::{add, step};
use crate::frame::Frame;
use rt_base::{Memory, Sequence};
use rt_lines::{Label, Line};
use rt_named::{Named, Origin};
use std::alloc::Global;

// Arcs of subtype lines, and such that arcs lead between all that is behind loads and stores of one class that can be read and
// written through: to and from one of them.
pub(crate) fn arcs_of(
    alloc: Global,
    frame: &Frame,
    lines: &[Line],
) -> Result<Vec<Sequence<u32>>, Memory>
    requires { IsFrameOf lines.now frame.now }
    ensures { IfOk result (λ arcs. AreFirst lines.now frame.now arcs.items) }
{
    let mut arcs = empty_rows(alloc, frame.named.len())?;
    enter_lines(&frame.named, lines, &mut arcs)?;
    enter_pointers(frame, &mut arcs)?;
    Ok(arcs)
}

// So many empty rows.
pub(crate) fn empty_rows(alloc: Global, count: usize) -> Result<Vec<Sequence<u32>>, Memory>
    ensures length { IfOk result (λ rows. length rows.items ≡ count) }
    ensures empty { IfOk result (λ rows. (v : ℕ) → slice_index_or rows.items v [] ≡ []) }
{
    let mut rows = Vec::new(alloc);
    while rows.len() < count {
        rows.push(Sequence::new(alloc))?;
    }
    Ok(rows)
}

// Adds the arcs of lines.
fn enter_lines(named: &Named, lines: &[Line], arcs: &mut Vec<Sequence<u32>>) -> Result<(), Memory>
    requires distinct { AreDistinct named.now }
    requires sides { (l : Given) (x : Variable) → Contains lines.now l → HasSide l x → Contains named.now x }
    requires each { length arcs.old.items ≡ length named.now }
    ensures { OnOk result (AreMore (IsOfLine named.now lines.now) arcs.old.items arcs.new.items) }
{
    for line in lines {
        enter_line(named, line, arcs)?;
    }
    Ok(())
}

// Adds the arc of a line, if it is a subtype line.
fn enter_line(named: &Named, line: &Line, arcs: &mut Vec<Sequence<u32>>) -> Result<(), Memory>
    requires distinct { AreDistinct named.now }
    requires sides { (x : Variable) → HasSide line.now x → Contains named.now x }
    requires each { length arcs.old.items ≡ length named.now }
    ensures { OnOk result (AreMore (IsOfLine named.now (line.now ∷ [])) arcs.old.items arcs.new.items) }
{
    match line {
        Line::Sub(x, y) => {
            let from = named.number(x);
            let to = named.number(y);
            add(arcs, from, to)?;
            Ok(())
        }
        _ => Ok(()),
    }
}

// Adds arcs between what can be exchanged.
fn enter_pointers(frame: &Frame, arcs: &mut Vec<Sequence<u32>>) -> Result<(), Memory>
    requires ready { IsReady frame.now }
    requires each { length arcs.old.items ≡ length frame.now.named }
    ensures { OnOk result (AreMore (IsToHub frame.now (length frame.now.named)) arcs.old.items arcs.new.items) }
{
    for number in 0..frame.named.len() {
        enter_pointer(frame, arcs, number as u32)?;
    }
    Ok(())
}

// Adds arcs from and to a number, if it can be exchanged.
fn enter_pointer(frame: &Frame, arcs: &mut Vec<Sequence<u32>>, number: u32) -> Result<(), Memory>
    requires ready { IsReady frame.now }
    requires number { number < length frame.now.named }
    requires each { length arcs.old.items ≡ length frame.now.named }
    ensures { OnOk result (AreMore (IsAtHub frame.now number) arcs.old.items arcs.new.items) }
{
    match frame.hub_for(number) {
        Some(hub) => {
            add(arcs, number, hub)?;
            add(arcs, hub, number)?;
            Ok(())
        }
        None => Ok(()),
    }
}

impl Frame {
    // The hub of the class that the number is behind, if it can be exchanged.
    fn hub_for(&self, number: u32) -> Option<u32>
        requires ready { IsReady self.now }
        requires number { number < length self.now.named }
        ensures { MatchOption result ((hub : ℕ) → IsForHub self.now number hub → ⊥) (λ hub. IsForHub self.now number hub) }
    {
        match self.pointed(number) {
            Some(class) => self.hub(class),
            None => None,
        }
    }

    // The class of what the number is behind, if it is behind a load or a store of what can be read and written through.
    fn pointed(&self, number: u32) -> Option<u32>
        requires ready { IsReady self.now }
        requires number { number < length self.now.named }
        ensures { MatchOption result ((class : ℕ) → IsPointee self.now class number → ⊥)
            (λ class. IsPointee self.now class number) }
    {
        match self.named.origin(number) {
            Origin::Bare(_) => None,
            Origin::Longer(parent, label) => self.class_behind(parent, label),
        }
    }

    // The class of a number, if the letter is a load or a store, and it can be read and written through.
    fn class_behind(&self, parent: u32, label: Label) -> Option<u32>
        requires nodes { parent < length self.now.nodes.items }
        requires classes { parent < length self.now.classes.items }
        ensures { MatchOption result (IsPointer label × IsReadWrite self.now.shape (slice_index_or self.now.nodes.items parent 0) → ⊥)
            (λ class. IsPointer label × IsReadWrite self.now.shape (slice_index_or self.now.nodes.items parent 0) ×
            (class ≡ slice_index_or self.now.classes.items parent 0)) }
    {
        if self.can_exchange(parent, label) {
            Some(entry(&self.classes, parent))
        } else {
            None
        }
    }

    // A number behind a load or a store of the class.
    fn hub(&self, class: u32) -> Option<u32>
        ensures { result ≡ hub_of self.now.behind.entries class }
    {
        match step(&self.behind, class, Label::Load) {
            Some(hub) => Some(hub),
            None => step(&self.behind, class, Label::Store),
        }
    }

    // Whether the letter is a load or a store of what can be read and written through.
    fn can_exchange(&self, parent: u32, label: Label) -> bool
        requires { parent < length self.now.nodes.items }
        ensures { IsTrue result ↔ (IsPointer label × IsReadWrite self.now.shape (slice_index_or self.now.nodes.items parent 0)) }
    {
        if is_pointer(label) {
            self.shape.is_rw(entry(&self.nodes, parent))
        } else {
            false
        }
    }
}

// The entry at a place.
pub(crate) fn entry(numbers: &[u32], place: u32) -> u32
    requires { place < length numbers.now }
    ensures { result ≡ slice_index_or numbers.now place 0 }
{
    numbers[place as usize]
}

// Whether the label is a load or a store.
fn is_pointer(label: Label) -> bool
    ensures { IsTrue result ↔ IsPointer label }
{
    match label {
        Label::Load | Label::Store => true,
        _ => false,
    }
}
