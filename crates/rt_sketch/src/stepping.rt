// Steps of states.
ghost use Rattle.std.specs.Prelude.{◌≡◌, ◌↔◌, ◌<◌, ℕ, [], Contains, IsTrue};
ghost use Rattle.std.specs.Prelude.{IfOk, List, MatchOption, OnOk, Some, length, slice_get, slice_index_or};
ghost use Rattle.rt_lines.specs.declared.line.Line.{Line as Given};
ghost use Rattle.rt_lines.specs.declared.label.Variance.TheVariants.{Co as Keeps, Contra as Turns};
ghost use Rattle.rt_lines.specs.declared.variable.Base.{Base as Root};
ghost use Rattle.rt_lines.specs.declared.variable.Dtv.{Dtv as Variable};
ghost use Rattle.rt_lines.specs.Words.{label_variance};
ghost use Rattle.rt_rules.specs.Rules.{longer};
ghost use Rattle.rt_loose.specs.Kinds.{IsPointer};
ghost use Rattle.rt_shape.specs.Graphs.{IsReadWrite, bare, node_of};
ghost use Rattle.std.specs.Option.{option_map};
ghost use Rattle.rt_named.specs.Numbers.{IsLeft};
ghost use Rattle.rt_ways.specs.Arcs.{IsInRow};
ghost use Rattle.rt_ways.specs.Inside.Frames.{hub_of};
ghost use Rattle.rt_ways.specs.Nets.{IsSized, class_at};
ghost use Rattle.rt_ways.specs.Pushes.{step_of};
ghost use Rattle.rt_sketch.specs.States.{Denotes, IsMachineOf, LeadsTo, Starts};
ghost use Rattle.rt_sketch.specs.Inside.Steps.{AreAll, IsAt, IsBehindOf, IsFor, IsLed, hub_in, next_class, rows_of};

use crate::machine::Machine;
use crate::state::State;
use rt_base::Memory;
use rt_lines::{Base, Dtv, Label, Variance, Word};
use rt_named::Numbers;
use std::alloc::Global;

// Those below, or those above.
#[derive(Clone, Copy)]
pub(crate) enum Side {
    Below,
    Above,
}

impl Machine {
    // The state of a base alone, if there is that variable.
    pub(crate) fn start(&self, alloc: Global, base: Base) -> Result<Option<State>, Memory>
        ensures { IfOk result (λ first. (lines : List Given) → IsMachineOf lines self.now → Starts lines self.now base first) }
    {
        let x = bare(alloc, base);
        let first = self.start_at(alloc, &x)?;
        Ok(first)
    }

    // The state of a variable that is a base alone, if there is that variable.
    fn start_at(&self, alloc: Global, x: &Dtv) -> Result<Option<State>, Memory>
        ensures { IfOk result (λ first. (lines : List Given) (b : Root) → IsMachineOf lines self.now → x.now ≡ bare b →
            Starts lines self.now b first) }
    {
        match self.shape.node(x) {
            Some(node) => {
                let state = self.state_for(alloc, node, self.number(x))?;
                Ok(Some(state))
            }
            None => Ok(None),
        }
    }

    // The number of a variable, if it is named.
    fn number(&self, x: &Dtv) -> Option<u32>
        ensures number { MatchOption result (Contains self.now.ways.named x.now → ⊥)
            (λ n. slice_get self.now.ways.named n ≡ Some x.now) }
        ensures sized { (n : ℕ) → result ≡ Some n → n < length self.now.ways.classes }
    {
        self.ways.named().index(x)
    }

    // The state behind a letter, or none where nothing is there.
    pub(crate) fn step(
        &self,
        alloc: Global,
        state: &State,
        label: Label,
    ) -> Result<Option<State>, Memory>
        ensures { IfOk result
            (λ next. (lines : List Given) → IsMachineOf lines self.now → LeadsTo lines self.now state.now label next) }
    {
        match self.shape.step(state.node, &label) {
            Some(node) => {
                let next = self.behind(alloc, state, label, node)?;
                Ok(Some(next))
            }
            None => Ok(None),
        }
    }

    // The state behind a letter that leads to a node.
    fn behind(&self, alloc: Global, state: &State, label: Label, node: u32) -> Result<State, Memory>
        ensures { IfOk result (λ next. (lines : List Given) (x : Variable) → IsMachineOf lines self.now →
            Denotes lines self.now state.now x → node_of self.now.shape (longer x label) ≡ Some node →
            Denotes lines self.now next (longer x label)) }
    {
        if self.can_exchange(state.node, label) {
            let next = self.state_for(alloc, node, self.hub(state.class))?;
            Ok(next)
        } else {
            let next = self.kept(alloc, state, label, node)?;
            Ok(next)
        }
    }

    // Whether the letter is a load or a store of what can be read and written through.
    fn can_exchange(&self, node: u32, label: Label) -> bool
        ensures { IsTrue result ↔ (IsPointer label × IsReadWrite self.now.shape node) }
    {
        if is_pointer(label) {
            self.shape.is_rw(node)
        } else {
            false
        }
    }

    // A number behind a load or a store of the class.
    fn hub(&self, class: Option<u32>) -> Option<u32>
        ensures hub { result ≡ hub_in self.now.ways class }
        ensures sized { (n : ℕ) → result ≡ Some n → n < length self.now.ways.classes }
    {
        match class {
            Some(class) => self.hub_of(class),
            None => None,
        }
    }

    // The same of a class that there is.
    fn hub_of(&self, class: u32) -> Option<u32>
        ensures hub { result ≡ hub_of self.now.ways.behind class }
        ensures sized { IsSized self.now.ways }
    {
        match self.ways.behind(class, Label::Load) {
            Some(hub) => Some(hub),
            None => self.ways.behind(class, Label::Store),
        }
    }

    // The state of a number, if there is one.
    fn state_for(&self, alloc: Global, node: u32, number: Option<u32>) -> Result<State, Memory>
        requires { (n : ℕ) → number ≡ Some n → n < length self.now.ways.classes }
        ensures { IfOk result (IsFor self.now.ways node number) }
    {
        match number {
            Some(number) => {
                let state = self.state_at(alloc, node, number)?;
                Ok(state)
            }
            None => Ok(State {
                node,
                class: None,
                below: Vec::new(alloc),
                above: Vec::new(alloc),
            }),
        }
    }

    // The state of a number.
    fn state_at(&self, alloc: Global, node: u32, number: u32) -> Result<State, Memory>
        requires { number < length self.now.ways.classes }
        ensures { IfOk result (IsAt self.now.ways node number) }
    {
        let below = sorted(alloc, self.ways.below(number))?;
        let above = sorted(alloc, self.ways.above(number))?;
        Ok(State {
            node,
            class: Some(self.ways.class(number)),
            below,
            above,
        })
    }

    // The state behind a letter that can't be exchanged.
    fn kept(&self, alloc: Global, state: &State, label: Label, node: u32) -> Result<State, Memory>
        ensures co { IfOk result (λ next. label_variance label ≡ Keeps →
            IsBehindOf self.now.ways node (next_class self.now.ways state.now.class label) label
            state.now.below.items state.now.above.items next) }
        ensures contra { IfOk result (λ next. label_variance label ≡ Turns →
            IsBehindOf self.now.ways node (next_class self.now.ways state.now.class label) label
            state.now.above.items state.now.below.items next) }
    {
        let class = self.next_class(state.class, label);
        match label.variance() {
            Variance::Co => {
                let next = self.behind_of(alloc, node, class, label, &state.below, &state.above)?;
                Ok(next)
            }
            Variance::Contra => {
                let next = self.behind_of(alloc, node, class, label, &state.above, &state.below)?;
                Ok(next)
            }
        }
    }

    // The class of what is behind a letter of the class.
    fn next_class(&self, class: Option<u32>, label: Label) -> Option<u32>
        ensures { result ≡ next_class self.now.ways class label }
    {
        match class {
            Some(class) => self.class_behind(class, label),
            None => None,
        }
    }

    // The same of a class that there is.
    fn class_behind(&self, class: u32, label: Label) -> Option<u32>
        ensures { result ≡ option_map (class_at self.now.ways) (step_of self.now.ways.behind class label) }
    {
        match self.ways.behind(class, label) {
            Some(number) => Some(self.ways.class(number)),
            None => None,
        }
    }

    // The state of what is led to from two lists behind a letter.
    fn behind_of(
        &self,
        alloc: Global,
        node: u32,
        class: Option<u32>,
        label: Label,
        below: &[u32],
        above: &[u32],
    ) -> Result<State, Memory>
        ensures { IfOk result (IsBehindOf self.now.ways node class label below.now above.now) }
    {
        let below = self.led(alloc, Side::Below, below, label)?;
        let above = self.led(alloc, Side::Above, above, label)?;
        Ok(State {
            node,
            class,
            below,
            above,
        })
    }

    // What is led to from numbers behind a letter.
    fn led(
        &self,
        alloc: Global,
        side: Side,
        numbers: &[u32],
        label: Label,
    ) -> Result<Vec<u32>, Memory>
        ensures { IfOk result (λ list. AreAll (IsLed self.now.ways (rows_of self.now.ways side) numbers.now label) list.items) }
    {
        let mut found = Numbers::new(alloc);
        for number in numbers {
            self.lead(&mut found, side, *number, label)?;
        }
        let list = sorted(alloc, found.items())?;
        Ok(list)
    }

    // Adds what is led to from a number behind a letter.
    fn lead(&self, found: &mut Numbers, side: Side, number: u32, label: Label) -> Result<(), Memory>
        ensures { OnOk result (IsLeft (λ (w : ℕ). (m : ℕ) × (step_of self.now.ways.steps number label ≡ Some m) ×
            IsInRow (rows_of self.now.ways side) m w) found.old found.new) }
    {
        match self.ways.step(number, label) {
            Some(next) => {
                found.note_all(self.row(side, next))?;
                Ok(())
            }
            None => Ok(()),
        }
    }

    // The row of a number.
    fn row(&self, side: Side, number: u32) -> &[u32]
        ensures { result.now ≡ slice_index_or (rows_of self.now.ways side) number [] }
    {
        match side {
            Side::Below => self.ways.below(number),
            Side::Above => self.ways.above(number),
        }
    }
}

// A base alone.
fn bare(alloc: Global, base: Base) -> Dtv
    ensures { result ≡ bare base }
{
    Dtv {
        base,
        word: Word::empty(alloc),
    }
}

// Whether the label is a load or a store.
fn is_pointer(label: Label) -> bool
    ensures { IsTrue result ↔ IsPointer label }
{
    match label {
        Label::Load | Label::Store => true,
        _ => false,
    }
}

// The numbers in order.
fn sorted(alloc: Global, numbers: &[u32]) -> Result<Vec<u32>, Memory>
    ensures { IfOk result (λ list. AreAll (Contains numbers.now) list.items) }
{
    let mut list = numbers.to_vec(alloc)?;
    list.sort_unstable();
    Ok(list)
}
