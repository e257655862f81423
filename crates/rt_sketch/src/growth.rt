// The tree of the states of lines.
ghost use Rattle.std.specs.Prelude.{◌≡◌, ℕ, ◌+◌, ◌<◌, All, IfOk, List, None, OnOk, Some, [], length, slice_get, slice_index_or};
ghost use Rattle.rt_lines.specs.declared.line.Line.{Line as Given};
ghost use Rattle.rt_lines.specs.Lines.{HasConstantsBelow};
ghost use Rattle.rt_lines.specs.OrderFacts.{IsOrder};
ghost use Rattle.rt_lines.specs.Words.{IsLabel};
ghost use Rattle.rt_lattice.specs.Lattices.{IsLattice, size_of};
ghost use Rattle.rt_tree.specs.Trees.{step_of};
ghost use Rattle.rt_sketch.specs.Bounds.{AreBelow};
ghost use Rattle.rt_sketch.specs.Growths.{HasMarks, HasNextAt, HasNextRows, HasTaken};
ghost use Rattle.rt_sketch.specs.Growths.{IsGrown, IsMarkedBy, IsMore, IsOnWay, IsStep, LeadsFrom};
ghost use Rattle.rt_sketch.specs.States.{IsMachineOf};
ghost use Rattle.rt_sketch.specs.declared.machine.Machine.{Machine as Steps};

use crate::machine::Machine;
use crate::rows::Rows;
use crate::state::State;
use indexmap::IndexSet;
use rt_base::Memory;
use rt_lattice::Lattice;
use rt_lines::Label;
use rt_tree::Tree;
use std::alloc::{AllocError, Global};

// States in the order in which they were found, and the tree of those whose steps were taken.
#[derive(Drop)]
pub(crate) struct Growth {
    pub(crate) states: IndexSet<State>,
    pub(crate) tree: Tree,
}

impl Growth {
    ghost use Rattle.rt_lines.specs.declared.label.Label.{Label as Letter};
    ghost use Rattle.rt_sketch.specs.declared.state.State.{State as Place};

    // The first state alone.
    fn new(
        alloc: Global,
        machine: &Machine,
        lattice: &Lattice,
        first: State,
    ) -> Result<Growth, Memory>
        requires lattice { IsLattice lattice.now }
        requires order { IsOrder lattice.now.order }
        requires lows { AreBelow (size_of lattice.now) machine.now.lows.items }
        requires ups { AreBelow (size_of lattice.now) machine.now.ups.items }
        ensures taken { IfOk result (λ growth. HasTaken 0 [] growth.states.keys growth.tree) }
        ensures begins { IfOk result (λ growth. slice_get growth.states.keys 0 ≡ Some first) }
        ensures way { IfOk result (λ growth. (lines : List Given) → IsMachineOf lines machine.now →
            All (HasConstantsBelow (size_of lattice.now)) lines →
            IsOnWay lattice.now.order lines machine.now 0 [] growth.states.keys growth.tree) }
    {
        let (low, up) = machine.mark(lattice, &first);
        let tree = Tree::new(alloc, low, up)?;
        let mut states = IndexSet::new(alloc);
        states.insert(first)?;
        Ok(Growth { states, tree })
    }

    // Adds an edge to a state, and the state with its marks where it is new.
    fn enter(
        &mut self,
        number: u32,
        label: Label,
        next: State,
        marks: (u16, u16),
    ) -> Result<(), Memory>
        requires each { length self.old.tree ≡ length self.old.states.keys }
        requires from { number < length self.old.tree }
        requires free { step_of self.old.tree number label ≡ None }
        requires label { IsLabel label }
        ensures more { OnOk result (IsMore number label self.old.states.keys self.old.tree self.new.states.keys self.new.tree) }
        ensures marks { OnOk result (IsMarkedBy next marks self.old.states.keys self.old.tree self.new.states.keys self.new.tree) }
        ensures to { OnOk result (LeadsFrom number label next self.new.states.keys self.new.tree) }
    {
        let (to, _) = self.states.insert_full(next)?;
        if to < self.tree.size() as usize {
            self.tree.edge(number, &label, to as u32)?;
        } else {
            self.tree.grow(number, &label, marks.0, marks.1)?;
        }
        Ok(())
    }

    // Takes the step of a state by a letter.
    fn follow(
        &mut self,
        alloc: Global,
        machine: &Machine,
        lattice: &Lattice,
        number: u32,
        label: Label,
    ) -> Result<(), Memory>
        requires lattice { IsLattice lattice.now }
        requires order { IsOrder lattice.now.order }
        requires lows { AreBelow (size_of lattice.now) machine.now.lows.items }
        requires ups { AreBelow (size_of lattice.now) machine.now.ups.items }
        requires each { length self.old.tree ≡ length self.old.states.keys }
        requires from { number < length self.old.tree }
        requires free { step_of self.old.tree number label ≡ None }
        requires label { IsLabel label }
        ensures more { OnOk result (IsMore number label self.old.states.keys self.old.tree self.new.states.keys self.new.tree) }
        ensures marks { OnOk result ((lines : List Given) → IsMachineOf lines machine.now →
            All (HasConstantsBelow (size_of lattice.now)) lines →
            HasMarks lattice.now.order lines machine.now self.old.states.keys self.old.tree →
            HasMarks lattice.now.order lines machine.now self.new.states.keys self.new.tree) }
        ensures step { OnOk result ((lines : List Given) → IsMachineOf lines machine.now →
            IsStep lines machine.now self.new.states.keys self.new.tree number label) }
    {
        let Some(state) = self.states.get_index(number as usize) else {
            return Ok(());
        };
        match machine.step(alloc, state, label)? {
            Some(next) => {
                let marks = machine.mark(lattice, &next);
                self.enter(number, label, next, marks)?;
                Ok(())
            }
            None => Ok(()),
        }
    }

    // Takes the steps of a state by letters.
    fn expand(
        &mut self,
        alloc: Global,
        machine: &Machine,
        lattice: &Lattice,
        letters: &IndexSet<Label>,
        number: u32,
    ) -> Result<(), Memory>
        requires lattice { IsLattice lattice.now }
        requires order { IsOrder lattice.now.order }
        requires lows { AreBelow (size_of lattice.now) machine.now.lows.items }
        requires ups { AreBelow (size_of lattice.now) machine.now.ups.items }
        requires labels { All IsLabel letters.now.keys }
        requires taken { HasTaken number [] self.old.states.keys self.old.tree }
        requires from { number < length self.old.tree }
        ensures taken { OnOk result (HasTaken (number + 1) [] self.new.states.keys self.new.tree) }
        ensures long { OnOk result (number < length self.new.tree) }
        ensures kept { OnOk result ((s : Place) → slice_get self.old.states.keys 0 ≡ Some s →
            slice_get self.new.states.keys 0 ≡ Some s) }
        ensures way { OnOk result ((lines : List Given) → IsMachineOf lines machine.now →
            All (HasConstantsBelow (size_of lattice.now)) lines →
            HasNextAt lines machine.now self.old.states.keys number letters.now.keys →
            IsOnWay lattice.now.order lines machine.now number [] self.old.states.keys self.old.tree →
            IsOnWay lattice.now.order lines machine.now (number + 1) [] self.new.states.keys self.new.tree) }
    {
        for label in letters.as_slice() {
            self.follow(alloc, machine, lattice, number, *label)?;
        }
        Ok(())
    }
}

// The letters of the node of the state of a number.
fn letters_at<'a>(states: &IndexSet<State>, rows: &'a Rows, number: u32) -> &'a IndexSet<Label>
    ensures next { (lines : List Given) (machine : Steps) → HasNextRows lines machine rows.now →
        HasNextAt lines machine states.now.keys number result.now.keys }
    ensures good { ((n : ℕ) → All IsLabel (slice_index_or rows.now n [])) → All IsLabel result.now.keys }
{
    match states.get_index(number as usize) {
        Some(state) => rows.at(state.node),
        None => rows.none(),
    }
}

// The tree that a state unfolds to. The error is out of memory, or of numbers of 32 bits.
pub(crate) fn grown(
    alloc: Global,
    machine: &Machine,
    lattice: &Lattice,
    rows: &Rows,
    first: State,
) -> Result<Tree, Memory>
    requires lattice { IsLattice lattice.now }
    requires order { IsOrder lattice.now.order }
    requires lows { AreBelow (size_of lattice.now) machine.now.lows.items }
    requires ups { AreBelow (size_of lattice.now) machine.now.ups.items }
    requires labels { (n : ℕ) → All IsLabel (slice_index_or rows.now n []) }
    ensures { IfOk result (λ tree. (lines : List Given) → IsMachineOf lines machine.now →
        All (HasConstantsBelow (size_of lattice.now)) lines →
        HasNextRows lines machine.now rows.now →
        IsGrown lattice.now.order lines machine.now first tree) }
{
    let mut growth = Growth::new(alloc, machine, lattice, first)?;
    for number in 0..u32::MAX {
        if number == growth.tree.size() {
            return Ok(growth.tree);
        }
        let letters = letters_at(&growth.states, rows, number);
        growth.expand(alloc, machine, lattice, letters, number)?;
    }
    Err(AllocError)
}
