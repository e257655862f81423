// Lines in slots, where each is found.
ghost use Rattle.std.specs.Prelude.{◌≡◌, ℕ, ◌<◌, [], ◌∷◌, ◌++◌, None, Some, length};
ghost use Rattle.std.specs.Prelude.{slice_index_or, slice_set, IfOk, IsTrue, MatchOption, OnOk, ◌↔◌};
ghost use Rattle.rt_lines.specs.declared.line.Line.{Line as Held};
ghost use Rattle.rt_lines.specs.declared.variable.Dtv.{Dtv as Variable};
ghost use Rattle.rt_polar.specs.Index.{has};
ghost use Rattle.rt_polar.specs.Inside.Places.{AreHeld, ArePlaces, AreUses, Holds, IsSoleAt, Settles};
ghost use Rattle.rt_polar.specs.Tidied.{without_self};

use crate::choosing::beside;
use crate::index::{Index, Kind, forget, next_at, note};
use crate::row::Row;
use rt_base::Memory;
use rt_lines::Variance;
use std::alloc::Global;
use std::collections::BTreeSet;

/// Lines in slots, in the order of the slots, each once. What stands beside the slots finds the slots of the lines that
/// have a digest, and of those that name, define or consume an existential.
#[derive(Drop)]
pub struct Places {
    pub slots: Vec<Option<Row>>,
    pub at: Index,
    pub naming: Index,
    pub defining: Index,
    pub consuming: Index,
}

// Whether the slot holds the line.
fn is_held(slot: &Option<Row>, row: &Row) -> bool
    ensures { IsTrue result ↔ (slot.now ≡ Some row.now) }
{
    match slot {
        Some(held) => held.line() == row.line(),
        None => false,
    }
}

impl Places {
    /// No slots. It takes no memory.
    pub fn new(alloc: Global) -> Places
        ensures places { ArePlaces result }
        ensures none { result.slots.items ≡ [] }
    {
        Places {
            slots: Vec::new(alloc),
            at: BTreeSet::new(alloc),
            naming: BTreeSet::new(alloc),
            defining: BTreeSet::new(alloc),
            consuming: BTreeSet::new(alloc),
        }
    }

    /// Adds an empty slot behind the others, and gives its number. The error is out of memory.
    pub fn add_slot(&mut self) -> Result<usize, Memory>
        requires { ArePlaces self.old }
        ensures places { OnOk result (ArePlaces self.new) }
        ensures slots { OnOk result (self.new.slots.items ≡ self.old.slots.items ++ None ∷ []) }
        ensures slot { IfOk result (λ slot. slot ≡ length self.old.slots.items) }
    {
        let slot = self.slots.len();
        self.slots.push(None)?;
        Ok(slot)
    }

    /// Takes the line out of a slot, if it holds one. It takes no memory.
    pub fn clear(&mut self, slot: usize) -> Option<Row>
        requires places { ArePlaces self.old }
        requires within { slot < length self.old.slots.items }
        ensures places { ArePlaces self.new }
        ensures slots { self.new.slots.items ≡ slice_set self.old.slots.items slot None }
        ensures line { result ≡ slice_index_or self.old.slots.items slot None }
    {
        let row = self.slots[slot].take();
        if let Some(held) = &row {
            let line = held.line();
            self.at.remove(&(held.digest(), slot));
            forget(&mut self.naming, line, slot);
            forget(&mut self.defining, line, slot);
            forget(&mut self.consuming, line, slot);
        }
        row
    }

    // Notes beside the slots a line that none of them holds, as if the empty slot held it.
    fn enter(&mut self, row: &Row, slot: usize) -> Result<(), Memory>
        requires places { ArePlaces self.old }
        requires within { slot < length self.old.slots.items }
        requires empty { slice_index_or self.old.slots.items slot None ≡ None }
        requires absent { (i : ℕ) → Holds self.old.slots.items i row.now → ⊥ }
        requires plain { without_self row.now ≡ row.now }
        ensures held { OnOk result (AreHeld (slice_set self.old.slots.items slot (Some row.now)) (has self.new.at)
            (has self.new.naming) (has self.new.defining) (has self.new.consuming)) }
        ensures slots { OnOk result (self.new.slots.items ≡ self.old.slots.items) }
    {
        note(&mut self.naming, Kind::Naming, row, slot)?;
        note(&mut self.defining, Kind::Defining, row, slot)?;
        note(&mut self.consuming, Kind::Consuming, row, slot)?;
        self.at.insert((row.digest(), slot))?;
        Ok(())
    }

    // Puts a line that no slot holds into an empty slot.
    fn fill(&mut self, slot: usize, row: Row) -> Result<(), Memory>
        requires places { ArePlaces self.old }
        requires within { slot < length self.old.slots.items }
        requires empty { slice_index_or self.old.slots.items slot None ≡ None }
        requires absent { (i : ℕ) → Holds self.old.slots.items i row → ⊥ }
        requires plain { without_self row ≡ row }
        ensures places { OnOk result (ArePlaces self.new) }
        ensures slots { OnOk result (self.new.slots.items ≡ slice_set self.old.slots.items slot (Some row)) }
    {
        self.enter(&row, slot)?;
        self.slots[slot] = Some(row);
        Ok(())
    }

    // The line of a slot is to stand in an empty one too: it stays in the first of the two alone.
    fn settle_beside(&mut self, other: usize, slot: usize) -> Result<(), Memory>
        requires places { ArePlaces self.old }
        requires within { slot < length self.old.slots.items }
        requires empty { slice_index_or self.old.slots.items slot None ≡ None }
        requires held { (l : Held) × Holds self.old.slots.items other l }
        ensures places { OnOk result (ArePlaces self.new) }
        ensures settles { OnOk result ((l : Held) → Holds self.old.slots.items other l →
            Settles self.old.slots.items slot l self.new.slots.items) }
    {
        if other < slot {
            return Ok(());
        }
        match self.clear(other) {
            Some(row) => self.fill(slot, row),
            None => unreachable!(),
        }
    }

    // The slot of the line, if one holds it.
    fn find(&self, row: &Row) -> Option<usize>
        requires { ArePlaces self.now }
        ensures { MatchOption result ((i : ℕ) → Holds self.now.slots.items i row.now → ⊥)
            (λ i. Holds self.now.slots.items i row.now) }
    {
        let digest = row.digest();
        let mut from = 0;
        while let Some(slot) = next_at(&self.at, digest, from) {
            if is_held(&self.slots[slot], row) {
                return Some(slot);
            }
            from = slot + 1;
        }
        None
    }

    /// Puts a line into an empty slot, but that of two equal lines the first alone stays. The error is out of memory.
    pub fn settle(&mut self, slot: usize, row: Row) -> Result<(), Memory>
        requires places { ArePlaces self.old }
        requires within { slot < length self.old.slots.items }
        requires empty { slice_index_or self.old.slots.items slot None ≡ None }
        requires plain { without_self row ≡ row }
        ensures places { OnOk result (ArePlaces self.new) }
        ensures settles { OnOk result (Settles self.old.slots.items slot row self.new.slots.items) }
    {
        match self.find(&row) {
            Some(other) => self.settle_beside(other, slot),
            None => self.fill(slot, row),
        }
    }

    // The slots of uses of the sign.
    fn uses(&self, sign: Variance) -> &Index
        requires { ArePlaces self.now }
        ensures { AreUses sign self.now.slots.items (has result.now) }
    {
        match sign {
            Variance::Co => &self.defining,
            Variance::Contra => &self.consuming,
        }
    }

    /// The slot of the only use of the existential of the sign, where the variable on its other side may take the
    /// existential's place. It takes no memory.
    pub fn sole(&self, v: u32, sign: Variance) -> Option<usize>
        requires { ArePlaces self.now }
        ensures { MatchOption result ((z : Variable) (slot : ℕ) → IsSoleAt sign v z self.now.slots.items slot → ⊥)
            (λ slot. (z : Variable) × IsSoleAt sign v z self.now.slots.items slot) }
    {
        let index = self.uses(sign);
        let Some(slot) = next_at(index, v, 0) else {
            return None;
        };
        let None = next_at(index, v, slot + 1) else {
            return None;
        };
        let Some(row) = &self.slots[slot] else {
            return None;
        };
        match beside(row.line(), v, sign) {
            Some(_) => Some(slot),
            None => None,
        }
    }
}
