// Classes that are made one.
ghost use Rattle.std.specs.Prelude.{◌≡◌, List, OnOk};
ghost use Rattle.rt_lines.specs.declared.line.Line.{Line as Given};
ghost use Rattle.rt_lines.specs.Orders.{Below};
ghost use Rattle.rt_earlier.specs.Inside.Earlier.{AreOne, IsSound, StaysSound};

use crate::earlier::Earlier;
use crate::rows::{count, put, set, take, take_labels};
use rt_base::Memory;
use rt_lines::Label;
use std::alloc::AllocError;

// More than there can be pairs to be made one.
const PAIRS: usize = usize::MAX;

impl Earlier {
    // Makes one what is left to do, until nothing is. Each number changes its class at most as often as the count of numbers can
    // be halved.
    pub(crate) fn finish(&mut self) -> Result<(), Memory>
        ensures { OnOk result ((order : Below) (lines : List Given) →
            IsSound order lines self.old → IsSound order lines self.new) }
    {
        for _ in 0..PAIRS {
            let Some((i, j)) = self.todo.pop() else {
                return Ok(());
            };
            self.join(i, j)?;
        }
        Err(AllocError)
    }

    // Makes two numbers one: of their classes the one with fewer members is renamed into the other.
    fn join(&mut self, i: u32, j: u32) -> Result<(), Memory>
        ensures { OnOk result (StaysSound (λ order lines. AreOne order lines self.old.named i j) self.old self.new) }
    {
        let a = self.class_of(i);
        let b = self.class_of(j);
        if a == b {
            return Ok(());
        }
        if count(a, &self.members) < count(b, &self.members) {
            self.rename(a, b)
        } else {
            self.rename(b, a)
        }
    }

    // Renames a class into another.
    fn rename(&mut self, from: u32, to: u32) -> Result<(), Memory>
        ensures { OnOk result (StaysSound (λ order lines. AreOne order lines self.old.named from to) self.old self.new) }
    {
        self.move_members(from, to)?;
        self.move_labels(from, to)
    }

    // Moves the numbers of a class to another.
    fn move_members(&mut self, from: u32, to: u32) -> Result<(), Memory>
        ensures sound { OnOk result (StaysSound (λ order lines. AreOne order lines self.old.named from to) self.old self.new) }
        ensures named { OnOk result (self.new.named ≡ self.old.named) }
    {
        let alloc = *self.class.allocator();
        let moved = take(alloc, from, &mut self.members);
        for number in moved.items() {
            set(*number, to, &mut self.class);
            put(to, *number, &mut self.members)?;
        }
        Ok(())
    }

    // Moves the labels of a class to another, each with its child.
    fn move_labels(&mut self, from: u32, to: u32) -> Result<(), Memory>
        ensures { OnOk result (StaysSound (λ order lines. AreOne order lines self.old.named from to) self.old self.new) }
    {
        let alloc = *self.class.allocator();
        let moved = take_labels(alloc, from, &mut self.labels);
        for label in moved.items() {
            self.move_label(from, to, *label)?;
        }
        Ok(())
    }

    // Moves a label of a class to another with its child.
    fn move_label(&mut self, from: u32, to: u32, label: Label) -> Result<(), Memory>
        ensures sound { OnOk result (StaysSound (λ order lines. AreOne order lines self.old.named from to) self.old self.new) }
        ensures named { OnOk result (self.new.named ≡ self.old.named) }
    {
        match self.children.remove(&(from, label)) {
            Some(child) => self.note(to, label, child),
            None => Ok(()),
        }
    }
}
