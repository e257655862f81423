// What is known of earlier lines.
ghost use Rattle.std.specs.Prelude.{◌≡◌, ◌<◌, ℕ, List, true, Some, IfOk, IfSome, OnOk, length, slice_get};
ghost use Rattle.rt_lines.specs.declared.line.Line.{Line as Given};
ghost use Rattle.rt_lines.specs.declared.line.Line.TheVariants.{Same as AreSame, Var as Exists};
ghost use Rattle.rt_lines.specs.declared.variable.Dtv.{Dtv as Variable};
ghost use Rattle.rt_lines.specs.Orders.{Below};
ghost use Rattle.rt_rules.specs.Rules.{Derivable};
ghost use Rattle.rt_earlier.specs.Inside.Earlier.{AreKept, AreOne, IsSound, Leads, Reaches, StaysSound};

use crate::rows::{put, put_label};
use rt_base::{Memory, Sequence};
use rt_lines::{Dtv, Label, Line, Word};
use rt_named::{Named, Origin};
use std::alloc::Global;
use std::collections::HashMap;

// The variables that earlier lines name, in classes of those that have one shape. A class is named by the number of one of its
// variables.
#[derive(Drop)]
pub(crate) struct Earlier {
    // The variables by number.
    pub(crate) named: Named,
    // The class of each number.
    pub(crate) class: Vec<u32>,
    // The numbers of each class.
    pub(crate) members: Vec<Sequence<u32>>,
    // The labels of each class, each once.
    pub(crate) labels: Vec<Sequence<Label>>,
    // By class and label the number of a variable behind the label.
    pub(crate) children: HashMap<(u32, Label), u32>,
    // Numbers that are still to be made one.
    pub(crate) todo: Vec<(u32, u32)>,
}

impl Earlier {
    // Of no lines.
    pub(crate) fn new(alloc: Global) -> Earlier
        ensures { (order : Below) (lines : List Given) → IsSound order lines result }
    {
        Earlier {
            named: Named::new(alloc),
            class: Vec::new(alloc),
            members: Vec::new(alloc),
            labels: Vec::new(alloc),
            children: HashMap::new(alloc),
            todo: Vec::new(alloc),
        }
    }

    // Whether a `var` or `same` line is known to follow.
    pub(crate) fn derives(&self, alloc: Global, line: &Line) -> bool
        ensures { result ≡ true → (order : Below) (lines : List Given) →
            IsSound order lines self.now → Derivable order lines line.now }
    {
        match line {
            Line::Var(x) => self.walk(alloc, x).is_some(),
            Line::Same(x, y) => match (self.walk(alloc, x), self.walk(alloc, y)) {
                (Some(i), Some(j)) => self.are_one(i, j),
                _ => false,
            },
            Line::Sub(_, _) | Line::Low(_, _) | Line::Up(_, _) => false,
        }
    }

    // The number of a variable of one shape with this one, where one is found: that of its base, and then by each label that
    // of the child of the class.
    fn walk(&self, alloc: Global, x: &Dtv) -> Option<u32>
        ensures { IfSome result (λ n. (order : Below) (lines : List Given) →
            IsSound order lines self.now → Reaches order lines self.now.named x.now n) }
    {
        let bare = Dtv {
            base: x.base,
            word: Word::empty(alloc),
        };
        let Some(mut number) = self.named.index(&bare) else {
            return None;
        };
        for label in x.word.items() {
            let class = self.class_of(number);
            let Some(child) = self.children.get(&(class, *label)) else {
                return None;
            };
            number = *child;
        }
        Some(number)
    }

    // Whether two numbers are in one class.
    fn are_one(&self, i: u32, j: u32) -> bool
        ensures { result ≡ true → (order : Below) (lines : List Given) (x y : Variable) → IsSound order lines self.now →
            Reaches order lines self.now.named x i → Reaches order lines self.now.named y j →
            Derivable order lines (AreSame x y) }
    {
        self.class_of(i) == self.class_of(j)
    }

    // The class of a number, or where it has none itself.
    pub(crate) fn class_of(&self, number: u32) -> u32
        ensures { (order : Below) (lines : List Given) (x : Variable) → IsSound order lines self.now →
            slice_get self.now.named number ≡ Some x → AreOne order lines self.now.named number result }
    {
        match self.class.get(number as usize) {
            Some(class) => *class,
            None => number,
        }
    }

    // Adds a line, and makes one what it says has one shape, and what follows.
    pub(crate) fn add(&mut self, line: &Line) -> Result<(), Memory>
        ensures { OnOk result (StaysSound (λ order lines. Derivable order lines line.now) self.old self.new) }
    {
        self.enter_line(line)?;
        self.finish()
    }

    // Enters the sides of a line. Those of a `same` or `<=` line are to be made one.
    fn enter_line(&mut self, line: &Line) -> Result<(), Memory>
        ensures { OnOk result (StaysSound (λ order lines. Derivable order lines line.now) self.old self.new) }
    {
        match line {
            Line::Var(x) | Line::Low(_, x) | Line::Up(x, _) => {
                self.enter(x)?;
                Ok(())
            }
            Line::Same(x, y) | Line::Sub(x, y) => {
                let i = self.enter(x)?;
                let j = self.enter(y)?;
                let pair = (i, j);
                self.todo.push(pair)?;
                Ok(())
            }
        }
    }

    // Enters a variable with those that it begins with, and gives its number.
    fn enter(&mut self, x: &Dtv) -> Result<u32, Memory>
        ensures sound { OnOk result (StaysSound (λ order lines. Derivable order lines (Exists x.now)) self.old self.new) }
        ensures number { IfOk result (λ n. slice_get self.new.named n ≡ Some x.now) }
        ensures kept { OnOk result (AreKept self.old.named self.new.named) }
    {
        let number = self.named.enter(x)?;
        for _ in self.class.len()..self.named.len() {
            self.begin()?;
        }
        Ok(number)
    }

    // Begins the class of the next number that has none, if there is one.
    fn begin(&mut self) -> Result<(), Memory>
        ensures sound { OnOk result ((order : Below) (lines : List Given) →
            IsSound order lines self.old → IsSound order lines self.new) }
        ensures named { OnOk result (self.new.named ≡ self.old.named) }
    {
        let alloc = *self.class.allocator();
        let next = self.class.len();
        if next >= self.named.len() {
            return Ok(());
        }
        let number = next as u32;
        self.class.push(number)?;
        self.members.push(Sequence::new(alloc))?;
        put(number, number, &mut self.members)?;
        self.labels.push(Sequence::new(alloc))?;
        self.note_last(number)
    }

    // Notes the last label of a number's variable at the class of that without it.
    fn note_last(&mut self, number: u32) -> Result<(), Memory>
        requires { number < length self.old.named }
        ensures sound { OnOk result ((order : Below) (lines : List Given) →
            IsSound order lines self.old → IsSound order lines self.new) }
        ensures named { OnOk result (self.new.named ≡ self.old.named) }
    {
        if let Origin::Longer(parent, label) = self.named.origin(number) {
            let class = self.class_of(parent);
            self.note(class, label, number)?;
        }
        Ok(())
    }

    // Behind the label of the class there is the number. If there is another already, the two are to be made one.
    pub(crate) fn note(&mut self, class: u32, label: Label, number: u32) -> Result<(), Memory>
        ensures sound { OnOk result (StaysSound (λ order lines. Leads order lines self.old.named class label number)
            self.old self.new) }
        ensures named { OnOk result (self.new.named ≡ self.old.named) }
    {
        match self.children.get(&(class, label)) {
            Some(other) => {
                let pair = (*other, number);
                self.todo.push(pair)?;
                Ok(())
            }
            None => {
                self.children.insert((class, label), number)?;
                put_label(class, label, &mut self.labels)?;
                match label {
                    Label::Load | Label::Store => self.note_pointer(class),
                    _ => Ok(()),
                }
            }
        }
    }

    // What is read and what is written through a class is to be made one.
    fn note_pointer(&mut self, class: u32) -> Result<(), Memory>
        ensures sound { OnOk result ((order : Below) (lines : List Given) →
            IsSound order lines self.old → IsSound order lines self.new) }
        ensures named { OnOk result (self.new.named ≡ self.old.named) }
    {
        let Some(load) = self.children.get(&(class, Label::Load)) else {
            return Ok(());
        };
        let Some(store) = self.children.get(&(class, Label::Store)) else {
            return Ok(());
        };
        let pair = (*load, *store);
        self.todo.push(pair)?;
        Ok(())
    }
}
