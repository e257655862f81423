// What is known of the classes of variables.
ghost use Rattle.std.specs.Prelude.{◌≡◌, ◌↔◌, IsTrue, IfOk};
ghost use Rattle.rt_outline.specs.Turning.{class_at, flag_at, IsMarked};

use crate::frame::Frame;
use crate::turning::is_pointer;
use rt_base::Memory;
use std::alloc::Global;

// The classes of variables, by their numbers, and which can be read and written through; and by the numbers of classes
// at which counts matter, and of which all members have a node below and one above them that are the same for all.
#[derive(Drop)]
pub(crate) struct Sorts {
    pub(crate) classes: Vec<Option<u32>>,
    pub(crate) flips: Vec<bool>,
    pub(crate) marks: Vec<bool>,
    joined: Vec<bool>,
}

impl Sorts {
    // Counts matter at a class that can be read and written through, and where they do behind a letter. Loads and stores of
    // what can be read and written through may all have a common lower variable, and a common upper one, and so may what is
    // behind a letter of such. Nothing is promised of the marks: it's checked what they must be.
    pub(crate) fn of(
        alloc: Global,
        frame: &Frame,
        classes: Vec<Option<u32>>,
        flips: Vec<bool>,
    ) -> Result<Sorts, Memory>
        ensures classes { IfOk result (λ sorts. sorts.classes.items ≡ classes.items) }
        ensures flips { IfOk result (λ sorts. sorts.flips.items ≡ flips.items) }
    {
        let marks = vec![in alloc; false; count(&classes)]?;
        let joined = vec![in alloc; false; count(&classes)]?;
        let mut sorts = Sorts {
            classes,
            flips,
            marks,
            joined,
        };
        for _ in 0..sorts.marks.len() {
            if !sorts.mark(frame) {
                break;
            }
        }
        Ok(sorts)
    }

    // The class of a number.
    pub(crate) fn class(&self, number: u32) -> Option<u32>
        ensures { result ≡ class_at self.now.classes.items number }
    {
        match self.classes.get(number as usize) {
            Some(class) => *class,
            None => None,
        }
    }

    // Whether a number can be read and written through.
    pub(crate) fn is_flip(&self, number: usize) -> bool
        ensures { result ≡ flag_at self.now.flips.items number }
    {
        match self.flips.get(number) {
            Some(flag) => *flag,
            None => false,
        }
    }

    // Whether counts matter at a number's class.
    pub(crate) fn is_marked(&self, number: usize) -> bool
        ensures { IsTrue result ↔ IsMarked self.now.classes.items self.now.marks.items number }
    {
        match self.classes.get(number) {
            Some(Some(class)) => is_set(&self.marks, *class),
            Some(None) | None => false,
        }
    }

    // Whether the members of a class have a common lower node and a common upper one. Nothing is promised of this.
    pub(crate) fn is_joined(&self, class: u32) -> bool {
        is_set(&self.joined, class)
    }

    // Marks classes, once for each number from the last to the first. Whether one was marked.
    fn mark(&mut self, frame: &Frame) -> bool
        ensures classes { self.new.classes.items ≡ self.old.classes.items }
        ensures flips { self.new.flips.items ≡ self.old.flips.items }
    {
        let mut any = false;
        for behind in 0..self.classes.len() {
            let number = self.classes.len() - 1 - behind;
            if self.mark_at(frame, number) {
                any = true;
            }
        }
        any
    }

    // Marks the class of a number, and of what that is made of. Whether one was marked.
    fn mark_at(&mut self, frame: &Frame, number: usize) -> bool
        ensures classes { self.new.classes.items ≡ self.old.classes.items }
        ensures flips { self.new.flips.items ≡ self.old.flips.items }
    {
        let mut any = self.is_flip(number) && set_at(&mut self.marks, self.classes.get(number));
        let Some(Some((parent, label))) = frame.origins.get(number) else {
            return any;
        };
        if self.is_marked(number) && set_at(&mut self.marks, self.classes.get(*parent as usize)) {
            any = true;
        }
        if is_pointer(*label)
            && self.is_flip(*parent as usize)
            && set_at(&mut self.joined, self.classes.get(number))
        {
            any = true;
        }
        any
    }
}

// How many classes there are.
fn count(classes: &[Option<u32>]) -> usize {
    let mut count = 0;
    for class in classes {
        if let Some(class) = class
            && *class as usize >= count
        {
            count = *class as usize + 1;
        }
    }
    count
}

// Whether there is a flag of the number, and it is set.
fn is_set(flags: &[bool], number: u32) -> bool
    ensures { result ≡ flag_at flags.now number }
{
    match flags.get(number as usize) {
        Some(flag) => *flag,
        None => false,
    }
}

// Sets the flag of a class, if there is one that isn't set. Whether it was.
fn set_at(flags: &mut Vec<bool>, class: Option<&Option<u32>>) -> bool {
    let Some(Some(class)) = class else {
        return false;
    };
    let class = *class as usize;
    if class >= flags.len() || flags[class] {
        return false;
    }
    flags[class] = true;
    true
}
