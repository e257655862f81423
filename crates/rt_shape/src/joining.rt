// Nodes made one by a list of what is left to do.
ghost use Rattle.std.specs.Prelude.{◌≡◌, ℕ, ◌+◌, ◌<◌, List, Contains, IfOk, OnOk};
ghost use Rattle.rt_shape.specs.Graphs.{Graph};
ghost use Rattle.rt_shape.specs.Inside.Classes.{AreClasses, Joined};
ghost use Rattle.rt_shape.specs.Inside.Joins.{AreAlone, AreEmpty, IsSound, Leads, MayEnter, MayJoin, work};

use crate::closing::{own_classes, pointed};
use crate::tree::Tree;
use rt_base::{Memory, Sequence};
use rt_lines::Label;
use std::alloc::Global;
use std::collections::HashMap;
use std::mem;

// Classes of nodes, each named by one of its nodes or by a node that was in it.
#[derive(Drop)]
struct Joining {
    // The class of each node.
    class: Vec<u32>,
    // The nodes of each class.
    members: Vec<Sequence<u32>>,
    // The letters of each class, each once, with a node that it leads to; a letter is a label, but that a store counts
    // as a load.
    letters: Vec<Sequence<(Label, u32)>>,
    // The same, by class and letter.
    first: HashMap<(u32, Label), u32>,
    // Nodes that are still to be made one.
    todo: Vec<(u32, u32)>,
}

// For each of so many classes its own node alone.
fn alone(alloc: Global, count: u32) -> Result<Vec<Sequence<u32>>, Memory>
    ensures { IfOk result (λ members. AreAlone count members.items) }
{
    let mut members = Vec::with_capacity(alloc, count as usize)?;
    for node in 0..count {
        let mut own = Sequence::new(alloc);
        own.push(node)?;
        members.push(own)?;
    }
    Ok(members)
}

// For each of so many classes no letters.
fn without_letters(alloc: Global, count: u32) -> Result<Vec<Sequence<(Label, u32)>>, Memory>
    ensures { IfOk result (λ letters. AreEmpty count letters.items) }
{
    let mut letters = Vec::with_capacity(alloc, count as usize)?;
    for _ in 0..count {
        letters.push(Sequence::new(alloc))?;
    }
    Ok(letters)
}

impl Joining {
    // Each node in a class of its own, without letters.
    fn new(alloc: Global, count: u32, pairs: &[(u32, u32)]) -> Result<Joining, Memory>
        requires { (i j : ℕ) → Contains pairs.now (i, j) → (i < count) × (j < count) }
        ensures { IfOk result (λ s. (graph : Graph) → graph.count ≡ count → IsSound graph pairs.now s) }
    {
        let class = own_classes(alloc, count)?;
        let members = alone(alloc, count)?;
        let letters = without_letters(alloc, count)?;
        let todo = pairs.to_vec(alloc)?;
        Ok(Joining {
            class,
            members,
            letters,
            first: HashMap::new(alloc),
            todo,
        })
    }

    // A letter leads from the class to the node. If it leads to another already, the two are to be made one.
    fn enter(&mut self, class: u32, letter: Label, to: u32) -> Result<(), Memory>
        requires { MayEnter self.old class letter to }
        ensures sound { OnOk result ((graph : Graph) (pairs : List (ℕ × ℕ)) → IsSound graph pairs self.old →
            Leads graph pairs class letter to → IsSound graph pairs self.new) }
        ensures work { OnOk result (work self.new ≡ work self.old + 1) }
    {
        match self.first.get(&(class, letter)) {
            Some(other) => {
                let pair = (*other, to);
                self.todo.push(pair)?;
            }
            None => {
                self.first.insert((class, letter), to)?;
                self.letters[class as usize].push((letter, to))?;
            }
        }
        Ok(())
    }

    // Renames a class into another.
    fn rename(&mut self, from: u32, to: u32) -> Result<(), Memory>
        requires { MayJoin self.old from to }
        ensures sound { OnOk result ((graph : Graph) (pairs : List (ℕ × ℕ)) → IsSound graph pairs self.old →
            Joined graph pairs from to → IsSound graph pairs self.new) }
        ensures work { OnOk result (work self.new ≡ work self.old) }
    {
        self.move_members(from, to)?;
        self.move_letters(from, to)
    }

    // Moves the nodes of a class to another.
    fn move_members(&mut self, from: u32, to: u32) -> Result<(), Memory>
        requires { MayJoin self.old from to }
        ensures sound { OnOk result ((graph : Graph) (pairs : List (ℕ × ℕ)) → IsSound graph pairs self.old →
            Joined graph pairs from to → IsSound graph pairs self.new) }
        ensures work { OnOk result (work self.new ≡ work self.old) }
    {
        let alloc = *self.class.allocator();
        let moved = mem::replace(&mut self.members[from as usize], Sequence::new(alloc));
        for node in moved.items() {
            self.class[*node as usize] = to;
            self.members[to as usize].push(*node)?;
        }
        Ok(())
    }

    // Moves the letters of a class to another.
    fn move_letters(&mut self, from: u32, to: u32) -> Result<(), Memory>
        requires { MayJoin self.old from to }
        ensures sound { OnOk result ((graph : Graph) (pairs : List (ℕ × ℕ)) → IsSound graph pairs self.old →
            Joined graph pairs from to → IsSound graph pairs self.new) }
        ensures work { OnOk result (work self.new ≡ work self.old) }
    {
        let alloc = *self.class.allocator();
        let moved = mem::replace(&mut self.letters[from as usize], Sequence::new(alloc));
        for (letter, end) in moved.items() {
            self.first.remove(&(from, *letter));
            self.enter(to, *letter, *end)?;
        }
        Ok(())
    }

    // Makes two nodes one: of their classes the one with fewer members is renamed into the other.
    fn join(&mut self, i: u32, j: u32) -> Result<(), Memory>
        requires { MayJoin self.old i j }
        ensures sound { OnOk result ((graph : Graph) (pairs : List (ℕ × ℕ)) → IsSound graph pairs self.old →
            Joined graph pairs i j →
            IsSound graph pairs self.new) }
        ensures work { OnOk result (work self.new ≡ work self.old) }
    {
        let a = self.class[i as usize];
        let b = self.class[j as usize];
        if a == b {
            return Ok(());
        }
        if self.members[a as usize].len() < self.members[b as usize].len() {
            self.rename(a, b)
        } else {
            self.rename(b, a)
        }
    }

    // Enters the edges of a tree, each from the class of its node alone.
    fn enter_edges(&mut self, tree: &Tree) -> Result<(), Memory>
        requires { (pairs : List (ℕ × ℕ)) × IsSound tree.now pairs self.old }
        ensures { OnOk result ((pairs : List (ℕ × ℕ)) → IsSound tree.now pairs self.old → IsSound tree.now pairs self.new) }
    {
        for i in 0..tree.edge_count() {
            let (from, label, to) = tree.edge(i);
            self.enter(from, pointed(label), to)?;
        }
        Ok(())
    }

    // Makes one what is left to do, until nothing is.
    fn finish(&mut self) -> Result<(), Memory>
        requires { (graph : Graph) × (pairs : List (ℕ × ℕ)) × IsSound graph pairs self.old }
        ensures { OnOk result ((graph : Graph) (pairs : List (ℕ × ℕ)) → IsSound graph pairs self.old →
            IsSound graph pairs self.new) }
    {
        while let Some((i, j)) = self.todo.pop() {
            self.join(i, j)?;
        }
        Ok(())
    }
}

/// Classes of nodes that have to be one. A letter that leads from one class to two nodes makes these one in turn, so that
/// nothing is left to be made one; callers need not rely on that. Each node changes its class at most as often as the
/// number of nodes can be halved. The error is out of memory.
pub fn joined(alloc: Global, tree: &Tree, pairs: &[(u32, u32)]) -> Result<Vec<u32>, Memory>
    requires { (i j : ℕ) → Contains pairs.now (i, j) → (i < tree.now.count) × (j < tree.now.count) }
    ensures { IfOk result (λ class. AreClasses tree.now pairs.now class.items) }
{
    let mut joining = Joining::new(alloc, tree.count(), pairs)?;
    joining.enter_edges(tree)?;
    joining.finish()?;
    Ok(joining.class)
}
