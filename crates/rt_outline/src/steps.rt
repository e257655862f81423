// Which node is made of which with a letter.
ghost use Rattle.std.specs.Prelude.{◌≡◌, ◌<◌, ℕ, [], Some, OnOk, length, slice_index_or};
ghost use Rattle.rt_lines.specs.declared.label.Label.{Label as Letter};
ghost use Rattle.rt_outline.specs.Frames.{IsSetAt, step_of};
ghost use Rattle.rt_outline.specs.Inside.Stepping.{group_of, place_of};

use indexmap::IndexMap;
use rt_base::Memory;
use rt_lines::Label;
use std::alloc::{AllocError, Global};
use std::marker::Model;

// Room for so many groups of letters. There are 64: with room for one more the hints of the next nodes don't fall onto the same
// lines of a cache.
const GROUPS: usize = 65;

// Of how many nodes hints of one group stand together.
const NEAR: usize = 256;

// From which node a letter leads to which, with hints that tell soon where none does, and where to look first.
#[derive(Drop)]
pub(crate) struct Steps {
    nodes: IndexMap<(u32, Label), u32>,
    // For each node a hint for each group of letters: zero where no letter of the group leads on, else one more than the
    // index of the entry that was noted last for the group. It may lead to another entry, so the entry's key is compared.
    hints: Vec<u32>,
}

impl Model for Steps {
    ghost use Rattle.std.specs.Prelude.{List, ℕ};
    ghost use Rattle.rt_lines.specs.declared.label.Label.{Label as Letter};
    ghost use Rattle.rt_outline.specs.Inside.Stepping.{AreHinted};

    ghost Value = { List ((ℕ × Letter) × ℕ) };

    ghost view = { λ s. s.nodes.entries };

    ghost invariant = { λ s. AreHinted s.hints.items s.nodes.entries };
}

impl Steps {
    // None.
    pub(crate) fn new(alloc: Global) -> Steps
        ensures { result ≡ [] }
    {
        Steps {
            nodes: IndexMap::new(alloc),
            hints: Vec::new(alloc),
        }
    }

    // The node that a letter leads to from one.
    pub(crate) fn get(&self, node: u32, label: Label) -> Option<u32>
        ensures { result ≡ step_of self.now node label }
    {
        match self.hints.get(place(node, label)) {
            Some(hint) if *hint > 0 => self.find(node, label, *hint as usize - 1),
            _ => None,
        }
    }

    // The same, looked for first in the entry at an index.
    fn find(&self, node: u32, label: Label, index: usize) -> Option<u32>
        ensures { result ≡ step_of self.now node label }
    {
        match self.nodes.get_index(index) {
            Some((key, next)) if key.0 == node && key.1 == label => Some(*next),
            _ => self.nodes.get(&(node, label)).copied(),
        }
    }

    // Notes that a letter leads from one node to another.
    pub(crate) fn insert(&mut self, from: u32, label: Label, to: u32) -> Result<(), Memory>
        ensures { OnOk result ((p : ℕ) (l : Letter) → IsSetAt (Some (from, label)) to p l self.old self.new) }
    {
        let place = place(from, label);
        widen(&mut self.hints, place)?;
        self.hints[place] = hint(self.nodes.len());
        self.nodes.insert((from, label), to)?;
        Ok(())
    }
}

// Where the hint of a node and a letter is.
fn place(node: u32, label: Label) -> usize
    ensures { result ≡ place_of node (group_of label) }
{
    (node as usize / NEAR * GROUPS + group(label)) * NEAR + node as usize % NEAR
}

// Which group a letter is of: fields by where they are, the others by their kind.
fn group(label: Label) -> usize
    ensures group { result ≡ group_of label }
    ensures below { result < 64 }
{
    match label {
        Label::Load => 0,
        Label::Store => 1,
        Label::Out(number) => 2 + (number % 2) as usize,
        Label::In(_) => 4,
        Label::Field(_, at) => 5 + at.unsigned_abs() as usize % 59,
    }
}

// The hint of the entry at an index. An index that is too large has the hint of another entry.
fn hint(index: usize) -> u32
    ensures { 0 < result }
{
    if index < u32::MAX as usize {
        index as u32 + 1
    } else {
        u32::MAX
    }
}

// Makes room for the hint at a place.
fn widen(hints: &mut Vec<u32>, place: usize) -> Result<(), Memory>
    ensures same { (n : ℕ) → slice_index_or hints.new.items n 0 ≡ slice_index_or hints.old.items n 0 }
    ensures room { OnOk result (place < length hints.new.items) }
{
    if hints.len() <= place {
        let Some(count) = place.checked_add(1) else {
            return Err(AllocError);
        };
        hints.resize(count, 0)?;
    }
    Ok(())
}
