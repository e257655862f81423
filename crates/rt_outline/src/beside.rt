// Nodes by the classes of what they are made of, and by their letters.
ghost use Rattle.std.specs.Prelude.{◌≡◌, Contains, IfOk, OnOk};
ghost use Rattle.rt_outline.specs.Inside.Beside.{kind_of, list_at, listed, AreKeptIn, AreListed, IsListed};

use crate::frame::Frame;
use crate::sorting::Sorts;
use indexmap::IndexMap;
use rt_base::{Memory, Sequence};
use rt_lines::Label;
use std::alloc::Global;
use std::marker::Model;

// For a class and a letter, what is made of nodes of the class with the letter. Both letters of a pointer have one list.
#[derive(Drop)]
pub(crate) struct Beside {
    lists: IndexMap<(u32, Label), Sequence<u32>>,
}

impl Model for Beside {
    ghost use Rattle.std.specs.Prelude.{List, ℕ};
    ghost use Rattle.rt_lines.specs.declared.label.Label.{Label as Letter};

    ghost Value = { List ((ℕ × Letter) × List ℕ) };

    ghost view = { λ b. b.lists.entries };
}

impl Beside {
    // The nodes before a count. Nothing is promised of what else is listed.
    pub(crate) fn of(
        alloc: Global,
        frame: &Frame,
        sorts: &Sorts,
        count: u32,
    ) -> Result<Beside, Memory>
        ensures { IfOk result (λ beside. AreListed frame.now.origins.items sorts.now.classes.items count beside) }
    {
        let mut lists = IndexMap::new(alloc);
        for node in 0..count {
            list(alloc, frame, sorts, &mut lists, node)?;
        }
        Ok(Beside { lists })
    }

    // The nodes that may be behind a letter of nodes of a class; for a pointer's letter, behind both.
    pub(crate) fn nodes(&self, class: u32, label: Label) -> &[u32]
        ensures { result.now ≡ listed self.now class label }
    {
        match self.lists.get(&(class, kind(label))) {
            Some(nodes) => nodes.items(),
            None => &[],
        }
    }
}

// Lists a node, if it is made of one with a class.
fn list(
    alloc: Global,
    frame: &Frame,
    sorts: &Sorts,
    lists: &mut IndexMap<(u32, Label), Sequence<u32>>,
    node: u32,
) -> Result<(), Memory>
    ensures kept { OnOk result (AreKeptIn lists.old.entries lists.new.entries) }
    ensures made { OnOk result (IsListed frame.now.origins.items sorts.now.classes.items lists.new.entries node) }
{
    let Some(Some((parent, label))) = frame.origins.get(node as usize) else {
        return Ok(());
    };
    let Some(class) = sorts.class(*parent) else {
        return Ok(());
    };
    note(alloc, lists, node, (class, kind(*label)))?;
    Ok(())
}

// Adds a node to a list.
fn note(
    alloc: Global,
    lists: &mut IndexMap<(u32, Label), Sequence<u32>>,
    node: u32,
    key: (u32, Label),
) -> Result<(), Memory>
    ensures kept { OnOk result (AreKeptIn lists.old.entries lists.new.entries) }
    ensures added { OnOk result (Contains (list_at lists.new.entries key) node) }
{
    match lists.get_mut(&key) {
        Some(nodes) => nodes.push(node)?,
        None => {
            let mut nodes = Sequence::new(alloc);
            nodes.push(node)?;
            lists.insert(key, nodes)?;
        }
    }
    Ok(())
}

// The letter whose list has what is behind a letter.
fn kind(label: Label) -> Label
    ensures { result ≡ kind_of label }
{
    match label {
        Label::Store => Label::Load,
        Label::Load | Label::In(_) | Label::Out(_) | Label::Field(_, _) => label,
    }
}
