// Classes by splitting blocks (Hopcroft): the fast part of finding the classes of nodes. What it leaves, the rounds of refining do.
ghost use Rattle.std.specs.Prelude.{◌≡◌, ℕ, ◌+◌, ◌<◌, ◌^◌, ◌++◌, All, IfOk, OnOk, length, map};
ghost use Rattle.rt_tree.specs.Trees.{Nodes, AreLike, IsNode};
ghost use Rattle.rt_tree.specs.Partitions.{AreClassesOf, AreToldNodes};
ghost use Rattle.rt_tree.specs.Inside.Splits.{AreBlocks, AreInto, AreTold, IsIn, links_of};

use crate::blocks::Blocks;
use crate::entry::Entry;
use crate::links::{Link, first_labels, into_of, links_of};
use crate::refining::{finer, one_class, refined};
use crate::waiting::Waiting;
use rt_base::{Memory, Sequence};
use std::alloc::Global;

// Splits blocks by what leads to one of them.
fn split_by(
    alloc: Global,
    into: &[Sequence<usize>],
    blocks: &mut Blocks,
    waiting: &mut Waiting,
    block: usize,
) -> Result<(), Memory>
    requires blocks { AreBlocks (length into.now) blocks.old.class.items blocks.old.members.items blocks.old.twin.items }
    requires within { (u x : ℕ) → IsIn into.now u x → x < length into.now }
    ensures blocks { OnOk result (AreBlocks (length into.now) blocks.new.class.items blocks.new.members.items blocks.new.twin.items) }
    ensures told { OnOk result ((nodes : Nodes) → All (IsNode (length nodes)) nodes →
        AreInto (length nodes) (links_of nodes) into.now →
        AreTold nodes blocks.old.class.items → AreTold nodes blocks.new.class.items) }
{
    if block >= blocks.count() {
        return Ok(());
    }
    let led = blocks.led(alloc, into, block)?;
    let moves = blocks.split(alloc, &led)?;
    waiting.note(&moves)?;
    Ok(())
}

/// Classes that tell items apart where what leads to a class does. Items that are alike stay in one class. The error is out of
/// memory.
pub(crate) fn split(
    alloc: Global,
    into: &[Sequence<usize>],
    class: Vec<usize>,
) -> Result<Vec<usize>, Memory>
    requires class { All (λ b. b < length class.items) class.items }
    requires each { length into.now ≡ length class.items }
    requires within { (u x : ℕ) → IsIn into.now u x → x < length class.items }
    ensures each { IfOk result (λ split. length split.items ≡ length class.items) }
    ensures told { IfOk result (λ split. (nodes : Nodes) → All (IsNode (length nodes)) nodes →
        AreInto (length nodes) (links_of nodes) into.now → AreTold nodes class.items → AreTold nodes split.items) }
{
    let mut waiting = Waiting::of(alloc, &class)?;
    let mut blocks = Blocks::of(alloc, class)?;
    for _ in 0..usize::MAX {
        let Some(block) = waiting.next() else {
            break;
        };
        split_by(alloc, into, &mut blocks, &mut waiting, block)?;
    }
    Ok(blocks.class)
}

// Adds the classes of edges, which come behind those of nodes.
fn append(class: &mut Vec<usize>, labels: &[usize]) -> Result<(), Memory>
    requires { All (λ k. k < length labels.now) labels.now }
    ensures { OnOk result (class.new.items ≡ class.old.items ++ map (λ k. length class.old.items + k) labels.now) }
{
    let count = class.len();
    for first in labels {
        class.push(count + *first)?;
    }
    Ok(())
}

// The first classes of items: nodes by their marks and labels, edges by their label.
fn first_classes(alloc: Global, nodes: &[Entry], links: &[Link]) -> Result<Vec<usize>, Memory>
    requires nodes { All (IsNode (length nodes.now)) nodes.now }
    requires links { links.now ≡ links_of nodes.now }
    ensures each { IfOk result (λ class. length class.items ≡ length nodes.now + length links.now) }
    ensures within { IfOk result (λ class. All (λ b. b < length class.items) class.items) }
    ensures told { IfOk result (λ class. AreTold nodes.now class.items) }
{
    let one = one_class(alloc, nodes.len())?;
    let mut class = finer(alloc, nodes, &one)?;
    let labels = first_labels(alloc, links)?;
    append(&mut class, &labels)?;
    Ok(class)
}

/// Classes of nodes, of which nodes that are alike have one. The error is out of memory.
pub(crate) fn told(alloc: Global, nodes: &[Entry]) -> Result<Vec<usize>, Memory>
    requires numbered { length nodes.now < 2 ^ 32 }
    requires nodes { All (IsNode (length nodes.now)) nodes.now }
    ensures each { IfOk result (λ class. length class.items ≡ length nodes.now) }
    ensures told { IfOk result (λ class. AreToldNodes nodes.now class.items) }
{
    let links = links_of(alloc, nodes)?;
    let into = into_of(alloc, nodes.len(), &links)?;
    let first = first_classes(alloc, nodes, &links)?;
    let mut class = split(alloc, &into, first)?;
    class.truncate(nodes.len());
    Ok(class)
}

/// The classes of nodes that have the same words and marks after them, each named by its first node. The error is out of memory.
pub(crate) fn classes(alloc: Global, nodes: &[Entry]) -> Result<Vec<usize>, Memory>
    requires numbered { length nodes.now < 2 ^ 32 }
    requires nodes { All (IsNode (length nodes.now)) nodes.now }
    ensures { IfOk result (λ class. AreClassesOf nodes.now class.items) }
{
    let told = told(alloc, nodes)?;
    refined(alloc, nodes, &told)
}
