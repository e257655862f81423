// The least tree with the same words and marks.
ghost use Rattle.std.specs.Prelude.{◌≡◌, ℕ, ◌<◌, ◌^◌, All, IfOk, OnOk, [], length, map, slice_index};
ghost use Rattle.std.specs.List.{AllByRecursion};
ghost use Rattle.rt_tree.specs.Trees.{AreSame, IsMinimal, IsBreadthFirst, IsEdge, IsTree, Stand};
ghost use Rattle.rt_tree.specs.Pairs.{ArePaired};
ghost use Rattle.rt_tree.specs.Partitions.{AreClassesOf};
ghost use Rattle.rt_tree.specs.Inside.Quotients.{AreNumbers, Extends, IsEndOf, IsNumberOf, IsQuotient};

use crate::entry::Entry;
use crate::splitting::classes;
use crate::tree::Tree;
use rt_base::Memory;
use rt_lines::Label;
use std::alloc::Global;

// Classes numbered in the order in which they first stand.
#[derive(Drop)]
struct Numbering {
    // The number of each class that has stood.
    number: Vec<Option<u32>>,
    // The classes by their numbers.
    order: Vec<usize>,
}

impl Numbering {
    // No class has stood of so many.
    fn new(alloc: Global, count: usize) -> Result<Numbering, Memory>
        ensures numbers { IfOk result (λ n. AreNumbers n.number.items n.order.items) }
        ensures each { IfOk result (λ n. length n.number.items ≡ count) }
        ensures none { IfOk result (λ n. n.order.items ≡ []) }
    {
        let mut number = Vec::with_capacity(alloc, count)?;
        for _ in 0..count {
            number.push(None)?;
        }
        Ok(Numbering {
            number,
            order: Vec::new(alloc),
        })
    }

    // The number of a class, which is the next one where it hasn't stood.
    fn number_of(&mut self, class: usize) -> Result<u32, Memory>
        requires class { class < length self.old.number.items }
        requires few { length self.old.number.items < 2 ^ 32 }
        requires numbers { AreNumbers self.old.number.items self.old.order.items }
        ensures number { IfOk result (λ number. IsNumberOf self.old.order.items self.new.order.items class number) }
        ensures numbers { OnOk result (AreNumbers self.new.number.items self.new.order.items) }
        ensures each { OnOk result (length self.new.number.items ≡ length self.old.number.items) }
    {
        if let Some(number) = self.number[class] {
            return Ok(number);
        }
        let number = self.order.len() as u32;
        self.order.push(class)?;
        self.number[class] = Some(number);
        Ok(number)
    }

    // Edges to the classes of the ends of edges, by the classes' numbers.
    fn edges(
        &mut self,
        alloc: Global,
        edges: &[(Label, u32)],
        class: &[usize],
    ) -> Result<Vec<(Label, u32)>, Memory>
        requires ends { AllByRecursion (IsEdge (length class.now)) edges.now }
        requires class { All (λ c. c < length self.old.number.items) class.now }
        requires few { length self.old.number.items < 2 ^ 32 }
        requires numbers { AreNumbers self.old.number.items self.old.order.items }
        ensures image { IfOk result (λ ends. ArePaired (IsEndOf self.new.order.items class.now) ends.items edges.now) }
        ensures stand { IfOk result (λ ends.
            Stand (length self.old.order.items) (map (λ e. e.1) ends.items) (length self.new.order.items)) }
        ensures longer { OnOk result (Extends class.now self.old.order.items self.new.order.items) }
        ensures numbers { OnOk result (AreNumbers self.new.number.items self.new.order.items) }
        ensures each { OnOk result (length self.new.number.items ≡ length self.old.number.items) }
    {
        let mut ends = Vec::with_capacity(alloc, edges.len())?;
        for (label, to) in edges {
            let end = self.number_of(class[*to as usize])?;
            ends.push((*label, end))?;
        }
        Ok(ends)
    }
}

// The classes of a tree's nodes as nodes, numbered breadth first.
fn quotient_of(alloc: Global, nodes: &[Entry], class: &[usize]) -> Result<Vec<Entry>, Memory>
    requires nodes { IsTree nodes.now }
    requires class { AreClassesOf nodes.now class.now }
    ensures { IfOk result (λ least. IsQuotient nodes.now class.now least.items) }
{
    let mut numbering = Numbering::new(alloc, nodes.len())?;
    numbering.number_of(class[0])?;
    let mut least: Vec<Entry> = Vec::new(alloc);
    while least.len() < numbering.order.len() {
        let node = &nodes[numbering.order[least.len()]];
        let edges = numbering.edges(alloc, node.edges(), class)?;
        least.push(Entry::of(node.mark(), edges))?;
    }
    Ok(least)
}

/// The least tree with the same words and marks: two of its nodes differ in some word or mark, and they are numbered breadth
/// first. The error is out of memory.
pub fn minimal(alloc: Global, tree: &Tree) -> Result<Tree, Memory>
    ensures same { IfOk result (λ least. AreSame tree.now least) }
    ensures least { IfOk result (λ least. IsMinimal least) }
    ensures numbered { IfOk result (λ least. IsBreadthFirst least) }
{
    let class = classes(alloc, tree.nodes())?;
    let nodes = quotient_of(alloc, tree.nodes(), &class)?;
    Ok(Tree::of(nodes))
}
