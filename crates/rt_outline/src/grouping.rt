// Which numbers pairs lead between both ways.
ghost use Rattle.std.specs.Prelude.{◌≡◌, ℕ, ◌<◌, Contains, length, slice_index_or, IfOk};
ghost use Rattle.rt_components.specs.Groups.{group_at};
ghost use Rattle.rt_outline.specs.Together.{AreGroupNumbers, AreTogetherBy, HasPair, IsFilled, IsGraphOf};

use rt_base::Memory;
use rt_components::{Graph, Groups, groups};
use std::alloc::Global;

/// Nodes in classes.
#[derive(Drop)]
pub struct Classes {
    /// The number of each node's class.
    pub numbers: Vec<usize>,
    /// How many classes there are.
    pub count: usize,
}

/// The classes of so many nodes: two are in one exactly where pairs lead both ways. The error is out of memory.
pub fn together(alloc: Global, count: usize, pairs: &[(u32, u32)]) -> Result<Classes, Memory>
    requires few { count < 4294967296 }
    requires within { (v w : ℕ) → Contains pairs.now (v, w) → (v < count) × (w < count) }
    ensures classes { IfOk result (λ classes. AreTogetherBy (HasPair pairs.now) count classes.numbers.items) }
    ensures few { IfOk result (λ classes. (v : ℕ) → v < count → slice_index_or classes.numbers.items v 0 < classes.count) }
{
    let graph = graph_of(alloc, count, pairs)?;
    let groups = groups(alloc, &graph)?;
    let numbers = numbers_of(alloc, count, &groups)?;
    Ok(Classes {
        numbers,
        count: groups.len(),
    })
}

// The graph of the pairs.
fn graph_of(alloc: Global, count: usize, pairs: &[(u32, u32)]) -> Result<Graph, Memory>
    requires few { count < 4294967296 }
    requires within { (v w : ℕ) → Contains pairs.now (v, w) → (v < count) × (w < count) }
    ensures { IfOk result (λ graph. IsGraphOf pairs.now count graph) }
{
    let mut graph = Graph::new(alloc, count as u32)?;
    for pair in pairs {
        graph.add_edge(pair.0, pair.1)?;
    }
    Ok(graph)
}

// For each node the index of its group.
fn numbers_of(alloc: Global, count: usize, groups: &Groups) -> Result<Vec<usize>, Memory>
    requires { (k a : ℕ) → Contains (group_at groups.now k) a → a < count }
    ensures { IfOk result (λ numbers. AreGroupNumbers count groups.now (length groups.now) numbers.items) }
{
    let mut numbers = vec![in alloc; 0; count]?;
    for k in 0..groups.len() {
        fill(&mut numbers, groups.items()[k].items(), k);
    }
    Ok(numbers)
}

// Writes a number at each member of a group.
fn fill(numbers: &mut Vec<usize>, group: &[u32], k: usize)
    requires { (a : ℕ) → Contains group.now a → a < length numbers.old.items }
    ensures { IsFilled group.now k numbers.old.items numbers.new.items }
{
    for node in group {
        numbers[*node as usize] = k;
    }
}
