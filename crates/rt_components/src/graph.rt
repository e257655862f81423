// Directed graphs.
ghost use Rattle.std.specs.Prelude.{◌≡◌, ◌∷◌, ◌++◌, ◌<◌, IfOk, OnOk, OnErr, [], All, length, replicate, slice_set};
ghost use Rattle.rt_components.specs.Graphs.{successors};

use rt_base::{Memory, Sequence};
use std::alloc::Global;
use std::marker::Model;

/// A directed graph. Its nodes are the numbers below a count. Contracts see for each node the list of the nodes that edges
/// lead to; a node may stand there more than once, and the node itself may too.
#[derive(Drop)]
pub struct Graph {
    successors: Vec<Sequence<u32>>,
}

impl Model for Graph {
    ghost use Rattle.std.specs.Prelude.{ℕ, List};

    ghost Value = { List (List ℕ) };

    ghost use Rattle.rt_components.specs.Graphs.{IsGraph};

    ghost view = { λ g. g.successors.items };

    ghost invariant = { λ g. IsGraph g.successors.items };
}

impl Graph {
    /// The graph of so many nodes without edges. The error is out of memory.
    pub fn new(alloc: Global, count: u32) -> Result<Graph, Memory>
        ensures { IfOk result (λ graph. graph ≡ replicate count []) }
    {
        Ok(Graph {
            successors: empty_lists(alloc, count as usize)?,
        })
    }

    /// How many nodes there are.
    pub fn count(&self) -> u32
        ensures { result ≡ length self.now }
    {
        self.successors.len() as u32
    }

    /// Adds an edge from the one node to the other. When out of memory, the graph is as it was.
    pub fn add_edge(&mut self, from: u32, to: u32) -> Result<(), Memory>
        requires from { from < length self.old }
        requires to { to < length self.old }
        ensures ok { OnOk result (self.new ≡ slice_set self.old from (successors self.old from ++ to ∷ [])) }
        ensures err { OnErr result (self.new ≡ self.old) }
    {
        self.successors[from as usize].push(to)
    }

    /// The nodes that edges lead to from a node, in the order in which the edges were added.
    pub fn successors(&self, node: u32) -> &[u32]
        requires { node < length self.now }
        ensures value { result.now ≡ successors self.now node }
        ensures nodes { All (λ to. to < length self.now) result.now }
    {
        self.successors[node as usize].items()
    }
}

/// So many empty lists. The error is out of memory.
pub(crate) fn empty_lists<T: Drop>(alloc: Global, count: usize) -> Result<Vec<Sequence<T>>, Memory>
    ensures { IfOk result (λ lists. lists.items ≡ replicate count []) }
{
    let mut lists = Vec::with_capacity(alloc, count)?;
    for _ in 0..count {
        lists.push(Sequence::new(alloc))?;
    }
    Ok(lists)
}
