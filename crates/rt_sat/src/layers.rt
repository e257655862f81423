// Edges to which pushed ones are added.
ghost use Rattle.std.specs.Prelude.{◌≡◌, ◌++◌, ◌∷◌, [], length, IfOk, OnOk};
ghost use Rattle.rt_sat.specs.Pushes.{pushed_of, AreIndexed};
ghost use Rattle.rt_sat.specs.Searches.{IsSearch, IsWithin};

use crate::count::Count;
use crate::indexing::{enter, indexed};
use crate::reached::{Reached, key};
use crate::search::{go_on, search};
use crate::state::{Edge, State};
use rt_base::{Memory, Sequence};
use std::alloc::Global;

// The edges of lines, and behind them the pushed ones.
#[derive(Drop)]
pub(crate) struct Layers {
    pub(crate) edges: Vec<Edge>,
    // How many of the edges are those of lines.
    pub(crate) lines: usize,
    // By the key of each state the indices of the edges that leave it, among all edges.
    pub(crate) out: Vec<Sequence<usize>>,
    // The same among the pushed ones.
    pub(crate) out_pushed: Vec<Sequence<usize>>,
}

impl Layers {
    // The edges of lines, and behind them pushed ones.
    pub(crate) fn new(alloc: Global, lines: Vec<Edge>, pushed: Vec<Edge>) -> Result<Layers, Memory>
        ensures edges { IfOk result (λ layers. layers.edges.items ≡ lines.items ++ pushed.items) }
        ensures lines { IfOk result (λ layers. layers.lines ≡ length lines.items) }
        ensures indexed { IfOk result (λ layers. AreIndexed layers) }
    {
        let out_pushed = indexed(alloc, &pushed)?;
        let count = lines.len();
        let edges = joined(lines, pushed)?;
        let out = indexed(alloc, &edges)?;
        Ok(Layers {
            edges,
            lines: count,
            out,
            out_pushed,
        })
    }

    // Puts a pushed edge behind the others.
    pub(crate) fn push(&mut self, alloc: Global, edge: Edge) -> Result<(), Memory>
        requires { AreIndexed self.old }
        ensures edges { OnOk result (self.new.edges.items ≡ self.old.edges.items ++ edge ∷ []) }
        ensures lines { OnOk result (self.new.lines ≡ self.old.lines) }
        ensures indexed { OnOk result (AreIndexed self.new) }
    {
        let key = key(edge.from);
        let index = self.edges.len();
        enter(alloc, &mut self.out, key, index)?;
        enter(alloc, &mut self.out_pushed, key, index - self.lines)?;
        self.edges.push(edge)?;
        Ok(())
    }

    // The least counts of ways from a state along all edges.
    pub(crate) fn search(
        &self,
        alloc: Global,
        start: State,
        most: Option<u32>,
        found: &mut Reached,
    ) -> Result<(), Memory>
        requires { AreIndexed self.now }
        ensures { OnOk result (IsSearch most self.now.edges.items start found.new) }
    {
        search(alloc, &self.edges, &self.out, start, most, found)?;
        Ok(())
    }

    // The least counts of ways from a state along pushed edges.
    pub(crate) fn search_pushed(
        &self,
        alloc: Global,
        start: State,
        most: Option<u32>,
        found: &mut Reached,
    ) -> Result<(), Memory>
        requires { AreIndexed self.now }
        ensures { OnOk result (IsSearch most (pushed_of self.now) start found.new) }
    {
        let pushed = &self.edges[self.lines..];
        search(alloc, pushed, &self.out_pushed, start, most, found)?;
        Ok(())
    }

    // Puts down a count of a state, and goes on from there along pushed edges.
    pub(crate) fn go_on(
        &self,
        alloc: Global,
        to: State,
        count: Count,
        most: Option<u32>,
        found: &mut Reached,
    ) -> Result<(), Memory>
        requires { AreIndexed self.now }
        ensures { OnOk result (IsWithin found.new to count) }
    {
        let pushed = &self.edges[self.lines..];
        go_on(alloc, pushed, &self.out_pushed, to, count, most, found)?;
        Ok(())
    }
}

// The edges, and behind them others.
fn joined(edges: Vec<Edge>, more: Vec<Edge>) -> Result<Vec<Edge>, Memory>
    ensures { IfOk result (λ joined. joined.items ≡ edges.items ++ more.items) }
{
    let mut joined = edges;
    joined.extend(more)?;
    Ok(joined)
}
