// From which variables edges can be reached that are new.
ghost use Rattle.std.specs.Prelude.{◌≡◌, ◌<◌, false, true};
ghost use Rattle.rt_sat.specs.Pushes.{is_done, AreApart, AreTaken};

use crate::pushing::flag;
use crate::state::Edge;

// How many sweeps are made at most, so that they don't cost more than what they spare.
const SWEEPS: u32 = 100;

// Takes the flags of the variables from which a way leads to an edge behind the first ones, and where that takes many sweeps
// all flags.
pub(crate) fn spread(edges: &[Edge], first: usize, done: &mut Vec<bool>)
    ensures taken { AreTaken done.old.items done.new.items }
    ensures apart { AreApart edges.now first done.new.items }
{
    for _ in 0..SWEEPS {
        if !sweep(edges, first, done) {
            return;
        }
    }
    done.clear();
}

// Goes over the edges once, from the last to the first, and takes flags of their starts. Whether there were any to take.
fn sweep(edges: &[Edge], first: usize, done: &mut Vec<bool>) -> bool
    ensures taken { AreTaken done.old.items done.new.items }
    ensures apart { result ≡ false → AreApart edges.now first done.new.items }
{
    let mut any = false;
    for behind in 0..edges.len() {
        let index = edges.len() - 1 - behind;
        any = take(&edges[index], index, first, done, any);
    }
    any
}

// Takes the flag of the start of the edge at an index, if the edge isn't one of the first ones or its end has no flag.
// Whether there was a flag to take, or any before.
fn take(edge: &Edge, index: usize, first: usize, done: &mut Vec<bool>, any: bool) -> bool
    ensures taken { AreTaken done.old.items done.new.items }
    ensures apart { result ≡ false → (any ≡ false) × (done.new.items ≡ done.old.items) ×
        (is_done done.old.items edge.now.from.variable ≡ true →
        (index < first) × (is_done done.old.items edge.now.to.variable ≡ true)) }
{
    if !flag(done, edge.from.variable) {
        return any;
    }
    if index < first && flag(done, edge.to.variable) {
        return any;
    }
    done[edge.from.variable as usize] = false;
    true
}
