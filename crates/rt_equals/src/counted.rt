// Numbers by exact saturation.
ghost use Rattle.std.specs.Prelude.{◌↔◌, [], ◌∷◌, ◌++◌, List, IsTrue, IfOk, OnOk};
ghost use Rattle.rt_lines.specs.declared.line.Line.{Line as TheLine};
ghost use Rattle.rt_named.specs.Naming.{named};
ghost use Rattle.rt_sat.specs.declared.state.Edge.{Edge as Given};
ghost use Rattle.rt_sat.specs.Numbered.{AreWithin};
ghost use Rattle.rt_sat.specs.Tables.{IsTableOf};
ghost use Rattle.rt_equals.specs.Comparing.{AreEquals};
ghost use Rattle.rt_equals.specs.Plain.{ArePlainPairs, IsPlain};

use rt_base::Memory;
use rt_lines::Line;
use rt_outline::together;
use rt_sat::{Edge, Table, saturated};
use std::alloc::Global;

// A number for each variable that the lines name, equal exactly where each of two lies below the other.
pub(crate) fn counted(alloc: Global, lines: &[Line]) -> Result<Vec<usize>, Memory>
    ensures { IfOk result (λ numbers. AreEquals lines.now (named lines.now []) numbers.items) }
{
    let shape = rt_shape::of(alloc, lines)?;
    let table = saturated(alloc, lines, &shape, &[])?;
    numbers_of(alloc, &table)
}

// A number for each variable of a table.
fn numbers_of(alloc: Global, table: &Table) -> Result<Vec<usize>, Memory>
    requires { AreWithin table.now.named table.now.edges.items }
    ensures { IfOk result (λ numbers. (lines : List TheLine) → IsTableOf lines [] table.now.named table.now.edges.items →
        AreEquals lines table.now.named numbers.items) }
{
    let pairs = plain_pairs(alloc, &table.edges)?;
    let classes = together(alloc, table.named.len(), &pairs)?;
    Ok(classes.numbers)
}

// The pairs of variables that edges of count nought lead between which turn nothing round.
fn plain_pairs(alloc: Global, edges: &[Edge]) -> Result<Vec<(u32, u32)>, Memory>
    ensures { IfOk result (λ pairs. ArePlainPairs edges.now pairs.items) }
{
    let mut pairs = Vec::new(alloc);
    for edge in edges {
        add_pair(&mut pairs, edge)?;
    }
    Ok(pairs)
}

// Adds the pair of an edge, where it is one of these.
fn add_pair(pairs: &mut Vec<(u32, u32)>, edge: &Edge) -> Result<(), Memory>
    ensures { OnOk result ((seen : List Given) →
        ArePlainPairs seen pairs.old.items → ArePlainPairs (seen ++ edge.now ∷ []) pairs.new.items) }
{
    if is_plain(edge) {
        pairs.push((edge.from.variable, edge.to.variable))?;
    }
    Ok(())
}

// Whether an edge has the count nought and turns nothing round.
fn is_plain(edge: &Edge) -> bool
    ensures { IsTrue result ↔ IsPlain edge.now }
{
    !edge.from.contra && !edge.to.contra && edge.count.capped() == 0
}
