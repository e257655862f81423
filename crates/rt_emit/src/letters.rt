// The letters after the nodes of a graph.
ghost use Rattle.std.specs.Prelude.{◌≡◌, ◌↔◌, Some, Contains, IsSome, is_some, not, IfOk, OnOk};
ghost use Rattle.std.specs.Map.{lookup};
ghost use Rattle.rt_lines.specs.declared.line.Line.{Line};
ghost use Rattle.rt_lines.specs.declared.variable.Dtv.{Dtv};
ghost use Rattle.rt_lines.specs.Words.{IsLabel};
ghost use Rattle.rt_rules.specs.Rules.{HasSide};
ghost use Rattle.rt_shape.specs.Graphs.{letter_eq, step_of, Has};
ghost use Rattle.rt_shape.specs.Shapes.{IsShapeOf};
ghost use Rattle.rt_emit.specs.Inside.Letters.{letters_at, with_edges, AddsLetter, AreAfter, AreEdges, AreKept, AreLettersOf, Enters};

use indexmap::IndexMap;
use rt_base::Memory;
use rt_lines::{Dtv, Label, Line, Word};
use rt_shape::Shape;
use std::alloc::Global;
use std::collections::BTreeMap;

/// The letters after each node.
pub type Letters = BTreeMap<u32, Word>;

// Edges between nodes, by the node and the letter that they lead from.
type Edges = IndexMap<(u32, Label), u32>;

// Adds a letter to a node.
fn add_letter(alloc: Global, letters: &mut Letters, node: u32, label: Label) -> Result<(), Memory>
    requires { IsLabel label }
    ensures { OnOk result (AddsLetter node label letters.old letters.new) }
{
    let mut word = match letters.remove(&node) {
        Some(word) => word,
        None => Word::empty(alloc),
    };
    word.push(label)?;
    letters.insert(node, word)?;
    Ok(())
}

// Puts an edge where it belongs, and says whether none was there.
fn put_edge(edges: &mut Edges, node: u32, label: Label, next: u32) -> Result<bool, Memory>
    ensures edges { OnOk result (Enters node label next edges.old.entries edges.new.entries) }
    ensures none { IfOk result (λ none. none ≡ not (is_some (lookup (letter_eq (node, label)) edges.old.entries))) }
{
    let old = edges.insert((node, label), next)?;
    Ok(old.is_none())
}

// Adds an edge of the graph, and its letter to its node, where they aren't there.
fn enter(
    alloc: Global,
    edges: &mut Edges,
    letters: &mut Letters,
    node: u32,
    label: Label,
    next: u32,
) -> Result<(), Memory>
    requires label { IsLabel label }
    requires after { AreAfter edges.old.entries letters.old }
    ensures after { OnOk result (AreAfter edges.new.entries letters.new) }
    ensures edges { OnOk result (Enters node label next edges.old.entries edges.new.entries) }
{
    if put_edge(edges, node, label, next)? {
        add_letter(alloc, letters, node, label)?;
    }
    Ok(())
}

// Adds the edges that the variable's letters lead along.
fn enter_variable(
    alloc: Global,
    shape: &Shape,
    edges: &mut Edges,
    letters: &mut Letters,
    x: &Dtv,
) -> Result<(), Memory>
    requires there { Has shape.now x.now }
    requires good { AreEdges shape.now edges.old.entries }
    requires after { AreAfter edges.old.entries letters.old }
    ensures good { OnOk result (AreEdges shape.now edges.new.entries) }
    ensures after { OnOk result (AreAfter edges.new.entries letters.new) }
    ensures kept { OnOk result (AreKept edges.old.entries edges.new.entries) }
    ensures walked { OnOk result (Has (with_edges shape.now edges.new.entries) x.now) }
{
    let bare = Dtv {
        base: x.base,
        word: Word::empty(alloc),
    };
    let Some(mut node) = shape.node(&bare) else {
        return Ok(());
    };
    for label in x.word.items() {
        let Some(next) = shape.step(node, label) else {
            return Ok(());
        };
        enter(alloc, edges, letters, node, *label, next)?;
        node = next;
    }
    Ok(())
}

// Adds the edges that the letters of the line's sides lead along.
fn enter_line(
    alloc: Global,
    shape: &Shape,
    edges: &mut Edges,
    letters: &mut Letters,
    line: &Line,
) -> Result<(), Memory>
    requires there { (x : Dtv) → HasSide line.now x → Has shape.now x }
    requires good { AreEdges shape.now edges.old.entries }
    requires after { AreAfter edges.old.entries letters.old }
    ensures good { OnOk result (AreEdges shape.now edges.new.entries) }
    ensures after { OnOk result (AreAfter edges.new.entries letters.new) }
    ensures kept { OnOk result (AreKept edges.old.entries edges.new.entries) }
    ensures walked { OnOk result ((x : Dtv) → HasSide line.now x → Has (with_edges shape.now edges.new.entries) x) }
{
    match line {
        Line::Var(x) | Line::Low(_, x) | Line::Up(x, _) => {
            enter_variable(alloc, shape, edges, letters, x)
        }
        Line::Same(x, y) | Line::Sub(x, y) => {
            enter_variable(alloc, shape, edges, letters, x)?;
            enter_variable(alloc, shape, edges, letters, y)
        }
    }
}

/// The letters that lead on from each node of the shape of the lines. The error is out of memory.
pub fn letters_of(alloc: Global, lines: &[Line], shape: &Shape) -> Result<Letters, Memory>
    requires { IsShapeOf lines.now shape.now }
    ensures { IfOk result (AreLettersOf shape.now) }
{
    let mut edges = IndexMap::new(alloc);
    let mut letters = BTreeMap::new(alloc);
    for line in lines {
        enter_line(alloc, shape, &mut edges, &mut letters, line)?;
    }
    Ok(letters)
}
