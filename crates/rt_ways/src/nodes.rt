// Nodes of named variables, and what is behind them.
ghost use Rattle.std.specs.Prelude.{◌≡◌, ◌++◌, ◌<◌, ◌+◌, ℕ, [], Some, IfOk, OnOk, flat_map, length, slice_index_or};
ghost use Rattle.rt_shape.specs.Graphs.{node_of};
ghost use Rattle.rt_named.specs.Naming.{named as all_named};
ghost use Rattle.rt_ways.specs.Inside.Frames.{AreBehind, AreClasses, AreNodes, HaveNodes, flattened_line};
ghost use Rattle.rt_ways.specs.Pushes.{AreDistinct, AreSteps, variable_at};

use indexmap::IndexMap;
use rt_base::Memory;
use rt_lines::{Dtv, Label, Line, Word};
use rt_named::{Named, Origin};
use rt_shape::Shape;
use std::alloc::Global;

// The node of each named variable.
pub(crate) fn nodes_of(alloc: Global, named: &Named, shape: &Shape) -> Result<Vec<u32>, Memory>
    requires { HaveNodes shape.now named.now }
    ensures { IfOk result (λ nodes. AreNodes shape.now named.now (length named.now) nodes.items) }
{
    let mut nodes = Vec::new(alloc);
    for number in 0..named.len() {
        let node = node(alloc, named, shape, &nodes, number as u32);
        nodes.push(node)?;
    }
    Ok(nodes)
}

// The node of a named variable, by those of the earlier ones.
fn node(alloc: Global, named: &Named, shape: &Shape, nodes: &[u32], number: u32) -> u32
    requires number { number < length named.now }
    requires there { HaveNodes shape.now named.now }
    requires nodes { AreNodes shape.now named.now number nodes.now }
    ensures { node_of shape.now (variable_at named.now number) ≡ Some result }
{
    match find(alloc, named, shape, nodes, number) {
        Some(node) => node,
        None => unreachable!(),
    }
}

// The same, if there is one.
fn find(alloc: Global, named: &Named, shape: &Shape, nodes: &[u32], number: u32) -> Option<u32>
    requires number { number < length named.now }
    requires nodes { AreNodes shape.now named.now number nodes.now }
    ensures { result ≡ node_of shape.now (variable_at named.now number) }
{
    match named.origin(number) {
        Origin::Bare(base) => {
            let x = Dtv {
                base,
                word: Word::empty(alloc),
            };
            shape.node(&x)
        }
        Origin::Longer(parent, label) => shape.step(nodes[parent as usize], &label),
    }
}

// The class of each named variable: its node in the shape of the subtype lines, with all variables.
pub(crate) fn classes_of(alloc: Global, lines: &[Line], named: &Named) -> Result<Vec<u32>, Memory>
    requires { named.now ≡ all_named lines.now [] }
    ensures { IfOk result (λ classes. AreClasses lines.now named.now classes.items) }
{
    let flat = flattened(alloc, lines)?;
    let shape = rt_shape::of(alloc, &flat)?;
    let classes = nodes_of(alloc, named, &shape)?;
    Ok(classes)
}

// For each named variable and letter the one with that letter more.
pub(crate) fn steps_of(alloc: Global, named: &Named) -> Result<IndexMap<(u32, Label), u32>, Memory>
    requires { AreDistinct named.now }
    ensures steps { IfOk result (λ steps. AreSteps named.now steps.entries) }
    ensures few { OnOk result (length named.now < 4294967296) }
{
    let own = numbers_below(alloc, named.len())?;
    let steps = behind_of(alloc, named, &own)?;
    Ok(steps)
}

// For each group of numbers and each letter a number behind that letter of one of the group.
pub(crate) fn behind_of(
    alloc: Global,
    named: &Named,
    groups: &[u32],
) -> Result<IndexMap<(u32, Label), u32>, Memory>
    requires distinct { AreDistinct named.now }
    requires each { length groups.now ≡ length named.now }
    ensures { IfOk result (λ behind. AreBehind named.now groups.now (length named.now) behind.entries) }
{
    let mut behind = IndexMap::new(alloc);
    for number in 0..named.len() {
        enter_behind(named, groups, &mut behind, number as u32)?;
    }
    Ok(behind)
}

// Adds a number behind the letter of what it is made of.
fn enter_behind(
    named: &Named,
    groups: &[u32],
    behind: &mut IndexMap<(u32, Label), u32>,
    number: u32,
) -> Result<(), Memory>
    requires distinct { AreDistinct named.now }
    requires each { length groups.now ≡ length named.now }
    requires number { number < length named.now }
    requires behind { AreBehind named.now groups.now number behind.old.entries }
    ensures { OnOk result (AreBehind named.now groups.now (number + 1) behind.new.entries) }
{
    match named.origin(number) {
        Origin::Bare(_) => Ok(()),
        Origin::Longer(parent, label) => {
            behind.insert((groups[parent as usize], label), number)?;
            Ok(())
        }
    }
}

// The numbers below a count.
fn numbers_below(alloc: Global, count: usize) -> Result<Vec<u32>, Memory>
    requires { count < 4294967296 }
    ensures each { IfOk result (λ numbers. length numbers.items ≡ count) }
    ensures is { IfOk result (λ numbers. (i : ℕ) → i < count → slice_index_or numbers.items i 0 ≡ i) }
{
    let mut numbers = Vec::new(alloc);
    for number in 0..count {
        numbers.push(number as u32)?;
    }
    Ok(numbers)
}

// The subtype lines, and of the others that their variables exist.
fn flattened(alloc: Global, lines: &[Line]) -> Result<Vec<Line>, Memory>
    ensures { IfOk result (λ flat. flat.items ≡ flat_map flattened_line lines.now) }
{
    let mut flat = Vec::new(alloc);
    for line in lines {
        flatten(&mut flat, line)?;
    }
    Ok(flat)
}

// Adds a line, or that its variables exist.
fn flatten(flat: &mut Vec<Line>, line: &Line) -> Result<(), Memory>
    ensures { OnOk result (flat.new.items ≡ flat.old.items ++ flattened_line line.now) }
{
    match line {
        Line::Var(x) | Line::Low(_, x) | Line::Up(x, _) => flat.push(Line::Var(x.copy()?))?,
        Line::Same(x, y) => {
            flat.push(Line::Var(x.copy()?))?;
            flat.push(Line::Var(y.copy()?))?;
        }
        Line::Sub(_, _) => flat.push(line.copy()?)?,
    }
    Ok(())
}
