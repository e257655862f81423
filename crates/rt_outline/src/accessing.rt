// Loads and stores of what can be read and written through.
ghost use Rattle.std.specs.Prelude.{◌≡◌, IfOk, OnOk};
ghost use Rattle.rt_lines.specs.Words.{IsLabel};
ghost use Rattle.rt_rules.specs.Rules.{longer};
ghost use Rattle.rt_outline.specs.Accesses.{AreAdded, AreThereBehind};

use rt_base::Memory;
use rt_lines::{Dtv, Label, Line, Word};
use rt_named::nodes::is_flip;
use rt_shape::Shape;
use std::alloc::Global;

/// The variables, and behind them more that exist by the lines: loads and stores of what the lines name. Arcs from inside
/// that are given these lead between more of the variables. The error is out of memory.
pub fn with_accesses(alloc: Global, lines: &[Line], variables: Vec<Dtv>) -> Result<Vec<Dtv>, Memory>
    ensures { IfOk result (λ all. AreThereBehind lines.now variables.items all.items) }
{
    let shape = rt_shape::of(alloc, lines)?;
    let mut all = variables;
    add_lines(alloc, &shape, &mut all, lines)?;
    Ok(all)
}

// Adds loads and stores of what begins a side of a line.
fn add_lines(alloc: Global, shape: &Shape, all: &mut Vec<Dtv>, lines: &[Line]) -> Result<(), Memory>
    ensures { OnOk result (AreAdded shape.now all.old.items all.new.items) }
{
    for line in lines {
        add_line(alloc, shape, all, line)?;
    }
    Ok(())
}

// Adds loads and stores of what begins a side of the line.
fn add_line(alloc: Global, shape: &Shape, all: &mut Vec<Dtv>, line: &Line) -> Result<(), Memory>
    ensures { OnOk result (AreAdded shape.now all.old.items all.new.items) }
{
    match line {
        Line::Var(x) => add_fronts(alloc, shape, all, x),
        Line::Same(x, y) => add_both(alloc, shape, all, x, y),
        Line::Sub(x, y) => add_both(alloc, shape, all, x, y),
        Line::Low(_, x) => add_fronts(alloc, shape, all, x),
        Line::Up(x, _) => add_fronts(alloc, shape, all, x),
    }
}

// Adds loads and stores of what begins one of two variables.
fn add_both(
    alloc: Global,
    shape: &Shape,
    all: &mut Vec<Dtv>,
    x: &Dtv,
    y: &Dtv,
) -> Result<(), Memory>
    ensures { OnOk result (AreAdded shape.now all.old.items all.new.items) }
{
    add_fronts(alloc, shape, all, x)?;
    add_fronts(alloc, shape, all, y)?;
    Ok(())
}

// Adds loads and stores of what begins a variable.
fn add_fronts(alloc: Global, shape: &Shape, all: &mut Vec<Dtv>, x: &Dtv) -> Result<(), Memory>
    ensures { OnOk result (AreAdded shape.now all.old.items all.new.items) }
{
    let mut front = Dtv {
        base: x.base,
        word: Word::empty(alloc),
    };
    add_accesses(shape, all, &front)?;
    for label in x.word.items() {
        front.word.push(*label)?;
        add_accesses(shape, all, &front)?;
    }
    Ok(())
}

// Adds the load and the store of a variable, if it can be read and written through.
fn add_accesses(shape: &Shape, all: &mut Vec<Dtv>, x: &Dtv) -> Result<(), Memory>
    ensures { OnOk result (AreAdded shape.now all.old.items all.new.items) }
{
    if is_flip(shape, shape.node(x)) {
        all.push(with_letter(x, Label::Load)?)?;
        all.push(with_letter(x, Label::Store)?)?;
    }
    Ok(())
}

// The variable with a letter more.
fn with_letter(x: &Dtv, label: Label) -> Result<Dtv, Memory>
    requires { IsLabel label }
    ensures { IfOk result (λ r. r ≡ longer x.now label) }
{
    let mut word = x.word.copy()?;
    word.push(label)?;
    Ok(Dtv { base: x.base, word })
}
