// The shape written anew, variable by variable.
ghost use Rattle.std.specs.Prelude.{◌≡◌, ◌↔◌, ◌⊎◌, ◌+◌, ◌≤◌, ℕ, nat_eq, cond, [], List, length, Contains, IfOk, OnOk};
ghost use Rattle.rt_lines.specs.declared.line.Line.{Line};
ghost use Rattle.rt_lines.specs.declared.variable.Dtv.{Dtv};
ghost use Rattle.rt_lines.specs.Orders.{Below};
ghost use Rattle.rt_lines.specs.Words.{IsLabel};
ghost use Rattle.rt_rules.specs.Rules.{longer};
ghost use Rattle.rt_shape.specs.Graphs.{Has};
ghost use Rattle.rt_shape.specs.Shapes.{IsShapeOf};
ghost use Rattle.rt_reduction.specs.Emits.{flow_lines, AreOfScheme, AreShapeLines};
ghost use Rattle.rt_emit.specs.Inside.Bases.{AreFirst};
ghost use Rattle.rt_emit.specs.Inside.Letters.{letters_at, AreLettersOf};
ghost use Rattle.rt_emit.specs.Inside.Writing.{line_by, total, IsNext, IsTurn};

use crate::bases::first_variables;
use crate::letters::{Letters, letters_of};
use crate::queue::Queue;
use rt_base::Memory;
use rt_lines::{Dtv, Label, Line, Word};
use rt_shape::Shape;
use std::alloc::Global;
use std::collections::BTreeMap;

// The words of nodes.
type Words = BTreeMap<u32, Dtv>;

// The variable with a letter more.
fn longer(x: &Dtv, label: Label) -> Result<Dtv, Memory>
    requires { IsLabel label }
    ensures { IfOk result (λ r. r ≡ longer x.now label) }
{
    let mut word = x.word.copy()?;
    word.push(label)?;
    Ok(Dtv { base: x.base, word })
}

// The line that says the shape of a variable by its word.
fn line_by(x: Dtv, word: &Dtv) -> Result<Line, Memory>
    ensures { IfOk result (λ line. line ≡ line_by x word.now) }
{
    if x == *word {
        Ok(Line::Var(x))
    } else {
        Ok(Line::Same(x, word.copy()?))
    }
}

/// Puts the variables in that have one of the letters more. The error is out of memory.
pub fn push_next(queue: &mut Queue, x: &Dtv, letters: &Word) -> Result<(), Memory>
    ensures holds { OnOk result ((y : Dtv) → Contains queue.new y ↔ (Contains queue.old y ⊎ IsNext x.now letters.now y)) }
    ensures length { OnOk result (length queue.new ≤ length queue.old + length letters.now) }
{
    for label in letters.items() {
        queue.push(longer(x, *label)?)?;
    }
    Ok(())
}

// Takes the letters away from the node, and puts the variables in that have one of them more than its variable.
fn push_letters(letters: &mut Letters, queue: &mut Queue, node: u32, x: &Dtv) -> Result<(), Memory>
    ensures letters { OnOk result ((m : ℕ) → letters_at letters.new m ≡ cond (nat_eq node m) [] (letters_at letters.old m)) }
    ensures holds { OnOk result ((y : Dtv) →
        Contains queue.new y ↔ (Contains queue.old y ⊎ IsNext x.now (letters_at letters.old node) y)) }
    ensures less { OnOk result (total letters.new + length queue.new ≤ total letters.old + length queue.old) }
{
    match letters.remove(&node) {
        Some(next) => push_next(queue, x, &next),
        None => Ok(()),
    }
}

// Writes the line of a variable. Where its node has no word yet, the variable is the word.
fn turn(
    shape: &Shape,
    letters: &mut Letters,
    words: &mut Words,
    queue: &mut Queue,
    written: &mut Vec<Line>,
    x: Dtv,
) -> Result<(), Memory>
    ensures turn { OnOk result (Has shape.now x →
        IsTurn shape.now x letters.old letters.new words.old words.new queue.old queue.new written.old.items written.new.items) }
    ensures less { OnOk result (total letters.new + length queue.new ≤ total letters.old + length queue.old) }
{
    let Some(node) = shape.node(&x) else {
        return Ok(());
    };
    if let Some(word) = words.get(&node) {
        written.push(line_by(x, word)?)?;
        return Ok(());
    }
    push_letters(letters, queue, node, &x)?;
    words.insert(node, x.copy()?)?;
    written.push(Line::Var(x))?;
    Ok(())
}

// Writes the lines of the variables in the queue, and of those that come after them.
fn write_queued(
    alloc: Global,
    shape: &Shape,
    letters: &mut Letters,
    queue: &mut Queue,
) -> Result<Vec<Line>, Memory>
    requires { AreLettersOf shape.now letters.old }
    ensures { IfOk result (λ written. (lines : List Line) (order : Below) → IsShapeOf lines shape.now → AreFirst lines queue.old →
        AreShapeLines order lines written.items) }
{
    let mut words = BTreeMap::new(alloc);
    let mut written = Vec::new(alloc);
    while let Some(x) = queue.pop() {
        turn(shape, letters, &mut words, queue, &mut written, x)?;
    }
    Ok(written)
}

// The lines of the shape over kept bases, where the shape is that of the lines.
fn lines_of(
    alloc: Global,
    lines: &[Line],
    flow: &[Line],
    shape: &Shape,
) -> Result<Vec<Line>, Memory>
    requires scheme { AreOfScheme lines.now }
    requires flow { flow.now ≡ flow_lines lines.now }
    requires shape { IsShapeOf lines.now shape.now }
    ensures { IfOk result (λ written. (order : Below) → AreShapeLines order lines.now written.items) }
{
    let mut letters = letters_of(alloc, lines, shape)?;
    let mut queue = first_variables(alloc, lines, flow, shape, &letters)?;
    write_queued(alloc, shape, &mut letters, &mut queue)
}

/// The lines of the shape over kept bases, in the order of their variables: each class of variables of one shape has the
/// first of them as its word. The flow lines are the `<=` lines and bounds of the tidied lines. The error is out of
/// memory.
pub fn shape_lines(alloc: Global, lines: &[Line], flow: &[Line]) -> Result<Vec<Line>, Memory>
    requires scheme { AreOfScheme lines.now }
    requires flow { flow.now ≡ flow_lines lines.now }
    ensures { IfOk result (λ written. (order : Below) → AreShapeLines order lines.now written.items) }
{
    let shape = rt_shape::of(alloc, lines)?;
    lines_of(alloc, lines, flow, &shape)
}
