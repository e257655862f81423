// What a shape says of the variables of some bases.
ghost use Rattle.rt_lines.specs.Words.{IsLabel};

use indexmap::IndexSet;
use rt_base::Memory;
use rt_lines::{Base, Dtv, Label, Line, Word};
use rt_named::{Named, Origin};
use rt_shape::Shape;
use std::alloc::Global;

// Of how many letters a variable is at most of which something is said: else variables of a long chain of nodes would take memory
// quadratic in it.
const LONG: usize = 24;

// A node of a shape, and a variable that has it.
#[derive(Drop)]
struct Place {
    node: u32,
    variable: Dtv,
}

// What is said of a shape so far.
#[derive(Drop)]
struct Description {
    // The nodes of which something is said, each once.
    places: Vec<Place>,
    // For each node its place, if it has one.
    first: Vec<Option<usize>>,
    lines: Vec<Line>,
}

impl Description {
    // Nothing, of so many nodes.
    fn new(alloc: Global, count: usize) -> Result<Description, Memory> {
        let first = vec![in alloc; None; count]?;
        Ok(Description {
            places: Vec::new(alloc),
            first,
            lines: Vec::new(alloc),
        })
    }

    // Says that a variable has a node: that it exists, where it is the first of that node, else that it has the shape of the
    // first.
    fn say(&mut self, node: u32, variable: Dtv) -> Result<(), Memory> {
        let Some(first) = self.first.get_mut(node as usize) else {
            return Ok(());
        };
        match *first {
            Some(place) => self.say_shape(place, variable),
            None => {
                *first = Some(self.places.len());
                self.say_first(node, variable)
            }
        }
    }

    // Says that a variable has the shape of that of a place.
    fn say_shape(&mut self, place: usize, variable: Dtv) -> Result<(), Memory> {
        if let Some(place) = self.places.get(place) {
            self.lines
                .push(Line::Same(variable, place.variable.copy()?))?;
        }
        Ok(())
    }

    // Says that a variable exists, which is the first of its node.
    fn say_first(&mut self, node: u32, variable: Dtv) -> Result<(), Memory> {
        self.lines.push(Line::Var(variable.copy()?))?;
        self.places.push(Place { node, variable })?;
        Ok(())
    }

    // Says which named bases there are.
    fn say_bases(&mut self, alloc: Global, named: &Named, shape: &Shape) -> Result<(), Memory> {
        for number in 0..named.len() {
            if let Origin::Bare(base) = named.origin(number as u32) {
                self.say_base(alloc, shape, base)?;
            }
        }
        Ok(())
    }

    // Says that there is a base, where it has a node.
    fn say_base(&mut self, alloc: Global, shape: &Shape, base: Base) -> Result<(), Memory> {
        let variable = bare(alloc, base);
        match shape.node(&variable) {
            Some(node) => self.say(node, variable),
            None => Ok(()),
        }
    }

    // Says which variables there are with a letter more than that of a place.
    fn follow(&mut self, shape: &Shape, letters: &[Word], place: usize) -> Result<(), Memory> {
        let Some(from) = self.places.get(place) else {
            return Ok(());
        };
        let node = from.node;
        let Some(letters) = letters.get(node as usize) else {
            return Ok(());
        };
        if from.variable.word.items().len() >= LONG {
            return Ok(());
        }
        let variable = from.variable.copy()?;
        for label in letters.items() {
            if let Some(next) = shape.step(node, label) {
                self.say(next, with_letter(&variable, *label)?)?;
            }
        }
        Ok(())
    }
}

// A variable with a letter more.
fn with_letter(variable: &Dtv, label: Label) -> Result<Dtv, Memory>
    requires { IsLabel label }
{
    let mut longer = variable.copy()?;
    longer.word.push(label)?;
    Ok(longer)
}

// Lines that say which variables of the named bases exist, and which have one shape, by the shape of lines: each variable is such
// a base, or has a letter more than the first one of its node.
pub(crate) fn described(
    alloc: Global,
    named: &Named,
    lines: &[Line],
    shape: &Shape,
) -> Result<Vec<Line>, Memory> {
    let count = shape.node_count() as usize;
    let letters = letters(alloc, lines, shape, count)?;
    let mut description = Description::new(alloc, count)?;
    description.say_bases(alloc, named, shape)?;
    for place in 0..count {
        description.follow(shape, &letters, place)?;
    }
    Ok(description.lines)
}

// The variable that is a base alone.
fn bare(alloc: Global, base: Base) -> Dtv {
    Dtv {
        base,
        word: Word::empty(alloc),
    }
}

// The letters that variables of lines have after each of so many nodes, each once.
fn letters(
    alloc: Global,
    lines: &[Line],
    shape: &Shape,
    count: usize,
) -> Result<Vec<Word>, Memory> {
    let mut letters = no_letters(alloc, count)?;
    let mut seen = IndexSet::new(alloc);
    for line in lines {
        for side in line.sides() {
            enter(alloc, shape, side, &mut seen, &mut letters)?;
        }
    }
    Ok(letters)
}

// So many empty words.
fn no_letters(alloc: Global, count: usize) -> Result<Vec<Word>, Memory> {
    let mut letters = Vec::with_capacity(alloc, count)?;
    for _ in 0..count {
        letters.push(Word::empty(alloc))?;
    }
    Ok(letters)
}

// Adds the letters of a variable to those after the nodes on its way, where they aren't there.
fn enter(
    alloc: Global,
    shape: &Shape,
    x: &Dtv,
    seen: &mut IndexSet<(u32, Label)>,
    letters: &mut Vec<Word>,
) -> Result<(), Memory> {
    let Some(mut node) = shape.node(&bare(alloc, x.base)) else {
        return Ok(());
    };
    for label in x.word.items() {
        if seen.insert((node, *label))?
            && let Some(word) = letters.get_mut(node as usize)
        {
            word.push(*label)?;
        }
        node = match shape.step(node, label) {
            Some(next) => next,
            None => return Ok(()),
        };
    }
    Ok(())
}
