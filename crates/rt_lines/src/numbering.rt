// Existentials numbered in the order in which they first stand.
ghost use Rattle.std.specs.Prelude.{◌≡◌, nat_eq, fold, map, IfOk, OnOk};
ghost use Rattle.indexmap.specs.IndexSet.{insert_key};
ghost use Rattle.rt_lines.specs.Sides.{map_line, renamed};
ghost use Rattle.rt_lines.specs.Numbering.{existential_of, existentials, existentials_of, numbered, placed};

use crate::line::{Line, Lines};
use crate::variable::{Base, Dtv};
use indexmap::IndexSet;
use rt_base::{Memory, Sequence};
use std::alloc::{AllocError, Global};

/// The lines with their existentials numbered from 0 in the order in which they are first named, the left side of a line
/// before its right. The error is out of memory.
pub fn number(alloc: Global, lines: Lines) -> Result<Lines, Memory>
    ensures { IfOk result (λ r. r ≡ numbered lines) }
{
    let found = existentials(alloc, lines.items())?;
    number_by(alloc, &found, lines)
}

// The lines with each existential renamed to its place.
fn number_by(alloc: Global, found: &IndexSet<u32>, lines: Lines) -> Result<Lines, AllocError>
    ensures { IfOk result (λ r. r ≡ map (map_line (renamed (placed found.now.keys))) lines) }
{
    let mut numbered = Vec::with_capacity(alloc, lines.len())?;
    for line in lines.items() {
        numbered.push(number_line(found, line)?)?;
    }
    Ok(Sequence::from_vec(numbered))
}

// The existentials of lines, each once, in the order in which they first stand.
fn existentials(alloc: Global, lines: &[Line]) -> Result<IndexSet<u32>, AllocError>
    ensures { IfOk result (λ found. found.keys ≡ existentials lines.now) }
{
    let mut found = IndexSet::new(alloc);
    for line in lines {
        note_line(&mut found, line)?;
    }
    Ok(found)
}

// Adds the existentials of a line.
fn note_line(found: &mut IndexSet<u32>, line: &Line) -> Result<(), AllocError>
    ensures { OnOk result (found.new.keys ≡ fold (insert_key nat_eq) found.old.keys (existentials_of line.now)) }
{
    for x in line.sides() {
        note(found, x.base)?;
    }
    Ok(())
}

// Adds a base, if it is an existential.
fn note(found: &mut IndexSet<u32>, base: Base) -> Result<(), AllocError>
    ensures { OnOk result (found.new.keys ≡ fold (insert_key nat_eq) found.old.keys (existential_of base)) }
{
    match base {
        Base::Exist(n) => {
            found.insert(n)?;
            Ok(())
        }
        Base::Proc(_) | Base::Global(_) | Base::Outer(_) => Ok(()),
    }
}

fn number_line(found: &IndexSet<u32>, line: &Line) -> Result<Line, AllocError>
    ensures { IfOk result (λ r. r ≡ map_line (renamed (placed found.now.keys)) line.now) }
{
    line.map(|x| number_variable(found, x))
}

// The variable keeps its word.
fn number_variable(found: &IndexSet<u32>, x: &Dtv) -> Result<Dtv, AllocError>
    ensures { IfOk result (λ r. r ≡ renamed (placed found.now.keys) x.now) }
{
    let base = number_base(found, x.base)?;
    let word = x.word.copy()?;
    Ok(Dtv { base, word })
}

// An existential's number is its place. One that doesn't fit wants more memory than there is.
fn number_base(found: &IndexSet<u32>, base: Base) -> Result<Base, AllocError>
    ensures { IfOk result (λ r. r ≡ placed found.now.keys base) }
{
    match base {
        Base::Exist(n) => {
            let place = found.get_index_of(&n).unwrap_or(found.len());
            match u32::try_from(place) {
                Ok(place) => Ok(Base::Exist(place)),
                Err(_) => Err(AllocError),
            }
        }
        Base::Proc(_) | Base::Global(_) | Base::Outer(_) => Ok(base),
    }
}
