// The bases that are kept, and their first variables.
ghost use Rattle.std.specs.Prelude.{◌≡◌, ◌↔◌, ◌⊎◌, fold, Contains, IfOk, OnOk};
ghost use Rattle.indexmap.specs.IndexSet.{insert_key};
ghost use Rattle.rt_lines.specs.Equality.{base_eq};
ghost use Rattle.rt_lines.specs.declared.variable.Dtv.{Dtv};
ghost use Rattle.rt_shape.specs.Shapes.{IsShapeOf};
ghost use Rattle.rt_reduction.specs.Emits.{flow_lines, AreOfScheme};
ghost use Rattle.rt_emit.specs.Inside.Bases.{existential_base, existential_bases, fixed_base, fixed_bases, AreFirst, AreKeptBases, IsFirstOf};
ghost use Rattle.rt_emit.specs.Inside.Letters.{AreLettersOf};

use crate::letters::Letters;
use crate::queue::Queue;
use crate::writing::push_next;
use indexmap::IndexSet;
use rt_base::Memory;
use rt_lines::{Base, Dtv, Line, Word};
use rt_shape::Shape;
use std::alloc::Global;

// Adds a base, if it is an existential.
fn note_existential(bases: &mut IndexSet<Base>, base: Base) -> Result<(), Memory>
    ensures { OnOk result (bases.new.keys ≡ fold (insert_key base_eq) bases.old.keys (existential_base base)) }
{
    match base {
        Base::Exist(_) => {
            bases.insert(base)?;
            Ok(())
        }
        Base::Proc(_) | Base::Global(_) | Base::Outer(_) => Ok(()),
    }
}

// Adds a base, if it is a global or a procedure.
fn note_fixed(bases: &mut IndexSet<Base>, base: Base) -> Result<(), Memory>
    ensures { OnOk result (bases.new.keys ≡ fold (insert_key base_eq) bases.old.keys (fixed_base base)) }
{
    match base {
        Base::Proc(_) | Base::Global(_) => {
            bases.insert(base)?;
            Ok(())
        }
        Base::Exist(_) | Base::Outer(_) => Ok(()),
    }
}

// Adds the existentials that the line names.
fn note_existentials(bases: &mut IndexSet<Base>, line: &Line) -> Result<(), Memory>
    ensures { OnOk result (bases.new.keys ≡ fold (insert_key base_eq) bases.old.keys (existential_bases line.now)) }
{
    for x in line.sides() {
        note_existential(bases, x.base)?;
    }
    Ok(())
}

// Adds the globals and procedures that the line names.
fn note_all_fixed(bases: &mut IndexSet<Base>, line: &Line) -> Result<(), Memory>
    ensures { OnOk result (bases.new.keys ≡ fold (insert_key base_eq) bases.old.keys (fixed_bases line.now)) }
{
    for x in line.sides() {
        note_fixed(bases, x.base)?;
    }
    Ok(())
}

// The bases that are kept, each once: existentials that the flow lines use, and the globals and procedures that the lines
// name.
fn kept_bases(alloc: Global, lines: &[Line], flow: &[Line]) -> Result<IndexSet<Base>, Memory>
    requires scheme { AreOfScheme lines.now }
    requires flow { flow.now ≡ flow_lines lines.now }
    ensures { IfOk result (λ bases. AreKeptBases lines.now bases.keys) }
{
    let mut bases = IndexSet::new(alloc);
    for line in flow {
        note_existentials(&mut bases, line)?;
    }
    for line in lines {
        note_all_fixed(&mut bases, line)?;
    }
    Ok(bases)
}

// The same as a vector.
fn bases_of(alloc: Global, lines: &[Line], flow: &[Line]) -> Result<Vec<Base>, Memory>
    requires scheme { AreOfScheme lines.now }
    requires flow { flow.now ≡ flow_lines lines.now }
    ensures { IfOk result (λ bases. AreKeptBases lines.now bases.items) }
{
    let kept = kept_bases(alloc, lines, flow)?;
    let bases = listed(alloc, kept)?;
    Ok(bases)
}

// The bases as a vector.
fn listed(alloc: Global, bases: IndexSet<Base>) -> Result<Vec<Base>, Memory>
    ensures { IfOk result (λ list. list.items ≡ bases.keys) }
{
    bases.into_iter().collect(alloc)
}

// Puts the base's first variables in: the base itself, or the arguments and results of a procedure.
fn push_first(
    alloc: Global,
    shape: &Shape,
    letters: &Letters,
    queue: &mut Queue,
    base: Base,
) -> Result<(), Memory>
    requires { AreLettersOf shape.now letters.now }
    ensures { OnOk result ((x : Dtv) → Contains queue.new x ↔ (Contains queue.old x ⊎ IsFirstOf shape.now base x)) }
{
    let bare = Dtv {
        base,
        word: Word::empty(alloc),
    };
    let Some(node) = shape.node(&bare) else {
        return Ok(());
    };
    match base {
        Base::Proc(_) => match letters.get(&node) {
            Some(next) => push_next(queue, &bare, next),
            None => Ok(()),
        },
        Base::Global(_) | Base::Exist(_) | Base::Outer(_) => queue.push(bare),
    }
}

// The first variables of these bases.
fn first_of(
    alloc: Global,
    lines: &[Line],
    bases: &[Base],
    shape: &Shape,
    letters: &Letters,
) -> Result<Queue, Memory>
    requires kept { AreKeptBases lines.now bases.now }
    requires shape { IsShapeOf lines.now shape.now }
    requires letters { AreLettersOf shape.now letters.now }
    ensures { IfOk result (AreFirst lines.now) }
{
    let mut queue = Queue::new(alloc);
    for base in bases {
        push_first(alloc, shape, letters, &mut queue, *base)?;
    }
    Ok(queue)
}

/// The first variables of the kept bases. The error is out of memory.
pub fn first_variables(
    alloc: Global,
    lines: &[Line],
    flow: &[Line],
    shape: &Shape,
    letters: &Letters,
) -> Result<Queue, Memory>
    requires scheme { AreOfScheme lines.now }
    requires flow { flow.now ≡ flow_lines lines.now }
    requires shape { IsShapeOf lines.now shape.now }
    requires letters { AreLettersOf shape.now letters.now }
    ensures { IfOk result (AreFirst lines.now) }
{
    let bases = bases_of(alloc, lines, flow)?;
    first_of(alloc, lines, &bases, shape, letters)
}
