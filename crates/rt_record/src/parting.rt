// Fields as existentials of their own.
ghost use Rattle.std.specs.Prelude.{◌≡◌, ◌<◌, ◌++◌, map, flat_map, drop, take, IfOk, IfSome, MatchOption, OnOk};
ghost use Rattle.rt_lines.specs.FlowCounts.{flow_count};
ghost use Rattle.rt_record.specs.Records.{moved as is_moved, moved_line as line_moved, move as move_of, moves, flow_sides, shape_line};
ghost use Rattle.rt_record.specs.Slots.{front as front_of, numbers_from, letters, HasNoneSplit, IsSplit};

use crate::records::spoiled;
use crate::slots::{Fields, number_fields};
use rt_base::{Memory, Sequence};
use rt_lines::{Base, Dtv, Line, Lines, Word};
use std::alloc::Global;

/// The lines with an existential for each field of existentials that do nothing but hold fields, and behind them the shapes
/// of these. The fields are numbered as they come first in `<=` lines and bounds, from the number above all existentials of
/// the lines on; one whose number would not fit stays where it is. So there are as many `<=` lines and bounds as before,
/// with fewer letters. None where no field gets a number. It takes time nearly linear in the lines. The error is out of
/// memory.
pub fn split(alloc: Global, lines: &[Line]) -> Result<Option<Lines>, Memory>
    ensures split { IfOk result (λ after. MatchOption after (HasNoneSplit lines.now) (IsSplit lines.now)) }
    ensures count { IfOk result (λ after. IfSome after (λ left. flow_count left ≡ flow_count lines.now)) }
    ensures smaller { IfOk result (λ after. IfSome after (λ left. letters left < letters lines.now)) }
{
    let spoiled = spoiled(alloc, lines)?;
    let fields = number_fields(alloc, &spoiled, lines)?;
    if fields.order.is_empty() {
        return Ok(None);
    }
    let mut left = moved_lines(alloc, &fields, lines)?;
    add_shapes(alloc, &fields, lines, &mut left)?;
    if left.len() == lines.len() {
        return Ok(None);
    }
    Ok(Some(left))
}

// The lines with their fields moved.
fn moved_lines(alloc: Global, fields: &Fields, lines: &[Line]) -> Result<Lines, Memory>
    ensures { IfOk result (λ left. left ≡ map (line_moved (numbers_from fields.now.first fields.now.order.keys)) lines.now) }
{
    let mut left = Sequence::new(alloc);
    for line in lines {
        left.push(moved_line(alloc, fields, line)?)?;
    }
    Ok(left)
}

// The line with its fields moved.
fn moved_line(alloc: Global, fields: &Fields, line: &Line) -> Result<Line, Memory>
    ensures { IfOk result (λ left. left ≡ line_moved (numbers_from fields.now.first fields.now.order.keys) line.now) }
{
    match line {
        Line::Var(x) => Ok(Line::Var(x.copy()?)),
        Line::Same(x, y) => Ok(Line::Same(x.copy()?, y.copy()?)),
        Line::Sub(x, y) => Ok(Line::Sub(moved(alloc, fields, x)?, moved(alloc, fields, y)?)),
        Line::Low(k, x) => Ok(Line::Low(*k, moved(alloc, fields, x)?)),
        Line::Up(x, k) => Ok(Line::Up(moved(alloc, fields, x)?, *k)),
    }
}

// The variable with its field moved.
fn moved(alloc: Global, fields: &Fields, x: &Dtv) -> Result<Dtv, Memory>
    ensures { IfOk result (λ y. y ≡ is_moved (numbers_from fields.now.first fields.now.order.keys) x.now) }
{
    let Some(number) = fields.number_of(x) else {
        return Ok(x.copy()?);
    };
    let word = rest(alloc, &x.word)?;
    Ok(Dtv {
        base: Base::Exist(number),
        word,
    })
}

// The letters behind the field.
fn rest(alloc: Global, word: &Word) -> Result<Word, Memory>
    ensures { IfOk result (λ rest. rest ≡ drop 2 word.now) }
{
    match word.items() {
        [_, _, rest @ ..] => Ok(Word::from_slice(alloc, rest)?),
        _ => Ok(Word::empty(alloc)),
    }
}

// The variable up to its field.
fn front(alloc: Global, x: &Dtv) -> Result<Dtv, Memory>
    ensures { IfOk result (λ y. y ≡ front_of x.now) }
{
    let word = begun(alloc, &x.word)?;
    Ok(Dtv { base: x.base, word })
}

// The first two letters.
fn begun(alloc: Global, word: &Word) -> Result<Word, Memory>
    ensures { IfOk result (λ begun. begun ≡ take 2 word.now) }
{
    match word.items() {
        [_, _, ..] => Ok(Word::from_slice(alloc, &word.items()[..2])?),
        letters => Ok(Word::from_slice(alloc, letters)?),
    }
}

// Adds the shapes of the fields that move.
fn add_shapes(
    alloc: Global,
    fields: &Fields,
    lines: &[Line],
    left: &mut Lines,
) -> Result<(), Memory>
    ensures { OnOk result (left.new ≡ left.old ++ map shape_line (moves (numbers_from fields.now.first fields.now.order.keys) lines.now)) }
{
    for line in lines {
        add_shapes_of(alloc, fields, line, left)?;
    }
    Ok(())
}

// Adds the shapes of the fields that move in the line.
fn add_shapes_of(
    alloc: Global,
    fields: &Fields,
    line: &Line,
    left: &mut Lines,
) -> Result<(), Memory>
    ensures { OnOk result (left.new ≡ left.old ++
        map shape_line (flat_map (move_of (numbers_from fields.now.first fields.now.order.keys)) (flow_sides line.now))) }
{
    match line {
        Line::Var(_) | Line::Same(_, _) => Ok(()),
        Line::Sub(x, y) => {
            add_shape(alloc, fields, x, left)?;
            add_shape(alloc, fields, y, left)?;
            Ok(())
        }
        Line::Low(_, x) | Line::Up(x, _) => add_shape(alloc, fields, x, left),
    }
}

// Adds the shape of the variable's field, if that moves.
fn add_shape(alloc: Global, fields: &Fields, x: &Dtv, left: &mut Lines) -> Result<(), Memory>
    ensures { OnOk result (left.new ≡ left.old ++
        map shape_line (move_of (numbers_from fields.now.first fields.now.order.keys) x.now)) }
{
    let Some(number) = fields.number_of(x) else {
        return Ok(());
    };
    let own = Dtv {
        base: Base::Exist(number),
        word: Word::empty(alloc),
    };
    left.push(Line::Same(own, front(alloc, x)?))?;
    Ok(())
}
