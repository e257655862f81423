// Lines in parts, by the uses of a sign that they are.
ghost use Rattle.std.specs.Prelude.{◌≡◌, IfOk};
ghost use Rattle.rt_twins.specs.Inside.Parts.{is_of, is_other, kept_of, leads, of_low, of_sides, of_up, part_of, shape_of};

use rt_base::{Memory, Sequence};
use rt_lines::{Dtv, Line, Lines, Variance, variance_of};
use std::alloc::Global;

/// The lines that are uses of a sign, by where they are.
#[derive(Clone, Copy)]
pub enum Part {
    /// On both sides.
    Both,
    /// On the left side alone.
    Left,
    /// On the right side alone.
    Right,
}

// Whether the two differ.
fn is_other(sign: Variance, other: Variance) -> bool
    ensures { result ≡ is_other sign other }
{
    match sign {
        Variance::Co => match other {
            Variance::Co => false,
            Variance::Contra => true,
        },
        Variance::Contra => match other {
            Variance::Co => true,
            Variance::Contra => false,
        },
    }
}

// Whether the variable is a use of the sign as a left side; if not, it is one as a right side.
fn leads(sign: Variance, x: &Dtv) -> bool
    ensures { result ≡ leads sign x.now }
{
    is_other(sign, variance_of(&x.word))
}

// Whether a `<=` line is of the part, by whether its sides lead.
fn of_sides(part: Part, left: bool, right: bool) -> bool
    ensures { result ≡ of_sides part left right }
{
    match part {
        Part::Both => left && !right,
        Part::Left => left && right,
        Part::Right => !left && !right,
    }
}

// Whether a lower bound is of the part, by whether its variable leads.
fn of_low(part: Part, right: bool) -> bool
    ensures { result ≡ of_low part right }
{
    match part {
        Part::Both | Part::Left => false,
        Part::Right => !right,
    }
}

// Whether an upper bound is of the part, by whether its variable leads.
fn of_up(part: Part, left: bool) -> bool
    ensures { result ≡ of_up part left }
{
    match part {
        Part::Both | Part::Right => false,
        Part::Left => left,
    }
}

// Whether the line is of the part.
fn is_of(line: &Line, sign: Variance, part: Part) -> bool
    ensures { result ≡ is_of sign part line.now }
{
    match line {
        Line::Var(_) | Line::Same(_, _) => false,
        Line::Sub(x, y) => of_sides(part, leads(sign, x), leads(sign, y)),
        Line::Low(_, y) => of_low(part, leads(sign, y)),
        Line::Up(x, _) => of_up(part, leads(sign, x)),
    }
}

// The shape of the line.
fn shape_of(line: &Line) -> Result<Line, Memory>
    ensures { IfOk result (λ shape. shape ≡ shape_of line.now) }
{
    match line {
        Line::Var(x) | Line::Low(_, x) | Line::Up(x, _) => Ok(Line::Var(x.copy()?)),
        Line::Same(x, y) | Line::Sub(x, y) => Ok(Line::Same(x.copy()?, y.copy()?)),
    }
}

// The line if it is of the part, and else its shape.
fn kept_of(line: &Line, sign: Variance, part: Part) -> Result<Line, Memory>
    ensures { IfOk result (λ kept. kept ≡ kept_of sign part line.now) }
{
    if is_of(line, sign, part) {
        Ok(line.copy()?)
    } else {
        shape_of(line)
    }
}

/// The lines of the part, and of every other one its shape. The error is out of memory.
pub fn part_of(alloc: Global, lines: &[Line], sign: Variance, part: Part) -> Result<Lines, Memory>
    ensures { IfOk result (λ kept. kept ≡ part_of sign part lines.now) }
{
    let mut kept = Vec::with_capacity(alloc, lines.len())?;
    for line in lines {
        kept.push(kept_of(line, sign, part)?)?;
    }
    Ok(Sequence::from_vec(kept))
}
