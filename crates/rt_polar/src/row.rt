// Lines and variables, with what is known of them.
ghost use Rattle.std.specs.Prelude.{◌≡◌, ◌≢◌, Some, IsTrue, IfOk, ◌↔◌};
ghost use Rattle.rt_lines.specs.declared.label.Variance.{Variance as Sign};
ghost use Rattle.rt_lines.specs.declared.variable.Dtv.{Dtv as Variable};
ghost use Rattle.rt_lines.specs.declared.variable.Base.TheVariants.{Exist as Existential};
ghost use Rattle.rt_lines.specs.declared.line.Line.TheVariants.{Var as Exists, Same as OneShape, Sub as Below};
ghost use Rattle.rt_rules.specs.Put.{HasUse, put as put_there, use_of};
ghost use Rattle.rt_polar.specs.Inside.Digests.{digest_of, summary};
ghost use Rattle.rt_polar.specs.Inside.Places.{moved};
ghost use Rattle.rt_polar.specs.Tidied.{without_self};

use crate::digest::{Summary, form_code, mixed};
use rt_base::Memory;
use rt_lines::{Base, Dtv, Line, Variance};
use std::marker::Model;

/// A variable, which contracts see alone, with what is known of it.
#[derive(Drop)]
pub struct KnownSide {
    variable: Dtv,
    known: Summary,
}

impl Model for KnownSide {
    ghost use Rattle.std.specs.Prelude.{◌≡◌};
    ghost use Rattle.rt_lines.specs.declared.variable.Dtv.{Dtv as Variable};
    ghost use Rattle.rt_polar.specs.Inside.Digests.{summary};

    ghost Value = { Variable };

    ghost view = { λ s. s.variable };

    ghost invariant = { λ s. s.known ≡ summary s.variable };
}

impl KnownSide {
    // The variable, with what is known of it.
    fn new(variable: Dtv, known: Summary) -> KnownSide
        requires { known ≡ summary variable }
        ensures { result ≡ variable }
    {
        KnownSide { variable, known }
    }

    /// What it belongs to.
    pub fn base(&self) -> Base
        ensures { result ≡ self.now.base }
    {
        self.variable.base
    }

    /// An equal side. The error is out of memory.
    pub fn copy(&self) -> Result<KnownSide, Memory>
        ensures { IfOk result (λ copy. copy ≡ self.now) }
    {
        Ok(KnownSide {
            variable: self.variable.copy()?,
            known: self.known,
        })
    }

    // The side with another one in the existential's place. Of that one no letter is read.
    fn with(self, v: u32, other: KnownSide) -> Result<KnownSide, Memory>
        ensures { IfOk result (λ r. r ≡ put_there v other self) }
    {
        if self.variable.base != Base::Exist(v) {
            return Ok(self);
        }
        let KnownSide {
            mut variable,
            known,
        } = other;
        variable.word.append(&self.variable.word)?;
        Ok(KnownSide {
            variable,
            known: known.followed_by(&self.variable.word),
        })
    }
}

/// A line, which contracts see alone, with what is known of its first and its last side.
#[derive(Drop)]
pub struct Row {
    line: Line,
    first: Summary,
    last: Summary,
}

impl Model for Row {
    ghost use Rattle.std.specs.Prelude.{◌≡◌};
    ghost use Rattle.rt_lines.specs.declared.line.Line.{Line as TheLine};
    ghost use Rattle.rt_polar.specs.Inside.Digests.{summary, first_side, last_side};

    ghost Value = { TheLine };

    ghost view = { λ r. r.line };

    ghost invariant = { λ r. (r.first ≡ summary (first_side r.line)) × (r.last ≡ summary (last_side r.line)) };
}

// Whether the side is of the existential, and its word has the sign.
fn is_of(x: &Dtv, variance: Variance, v: u32, sign: Variance) -> bool
    ensures { IsTrue result ↔ ((x.now.base ≡ Existential v) × (variance ≡ sign)) }
{
    x.base == Base::Exist(v) && variance == sign
}

// Both sides with another one in the existential's place, which the last does not name.
fn first_with(
    x: KnownSide,
    y: KnownSide,
    v: u32,
    other: KnownSide,
) -> Result<(KnownSide, KnownSide), Memory>
    requires { y.base ≢ Existential v }
    ensures { IfOk result (λ r. (r.0 ≡ put_there v other x) × (r.1 ≡ put_there v other y)) }
{
    Ok((x.with(v, other)?, y))
}

// Both sides with another one in the existential's place, which the first does not name.
fn last_with(
    x: KnownSide,
    y: KnownSide,
    v: u32,
    other: KnownSide,
) -> Result<(KnownSide, KnownSide), Memory>
    requires { x.base ≢ Existential v }
    ensures { IfOk result (λ r. (r.0 ≡ put_there v other x) × (r.1 ≡ put_there v other y)) }
{
    Ok((x, y.with(v, other)?))
}

// Both sides with another one, and a copy of it, in the existential's place.
fn each_with(
    x: KnownSide,
    y: KnownSide,
    v: u32,
    other: KnownSide,
) -> Result<(KnownSide, KnownSide), Memory>
    ensures { IfOk result (λ r. (r.0 ≡ put_there v other x) × (r.1 ≡ put_there v other y)) }
{
    let first = x.with(v, other.copy()?)?;
    Ok((first, y.with(v, other)?))
}

// Both sides with another one in the existential's place.
fn both_with(
    x: KnownSide,
    y: KnownSide,
    v: u32,
    other: KnownSide,
) -> Result<(KnownSide, KnownSide), Memory>
    ensures { IfOk result (λ r. (r.0 ≡ put_there v other x) × (r.1 ≡ put_there v other y)) }
{
    if y.base() != Base::Exist(v) {
        first_with(x, y, v, other)
    } else if x.base() != Base::Exist(v) {
        last_with(x, y, v, other)
    } else {
        each_with(x, y, v, other)
    }
}

impl Row {
    /// The row of the line, all of which is read.
    pub fn of(line: Line) -> Row
        ensures { result ≡ line }
    {
        let (first, last) = match &line {
            Line::Var(x) | Line::Low(_, x) | Line::Up(x, _) => (Summary::of(x), Summary::of(x)),
            Line::Same(x, y) | Line::Sub(x, y) => (Summary::of(x), Summary::of(y)),
        };
        Row { line, first, last }
    }

    /// The row of a side that exists.
    pub fn existing(side: KnownSide) -> Row
        ensures { result ≡ Exists side }
    {
        let KnownSide { variable, known } = side;
        Row {
            line: Line::Var(variable),
            first: known,
            last: known,
        }
    }

    // The row of sides of one shape, or of the side where they are one.
    fn same(x: KnownSide, y: KnownSide) -> Row
        ensures { result ≡ without_self (OneShape x y) }
    {
        if x.variable == y.variable {
            return Row::existing(x);
        }
        Row {
            first: x.known,
            last: y.known,
            line: Line::Same(x.variable, y.variable),
        }
    }

    // The row of a side below another, or of the side where they are one.
    fn below(x: KnownSide, y: KnownSide) -> Row
        ensures { result ≡ without_self (Below x y) }
    {
        if x.variable == y.variable {
            return Row::existing(x);
        }
        Row {
            first: x.known,
            last: y.known,
            line: Line::Sub(x.variable, y.variable),
        }
    }

    /// The line.
    pub fn line(&self) -> &Line
        ensures { result.now ≡ self.now }
    {
        &self.line
    }

    /// The line, which is taken out.
    pub fn into_line(self) -> Line
        ensures { result ≡ self }
    {
        self.line
    }

    /// The line's digest. No letter is read.
    pub fn digest(&self) -> u32
        ensures { result ≡ digest_of self.now }
    {
        let sides = mixed(
            mixed(form_code(&self.line), self.first.digest),
            self.last.digest,
        );
        (mixed(sides, 0) / 0x1_0000_0000) as u32
    }

    /// Whether the line has a use of the existential of the sign. No letter is read.
    pub fn has_use(&self, v: u32, sign: Variance) -> bool
        ensures { IsTrue result ↔ HasUse sign v self.now }
    {
        match &self.line {
            Line::Var(_) | Line::Same(_, _) => false,
            Line::Sub(x, y) => {
                is_of(x, self.first.variance, v, Variance::Contra.times(sign))
                    || is_of(y, self.last.variance, v, sign)
            }
            Line::Low(_, y) => is_of(y, self.last.variance, v, sign),
            Line::Up(x, _) => is_of(x, self.first.variance, v, Variance::Contra.times(sign)),
        }
    }

    /// The other side, where the line says nothing but that it lies below the existential or above it.
    pub fn into_other_side(self, v: u32) -> Option<KnownSide>
        ensures { (sign : Sign) (z : Variable) → z.base ≢ Existential v → self ≡ use_of sign v z → result ≡ Some z }
    {
        let Row { line, first, last } = self;
        let Line::Sub(x, y) = line else {
            return None;
        };
        if x.base == Base::Exist(v) {
            Some(KnownSide::new(y, last))
        } else {
            Some(KnownSide::new(x, first))
        }
    }

    /// The line with a side in the existential's place, but that `var X` stands for a variable beside itself. Of the side and
    /// of those of another base no letter is read, but where both sides name the existential or two sides are compared. The
    /// error is out of memory.
    pub fn with(self, v: u32, side: KnownSide) -> Result<Row, Memory>
        ensures { IfOk result (λ r. r ≡ moved v side self) }
    {
        let Row { line, first, last } = self;
        match line {
            Line::Var(variable) => {
                let own = KnownSide::new(variable, first);
                Ok(Row::existing(own.with(v, side)?))
            }
            Line::Same(x, y) => {
                let x = KnownSide::new(x, first);
                let y = KnownSide::new(y, last);
                let (x, y) = both_with(x, y, v, side)?;
                Ok(Row::same(x, y))
            }
            Line::Sub(x, y) => {
                let x = KnownSide::new(x, first);
                let y = KnownSide::new(y, last);
                let (x, y) = both_with(x, y, v, side)?;
                Ok(Row::below(x, y))
            }
            Line::Low(k, variable) => {
                let own = KnownSide::new(variable, first);
                let KnownSide { variable, known } = own.with(v, side)?;
                Ok(Row {
                    line: Line::Low(k, variable),
                    first: known,
                    last: known,
                })
            }
            Line::Up(variable, k) => {
                let own = KnownSide::new(variable, first);
                let KnownSide { variable, known } = own.with(v, side)?;
                Ok(Row {
                    line: Line::Up(variable, k),
                    first: known,
                    last: known,
                })
            }
        }
    }
}
