// Lines and judgements.
ghost use Rattle.std.specs.Prelude.{◌≡◌, ◌↔◌, IfOk, IfSome, IsSome};
ghost use Rattle.std.specs.Fn.{FnReturnsAt};
ghost use Rattle.rt_lines.specs.Lines.{bound_line, IsBound};
ghost use Rattle.rt_lines.specs.Sides.{IsMapped, sides};
ghost use Rattle.rt_lines.specs.SidesLeft.{sides_left};

use crate::sides::Sides;
use crate::variable::Dtv;
use rt_base::{Copied, Sequence};
use std::alloc::AllocError;

/// A line of constraints. A constant is a number, its place in the list of names.
#[derive(PartialEq, Eq, Hash, Drop)]
pub enum Line {
    /// The variable exists.
    Var(Dtv),
    /// The two variables have one shape: each has the labels of the other.
    Same(Dtv, Dtv),
    /// The first variable is a subtype of the second.
    Sub(Dtv, Dtv),
    /// The constant is a lower bound of the variable.
    Low(u16, Dtv),
    /// The constant is an upper bound of the variable.
    Up(Dtv, u16),
}

/// A list of lines.
pub type Lines = Sequence<Line>;

/// On which side of its variable a constant lies.
#[derive(Clone, Copy)]
pub enum Direction {
    /// The constant is a lower bound.
    Lower,
    /// The constant is an upper bound.
    Upper,
}

/// A judgement about variables. What it may say is what a line may, but for `same`.
#[derive(Drop)]
pub enum Judge {
    /// The variable exists.
    Var(Dtv),
    /// The first variable is a subtype of the second.
    Sub(Dtv, Dtv),
    /// The constant is a lower bound of the variable.
    Low(u16, Dtv),
    /// The constant is an upper bound of the variable.
    Up(Dtv, u16),
}

impl Line {
    /// The line's variables, the left one before the right.
    pub fn sides(&self) -> Sides<'_>
        ensures { sides_left result ≡ sides self.now }
    {
        match self {
            Line::Var(x) | Line::Low(_, x) | Line::Up(x, _) => Sides::one(x),
            Line::Same(x, y) | Line::Sub(x, y) => Sides::two(x, y),
        }
    }

    /// The bound that the line says, if it says one: on which side the constant lies, its number, and the variable.
    pub fn bound(&self) -> Option<(Direction, u16, &Dtv)>
        ensures some { IfSome result (λ bound. self.now ≡ bound_line bound.0 bound.1 bound.2.now) }
        ensures none { IsSome result ↔ IsBound self.now }
    {
        match self {
            Line::Low(k, x) => Some((Direction::Lower, *k, x)),
            Line::Up(x, k) => Some((Direction::Upper, *k, x)),
            Line::Var(_) | Line::Same(_, _) | Line::Sub(_, _) => None,
        }
    }

    /// The line with what the closure gives for each variable in its place. The error is the closure's.
    pub fn map<F: Fn(&Dtv) -> Result<Dtv, AllocError>>(&self, f: F) -> Result<Line, AllocError>
        requires { F.IsAlwaysCallable f }
        ensures { IfOk result (IsMapped (λ x y. FnReturnsAt F.Fn f x (Ok y)) self.now) }
    {
        match self {
            Line::Var(x) => Ok(Line::Var(f(x)?)),
            Line::Same(x, y) => Ok(Line::Same(f(x)?, f(y)?)),
            Line::Sub(x, y) => Ok(Line::Sub(f(x)?, f(y)?)),
            Line::Low(k, x) => Ok(Line::Low(*k, f(x)?)),
            Line::Up(x, k) => Ok(Line::Up(f(x)?, *k)),
        }
    }

    /// An equal line.
    pub fn copy(&self) -> Result<Line, AllocError>
        ensures { IfOk result (λ copy. copy ≡ self.now) }
    {
        self.map(Dtv::copy)
    }
}

impl Copied for Line {
    fn copied(&self) -> Result<Self, AllocError> {
        self.copy()
    }
}
