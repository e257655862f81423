// Which side of which line may take an existential's place.
ghost use Rattle.std.specs.Prelude.{◌≡◌, ◌≢◌, ◌<◌, ◌^◌, ◌↔◌, ℕ, length, IsTrue, MatchOption};
ghost use Rattle.rt_lines.specs.declared.label.Variance.{Variance as Sign};
ghost use Rattle.rt_lines.specs.declared.variable.Dtv.{Dtv as Variable};
ghost use Rattle.rt_lines.specs.declared.variable.Base.TheVariants.{Exist as Existential};
ghost use Rattle.rt_lines.specs.Words.{variance_of_word};
ghost use Rattle.rt_rules.specs.Put.{HasUse, exist, use_of};
ghost use Rattle.rt_polar.specs.Polar.{HasCandidate, HasNoSole, IsCandidate, IsOnlyPlace, IsSole};

use rt_lines::{Base, Dtv, Line, Variance, variance_of};

/// A side of a line of a list.
#[derive(Clone, Copy, Debug, PartialEq, Eq)]
pub struct Side {
    /// The number of the line, counted from 0.
    pub line: u32,
    /// Whether it is the left side.
    pub left: bool,
}

// Whether the side is of the existential, and its word has the sign.
fn is_of(x: &Dtv, v: u32, sign: Variance) -> bool
    ensures { IsTrue result ↔ ((x.now.base ≡ Existential v) × (variance_of_word x.now.word ≡ sign)) }
{
    x.base == Base::Exist(v) && variance_of(&x.word) == sign
}

// Whether the line has a use of the existential of the sign: a defining one at `Co`, a consuming one at `Contra`.
fn has_use(line: &Line, v: u32, sign: Variance) -> bool
    ensures { IsTrue result ↔ HasUse sign v line.now }
{
    match line {
        Line::Var(_) | Line::Same(_, _) => false,
        Line::Sub(x, y) => is_of(x, v, Variance::Contra.times(sign)) || is_of(y, v, sign),
        Line::Low(_, y) => is_of(y, v, sign),
        Line::Up(x, _) => is_of(x, v, Variance::Contra.times(sign)),
    }
}

// Whether the variable is the existential itself.
fn is_bare(x: &Dtv, v: u32) -> bool
    ensures { IsTrue result ↔ (x.now ≡ exist v) }
{
    x.base == Base::Exist(v) && x.word.items().is_empty()
}

/// The other side of the line, of another base, where the line says nothing but that it lies below the existential (at
/// `Co`) or above it (at `Contra`). It takes no memory.
pub fn beside(line: &Line, v: u32, sign: Variance) -> Option<&Dtv>
    ensures { MatchOption result
        ((z : Variable) → z.base ≢ Existential v → line.now ≡ use_of sign v z → ⊥)
        (λ z. (z.now.base ≢ Existential v) × (line.now ≡ use_of sign v z.now)) }
{
    let Line::Sub(x, y) = line else {
        return None;
    };
    let (own, other) = match sign {
        Variance::Co => (y, x),
        Variance::Contra => (x, y),
    };
    if is_bare(own, v) && other.base != Base::Exist(v) {
        Some(other)
    } else {
        None
    }
}

// The number of the line that alone has a use of the existential of the sign.
fn only_place(lines: &[Line], v: u32, sign: Variance) -> Option<usize>
    ensures { MatchOption result ((place : ℕ) → IsOnlyPlace sign v lines.now place → ⊥) (IsOnlyPlace sign v lines.now) }
{
    let mut found = None;
    for (i, line) in lines.iter().enumerate() {
        if has_use(line, v, sign) {
            if found.is_some() {
                return None;
            }
            found = Some(i);
        }
    }
    found
}

// The number of the line with the only use of the existential of the sign, where its other side may take the existential's
// place.
fn sole(lines: &[Line], v: u32, sign: Variance) -> Option<u32>
    requires { length lines.now < 2 ^ 32 }
    ensures { MatchOption result (HasNoSole sign v lines.now) (λ place. (z : Variable) × IsSole sign v z lines.now place) }
{
    let Some(place) = only_place(lines, v, sign) else {
        return None;
    };
    match beside(&lines[place], v, sign) {
        Some(_) => Some(place as u32),
        None => None,
    }
}

/// The side that may take the place of the existential: the other side of the line that is its only definition, or else of
/// the one that is its only consumer. It takes no memory.
pub fn candidate(lines: &[Line], v: u32) -> Option<Side>
    requires { length lines.now < 2 ^ 32 }
    ensures { MatchOption result (HasCandidate v lines.now → ⊥)
        (λ side. (sign : Sign) × (z : Variable) × IsCandidate v lines.now sign side.line side.left z) }
{
    if let Some(line) = sole(lines, v, Variance::Co) {
        return Some(Side { line, left: true });
    }
    if let Some(line) = sole(lines, v, Variance::Contra) {
        return Some(Side { line, left: false });
    }
    None
}
