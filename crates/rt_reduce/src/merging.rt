// Existentials that equal sides of other bases give their places to them.
ghost use Rattle.std.specs.Prelude.{◌≡◌, ◌∷◌, ◌++◌, ◌↔◌, [], ℕ, List, All, Contains};
ghost use Rattle.std.specs.Prelude.{IsTrue, true, false, IfOk, IfSome, MatchOption, OnOk, length, map};
ghost use Rattle.std.specs.List.{flat_map};
ghost use Rattle.std.specs.BTreeSet.{contains};
ghost use Rattle.std.specs.Ordering.{nat_cmp};
ghost use Rattle.rt_lines.specs.declared.variable.Base.TheVariants.{Exist as Existential};
ghost use Rattle.rt_lines.specs.declared.variable.Dtv.{Dtv as Variable};
ghost use Rattle.rt_lines.specs.declared.line.Line.{Line as Given};
ghost use Rattle.rt_lines.specs.Lines.{HasConstantsBelow};
ghost use Rattle.rt_lines.specs.Orders.{Below};
ghost use Rattle.rt_lines.specs.Sides.{sides as sides_of};
ghost use Rattle.rt_rules.specs.Laws.{NamesBase};
ghost use Rattle.rt_rules.specs.Put.{exist, put as put_side, put_lines};
ghost use Rattle.rt_polar.specs.Tidied.{tidied};
ghost use Rattle.rt_reduction.specs.Emits.{AreOfScheme};
ghost use Rattle.rt_reduction.specs.Merges.{HasEqual, Merges};
ghost use Rattle.rt_named.specs.Naming.{named as named_by};
ghost use Rattle.rt_equals.specs.Comparing.{AreEquals};
ghost use Rattle.rt_reduce.specs.Inside.Alike.{AreAlikeAt, AreNumbered, IsAlike, HasNumber};
ghost use Rattle.rt_reduce.specs.Inside.Bases.{IsAloneAt};
ghost use Rattle.rt_reduce.specs.Inside.Compared.{IsCompared};
ghost use Rattle.rt_reduce.specs.Inside.Deciding.{IsOwnOuter, IsTableAbout};
ghost use Rattle.rt_reduce.specs.Inside.Merging.{AreMerged, IsEarlier, IsFirstAmong, IsFirstEqual};

use crate::alike::{number, numbers};
use crate::bases::{Bases, is_alone, noted};
use crate::before::comes_before;
use crate::copying::copies;
use rt_base::{Memory, Sequence};
use rt_equals::{Comparison, Equals};
use rt_lines::{Base, Dtv, Line, Lines, Order, Word};
use rt_outline::Upper;
use rt_polar::{put, put_in, tidy};
use rt_sat::GrowingTable;
use std::alloc::Global;
use std::collections::BTreeSet;

/// What is left when equals were merged.
#[derive(Drop)]
pub struct Leftover {
    /// What is left of the lines.
    pub lines: Lines,
    /// What they say of the variables that they name, if a table was made.
    pub table: Option<GrowingTable>,
}

/// What is left of the lines when each existential that equals a side of another base gave its place to the first of its
/// equals, the least such existential first, again and again until none has one; the lines are tidied each time. Each side
/// is one of the lines, with letters more, and each existential is one of them. The variables are compared once, with arcs from
/// outside of the lines, which are given: a side keeps its equals as others give their places away. The error is out of memory.
pub fn merge_equal(
    alloc: Global,
    lines: &[Line],
    outer: &Upper,
    order: &Order,
) -> Result<Leftover, Memory>
    requires constants { All (HasConstantsBelow order.now.count) lines.now }
    requires outer { IsOwnOuter lines.now outer.now }
    ensures merges { IfOk result (λ left. Merges order.now left.lines lines.now) }
    ensures scheme { IfOk result (λ left. AreOfScheme lines.now → AreOfScheme left.lines) }
    ensures constants { IfOk result (λ left. All (HasConstantsBelow order.now.count) left.lines) }
    ensures named { IfOk result (λ left. (n : ℕ) → NamesBase left.lines (Existential n) → NamesBase lines.now (Existential n)) }
    ensures table { IfOk result (λ left. IfSome left.table (IsTableAbout left.lines)) }
{
    let sides = sides(alloc, lines)?;
    if !has_existential(&sides) {
        let left = copies(alloc, lines)?;
        return Ok(Leftover {
            lines: Sequence::from_vec(left),
            table: None,
        });
    }
    merge_compared(alloc, lines, sides, outer)
}

// What is left of the lines whose variables are given, which are compared once.
fn merge_compared(
    alloc: Global,
    lines: &[Line],
    sides: Vec<Dtv>,
    outer: &Upper,
) -> Result<Leftover, Memory>
    requires sides { sides.items ≡ flat_map sides_of lines.now }
    requires outer { IsOwnOuter lines.now outer.now }
    ensures left { IfOk result (λ left. AreMerged lines.now left.lines) }
    ensures table { IfOk result (λ left. IfSome left.table (IsTableAbout left.lines)) }
{
    let comparison = Comparison::of(alloc, lines)?;
    let compared = comparison.equals(alloc, outer)?;
    let Equals {
        numbers: equals,
        table,
    } = compared;
    let left = merge_numbered(alloc, lines, &comparison, &equals, sides)?;
    Ok(Leftover { lines: left, table })
}

// What is left of the lines, where the numbers of all variables that they name are given.
fn merge_numbered(
    alloc: Global,
    lines: &[Line],
    comparison: &Comparison,
    equals: &[usize],
    sides: Vec<Dtv>,
) -> Result<Lines, Memory>
    requires own { comparison.now.lines ≡ lines.now }
    requires named { comparison.now.named ≡ named_by lines.now [] }
    requires equals { AreEquals lines.now comparison.now.named equals.now }
    requires sides { sides.items ≡ flat_map sides_of lines.now }
    ensures { IfOk result (AreMerged lines.now) }
{
    let numbers = numbers(alloc, comparison, equals, &sides)?;
    let pending = pending_of(alloc, comparison, equals, &sides, &numbers)?;
    let start = copies(alloc, lines)?;
    let now = Sequence::from_vec(start);
    let left = merge_pending(alloc, comparison, equals, &numbers, sides, pending, now)?;
    Ok(left)
}

// The existentials that are bases of the variables, but for some that have no equal.
fn pending_of(
    alloc: Global,
    comparison: &Comparison,
    equals: &[usize],
    sides: &[Dtv],
    numbers: &[usize],
) -> Result<BTreeSet<u32>, Memory>
    requires equals { AreEquals comparison.now.lines comparison.now.named equals.now }
    requires numbers { AreNumbered comparison.now.named equals.now sides.now numbers.now }
    requires sides { sides.now ≡ flat_map sides_of comparison.now.lines }
    ensures { IfOk result (λ pending. (order : Below) (n : ℕ) → HasEqual order comparison.now.lines n →
        contains nat_cmp pending n ≡ true) }
{
    let bases = noted(alloc, sides, numbers, equals.len())?;
    let pending = pending(alloc, comparison, equals, sides, &bases)?;
    Ok(pending)
}

// Lets each of the existentials, least first, give its place to the first of its equals, if it has one.
fn merge_pending(
    alloc: Global,
    comparison: &Comparison,
    equals: &[usize],
    numbers: &[usize],
    mut sides: Vec<Dtv>,
    mut pending: BTreeSet<u32>,
    lines: Lines,
) -> Result<Lines, Memory>
    requires each { length equals.now ≡ length comparison.now.named }
    requires compared { IsCompared lines comparison.now.named equals.now sides.items numbers.now }
    requires pending { (order : Below) (n : ℕ) → HasEqual order lines n → contains nat_cmp pending n ≡ true }
    ensures merges { IfOk result (λ left. (order : Below) → Merges order left lines) }
    ensures scheme { IfOk result (λ left. AreOfScheme lines → AreOfScheme left) }
    ensures constants { IfOk result
        (λ left. (count : ℕ) → All (HasConstantsBelow count) lines → All (HasConstantsBelow count) left) }
    ensures named { IfOk result (λ left. (n : ℕ) → NamesBase left (Existential n) → NamesBase lines (Existential n)) }
{
    let mut now = lines;
    while let Some(existential) = pending.pop_first() {
        let first = first_equal(alloc, comparison, equals, &sides, numbers, existential)?;
        if let Some(side) = first {
            now = merged(alloc, now.items(), existential, &side)?;
            sides = replaced(alloc, &sides, existential, &side)?;
        }
    }
    Ok(now)
}

// The lines, tidied, with the side in the existential's place.
fn merged(alloc: Global, lines: &[Line], existential: u32, side: &Dtv) -> Result<Lines, Memory>
    ensures { IfOk result (λ now. now ≡ tidied (put_lines existential side.now lines.now)) }
{
    let lines = put(alloc, lines, existential, side)?;
    tidy(alloc, lines)
}

// The variables with the side in the existential's place.
fn replaced(alloc: Global, sides: &[Dtv], existential: u32, side: &Dtv) -> Result<Vec<Dtv>, Memory>
    ensures { IfOk result (λ replaced. replaced.items ≡ map (put_side existential side.now) sides.now) }
{
    let mut replaced = Vec::with_capacity(alloc, sides.len())?;
    for x in sides {
        replaced.push(put_in(x, existential, side)?)?;
    }
    Ok(replaced)
}

// Whether one of the variables has an existential for its base.
fn has_existential(sides: &[Dtv]) -> bool
    ensures { result ≡ false → (n : ℕ) (x : Variable) → Contains sides.now x → x.base ≡ Existential n → ⊥ }
{
    for side in sides {
        if is_existential(side.base) {
            return true;
        }
    }
    false
}

// Whether the base is an existential.
fn is_existential(base: Base) -> bool
    ensures { (n : ℕ) → base ≡ Existential n → IsTrue result }
{
    match base {
        Base::Exist(_) => true,
        Base::Proc(_) | Base::Global(_) | Base::Outer(_) => false,
    }
}

// The variables of the lines.
fn sides(alloc: Global, lines: &[Line]) -> Result<Vec<Dtv>, Memory>
    ensures { IfOk result (λ sides. sides.items ≡ flat_map sides_of lines.now) }
{
    let mut sides = Vec::new(alloc);
    for line in lines {
        push_sides(line, &mut sides)?;
    }
    Ok(sides)
}

// Adds the variables of the line.
pub(crate) fn push_sides(line: &Line, sides: &mut Vec<Dtv>) -> Result<(), Memory>
    ensures { OnOk result (sides.new.items ≡ sides.old.items ++ sides_of line.now) }
{
    match line {
        Line::Var(x) => sides.push(x.copy()?)?,
        Line::Same(x, y) => {
            sides.push(x.copy()?)?;
            sides.push(y.copy()?)?;
        }
        Line::Sub(x, y) => {
            sides.push(x.copy()?)?;
            sides.push(y.copy()?)?;
        }
        Line::Low(_, x) => sides.push(x.copy()?)?,
        Line::Up(x, _) => sides.push(x.copy()?)?,
    }
    Ok(())
}

// The existentials that are bases of the variables, but for some that have no equal.
fn pending(
    alloc: Global,
    comparison: &Comparison,
    equals: &[usize],
    sides: &[Dtv],
    bases: &[Bases],
) -> Result<BTreeSet<u32>, Memory>
    requires { length equals.now ≡ length comparison.now.named }
    ensures { IfOk result (λ found. (n : ℕ) (x : Variable) → Contains sides.now x → x.base ≡ Existential n →
        (IsAloneAt comparison.now.named equals.now bases.now n → ⊥) → contains nat_cmp found n ≡ true) }
{
    let mut found = BTreeSet::new(alloc);
    for side in sides {
        add_base(alloc, comparison, equals, bases, &mut found, side.base)?;
    }
    Ok(found)
}

// Adds the base, where it is an existential, and others may have its number.
fn add_base(
    alloc: Global,
    comparison: &Comparison,
    equals: &[usize],
    bases: &[Bases],
    found: &mut BTreeSet<u32>,
    base: Base,
) -> Result<(), Memory>
    requires { length equals.now ≡ length comparison.now.named }
    ensures kept { OnOk result ((n : ℕ) → contains nat_cmp found.old n ≡ true → contains nat_cmp found.new n ≡ true) }
    ensures added { OnOk result ((n : ℕ) → base ≡ Existential n →
        (IsAloneAt comparison.now.named equals.now bases.now n → ⊥) →
        contains nat_cmp found.new n ≡ true) }
{
    let Base::Exist(existential) = base else {
        return Ok(());
    };
    if let Some(own) = own_number(alloc, comparison, equals, existential) {
        if is_alone(bases, own, existential) {
            return Ok(());
        }
    }
    found.insert(existential)?;
    Ok(())
}

// The number that stands for the existential, or `None` where it isn't named.
fn own_number(
    alloc: Global,
    comparison: &Comparison,
    equals: &[usize],
    existential: u32,
) -> Option<usize>
    requires { length equals.now ≡ length comparison.now.named }
    ensures { MatchOption result
        (Contains comparison.now.named (exist existential) → ⊥)
        (λ k. HasNumber comparison.now.named equals.now (exist existential) k) }
{
    let own = Dtv {
        base: Base::Exist(existential),
        word: Word::empty(alloc),
    };
    number(comparison, equals, &own)
}

// The first of the sides of other bases that equal the existential, if there are any.
fn first_equal(
    alloc: Global,
    comparison: &Comparison,
    equals: &[usize],
    sides: &[Dtv],
    numbers: &[usize],
    existential: u32,
) -> Result<Option<Dtv>, Memory>
    requires each { length equals.now ≡ length comparison.now.named }
    requires numbers { length numbers.now ≡ length sides.now }
    ensures { IfOk result (λ first. (order : Below) (lines : List Given) →
        IsCompared lines comparison.now.named equals.now sides.now numbers.now →
        MatchOption first (HasEqual order lines existential → ⊥) (λ side. IsFirstEqual order lines existential side)) }
{
    if !has_base(sides, Base::Exist(existential)) {
        return Ok(None);
    }
    let Some(own) = own_number(alloc, comparison, equals, existential) else {
        return Ok(None);
    };
    let first = first_of(alloc, sides, numbers, existential, own)?;
    Ok(first)
}

// Whether one of the variables has the base.
fn has_base(sides: &[Dtv], base: Base) -> bool
    ensures { IsTrue result ↔ ((x : Variable) × Contains sides.now x × (x.base ≡ base)) }
{
    for side in sides {
        if side.base == base {
            return true;
        }
    }
    false
}

// The first of the sides of other bases that have a number, if there are any.
fn first_of(
    alloc: Global,
    sides: &[Dtv],
    numbers: &[usize],
    existential: u32,
    own: usize,
) -> Result<Option<Dtv>, Memory>
    requires { length numbers.now ≡ length sides.now }
    ensures { IfOk result
        (λ first. (order : Below) (lines : List Given) → AreAlikeAt order lines existential sides.now numbers.now own →
        IsFirstAmong order lines existential sides.now first) }
{
    let mut first = None;
    for i in 0..sides.len() {
        first = first_with(alloc, first, existential, &sides[i], numbers[i] == own)?;
    }
    Ok(first)
}

// The first of the equals of an existential, with one more side, which may equal it.
fn first_with(
    alloc: Global,
    first: Option<Dtv>,
    existential: u32,
    side: &Dtv,
    equal: bool,
) -> Result<Option<Dtv>, Memory>
    ensures { IfOk result (λ now. (order : Below) (lines : List Given) (seen : List Variable) →
        IsTrue equal ↔ IsAlike order lines existential side.now → IsFirstAmong order lines existential seen first →
        IsFirstAmong order lines existential (seen ++ side.now ∷ []) now) }
{
    if side.base == Base::Exist(existential) {
        return Ok(first);
    }
    if !equal {
        return Ok(first);
    }
    let now = earlier(alloc, first, side)?;
    Ok(now)
}

// The side, or the known one, if the side doesn't come before it.
fn earlier(alloc: Global, known: Option<Dtv>, side: &Dtv) -> Result<Option<Dtv>, Memory>
    ensures { IfOk result (IsEarlier known side.now) }
{
    let Some(known) = known else {
        return Ok(Some(side.copy()?));
    };
    let before = comes_before(alloc, side, &known)?;
    if before {
        return Ok(Some(side.copy()?));
    }
    Ok(Some(known))
}
