// Variables that lines name, compared.
ghost use Rattle.std.specs.Prelude.{◌≡◌, [], ℕ, ◌<◌, List, Contains, IfOk, IfSome, IsTrue};
ghost use Rattle.std.specs.Prelude.{MatchOption, Some, length, slice_get, slice_index_or};
ghost use Rattle.rt_lines.specs.declared.line.Line.{Line as Given};
ghost use Rattle.rt_named.specs.Naming.{named as named_by};
ghost use Rattle.rt_outline.specs.Equal.{AreOuterEquals};
ghost use Rattle.rt_sat.specs.Increments.{Tells};
ghost use Rattle.rt_equals.specs.Comparing.{AreEquals};

use crate::agreeing::agree;
use crate::counted::counted;
use crate::growing::{Finding, apart, told};
use rt_base::Memory;
use rt_lines::{Dtv, Line};
use rt_named::Named;
use rt_outline::{Classes, Lower, Upper};
use rt_sat::GrowingTable;
use std::alloc::Global;
use std::marker::Model;

/// Numbers by which equals of existentials are found, and what was found besides.
#[derive(Drop)]
pub struct Equals {
    /// A number for each variable.
    pub numbers: Vec<usize>,
    /// What the lines say of variables, if a table was made.
    pub table: Option<GrowingTable>,
}

/// Lines, and the variables that they name, each of which has its index for its number.
#[derive(Drop)]
pub struct Comparison {
    lines: Vec<Line>,
    named: Named,
}

impl Model for Comparison {
    ghost use Rattle.std.specs.Prelude.{◌≡◌, []};
    ghost use Rattle.rt_named.specs.Naming.{named as named_by};
    ghost use Rattle.rt_equals.specs.Comparing.{Lined};

    ghost Value = { Lined };

    ghost view = { λ t. record { lines = t.lines.items; named = t.named } };

    ghost invariant = { λ t. t.named ≡ named_by t.lines.items [] };
}

impl Comparison {
    /// The lines, with the variables that they name. The error is out of memory.
    pub fn of(alloc: Global, lines: &[Line]) -> Result<Comparison, Memory>
        ensures { IfOk result (λ made. made ≡ record { lines = lines.now; named = named_by lines.now [] }) }
    {
        let named = Named::of(alloc, lines, &[])?;
        let lines = copied(alloc, lines)?;
        Ok(Comparison { lines, named })
    }

    /// The number of a variable, or `None` where it isn't named.
    pub fn number(&self, x: &Dtv) -> Option<u32>
        ensures { MatchOption result (Contains self.now.named x.now → ⊥) (λ i. slice_get self.now.named i ≡ Some x.now) }
    {
        self.named.index(x)
    }

    /// A number for each variable; another one has that of an existential exactly where each of the two lies below the
    /// other by the lines, of which arcs from outside are given. With them comes the table of ways, if one was made, with places
    /// for the variables of bounds. The error is out of memory.
    pub fn equals(&self, alloc: Global, outer: &Upper) -> Result<Equals, Memory>
        requires { outer.now ≡ record { lines = self.now.lines; named = named_by self.now.lines [] } }
        ensures numbers { IfOk result (λ equals. AreEquals self.now.lines self.now.named equals.numbers.items) }
        ensures table { IfOk result (λ equals. IfSome equals.table (Tells self.now.lines)) }
    {
        let classes = outer_classes(alloc, &self.lines, outer)?;
        let told = found(alloc, &self.named, &self.lines, &classes)?;
        let Finding { exact, table } = told;
        let numbers = numbers_by(alloc, &self.lines, classes, exact)?;
        Ok(Equals { numbers, table })
    }
}

// The numbers of classes from outside, if they are exact, else those that a saturation tells.
fn numbers_by(
    alloc: Global,
    lines: &[Line],
    classes: Classes,
    exact: bool,
) -> Result<Vec<usize>, Memory>
    requires { IsTrue exact → AreEquals lines.now (named_by lines.now []) classes.numbers.items }
    ensures { IfOk result (λ numbers. AreEquals lines.now (named_by lines.now []) numbers.items) }
{
    if exact {
        return Ok(classes.numbers);
    }
    counted(alloc, lines)
}

// Classes by arcs from outside.
fn outer_classes(alloc: Global, lines: &[Line], outer: &Upper) -> Result<Classes, Memory>
    requires { outer.now ≡ record { lines = lines.now; named = named_by lines.now [] } }
    ensures { IfOk result (λ classes. AreOuterEquals lines.now (named_by lines.now []) classes.count classes.numbers.items) }
{
    let classes = outer.equals(alloc)?;
    Ok(classes)
}

// Whether arcs from inside, or else a table of ways, say the same of existentials as classes from outside.
fn found(alloc: Global, named: &Named, lines: &[Line], outer: &Classes) -> Result<Finding, Memory>
    requires named { named.now ≡ named_by lines.now [] }
    requires outer { AreOuterEquals lines.now named.now outer.now.count outer.now.numbers.items }
    ensures exact { IfOk result (λ told. IsTrue told.exact → AreEquals lines.now named.now outer.now.numbers.items) }
    ensures table { IfOk result (λ told. IfSome told.table (Tells lines.now)) }
{
    if is_exact(alloc, named, lines, outer)? {
        return Ok(Finding {
            exact: true,
            table: None,
        });
    }
    told(alloc, named, lines, outer)
}

// Whether it is known without a table of ways that classes from outside are exact.
fn is_exact(alloc: Global, named: &Named, lines: &[Line], outer: &Classes) -> Result<bool, Memory>
    requires named { named.now ≡ named_by lines.now [] }
    requires outer { AreOuterEquals lines.now named.now outer.now.count outer.now.numbers.items }
    ensures { IfOk result (λ yes. IsTrue yes → AreEquals lines.now named.now outer.now.numbers.items) }
{
    if are_apart(alloc, named, outer)? {
        return Ok(true);
    }
    are_inside(alloc, named, lines, outer)
}

// Whether arcs from inside say the same of existentials as classes from outside.
fn are_inside(alloc: Global, named: &Named, lines: &[Line], outer: &Classes) -> Result<bool, Memory>
    requires named { named.now ≡ named_by lines.now [] }
    requires outer { AreOuterEquals lines.now named.now outer.now.count outer.now.numbers.items }
    ensures { IfOk result (λ yes. IsTrue yes → AreEquals lines.now named.now outer.now.numbers.items) }
{
    let lower = Lower::of(alloc, lines, &[])?;
    let inner = lower.equals(alloc)?;
    agree(alloc, named, outer, &inner.numbers)
}

// Whether classes from outside put no other variable together with an existential.
fn are_apart(alloc: Global, named: &Named, outer: &Classes) -> Result<bool, Memory>
    requires each { length outer.now.numbers.items ≡ length named.now }
    requires few { (i : ℕ) → i < length named.now → slice_index_or outer.now.numbers.items i 0 < outer.now.count }
    ensures { IfOk result (λ yes. IsTrue yes → (lines : List Given) → named.now ≡ named_by lines [] →
        AreOuterEquals lines named.now outer.now.count outer.now.numbers.items → AreEquals lines named.now outer.now.numbers.items) }
{
    let apart = apart(alloc, named.len())?;
    let exact = agree(alloc, named, outer, &apart)?;
    Ok(exact)
}

// The lines, once more.
fn copied(alloc: Global, lines: &[Line]) -> Result<Vec<Line>, Memory>
    ensures { IfOk result (λ copied. copied.items ≡ lines.now) }
{
    let mut copied = Vec::new(alloc);
    for line in lines {
        copied.push(line.copy()?)?;
    }
    Ok(copied)
}
