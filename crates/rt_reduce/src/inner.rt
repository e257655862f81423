// What lines say beforehand of which variables lie below which: arcs from inside, and a table where these leave bounds open.
ghost use Rattle.std.specs.Prelude.{◌≡◌, ◌∷◌, ◌<◌, [], List, All, Contains, true, IfOk, OnOk, IfSome, IsTrue, length};
ghost use Rattle.rt_lines.specs.declared.line.Line.{Line as Given};
ghost use Rattle.rt_lines.specs.declared.variable.Dtv.{Dtv as Variable};
ghost use Rattle.rt_lines.specs.Lines.{HasConstantsBelow};
ghost use Rattle.rt_lines.specs.Orders.{Below};
ghost use Rattle.rt_outline.specs.Lines.{HasBelow};
ghost use Rattle.rt_reduce.specs.Inside.Deciding.{IsLowerWith, IsTableAbout};
ghost use Rattle.rt_sat.specs.Increments.{Tells};

use crate::bounds::{lows, ups};
use crate::dropping::fate_of;
use rt_base::Memory;
use rt_lines::{Dtv, Line, Order};
use rt_outline::Lower;
use rt_sat::{Extent, GrowingTable};
use rt_sure::{Fate, is_bound, table_of};
use std::alloc::Global;
use std::marker::Model;
use std::slice;

// Arcs from inside of lines, and maybe a table of what the lines say of the variables of bounds.
#[derive(Drop)]
pub(crate) struct Inner {
    arcs: Lower,
    table: Option<GrowingTable>,
}

impl Model for Inner {
    ghost use Rattle.std.specs.Prelude.{IfSome};
    ghost use Rattle.rt_outline.specs.Lines.{Lined};
    ghost use Rattle.rt_reduce.specs.Inside.Deciding.{DoName, IsTableAbout};

    ghost Value = { Lined };

    ghost view = { λ t. t.arcs };

    ghost invariant = { λ t. DoName t.arcs × IfSome t.table (IsTableAbout t.arcs.lines) };
}

impl Inner {
    // What lines say, with a table if arcs leave a bound open of which nothing is known: the one that may be given, if it leaves
    // none open, else one that is made of the lines. The given one is taken, unless arcs leave none open.
    pub(crate) fn of(
        alloc: Global,
        lines: &[Line],
        given: &mut Option<GrowingTable>,
        fates: &[Fate],
        order: &Order,
    ) -> Result<Inner, Memory>
        requires given { IfSome given.old (IsTableAbout lines.now) }
        requires constants { All (HasConstantsBelow order.now.count) lines.now }
        ensures { IfOk result (λ inner. IsLowerWith lines.now [] inner) }
    {
        let mut inner = Inner::plain(alloc, lines)?;
        inner.widen(alloc, lines, given, fates, order)?;
        Ok(inner)
    }

    // Arcs from inside of lines, without a table.
    fn plain(alloc: Global, lines: &[Line]) -> Result<Inner, Memory>
        ensures { IfOk result (λ inner. IsLowerWith lines.now [] inner) }
    {
        let arcs = Lower::of(alloc, lines, &[])?;
        Ok(Inner { arcs, table: None })
    }

    // Adds a table, if arcs leave a bound open of which nothing is known.
    fn widen(
        &mut self,
        alloc: Global,
        lines: &[Line],
        given: &mut Option<GrowingTable>,
        fates: &[Fate],
        order: &Order,
    ) -> Result<(), Memory>
        requires own { IsLowerWith lines.now [] self.old }
        requires given { IfSome given.old (IsTableAbout lines.now) }
        requires constants { All (HasConstantsBelow order.now.count) lines.now }
        ensures { OnOk result (self.new ≡ self.old) }
    {
        if self.open_count(alloc, lines, fates, order)? == 0 {
            return Ok(());
        }
        self.take(given);
        if self.table.is_some() && self.open_count(alloc, lines, fates, order)? == 0 {
            return Ok(());
        }
        self.fill(alloc, lines)
    }

    // Takes the table that may be given.
    fn take(&mut self, given: &mut Option<GrowingTable>)
        requires { IfSome given.old (IsTableAbout self.old.lines) }
        ensures { self.new ≡ self.old }
    {
        self.table = given.take();
    }

    // Adds a table that is made of the lines.
    fn fill(&mut self, alloc: Global, lines: &[Line]) -> Result<(), Memory>
        requires { self.old.lines ≡ lines.now }
        ensures { OnOk result (self.new ≡ self.old) }
    {
        let sides = bounded(alloc, lines)?;
        let table = table_of(alloc, lines, &sides, Extent::Whole)?;
        self.table = Some(table);
        Ok(())
    }

    // Whether one of the variables is known to lie below one of the others. All are named.
    pub(crate) fn leads(&self, alloc: Global, from: &[Dtv], to: &[Dtv]) -> Result<bool, Memory>
        requires from { (x : Variable) → Contains from.now x → Contains self.now.named x }
        requires to { (x : Variable) → Contains to.now x → Contains self.now.named x }
        ensures { IfOk result (λ yes. IsTrue yes → (order : Below) → HasBelow order self.now.lines from.now to.now) }
    {
        if self.arcs.leads(alloc, from, to)? {
            return Ok(true);
        }
        match &self.table {
            Some(table) => Ok(tells(table, from, to)),
            None => Ok(false),
        }
    }

    // Of how many bounds of which nothing is known it isn't known that the other lines derive them. Effort alone rests on it.
    pub(crate) fn open_count(
        &self,
        alloc: Global,
        lines: &[Line],
        fates: &[Fate],
        order: &Order,
    ) -> Result<usize, Memory>
        requires own { IsLowerWith lines.now [] self.now }
        requires constants { All (HasConstantsBelow order.now.count) lines.now }
    {
        let mut count: usize = 0;
        for i in 0..lines.len() {
            if fate_of(fates, i) == Fate::Open && !self.is_told(alloc, lines, order, i)? {
                count = count.saturating_add(1);
            }
        }
        Ok(count)
    }

    // Whether the line at the index is no bound, or one of which it is known that the others derive it, if its variable exists.
    fn is_told(
        &self,
        alloc: Global,
        lines: &[Line],
        order: &Order,
        i: usize,
    ) -> Result<bool, Memory>
        requires within { i < length lines.now }
        requires own { IsLowerWith lines.now [] self.now }
        requires constants { All (HasConstantsBelow order.now.count) lines.now }
    {
        match &lines[i] {
            Line::Var(_) | Line::Same(_, _) | Line::Sub(_, _) => Ok(true),
            Line::Low(k, x) => {
                let others = other_bounds(alloc, lines, i)?;
                let from = lows(alloc, &others, order, *k)?;
                let led = self.leads(alloc, &from, slice::from_ref(x))?;
                Ok(led)
            }
            Line::Up(x, k) => {
                let others = other_bounds(alloc, lines, i)?;
                let to = ups(alloc, &others, order, *k)?;
                let led = self.leads(alloc, slice::from_ref(x), &to)?;
                Ok(led)
            }
        }
    }
}

// The bounds among the lines but the one at an index.
fn other_bounds(alloc: Global, lines: &[Line], i: usize) -> Result<Vec<Line>, Memory>
    ensures { IfOk result (λ others. (l : Given) → Contains others.items l → Contains lines.now l) }
{
    let mut others = Vec::new(alloc);
    for j in 0..lines.len() {
        if j != i && is_bound(&lines[j]) {
            others.push(lines[j].copy()?)?;
        }
    }
    Ok(others)
}

// Whether a table of lines tells that a variable lies below another one. Where it doesn't, nothing is said.
pub(crate) fn is_tabled(alloc: Global, lines: &[Line], x: &Dtv, y: &Dtv) -> Result<bool, Memory>
    ensures { IfOk result (λ yes. yes ≡ true → (order : Below) → HasBelow order lines.now (x.now ∷ []) (y.now ∷ [])) }
{
    let mut sides = Vec::with_capacity(alloc, 2)?;
    sides.push(x.copy()?)?;
    sides.push(y.copy()?)?;
    let table = table_of(alloc, lines, &sides, Extent::FirstBelowSecond)?;
    Ok(tells_of(&table, x, slice::from_ref(y)))
}

// Whether a table tells that one of the variables lies below one of the others.
fn tells(table: &GrowingTable, from: &[Dtv], to: &[Dtv]) -> bool
    requires { (told : List Given) × Tells told table.now }
    ensures { result ≡ true → (told : List Given) → Tells told table.now → (order : Below) →
        HasBelow order told from.now to.now }
{
    for x in from {
        if tells_of(table, x, to) {
            return true;
        }
    }
    false
}

// Whether a table tells that a variable lies below one of the others.
fn tells_of(table: &GrowingTable, x: &Dtv, to: &[Dtv]) -> bool
    requires { (told : List Given) × Tells told table.now }
    ensures { result ≡ true → (told : List Given) → Tells told table.now → (order : Below) →
        HasBelow order told (x.now ∷ []) to.now }
{
    for y in to {
        if table.has(x, y) {
            return true;
        }
    }
    false
}

// The variables of bounds. Effort alone rests on which they are.
fn bounded(alloc: Global, lines: &[Line]) -> Result<Vec<Dtv>, Memory> {
    let mut sides = Vec::new(alloc);
    for line in lines {
        match line {
            Line::Low(_, x) | Line::Up(x, _) => sides.push(x.copy()?)?,
            Line::Var(_) | Line::Same(_, _) | Line::Sub(_, _) => {}
        }
    }
    Ok(sides)
}
