// Ways between the variables that lines name, along lines and what is pushed.
ghost use Rattle.std.specs.Prelude.{◌≡◌, ◌+◌, ◌<◌, ◌++◌, ◌∷◌, ℕ, [], List, Contains, IfOk, OnOk, Some};
ghost use Rattle.std.specs.Prelude.{drop, false, length, slice_get, slice_index_or, true};
ghost use Rattle.rt_lines.specs.declared.line.Line.{Line as Given};
ghost use Rattle.rt_lines.specs.declared.variable.Dtv.{Dtv as Variable};
ghost use Rattle.rt_lines.specs.Orders.{Below};
ghost use Rattle.rt_lines.specs.declared.line.Line.TheVariants.{Sub as Subtype};
ghost use Rattle.rt_rules.specs.Rules.{Derivable, HasSide};
ghost use Rattle.rt_named.specs.Naming.{named as named_by};
ghost use Rattle.rt_outline.specs.Lines.{AreNumbers, standing};
ghost use Rattle.rt_outline.specs.Lines.{HasBelow as HasVariableBelow};
ghost use Rattle.rt_sat.specs.declared.state.Edge.{Edge as Arrow};
ghost use Rattle.rt_sat.specs.Numbered.{AreWithin};
ghost use Rattle.rt_sat.specs.Tables.{AreThere, HasBelow, IsLayered};
ghost use Rattle.rt_sure.specs.Arcs.{AreArcs, AreAround, AreInside};

use rt_base::{Memory, Sequence};
use rt_lines::{Dtv, Line};
use rt_named::Named;
use rt_outline::{Arc, may_lead};
use rt_sat::{Edge, Table, saturated};
use std::alloc::Global;
use std::marker::Model;

/// Arcs between the variables that lines and others name, those of the lines and pushed ones. They lead from one to another
/// wherever some of the lines say that it lies below the other, and only where all lines say it.
#[derive(Drop)]
pub struct Ways {
    lines: Vec<Line>,
    named: Named,
    arcs: Vec<Sequence<Arc>>,
}

impl Model for Ways {
    ghost use Rattle.std.specs.Prelude.{};
    ghost use Rattle.rt_outline.specs.Lines.{Lined};
    ghost use Rattle.rt_sure.specs.Arcs.{AreAround, AreInside};

    ghost Value = { Lined };

    ghost view = { λ w. record { lines = w.lines.items; named = w.named } };

    ghost invariant = { λ w. AreAround w.lines.items w.named w.arcs.items × AreInside w.lines.items w.named w.arcs.items };
}

impl Ways {
    /// The arcs of the lines, between the variables that they and others name, which exist. The error is out of memory.
    pub fn of(alloc: Global, lines: Vec<Line>, extra: &[Dtv]) -> Result<Ways, Memory>
        requires { AreThere lines.items extra.now }
        ensures { IfOk result (λ ways. ways ≡ record { lines = lines.items; named = named_by lines.items extra.now }) }
    {
        let (named, arcs) = named_arcs(alloc, &lines, extra)?;
        Ok(Ways { lines, named, arcs })
    }

    /// The lines.
    pub fn lines(&self) -> &[Line]
        ensures { result.now ≡ self.now.lines }
    {
        &self.lines
    }

    /// Whether the first variable may lie below the second by the lines that stand, those whose flags are set: no only where these
    /// don't say so. The error is out of memory.
    pub fn may_lie_below(
        &self,
        alloc: Global,
        stands: &[bool],
        x: &Dtv,
        y: &Dtv,
    ) -> Result<bool, Memory>
        ensures { IfOk result (λ yes. yes ≡ false → (order : Below) →
            Derivable order (standing self.now.lines stands.now) (Subtype x.now y.now) → ⊥) }
    {
        let Some(from) = self.named.index(x) else {
            return Ok(true);
        };
        let Some(to) = self.named.index(y) else {
            return Ok(true);
        };
        let yes = self.lead(alloc, stands, &[from], &[to])?;
        Ok(yes)
    }

    /// Whether one of the variables lies below one of the others by the lines. All are named. The error is out of memory.
    pub fn leads(&self, alloc: Global, from: &[Dtv], to: &[Dtv]) -> Result<bool, Memory>
        requires from { (x : Variable) → Contains from.now x → Contains self.now.named x }
        requires to { (x : Variable) → Contains to.now x → Contains self.now.named x }
        ensures no { IfOk result (λ yes. yes ≡ false → (order : Below) →
            HasVariableBelow order self.now.lines from.now to.now → ⊥) }
        ensures yes { IfOk result (λ yes. yes ≡ true → (order : Below) →
            HasVariableBelow order self.now.lines from.now to.now) }
    {
        let sources = numbers(alloc, &self.named, from)?;
        let targets = numbers(alloc, &self.named, to)?;
        let stands = vec![in alloc; true; self.lines.len()]?;
        let yes = self.lead(alloc, &stands, &sources, &targets)?;
        Ok(yes)
    }

    // Whether arcs of lines that stand, and pushed ones, lead from one of the numbers to one of the others.
    fn lead(
        &self,
        alloc: Global,
        stands: &[bool],
        sources: &[u32],
        targets: &[u32],
    ) -> Result<bool, Memory>
        requires sources { (s : ℕ) → Contains sources.now s → s < length self.now.named }
        requires targets { (t : ℕ) → Contains targets.now t → t < length self.now.named }
        ensures no { IfOk result (λ yes. yes ≡ false → (order : Below) →
            HasBelow order (standing self.now.lines stands.now) self.now.named sources.now targets.now → ⊥) }
        ensures yes { IfOk result (λ yes. yes ≡ true → (order : Below) →
            HasBelow order self.now.lines self.now.named sources.now targets.now) }
    {
        let yes = may_lead(alloc, &self.arcs, stands, sources, targets)?;
        Ok(yes)
    }
}

// The variables that lines and others name, which exist, and the arcs between them.
fn named_arcs(
    alloc: Global,
    lines: &[Line],
    extra: &[Dtv],
) -> Result<(Named, Vec<Sequence<Arc>>), Memory>
    requires { AreThere lines.now extra.now }
    ensures named { IfOk result (λ made. made.0 ≡ named_by lines.now extra.now) }
    ensures around { IfOk result (λ made. AreAround lines.now made.0 made.1.items) }
    ensures inside { IfOk result (λ made. AreInside lines.now made.0 made.1.items) }
{
    let table = table_of(alloc, lines, extra)?;
    let arcs = arcs_of(alloc, lines, &table)?;
    Ok((table.named, arcs))
}

// The table of the lines, with places for others that exist.
fn table_of(alloc: Global, lines: &[Line], extra: &[Dtv]) -> Result<Table, Memory>
    requires { AreThere lines.now extra.now }
    ensures { IfOk result (λ table. IsLayered lines.now extra.now table.named table.edges.items table.lines) }
{
    let shape = rt_shape::of(alloc, lines)?;
    saturated(alloc, lines, &shape, extra)
}

// The numbers of named variables.
fn numbers(alloc: Global, named: &Named, variables: &[Dtv]) -> Result<Vec<u32>, Memory>
    requires { (x : Variable) → Contains variables.now x → Contains named.now x }
    ensures { IfOk result (λ numbers. AreNumbers named.now variables.now numbers.items) }
{
    let mut numbers = Vec::with_capacity(alloc, variables.len())?;
    for x in variables {
        numbers.push(named.number(x))?;
    }
    Ok(numbers)
}

// The arcs of the lines, and of the edges that are pushed.
fn arcs_of(alloc: Global, lines: &[Line], table: &Table) -> Result<Vec<Sequence<Arc>>, Memory>
    requires named { (l : Given) (x : Variable) → Contains lines.now l → HasSide l x → Contains table.now.named x }
    requires within { AreWithin table.now.named table.now.edges.items }
    ensures { IfOk result (λ arcs. AreArcs lines.now (length lines.now) table.now.named
        (drop table.now.lines table.now.edges.items) arcs.items) }
{
    let mut arcs = no_arcs(alloc, table.named.len())?;
    for i in 0..lines.len() {
        enter_line(&table.named, &mut arcs, &lines[i], i)?;
    }
    for j in table.lines..table.edges.len() {
        enter_edge(&mut arcs, &table.edges[j])?;
    }
    Ok(arcs)
}

// No arcs at so many numbers.
fn no_arcs(alloc: Global, count: usize) -> Result<Vec<Sequence<Arc>>, Memory>
    ensures length { IfOk result (λ arcs. length arcs.items ≡ count) }
    ensures none { IfOk result (λ arcs. (v : ℕ) → slice_index_or arcs.items v [] ≡ []) }
{
    let mut arcs = Vec::with_capacity(alloc, count)?;
    for _ in 0..count {
        arcs.push(Sequence::new(alloc))?;
    }
    Ok(arcs)
}

// Adds the arc of the line at the index, if it is a subtype line.
fn enter_line(
    named: &Named,
    arcs: &mut Vec<Sequence<Arc>>,
    line: &Line,
    i: usize,
) -> Result<(), Memory>
    requires named { (x : Variable) → HasSide line.now x → Contains named.now x }
    requires each { length arcs.old.items ≡ length named.now }
    ensures { OnOk result ((lines : List Given) (edges : List Arrow) → slice_get lines i ≡ Some line.now →
        AreArcs lines i named.now edges arcs.old.items → AreArcs lines (i + 1) named.now edges arcs.new.items) }
{
    match line {
        Line::Sub(x, y) => {
            let from = named.number(x);
            let to = named.number(y);
            arcs[from as usize].push(Arc {
                to,
                line: Some(Arc::line_at(i)?),
            })?;
            Ok(())
        }
        Line::Var(_) | Line::Same(_, _) | Line::Low(_, _) | Line::Up(_, _) => Ok(()),
    }
}

// Adds a pushed arc for the edge, if it has the count nought and turns nothing round.
fn enter_edge(arcs: &mut Vec<Sequence<Arc>>, edge: &Edge) -> Result<(), Memory>
    requires { edge.now.from.variable < length arcs.old.items }
    ensures { OnOk result ((lines : List Given) (count : ℕ) (named : List Variable) (seen : List Arrow) →
        AreArcs lines count named seen arcs.old.items → AreArcs lines count named (seen ++ edge.now ∷ []) arcs.new.items) }
{
    if edge.from.contra || edge.to.contra || edge.count.capped() != 0 {
        return Ok(());
    }
    arcs[edge.from.variable as usize].push(Arc {
        to: edge.to.variable,
        line: None,
    })?;
    Ok(())
}
