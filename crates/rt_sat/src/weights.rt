// Least counts between named variables.
ghost use Rattle.std.specs.Prelude.{◌≡◌, ◌<◌, [], IfOk, length, slice_index_or};
ghost use Rattle.rt_sat.specs.Searches.{IsIndexed};
ghost use Rattle.rt_sat.specs.Tables.{AreThere};
ghost use Rattle.rt_sat.specs.Weights.{variables, AreSearches, IsCapped, IsIndex, IsWeightAt};

use crate::count::Count;
use crate::indexing::indexed;
use crate::pushing::turns;
use crate::reached::Reached;
use crate::search::search;
use crate::state::{Edge, State};
use crate::table::{Table, whole};
use rt_base::{Memory, Sequence};
use rt_lines::{Dtv, Line, Variance};
use rt_named::Named;
use std::alloc::Global;
use std::marker::Model;

// The states that a search finds, with their counts.
#[derive(Drop)]
pub(crate) struct Row {
    found: Reached,
}

impl Model for Row {
    ghost use Rattle.std.specs.Prelude.{ℕ, List};
    ghost use Rattle.rt_sat.specs.declared.state.State.{State as Place};

    ghost Value = { List (Place × ℕ) };

    ghost view = { λ r. r.found };
}

impl Row {
    // The count of a state, or 4,294,967,295 where it is greater.
    fn count(&self, target: &State) -> Option<u32>
        ensures { IsCapped self.now target.now result }
    {
        match self.found.get(*target) {
            Some(count) => Some(count.capped()),
            None => None,
        }
    }
}

/// The least counts between the variables that lines and others name. Contracts see the lines and the others.
#[derive(Drop)]
pub struct Sat {
    lines: Vec<Line>,
    extra: Vec<Dtv>,
    named: Named,
    // For each variable what a search finds from its state that keeps the order, and from the one that turns it round.
    co: Vec<Row>,
    contra: Vec<Row>,
}

impl Model for Sat {
    ghost use Rattle.rt_sat.specs.Weights.{AreWeighed, Listed};

    ghost Value = { Listed };

    ghost view = { λ s. record { lines = s.lines.items; extra = s.extra.items } };

    ghost invariant = { λ s. AreWeighed s.lines.items s.extra.items s.named s.co.items s.contra.items };
}

/// All least counts between the variables that the lines and others, which exist, name. The error is out of memory.
pub fn saturate(alloc: Global, lines: &[Line], extra: &[Dtv]) -> Result<Sat, Memory>
    requires { AreThere lines.now extra.now }
    ensures { IfOk result (λ sat. sat ≡ record { lines = lines.now; extra = extra.now }) }
{
    let shape = rt_shape::of(alloc, lines)?;
    let table = whole(alloc, lines, &shape, extra)?;
    let leaving = indexed(alloc, &table.edges)?;
    let co = rows(alloc, &table.named, &table.edges, &leaving, false)?;
    let contra = rows(alloc, &table.named, &table.edges, &leaving, true)?;
    let lines = copied_lines(alloc, lines)?;
    let extra = copied(alloc, extra)?;
    let Table { named, .. } = table;
    Ok(Sat {
        lines,
        extra,
        named,
        co,
        contra,
    })
}

impl Sat {
    /// The least number of pointer steps that a common rest must give for the variable of the first number, followed by a
    /// rest of the first sign, to lie below that of the second, followed by a rest of the second sign, or 4,294,967,295
    /// where that number is greater. It is `None` exactly where no rest gives it. A variable's number is its place among
    /// those that the lines and the others name. It takes no memory.
    pub fn weight(&self, p: u32, p_sign: Variance, q: u32, q_sign: Variance) -> Option<u32>
        requires p { p < length (variables self.now) }
        requires q { q < length (variables self.now) }
        ensures { IsWeightAt self.now p p_sign q q_sign result }
    {
        let target = State {
            variable: q,
            contra: turns(q_sign),
        };
        match p_sign {
            Variance::Co => known(&self.co, p, &target),
            Variance::Contra => known(&self.contra, p, &target),
        }
    }

    /// The place of a variable among those that the lines and the others name, or `None` exactly where it isn't one of them.
    /// It takes no memory.
    pub fn index(&self, x: &Dtv) -> Option<u32>
        ensures { IsIndex self.now x.now result }
    {
        self.named.index(x)
    }
}

// What searches find from the state of each variable that turns the order round, or that does not.
fn rows(
    alloc: Global,
    named: &Named,
    edges: &[Edge],
    leaving: &[Sequence<usize>],
    contra: bool,
) -> Result<Vec<Row>, Memory>
    requires { IsIndexed edges.now leaving.now }
    ensures { IfOk result (λ rows. AreSearches edges.now contra (length named.now) rows.items) }
{
    let mut rows = Vec::new(alloc);
    for number in 0..named.len() {
        let start = State {
            variable: number as u32,
            contra,
        };
        let mut found = Reached::new(alloc);
        search(alloc, edges, leaving, start, None, &mut found)?;
        rows.push(Row { found })?;
    }
    Ok(rows)
}

// The count that a row of a number has of a state, or 4,294,967,295 where it is greater.
fn known(rows: &[Row], number: u32, target: &State) -> Option<u32>
    requires { number < length rows.now }
    ensures { IsCapped (slice_index_or rows.now number []) target.now result }
{
    let row = &rows[number as usize];
    row.count(target)
}

// The lines, once more.
fn copied_lines(alloc: Global, lines: &[Line]) -> Result<Vec<Line>, Memory>
    ensures { IfOk result (λ copied. copied.items ≡ lines.now) }
{
    let mut copied = Vec::new(alloc);
    for line in lines {
        copied.push(line.copy()?)?;
    }
    Ok(copied)
}

// The variables, once more.
fn copied(alloc: Global, variables: &[Dtv]) -> Result<Vec<Dtv>, Memory>
    ensures { IfOk result (λ copied. copied.items ≡ variables.now) }
{
    let mut copied = Vec::new(alloc);
    for x in variables {
        copied.push(x.copy()?)?;
    }
    Ok(copied)
}
