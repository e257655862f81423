// Tables of counts, with the steps that they come from.
ghost use Rattle.std.specs.Prelude.{◌≡◌, ◌∷◌, ◌++◌, ◌<◌, [], Contains, length, replicate, slice_set, IfOk, OnOk};
ghost use Rattle.rt_grid.specs.declared.grid.Step.{Step as Pace};
ghost use Rattle.rt_grid.specs.Tables.{row_of, size_of, steps_of, AreSquare, AreSquareBut, AreWays, AreWithin, Holds, IsRelaxedBy, IsRest, Made, Says, SaysOr};
ghost use Rattle.rt_grid.specs.Tables.{SaysWith};

use crate::pruning::pruned;
use crate::rows::{first_row, lower, relax};
use rt_base::{Memory, Sequence};
use std::alloc::Global;
use std::marker::Model;
use std::mem;

/// What stands in a row where no count is known.
pub const NONE: u8 = 255;

// How often a table is gone over at most: what isn't found then stays unknown.
const SWEEPS: usize = 100_000;

/// A step to a place, with the count that it adds.
#[derive(Clone, Copy)]
pub struct Step {
    /// The place that it leads to.
    pub to: usize,
    /// What it adds to the count of a way.
    pub count: u8,
}

/// Least counts of ways between places, as far as they are known, and the steps that the ways are made of.
#[derive(Drop)]
pub struct Grid {
    // By the place where a way begins, and by that where it ends.
    rows: Vec<Sequence<u8>>,
    // The steps from each place.
    steps: Vec<Sequence<Step>>,
    // When each row changed.
    changed: Vec<u64>,
    // When what steps from each place lead to was taken in.
    seen: Vec<u64>,
    // Whether steps from each place came since spare ones were forgotten there. Effort alone rests on these.
    fresh: Vec<bool>,
    // How often something was noted.
    clock: u64,
}

impl Model for Grid {
    ghost use Rattle.rt_grid.specs.Tables.{IsTable, Table};

    ghost Value = { Table };

    ghost view = { λ g. record { rows = g.rows.items; steps = g.steps.items } };

    ghost invariant = { λ g. IsTable g.rows.items g.steps.items g.changed.items g.seen.items };
}

impl Grid {
    /// A table of so many places, without steps: a way of count nought leads from each place to itself. The error is out of
    /// memory.
    pub fn new(alloc: Global, size: usize) -> Result<Grid, Memory>
        ensures size { IfOk result (λ grid. size_of grid ≡ size) }
        ensures holds { IfOk result (Holds (IsRest size)) }
    {
        let rows = first_rows(alloc, size)?;
        let steps = no_steps(alloc, size)?;
        let changed = vec![in alloc; 1; size]?;
        let seen = vec![in alloc; 0; size]?;
        let fresh = vec![in alloc; false; size]?;
        Ok(Grid {
            rows,
            steps,
            changed,
            seen,
            fresh,
            clock: 1,
        })
    }

    /// The same table once more. The error is out of memory.
    pub fn copy(&self, alloc: Global) -> Result<Grid, Memory>
        ensures { IfOk result (λ copy. copy ≡ self.now) }
    {
        let rows = rows_of(alloc, &self.rows)?;
        let steps = all_steps_of(alloc, &self.steps)?;
        let changed = self.changed.to_vec(alloc)?;
        let seen = self.seen.to_vec(alloc)?;
        let fresh = self.fresh.to_vec(alloc)?;
        Ok(Grid {
            rows,
            steps,
            changed,
            seen,
            fresh,
            clock: self.clock,
        })
    }

    /// How many places there are.
    pub fn len(&self) -> usize
        ensures { result ≡ size_of self.now }
    {
        self.rows.len()
    }

    /// The counts of ways from a place, by the places where they end, 255 where none is known.
    pub fn row(&self, place: usize) -> &[u8]
        requires { place < size_of self.now }
        ensures row { result.now ≡ row_of self.now.rows place }
        ensures long { length result.now ≡ size_of self.now }
    {
        self.rows[place].items()
    }

    /// The steps from a place.
    pub fn steps(&self, place: usize) -> &[Step]
        requires { place < size_of self.now }
        ensures steps { result.now ≡ steps_of self.now.steps place }
        ensures inside { (s : Pace) → Contains result.now s → s.to < size_of self.now }
    {
        self.steps[place].items()
    }

    /// When something was last noted. Nothing is promised of this number: effort alone rests on it.
    pub fn clock(&self) -> u64 {
        self.clock
    }

    /// Whether the row of a place changed after a time. Nothing is promised of this: effort alone rests on it.
    pub fn has_changed(&self, place: usize, since: u64) -> bool
        requires { place < size_of self.now }
    {
        self.changed[place] > since
    }

    /// Adds a step to another place, if no way is known that is as short. Whether it was added. The error is out of memory.
    pub fn add(&mut self, alloc: Global, from: usize, to: usize, count: u8) -> Result<bool, Memory>
        requires from { from < size_of self.old }
        requires to { to < size_of self.old }
        ensures size { OnOk result (size_of self.new ≡ size_of self.old) }
        ensures holds { OnOk result (Holds (Made (SaysWith self.old from to count)) self.new) }
    {
        if self.rows[from].items()[to] <= count {
            return Ok(false);
        }
        if from == to {
            return Ok(false);
        }
        self.push_step(from, Step { to, count })?;
        let mut row = mem::replace(&mut self.rows[from], Sequence::new(alloc)).into_vec();
        relax(&mut row, self.rows[to].items(), count);
        self.rows[from] = Sequence::from_vec(row);
        self.clock = self.clock.saturating_add(1);
        self.changed[from] = self.clock;
        set(&mut self.fresh, from, true);
        Ok(true)
    }

    /// Takes in the counts of ways from a place, as far as they are less than those that are known, but adds no step: a way that
    /// goes on from there isn't known but by another one. Whether one was less. The error is out of memory.
    pub fn lower(&mut self, alloc: Global, from: usize, ways: &[Step]) -> Result<bool, Memory>
        requires from { from < size_of self.old }
        requires ways { AreWithin (size_of self.old) ways.now }
        ensures size { OnOk result (size_of self.new ≡ size_of self.old) }
        ensures holds { OnOk result (Holds (Made (SaysOr self.old from ways.now)) self.new) }
    {
        let mut row = mem::replace(&mut self.rows[from], Sequence::new(alloc)).into_vec();
        let any = lower(&mut row, ways);
        self.rows[from] = Sequence::from_vec(row);
        if any {
            self.clock = self.clock.saturating_add(1);
            self.changed[from] = self.clock;
        }
        Ok(any)
    }

    // Adds a step from a place to the others.
    fn push_step(&mut self, from: usize, step: Step) -> Result<(), Memory>
        requires from { from < size_of self.old }
        requires to { step.to < size_of self.old }
        ensures rows { OnOk result (self.new.rows ≡ self.old.rows) }
        ensures steps { OnOk result (self.new.steps ≡ slice_set self.old.steps from (steps_of self.old.steps from ++ step ∷ [])) }
    {
        self.steps[from].push(step)
    }

    /// Takes in what steps lead to, until no count is less. The error is out of memory.
    pub fn close(&mut self, alloc: Global) -> Result<(), Memory>
        ensures size { OnOk result (size_of self.new ≡ size_of self.old) }
        ensures holds { OnOk result (Holds (Made (Says self.old)) self.new) }
    {
        for _ in 0..SWEEPS {
            if !self.sweep(alloc)? {
                return Ok(());
            }
        }
        Ok(())
    }

    /// Takes in what steps lead to, once for each row from the first to the last and back. Whether a count became less. The error
    /// is out of memory.
    pub fn sweep(&mut self, alloc: Global) -> Result<bool, Memory>
        ensures size { OnOk result (size_of self.new ≡ size_of self.old) }
        ensures holds { OnOk result (Holds (Made (Says self.old)) self.new) }
    {
        let mut any = false;
        for place in 0..self.rows.len() {
            if self.go_over(alloc, place)? {
                any = true;
            }
        }
        for behind in 0..self.rows.len() {
            let place = self.rows.len() - 1 - behind;
            if self.go_over(alloc, place)? {
                any = true;
            }
        }
        Ok(any)
    }

    // Takes in what the steps from a place lead to, as far as that has changed. Whether the row changed.
    fn go_over(&mut self, alloc: Global, place: usize) -> Result<bool, Memory>
        requires { place < size_of self.old }
        ensures size { OnOk result (size_of self.new ≡ size_of self.old) }
        ensures holds { OnOk result (Holds (Made (Says self.old)) self.new) }
    {
        let last = self.seen[place];
        if !is_due(self.steps[place].items(), &self.changed, last) {
            return Ok(false);
        }
        self.clock = self.clock.saturating_add(1);
        self.seen[place] = self.clock;
        let mut row = mem::replace(&mut self.rows[place], Sequence::new(alloc)).into_vec();
        let any = relax_all(
            &mut row,
            &self.rows,
            self.steps[place].items(),
            &self.changed,
            last,
            place,
        );
        self.rows[place] = Sequence::from_vec(row);
        if any {
            self.changed[place] = self.clock;
        }
        Ok(any)
    }

    /// Forgets steps without which the ways are as short, from the places from which steps came since that was done last. The error
    /// is out of memory.
    pub fn prune(&mut self, alloc: Global) -> Result<(), Memory>
        ensures size { OnOk result (size_of self.new ≡ size_of self.old) }
        ensures holds { OnOk result (Holds (Says self.old) self.new) }
    {
        for place in 0..self.rows.len() {
            self.prune_at(alloc, place)?;
        }
        Ok(())
    }

    // Forgets steps from a place without which the ways are as short, if steps came there since that was done last.
    fn prune_at(&mut self, alloc: Global, place: usize) -> Result<(), Memory>
        requires { place < size_of self.old }
        ensures size { OnOk result (size_of self.new ≡ size_of self.old) }
        ensures holds { OnOk result (Holds (Says self.old) self.new) }
    {
        if !is_set(&self.fresh, place) {
            return Ok(());
        }
        self.steps[place] = pruned(alloc, &self.rows, self.steps[place].items(), place)?;
        set(&mut self.fresh, place, false);
        Ok(())
    }
}

// Whether the flag at an index is set.
fn is_set(flags: &[bool], index: usize) -> bool {
    match flags.get(index) {
        Some(flag) => *flag,
        None => false,
    }
}

// Sets the flag at an index, or clears it.
fn set(flags: &mut [bool], index: usize, to: bool) {
    if let Some(flag) = flags.get_mut(index) {
        *flag = to;
    }
}

// For each place a row that knows of that place alone.
fn first_rows(alloc: Global, size: usize) -> Result<Vec<Sequence<u8>>, Memory>
    ensures size { IfOk result (λ rows. length rows.items ≡ size) }
    ensures square { IfOk result (λ rows. AreSquare rows.items) }
    ensures ways { IfOk result (λ rows. AreWays (IsRest size) rows.items) }
{
    let mut rows = Vec::with_capacity(alloc, size)?;
    for place in 0..size {
        let row = first_row(alloc, size, place)?;
        rows.push(Sequence::from_vec(row))?;
    }
    Ok(rows)
}

// For each place no steps.
fn no_steps(alloc: Global, size: usize) -> Result<Vec<Sequence<Step>>, Memory>
    ensures { IfOk result (λ steps. steps.items ≡ replicate size []) }
{
    let mut steps = Vec::with_capacity(alloc, size)?;
    for _ in 0..size {
        steps.push(Sequence::new(alloc))?;
    }
    Ok(steps)
}

// The rows once more.
fn rows_of(alloc: Global, rows: &[Sequence<u8>]) -> Result<Vec<Sequence<u8>>, Memory>
    ensures { IfOk result (λ copies. copies.items ≡ rows.now) }
{
    let mut copies = Vec::with_capacity(alloc, rows.len())?;
    for row in rows {
        let copy = row.items().to_vec(alloc)?;
        copies.push(Sequence::from_vec(copy))?;
    }
    Ok(copies)
}

// The steps from each place once more.
fn all_steps_of(alloc: Global, steps: &[Sequence<Step>]) -> Result<Vec<Sequence<Step>>, Memory>
    ensures { IfOk result (λ copies. copies.items ≡ steps.now) }
{
    let mut copies = Vec::with_capacity(alloc, steps.len())?;
    for from in steps {
        let copy = from.items().to_vec(alloc)?;
        copies.push(Sequence::from_vec(copy))?;
    }
    Ok(copies)
}

// Whether a step leads to a row that changed since.
fn is_due(steps: &[Step], changed: &[u64], last: u64) -> bool
    requires { AreWithin (length changed.now) steps.now }
{
    for step in steps {
        if changed[step.to] > last {
            return true;
        }
    }
    false
}

// Takes in what steps lead to whose rows changed since, but for the row of a place. Whether a count was less.
fn relax_all(
    row: &mut [u8],
    rows: &[Sequence<u8>],
    steps: &[Step],
    changed: &[u64],
    last: u64,
    place: usize,
) -> bool
    requires square { AreSquareBut place rows.now }
    requires row { length row.old ≡ length rows.now }
    requires steps { AreWithin (length rows.now) steps.now }
    requires changed { length changed.now ≡ length rows.now }
    ensures each { length row.new ≡ length row.old }
    ensures counts { IsRelaxedBy row.old rows.now steps.now row.new }
{
    let mut any = false;
    for step in steps {
        if step.to != place && changed[step.to] > last {
            any |= relax(row, rows[step.to].items(), step.count);
        }
    }
    any
}
