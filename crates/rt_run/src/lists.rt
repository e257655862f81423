// The lines that a report gives of each procedure.
ghost use Rattle.std.specs.Prelude.{◌≡◌, ◌<◌, ◌⊎◌, ℕ, List, Some, None, All, Contains};
ghost use Rattle.std.specs.Prelude.{IfOk, OnOk, length, option_map, replicate, slice_index_or};
ghost use Rattle.rt_lines.specs.declared.line.Line.{Line};
ghost use Rattle.rt_scheme.specs.declared.scheme.Scheme.{Scheme};
ghost use Rattle.rt_table.specs.Bodies.{numbers_in};
ghost use Rattle.rt_run.specs.Inside.Analyses.{AreListed, AreListsOf, IsAnalysis, IsListed, procs_in};

use crate::analysis::Analysis;
use crate::content::Told;
use rt_base::Memory;
use rt_lines::Lines;
use rt_table::{Bodies, lines_of};
use std::alloc::Global;

/// For each procedure its lines, where they are known.
pub type Lists = Vec<Option<Lines>>;

// Puts the lists of lines at their procedures' numbers.
fn put(bodies: Bodies, lists: &mut Lists)
    requires { All (λ number. number < length lists.old.items) (numbers_in bodies) }
    ensures long { length lists.new.items ≡ length lists.old.items }
    ensures each { (number : ℕ) (lines : List Line) → slice_index_or lists.new.items number None ≡ Some lines
        → (slice_index_or lists.old.items number None ≡ Some lines) ⊎ Contains bodies (number, lines) }
    ensures members { AreListed lists.new.items (numbers_in bodies) }
    ensures kept { (number : ℕ) → IsListed lists.old.items number → IsListed lists.new.items number }
{
    for (number, lines) in bodies.into_vec() {
        lists[number as usize] = Some(lines);
    }
}

// So many procedures without lines.
fn none(alloc: Global, count: usize) -> Result<Lists, Memory>
    ensures { IfOk result (λ lists. lists.items ≡ replicate count None) }
{
    let mut lists = Vec::with_capacity(alloc, count)?;
    for _ in 0..count {
        lists.push(None)?;
    }
    Ok(lists)
}

impl Analysis<'_> {
    // Adds the lines of a group's members, by the table.
    fn add_constraints(&self, alloc: Global, group: &[u32], lists: &mut Lists) -> Result<(), Memory>
        requires analysis { IsAnalysis self.now }
        requires group { Contains self.now.groups group.now }
        requires long { length lists.old.items ≡ length (procs_in self.now) }
        requires lists { AreListsOf Told.Constraints self.now lists.old.items }
        ensures long { OnOk result (length lists.new.items ≡ length lists.old.items) }
        ensures lists { OnOk result (AreListsOf Told.Constraints self.now lists.new.items) }
        ensures members { OnOk result (AreListed lists.new.items group.now) }
        ensures kept { OnOk result ((number : ℕ) → IsListed lists.old.items number → IsListed lists.new.items number) }
    {
        let bodies = lines_of(
            alloc,
            &self.facts,
            group,
            &self.schemes,
            self.sigs,
            self.lattice,
        )?;
        put(bodies, lists);
        Ok(())
    }

    // The lines of all procedures, by the table.
    fn constraints(&self, alloc: Global) -> Result<Lists, Memory>
        requires { IsAnalysis self.now }
        ensures long { IfOk result (λ lists. length lists.items ≡ length (procs_in self.now)) }
        ensures lists { IfOk result (λ lists. AreListsOf Told.Constraints self.now lists.items) }
        ensures full { IfOk result (λ lists. (number : ℕ) → number < length (procs_in self.now) → IsListed lists.items number) }
    {
        let mut lists = none(alloc, self.facts.procs().len())?;
        for group in self.groups.items() {
            self.add_constraints(alloc, group.items(), &mut lists)?;
        }
        Ok(lists)
    }

    // The lines of the scheme of the procedure of a number.
    fn scheme_lines(&self, number: u32) -> Result<Option<Lines>, Memory>
        requires { number < length self.now.schemes }
        ensures { IfOk result (λ lines. lines ≡ option_map (λ (scheme : Scheme). scheme.lines)
            (slice_index_or self.now.schemes number None)) }
    {
        match self.schemes.get(number) {
            Some(scheme) => Ok(Some(scheme.lines.copy()?)),
            None => Ok(None),
        }
    }

    // The lines of the schemes of all procedures.
    fn scheme_lists(&self, alloc: Global) -> Result<Lists, Memory>
        requires { IsAnalysis self.now }
        ensures long { IfOk result (λ lists. length lists.items ≡ length (procs_in self.now)) }
        ensures lists { IfOk result (λ lists. AreListsOf Told.Schemes self.now lists.items) }
        ensures full { IfOk result (λ lists. (number : ℕ) → number < length (procs_in self.now) → IsListed lists.items number) }
    {
        let count = self.facts.procs().len() as u32;
        let mut lists = Vec::with_capacity(alloc, count as usize)?;
        for number in 0..count {
            lists.push(self.scheme_lines(number)?)?;
        }
        Ok(lists)
    }

    /// What a report says of each procedure, by the procedures' numbers. The error is out of memory.
    pub fn lists(&self, alloc: Global, told: Told) -> Result<Lists, Memory>
        requires { IsAnalysis self.now }
        ensures long { IfOk result (λ lists. length lists.items ≡ length (procs_in self.now)) }
        ensures lists { IfOk result (λ lists. AreListsOf told self.now lists.items) }
        ensures full { IfOk result (λ lists. (number : ℕ) → number < length (procs_in self.now) → IsListed lists.items number) }
    {
        match told {
            Told::Constraints => self.constraints(alloc),
            Told::Schemes => self.scheme_lists(alloc),
        }
    }
}
