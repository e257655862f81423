// The lists of lines of procedures.
ghost use Rattle.std.specs.Prelude.{◌≡◌, ◌<◌, ◌≤◌, ℕ, [], All, IfOk, get_or, length, map};
ghost use Rattle.rt_lines.specs.Lines.{HasConstantsBelow};
ghost use Rattle.rt_lattice.specs.Lattices.{size_of};
ghost use Rattle.rt_rows.specs.Terms.{IsGroupRow};
ghost use Rattle.rt_sigs.specs.Signatures.{AreSignatures};
ghost use Rattle.rt_scheme.specs.Splitting.{AreInterfaceLines};
ghost use Rattle.rt_table.specs.Bodies.{lists_in, numbers_in};
ghost use Rattle.rt_table.specs.Facts.{IsFactsOf};
ghost use Rattle.rt_body.specs.Registers.{HasRegisters};
ghost use Rattle.rt_table.specs.Lists.{AreGiven, AreLinesOf, AreRowsOf, HasGlobalsOf, IsContext, is_member, linked_in};
ghost use Rattle.rt_table.specs.Inside.Naming.{AreRowsGiven};
ghost use Rattle.rt_table.specs.Inside.Parts.{named_results};
ghost use Rattle.rt_table.specs.Table.{AreProcedureRows};
ghost use Rattle.rt_table.specs.Inside.Told.{context_of, known_in, linked_of, program_in};

use crate::context::{Context, Outside};
use crate::facts::Facts;
use indexmap::IndexSet;
use rt_base::{Memory, Sequence};
use rt_lattice::Lattice;
use rt_lines::Lines;
use rt_liveness::Call;
use rt_rows::{Rows, group_lines};
use rt_scheme::Schemes;
use rt_sigs::Sigs;
use std::alloc::Global;

/// The lists of lines of procedures, each with the procedure's number.
pub type Bodies = Sequence<(u32, Lines)>;

// The members of a group.
fn members_of(alloc: Global, group: &[u32]) -> Result<IndexSet<u32>, Memory>
    ensures { IfOk result (λ members. (q : ℕ) → is_member members.keys q ≡ is_member group.now q) }
{
    let mut members = IndexSet::new(alloc);
    for number in group {
        members.insert(*number)?;
    }
    Ok(members)
}

// What the table is read against for the member of a group of a number.
fn context_at<'a>(
    alloc: Global,
    outside: Outside<'a>,
    number: u32,
    calls: &'a [Sequence<Call>],
    named: &'a [[bool; 2]],
    lattice: &'a Lattice,
) -> Context<'a>
    requires facts { IsFactsOf outside.facts.now.object.now outside.facts.now.procs.now outside.facts.now.sigs.now outside.facts.now }
    requires within { number < length outside.facts.now.procs.now }
    requires calls { calls.now ≡ get_or outside.facts.now.calls number [] }
    requires named { named.now ≡ map named_results (linked_of outside calls.now) }
    ensures is { IsContext (program_in outside.entry.facts.now) (known_in outside.entry.facts.now) lattice.now.roles
        outside.entry.schemes.now outside.entry.members.now.keys number (context_of result) }
    ensures linked { (context_of result).linked
        ≡ linked_in (program_in outside.entry.facts.now) (known_in outside.entry.facts.now) outside.entry.schemes.now
        outside.entry.members.now.keys result.calls.now }
{
    let place = number as usize;
    let body = &outside.facts.bodies[place];
    let framed = &outside.facts.frames[place];
    Context {
        alloc,
        procedure: number,
        body,
        frame: &framed.frame,
        calls,
        named,
        outside,
        lattice,
    }
}

impl Context<'_> {
    // The rows of the procedure.
    fn procedure_rows(&self) -> Result<Rows, Memory>
        ensures rows { IfOk result (AreProcedureRows (context_of self.now)) }
        ensures registers { All HasRegisters (context_of self.now).reading.actions }
    {
        let _actions = self.body.actions();
        let items = self.items()?;
        let written = self.written(items)?;
        self.filled(written)
    }
}

// The rows of the procedure of a number.
fn rows_of(
    alloc: Global,
    outside: Outside<'_>,
    number: u32,
    lattice: &Lattice,
) -> Result<Rows, Memory>
    requires facts { IsFactsOf outside.facts.now.object.now outside.facts.now.procs.now outside.facts.now.sigs.now outside.facts.now }
    requires signatures { AreSignatures (size_of lattice.now) outside.facts.now.sigs.now }
    requires within { number < length outside.facts.now.procs.now }
    ensures found { IfOk result (AreRowsOf (program_in outside.entry.facts.now) (known_in outside.entry.facts.now) lattice.now.roles
        outside.entry.schemes.now outside.entry.members.now.keys number) }
    ensures interfaces { IfOk result (All IsGroupRow) }
    ensures given { AreGiven outside.entry.facts.now.object.now (size_of lattice.now) outside.entry.schemes.now
        → IfOk result (AreRowsGiven outside.entry.facts.now.object.now (size_of lattice.now)) }
{
    rt_link::laws::symbols();
    let _names = lattice.names();
    let calls = outside.calls(number);
    let named = outside.named_results(alloc, calls)?;
    let context = context_at(alloc, outside, number, calls, &named, lattice);
    context.procedure_rows()
}

// The lists of lines of the procedures of some numbers, in their order.
fn lists_of(
    alloc: Global,
    facts: &Facts<'_>,
    group: &[u32],
    schemes: &Schemes,
    sigs: &Sigs,
    lattice: &Lattice,
) -> Result<Sequence<Lines>, Memory>
    requires facts { IsFactsOf facts.now.object.now facts.now.procs.now facts.now.sigs.now facts.now }
    requires sigs { sigs.now ≡ facts.now.sigs.now }
    requires signatures { AreSignatures (size_of lattice.now) sigs.now }
    requires within { All (λ number. number < length facts.now.procs.now) group.now }
    requires enough { length facts.now.procs.now ≤ length schemes.now }
    ensures found { IfOk result (AreLinesOf facts.now.object.now lattice.now.roles facts.now.procs.now sigs.now schemes.now group.now) }
    ensures constants { AreGiven facts.now.object.now (size_of lattice.now) schemes.now
        → IfOk result (All (All (HasConstantsBelow (size_of lattice.now)))) }
    ensures globals { AreGiven facts.now.object.now (size_of lattice.now) schemes.now
        → IfOk result (All (HasGlobalsOf facts.now.object.now)) }
    ensures interfaces { IfOk result (All AreInterfaceLines) }
    ensures one_each { IfOk result (λ bodies. length bodies ≡ length group.now) }
{
    let members = members_of(alloc, group)?;
    let outside = Outside {
        facts,
        members: &members,
        schemes,
    };
    let mut lists = Vec::with_capacity(alloc, group.len())?;
    for number in group {
        lists.push(rows_of(alloc, outside, *number, lattice)?)?;
    }
    let bodies = group_lines(alloc, lists)?;
    Ok(Sequence::from_vec(bodies))
}

// The lists with the numbers of their procedures.
fn numbered(alloc: Global, group: &[u32], lists: Sequence<Lines>) -> Result<Bodies, Memory>
    requires { length lists ≡ length group.now }
    ensures numbers { IfOk result (λ bodies. numbers_in bodies ≡ group.now) }
    ensures lists { IfOk result (λ bodies. lists_in bodies ≡ lists) }
{
    let mut bodies = Vec::with_capacity(alloc, group.len())?;
    for lines in lists.into_vec() {
        bodies.push((group[bodies.len()], lines))?;
    }
    Ok(Sequence::from_vec(bodies))
}

/// The lists of lines of the procedures of some numbers, in their order, where procedures outside the group have these schemes.
/// Existentials are numbered from 0 in the order in which they first stand in all of the lists, and each list has each of
/// its lines once. The error is out of memory.
pub fn lines_of(
    alloc: Global,
    facts: &Facts<'_>,
    group: &[u32],
    schemes: &Schemes,
    sigs: &Sigs,
    lattice: &Lattice,
) -> Result<Bodies, Memory>
    requires facts { IsFactsOf facts.now.object.now facts.now.procs.now facts.now.sigs.now facts.now }
    requires sigs { sigs.now ≡ facts.now.sigs.now }
    requires signatures { AreSignatures (size_of lattice.now) sigs.now }
    requires within { All (λ number. number < length facts.now.procs.now) group.now }
    requires enough { length facts.now.procs.now ≤ length schemes.now }
    ensures found { IfOk result (λ bodies. AreLinesOf facts.now.object.now lattice.now.roles facts.now.procs.now sigs.now schemes.now
        group.now (lists_in bodies)) }
    ensures numbers { IfOk result (λ bodies. numbers_in bodies ≡ group.now) }
    ensures constants { AreGiven facts.now.object.now (size_of lattice.now) schemes.now
        → IfOk result (λ bodies. All (All (HasConstantsBelow (size_of lattice.now))) (lists_in bodies)) }
    ensures globals { AreGiven facts.now.object.now (size_of lattice.now) schemes.now
        → IfOk result (λ bodies. All (HasGlobalsOf facts.now.object.now) (lists_in bodies)) }
    ensures interfaces { IfOk result (λ bodies. All AreInterfaceLines (lists_in bodies)) }
{
    let lists = lists_of(alloc, facts, group, schemes, sigs, lattice)?;
    numbered(alloc, group, lists)
}
