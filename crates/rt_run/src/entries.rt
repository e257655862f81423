// The entries of a report.
ghost use Rattle.std.specs.Prelude.{◌≡◌, ◌<◌, [], ◌∷◌, None, All, IfOk, length, slice_index_or, slice_set};
ghost use Rattle.rt_lines.specs.Lines.{HasConstantsBelow};
ghost use Rattle.rt_lattice.specs.Lattices.{size_of};
ghost use Rattle.rt_table.specs.Lists.{HasGlobalsOf};
ghost use Rattle.rt_run.specs.Inside.Analyses.{IsAnalysis, object_in, procs_in};
ghost use Rattle.rt_run.specs.Reports.{AreEntries, IsEntryOf};

use crate::analysis::Analysis;
use crate::content::Told;
use crate::lists::Lists;
use rt_base::Memory;
use rt_lines::Lines;
use rt_proc::Proc;
use rt_scheme::{Entries, Entry, Place2};
use std::alloc::Global;

// The entry of a procedure with a number and lines.
fn entry_of(alloc: Global, number: u32, proc: &Proc, lines: Lines) -> Result<Entry, Memory>
    ensures entry { IfOk result (IsEntryOf number proc.now) }
    ensures lines { IfOk result (λ entry. entry.lines ≡ lines) }
{
    let name = proc.name.to_bytes(alloc)?;
    Ok(Entry {
        number,
        place: Place2 {
            section: proc.entry.section,
            offset: proc.entry.offset,
        },
        name,
        lines,
    })
}

// Takes the lines at a place away.
fn take_at(lists: &mut Lists, place: usize) -> Option<Lines>
    requires { place < length lists.old.items }
    ensures taken { result ≡ slice_index_or lists.old.items place None }
    ensures left { lists.new.items ≡ slice_set lists.old.items place None }
{
    lists[place].take()
}

/// The entries of an object's procedures, in the order of their numbers, with what a report says of each.
pub fn entries_of(alloc: Global, told: Told, analysis: &Analysis<'_>) -> Result<Entries, Memory>
    requires { IsAnalysis analysis.now }
    ensures entries { IfOk result (AreEntries told (object_in analysis.now) analysis.now.lattice.now analysis.now.sigs.now
        (procs_in analysis.now) analysis.now.schemes) }
    ensures constants { IfOk result (All (λ entry. All (HasConstantsBelow (size_of analysis.now.lattice.now)) entry.lines)) }
    ensures globals { IfOk result (All (λ entry. HasGlobalsOf (object_in analysis.now) entry.lines)) }
{
    let mut lists = analysis.lists(alloc, told)?;
    let mut entries = Entries::new(alloc);
    for (place, proc) in analysis.facts.procs().items().iter().enumerate() {
        let number = place as u32;
        let Some(lines) = take_at(&mut lists, place) else {
            // Each procedure has lines.
            unreachable!()
        };
        entries.push(entry_of(alloc, number, proc, lines)?)?;
    }
    Ok(entries)
}
