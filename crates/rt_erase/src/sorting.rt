// Fields in order.
ghost use Rattle.std.specs.Prelude.{◌≡◌, ◌∷◌, [], IfOk, MatchOption, OnOk};
ghost use Rattle.std.specs.List.{flat_map};
ghost use Rattle.rt_tree.specs.Trees.{AreOrdered};
ghost use Rattle.rt_erase.specs.Rows.{kept_from, label_of, row_of, sorted_with, with_row};
ghost use Rattle.rt_erase.specs.Inside.Sorting.{AreOthers};

use crate::row::Row;
use rt_base::Memory;
use rt_lines::Label;
use std::alloc::Global;
use std::cmp::Reverse;
use std::collections::BTreeMap;
use std::marker::Model;

/// Fields by offset, and at one offset by width falling. Contracts see the list of them.
#[derive(Drop)]
pub(crate) struct Sorted {
    // The node that the field of each offset and width leads to.
    nodes: BTreeMap<(u32, Reverse<u8>), u32>,
}

impl Model for Sorted {
    ghost use Rattle.std.specs.Prelude.{List};
    ghost use Rattle.rt_erase.specs.declared.row.Row.{Row as Field};
    ghost use Rattle.rt_erase.specs.Inside.Sorting.{rows_in};

    ghost Value = { List Field };

    ghost view = { λ s. rows_in s.nodes.entries };
}

impl Sorted {
    // No field.
    fn new(alloc: Global) -> Sorted
        ensures { result ≡ [] }
    {
        Sorted {
            nodes: BTreeMap::new(alloc),
        }
    }

    // Adds a field of an offset and a width that none has yet.
    fn insert(&mut self, row: Row) -> Result<(), Memory>
        requires { AreOthers (label_of row) self.old }
        ensures { OnOk result (self.new ≡ with_row self.old row) }
    {
        self.nodes
            .insert((row.offset, Reverse(row.bits)), row.node)?;
        Ok(())
    }

    // Adds the field of an edge; there is none before the start.
    fn enter(&mut self, label: Label, node: u32) -> Result<(), Memory>
        requires { AreOthers label self.old }
        ensures { OnOk result (self.new ≡ sorted_with self.old (row_of (label, node))) }
    {
        let Label::Field(bits, offset) = label else {
            return Ok(());
        };
        let Ok(offset) = u32::try_from(offset) else {
            return Ok(());
        };
        self.insert(Row { offset, bits, node })
    }

    // Takes out the first field.
    fn pop(&mut self) -> Option<Row>
        ensures { MatchOption result (self.old ≡ []) (λ row. self.old ≡ row ∷ self.new) }
    {
        let ((offset, Reverse(bits)), node) = self.nodes.pop_first()?;
        Some(Row { offset, bits, node })
    }
}

/// The fields of edges in order; there is none before the start. The error is out of memory.
pub(crate) fn sort(alloc: Global, edges: &[(Label, u32)]) -> Result<Sorted, Memory>
    requires { AreOrdered edges.now }
    ensures { IfOk result (λ sorted. sorted ≡ sorted_with [] (flat_map row_of edges.now)) }
{
    let mut sorted = Sorted::new(alloc);
    for (label, to) in edges {
        sorted.enter(*label, *to)?;
    }
    Ok(sorted)
}

/// The fields that begin where the last one kept ends, or later. The error is out of memory.
pub(crate) fn keep(alloc: Global, mut sorted: Sorted) -> Result<Vec<Row>, Memory>
    ensures { IfOk result (λ rows. rows.items ≡ kept_from 0 sorted) }
{
    let mut rows = Vec::new(alloc);
    let mut end = 0;
    while let Some(row) = sorted.pop() {
        if end <= u64::from(row.offset) {
            end = u64::from(row.offset) + u64::from(row.bits / 8);
            rows.push(row)?;
        }
    }
    Ok(rows)
}
