// The letters of nodes.
ghost use Rattle.std.specs.Prelude.{◌≡◌, ℕ, ◌+◌, ◌<◌, [], All, IfOk, OnOk, length, map, set, slice_index_or};
ghost use Rattle.indexmap.specs.IndexSet.{insert_key};
ghost use Rattle.rt_lines.specs.Equality.{label_eq};
ghost use Rattle.rt_lines.specs.Words.{IsLabel};
ghost use Rattle.rt_sketch.specs.Inside.Rows.{AreEntered, AreRows};

use indexmap::IndexSet;
use rt_base::Memory;
use rt_lines::Label;
use rt_shape::Shape;
use std::alloc::Global;
use std::marker::Model;

/// For each node of a shape letters of its edges, which contracts see as a list of letters for each node.
#[derive(Drop)]
pub(crate) struct Rows {
    rows: Vec<IndexSet<Label>>,
    // The row of what is no node.
    none: IndexSet<Label>,
}

impl Model for Rows {
    ghost use Rattle.std.specs.Prelude.{◌≡◌, [], List, map};
    ghost use Rattle.rt_lines.specs.declared.label.Label.{Label as Letter};

    ghost Value = { List (List Letter) };

    ghost view = { λ s. map (λ r. r.keys) s.rows.items };

    ghost invariant = { λ s. s.none.keys ≡ [] };
}

impl Rows {
    /// The rows of a shape, of what is among the letters. It takes time linear in the nodes and edges. The error is out of memory.
    pub(crate) fn of(
        alloc: Global,
        shape: &Shape,
        letters: &IndexSet<Label>,
    ) -> Result<Rows, Memory>
        requires { All IsLabel letters.now.keys }
        ensures { IfOk result (AreRows shape.now letters.now.keys) }
    {
        let mut rows = empty_rows(alloc, shape.node_count() as usize)?;
        for i in 0..shape.edge_count() {
            enter_edge(&mut rows, shape, letters, i)?;
        }
        let none = IndexSet::new(alloc);
        Ok(Rows { rows, none })
    }

    /// The letters of a node.
    pub(crate) fn at(&self, node: u32) -> &IndexSet<Label>
        ensures { result.now.keys ≡ slice_index_or self.now node [] }
    {
        match self.rows.get(node as usize) {
            Some(row) => row,
            None => &self.none,
        }
    }

    /// No letters.
    pub(crate) fn none(&self) -> &IndexSet<Label>
        ensures { result.now.keys ≡ [] }
    {
        &self.none
    }
}

// So many empty rows.
fn empty_rows(alloc: Global, count: usize) -> Result<Vec<IndexSet<Label>>, Memory>
    ensures size { IfOk result (λ rows. length rows.items ≡ count) }
    ensures empty { IfOk result (λ rows. All (λ r. r.keys ≡ []) rows.items) }
{
    let mut rows = Vec::new(alloc);
    while rows.len() < count {
        rows.push(IndexSet::new(alloc))?;
    }
    Ok(rows)
}

// Enters the letter of an edge, if it is among the letters.
fn enter_edge(
    rows: &mut Vec<IndexSet<Label>>,
    shape: &Shape,
    letters: &IndexSet<Label>,
    i: usize,
) -> Result<(), Memory>
    requires inside { i < length shape.now.edges }
    requires letters { All IsLabel letters.now.keys }
    requires entered { AreEntered shape.now letters.now.keys i (map (λ r. r.keys) rows.old.items) }
    ensures { OnOk result (AreEntered shape.now letters.now.keys (i + 1) (map (λ r. r.keys) rows.new.items)) }
{
    let (from, label, _) = shape.edge(i);
    if !letters.contains(&label) {
        return Ok(());
    }
    enter(rows, from, label)?;
    Ok(())
}

// Enters a letter into the row of a node.
fn enter(rows: &mut Vec<IndexSet<Label>>, node: u32, label: Label) -> Result<(), Memory>
    requires { node < length rows.old.items }
    ensures { OnOk result (map (λ r. r.keys) rows.new.items ≡ set (map (λ r. r.keys) rows.old.items) node
        (insert_key label_eq (slice_index_or (map (λ r. r.keys) rows.old.items) node []) label)) }
{
    rows[node as usize].insert(label)?;
    Ok(())
}
