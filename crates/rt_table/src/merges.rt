// Merges: what several definitions of a register bring to a site together.
ghost use Rattle.std.specs.Prelude.{◌≡◌, [], ◌++◌, All, IfOk, OnOk, reverse};
ghost use Rattle.rt_body.specs.Told.{sites_in};
ghost use Rattle.rt_rows.specs.Terms.{row_names};
ghost use Rattle.rt_table.specs.Inside.Named.{IsItemWithin, IsNameWithin};
ghost use Rattle.rt_table.specs.Table.{Writes, first_closed, is_closed, merge_rows, told};
ghost use Rattle.rt_table.specs.Inside.Told.{context_of};
ghost use Rattle.rt_table.specs.Inside.Writing.{closed_in};

use crate::context::Context;
use crate::item::Item;
use indexmap::IndexSet;
use rt_base::Memory;
use rt_rows::{Name, Row, Rows, Term};

// Whether a name is that of a merge that isn't open.
fn is_closed(opened: &IndexSet<Name>, name: Name) -> bool
    ensures { result ≡ is_closed opened.now.keys name }
{
    matches!(name, Name::Merge { .. }) && !opened.contains(&name)
}

// The first merge that a row names and that isn't open, if there is one.
fn first_closed(opened: &IndexSet<Name>, row: &Row) -> Option<Name>
    ensures { result ≡ first_closed opened.now.keys (row_names row.now) }
{
    let (left, right) = row.names();
    match left {
        Some(name) if is_closed(opened, name) => Some(name),
        _ => right.filter(|name| is_closed(opened, *name)),
    }
}

// The same for an item. One that is no row names none.
fn closed_in(opened: &IndexSet<Name>, item: &Item) -> Option<Name>
    ensures { result ≡ closed_in opened.now.keys item.now }
{
    match item {
        Item::Told(row) => first_closed(opened, row),
        Item::Instance { .. } => None,
    }
}

// Puts items on a stack, the first of them on top.
fn put_items(pending: &mut Vec<Item>, mut items: Vec<Item>) -> Result<(), Memory>
    ensures { OnOk result (pending.new.items ≡ pending.old.items ++ reverse items.items) }
{
    while let Some(item) = items.pop() {
        pending.push(item)?;
    }
    Ok(())
}

// Puts rows on a stack, the first of them on top.
fn put_rows(pending: &mut Vec<Item>, rows: Rows) -> Result<(), Memory>
    ensures { OnOk result (pending.new.items ≡ pending.old.items ++ reverse (told rows)) }
{
    let mut rows = rows.into_vec();
    while let Some(row) = rows.pop() {
        pending.push(Item::Told(row))?;
    }
    Ok(())
}

impl Context<'_> {
    // The rows of a merge: what flows into it from each definition that reaches its site. Another name has none.
    fn merge_rows(&self, name: Name) -> Result<Rows, Memory>
        requires { IsNameWithin (sites_in self.now.body.now) name }
        ensures { IfOk result (λ rows. rows ≡ merge_rows (context_of self.now) name) }
    {
        let mut rows = Rows::new(self.alloc);
        match name {
            Name::Merge { site, register, .. } => {
                let to = Term::named(self.alloc, name);
                let defs = self.body.reaching(site, register);
                self.flow_each(&to, register, defs, &mut rows)?;
                Ok(rows)
            }
            Name::Definition { .. }
            | Name::Object { .. }
            | Name::Port { .. }
            | Name::Inner { .. }
            | Name::Result { .. } => Ok(rows),
        }
    }

    /// The items, where the rows of a merge come before the first row that names it. The error is out of memory.
    pub(crate) fn written(&self, items: Vec<Item>) -> Result<Vec<Item>, Memory>
        requires { All (IsItemWithin (sites_in self.now.body.now)) items.items }
        ensures { IfOk result (λ done. Writes (context_of self.now) [] items.items done.items) }
    {
        let _actions = self.body.actions();
        let mut pending = Vec::new(self.alloc);
        put_items(&mut pending, items)?;
        let mut opened = IndexSet::new(self.alloc);
        let mut done = Vec::new(self.alloc);
        for _ in 0..u64::MAX {
            let Some(item) = pending.pop() else {
                return Ok(done);
            };
            match closed_in(&opened, &item) {
                None => done.push(item)?,
                Some(merge) => {
                    pending.push(item)?;
                    opened.insert(merge)?;
                    put_rows(&mut pending, self.merge_rows(merge)?)?;
                }
            }
        }
        // Each step added an item to `done` or a merge to `opened`, and no memory has room for so many.
        let _opened = opened.len();
        unreachable!()
    }
}
