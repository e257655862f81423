// Rows of instances: the lines of a scheme, whose existentials are named by the call that the instance is made for.
ghost use Rattle.std.specs.Prelude.{◌≡◌, [], ◌∷◌, ◌++◌, ℕ, IfOk, None, OnOk, nat_eq};
ghost use Rattle.indexmap.specs.IndexMap.{get};
ghost use Rattle.rt_scheme.specs.Ports.{label_at};
ghost use Rattle.rt_table.specs.Table.{Scheme as ByScheme, filled, instance_rows, new_name, new_root, new_row, new_term, scheme_rows};
ghost use Rattle.rt_table.specs.Inside.Told.{context_of, target_of};

use crate::context::Context;
use crate::item::Item;
use crate::target::Target;
use crate::targets::instance_of;
use indexmap::IndexMap;
use rt_base::Memory;
use rt_lines::{Base, Dtv, Label, Line};
use rt_rows::{Name, Root, Row, Rows, Term};
use rt_scheme::{Ports, Scheme};
use std::alloc::Global;

// The ports of an instance, of which the labels are found by number.
#[derive(Drop)]
struct Labels {
    ports: Ports,
    by_number: IndexMap<u32, Label>,
    ghost same: { (n : ℕ) → get nat_eq by_number n ≡ label_at ports n },
}

// The labels of ports by their numbers. Where a number stands twice, the first port counts.
fn by_number(alloc: Global, ports: &[(Label, u32)]) -> Result<IndexMap<u32, Label>, Memory>
    ensures { IfOk result (λ labels. (n : ℕ) → get nat_eq labels n ≡ label_at ports.now n) }
{
    let mut labels = IndexMap::new(alloc);
    let mut rest = ports.len();
    while 0 < rest {
        rest -= 1;
        let (label, number) = ports[rest];
        labels.insert(number, label)?;
    }
    Ok(labels)
}

impl Labels {
    // The error is out of memory.
    fn new(alloc: Global, ports: Ports) -> Result<Labels, Memory>
        ensures { IfOk result (λ labels. labels.ports ≡ ports) }
    {
        let by_number = by_number(alloc, ports.items())?;
        Ok(Labels { ports, by_number })
    }

    // The label of the port of a number, if there is one.
    fn at(&self, number: u32) -> Option<Label>
        ensures { result ≡ label_at self.now.ports number }
    {
        self.by_number.get(&number).copied()
    }
}

impl Context<'_> {
    // What an existential of an instance stands for.
    fn new_name(&self, site: u32, call: u32, number: u32, label: Option<Label>) -> Name
        ensures { result ≡ new_name (context_of self.now) site call number label }
    {
        let procedure = self.procedure;
        match label {
            Some(label) => Name::Port {
                procedure,
                site,
                call,
                label,
            },
            None => Name::Inner {
                procedure,
                site,
                call,
                number,
            },
        }
    }

    // The root of a base of an instance.
    fn new_root(&self, site: u32, call: u32, labels: &Labels, base: Base) -> Root
        ensures { result ≡ new_root (context_of self.now) site call labels.now.ports base }
    {
        match base {
            Base::Proc(procedure) => Root::Proc(procedure),
            Base::Global(symbol) => Root::Global(symbol),
            Base::Exist(number) => {
                Root::Named(self.new_name(site, call, number, labels.at(number)))
            }
            Base::Outer(number) => Root::Outer(number),
        }
    }

    // The term of a variable of an instance, whose word is moved.
    fn new_term(&self, site: u32, call: u32, labels: &Labels, variable: Dtv) -> Term
        ensures { result ≡ new_term (context_of self.now) site call labels.now.ports variable }
    {
        Term {
            root: self.new_root(site, call, labels, variable.base),
            word: variable.word,
        }
    }

    // The row of a line of an instance.
    fn new_row(&self, site: u32, call: u32, labels: &Labels, line: Line) -> Row
        ensures { result ≡ new_row (context_of self.now) site call labels.now.ports line }
    {
        match line {
            Line::Var(x) => Row::Var(self.new_term(site, call, labels, x)),
            Line::Same(x, y) => Row::Same(
                self.new_term(site, call, labels, x),
                self.new_term(site, call, labels, y),
            ),
            Line::Sub(x, y) => Row::Sub(
                self.new_term(site, call, labels, x),
                self.new_term(site, call, labels, y),
            ),
            Line::Low(k, x) => Row::Low(k, self.new_term(site, call, labels, x)),
            Line::Up(x, k) => Row::Up(self.new_term(site, call, labels, x), k),
        }
    }

    // Adds the rows of the instance of a scheme by a call of a site.
    fn push_instance(
        &self,
        site: u32,
        call: u32,
        scheme: &Scheme,
        rows: &mut Rows,
    ) -> Result<(), Memory>
        ensures { OnOk result (rows.new
            ≡ rows.old ++ scheme_rows (context_of self.now) site call (ByScheme scheme.now.base scheme.now.lines None)) }
    {
        let instance = instance_of(self.alloc, scheme)?;
        let labels = Labels::new(self.alloc, instance.ports)?;
        for line in instance.lines.into_vec() {
            rows.push(self.new_row(site, call, &labels, line))?;
        }
        Ok(())
    }

    // Adds the rows of the instance of the scheme by which a call of a site is stated, if it is stated by one.
    fn told_rows(
        &self,
        site: u32,
        call: u32,
        target: Target<'_>,
        rows: &mut Rows,
    ) -> Result<(), Memory>
        ensures { OnOk result (rows.new ≡ rows.old ++ scheme_rows (context_of self.now) site call (target_of target.entry)) }
    {
        match target {
            Target::Scheme { scheme, .. } => self.push_instance(site, call, scheme, rows),
            Target::Member { .. } => Ok(()),
            Target::Held(_) => Ok(()),
            Target::Unknown => Ok(()),
        }
    }

    // Adds the rows of the instance that a call of a site makes, by its number among the site's calls.
    fn instance_rows(&self, site: u32, call: u32, rows: &mut Rows) -> Result<(), Memory>
        ensures { OnOk result (rows.new ≡ rows.old ++ instance_rows (context_of self.now) site call) }
    {
        match self.calls_at(site).get(call as usize) {
            Some(told) => self.told_rows(site, call, self.target(told), rows),
            None => Ok(()),
        }
    }

    // Adds the rows of an item.
    fn fill(&self, item: Item, rows: &mut Rows) -> Result<(), Memory>
        ensures { OnOk result (rows.new ≡ rows.old ++ filled (instance_rows (context_of self.now)) (item ∷ [])) }
    {
        match item {
            Item::Told(row) => rows.push(row),
            Item::Instance { site, call } => self.instance_rows(site, call, rows),
        }
    }

    /// The rows of items, where the rows of an instance stand in its place. The error is out of memory.
    pub(crate) fn filled(&self, items: Vec<Item>) -> Result<Rows, Memory>
        ensures { IfOk result (λ rows. rows ≡ filled (instance_rows (context_of self.now)) items.items) }
    {
        let mut rows = Rows::new(self.alloc);
        for item in items {
            self.fill(item, &mut rows)?;
        }
        Ok(rows)
    }
}
