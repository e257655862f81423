// The items of sites.
ghost use Rattle.std.specs.Prelude.{◌≡◌, ◌<◌, ◌++◌, All, IfOk, OnOk};
ghost use Rattle.rt_body.specs.Readings.{action_at};
ghost use Rattle.rt_body.specs.Registers.{HasRegisters};
ghost use Rattle.rt_body.specs.Told.{reading_of, sites_in};
ghost use Rattle.rt_table.specs.Inside.Named.{IsItemWithin};
ghost use Rattle.rt_table.specs.Table.{items_from, site_items, site_rows};
ghost use Rattle.rt_table.specs.Inside.Told.{context_of};

use crate::calls::push_told;
use crate::context::Context;
use crate::item::Item;
use rt_base::Memory;
use rt_body::Action;
use rt_lattice::Role;
use rt_rows::Rows;

impl Context<'_> {
    // Adds the rows of a site, by what it does.
    fn site_rows(&self, site: u32, action: Action, rows: &mut Rows) -> Result<(), Memory>
        requires site { site < sites_in self.now.body.now }
        requires registers { HasRegisters action }
        ensures { OnOk result (rows.new ≡ rows.old ++ site_rows (context_of self.now) site action) }
    {
        match action {
            Action::AddImmediate {
                to,
                from,
                immediate,
            } => self.kept_rows(site, to, from, immediate, rows),
            Action::Add { to, left, right } => self.addition_rows(site, to, left, right, rows),
            Action::Load {
                loaded,
                to,
                address,
            } => self.load_rows(site, loaded, to, address, rows),
            Action::Store {
                width,
                data,
                address,
            } => self.store_rows(site, width, data, address, rows),
            Action::Compute {
                operation,
                to,
                left,
                right,
            } => self.compute_rows(site, operation, to, left, right, rows),
            Action::Compare { left, right } => self.compare_rows(site, left, right, rows),
            Action::Return => self.return_rows(site, rows),
            Action::Constant { .. }
            | Action::Symbol { .. }
            | Action::Write { .. }
            | Action::Pass
            | Action::Call { .. }
            | Action::Stop => Ok(()),
        }
    }

    // A signed comparison.
    fn compare_rows(&self, site: u32, left: u8, right: u8, rows: &mut Rows) -> Result<(), Memory>
        requires site { site < sites_in self.now.body.now }
        requires left { left < 32 }
        requires right { right < 32 }
        ensures { OnOk result (rows.new ≡ rows.old ++ site_rows (context_of self.now) site (Action.Compare left right)) }
    {
        self.operand_rows(site, Some(left), Some(Role::Sint32), rows)?;
        self.operand_rows(site, Some(right), Some(Role::Sint32), rows)
    }

    // A return: what flows into both results.
    fn return_rows(&self, site: u32, rows: &mut Rows) -> Result<(), Memory>
        requires { site < sites_in self.now.body.now }
        ensures { OnOk result (rows.new ≡ rows.old ++ site_rows (context_of self.now) site Action.Return) }
    {
        self.result_rows(site, 0, rows)?;
        self.result_rows(site, 1, rows)
    }

    // Adds the items of a site: its rows, and then those of its calls.
    fn site_items(&self, site: u32, action: Action, items: &mut Vec<Item>) -> Result<(), Memory>
        requires site { site < sites_in self.now.body.now }
        requires registers { HasRegisters action }
        ensures { OnOk result (items.new.items ≡ items.old.items ++ site_items (context_of self.now) site action) }
    {
        let mut rows = Rows::new(self.alloc);
        self.site_rows(site, action, &mut rows)?;
        push_told(rows, items)?;
        self.calls(site, items)
    }

    /// The items of all sites, in the order of their places. The error is out of memory.
    pub(crate) fn items(&self) -> Result<Vec<Item>, Memory>
        ensures items { IfOk result (λ found. found.items ≡ items_from (context_of self.now) 0 (reading_of self.now.body.now).actions) }
        ensures within { IfOk result (λ found. All (IsItemWithin (sites_in self.now.body.now)) found.items) }
    {
        let mut items = Vec::new(self.alloc);
        let actions = self.body.actions();
        for (site, action) in actions.iter().enumerate() {
            self.site_items(site as u32, *action, &mut items)?;
        }
        Ok(items)
    }
}
