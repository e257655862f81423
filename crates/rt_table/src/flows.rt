// Rows of what flows, and of the constants of roles.
ghost use Rattle.std.specs.Prelude.{◌≡◌, ◌<◌, ◌++◌, All, OnOk, flat_map};
ghost use Rattle.rt_body.specs.Told.{sites_in, IsDefWithin};
ghost use Rattle.rt_table.specs.Table.{below, def_side, flow, flow_or_exists, result_above};
ghost use Rattle.rt_table.specs.Inside.Told.{context_of};

use crate::context::Context;
use crate::side::Side;
use rt_base::Memory;
use rt_flow::Def;
use rt_lattice::Role;
use rt_rows::{Row, Rows, Term};

impl Context<'_> {
    // Adds that a side flows into a variable.
    pub(crate) fn flow(&self, side: Option<Side>, to: Term, rows: &mut Rows) -> Result<(), Memory>
        ensures { OnOk result (rows.new ≡ rows.old ++ flow (context_of self.now) side to) }
    {
        match side {
            Some(Side::Variable(from)) => rows.push(Row::Sub(from, to)),
            Some(Side::Code) => rows.push(Row::Low(self.constant(Role::Code), to)),
            None => Ok(()),
        }
    }

    // Adds the same, or that the variable exists where nothing flows into it.
    pub(crate) fn flow_or_exists(
        &self,
        side: Option<Side>,
        to: Term,
        rows: &mut Rows,
    ) -> Result<(), Memory>
        ensures { OnOk result (rows.new ≡ rows.old ++ flow_or_exists (context_of self.now) side to) }
    {
        match side {
            Some(side) => self.flow(Some(side), to, rows),
            None => rows.push(Row::Var(to)),
        }
    }

    // Adds what flows into a variable from each of some definitions of a register.
    pub(crate) fn flow_each(
        &self,
        to: &Term,
        register: u8,
        defs: &[Def],
        rows: &mut Rows,
    ) -> Result<(), Memory>
        requires defs { All (IsDefWithin (sites_in self.now.body.now)) defs.now }
        requires register { register < 32 }
        ensures { OnOk result (rows.new ≡ rows.old
            ++ flat_map (λ def. flow (context_of self.now) (def_side (context_of self.now) register def) to.now) defs.now) }
    {
        for def in defs {
            let side = self.def_side(register, *def)?;
            self.flow(side, to.copy()?, rows)?;
        }
        Ok(())
    }

    // Adds that the constant of a role is above a side.
    pub(crate) fn below(
        &self,
        above: Role,
        side: Option<Side>,
        rows: &mut Rows,
    ) -> Result<(), Memory>
        ensures { OnOk result (rows.new ≡ rows.old ++ below (context_of self.now) above side) }
    {
        match side {
            Some(Side::Variable(below)) => rows.push(Row::Up(below, self.constant(above))),
            Some(Side::Code) | None => Ok(()),
        }
    }

    // Adds that the constant of a role is below what a site writes.
    pub(crate) fn result_above(
        &self,
        role: Role,
        site: u32,
        to: u8,
        rows: &mut Rows,
    ) -> Result<(), Memory>
        ensures { OnOk result (rows.new ≡ rows.old ++ result_above (context_of self.now) role site to) }
    {
        if to == 0 {
            return Ok(());
        }
        rows.push(Row::Low(self.constant(role), self.definition(site, to)))
    }
}
