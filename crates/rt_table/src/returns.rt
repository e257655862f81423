// Rows of returns.
ghost use Rattle.std.specs.Prelude.{◌≡◌, ◌<◌, ◌≤◌, ◌++◌, All, OnOk};
ghost use Rattle.rt_body.specs.Told.{sites_in, IsDefWithin};
ghost use Rattle.rt_table.specs.Table.{result_rows, returned};
ghost use Rattle.rt_table.specs.Inside.Told.{context_of};

use crate::context::Context;
use rt_base::Memory;
use rt_flow::Def;
use rt_frame::questions::results;
use rt_insn::registers::A0;
use rt_lines::Label;
use rt_rows::{Row, Rows, Term};

impl Context<'_> {
    // What flows into a result from the definitions of its register, or that it exists where none of them has a side.
    fn returned(&self, to: &Term, register: u8, defs: &[Def], rows: &mut Rows) -> Result<(), Memory>
        requires defs { All (IsDefWithin (sites_in self.now.body.now)) defs.now }
        requires register { register < 32 }
        ensures { OnOk result (rows.new ≡ rows.old ++ returned (context_of self.now) to.now register defs.now) }
    {
        if defs.is_empty() {
            return Ok(());
        }
        let before = rows.len();
        self.flow_each(to, register, defs, rows)?;
        if rows.len() == before {
            rows.push(Row::Var(to.copy()?))?;
        }
        Ok(())
    }

    // Adds the rows of a result, the one in a0 (0) or in a1 (1), at a return.
    pub(crate) fn result_rows(
        &self,
        site: u32,
        result_number: u8,
        rows: &mut Rows,
    ) -> Result<(), Memory>
        requires site { site < sites_in self.now.body.now }
        requires result_number { result_number ≤ 1 }
        ensures { OnOk result (rows.new ≡ rows.old ++ result_rows (context_of self.now) site result_number) }
    {
        let to = Term::port(self.alloc, self.procedure, Label::Out(result_number))?;
        let register = A0 + result_number;
        let defs = results(self.alloc, self.body, self.calls, site, register)?;
        self.returned(&to, register, &defs, rows)
    }
}
