// Rows of additions and other computations.
ghost use Rattle.std.specs.Prelude.{◌≡◌, ◌<◌, ◌++◌, OnOk};
ghost use Rattle.rt_body.specs.Registers.{HasOperandRegister};
ghost use Rattle.rt_body.specs.Told.{reading_of, sites_in};
ghost use Rattle.rt_frame.specs.Questions.{addition, is_kept};
ghost use Rattle.rt_table.specs.Table.{addition_rows, compute_rows, indexed, kept_rows, left_role, operand_rows, result_role, right_role};
ghost use Rattle.rt_table.specs.Inside.Told.{context_of};

use crate::context::Context;
use rt_base::Memory;
use rt_body::Operation;
use rt_frame::Addition;
use rt_frame::questions::{addition, is_kept};
use rt_insn::registers::ZERO;
use rt_lattice::Role;
use rt_rows::Rows;

// The role of the left operand of a computation, where it says something of it.
fn left_role(operation: Operation) -> Option<Role>
    ensures { result ≡ left_role operation }
{
    match operation {
        Operation::Scale => Some(Role::Num32),
        Operation::ShiftRight | Operation::Unsigned => Some(Role::Uint32),
        Operation::ShiftRightSigned
        | Operation::Signed
        | Operation::SignedByUnsigned
        | Operation::LessSigned => Some(Role::Sint32),
        Operation::LessUnsigned => None,
    }
}

// The role of the right operand.
fn right_role(operation: Operation) -> Option<Role>
    ensures { result ≡ right_role operation }
{
    match operation {
        Operation::Scale | Operation::ShiftRight | Operation::ShiftRightSigned => {
            Some(Role::Num32)
        }
        Operation::Signed | Operation::LessSigned => Some(Role::Sint32),
        Operation::Unsigned | Operation::SignedByUnsigned => Some(Role::Uint32),
        Operation::LessUnsigned => None,
    }
}

// The role of the result.
fn result_role(operation: Operation) -> Role
    ensures { result ≡ result_role operation }
{
    match operation {
        Operation::Scale => Role::Num32,
        Operation::ShiftRight | Operation::Unsigned => Role::Uint32,
        Operation::ShiftRightSigned | Operation::Signed | Operation::SignedByUnsigned => {
            Role::Sint32
        }
        Operation::LessSigned | Operation::LessUnsigned => Role::Bool,
    }
}

impl Context<'_> {
    // Adds the row of an addition of an immediate, where it says what it adds to.
    pub(crate) fn kept_rows(
        &self,
        site: u32,
        to: u8,
        from: u8,
        immediate: i32,
        rows: &mut Rows,
    ) -> Result<(), Memory>
        requires site { site < sites_in self.now.body.now }
        requires to { to < 32 }
        requires from { from < 32 }
        ensures { OnOk result (rows.new ≡ rows.old ++
            kept_rows (context_of self.now) site to from (is_kept (reading_of self.now.body.now) site to from immediate)) }
    {
        if !is_kept(self.body, site, to, from, immediate) {
            return Ok(());
        }
        let side = self.use_side(site, from)?;
        self.flow(side, self.definition(site, to), rows)
    }

    // An index is a number, and what it is added to flows on.
    fn indexed(
        &self,
        site: u32,
        to: u8,
        other: u8,
        index: u8,
        rows: &mut Rows,
    ) -> Result<(), Memory>
        requires site { site < sites_in self.now.body.now }
        requires other { other < 32 }
        requires index { index < 32 }
        ensures { OnOk result (rows.new ≡ rows.old ++ indexed (context_of self.now) site to other index) }
    {
        if to != ZERO {
            let side = self.use_side(site, other)?;
            self.flow(side, self.definition(site, to), rows)?;
        }
        let index = self.use_side(site, index)?;
        self.below(Role::Num32, index, rows)
    }

    // Adds the rows of an addition of two registers.
    pub(crate) fn addition_rows(
        &self,
        site: u32,
        to: u8,
        left: u8,
        right: u8,
        rows: &mut Rows,
    ) -> Result<(), Memory>
        requires site { site < sites_in self.now.body.now }
        requires left { left < 32 }
        requires right { right < 32 }
        ensures { OnOk result (rows.new ≡ rows.old ++
            addition_rows (context_of self.now) site to left right (addition (reading_of self.now.body.now) site left right)) }
    {
        match addition(self.body, site, left, right) {
            Addition::IndexLeft => self.indexed(site, to, right, left, rows),
            Addition::IndexRight => self.indexed(site, to, left, right, rows),
            Addition::Indices => {
                self.operand_rows(site, Some(left), Some(Role::Num32), rows)?;
                self.operand_rows(site, Some(right), Some(Role::Num32), rows)?;
                self.result_above(Role::Num32, site, to, rows)
            }
            Addition::Untold => Ok(()),
        }
    }

    // Adds that the constant of a role is above an operand. An immediate is none.
    pub(crate) fn operand_rows(
        &self,
        site: u32,
        operand: Option<u8>,
        above: Option<Role>,
        rows: &mut Rows,
    ) -> Result<(), Memory>
        requires site { site < sites_in self.now.body.now }
        requires register { HasOperandRegister operand }
        ensures { OnOk result (rows.new ≡ rows.old ++ operand_rows (context_of self.now) site operand above) }
    {
        match (operand, above) {
            (Some(register), Some(role)) => {
                let side = self.use_side(site, register)?;
                self.below(role, side, rows)
            }
            _ => Ok(()),
        }
    }

    // Adds the rows of a computation.
    pub(crate) fn compute_rows(
        &self,
        site: u32,
        operation: Operation,
        to: u8,
        left: u8,
        right: Option<u8>,
        rows: &mut Rows,
    ) -> Result<(), Memory>
        requires site { site < sites_in self.now.body.now }
        requires left { left < 32 }
        requires right { HasOperandRegister right }
        ensures { OnOk result (rows.new ≡ rows.old ++ compute_rows (context_of self.now) site operation to left right) }
    {
        self.operand_rows(site, Some(left), left_role(operation), rows)?;
        self.operand_rows(site, right, right_role(operation), rows)?;
        self.result_above(result_role(operation), site, to, rows)
    }
}
