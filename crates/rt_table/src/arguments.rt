// What is passed to calls as arguments.
ghost use Rattle.std.specs.Prelude.{◌≡◌, ◌<◌, ◌++◌, All, IfOk, OnOk};
ghost use Rattle.rt_body.specs.Told.{sites_in};
ghost use Rattle.rt_table.specs.Inside.Parts.{IsPassed, MayTake, passed, received};
ghost use Rattle.rt_table.specs.Table.{argument_flow, spot_flow, stack_flow};
ghost use Rattle.rt_table.specs.Inside.Told.{context_of};

use crate::context::Context;
use crate::receiver::Receiver;
use rt_base::Memory;
use rt_frame::Spot;
use rt_insn::registers::A0;
use rt_lines::{Label, Loc};
use rt_rows::{Rows, Term};
use rt_track::Value;

impl Context<'_> {
    // Adds what was put into the word of the frame at a place.
    fn spot_flow(&self, site: u32, to: &Term, spot: Spot, rows: &mut Rows) -> Result<(), Memory>
        requires { site < sites_in self.now.body.now }
        ensures { OnOk result (rows.new ≡ rows.old ++ spot_flow (context_of self.now) site to.now spot) }
    {
        match spot {
            Spot::Location(offset) => self.word_flows(site, offset, to, rows),
            Spot::OnObject { .. } => Ok(()),
        }
    }

    // Adds what a callee finds in the word of the stack at an offset, where the stack pointer has this value.
    fn stack_flow(
        &self,
        site: u32,
        offset: u32,
        to: &Term,
        stack: Value,
        rows: &mut Rows,
    ) -> Result<(), Memory>
        requires { site < sites_in self.now.body.now }
        ensures { OnOk result (rows.new ≡ rows.old ++ stack_flow (context_of self.now) site offset to.now stack) }
    {
        match stack {
            Value::Frame(start) => {
                let spot = self.frame.spot(start.wrapping_add_unsigned(offset));
                self.spot_flow(site, to, spot, rows)
            }
            _ => Ok(()),
        }
    }

    // Adds what is passed as the argument of a label, into a variable.
    fn argument_flow(
        &self,
        site: u32,
        label: Label,
        to: Term,
        rows: &mut Rows,
    ) -> Result<(), Memory>
        requires site { site < sites_in self.now.body.now }
        requires label { IsPassed label }
        ensures { OnOk result (rows.new ≡ rows.old ++ argument_flow (context_of self.now) site label to) }
    {
        match label {
            Label::In(Loc::Arg(number)) => {
                let side = self.use_side(site, A0 + number)?;
                self.flow(side, to, rows)
            }
            Label::In(Loc::Stack(offset)) => {
                self.stack_flow(site, offset, &to, self.body.value_at(site, 2), rows)
            }
            Label::Out(_) | Label::Load | Label::Store | Label::Field(..) => Ok(()),
        }
    }

    // The variable of a receiver that takes the argument of a label.
    fn received(&self, site: u32, to: &Receiver<'_>, label: Label) -> Result<Term, Memory>
        requires { MayTake to.now label }
        ensures { IfOk result (λ term. term ≡ received (context_of self.now) site to.now label) }
    {
        match to {
            Receiver::Member(procedure) => Term::port(self.alloc, *procedure, label),
            Receiver::Instance(call) => Ok(self.port_of(site, *call, label)),
            Receiver::Pointer(term) => term.copy()?.along(&[label]),
        }
    }

    // Adds what is passed to a receiver as the arguments of some labels.
    pub(crate) fn passed(
        &self,
        site: u32,
        to: &Receiver<'_>,
        labels: &[Label],
        rows: &mut Rows,
    ) -> Result<(), Memory>
        requires site { site < sites_in self.now.body.now }
        requires labels { All (MayTake to.now) labels.now }
        ensures { OnOk result (rows.new ≡ rows.old ++ passed (context_of self.now) site to.now labels.now) }
    {
        for label in labels {
            let taken = self.received(site, to, *label)?;
            self.argument_flow(site, *label, taken, rows)?;
        }
        Ok(())
    }
}
