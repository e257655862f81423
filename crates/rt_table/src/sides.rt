// The sides of values.
ghost use Rattle.std.specs.Prelude.{◌≡◌, ◌<◌, ℕ, None, IfOk};
ghost use Rattle.rt_body.specs.Told.{sites_in, IsDefWithin};
ghost use Rattle.rt_table.specs.Table.{def_own, def_side, entry_side, if_zero, side_of, use_side, value_side};
ghost use Rattle.rt_table.specs.Inside.Told.{context_of};

use crate::context::Context;
use crate::side::Side;
use crate::variables::is_argument;
use rt_base::Memory;
use rt_flow::Def;
use rt_frame::questions::def_value;
use rt_rows::{Name, Term};
use rt_track::Value;

// The side, where nothing was added to it.
fn if_zero(offset: i32, side: Side) -> Option<Side>
    ensures { result ≡ if_zero offset side }
{
    if offset == 0 { Some(side) } else { None }
}

impl Context<'_> {
    // The side of what a register held at the entry, plus an offset.
    fn entry_side(&self, register: u8, offset: i32) -> Result<Option<Side>, Memory>
        ensures { IfOk result (λ side. side ≡ entry_side (context_of self.now) register offset) }
    {
        if !is_argument(register) {
            return Ok(None);
        }
        let argument = self.argument(register)?;
        Ok(if_zero(offset, Side::Variable(argument)))
    }

    // The side of a value, if it has one, but none of what a site wrote. Several values together have a name of their own.
    pub(crate) fn plain_side(&self, own: Name, value: Value) -> Result<Option<Side>, Memory>
        ensures { IfOk result (λ side. side ≡ value_side (context_of self.now) (λ (s r : ℕ). None) own value) }
    {
        match value {
            Value::Entry(register, offset) => self.entry_side(register, offset),
            Value::Sym(symbol, offset) => Ok(if_zero(offset, self.symbol_side(symbol))),
            Value::Frame(start) => Ok(Some(Side::Variable(self.frame_object(start)))),
            Value::Multi => Ok(Some(Side::Variable(Term::named(self.alloc, own)))),
            Value::At(..) | Value::Const(_) => Ok(None),
        }
    }

    // The side of a value, if it has one. Several values together have a name of their own.
    pub(crate) fn side_of(&self, own: Name, value: Value) -> Result<Option<Side>, Memory>
        ensures { IfOk result (λ side. side ≡ side_of (context_of self.now) own value) }
    {
        match value {
            Value::At(site, register, offset) => {
                if offset == 0 {
                    self.at_side(site, register)
                } else {
                    Ok(None)
                }
            }
            _ => self.plain_side(own, value),
        }
    }

    // The side of what a register holds where a site uses it.
    pub(crate) fn use_side(&self, site: u32, register: u8) -> Result<Option<Side>, Memory>
        requires site { site < sites_in self.now.body.now }
        requires register { register < 32 }
        ensures { IfOk result (λ side. side ≡ use_side (context_of self.now) site register) }
    {
        self.side_of(
            self.merge_name(site, register),
            self.body.value_at(site, register),
        )
    }

    // The side of what a definition of a register gives.
    pub(crate) fn def_side(&self, register: u8, def: Def) -> Result<Option<Side>, Memory>
        requires def { IsDefWithin (sites_in self.now.body.now) def }
        requires register { register < 32 }
        ensures { IfOk result (λ side. side ≡ def_side (context_of self.now) register def) }
    {
        self.side_of(
            self.def_own(register, def),
            def_value(self.body, register, def),
        )
    }

    // What stands for several values of a definition.
    fn def_own(&self, register: u8, def: Def) -> Name
        ensures { result ≡ def_own (context_of self.now) register def }
    {
        let site = match def {
            Def::Entry => 0,
            Def::At(site) => site,
        };
        Name::Definition {
            procedure: self.procedure,
            site,
            register,
        }
    }
}
