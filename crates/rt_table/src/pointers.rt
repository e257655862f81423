// Where the addresses of loads and stores lead.
ghost use Rattle.std.specs.Prelude.{◌≡◌, ◌<◌, IfOk};
ghost use Rattle.rt_body.specs.Registers.{HasAddressRegister};
ghost use Rattle.rt_body.specs.Told.{sites_in};
ghost use Rattle.rt_table.specs.Table.{pointer, register_pointer, spot_pointer, through, value_pointer};
ghost use Rattle.rt_table.specs.Inside.Told.{context_of};

use crate::context::Context;
use crate::pointer::Pointer;
use crate::side::Side;
use crate::variables::is_argument;
use rt_base::Memory;
use rt_body::Address;
use rt_frame::Spot;
use rt_frame::questions::is_multi;
use rt_rows::Term;
use rt_track::Value;

// Through a side at an offset.
fn through(side: Option<Side>, offset: i32) -> Pointer
    ensures { result ≡ through side offset }
{
    match side {
        Some(Side::Variable(term)) => Pointer::Through(term, offset),
        Some(Side::Code) | None => Pointer::Nowhere,
    }
}

impl Context<'_> {
    // Through the object of the frame that is there, or to the frame itself.
    fn spot_pointer(&self, spot: Spot) -> Pointer
        ensures { result ≡ spot_pointer (context_of self.now) spot }
    {
        match spot {
            Spot::OnObject { start, distance } => {
                Pointer::Through(self.frame_object(start), distance)
            }
            Spot::Location(offset) => Pointer::InFrame(offset),
        }
    }

    // Where an address of one value leads.
    fn value_pointer(&self, value: Value) -> Result<Pointer, Memory>
        ensures { IfOk result (λ led. led ≡ value_pointer (context_of self.now) value) }
    {
        match value {
            Value::Entry(register, offset) => {
                if is_argument(register) {
                    let argument = self.argument(register)?;
                    Ok(Pointer::Through(argument, offset))
                } else {
                    Ok(Pointer::Nowhere)
                }
            }
            Value::At(site, register, offset) => {
                let side = self.at_side(site, register)?;
                Ok(through(side, offset))
            }
            Value::Sym(symbol, offset) => Ok(through(Some(self.symbol_side(symbol)), offset)),
            Value::Frame(offset) => Ok(self.spot_pointer(self.frame.spot(offset))),
            Value::Const(_) | Value::Multi => Ok(Pointer::Nowhere),
        }
    }

    // Where an address in a register leads: through all of its values together, where it may hold several.
    fn register_pointer(&self, site: u32, register: u8, immediate: i32) -> Result<Pointer, Memory>
        requires site { site < sites_in self.now.body.now }
        requires register { register < 32 }
        ensures { IfOk result (λ led. led ≡ register_pointer (context_of self.now) site register immediate) }
    {
        let value = self.body.value_at(site, register);
        if is_multi(value) {
            let merge = Term::named(self.alloc, self.merge_name(site, register));
            return Ok(Pointer::Through(merge, immediate));
        }
        self.value_pointer(value.plus(immediate))
    }

    // Where the address of a load or a store leads.
    pub(crate) fn pointer(&self, site: u32, address: Address) -> Result<Pointer, Memory>
        requires site { site < sites_in self.now.body.now }
        requires register { HasAddressRegister address }
        ensures { IfOk result (λ led. led ≡ pointer (context_of self.now) site address) }
    {
        match address {
            Address::Symbol(symbol, addend) => self.value_pointer(Value::Sym(symbol, addend)),
            Address::Register(register, immediate) => {
                self.register_pointer(site, register, immediate)
            }
        }
    }
}
