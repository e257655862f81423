// Rows of stores.
ghost use Rattle.std.specs.Prelude.{◌≡◌, ◌<◌, ◌++◌, OnOk};
ghost use Rattle.rt_body.specs.Registers.{HasAddressRegister};
ghost use Rattle.rt_body.specs.Told.{sites_in};
ghost use Rattle.rt_table.specs.Table.{pointer, store_rows, store_through, width_bits};
ghost use Rattle.rt_table.specs.Inside.Told.{context_of};

use crate::context::Context;
use crate::pointer::Pointer;
use rt_base::Memory;
use rt_body::{Address, Width};
use rt_lines::Label;
use rt_rows::{Row, Rows, Term};

// How many bits a store writes.
fn width_bits(width: Width) -> u8
    ensures { result ≡ width_bits width }
{
    match width {
        Width::Word => 32,
        Width::Half => 16,
        Width::Byte => 8,
    }
}

impl Context<'_> {
    // A store through a variable: a word keeps what flows into it.
    fn store_through(
        &self,
        site: u32,
        width: Width,
        stored: u8,
        to: Term,
        offset: i32,
        rows: &mut Rows,
    ) -> Result<(), Memory>
        requires site { site < sites_in self.now.body.now }
        requires register { stored < 32 }
        ensures { OnOk result (rows.new ≡ rows.old ++ store_through (context_of self.now) site width stored to offset) }
    {
        let written = to.along(&[Label::Store, Label::Field(width_bits(width), offset)])?;
        match width {
            Width::Word => {
                let side = self.use_side(site, stored)?;
                self.flow_or_exists(side, written, rows)
            }
            Width::Half | Width::Byte => rows.push(Row::Var(written)),
        }
    }

    // Adds the rows of a store.
    pub(crate) fn store_rows(
        &self,
        site: u32,
        width: Width,
        stored: u8,
        address: Address,
        rows: &mut Rows,
    ) -> Result<(), Memory>
        requires site { site < sites_in self.now.body.now }
        requires stored { stored < 32 }
        requires register { HasAddressRegister address }
        ensures { OnOk result (rows.new ≡ rows.old ++
            store_rows (context_of self.now) site width stored (pointer (context_of self.now) site address)) }
    {
        let to = self.pointer(site, address)?;
        match to {
            Pointer::Through(to, offset) => {
                self.store_through(site, width, stored, to, offset, rows)
            }
            Pointer::InFrame(_) | Pointer::Nowhere => Ok(()),
        }
    }
}
