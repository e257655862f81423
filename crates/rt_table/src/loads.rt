// Rows of loads.
ghost use Rattle.std.specs.Prelude.{◌≡◌, ◌<◌, ◌++◌, ◌∷◌, [], OnOk};
ghost use Rattle.rt_body.specs.Registers.{HasAddressRegister};
ghost use Rattle.rt_body.specs.Told.{sites_in};
ghost use Rattle.rt_table.specs.Table.{load_in_frame, load_rows, load_through, loaded_bits, loaded_role, pointer, read_into, role_row};
ghost use Rattle.rt_table.specs.Inside.Told.{context_of};

use crate::context::Context;
use crate::pointer::Pointer;
use rt_base::Memory;
use rt_body::{Address, Loaded};
use rt_lattice::Role;
use rt_lines::Label;
use rt_rows::{Row, Rows, Term};

// How many bits a load reads.
fn loaded_bits(loaded: Loaded) -> u8
    ensures { result ≡ loaded_bits loaded }
{
    match loaded {
        Loaded::Word => 32,
        Loaded::SignedHalf | Loaded::Half => 16,
        Loaded::SignedByte | Loaded::Byte => 8,
    }
}

// What a narrow load reads. A word may be anything.
fn loaded_role(loaded: Loaded) -> Option<Role>
    ensures { result ≡ loaded_role loaded }
{
    match loaded {
        Loaded::Word => None,
        Loaded::SignedHalf => Some(Role::Sint16),
        Loaded::Half => Some(Role::Uint16),
        Loaded::SignedByte => Some(Role::Sint8),
        Loaded::Byte => Some(Role::Uint8),
    }
}

impl Context<'_> {
    // Adds that a variable is read into a register, or that it exists where that is x0.
    fn read_into(&self, site: u32, to: u8, from: Term, rows: &mut Rows) -> Result<(), Memory>
        ensures { OnOk result (rows.new ≡ rows.old ++ read_into (context_of self.now) site to from ∷ []) }
    {
        if to == 0 {
            rows.push(Row::Var(from))
        } else {
            rows.push(Row::Sub(from, self.definition(site, to)))
        }
    }

    // Adds that the constant of a role is above a variable, where there is a role.
    fn role_row(&self, above: Option<Role>, below: Term, rows: &mut Rows) -> Result<(), Memory>
        ensures { OnOk result (rows.new ≡ rows.old ++ role_row (context_of self.now) above below) }
    {
        match above {
            Some(role) => rows.push(Row::Up(below, self.constant(role))),
            None => Ok(()),
        }
    }

    // A load through a variable.
    fn load_through(
        &self,
        site: u32,
        loaded: Loaded,
        to: u8,
        from: Term,
        offset: i32,
        rows: &mut Rows,
    ) -> Result<(), Memory>
        ensures { OnOk result (rows.new ≡ rows.old ++ load_through (context_of self.now) site loaded to from offset) }
    {
        let read = from.along(&[Label::Load, Label::Field(loaded_bits(loaded), offset)])?;
        let copy = read.copy()?;
        self.read_into(site, to, copy, rows)?;
        self.role_row(loaded_role(loaded), read, rows)
    }

    // A load from the frame itself: a word gives what was put there.
    fn load_in_frame(
        &self,
        site: u32,
        loaded: Loaded,
        to: u8,
        offset: i32,
        rows: &mut Rows,
    ) -> Result<(), Memory>
        requires { site < sites_in self.now.body.now }
        ensures { OnOk result (rows.new ≡ rows.old ++ load_in_frame (context_of self.now) site loaded to offset) }
    {
        match loaded {
            Loaded::Word => self.load_word(site, to, offset, rows),
            Loaded::SignedHalf | Loaded::Half | Loaded::SignedByte | Loaded::Byte => Ok(()),
        }
    }

    // Adds the rows of a load.
    pub(crate) fn load_rows(
        &self,
        site: u32,
        loaded: Loaded,
        to: u8,
        address: Address,
        rows: &mut Rows,
    ) -> Result<(), Memory>
        requires site { site < sites_in self.now.body.now }
        requires register { HasAddressRegister address }
        ensures { OnOk result (rows.new ≡ rows.old ++
            load_rows (context_of self.now) site loaded to (pointer (context_of self.now) site address)) }
    {
        let from = self.pointer(site, address)?;
        match from {
            Pointer::Through(from, offset) => {
                self.load_through(site, loaded, to, from, offset, rows)
            }
            Pointer::InFrame(offset) => self.load_in_frame(site, loaded, to, offset, rows),
            Pointer::Nowhere => Ok(()),
        }
    }
}
