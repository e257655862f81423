// The links of an object.
ghost use Rattle.std.specs.Prelude.{◌≡◌};
ghost use Rattle.rt_link.specs.Links.{link_in, pointer_in, is_named_in};

use crate::heads::Heads;
use crate::link::Link;
use crate::place::Place;
use crate::pointers::{Pointer, Pointers};
use std::collections::BTreeSet;

/// What the relocations of an object mean at their places: those of its code, and the pointers in code and data.
#[derive(Drop)]
pub struct Links {
    pub(crate) heads: Heads,
    pub(crate) pointers: Pointers,
    pub(crate) named: BTreeSet<Place>,
}

impl Links {
    /// What the relocation at a place of code means, and None exactly where no relocation of code with an effect is
    /// there. It takes no memory.
    pub fn at(&self, section: u16, offset: u32) -> Option<Link>
        ensures { result ≡ link_in self.now section offset }
    {
        self.heads.link(Place { section, offset })
    }

    /// The pointer at a place of code or data, R_RISCV_32, the first in the order of the file, and None exactly where
    /// there is none. It takes no memory.
    pub fn pointer(&self, section: u16, offset: u32) -> Option<Pointer>
        ensures { result ≡ pointer_in self.now section offset }
    {
        self.pointers.get(Place { section, offset })
    }

    /// Whether the low bits of an address ([`Link::Low`]) at some place of code are those of this place: of its symbol
    /// with its addend. It takes no memory.
    pub fn is_named(&self, section: u16, offset: u32) -> bool
        ensures { result ≡ is_named_in self.now section offset }
    {
        self.named.contains(&Place { section, offset })
    }
}
