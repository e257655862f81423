// Places in sections.
ghost use Rattle.std.specs.Prelude.{◌≡◌, ◌<◌, length};
ghost use Rattle.rt_link.specs.Effects.{moved, place_of, symbol_place};

use rt_elf::{Object, Reloc};

/// A place in an object: the index of a section, and an offset in its bytes.
#[derive(Clone, Copy, Debug, PartialEq, Eq, PartialOrd, Ord)]
pub struct Place {
    pub section: u16,
    pub offset: u32,
}

// The place at a distance from another in its section, modulo 2^32.
pub(crate) fn moved(place: Place, distance: i32) -> Place
    ensures { result ≡ moved place.section place.offset distance }
{
    Place {
        section: place.section,
        offset: place.offset.wrapping_add_signed(distance),
    }
}

// The place of a relocation.
pub(crate) fn place_of(reloc: &Reloc) -> Place
    ensures { result ≡ place_of reloc.now }
{
    Place {
        section: reloc.section,
        offset: reloc.offset,
    }
}

// The place of a symbol.
pub(crate) fn symbol_place(object: &Object, symbol: u32) -> Place
    requires { symbol < length object.now.symbols }
    ensures { result ≡ symbol_place object.now.symbols symbol }
{
    let symbol = &object.symbols()[symbol as usize];
    Place {
        section: symbol.section,
        offset: symbol.value,
    }
}
