// Pointers in code and data.
ghost use Rattle.std.specs.Prelude.{◌≡◌, Option, None, IfOk, OnOk, if◌then◌else◌};
ghost use Rattle.std.specs.Option.{option_map, option_or};
ghost use Rattle.rt_link.specs.Effects.{is_place};
ghost use Rattle.rt_link.specs.Links.{pointer_of, pointer_held};
ghost use Rattle.rt_link.specs.Pointers.{is_address, pointer_at};

use crate::place::{Place, place_of};
use crate::relocation_type::R_RISCV_32;
use rt_elf::{Object, Reloc};
use std::alloc::{AllocError, Global};
use std::collections::BTreeMap;

/// A pointer, R_RISCV_32 (RISC-V psABI, "Relocations"): the index of the symbol whose address it is, and what is added
/// to that.
#[derive(Clone, Copy)]
pub struct Pointer {
    pub symbol: u32,
    pub addend: i32,
}

// Pointers by their places.
#[derive(Drop)]
pub(crate) struct Pointers {
    pub(crate) entries: BTreeMap<Place, Pointer>,
}

impl Pointers {
    fn new(alloc: Global) -> Pointers
        ensures { (place : Place) → pointer_held result place ≡ None }
    {
        Pointers {
            entries: BTreeMap::new(alloc),
        }
    }

    pub(crate) fn get(&self, place: Place) -> Option<Pointer>
        ensures { result ≡ pointer_held self.now place }
    {
        self.entries.get(&place).copied()
    }

    // Adds the pointer at a place, unless one is there.
    fn add(&mut self, place: Place, pointer: Pointer) -> Result<(), AllocError>
        ensures { OnOk result ((q : Place) → pointer_held self.new q ≡
            option_or (pointer_held self.old q) (if is_place place q then Option.Some pointer else None)) }
    {
        if self.get(place).is_none() {
            self.entries.insert(place, pointer)?;
        }
        Ok(())
    }
}

// Whether a relocation is a pointer of a section of code or of data.
fn is_address(object: &Object, reloc: &Reloc) -> bool
    ensures { result ≡ is_address object.now reloc.now }
{
    reloc.kind == R_RISCV_32 && (object.is_code(reloc.section) || object.is_data(reloc.section))
}

fn pointer_of(reloc: &Reloc) -> Pointer
    ensures { result ≡ pointer_of reloc.now }
{
    Pointer {
        symbol: reloc.symbol,
        addend: reloc.addend,
    }
}

// The first pointer at each place.
pub(crate) fn pointers_of(alloc: Global, object: &Object) -> Result<Pointers, AllocError>
    ensures { IfOk result (λ pointers. (place : Place) →
        pointer_held pointers place ≡ option_map pointer_of (pointer_at object.now place)) }
{
    let mut pointers = Pointers::new(alloc);
    for reloc in object.relocs() {
        if is_address(object, reloc) {
            pointers.add(place_of(reloc), pointer_of(reloc))?;
        }
    }
    Ok(pointers)
}
