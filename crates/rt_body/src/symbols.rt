// Symbols that stand at one place.
ghost use Rattle.std.specs.Prelude.{◌≡◌, ◌<◌, Option, None, IfOk, OnOk, if◌then◌else◌, length, unwrap_or};
ghost use Rattle.std.specs.BTreeMap.{get};
ghost use Rattle.std.specs.Option.{option_or};
ghost use Rattle.rt_link.specs.Effects.{is_place};
ghost use Rattle.rt_link.specs.Links.{place_cmp};
ghost use Rattle.rt_proc.specs.Entries.{has_no_section, place_of};
ghost use Rattle.rt_body.specs.Symbols.{is_code_symbol};
ghost use Rattle.rt_body.specs.Lowest.{lowest_in, AreSymbolsOf};

use rt_base::Memory;
use rt_elf::section_index::{ABSOLUTE, COMMON, UNDEFINED};
use rt_elf::{Object, Symbol};
use rt_proc::Place;
use std::alloc::Global;
use std::collections::BTreeMap;

/// For each symbol of an object the lowest one with its section and its value.
#[derive(Drop)]
pub struct Symbols {
    pub(crate) lowest: Vec<u32>,
}

// Whether a symbol is undefined, absolute or common.
fn has_no_section(symbol: &Symbol) -> bool
    ensures { result ≡ has_no_section symbol.now }
{
    matches!(symbol.section, UNDEFINED | ABSOLUTE | COMMON)
}

// The place of a symbol.
fn place_of(symbol: &Symbol) -> Place
    ensures { result ≡ place_of symbol.now }
{
    Place {
        section: symbol.section,
        offset: symbol.value,
    }
}

// The first symbol at a place, which is the one of this index where there was none.
fn first_at(firsts: &mut BTreeMap<Place, u32>, place: Place, index: u32) -> Result<u32, Memory>
    ensures first { IfOk result (λ first. first ≡ unwrap_or (get place_cmp firsts.old place) index) }
    ensures noted { OnOk result ((other : Place)
        → get place_cmp firsts.new other
        ≡ option_or (get place_cmp firsts.old other) (if is_place place other then Option.Some index else None)) }
{
    if let Some(first) = firsts.get(&place) {
        return Ok(*first);
    }
    firsts.insert(place, index)?;
    Ok(index)
}

// The lowest symbol at the place of a symbol, which is that symbol itself where it is of no section.
fn lowest_of(symbol: &Symbol, index: u32, first: u32) -> u32
    ensures { result ≡ (if has_no_section symbol.now then index else first) }
{
    if has_no_section(symbol) { index } else { first }
}

impl Symbols {
    /// The symbols of an object, in time near linear in their number. The error is out of memory.
    pub fn of(alloc: Global, object: &Object) -> Result<Symbols, Memory>
        ensures { IfOk result (AreSymbolsOf object.now) }
    {
        let mut firsts = BTreeMap::new(alloc);
        let mut lowest = Vec::with_capacity(alloc, object.symbols().len())?;
        for (index, symbol) in object.symbols().iter().enumerate() {
            let first = first_at(&mut firsts, place_of(symbol), index as u32)?;
            lowest.push(lowest_of(symbol, index as u32, first))?;
        }
        Ok(Symbols { lowest })
    }

    /// The lowest symbol with the section and the value of a symbol, which is that symbol itself where it is undefined,
    /// absolute or common. It takes no memory.
    pub fn lowest(&self, symbol: u32) -> u32
        ensures { result ≡ lowest_in self.now symbol }
    {
        match self.lowest.get(symbol as usize) {
            Some(lowest) => *lowest,
            None => symbol,
        }
    }
}

/// Whether a symbol lies in an executable section. An undefined, absolute or common symbol lies in none (ELF gABI,
/// "Special Section Indexes"), and so does one that the object hasn't.
pub fn is_code_symbol(object: &Object, symbol: u32) -> bool
    ensures { result ≡ is_code_symbol object.now symbol }
{
    match object.symbols().get(symbol as usize) {
        Some(symbol) => !has_no_section(symbol) && object.is_code(symbol.section),
        None => false,
    }
}
