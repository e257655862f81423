// The functions of the symbol table.
ghost use Rattle.std.specs.Prelude.{◌≡◌, ◌↔◌, None, IfErr, IfOk, OnOk, Contains};
ghost use Rattle.rt_proc.specs.Entries.{has_no_section, is_function, place_of, IsFunction};
ghost use Rattle.rt_proc.specs.Faults.{checked, symbol_fault, symbols_fault, IsSymbolFault};

use crate::fault::CodeFault;
use crate::site::Places;
use rt_base::Sequence;
use rt_control::{Place, is_good};
use rt_elf::section_index::{ABSOLUTE, COMMON, UNDEFINED};
use rt_elf::{Object, Symbol};
use std::alloc::Global;

// STT_FUNC (ELF gABI, "Symbol Table").
const FUNCTION: u8 = 2;

// Whether a symbol is a function of an executable section.
pub(crate) fn is_function(object: &Object, symbol: &Symbol) -> bool
    ensures { result ≡ is_function object.now symbol.now }
{
    let has_no_section = matches!(symbol.section, UNDEFINED | ABSOLUTE | COMMON);
    symbol.kind == FUNCTION && !has_no_section && object.is_code(symbol.section)
}

// The place of a symbol.
pub(crate) fn place_of(symbol: &Symbol) -> Place
    ensures { result ≡ place_of symbol.now }
{
    Place {
        section: symbol.section,
        offset: symbol.value,
    }
}

// Whether a function's place is good.
fn check_symbol(object: &Object, symbol: &Symbol) -> Result<(), CodeFault>
    ensures { result ≡ checked (symbol_fault object.now symbol.now) }
{
    let place = place_of(symbol);
    if is_function(object, symbol) && !is_good(object, place) {
        return Err(CodeFault::Bad { number: 31, place });
    }
    Ok(())
}

// The places of all functions. The error is the first function that isn't at a good place.
pub(crate) fn functions(alloc: Global, object: &Object) -> Result<Places, CodeFault>
    ensures bad { IfErr result (IsSymbolFault (symbols_fault object.now)) }
    ensures none { OnOk result (symbols_fault object.now ≡ None) }
    ensures found { IfOk result (λ places. (place : Place) → Contains places place ↔ IsFunction object.now place) }
{
    let mut places = Sequence::new(alloc);
    for symbol in object.symbols() {
        check_symbol(object, symbol)?;
        if is_function(object, symbol) {
            places.push(place_of(symbol))?;
        }
    }
    Ok(places)
}
