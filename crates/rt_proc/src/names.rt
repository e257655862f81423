// The names of functions.
ghost use Rattle.std.specs.Prelude.{◌≡◌, [], unwrap_or, IfOk, OnOk};
ghost use Rattle.std.specs.Option.{option_or};
ghost use Rattle.std.specs.BTreeMap.{get};
ghost use Rattle.rt_link.specs.Links.{place_cmp};
ghost use Rattle.rt_proc.specs.Procs.{name_of_first, name_there};

use crate::functions::{is_function, place_of};
use rt_control::Place;
use rt_elf::{Name, Object, Symbol};
use std::alloc::{AllocError, Global};
use std::collections::BTreeMap;

// Adds the name of a symbol, if it is a function and the first one at its place.
fn note(
    object: &Object,
    symbol: &Symbol,
    names: &mut BTreeMap<Place, Name>,
) -> Result<(), AllocError>
    ensures { OnOk result ((place : Place)
        → get place_cmp names.new place ≡ option_or (get place_cmp names.old place) (name_there object.now symbol.now place)) }
{
    if !is_function(object, symbol) {
        return Ok(());
    }
    let place = place_of(symbol);
    if names.contains_key(&place) {
        return Ok(());
    }
    names.insert(place, symbol.name.copy()?)?;
    Ok(())
}

// At each place of a function the name of the first one there.
pub(crate) fn names(alloc: Global, object: &Object) -> Result<BTreeMap<Place, Name>, AllocError>
    ensures { IfOk result (λ names. (place : Place) → get place_cmp names place ≡ name_of_first object.now object.now.symbols place) }
{
    let mut names = BTreeMap::new(alloc);
    for symbol in object.symbols() {
        note(object, symbol, &mut names)?;
    }
    Ok(names)
}

// The name that is held for a place, and the empty name where there is none.
pub(crate) fn name_in(
    alloc: Global,
    names: &BTreeMap<Place, Name>,
    place: Place,
) -> Result<Name, AllocError>
    ensures { IfOk result (λ name. name ≡ unwrap_or (get place_cmp names.now place) []) }
{
    match names.get(&place) {
        Some(name) => name.copy(),
        None => Name::empty(alloc),
    }
}
