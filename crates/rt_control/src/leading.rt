// Where symbols and distances lead.
ghost use Rattle.std.specs.Prelude.{◌≡◌, ◌<◌, length};
ghost use Rattle.rt_control.specs.Places.{code_target, symbol_target, jump_target};
ghost use Rattle.rt_link.specs.Effects.{moved};
ghost use Rattle.rt_link.specs.Laws.{IsAboutSymbol};

use crate::form::Target;
use crate::good::is_good;
use rt_elf::Object;
use rt_elf::section_index::{ABSOLUTE, COMMON, UNDEFINED};
use rt_link::{Link, Place};

// The place at a distance from an offset of a section, modulo 2^32.
fn moved(section: u16, offset: u32, distance: i32) -> Place
    ensures { result ≡ moved section offset distance }
{
    Place {
        section,
        offset: offset.wrapping_add_signed(distance),
    }
}

// The code at a place, if that is good.
fn code_target(object: &Object, place: Place) -> Option<Target>
    ensures { result ≡ code_target object.now place }
{
    if is_good(object, place) {
        Some(Target::Code(place))
    } else {
        None
    }
}

// Where a symbol with an addend leads.
#[tactic(auto, unfolding(crate::specs::Places::symbol_target))]
pub(crate) fn symbol_target(object: &Object, symbol: u32, addend: i32) -> Option<Target>
    requires { symbol < length object.now.symbols }
    ensures { result ≡ symbol_target object.now symbol addend }
{
    let entry = &object.symbols()[symbol as usize];
    match entry.section {
        UNDEFINED => Some(Target::Outside(symbol)),
        ABSOLUTE | COMMON => None,
        section => code_target(object, moved(section, entry.value, addend)),
    }
}

// Where a jump at a place leads: to the symbol of its relocation, if it has one, else at its distance.
pub(crate) fn jump_target(
    object: &Object,
    place: Place,
    link: Option<Link>,
    distance: i32,
) -> Option<Target>
    requires { IsAboutSymbol object.now link }
    ensures { result ≡ jump_target object.now place link distance }
{
    match link {
        Some(Link::Target { symbol, addend }) => symbol_target(object, symbol, addend),
        _ => code_target(object, moved(place.section, place.offset, distance)),
    }
}
