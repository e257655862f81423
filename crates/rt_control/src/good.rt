// Good places of code.
ghost use Rattle.std.specs.Prelude.{◌≡◌};
ghost use Rattle.rt_control.specs.Places.{is_good, good_place, HasRoom, after};

use rt_elf::Object;
use rt_link::Place;

/// Whether a place is good: its section is executable, its offset is a multiple of 4, and offset + 4 is at most the
/// section's size.
pub fn is_good(object: &Object, place: Place) -> bool
    ensures { result ≡ is_good object.now place }
{
    if !object.is_code(place.section) || place.offset % 4 != 0 {
        return false;
    }
    match object.sections().get(place.section as usize) {
        Some(section) => place.offset as u64 + 4 <= section.size as u64,
        None => false,
    }
}

// The place, if it is good.
pub(crate) fn good_place(object: &Object, place: Place) -> Option<Place>
    ensures { result ≡ good_place object.now place }
{
    if is_good(object, place) {
        Some(place)
    } else {
        None
    }
}

// The place so many bytes on.
pub(crate) fn after(object: &Object, place: Place, size: u32) -> Place
    requires { HasRoom object.now place size }
    ensures { result ≡ after place size }
{
    // The bytes are of the section, so the offset after them fits as the section's size does.
    let _size = object.sections()[place.section as usize].size;
    Place {
        section: place.section,
        offset: place.offset + size,
    }
}
