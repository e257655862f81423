// The numbers of procedures, by their entries.
ghost use Rattle.std.specs.Prelude.{◌≡◌, IfOk};
ghost use Rattle.rt_proc.specs.Order.{AreAscending};
ghost use Rattle.rt_proc.specs.Sites.{is_entry, number_of, is_other, IsIndex};

use rt_control::Place;
use std::alloc::AllocError;

// The index of a place among entries, if it is one of them.
fn index_of(entries: &[Place], place: Place) -> Option<usize>
    requires { AreAscending entries.now }
    ensures { IsIndex entries.now place result }
{
    match entries.binary_search(&place) {
        Ok(index) => Some(index),
        Err(_) => None,
    }
}

// The number of the procedure that is entered at a place, and how many there are where there is none.
pub(crate) fn number_of(entries: &[Place], place: Place) -> Result<u32, AllocError>
    requires { AreAscending entries.now }
    ensures { IfOk result (λ number. number ≡ number_of entries.now place) }
{
    let number = index_of(entries, place).unwrap_or(entries.len());
    match u32::try_from(number) {
        Ok(number) => Ok(number),
        Err(_) => Err(AllocError),
    }
}

// Whether a place is the entry of another procedure than the one that is entered at `own`.
pub(crate) fn is_other(entries: &[Place], own: Place, place: Place) -> bool
    requires { AreAscending entries.now }
    ensures { result ≡ is_other entries.now own place }
{
    index_of(entries, place).is_some() && place != own
}
