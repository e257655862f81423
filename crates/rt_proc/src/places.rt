// Sets of places.
ghost use Rattle.std.specs.Prelude.{◌≡◌, ◌↔◌, Contains, IfOk};
ghost use Rattle.std.specs.BTreeSet.{IsFromIterResult};
ghost use Rattle.rt_proc.specs.Order.{AreAscending, place_cmp};

use rt_control::Place;
use std::alloc::{AllocError, Global};
use std::collections::BTreeSet;

// The set of some places.
fn set_of(alloc: Global, places: &[Place]) -> Result<BTreeSet<Place>, AllocError>
    ensures { IfOk result (IsFromIterResult place_cmp places.now) }
{
    places.iter().copied().collect(alloc)
}

// The places of a set, in order.
fn listed(alloc: Global, set: &BTreeSet<Place>) -> Result<Vec<Place>, AllocError>
    ensures { IfOk result (λ places. places.items ≡ set.now.keys) }
{
    set.iter().copied().collect(alloc)
}

// The places in their order, each once.
pub(crate) fn in_order(alloc: Global, places: &[Place]) -> Result<Vec<Place>, AllocError>
    ensures ascending { IfOk result (λ sorted. AreAscending sorted.items) }
    ensures same { IfOk result (λ sorted. (place : Place) → Contains sorted.items place ↔ Contains places.now place) }
{
    listed(alloc, &set_of(alloc, places)?)
}
