// What is reached from functions.
ghost use Rattle.std.specs.Prelude.{◌<◌, ◌↔◌, IfOk, AllPairs, Contains};
ghost use Rattle.rt_proc.specs.Entries.{IsFunction, IsReached};
ghost use Rattle.rt_proc.specs.Inside.Looks.{AreLooksOf};
ghost use Rattle.rt_proc.specs.Inside.Ready.{AreReady};

use crate::found::Found;
use crate::look::{Looks, Source, led_by};
use rt_control::Place;
use std::alloc::{AllocError, Global};

// The places that are reached, as they are found, and the looks at them.
#[derive(Drop)]
pub(crate) struct Reached {
    pub(crate) places: Vec<Place>,
    pub(crate) looks: Looks,
}

// What is reached from the functions by steps and calls.
pub(crate) fn reach(
    alloc: Global,
    source: &Source,
    functions: &[Place],
) -> Result<Reached, AllocError>
    requires ready { AreReady source.now.object.now source.now.links.now }
    requires ascending { AllPairs ◌<◌ source.now.ends.now }
    requires functions { (place : Place) → Contains functions.now place ↔ IsFunction source.now.object.now place }
    ensures reached { IfOk result (λ reached. (place : Place)
        → Contains reached.places.items place ↔ IsReached source.now.object.now source.now.ends.now place) }
    ensures looks { IfOk result (λ reached. AreLooksOf source.now.object.now source.now.ends.now reached.looks) }
{
    let mut found = Found::new(alloc);
    let mut looks = Looks::new(alloc);
    found.insert_all(functions)?;
    let mut index = 0;
    while index < found.places.len() {
        let place = found.places[index];
        let look = source.look_at(alloc, place)?;
        found.insert_all(&led_by(alloc, &look)?)?;
        looks.insert(place, look)?;
        index += 1;
    }
    Ok(Reached {
        places: found.places,
        looks,
    })
}
