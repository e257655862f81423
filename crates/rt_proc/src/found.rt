// Places as they are found.
ghost use Rattle.std.specs.Prelude.{◌≡◌, [], OnOk};
ghost use Rattle.rt_control.specs.Tables.{with_place, with_places};
ghost use Rattle.rt_proc.specs.Inside.Founds.{HasFound};

use rt_control::Place;
use std::alloc::{AllocError, Global};
use std::collections::BTreeSet;

// Places in the order in which they were found, each once, and the set of them.
#[derive(Drop)]
pub(crate) struct Found {
    pub(crate) places: Vec<Place>,
    pub(crate) set: BTreeSet<Place>,
}

impl Found {
    pub(crate) fn new(alloc: Global) -> Found
        ensures empty { result.places.items ≡ [] }
        ensures same { HasFound result }
    {
        Found {
            places: Vec::new(alloc),
            set: BTreeSet::new(alloc),
        }
    }

    // Adds a place at the end, unless it was found already.
    pub(crate) fn insert(&mut self, place: Place) -> Result<(), AllocError>
        requires { HasFound self.old }
        ensures same { OnOk result (HasFound self.new) }
        ensures places { OnOk result (self.new.places.items ≡ with_place self.old.places.items place) }
    {
        if self.set.insert(place)? {
            self.places.push(place)?;
        }
        Ok(())
    }

    // Adds places, each that is new at the end.
    pub(crate) fn insert_all(&mut self, places: &[Place]) -> Result<(), AllocError>
        requires { HasFound self.old }
        ensures same { OnOk result (HasFound self.new) }
        ensures places { OnOk result (self.new.places.items ≡ with_places self.old.places.items places.now) }
    {
        for place in places {
            self.insert(*place)?;
        }
        Ok(())
    }
}
