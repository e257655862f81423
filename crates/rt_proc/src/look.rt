// Looks at places: each is taken once, and kept.
ghost use Rattle.std.specs.Prelude.{◌≡◌, ◌<◌, AllPairs, Option, Some, None, IsSome, IfOk, OnOk, if◌then◌else◌};
ghost use Rattle.rt_control.specs.Laws.{IsGood};
ghost use Rattle.rt_link.specs.Effects.{is_place};
ghost use Rattle.rt_proc.specs.Ends.{IsLookAt};
ghost use Rattle.rt_proc.specs.Entries.{IsReached};
ghost use Rattle.rt_proc.specs.Inside.Looks.{led_by, called_by, look_in, AreLooksOf};
ghost use Rattle.rt_proc.specs.Inside.Ready.{AreReady};

use crate::ends::ended;
use crate::steps::{callees, steps};
use rt_control::{Form, FormFault, Place, SiteFault, form_at};
use rt_elf::Object;
use rt_link::Links;
use std::alloc::{AllocError, Global};
use std::collections::BTreeMap;

// What the site at a place does, or its fault.
pub(crate) type Look = Result<Form, SiteFault>;

// What looks are taken of: an object, its links, and the undefined symbols whose functions don't return.
#[derive(Clone, Copy)]
pub(crate) struct Source<'a> {
    pub(crate) object: &'a Object,
    pub(crate) links: &'a Links,
    pub(crate) ends: &'a [u32],
}

impl Source<'_> {
    // What the site at a good place does, with the paths that end, or its fault.
    pub(crate) fn look_at(&self, alloc: Global, place: Place) -> Result<Look, AllocError>
        requires ready { AreReady self.now.object.now self.now.links.now }
        requires ascending { AllPairs ◌<◌ self.now.ends.now }
        requires is_good { IsGood self.now.object.now place }
        ensures { IfOk result (IsLookAt self.now.object.now self.now.ends.now place) }
    {
        match form_at(alloc, self.object, self.links, place) {
            Ok(form) => Ok(Ok(ended(self.ends, form))),
            Err(FormFault::Site(fault)) => Ok(Err(fault)),
            Err(FormFault::Memory) => Err(AllocError),
        }
    }
}

// The places that a site leads to, by steps and by calls. A site with a fault leads nowhere.
pub(crate) fn led_by(alloc: Global, look: &Look) -> Result<Vec<Place>, AllocError>
    ensures { IfOk result (λ led. led.items ≡ led_by look.now) }
{
    match look {
        Ok(form) => {
            let mut led = steps(alloc, form)?;
            led.extend_from_slice(&callees(alloc, form)?)?;
            Ok(led)
        }
        Err(_) => Ok(Vec::new(alloc)),
    }
}

// The places that a site calls. A site with a fault calls nothing.
pub(crate) fn called_by(alloc: Global, look: &Look) -> Result<Vec<Place>, AllocError>
    ensures { IfOk result (λ called. called.items ≡ called_by look.now) }
{
    match look {
        Ok(form) => callees(alloc, form),
        Err(_) => Ok(Vec::new(alloc)),
    }
}

// Looks by their places.
#[derive(Drop)]
pub(crate) struct Looks {
    pub(crate) entries: BTreeMap<Place, Look>,
}

impl Looks {
    pub(crate) fn new(alloc: Global) -> Looks
        ensures { (place : Place) → look_in result place ≡ None }
    {
        Looks {
            entries: BTreeMap::new(alloc),
        }
    }

    // The look at a place, which is kept.
    pub(crate) fn get(&self, place: Place) -> &Look
        requires { IsSome (look_in self.now place) }
        ensures { look_in self.now place ≡ Some result.now }
    {
        self.entries.get(&place).unwrap()
    }

    pub(crate) fn insert(&mut self, place: Place, look: Look) -> Result<(), AllocError>
        ensures { OnOk result ((q : Place) → look_in self.new q ≡ (if is_place place q then Option.Some look else look_in self.old q)) }
    {
        self.entries.insert(place, look)?;
        Ok(())
    }
}

// The code of an object, with the looks at the places that are reached.
#[derive(Clone, Copy)]
pub(crate) struct Code<'a> {
    pub(crate) source: Source<'a>,
    pub(crate) looks: &'a Looks,
}

impl Code<'_> {
    // What the site at a place does that is reached, or its fault.
    pub(crate) fn look(&self, place: Place) -> &Look
        requires looks { AreLooksOf self.now.source.object.now self.now.source.ends.now self.now.looks.now }
        requires reached { IsReached self.now.source.object.now self.now.source.ends.now place }
        ensures { IsLookAt self.now.source.object.now self.now.source.ends.now place result.now }
    {
        self.looks.get(place)
    }
}
