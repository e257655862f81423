// The bodies of procedures.
ghost use Rattle.std.specs.Prelude.{◌≡◌, ◌↔◌, IfOk, Contains};
ghost use Rattle.rt_proc.specs.Bodies.{IsInBody, AreEntries};
ghost use Rattle.rt_proc.specs.Entries.{IsEntry};
ghost use Rattle.rt_proc.specs.Inside.Looks.{stepped_by, AreLooksOf};
ghost use Rattle.rt_proc.specs.Order.{AreAscending};

use crate::found::Found;
use crate::look::{Code, Look};
use crate::places::in_order;
use crate::sites::next_of;
use rt_control::Place;
use std::alloc::{AllocError, Global};

// The places that a site of a body steps to in the body. A site with a fault steps nowhere.
fn stepped_by(
    alloc: Global,
    entries: &[Place],
    own: Place,
    look: &Look,
) -> Result<Vec<Place>, AllocError>
    requires { AreAscending entries.now }
    ensures { IfOk result (λ stepped. stepped.items ≡ stepped_by entries.now own look.now) }
{
    match look {
        Ok(form) => next_of(alloc, entries, own, form),
        Err(_) => Ok(Vec::new(alloc)),
    }
}

// The places of the body that is entered at `own`, as they are found.
fn found_from(
    alloc: Global,
    code: &Code,
    entries: &[Place],
    own: Place,
) -> Result<Vec<Place>, AllocError>
    requires looks { AreLooksOf code.now.source.object.now code.now.source.ends.now code.now.looks.now }
    requires entries { AreEntries code.now.source.object.now code.now.source.ends.now entries.now }
    requires entry { IsEntry code.now.source.object.now code.now.source.ends.now own }
    ensures { IfOk result (λ found. (place : Place)
        → Contains found.items place ↔ IsInBody code.now.source.object.now code.now.source.ends.now own place) }
{
    let mut found = Found::new(alloc);
    found.insert(own)?;
    let mut index = 0;
    while index < found.places.len() {
        let look = code.look(found.places[index]);
        found.insert_all(&stepped_by(alloc, entries, own, look)?)?;
        index += 1;
    }
    Ok(found.places)
}

// The places of the body that is entered at `own`, in order.
pub(crate) fn body(
    alloc: Global,
    code: &Code,
    entries: &[Place],
    own: Place,
) -> Result<Vec<Place>, AllocError>
    requires looks { AreLooksOf code.now.source.object.now code.now.source.ends.now code.now.looks.now }
    requires entries { AreEntries code.now.source.object.now code.now.source.ends.now entries.now }
    requires entry { IsEntry code.now.source.object.now code.now.source.ends.now own }
    ensures ascending { IfOk result (λ body. AreAscending body.items) }
    ensures found { IfOk result (λ body. (place : Place)
        → Contains body.items place ↔ IsInBody code.now.source.object.now code.now.source.ends.now own place) }
{
    let found = found_from(alloc, code, entries, own)?;
    in_order(alloc, &found)
}
