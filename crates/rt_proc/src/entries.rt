// The entries of procedures.
ghost use Rattle.std.specs.Prelude.{◌↔◌, ◌⊎◌, IfOk, All, Contains};
ghost use Rattle.rt_proc.specs.Entries.{IsCalledFrom, IsReached};
ghost use Rattle.rt_proc.specs.Inside.Looks.{AreLooksOf};
ghost use Rattle.rt_proc.specs.Order.{AreAscending};

use crate::look::{Code, called_by};
use crate::places::in_order;
use rt_control::Place;
use std::alloc::{AllocError, Global};

// The places that some sites call.
fn called_from_any(alloc: Global, code: &Code, places: &[Place]) -> Result<Vec<Place>, AllocError>
    requires looks { AreLooksOf code.now.source.object.now code.now.source.ends.now code.now.looks.now }
    requires reached { All (IsReached code.now.source.object.now code.now.source.ends.now) places.now }
    ensures { IfOk result (λ called. (to : Place)
        → Contains called.items to ↔ IsCalledFrom code.now.source.object.now code.now.source.ends.now places.now to) }
{
    let mut called = Vec::new(alloc);
    for place in places {
        let look = code.look(*place);
        called.extend_from_slice(&called_by(alloc, look)?)?;
    }
    Ok(called)
}

// The functions and the places that some sites call, in order.
pub(crate) fn entries(
    alloc: Global,
    code: &Code,
    functions: &[Place],
    reached: &[Place],
) -> Result<Vec<Place>, AllocError>
    requires looks { AreLooksOf code.now.source.object.now code.now.source.ends.now code.now.looks.now }
    requires reached { All (IsReached code.now.source.object.now code.now.source.ends.now) reached.now }
    ensures ascending { IfOk result (λ entries. AreAscending entries.items) }
    ensures same { IfOk result (λ entries. (place : Place)
        → Contains entries.items place
        ↔ (Contains functions.now place ⊎ IsCalledFrom code.now.source.object.now code.now.source.ends.now reached.now place)) }
{
    let mut entries = functions.to_vec(alloc)?;
    entries.extend_from_slice(&called_from_any(alloc, code, reached)?)?;
    in_order(alloc, &entries)
}
