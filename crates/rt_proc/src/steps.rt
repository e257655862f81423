// The steps and calls of a site.
ghost use Rattle.std.specs.Prelude.{◌≡◌, IfOk};
ghost use Rattle.rt_proc.specs.Steps.{way_steps, steps, callees};

use rt_control::{Called, Form, Place, Target, Way};
use std::alloc::{AllocError, Global};

// The places that an instruction leads to.
fn way_steps(alloc: Global, way: &Way) -> Result<Vec<Place>, AllocError>
    ensures { IfOk result (λ places. places.items ≡ way_steps way.now) }
{
    match way {
        Way::On(place) | Way::Jump(place) => Ok(vec![in alloc; *place]?),
        Way::Branch { target, after } => {
            if target == after {
                return Ok(vec![in alloc; *target]?);
            }
            Ok(vec![in alloc; *target, *after]?)
        }
        Way::Leave(_) => Ok(Vec::new(alloc)),
        Way::Table(places) => places.items().iter().copied().collect(alloc),
    }
}

// The places that a site steps to.
pub(crate) fn steps(alloc: Global, form: &Form) -> Result<Vec<Place>, AllocError>
    ensures { IfOk result (λ places. places.items ≡ steps form.now) }
{
    match form {
        Form::Plain { way, .. } => way_steps(alloc, way),
        Form::Call {
            after: Some(after),
            ..
        } => Ok(vec![in alloc; *after]?),
        Form::Call { after: None, .. } | Form::Tail(_) | Form::Return | Form::Stop => {
            Ok(Vec::new(alloc))
        }
    }
}

// The code that a site calls.
pub(crate) fn callees(alloc: Global, form: &Form) -> Result<Vec<Place>, AllocError>
    ensures { IfOk result (λ places. places.items ≡ callees form.now) }
{
    match form {
        Form::Call {
            called: Called::Code(place),
            ..
        }
        | Form::Tail(Target::Code(place)) => Ok(vec![in alloc; *place]?),
        Form::Plain { .. } | Form::Call { .. } | Form::Tail(_) | Form::Return | Form::Stop => {
            Ok(Vec::new(alloc))
        }
    }
}
