// Sites, from what they do.
ghost use Rattle.std.specs.Prelude.{◌≡◌, IfOk};
ghost use Rattle.rt_proc.specs.Order.{AreAscending};
ghost use Rattle.rt_proc.specs.Sites.{callee_of, target_of, kind_of, next_of, step_tails, tails_of, site_of};
ghost use Rattle.rt_proc.specs.Steps.{steps};

use crate::numbers::{is_other, number_of};
use crate::site::{Callee, Kind, Site};
use crate::steps::steps;
use rt_base::Sequence;
use rt_control::{Called, Form, Place, Target, Way};
use std::alloc::{AllocError, Global};

fn callee_of(entries: &[Place], called: Called) -> Result<Callee, AllocError>
    requires { AreAscending entries.now }
    ensures { IfOk result (λ callee. callee ≡ callee_of entries.now called) }
{
    match called {
        Called::Code(place) => Ok(Callee::Proc(number_of(entries, place)?)),
        Called::Outside(symbol) => Ok(Callee::Extern(symbol)),
        Called::Register(register) => Ok(Callee::Unknown(register)),
    }
}

fn target_of(entries: &[Place], target: Target) -> Result<Callee, AllocError>
    requires { AreAscending entries.now }
    ensures { IfOk result (λ callee. callee ≡ target_of entries.now target) }
{
    match target {
        Target::Code(place) => Ok(Callee::Proc(number_of(entries, place)?)),
        Target::Outside(symbol) => Ok(Callee::Extern(symbol)),
    }
}

fn kind_of(entries: &[Place], form: &Form) -> Result<Kind, AllocError>
    requires { AreAscending entries.now }
    ensures { IfOk result (λ kind. kind ≡ kind_of entries.now form.now) }
{
    match form {
        Form::Plain { insn, .. } => Ok(Kind::Plain(*insn)),
        Form::Call { called, link, .. } => Ok(Kind::Call(callee_of(entries, *called)?, *link)),
        Form::Return => Ok(Kind::Return),
        Form::Tail(_) | Form::Stop => Ok(Kind::Stop),
    }
}

// The steps that stay in the body.
pub(crate) fn next_of(
    alloc: Global,
    entries: &[Place],
    own: Place,
    form: &Form,
) -> Result<Vec<Place>, AllocError>
    requires { AreAscending entries.now }
    ensures { IfOk result (λ next. next.items ≡ next_of entries.now own form.now) }
{
    let mut next = Vec::new(alloc);
    for place in &steps(alloc, form)? {
        if !is_other(entries, own, *place) {
            next.push(*place)?;
        }
    }
    Ok(next)
}

// The tail calls of an instruction that calls nothing and leads to some places.
fn step_tails(
    alloc: Global,
    entries: &[Place],
    own: Place,
    steps: &[Place],
) -> Result<Vec<Callee>, AllocError>
    requires { AreAscending entries.now }
    ensures { IfOk result (λ tails. tails.items ≡ step_tails entries.now own steps.now) }
{
    let mut tails = Vec::new(alloc);
    for place in steps {
        if is_other(entries, own, *place) {
            tails.push(Callee::Proc(number_of(entries, *place)?))?;
        }
    }
    Ok(tails)
}

fn tails_of(
    alloc: Global,
    entries: &[Place],
    own: Place,
    form: &Form,
) -> Result<Vec<Callee>, AllocError>
    requires { AreAscending entries.now }
    ensures { IfOk result (λ tails. tails.items ≡ tails_of entries.now own form.now) }
{
    match form {
        Form::Plain {
            way: Way::Leave(symbol),
            ..
        } => Ok(vec![in alloc; Callee::Extern(*symbol)]?),
        Form::Plain { .. } => step_tails(alloc, entries, own, &steps(alloc, form)?),
        Form::Tail(target) => Ok(vec![in alloc; target_of(entries, *target)?]?),
        Form::Call { .. } | Form::Return | Form::Stop => Ok(Vec::new(alloc)),
    }
}

// The site at a place of the body that is entered at `own`, from what it does.
pub(crate) fn site_of(
    alloc: Global,
    entries: &[Place],
    own: Place,
    place: Place,
    form: &Form,
) -> Result<Site, AllocError>
    requires { AreAscending entries.now }
    ensures { IfOk result (λ site. site ≡ site_of entries.now own place form.now) }
{
    Ok(Site {
        place,
        kind: kind_of(entries, form)?,
        next: Sequence::from_vec(next_of(alloc, entries, own, form)?),
        tails: Sequence::from_vec(tails_of(alloc, entries, own, form)?),
    })
}
