// Where the entries of tables lead.
ghost use Rattle.std.specs.Prelude.{◌≡◌, ◌<◌, All, IfOk, [], length};
ghost use Rattle.std.specs.Option.{option_map};
ghost use Rattle.rt_link.specs.declared.pointers.Pointer.{Pointer};
ghost use Rattle.rt_control.specs.Tables.{code_of, entry_target, entry_targets, with_places, outcome_to, outcome_of};

use crate::form::Target;
use crate::leading::symbol_target;
use crate::outcome::Outcome;
use rt_base::Sequence;
use rt_elf::Object;
use rt_link::{Place, Pointer};
use std::alloc::{AllocError, Global};
use std::collections::BTreeSet;

// Where an entry leads, if that is code.
fn entry_target(object: &Object, entry: Pointer) -> Option<Place>
    requires { entry.symbol < length object.now.symbols }
    ensures { result ≡ entry_target object.now entry }
{
    match symbol_target(object, entry.symbol, entry.addend) {
        Some(Target::Code(place)) => Some(place),
        Some(Target::Outside(_)) | None => None,
    }
}

// Where entries lead, if all lead to code.
fn entry_targets(
    alloc: Global,
    object: &Object,
    entries: &[Pointer],
) -> Result<Option<Vec<Place>>, AllocError>
    requires { All (λ (entry : Pointer). entry.symbol < length object.now.symbols) entries.now }
    ensures { IfOk result (λ places. option_map (λ places. places.items) places ≡ entry_targets object.now entries.now) }
{
    let mut places = Vec::new(alloc);
    for entry in entries {
        match entry_target(object, *entry) {
            Some(place) => places.push(place)?,
            None => return Ok(None),
        }
    }
    Ok(Some(places))
}

// The places, each once, in the order in which they first stand.
fn each_once(alloc: Global, places: &[Place]) -> Result<Vec<Place>, AllocError>
    ensures { IfOk result (λ once. once.items ≡ with_places [] places.now) }
{
    let mut seen = BTreeSet::new(alloc);
    let mut once = Vec::new(alloc);
    for place in places {
        if seen.insert(*place)? {
            once.push(*place)?;
        }
    }
    Ok(once)
}

// What a jump to an entry of a table comes to.
pub(crate) fn outcome_of(
    alloc: Global,
    object: &Object,
    entries: &[Pointer],
) -> Result<Outcome, AllocError>
    requires { All (λ (entry : Pointer). entry.symbol < length object.now.symbols) entries.now }
    ensures { IfOk result (λ outcome. outcome ≡ outcome_of object.now entries.now) }
{
    if entries.is_empty() {
        return Ok(Outcome::NoTable);
    }
    match entry_targets(alloc, object, entries)? {
        Some(places) => Ok(Outcome::Targets(Sequence::from_vec(each_once(alloc, &places)?))),
        None => Ok(Outcome::BadTarget),
    }
}
