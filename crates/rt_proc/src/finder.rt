// Procedures from objects.
ghost use Rattle.std.specs.Prelude.{◌≡◌, ◌<◌, ◌↔◌, None, IfErr, IfOk, OnOk, All, AllPairs, Contains};
ghost use Rattle.std.specs.BTreeMap.{get};
ghost use Rattle.rt_link.specs.Checks.{link_fault};
ghost use Rattle.rt_link.specs.Links.{AreLinksOf, place_cmp};
ghost use Rattle.rt_proc.specs.Bodies.{IsInBody, AreEntries};
ghost use Rattle.rt_proc.specs.Entries.{IsEntry, IsFunction, IsReached};
ghost use Rattle.rt_proc.specs.Faults.{symbols_fault, IsSound, IsBodyFault, IsFaultOf, HasNoFault};
ghost use Rattle.rt_proc.specs.Inside.Looks.{AreLooksOf};
ghost use Rattle.rt_proc.specs.Order.{AreAscending};
ghost use Rattle.rt_proc.specs.Procs.{name_of_first, places_of, entries_of, IsSite, IsProc, AreProcs};

use crate::bodies::body;
use crate::entries::entries;
use crate::fault::CodeFault;
use crate::functions::functions;
use crate::look::{Code, Source};
use crate::names::{name_in, names};
use crate::proc::{Proc, Procs};
use crate::reach::reach;
use crate::site::Sites;
use crate::sites::site_of;
use rt_base::Sequence;
use rt_control::Place;
use rt_control::laws::places;
use rt_elf::{Name, Object};
use rt_link::Links;
use std::alloc::{AllocError, Global};
use std::collections::BTreeMap;

// The sites of the body that is entered at `own`. The error is the first of its faults.
fn sites(
    alloc: Global,
    code: &Code,
    entries: &[Place],
    own: Place,
    body: &[Place],
) -> Result<Sites, CodeFault>
    requires looks { AreLooksOf code.now.source.object.now code.now.source.ends.now code.now.looks.now }
    requires entry { IsEntry code.now.source.object.now code.now.source.ends.now own }
    requires entries { AreAscending entries.now }
    requires ascending { AreAscending body.now }
    requires body { (place : Place) → Contains body.now place ↔ IsInBody code.now.source.object.now code.now.source.ends.now own place }
    ensures bad { IfErr result (IsBodyFault code.now.source.object.now code.now.source.ends.now own) }
    ensures sound { OnOk result (IsSound code.now.source.object.now code.now.source.ends.now own) }
    ensures places { IfOk result (λ sites. places_of sites ≡ body.now) }
    ensures found { IfOk result (All (IsSite code.now.source.object.now code.now.source.ends.now entries.now own)) }
{
    let mut sites = Sequence::new(alloc);
    for place in body {
        match code.look(*place) {
            Ok(form) => sites.push(site_of(alloc, entries, own, *place, form)?)?,
            Err(fault) => {
                return Err(CodeFault::Bad {
                    number: fault.number(),
                    place: *place,
                });
            }
        }
    }
    Ok(sites)
}

// The procedure that is entered at `own`. The error is the first fault of its body.
fn proc_at(
    alloc: Global,
    code: &Code,
    entries: &[Place],
    names: &BTreeMap<Place, Name>,
    own: Place,
) -> Result<Proc, CodeFault>
    requires looks { AreLooksOf code.now.source.object.now code.now.source.ends.now code.now.looks.now }
    requires entries { AreEntries code.now.source.object.now code.now.source.ends.now entries.now }
    requires names { (place : Place)
        → get place_cmp names.now place ≡ name_of_first code.now.source.object.now code.now.source.object.now.symbols place }
    requires entry { IsEntry code.now.source.object.now code.now.source.ends.now own }
    ensures bad { IfErr result (IsBodyFault code.now.source.object.now code.now.source.ends.now own) }
    ensures sound { OnOk result (IsSound code.now.source.object.now code.now.source.ends.now own) }
    ensures entry { IfOk result (λ proc. proc.entry ≡ own) }
    ensures found { IfOk result (IsProc code.now.source.object.now code.now.source.ends.now entries.now) }
{
    let body = body(alloc, code, entries, own)?;
    let sites = sites(alloc, code, entries, own, &body)?;
    let name = name_in(alloc, names, own)?;
    Ok(Proc {
        entry: own,
        name,
        sites,
    })
}

// The procedures that are entered at some places. The error is the first fault of the first body that has one.
fn procs_at(alloc: Global, code: &Code, entries: &[Place]) -> Result<Procs, CodeFault>
    requires looks { AreLooksOf code.now.source.object.now code.now.source.ends.now code.now.looks.now }
    requires entries { AreEntries code.now.source.object.now code.now.source.ends.now entries.now }
    requires symbols { symbols_fault code.now.source.object.now ≡ None }
    ensures bad { IfErr result (IsFaultOf code.now.source.object.now code.now.source.ends.now) }
    ensures none { OnOk result (HasNoFault code.now.source.object.now code.now.source.ends.now) }
    ensures found { IfOk result (AreProcs code.now.source.object.now code.now.source.ends.now) }
{
    let names = names(alloc, code.source.object)?;
    let mut procs = Sequence::new(alloc);
    for entry in entries {
        procs.push(proc_at(alloc, code, entries, &names, *entry)?)?;
    }
    Ok(procs)
}

// The entries of all procedures, in order.
fn all_entries(
    alloc: Global,
    code: &Code,
    functions: &[Place],
    reached: &[Place],
) -> Result<Vec<Place>, AllocError>
    requires looks { AreLooksOf code.now.source.object.now code.now.source.ends.now code.now.looks.now }
    requires functions { (place : Place) → Contains functions.now place ↔ IsFunction code.now.source.object.now place }
    requires reached { (place : Place) →
        Contains reached.now place ↔ IsReached code.now.source.object.now code.now.source.ends.now place }
    ensures { IfOk result (λ entries. AreEntries code.now.source.object.now code.now.source.ends.now entries.items) }
{
    places();
    entries(alloc, code, functions, reached)
}

/// The procedures of an object, with the sites of their bodies.
///
/// An entry is the place of a function's symbol (STT_FUNC) of an executable section, or the code that is called at a
/// site that is reached from such places by steps and calls. The body of an entry is what steps reach from it, up to
/// the entries of other procedures: a step to one is a tail call, but the path of a call whose continuation is one ends
/// there.
///
/// An error is the first fault: of the symbols, in their order, then of the sites, by procedure and in it by place.
/// [`CodeFault`] lists them with their numbers.
///
/// A call of an undefined symbol that `ends` lists, one whose function doesn't return, has no continuation: its path ends
/// there.
///
/// Conditions: the links are those that `rt_link::resolve` gives for the object, and `ends` is ascending.
///
/// Time and memory are near linear in the symbols, in the sites of all bodies together, and in the entries of the tables
/// to which these jump.
pub fn find(alloc: Global, object: &Object, links: &Links, ends: &[u32]) -> Result<Procs, CodeFault>
    requires links { AreLinksOf object.now links.now }
    requires linked { link_fault object.now ≡ None }
    requires ascending { AllPairs ◌<◌ ends.now }
    ensures bad { IfErr result (IsFaultOf object.now ends.now) }
    ensures none { OnOk result (HasNoFault object.now ends.now) }
    ensures found { IfOk result (AreProcs object.now ends.now) }
{
    let functions = functions(alloc, object)?;
    let source = Source {
        object,
        links,
        ends,
    };
    let reached = reach(alloc, &source, functions.items())?;
    let code = Code {
        source,
        looks: &reached.looks,
    };
    let entries = all_entries(alloc, &code, functions.items(), &reached.places)?;
    procs_at(alloc, &code, &entries)
}
