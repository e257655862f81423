// What is read of a procedure before its flow.
ghost use Rattle.std.specs.Prelude.{◌<◌, ◌^◌, IfOk, length};
ghost use Rattle.rt_link.specs.Links.{AreLinksOf};
ghost use Rattle.rt_body.specs.Lowest.{AreSymbolsOf};
ghost use Rattle.rt_body.specs.Inside.Parts.{AreParts};
ghost use Rattle.rt_body.specs.Readable.{IsReadable};

use crate::action::Action;
use crate::actions::actions;
use crate::numbers::{edges, number_at, places_of};
use crate::symbols::Symbols;
use rt_base::{Memory, Sequence};
use rt_elf::Object;
use rt_link::Links;
use rt_proc::Proc;
use std::alloc::{AllocError, Global};

/// What the sites of a procedure do, the number of its entry, and its edges. The error is out of memory.
pub(crate) fn parts(
    alloc: Global,
    object: &Object,
    links: &Links,
    symbols: &Symbols,
    proc: &Proc,
) -> Result<(Sequence<Action>, u32, Sequence<(u32, u32)>), Memory>
    requires links { AreLinksOf object.now links.now }
    requires symbols { AreSymbolsOf object.now symbols.now }
    requires readable { IsReadable proc.now }
    ensures few { IfOk result (λ parts. length parts.0 < 2 ^ 32) }
    ensures parts { IfOk result (λ parts. AreParts object.now proc.now parts.0 parts.1 parts.2) }
{
    let sites = proc.sites.items();
    if u32::try_from(sites.len()).is_err() {
        return Err(AllocError);
    }
    let actions = actions(alloc, links, symbols, sites)?;
    let places = places_of(alloc, sites)?;
    let entry = number_at(&places, proc.entry);
    let edges = edges(alloc, &places, sites)?;
    Ok((actions, entry, edges))
}
