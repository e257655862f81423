// The places that the low bits of an address name.
ghost use Rattle.std.specs.Prelude.{◌≡◌, ◌<◌, IfOk, All, IfSome, length};
ghost use Rattle.std.specs.List.{list_any};
ghost use Rattle.std.specs.BTreeSet.{contains};
ghost use Rattle.rt_link.specs.Laws.{IsAboutSymbol};
ghost use Rattle.rt_link.specs.Links.{named_by, names, link_held, place_cmp};

use crate::heads::Heads;
use crate::link::Link;
use crate::place::{Place, moved, place_of, symbol_place};
use rt_elf::{Object, Reloc};
use std::alloc::{AllocError, Global};
use std::collections::BTreeSet;

// The place that a link names, if that is the low bits of its address.
fn named_by(object: &Object, link: Option<Link>) -> Option<Place>
    requires { IsAboutSymbol object.now link }
    ensures { result ≡ named_by object.now.symbols link }
{
    match link {
        Some(Link::Low { symbol, addend }) => Some(moved(symbol_place(object, symbol), addend)),
        _ => None,
    }
}

// All of them.
pub(crate) fn named_of(
    alloc: Global,
    object: &Object,
    relocs: &[Reloc],
    heads: &Heads,
) -> Result<BTreeSet<Place>, AllocError>
    requires { (place : Place) → IsAboutSymbol object.now (link_held heads.now place) }
    ensures { IfOk result (λ named. (place : Place) →
        contains place_cmp named place ≡ list_any (names object.now.symbols heads.now place) relocs.now) }
{
    let mut named = BTreeSet::new(alloc);
    for reloc in relocs {
        if let Some(place) = named_by(object, heads.link(place_of(reloc))) {
            named.insert(place)?;
        }
    }
    Ok(named)
}
