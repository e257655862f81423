// The numbers of sites, and the edges between them.
ghost use Rattle.std.specs.Prelude.{◌≡◌, ◌<◌, ◌^◌, ◌++◌, [], IfOk, OnOk, length, map};
ghost use Rattle.rt_proc.specs.Order.{AreAscending};
ghost use Rattle.rt_proc.specs.Procs.{places_of};
ghost use Rattle.rt_body.specs.Readings.{edges_from, number_at};

use rt_base::{Memory, Sequence};
use rt_proc::{Place, Site};
use std::alloc::Global;

/// The places of sites, in their order. The error is out of memory.
pub(crate) fn places_of(alloc: Global, sites: &[Site]) -> Result<Vec<Place>, Memory>
    ensures { IfOk result (λ places. places.items ≡ places_of sites.now) }
{
    let mut places = Vec::with_capacity(alloc, sites.len())?;
    for site in sites {
        places.push(site.place)?;
    }
    Ok(places)
}

/// The number of a place among ascending ones, and how many there are where it is none of them.
pub(crate) fn number_at(places: &[Place], place: Place) -> u32
    requires ascending { AreAscending places.now }
    requires few { length places.now < 2 ^ 32 }
    ensures { result ≡ number_at places.now place }
{
    match places.binary_search(&place) {
        Ok(number) => number as u32,
        Err(_) => places.len() as u32,
    }
}

// Adds the edges from a site to some places.
fn add_edges(
    edges: &mut Sequence<(u32, u32)>,
    places: &[Place],
    from: u32,
    next: &[Place],
) -> Result<(), Memory>
    requires ascending { AreAscending places.now }
    requires few { length places.now < 2 ^ 32 }
    ensures { OnOk result (edges.new ≡ edges.old ++ map (λ to. (from, number_at places.now to)) next.now) }
{
    for to in next {
        edges.push((from, number_at(places, *to)))?;
    }
    Ok(())
}

/// The edges from sites to those that they step to. The error is out of memory.
pub(crate) fn edges(
    alloc: Global,
    places: &[Place],
    sites: &[Site],
) -> Result<Sequence<(u32, u32)>, Memory>
    requires ascending { AreAscending places.now }
    requires few { length places.now < 2 ^ 32 }
    requires each { length places.now ≡ length sites.now }
    ensures { IfOk result (λ edges. edges ≡ edges_from places.now 0 sites.now) }
{
    let mut edges = Sequence::new(alloc);
    for (number, site) in sites.iter().enumerate() {
        add_edges(&mut edges, places, number as u32, site.next.items())?;
    }
    Ok(edges)
}
