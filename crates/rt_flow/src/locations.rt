// Which sites define each location.
ghost use Rattle.std.specs.Prelude.{◌≡◌, ℕ, ℤ, ◌<◌, ◌⊎◌, ◌↔◌, [], All, Contains, IfOk, OnOk, length};
ghost use Rattle.std.specs.List.Sorted.{IsStrictlyIncreasing};
ghost use Rattle.rt_flow.specs.Bodies.{Defines};
ghost use Rattle.rt_flow.specs.Locations.{AreClasses, class_at, sites_at};

use crate::graph::Graph;
use crate::lists::Lists;
use rt_base::{Memory, Sequence};
use std::alloc::Global;
use std::collections::HashMap;

/// Locations in classes: those of one class are defined at the same sites.
#[derive(Drop)]
pub(crate) struct Locations {
    known: HashMap<i64, u32>,
    none: u32,
}

impl Locations {
    /// The class of a location.
    pub(crate) fn class(&self, loc: i64) -> u32
        ensures { result ≡ class_at self.now.known.entries self.now.none loc }
    {
        match self.known.get(&loc) {
            Some(class) => *class,
            None => self.none,
        }
    }
}

// Notes that a site defines a location.
fn note(
    alloc: Global,
    groups: &mut HashMap<i64, Sequence<u32>>,
    site: u32,
    loc: i64,
) -> Result<(), Memory>
    ensures { OnOk result ((l : ℤ) (k : ℕ) → Contains (sites_at groups.new.entries l) k ↔
        (Contains (sites_at groups.old.entries l) k ⊎ ((k ≡ site) × (l ≡ loc)))) }
{
    match groups.get_mut(&loc) {
        Some(sites) => sites.push(site)?,
        None => {
            let mut sites = Sequence::new(alloc);
            sites.push(site)?;
            groups.insert(loc, sites)?;
        }
    }
    Ok(())
}

// The sites that define each location.
fn grouped(alloc: Global, graph: &Graph) -> Result<HashMap<i64, Sequence<u32>>, Memory>
    ensures { IfOk result (λ groups. (l : ℤ) (k : ℕ) → Contains (sites_at groups.entries l) k ↔ Defines graph.now k l) }
{
    let mut groups = HashMap::new(alloc);
    for (site, loc) in graph.defs() {
        note(alloc, &mut groups, *site, *loc)?;
    }
    Ok(groups)
}

// Sites in order, each once.
fn ascending(mut sites: Vec<u32>) -> Vec<u32>
    ensures ascending { IsStrictlyIncreasing result.items }
    ensures same { (k : ℕ) → Contains result.items k ↔ Contains sites.items k }
{
    sites.sort_unstable();
    sites.dedup();
    sites
}

/// The classes of locations, and the sites of each class. The error is out of memory.
pub(crate) fn classes(alloc: Global, graph: &Graph) -> Result<(Locations, Lists<u32>), Memory>
    ensures classes { IfOk result (λ r. AreClasses graph.now r.0.known.entries r.0.none r.1) }
    ensures ascending { IfOk result (λ r. All IsStrictlyIncreasing r.1) }
{
    let groups = grouped(alloc, graph)?;
    let mut classes = Lists::new(alloc);
    let none = classes.number(Vec::new(alloc))?;
    let mut known: HashMap<i64, u32> = HashMap::new(alloc);
    for (_site, loc) in graph.defs() {
        if known.contains_key(loc) {
            continue;
        }
        let Some(sites) = groups.get(loc) else {
            continue;
        };
        let sites = sites.items().to_vec(alloc)?;
        let class = classes.number(ascending(sites))?;
        known.insert(*loc, class)?;
    }
    Ok((Locations { known, none }, classes))
}
