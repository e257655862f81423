// Which definitions reach each site.
ghost use Rattle.std.specs.Prelude.{◌≡◌, ℕ, ℤ, ◌+◌, ◌^◌, ◌<◌, All, IfOk, length, slice_index_or};
ghost use Rattle.std.specs.List.Sorted.{IsStrictlyIncreasing};
ghost use Rattle.rt_flow.specs.declared.def.Def.TheVariants.{At, Entry};
ghost use Rattle.rt_flow.specs.Locations.{class_at};

use crate::blocks::Blocks;
use crate::def::Def;
use crate::lasts::last_within;
use crate::lists::Lists;
use crate::locations::Locations;
use crate::source::Source;
use rt_base::{Memory, Sequence};
use std::alloc::Global;
use std::slice;

/// Which definitions of which location reach which site of a body. Sites of one block share what reaches the block, and
/// equal lists stand once.
#[derive(Drop)]
pub struct Reach {
    pub(crate) blocks: Blocks,
    // The class of each location.
    pub(crate) locations: Locations,
    // The sites of each class, ascending.
    pub(crate) classes: Lists<u32>,
    // For each class and each block the number of the list of definitions that reach the block.
    pub(crate) tables: Vec<Sequence<u32>>,
    // Lists of definitions, each in order.
    pub(crate) sets: Lists<Def>,
    // The definition at each site.
    pub(crate) own: Vec<Def>,
    ghost known: { (loc : ℤ) → class_at locations.known.entries locations.none loc < length classes },
    ghost ascending: { All IsStrictlyIncreasing classes },
    ghost each_class: { length tables.items ≡ length classes },
    ghost each_block: { All (λ table. length table + 1 ≡ length blocks.firsts.items) tables.items },
    ghost in_sets: { All (λ table. All (λ number. number < length sets) table) tables.items },
    ghost each_site: { length own.items ≡ length blocks.block.items },
    ghost few: { length own.items < 2 ^ 32 },
    ghost at_each: { (s : ℕ) → s < length own.items → slice_index_or own.items s Entry ≡ At s },
}

// The definition at each site.
pub(crate) fn own(alloc: Global, sites: u32) -> Result<Vec<Def>, Memory>
    ensures each { IfOk result (λ own. length own.items ≡ sites) }
    ensures own { IfOk result (λ own. (s : ℕ) → s < sites → slice_index_or own.items s Entry ≡ At s) }
{
    let mut own = Vec::with_capacity(alloc, sites as usize)?;
    for site in 0..sites {
        own.push(Def::At(site))?;
    }
    Ok(own)
}

impl Reach {
    ghost use Rattle.rt_flow.specs.Bodies.{Body, AreReaching};
    ghost use Rattle.rt_flow.specs.Reaching.{sites_of, IsReachOf};
    ghost use Rattle.rt_flow.specs.Sources.{defs_in, shared_count_of, shared_in, source_in, IsSourceIn};

    /// How many sites there are.
    pub fn sites(&self) -> u32
        ensures value { result ≡ sites_of self.now }
        ensures reaching { (body : Body) → IsReachOf body self.now → (site : ℕ) (loc : ℤ) → site < sites_of self.now →
            AreReaching body loc site (defs_in self.now site loc) }
    {
        self.own.len() as u32
    }

    /// Exactly the definitions of a location that reach a site: Entry first, then sites ascending. It takes no memory, and time
    /// logarithmic in how many sites define the location. A location is named by its number: 1 to 31 are registers, and
    /// 4,294,967,296 + k is the byte of the frame at offset k.
    pub fn defs(&self, site: u32, loc: i64) -> &[Def]
        requires { site < sites_of self.now }
        ensures value { result.now ≡ defs_in self.now site loc }
        ensures reaching { (body : Body) → IsReachOf body self.now → AreReaching body loc site result.now }
    {
        match self.source(site, loc) {
            Source::Own(def) => slice::from_ref(&self.own[def as usize]),
            Source::Shared(number) => self.shared(number),
        }
    }

    /// Where the list stands that `defs` lends. It takes no memory, and time logarithmic in how many sites define the location.
    pub fn source(&self, site: u32, loc: i64) -> Source
        requires { site < sites_of self.now }
        ensures value { result ≡ source_in self.now site loc }
        ensures within { IsSourceIn self.now result }
    {
        let block = self.blocks.block(site);
        let class = self.locations.class(loc) as usize;
        match last_within(self.classes.list(class), self.blocks.first(block), site) {
            Some(def) => Source::Own(def),
            None => Source::Shared(self.tables[class].items()[block as usize]),
        }
    }

    /// How many lists sites and locations share. They are numbered from 0.
    pub fn shared_count(&self) -> usize
        ensures { result ≡ shared_count_of self.now }
    {
        self.sets.len()
    }

    /// The shared list of a number, without memory.
    pub fn shared(&self, number: u32) -> &[Def]
        requires { number < shared_count_of self.now }
        ensures { result.now ≡ shared_in self.now number }
    {
        self.sets.list(number as usize)
    }
}
