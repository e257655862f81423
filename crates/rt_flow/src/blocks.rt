// Blocks of sites that follow each other.
ghost use Rattle.std.specs.Prelude.{◌≡◌, ℕ, ◌+◌, ◌⊎◌, ◌^◌, ◌<◌, false, IsTrue, IfOk, length, slice_index, slice_index_or};
ghost use Rattle.rt_flow.specs.Bodies.{Steps};
ghost use Rattle.rt_flow.specs.Blocks.{AreBlocks, IsJoined};

use crate::graph::Graph;
use rt_base::Memory;
use std::alloc::Global;

/// Blocks of sites: a site is in the block of the one before where each comes only with the other. A definition that
/// reaches the first site of a block reaches the others too, up to the first that defines its location.
#[derive(Drop)]
pub(crate) struct Blocks {
    // The block of each site.
    block: Vec<u32>,
    // The first site of each block, and behind them the number of sites.
    firsts: Vec<u32>,
    ghost within: { (s : ℕ) → s < length block.items → slice_index block.items s + 1 < length firsts.items },
    ghost some: { 0 < length firsts.items },
}

impl Blocks {
    /// The blocks of a graph. The error is out of memory.
    pub(crate) fn of(alloc: Global, graph: &Graph) -> Result<Blocks, Memory>
        ensures { IfOk result (λ blocks. AreBlocks graph.now blocks.block.items blocks.firsts.items) }
    {
        let joined = joined(alloc, graph)?;
        divided(alloc, graph, &joined)
    }

    /// How many blocks there are.
    pub(crate) fn count(&self) -> usize
        ensures { result + 1 ≡ length self.now.firsts.items }
    {
        self.firsts.len() - 1
    }

    /// The block of a site.
    pub(crate) fn block(&self, site: u32) -> u32
        requires { site < length self.now.block.items }
        ensures value { result ≡ slice_index self.now.block.items site }
        ensures within { result + 1 < length self.now.firsts.items }
    {
        self.block[site as usize]
    }

    /// The first site of a block.
    pub(crate) fn first(&self, block: u32) -> u32
        requires { block < length self.now.firsts.items }
        ensures { result ≡ slice_index self.now.firsts.items block }
    {
        self.firsts[block as usize]
    }

    /// The first site of each block, and behind them the number of sites.
    pub(crate) fn firsts(&self) -> &[u32]
        ensures { result.now ≡ self.now.firsts.items }
    {
        self.firsts.as_slice()
    }
}

// Sites to which an edge leads from the site before.
fn linked(alloc: Global, graph: &Graph) -> Result<Vec<bool>, Memory>
    ensures each { IfOk result (λ joined. length joined.items ≡ graph.now.sites) }
    ensures after { IfOk result (λ joined. (t : ℕ) → IsTrue (slice_index_or joined.items t false) → (s : ℕ) × (s + 1 ≡ t) ×
        Steps graph.now s t) }
{
    let mut joined = vec![in alloc; false; graph.sites() as usize]?;
    for (from, to) in graph.edges() {
        if *to == *from + 1 {
            joined[*to as usize] = true;
        }
    }
    Ok(joined)
}

// Parts a site from the one before.
fn part(joined: &mut Vec<bool>, site: u32)
    ensures each { length joined.new.items ≡ length joined.old.items }
    ensures parted { (t : ℕ) → IsTrue (slice_index_or joined.new.items t false) → IsTrue (slice_index_or joined.old.items t false) ×
        (t ≡ site → ⊥) }
{
    let site = site as usize;
    if site < joined.len() {
        joined[site] = false;
    }
}

// Parts sites where another edge leads to the one or from the other.
fn part_others(joined: &mut Vec<bool>, graph: &Graph)
    ensures each { length joined.new.items ≡ length joined.old.items }
    ensures kept { (t : ℕ) → IsTrue (slice_index_or joined.new.items t false) → IsTrue (slice_index_or joined.old.items t false) }
    ensures only { (t a b : ℕ) → IsTrue (slice_index_or joined.new.items t false) → Steps graph.now a b →
        (a + 1 ≡ t) ⊎ (b ≡ t) →
        (a + 1 ≡ t) × (b ≡ t) }
{
    for (from, to) in graph.edges() {
        if *to != *from + 1 {
            part(joined, *to);
            part(joined, *from + 1);
        }
    }
}

// Sites that come only after the one before, and those before them only before them.
fn joined(alloc: Global, graph: &Graph) -> Result<Vec<bool>, Memory>
    ensures each { IfOk result (λ joined. length joined.items ≡ graph.now.sites) }
    ensures joined { IfOk result (λ joined. (t : ℕ) → IsTrue (slice_index_or joined.items t false) → IsJoined graph.now t) }
{
    let mut joined = linked(alloc, graph)?;
    part_others(&mut joined, graph);
    part(&mut joined, graph.entry());
    Ok(joined)
}

// Blocks that begin at each site that isn't joined to the one before.
fn divided(alloc: Global, graph: &Graph, joined: &[bool]) -> Result<Blocks, Memory>
    requires each { length joined.now ≡ graph.now.sites }
    requires joined { (t : ℕ) → IsTrue (slice_index_or joined.now t false) → IsJoined graph.now t }
    ensures { IfOk result (λ blocks. AreBlocks graph.now blocks.block.items blocks.firsts.items) }
{
    let mut block = Vec::with_capacity(alloc, joined.len())?;
    let mut firsts = Vec::new(alloc);
    let mut count = 0;
    for site in 0..graph.sites() {
        if count == 0 || !joined[site as usize] {
            firsts.push(site)?;
            count += 1;
        }
        block.push(count - 1)?;
    }
    firsts.push(graph.sites())?;
    Ok(Blocks { block, firsts })
}
