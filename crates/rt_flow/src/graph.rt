// Graphs of sites.
ghost use Rattle.std.specs.Prelude.{◌≡◌, [], ◌∷◌, ◌++◌, ◌<◌, IfOk, OnOk, OnErr};
ghost use Rattle.rt_flow.specs.Bodies.{IsBody};

use rt_base::Memory;
use std::alloc::Global;
use std::marker::Model;

/// A body as a graph of sites, which contracts see as that body: sites are numbered from 0, an edge leads from a site to one
/// that may come next, and sites define locations. The locations 1 to 31 are registers, and the byte of the frame at offset
/// k is the location 4,294,967,296 + k; no call here tells locations apart but by their numbers.
#[derive(Drop)]
pub struct Graph {
    sites: u32,
    entry: u32,
    edges: Vec<(u32, u32)>,
    defs: Vec<(u32, i64)>,
}

impl Model for Graph {
    ghost use Rattle.rt_flow.specs.Bodies.{Body, IsBody};

    ghost Value = { Body };

    ghost view = { λ g. record { sites = g.sites; entry = g.entry; edges = g.edges.items; defs = g.defs.items } };

    ghost invariant = { λ g. IsBody (record { sites = g.sites; entry = g.entry; edges = g.edges.items; defs = g.defs.items }) };
}

impl Graph {
    /// The graph of so many sites, without edges and definitions. The error is out of memory.
    pub fn new(alloc: Global, sites: u32, entry: u32) -> Result<Graph, Memory>
        requires { entry < sites }
        ensures { IfOk result (λ graph. graph ≡ record { sites = sites; entry = entry; edges = []; defs = [] }) }
    {
        let edges = Vec::with_capacity(alloc, sites as usize)?;
        Ok(Graph {
            sites,
            entry,
            edges,
            defs: Vec::new(alloc),
        })
    }

    /// Adds an edge. When out of memory, the graph is as it was.
    pub fn add_edge(&mut self, from: u32, to: u32) -> Result<(), Memory>
        requires from { from < self.old.sites }
        requires to { to < self.old.sites }
        ensures ok { OnOk result (self.new ≡ record self.old { edges = self.old.edges ++ (from, to) ∷ [] }) }
        ensures err { OnErr result (self.new ≡ self.old) }
    {
        self.edges.push((from, to))?;
        Ok(())
    }

    /// Lets a site define a location. When out of memory, the graph is as it was.
    pub fn add_def(&mut self, site: u32, loc: i64) -> Result<(), Memory>
        requires { site < self.old.sites }
        ensures ok { OnOk result (self.new ≡ record self.old { defs = self.old.defs ++ (site, loc) ∷ [] }) }
        ensures err { OnErr result (self.new ≡ self.old) }
    {
        self.defs.push((site, loc))?;
        Ok(())
    }

    // How many sites there are.
    pub(crate) fn sites(&self) -> u32
        ensures { result ≡ self.now.sites }
    {
        self.sites
    }

    // The entry site.
    pub(crate) fn entry(&self) -> u32
        ensures value { result ≡ self.now.entry }
        ensures good { IsBody self.now }
    {
        self.entry
    }

    // The edges.
    pub(crate) fn edges(&self) -> &[(u32, u32)]
        ensures value { result.now ≡ self.now.edges }
        ensures good { IsBody self.now }
    {
        self.edges.as_slice()
    }

    // The definitions, each a site and a location.
    pub(crate) fn defs(&self) -> &[(u32, i64)]
        ensures value { result.now ≡ self.now.defs }
        ensures good { IsBody self.now }
    {
        self.defs.as_slice()
    }
}
