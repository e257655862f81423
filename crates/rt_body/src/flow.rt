// The graph of a body.
ghost use Rattle.std.specs.Prelude.{◌≡◌, ◌<◌, ◌^◌, ◌++◌, ℕ, [], All, IfOk, OnOk, length, map, pos};
ghost use Rattle.rt_flow.specs.Bodies.{AreReaching};
ghost use Rattle.rt_flow.specs.Reaching.{sites_of, IsReachOf};
ghost use Rattle.rt_flow.specs.Sources.{defs_in};
ghost use Rattle.rt_body.specs.Readings.{definitions_from, flow_body};

use crate::action::Action;
use rt_base::Memory;
use rt_flow::{Graph, Reach, reaching};
use std::alloc::Global;

/// The graph of so many sites with these edges, without definitions. The error is out of memory.
pub(crate) fn graph_of(
    alloc: Global,
    sites: u32,
    entry: u32,
    edges: &[(u32, u32)],
) -> Result<Graph, Memory>
    requires entry { entry < sites }
    requires edges { All (λ e. (e.0 < sites) × (e.1 < sites)) edges.now }
    ensures { IfOk result (λ graph. graph ≡ record { sites = sites; entry = entry; edges = edges.now; defs = [] }) }
{
    let mut graph = Graph::new(alloc, sites, entry)?;
    for (from, to) in edges {
        graph.add_edge(*from, *to)?;
    }
    Ok(graph)
}

// Lets a site define registers.
fn define_each(graph: &mut Graph, site: u32, registers: &[u8]) -> Result<(), Memory>
    requires { site < graph.old.sites }
    ensures { OnOk result (graph.new ≡
        record graph.old { defs = graph.old.defs ++ map (λ register. (site, pos register)) registers.now }) }
{
    for register in registers {
        graph.add_def(site, i64::from(*register))?;
    }
    Ok(())
}

// Lets sites define the registers that their actions define.
fn define(alloc: Global, graph: &mut Graph, actions: &[Action]) -> Result<(), Memory>
    requires each { length actions.now ≡ graph.old.sites }
    requires few { length actions.now < 2 ^ 32 }
    ensures { OnOk result (graph.new ≡ record graph.old { defs = graph.old.defs ++ definitions_from 0 actions.now }) }
{
    for (site, action) in actions.iter().enumerate() {
        define_each(graph, site as u32, action.defined(alloc)?.items())?;
    }
    Ok(())
}

/// Which definitions of registers reach sites with these actions and edges. The error is out of memory.
pub(crate) fn reach_of(
    alloc: Global,
    actions: &[Action],
    entry: u32,
    edges: &[(u32, u32)],
) -> Result<Reach, Memory>
    requires few { length actions.now < 2 ^ 32 }
    requires entry { entry < length actions.now }
    requires edges { All (λ e. (e.0 < length actions.now) × (e.1 < length actions.now)) edges.now }
    ensures of { IfOk result (IsReachOf (flow_body actions.now entry edges.now)) }
    ensures sites { IfOk result (λ reach. sites_of reach ≡ length actions.now) }
    ensures told { IfOk result (λ reach. (site register : ℕ) → site < length actions.now
        → AreReaching (flow_body actions.now entry edges.now) (pos register) site (defs_in reach site (pos register))) }
{
    let mut graph = graph_of(alloc, actions.len() as u32, entry, edges)?;
    define(alloc, &mut graph, actions)?;
    let reach = reaching(alloc, &graph)?;
    let _sites = reach.sites();
    Ok(reach)
}
