// The graph of the calls among procedures.
ghost use Rattle.std.specs.Prelude.{◌≡◌, ◌<◌, Contains, IfOk, OnOk, length};
ghost use Rattle.rt_proc.specs.declared.site.Callee.TheVariants as callees;
ghost use Rattle.rt_calls.specs.Calls.{AddsEdges, CallsAt, IsCallGraph, LeadTo, TailCallsAt};

use rt_base::Memory;
use rt_components::Graph;
use rt_proc::{Callee, Kind, Procs, Site};
use std::alloc::{AllocError, Global};

// Adds the edge to a callee, if it is one of the procedures.
fn add_callee(graph: &mut Graph, caller: u32, callee: Callee) -> Result<(), Memory>
    requires { caller < length graph.old }
    ensures { OnOk result (AddsEdges graph.old graph.new caller (λ q. callee ≡ callees.Proc q)) }
{
    if let Callee::Proc(number) = callee {
        if number < graph.count() {
            graph.add_edge(caller, number)?;
        }
    }
    Ok(())
}

// Adds the edges of tail calls.
fn add_tails(graph: &mut Graph, caller: u32, tails: &[Callee]) -> Result<(), Memory>
    requires { caller < length graph.old }
    ensures { OnOk result (AddsEdges graph.old graph.new caller (λ q. Contains tails.now (callees.Proc q))) }
{
    for callee in tails {
        add_callee(graph, caller, *callee)?;
    }
    Ok(())
}

// Adds the edge of a call.
fn add_call(graph: &mut Graph, caller: u32, site: &Site) -> Result<(), Memory>
    requires { caller < length graph.old }
    ensures { OnOk result (AddsEdges graph.old graph.new caller (CallsAt site.now)) }
{
    match site.kind {
        Kind::Call(callee, _) => add_callee(graph, caller, callee),
        _ => Ok(()),
    }
}

// Adds the edges of sites.
fn add_sites(graph: &mut Graph, caller: u32, sites: &[Site]) -> Result<(), Memory>
    requires { caller < length graph.old }
    ensures { OnOk result (AddsEdges graph.old graph.new caller (LeadTo sites.now)) }
{
    for site in sites {
        add_call(graph, caller, site)?;
        add_tails(graph, caller, site.tails.items())?;
    }
    Ok(())
}

/// The graph of the procedures in which an edge leads from each one to those that it calls or goes on in for good. The
/// error is out of memory, which also comes where 32 bits don't number the procedures.
pub(crate) fn call_graph(alloc: Global, procs: &Procs) -> Result<Graph, Memory>
    ensures { IfOk result (IsCallGraph procs.now) }
{
    let Ok(count) = u32::try_from(procs.len()) else {
        return Err(AllocError);
    };
    let mut graph = Graph::new(alloc, count)?;
    for caller in 0..count {
        let proc = &procs.items()[caller as usize];
        add_sites(&mut graph, caller, proc.sites.items())?;
    }
    Ok(graph)
}
