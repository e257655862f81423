// Which sites store to the bytes of a frame.
ghost use Rattle.std.specs.Prelude.{◌≡◌, ◌<◌, ◌++◌, map, IfOk, OnOk};
ghost use Rattle.rt_body.specs.Registers.{HasRegisters};
ghost use Rattle.rt_body.specs.Told.{reading_of, sites_in};
ghost use Rattle.rt_frame.specs.Frames.{AreAscending, bytes_defined, bytes_from, frame_body, stored_at_spot, stored_by, width_bytes};

use crate::questions::address_value;
use crate::spot::{Spot, spot_in};
use rt_base::Memory;
use rt_body::{Action, Body, Width};
use rt_flow::Graph;
use rt_track::Value;
use std::alloc::Global;

// The location of the byte at offset 0.
const BYTES: i64 = 4_294_967_296;

// How many bytes a store writes.
fn width_bytes(width: Width) -> u32
    ensures { result ≡ width_bytes width }
{
    match width {
        Width::Word => 4,
        Width::Half => 2,
        Width::Byte => 1,
    }
}

// Lets a site define so many bytes from an offset on. Locations don't wrap.
fn define_bytes(graph: &mut Graph, site: u32, offset: i32, count: u32) -> Result<(), Memory>
    requires { site < graph.old.sites }
    ensures { OnOk result (graph.new ≡
        record graph.old { defs = graph.old.defs ++ map (λ byte. (site, byte)) (bytes_from offset count) }) }
{
    for i in 0..count {
        graph.add_def(site, BYTES + i64::from(offset) + i64::from(i))?;
    }
    Ok(())
}

// Lets a site define the bytes that its store writes, where it goes to the frame itself.
fn define_stored(
    graph: &mut Graph,
    taken: &[i32],
    saved: &[i32],
    site: u32,
    width: Width,
    address: Value,
) -> Result<(), Memory>
    requires site { site < graph.old.sites }
    requires taken { AreAscending taken.now }
    requires saved { AreAscending saved.now }
    ensures { OnOk result (graph.new ≡ record graph.old {
      defs = graph.old.defs ++ map (λ byte. (site, byte))
          (stored_by (record { taken = taken.now; saved = saved.now }) width address);
    }) }
{
    let Value::Frame(offset) = address else {
        return Ok(());
    };
    match spot_in(taken, saved, offset) {
        Spot::Location(offset) => define_bytes(graph, site, offset, width_bytes(width)),
        Spot::OnObject { .. } => Ok(()),
    }
}

// Lets a site define the bytes of the frame that its action writes.
fn define_action(
    graph: &mut Graph,
    taken: &[i32],
    saved: &[i32],
    body: &Body,
    site: u32,
    action: Action,
) -> Result<(), Memory>
    requires site { site < graph.old.sites }
    requires within { site < sites_in body.now }
    requires registers { HasRegisters action }
    requires taken { AreAscending taken.now }
    requires saved { AreAscending saved.now }
    ensures { OnOk result (graph.new ≡ record graph.old {
      defs = graph.old.defs ++ map (λ byte. (site, byte))
          (bytes_defined (reading_of body.now) (record { taken = taken.now; saved = saved.now }) site action);
    }) }
{
    match action {
        Action::Store { width, address, .. } => {
            let address = address_value(body, site, address);
            define_stored(graph, taken, saved, site, width, address)
        }
        _ => Ok(()),
    }
}

/// The sites and edges of a body, with the bytes of the frame that its sites define, by the offsets at which objects begin and
/// those of saved registers. The error is out of memory.
pub(crate) fn stored(
    alloc: Global,
    body: &Body,
    taken: &[i32],
    saved: &[i32],
) -> Result<Graph, Memory>
    requires taken { AreAscending taken.now }
    requires saved { AreAscending saved.now }
    ensures { IfOk result (λ graph. graph ≡ frame_body (reading_of body.now) (record { taken = taken.now; saved = saved.now })) }
{
    let mut graph = body.graph(alloc)?;
    for site in 0..body.actions().len() as u32 {
        let action = body.actions()[site as usize];
        define_action(&mut graph, taken, saved, body, site, action)?;
    }
    Ok(graph)
}
