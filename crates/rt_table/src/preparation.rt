// How what is known of an object's procedures is made.
ghost use Rattle.std.specs.Prelude.{◌≡◌, None, [], All, IfOk, length};
ghost use Rattle.rt_link.specs.Checks.{link_fault};
ghost use Rattle.rt_link.specs.Links.{AreLinksOf};
ghost use Rattle.rt_proc.specs.Procs.{AreProcs};
ghost use Rattle.rt_body.specs.Readable.{IsReadable};
ghost use Rattle.rt_liveness.specs.Calls.{HasCallRegister};
ghost use Rattle.rt_liveness.specs.Ends.{ends_of};
ghost use Rattle.rt_table.specs.Facts.{IsFactsOf};
ghost use Rattle.rt_table.specs.Inside.Framing.{AreFramed, AreReadings, IsFramed};
ghost use Rattle.rt_table.specs.Inside.Registers.{HaveRegisters};

use crate::facts::{Facts, Framed};
use crate::taken::words_taken;
use rt_base::{Memory, Sequence};
use rt_body::{Body, Symbols};
use rt_elf::Object;
use rt_frame::Frame;
use rt_link::Links;
use rt_liveness::{Call, Calls, calls_of};
use rt_proc::Procs;
use rt_sigs::Sigs;
use std::alloc::Global;

// The bodies of an object's procedures.
fn bodies_of(
    alloc: Global,
    object: &Object,
    links: &Links,
    procs: &Procs,
) -> Result<Vec<Body>, Memory>
    requires linked { link_fault object.now ≡ None }
    requires links { AreLinksOf object.now links.now }
    requires readable { All IsReadable procs.now }
    ensures { IfOk result (λ bodies. AreReadings object.now procs.now bodies.items) }
{
    // The relocations are of the object's code and about its symbols, so the bodies can be read.
    let _relocs = object.relocs();
    let symbols = Symbols::of(alloc, object)?;
    let mut bodies = Vec::with_capacity(alloc, procs.len())?;
    for proc in procs.items() {
        bodies.push(Body::read(alloc, object, links, &symbols, proc)?)?;
    }
    Ok(bodies)
}

// The frame of a procedure with these calls at its sites.
fn framed(alloc: Global, body: &Body, calls: &[Sequence<Call>]) -> Result<Framed, Memory>
    requires { All (All HasCallRegister) calls.now }
    ensures { IfOk result (IsFramed body.now calls.now) }
{
    let frame = Frame::of(alloc, body, calls)?;
    let words = words_taken(alloc, body, &frame)?;
    Ok(Framed { frame, words })
}

// The frames of procedures.
fn frames_of(alloc: Global, bodies: &[Body], calls: &[Calls]) -> Result<Vec<Framed>, Memory>
    requires one_each { length calls.now ≡ length bodies.now }
    requires registers { HaveRegisters calls.now }
    ensures { IfOk result (λ frames. AreFramed bodies.now calls.now frames.items) }
{
    let mut frames = Vec::with_capacity(alloc, bodies.len())?;
    for place in 0..bodies.len() {
        frames.push(framed(alloc, &bodies[place], calls[place].items())?)?;
    }
    Ok(frames)
}

/// What is known of the procedures of an object, where these functions outside have signatures. The error is out of memory.
///
/// Condition: the object's relocations were found good, the links are the object's, and the procedures were found with the list
/// that [`ends`](crate::ends) gives for the object and these signatures.
pub fn prepare<'a>(
    alloc: Global,
    object: &'a Object,
    links: &Links,
    procs: &'a Procs,
    sigs: &'a Sigs,
) -> Result<Facts<'a>, Memory>
    requires linked { link_fault object.now ≡ None }
    requires links { AreLinksOf object.now links.now }
    requires procs { AreProcs object.now (ends_of object.now sigs.now) procs.now }
    ensures { IfOk result (IsFactsOf object.now procs.now sigs.now) }
{
    rt_body::laws::procs();
    // The relocations are about the object's symbols.
    let _relocs = object.relocs();
    let bodies = bodies_of(alloc, object, links, procs)?;
    let calls = calls_of(alloc, object, procs, &bodies, sigs)?;
    let frames = frames_of(alloc, &bodies, calls.items())?;
    Ok(Facts {
        object,
        procs,
        sigs,
        bodies,
        calls,
        frames,
    })
}
