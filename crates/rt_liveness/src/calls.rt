// What is known of the calls of an object's procedures.
ghost use Rattle.std.specs.Prelude.{◌≡◌, ◌↔◌, ◌<◌, ◌+◌, ◌^◌, ℕ, pos, false, IfOk, OnOk, IsTrue, All, Some, length, get_or, slice_get};
ghost use Rattle.rt_insn.specs.Table.{IsCode};
ghost use Rattle.rt_insn.specs.declared.insn.Insn.TheVariants.{Jalr};
ghost use Rattle.rt_control.specs.Laws.{IsGood};
ghost use Rattle.rt_proc.specs.declared.proc.Proc.{Proc as TheProc};
ghost use Rattle.rt_proc.specs.declared.site.Site.{Site as TheSite};
ghost use Rattle.rt_proc.specs.Procs.{AreProcs};
ghost use Rattle.rt_body.specs.declared.body.Body.{Body as TheBody};
ghost use Rattle.rt_body.specs.Told.{reading_of, sites_in};
ghost use Rattle.rt_liveness.specs.Programs.{IsProgram};
ghost use Rattle.rt_liveness.specs.Calls.{AreCallsOf, HasCallRegister, IsPlainJump};
ghost use Rattle.rt_liveness.specs.Inside.Closures.{is_met};
ghost use Rattle.rt_liveness.specs.Ends.{ends_of};
ghost use Rattle.rt_liveness.specs.Inside.Conditions.{when_taken};
ghost use Rattle.rt_liveness.specs.Inside.Found.{is_plain_insn, IsCallFound, AreCallsFoundAt, AreCallsFoundIn, AreCallsFound};
ghost use Rattle.rt_liveness.specs.Told.{program_of};

use crate::call::{Call, Calls};
use crate::closure::is_met;
use crate::gives::when_given;
use crate::interface::{Interface, interface_of};
use crate::procedure::Procedure;
use crate::takes::{callees_of, when_taken};
use rt_base::{Memory, Sequence};
use rt_body::Body;
use rt_elf::Object;
use rt_insn::registers::A0;
use rt_insn::{Insn, decode};
use rt_proc::{Callee, Place, Proc, Procs, Site, laws};
use rt_sigs::Sigs;
use std::alloc::{AllocError, Global};

// Whether an instruction is a jump to what a register holds, with nothing added to it.
fn is_plain_insn(insn: Insn) -> bool
    ensures { result ≡ is_plain_insn insn }
{
    match insn {
        Insn::Jalr(_, _, offset) => offset == 0,
        _ => false,
    }
}

// Whether a word is one.
fn is_plain(word: u32) -> bool
    ensures { IsTrue result ↔ ((link register : ℕ) × IsCode word (Jalr link register (pos 0))) }
{
    match decode(word) {
        Some(insn) => is_plain_insn(insn),
        None => false,
    }
}

// Whether the word at a good place is one.
fn is_plain_jump(object: &Object, place: Place) -> bool
    requires { IsGood object.now place }
    ensures { IsTrue result ↔ IsPlainJump object.now place }
{
    is_plain(object.word(place.section, place.offset).unwrap())
}

// Of the argument registers a0 to a7, whether a callee takes each where a site calls it.
fn takes_at(
    interface: &Interface,
    procedure: &Procedure<'_>,
    site: u32,
    callee: Callee,
) -> [bool; 8]
    requires { site < sites_in procedure.now.body.now }
    ensures each { length result ≡ 8 }
    ensures takes { (n : ℕ) → n < 8 → get_or result n false ≡
        is_met interface.now.taken.keys (when_taken interface.now.named.items procedure.now.sites.now
        ((reading_of procedure.now.body.now).reaching site (10 + n)) callee (10 + n)) }
{
    let mut takes = [false; 8];
    for n in 0..8 {
        let register = A0 + n as u8;
        let defs = procedure.body.reaching(site, register);
        let when = when_taken(&interface.named, procedure.sites, defs, callee, register);
        takes[n] = is_met(&interface.taken, when);
    }
    takes
}

// What is known of a call of a callee by a site, which is a plain jump or isn't.
fn call_at(
    interface: &Interface,
    procedure: &Procedure<'_>,
    site: u32,
    callee: Callee,
    is_plain: bool,
) -> Call
    requires { site < sites_in procedure.now.body.now }
    ensures { IsCallFound interface.now procedure.now.sites.now (reading_of procedure.now.body.now).reaching site is_plain callee result }
{
    Call {
        callee,
        takes: takes_at(interface, procedure, site, callee),
        gives: [
            is_met(&interface.given, when_given(&interface.named, callee, 0)),
            is_met(&interface.given, when_given(&interface.named, callee, 1)),
        ],
        is_plain,
    }
}

// What is known of the calls of a site, the one of a number.
fn calls_at(
    alloc: Global,
    interface: &Interface,
    procedure: &Procedure<'_>,
    number: u32,
    site: &Site,
    is_plain: bool,
) -> Result<Sequence<Call>, Memory>
    requires { number < sites_in procedure.now.body.now }
    ensures { IfOk result (AreCallsFoundAt interface.now procedure.now.sites.now
        (reading_of procedure.now.body.now).reaching number is_plain site.now) }
{
    let callees = callees_of(alloc, site)?;
    let mut calls = Sequence::new(alloc);
    for callee in callees.items() {
        calls.push(call_at(interface, procedure, number, *callee, is_plain))?;
    }
    Ok(calls)
}

// What is known of the calls of a procedure's sites.
fn calls_in(
    alloc: Global,
    object: &Object,
    interface: &Interface,
    procedure: &Procedure<'_>,
) -> Result<Calls, Memory>
    requires { (s : ℕ) (site : TheSite) → slice_get procedure.now.sites.now s ≡ Some site → IsGood object.now site.place }
    ensures { IfOk result (AreCallsFoundIn object.now interface.now procedure.now.sites.now (reading_of procedure.now.body.now).reaching) }
{
    let count = procedure.body.actions().len() as u32;
    let mut calls = Calls::new(alloc);
    for number in 0..count {
        let site = &procedure.sites[number as usize];
        let is_plain = is_plain_jump(object, site.place);
        calls.push(calls_at(alloc, interface, procedure, number, site, is_plain)?)?;
    }
    Ok(calls)
}

// What is known of the calls of procedures, of which there are so many.
fn all_calls(
    alloc: Global,
    object: &Object,
    interface: &Interface,
    procs: &[Proc],
    bodies: &[Body],
    count: u32,
) -> Result<Sequence<Calls>, Memory>
    requires good { (q s : ℕ) (proc : TheProc) (site : TheSite) → slice_get procs.now q ≡ Some proc
        → slice_get proc.sites s ≡ Some site → IsGood object.now site.place }
    requires procs { count ≡ length procs.now }
    requires bodies { count ≡ length bodies.now }
    requires each { (q : ℕ) (proc : TheProc) (body : TheBody) → q < count
        → length (get_or procs.now q proc).sites ≡ sites_in (get_or bodies.now q body) }
    ensures { IfOk result (AreCallsFound object.now interface.now procs.now bodies.now) }
{
    let mut calls = Sequence::new(alloc);
    for number in 0..count {
        let procedure = Procedure {
            number,
            sites: procs[number as usize].sites.items(),
            body: &bodies[number as usize],
        };
        calls.push(calls_in(alloc, object, interface, &procedure)?)?;
    }
    Ok(calls)
}

/// What is known of the calls of each of an object's procedures, of which the bodies are known, where these external
/// functions have signatures. The error is out of memory; 2^32 procedures or more are more than there is memory for.
///
/// Condition: the procedures were found with the list that [`ends`](crate::ends) gives for the object and these signatures.
///
/// Time and memory are linear in sites and calls, but for the definitions that reach returns and calls through registers.
pub fn calls_of(
    alloc: Global,
    object: &Object,
    procs: &Procs,
    bodies: &[Body],
    sigs: &Sigs,
) -> Result<Sequence<Calls>, Memory>
    requires procs { AreProcs object.now (ends_of object.now sigs.now) procs.now }
    requires program { IsProgram (program_of object.now procs.now bodies.now sigs.now) }
    ensures calls { IfOk result (AreCallsOf (program_of object.now procs.now bodies.now sigs.now)) }
    ensures few { OnOk result (length procs.now < 2 ^ 32) }
    ensures registers { IfOk result (All (All (All HasCallRegister))) }
{
    laws::places();
    laws::callees();
    // The relocations are of the object's code and about its symbols, so the callees of each site are its own.
    let _relocs = object.relocs();
    let procs = procs.items();
    let Ok(count) = u32::try_from(procs.len()) else {
        return Err(AllocError);
    };
    let interface = interface_of(alloc, object, procs, bodies, sigs, count)?;
    all_calls(alloc, object, &interface, procs, bodies, count)
}
