//! Questions about the registers of a body: what the lines of its sites speak of.
ghost use Rattle.std.specs.Prelude.{◌≡◌, ◌<◌, All, IfOk};
ghost use Rattle.std.specs.List.{list_any};
ghost use Rattle.rt_body.specs.Registers.{HasAddressRegister};
ghost use Rattle.rt_body.specs.Told.{reading_of, sites_in, IsDefWithin};
ghost use Rattle.rt_frame.specs.Questions.{addition, address_value, calls_at, def_value, first_gives};
ghost use Rattle.rt_frame.specs.Questions.{is_call_action, is_const, is_at, is_index, is_kept, is_multi};
ghost use Rattle.rt_frame.specs.Questions.{is_real, is_result, is_scaled_by, reaches_itself, results, scales};

use crate::addition::Addition;
use rt_base::{Memory, Sequence};
use rt_body::{Action, Address, Body, Operation};
use rt_flow::Def;
use rt_insn::registers::STACK_POINTER;
use rt_liveness::Call;
use rt_track::Value;
use std::alloc::Global;

/// The value of a definition of a register.
pub fn def_value(body: &Body, register: u8, def: Def) -> Value
    requires register { register < 32 }
    requires def { IsDefWithin (sites_in body.now) def }
    ensures { result ≡ def_value (reading_of body.now) register def }
{
    match def {
        Def::Entry if register == STACK_POINTER => Value::Frame(0),
        Def::Entry => Value::Entry(register, 0),
        Def::At(site) => body.value_of(site, register),
    }
}

/// The value of the address of a load or a store at a site.
pub fn address_value(body: &Body, site: u32, address: Address) -> Value
    requires site { site < sites_in body.now }
    requires register { HasAddressRegister address }
    ensures { result ≡ address_value (reading_of body.now) site address }
{
    match address {
        Address::Symbol(symbol, addend) => Value::Sym(symbol, addend),
        Address::Register(register, immediate) => body.value_at(site, register).plus(immediate),
    }
}

/// Whether several values may be there.
pub fn is_multi(value: Value) -> bool
    ensures { result ≡ is_multi value }
{
    matches!(value, Value::Multi)
}

// Whether it is a constant.
fn is_const(value: Value) -> bool
    ensures { result ≡ is_const value }
{
    matches!(value, Value::Const(_))
}

// Whether a definition is that of a site.
fn is_at(site: u32, def: Def) -> bool
    ensures { result ≡ is_at site def }
{
    match def {
        Def::Entry => false,
        Def::At(other) => other == site,
    }
}

// Whether the site's own definition of a register reaches its use there.
fn reaches_itself(body: &Body, site: u32, register: u8) -> bool
    requires { site < sites_in body.now }
    ensures { result ≡ reaches_itself (reading_of body.now) site register }
{
    body.reaching(site, register)
        .iter()
        .any(|def| is_at(site, *def))
}

/// Whether an addition of an immediate says what it adds to: it copies one of several values, or it steps through them in a
/// loop.
pub fn is_kept(body: &Body, site: u32, to: u8, from: u8, immediate: i32) -> bool
    requires site { site < sites_in body.now }
    requires to { to < 32 }
    ensures { result ≡ is_kept (reading_of body.now) site to from immediate }
{
    to != 0
        && is_multi(body.value_of(site, to))
        && (immediate == 0 || (to == from && reaches_itself(body, site, from)))
}

// Whether a site scales.
fn scales(action: Action) -> bool
    ensures { result ≡ scales action }
{
    match action {
        Action::Compute { operation, .. } => operation == Operation::Scale,
        _ => false,
    }
}

// Whether a definition is made by a site that scales: an index of an array.
fn is_scaled_by(body: &Body, def: Def) -> bool
    requires { IsDefWithin (sites_in body.now) def }
    ensures { result ≡ is_scaled_by (reading_of body.now) def }
{
    match def {
        Def::Entry => false,
        Def::At(site) => scales(body.actions()[site as usize]),
    }
}

/// Whether all definitions of a register that reach a site are made by scaling: SLL, SLLI or MUL.
pub fn is_index(body: &Body, site: u32, register: u8) -> bool
    requires { site < sites_in body.now }
    ensures { result ≡ is_index (reading_of body.now) site register }
{
    for def in body.reaching(site, register) {
        if !is_scaled_by(body, *def) {
            return false;
        }
    }
    true
}

/// What an addition of two registers adds.
pub fn addition(body: &Body, site: u32, left: u8, right: u8) -> Addition
    requires site { site < sites_in body.now }
    requires left { left < 32 }
    requires right { right < 32 }
    ensures { result ≡ addition (reading_of body.now) site left right }
{
    if is_const(body.value_at(site, left)) || is_const(body.value_at(site, right)) {
        return Addition::Untold;
    }
    match (is_index(body, site, left), is_index(body, site, right)) {
        (true, true) => Addition::Indices,
        (true, false) => Addition::IndexLeft,
        (false, true) => Addition::IndexRight,
        (false, false) => Addition::Untold,
    }
}

/// The calls of a site: those that it makes, and then those in which it goes on for good; none where nothing is stated of it.
pub fn calls_at(calls: &[Sequence<Call>], site: u32) -> &[Call]
    ensures { result.now ≡ calls_at calls.now site }
{
    match calls.get(site as usize) {
        Some(here) => here.items(),
        None => &[],
    }
}

// Whether an action is a call.
fn is_call_action(action: Action) -> bool
    ensures { result ≡ is_call_action action }
{
    matches!(action, Action::Call { .. })
}

// Whether the callee of the first of some calls gives the result in a register.
fn first_gives(calls: &[Call], register: u8) -> bool
    ensures { result ≡ first_gives calls.now register }
{
    match calls.first() {
        Some(call) => 10 <= register && call.gives_result(register - 10),
        None => false,
    }
}

// Whether a definition of a result's register is real: an instruction wrote it that is no call, or a call whose callee gives the
// result.
fn is_real(body: &Body, calls: &[Sequence<Call>], register: u8, def: Def) -> bool
    requires { IsDefWithin (sites_in body.now) def }
    ensures { result ≡ is_real (reading_of body.now) calls.now register def }
{
    match def {
        Def::Entry => false,
        Def::At(site) => {
            !is_call_action(body.actions()[site as usize])
                || first_gives(calls_at(calls, site), register)
        }
    }
}

// Whether one of definitions is real.
fn has_real(body: &Body, calls: &[Sequence<Call>], register: u8, defs: &[Def]) -> bool
    requires { All (IsDefWithin (sites_in body.now)) defs.now }
    ensures { result ≡ list_any (is_real (reading_of body.now) calls.now register) defs.now }
{
    for def in defs {
        if is_real(body, calls, register, *def) {
            return true;
        }
    }
    false
}

// Whether a return says something of a definition: it is that of the entry, or a real one.
fn is_result(body: &Body, calls: &[Sequence<Call>], register: u8, def: Def) -> bool
    requires { IsDefWithin (sites_in body.now) def }
    ensures { result ≡ is_result (reading_of body.now) calls.now register def }
{
    def == Def::Entry || is_real(body, calls, register, def)
}

/// The definitions of a result of which a return says something, Entry first and then sites ascending; none if no real one reaches it: none that
/// an instruction wrote that is no call, or a call whose callee gives the result. The error is out of memory.
pub fn results(
    alloc: Global,
    body: &Body,
    calls: &[Sequence<Call>],
    site: u32,
    register: u8,
) -> Result<Vec<Def>, Memory>
    requires { site < sites_in body.now }
    ensures value { IfOk result (λ defs. defs.items ≡ results (reading_of body.now) calls.now site register) }
    ensures within { IfOk result (λ defs. All (IsDefWithin (sites_in body.now)) defs.items) }
{
    let mut results = Vec::new(alloc);
    let defs = body.reaching(site, register);
    if !has_real(body, calls, register, defs) {
        return Ok(results);
    }
    for def in defs {
        if is_result(body, calls, register, *def) {
            results.push(*def)?;
        }
    }
    Ok(results)
}
