// The offsets of the words in which registers are saved.
ghost use Rattle.std.specs.Prelude.{◌≡◌, ◌<◌, ◌↔◌, ℤ, Contains, IfOk, OnOk};
ghost use Rattle.rt_body.specs.Readings.{action_at};
ghost use Rattle.rt_body.specs.Registers.{HasRegisters};
ghost use Rattle.rt_body.specs.Told.{reading_of, sites_in};
ghost use Rattle.rt_frame.specs.Frames.{IsSaved};
ghost use Rattle.rt_frame.specs.Inside.Gathering.{Gains, keeps, saved_by, saved_offset};

use crate::offsets::Offsets;
use crate::questions::address_value;
use rt_base::Memory;
use rt_body::{Action, Body, Width};
use rt_insn::registers::SAVED;
use rt_track::Value;
use std::alloc::Global;

// Whether a register is kept for the caller.
fn keeps(register: u8) -> bool
    ensures { result ≡ keeps register }
{
    SAVED.contains(&register)
}

// Where a word of one value that is stored at an address of another saves a register.
fn saved_offset(stored: Value, at: Value) -> Option<i32>
    ensures { result ≡ saved_offset stored at }
{
    let Value::Entry(register, offset) = stored else {
        return None;
    };
    match at {
        Value::Frame(k) if keeps(register) && offset == 0 => Some(k),
        _ => None,
    }
}

// Where a site saves a register.
fn saved_by(body: &Body, site: u32, action: Action) -> Option<i32>
    requires site { site < sites_in body.now }
    requires registers { HasRegisters action }
    ensures { result ≡ saved_by (reading_of body.now) site action }
{
    match action {
        Action::Store {
            width: Width::Word,
            data,
            address,
        } => saved_offset(
            body.value_at(site, data),
            address_value(body, site, address),
        ),
        _ => None,
    }
}

// Adds the offset of the word in which a site saves a register.
fn save_site(saved: &mut Offsets, body: &Body, site: u32) -> Result<(), Memory>
    requires { site < sites_in body.now }
    ensures { OnOk result (Gains saved.old saved.new
        (λ k. saved_by (reading_of body.now) site (action_at (reading_of body.now).actions site) ≡ Some k)) }
{
    match saved_by(body, site, body.actions()[site as usize]) {
        Some(offset) => saved.insert(offset)?,
        None => {}
    }
    Ok(())
}

/// The offsets of the words of the frame in which registers are saved. The error is out of memory.
pub(crate) fn saved(alloc: Global, body: &Body) -> Result<Offsets, Memory>
    ensures { IfOk result (λ saved. (k : ℤ) → Contains saved k ↔ IsSaved (reading_of body.now) k) }
{
    let mut saved = Offsets::new(alloc);
    for site in 0..body.actions().len() as u32 {
        save_site(&mut saved, body, site)?;
    }
    Ok(saved)
}
