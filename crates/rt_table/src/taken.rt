// Words of the stack that procedures take as arguments.
ghost use Rattle.std.specs.Prelude.{◌≡◌, ◌<◌, ◌↔◌, ℕ, Contains, IfOk, OnOk};
ghost use Rattle.std.specs.List.Sorted.{IsStrictlyIncreasing};
ghost use Rattle.rt_body.specs.Readings.{action_at};
ghost use Rattle.rt_body.specs.Registers.{HasRegisters};
ghost use Rattle.rt_body.specs.Told.{reading_of, sites_in};
ghost use Rattle.rt_frame.specs.Told.{frame_of, frame_sites};
ghost use Rattle.rt_table.specs.Facts.{TakesWord};
ghost use Rattle.rt_table.specs.Inside.Taken.{Gains, is_entry, is_passed_byte, is_passed_word, taken_at, taken_by, takes_at};
ghost use Rattle.rt_table.specs.Inside.Words.{AreStackWords};

use crate::variables::is_stack_word;
use rt_base::{Memory, Sequence};
use rt_body::{Action, Body, Loaded};
use rt_flow::Def;
use rt_frame::questions::address_value;
use rt_frame::{Frame, Spot};
use rt_track::Value;
use std::alloc::Global;
use std::collections::BTreeSet;

// The first byte of the frame among locations: those of bytes at positive offsets follow it.
const FRAME: i64 = 4_294_967_296;

// Whether a definition is that of the entry.
fn is_entry(def: Def) -> bool
    ensures { result ≡ is_entry def }
{
    matches!(def, Def::Entry)
}

// Whether a byte of a word at an offset of the frame may be as the caller left it, where a site reads it.
fn is_passed_byte(frame: &Frame, site: u32, offset: i32, byte: u8) -> bool
    requires site { site < frame_sites frame.now }
    requires byte { byte < 4 }
    ensures { result ≡ is_passed_byte (frame_of frame.now) site offset byte }
{
    frame
        .reaching(site, FRAME + (i64::from(offset) + i64::from(byte)))
        .iter()
        .any(|def| is_entry(*def))
}

// Whether one of the bytes of the word may be.
fn is_passed_word(frame: &Frame, site: u32, offset: i32) -> bool
    requires { site < frame_sites frame.now }
    ensures { result ≡ is_passed_word (frame_of frame.now) site offset }
{
    is_passed_byte(frame, site, offset, 0)
        || is_passed_byte(frame, site, offset, 1)
        || is_passed_byte(frame, site, offset, 2)
        || is_passed_byte(frame, site, offset, 3)
}

// Whether a load by a site of the word at an offset of the frame reads an argument.
fn takes_at(frame: &Frame, site: u32, offset: i32) -> bool
    requires { site < frame_sites frame.now }
    ensures { result ≡ takes_at (frame_of frame.now) site offset }
{
    is_stack_word(offset)
        && matches!(frame.spot(offset), Spot::Location(_))
        && is_passed_word(frame, site, offset)
}

// The offset of the argument that a load by a site of the word at an address reads, if it reads one.
fn taken_at(frame: &Frame, site: u32, address: Value) -> Option<u32>
    requires { site < frame_sites frame.now }
    ensures { result ≡ taken_at (frame_of frame.now) site address }
{
    match address {
        Value::Frame(offset) if takes_at(frame, site, offset) => Some(offset.cast_unsigned()),
        _ => None,
    }
}

// The offset of the argument that a site loads, if it loads one.
fn taken_by(body: &Body, frame: &Frame, site: u32, action: Action) -> Option<u32>
    requires of_one { frame_sites frame.now ≡ sites_in body.now }
    requires site { site < sites_in body.now }
    requires registers { HasRegisters action }
    ensures { result ≡ taken_by (reading_of body.now) (frame_of frame.now) site action }
{
    match action {
        Action::Load {
            loaded: Loaded::Word,
            address,
            ..
        } => taken_at(frame, site, address_value(body, site, address)),
        _ => None,
    }
}

// Adds the offset of the argument that a site loads, if it loads one.
fn take_site(taken: &mut BTreeSet<u32>, body: &Body, frame: &Frame, site: u32) -> Result<(), Memory>
    requires of_one { frame_sites frame.now ≡ sites_in body.now }
    requires site { site < sites_in body.now }
    ensures { OnOk result (Gains taken.old.keys taken.new.keys
        (taken_by (reading_of body.now) (frame_of frame.now) site (action_at (reading_of body.now).actions site))) }
{
    match taken_by(body, frame, site, body.actions()[site as usize]) {
        Some(offset) => {
            taken.insert(offset)?;
            Ok(())
        }
        None => Ok(()),
    }
}

/// The offsets of the words of the stack that a procedure takes as arguments, ascending. The error is out of memory.
pub(crate) fn words_taken(
    alloc: Global,
    body: &Body,
    frame: &Frame,
) -> Result<Sequence<u32>, Memory>
    requires { frame_sites frame.now ≡ sites_in body.now }
    ensures ascending { IfOk result IsStrictlyIncreasing }
    ensures words { IfOk result (λ words. (k : ℕ) → Contains words k ↔ TakesWord (reading_of body.now) (frame_of frame.now) k) }
    ensures stack { IfOk result AreStackWords }
{
    let mut taken = BTreeSet::new(alloc);
    for site in 0..body.actions().len() as u32 {
        take_site(&mut taken, body, frame, site)?;
    }
    let words = taken.iter().copied().collect(alloc)?;
    Ok(Sequence::from_vec(words))
}
