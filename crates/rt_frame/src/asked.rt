// What the lines of a site speak of.
ghost use Rattle.std.specs.Prelude.{◌≡◌, ◌<◌, [], ◌∷◌, ◌++◌, if◌then◌else◌, ◌==◌, OnOk, IfOk, get_or, map, flat_map, All};
ghost use Rattle.rt_body.specs.Readings.{action_at};
ghost use Rattle.rt_body.specs.Registers.{HasAddressRegister, HasRegisters};
ghost use Rattle.rt_body.specs.Told.{reading_of, sites_in};
ghost use Rattle.rt_liveness.specs.Calls.{taken_registers, takes_register};
ghost use Rattle.rt_frame.specs.Questions.{action_questions, addition_questions, address_questions};
ghost use Rattle.rt_frame.specs.Questions.{call_questions, compute_questions, data_questions};
ghost use Rattle.rt_frame.specs.Questions.{questions, result_questions, target_questions, IsQuestionWithin};

use crate::addition::Addition;
use crate::question::Question;
use crate::questions::{addition, calls_at, is_kept, is_multi, results};
use rt_base::{Memory, Sequence};
use rt_body::{Action, Address, Body, Operation, Width};
use rt_insn::registers::{ARGUMENTS, ZERO};
use rt_liveness::Call;
use rt_proc::Callee;
use std::alloc::Global;

// What is asked for.
type Asked = Sequence<Question>;

// Asks for the use of a register.
fn ask(asked: &mut Asked, site: u32, register: u8) -> Result<(), Memory>
    ensures { OnOk result (asked.new ≡ asked.old ++ Question.OfUse site register ∷ []) }
{
    asked.push(Question::OfUse(site, register))
}

// Asks for what a sum is of. The operand beside an index is spoken of where the sum is written, the index always.
fn ask_addition(
    asked: &mut Asked,
    site: u32,
    to: u8,
    left: u8,
    right: u8,
    addition: Addition,
) -> Result<(), Memory>
    ensures { OnOk result (asked.new ≡ asked.old ++ addition_questions site to left right addition) }
{
    match addition {
        Addition::IndexLeft => ask_indexed(asked, site, to, right, left),
        Addition::IndexRight => ask_indexed(asked, site, to, left, right),
        Addition::Indices => {
            ask(asked, site, left)?;
            ask(asked, site, right)
        }
        Addition::Untold => Ok(()),
    }
}

// Asks for an index and for what it is added to, that where the sum is written.
fn ask_indexed(asked: &mut Asked, site: u32, to: u8, other: u8, index: u8) -> Result<(), Memory>
    ensures { OnOk result (asked.new ≡ asked.old ++
        ((if to == 0 then [] else Question.OfUse site other ∷ []) ++ Question.OfUse site index ∷ [])) }
{
    if to != ZERO {
        ask(asked, site, other)?;
    }
    ask(asked, site, index)
}

// Asks for an address that several values make.
fn ask_address(asked: &mut Asked, body: &Body, site: u32, address: Address) -> Result<(), Memory>
    requires site { site < sites_in body.now }
    requires register { HasAddressRegister address }
    ensures { OnOk result (asked.new ≡ asked.old ++ address_questions (reading_of body.now) site address) }
{
    if let Address::Register(register, _) = address {
        if is_multi(body.value_at(site, register)) {
            ask(asked, site, register)?;
        }
    }
    Ok(())
}

// Asks for the data of a store of a word.
fn ask_data(asked: &mut Asked, site: u32, stored: u8, width: Width) -> Result<(), Memory>
    ensures { OnOk result (asked.new ≡ asked.old ++ data_questions site stored width) }
{
    match width {
        Width::Word => ask(asked, site, stored),
        Width::Half | Width::Byte => Ok(()),
    }
}

// Asks for the operands of a computation, but for those of an unsigned comparison.
fn ask_operands(
    asked: &mut Asked,
    site: u32,
    operation: Operation,
    left: u8,
    right: Option<u8>,
) -> Result<(), Memory>
    ensures { OnOk result (asked.new ≡ asked.old ++ compute_questions site operation left right) }
{
    if operation == Operation::LessUnsigned {
        return Ok(());
    }
    ask(asked, site, left)?;
    match right {
        Some(right) => ask(asked, site, right),
        None => Ok(()),
    }
}

// Asks for the definitions of a result of which a return says something.
fn ask_results(
    asked: &mut Asked,
    alloc: Global,
    body: &Body,
    calls: &[Sequence<Call>],
    site: u32,
    register: u8,
) -> Result<(), Memory>
    requires { site < sites_in body.now }
    ensures { OnOk result (asked.new ≡ asked.old ++ result_questions (reading_of body.now) calls.now site register) }
{
    let defs = results(alloc, body, calls, site, register)?;
    for def in &defs {
        asked.push(Question::OfDefinition(*def, register))?;
    }
    Ok(())
}

// Asks for what the lines of a site's instruction speak of.
fn ask_action(
    asked: &mut Asked,
    alloc: Global,
    body: &Body,
    calls: &[Sequence<Call>],
    site: u32,
    action: Action,
) -> Result<(), Memory>
    requires site { site < sites_in body.now }
    requires registers { HasRegisters action }
    ensures { OnOk result (asked.new ≡ asked.old ++ action_questions (reading_of body.now) calls.now site action) }
{
    match action {
        Action::AddImmediate {
            to,
            from,
            immediate,
        } => {
            if is_kept(body, site, to, from, immediate) {
                ask(asked, site, from)?;
            }
            Ok(())
        }
        Action::Add { to, left, right } => {
            let addition = addition(body, site, left, right);
            ask_addition(asked, site, to, left, right, addition)
        }
        Action::Load { address, .. } => ask_address(asked, body, site, address),
        Action::Store {
            width,
            data,
            address,
        } => {
            ask_data(asked, site, data, width)?;
            ask_address(asked, body, site, address)
        }
        Action::Compute {
            operation,
            left,
            right,
            ..
        } => ask_operands(asked, site, operation, left, right),
        Action::Compare { left, right } => {
            ask(asked, site, left)?;
            ask(asked, site, right)
        }
        Action::Return => {
            ask_results(asked, alloc, body, calls, site, 10)?;
            ask_results(asked, alloc, body, calls, site, 11)
        }
        _ => Ok(()),
    }
}

// Asks for what is called, where a register holds it.
fn ask_target(asked: &mut Asked, site: u32, call: &Call) -> Result<(), Memory>
    ensures { OnOk result (asked.new ≡ asked.old ++ target_questions site call.now.is_plain call.now.callee) }
{
    match call.callee {
        Callee::Unknown(register) if call.is_plain => ask(asked, site, register),
        _ => Ok(()),
    }
}

// Asks for what is passed in an argument register, if the callee takes it.
fn ask_argument(asked: &mut Asked, site: u32, call: &Call, register: u8) -> Result<(), Memory>
    ensures { OnOk result (asked.new ≡ asked.old
        ++ (if takes_register call.now register then Question.OfUse site register ∷ [] else [])) }
{
    if call.takes_register(register) {
        ask(asked, site, register)?;
    }
    Ok(())
}

// Asks for what is passed in each argument register that the callee takes.
fn ask_arguments(asked: &mut Asked, site: u32, call: &Call) -> Result<(), Memory>
    ensures { OnOk result (asked.new ≡ asked.old ++ map (λ register. Question.OfUse site register) (taken_registers call.now)) }
{
    for register in &ARGUMENTS {
        ask_argument(asked, site, call, *register)?;
    }
    Ok(())
}

// Asks for what the lines of a call speak of.
fn ask_call(asked: &mut Asked, site: u32, call: &Call) -> Result<(), Memory>
    ensures { OnOk result (asked.new ≡ asked.old ++ call_questions site call.now) }
{
    ask_target(asked, site, call)?;
    ask_arguments(asked, site, call)
}

// Asks for what the lines of each of some calls speak of.
fn ask_calls(asked: &mut Asked, site: u32, calls: &[Call]) -> Result<(), Memory>
    ensures { OnOk result (asked.new ≡ asked.old ++ flat_map (call_questions site) calls.now) }
{
    for call in calls {
        ask_call(asked, site, call)?;
    }
    Ok(())
}

/// What the lines of a site speak of: those of its instruction, and those of its calls. The error is out of memory.
pub(crate) fn asked(
    alloc: Global,
    body: &Body,
    calls: &[Sequence<Call>],
    site: u32,
) -> Result<Sequence<Question>, Memory>
    requires { site < sites_in body.now }
    ensures { IfOk result
        (λ asked. asked ≡ questions (reading_of body.now) calls.now site (action_at (reading_of body.now).actions site)) }
{
    let mut asked = Sequence::new(alloc);
    let action = body.actions()[site as usize];
    ask_action(&mut asked, alloc, body, calls, site, action)?;
    ask_calls(&mut asked, site, calls_at(calls, site))?;
    Ok(asked)
}
