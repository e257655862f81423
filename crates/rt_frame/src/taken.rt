// The offsets at which objects begin.
ghost use Rattle.std.specs.Prelude.{◌≡◌, ◌<◌, ◌↔◌, ℤ, All, Contains, IfOk, OnOk};
ghost use Rattle.rt_body.specs.Readings.{action_at};
ghost use Rattle.rt_body.specs.Told.{reading_of, sites_in, IsDefWithin};
ghost use Rattle.rt_liveness.specs.Calls.{HasCallRegister};
ghost use Rattle.rt_frame.specs.Frames.{IsOfFrame, IsTaken};
ghost use Rattle.rt_frame.specs.Inside.Gathering.{Among, Gains};
ghost use Rattle.rt_frame.specs.Questions.{def_value, questions, IsQuestionWithin};

use crate::asked::asked;
use crate::offsets::Offsets;
use crate::question::Question;
use crate::questions::def_value;
use rt_base::{Memory, Sequence};
use rt_body::Body;
use rt_flow::Def;
use rt_liveness::Call;
use rt_track::Value;
use std::alloc::Global;

// Adds the offset of a value that is the frame at one.
fn take_value(taken: &mut Offsets, value: Value) -> Result<(), Memory>
    ensures { OnOk result (Gains taken.old taken.new (λ k. value ≡ Value.Frame k)) }
{
    match value {
        Value::Frame(offset) => taken.insert(offset)?,
        _ => {}
    }
    Ok(())
}

// Adds the offsets of the definitions of a register that reach a site.
fn take_reaching(taken: &mut Offsets, body: &Body, site: u32, register: u8) -> Result<(), Memory>
    requires site { site < sites_in body.now }
    requires register { register < 32 }
    ensures { OnOk result (Gains taken.old taken.new
        (Among ((reading_of body.now).reaching site register) (λ def k. def_value (reading_of body.now) register def ≡ Value.Frame k))) }
{
    for def in body.reaching(site, register) {
        take_value(taken, def_value(body, register, *def))?;
    }
    Ok(())
}

// Adds the offsets that a question asks for.
fn take_question(taken: &mut Offsets, body: &Body, question: Question) -> Result<(), Memory>
    requires { IsQuestionWithin (sites_in body.now) question }
    ensures { OnOk result (Gains taken.old taken.new (λ k. IsOfFrame (reading_of body.now) k question)) }
{
    match question {
        Question::OfUse(site, register) => match body.value_at(site, register) {
            Value::Multi => take_reaching(taken, body, site, register)?,
            value => take_value(taken, value)?,
        },
        Question::OfDefinition(def, register) => {
            take_value(taken, def_value(body, register, def))?;
        }
    }
    Ok(())
}

// Adds the offsets that the questions of a site ask for.
fn take_site(
    taken: &mut Offsets,
    alloc: Global,
    body: &Body,
    calls: &[Sequence<Call>],
    site: u32,
) -> Result<(), Memory>
    requires site { site < sites_in body.now }
    requires registers { All (All HasCallRegister) calls.now }
    ensures { OnOk result (Gains taken.old taken.new
        (Among (questions (reading_of body.now) calls.now site (action_at (reading_of body.now).actions site))
        (λ question k. IsOfFrame (reading_of body.now) k question))) }
{
    let questions = asked(alloc, body, calls, site)?;
    for question in questions.items() {
        take_question(taken, body, *question)?;
    }
    Ok(())
}

/// The offsets of the frame at which objects begin. The error is out of memory.
pub(crate) fn taken(alloc: Global, body: &Body, calls: &[Sequence<Call>]) -> Result<Offsets, Memory>
    requires { All (All HasCallRegister) calls.now }
    ensures { IfOk result (λ taken. (k : ℤ) → Contains taken k ↔ IsTaken (reading_of body.now) calls.now k) }
{
    let mut taken = Offsets::new(alloc);
    for site in 0..body.actions().len() as u32 {
        take_site(&mut taken, alloc, body, calls, site)?;
    }
    Ok(taken)
}
