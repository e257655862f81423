// What sites do.
ghost use Rattle.std.specs.Prelude.{◌≡◌, IsTrue, Option, Some, None, Result, Ok, Err, IfOk, IfErr};
ghost use Rattle.rt_link.specs.Checks.{link_fault};
ghost use Rattle.rt_link.specs.Effects.{link_at};
ghost use Rattle.rt_link.specs.Links.{AreLinksOf};
ghost use Rattle.rt_link.specs.declared.link.Link.TheVariants.{Pair};
ghost use Rattle.rt_control.specs.Control.{called_at, call_form, pair_form, way_to, jal_form, table_form};
ghost use Rattle.rt_control.specs.Control.{jalr_form, step_form, branch_form, branch_distance, going_form, insn_form};
ghost use Rattle.rt_control.specs.Laws.{IsGoodForm, IsKnownForm};
ghost use Rattle.rt_control.specs.Places.{is_good, HasRoom, after, symbol_target, word_of};
ghost use Rattle.rt_control.specs.Sites.{register_of, form_of, IsAt, IsFormFault, IsAnswer};
ghost use Rattle.rt_link.specs.Laws.{IsAboutSymbol};
ghost use Rattle.rt_control.specs.declared.fault.SiteFault.{SiteFault};
ghost use Rattle.rt_control.specs.declared.form.Form.{Form};

use crate::fault::{FormFault, SiteFault};
use crate::form::{Called, Form, Target, Way};
use crate::good::{after, good_place};
use crate::leading::{jump_target, symbol_target};
use crate::outcome::Outcome;
use crate::reading::{insn_at, register_of, word_of};
use crate::table::entries_at;
use crate::targets::outcome_of;
use rt_elf::Object;
use rt_insn::Insn;
use rt_insn::registers::{RETURN_ADDRESS, ZERO};
use rt_link::{Link, Links, Place};
use std::alloc::Global;

fn called_at(target: Target) -> Called
    ensures { result ≡ called_at target }
{
    match target {
        Target::Code(place) => Called::Code(place),
        Target::Outside(symbol) => Called::Outside(symbol),
    }
}

fn way_to(target: Target) -> Way
    ensures { result ≡ way_to target }
{
    match target {
        Target::Code(place) => Way::Jump(place),
        Target::Outside(symbol) => Way::Leave(symbol),
    }
}

// A call with a link register; its continuation may be bad.
fn call_form(object: &Object, continuation: Place, link: u8, called: Called) -> Form
    ensures { result ≡ call_form object.now continuation link called }
{
    Form::Call {
        called,
        link,
        after: good_place(object, continuation),
    }
}

// A far call.
fn pair_form(
    object: &Object,
    place: Place,
    link: u8,
    target: Option<Target>,
) -> Result<Form, SiteFault>
    requires { HasRoom object.now place 8 }
    ensures { result ≡ pair_form object.now place link target }
{
    let Some(target) = target else {
        return Err(SiteFault::Target);
    };
    if link == ZERO {
        return Ok(Form::Tail(target));
    }
    Ok(call_form(object, after(object, place, 8), link, called_at(target)))
}

// JAL.
fn jal_form(
    object: &Object,
    place: Place,
    insn: Insn,
    link: u8,
    target: Option<Target>,
) -> Result<Form, SiteFault>
    requires { HasRoom object.now place 4 }
    ensures { result ≡ jal_form object.now place insn link target }
{
    let Some(target) = target else {
        return Err(SiteFault::Target);
    };
    if link == ZERO {
        return Ok(Form::Plain {
            insn,
            way: way_to(target),
        });
    }
    Ok(call_form(object, after(object, place, 4), link, called_at(target)))
}

// A jump through a register, by what it comes to.
fn table_form(insn: Insn, outcome: Outcome) -> Result<Form, SiteFault>
    ensures { result ≡ table_form insn outcome }
{
    match outcome {
        Outcome::NoTable => Err(SiteFault::Jump),
        Outcome::BadTarget => Err(SiteFault::Target),
        Outcome::Targets(places) => Ok(Form::Plain {
            insn,
            way: Way::Table(places),
        }),
    }
}

// JALR with no far call.
fn jalr_form(
    object: &Object,
    place: Place,
    insn: Insn,
    link: u8,
    base: u8,
    distance: i32,
    outcome: Outcome,
) -> Result<Form, SiteFault>
    requires { HasRoom object.now place 4 }
    ensures { result ≡ jalr_form object.now place insn link base distance outcome }
{
    if link != ZERO {
        return Ok(call_form(
            object,
            after(object, place, 4),
            link,
            Called::Register(base),
        ));
    }
    if base == RETURN_ADDRESS && distance == 0 {
        return Ok(Form::Return);
    }
    table_form(insn, outcome)
}

// A branch.
fn branch_form(
    insn: Insn,
    target: Option<Target>,
    continuation: Option<Place>,
) -> Result<Form, SiteFault>
    ensures { result ≡ branch_form insn target continuation }
{
    let target = match target {
        Some(Target::Code(target)) => target,
        Some(Target::Outside(_)) | None => return Err(SiteFault::Target),
    };
    let Some(after) = continuation else {
        return Err(SiteFault::Continuation);
    };
    Ok(Form::Plain {
        insn,
        way: Way::Branch { target, after },
    })
}

// All other instructions.
fn step_form(insn: Insn, continuation: Option<Place>) -> Result<Form, SiteFault>
    ensures { result ≡ step_form insn continuation }
{
    match continuation {
        Some(after) => Ok(Form::Plain {
            insn,
            way: Way::On(after),
        }),
        None => Err(SiteFault::Continuation),
    }
}

// The distance of a branch (RISC-V unprivileged ISA, "Conditional Branches").
fn branch_distance(insn: Insn) -> Option<i32>
    ensures { result ≡ branch_distance insn }
{
    match insn {
        Insn::Beq(_, _, distance)
        | Insn::Bne(_, _, distance)
        | Insn::Blt(_, _, distance)
        | Insn::Bge(_, _, distance)
        | Insn::Bltu(_, _, distance)
        | Insn::Bgeu(_, _, distance) => Some(distance),
        _ => None,
    }
}

// A branch, or an instruction that goes on to its continuation alone.
fn going_form(
    object: &Object,
    place: Place,
    link: Option<Link>,
    insn: Insn,
) -> Result<Form, SiteFault>
    requires room { HasRoom object.now place 4 }
    requires symbol { IsAboutSymbol object.now link }
    ensures { result ≡ going_form object.now place link insn (branch_distance insn) }
{
    let continuation = good_place(object, after(object, place, 4));
    match branch_distance(insn) {
        Some(distance) => {
            let target = jump_target(object, place, link, distance);
            branch_form(insn, target, continuation)
        }
        None => step_form(insn, continuation),
    }
}

// What the site of an instruction does.
#[tactic(auto, unfolding(crate::specs::Control::insn_form))]
fn insn_form(
    object: &Object,
    place: Place,
    link: Option<Link>,
    insn: Insn,
    outcome: Outcome,
) -> Result<Form, SiteFault>
    requires room { HasRoom object.now place 4 }
    requires symbol { IsAboutSymbol object.now link }
    ensures { result ≡ insn_form object.now place link insn outcome }
{
    match insn {
        Insn::Jal(register, distance) => {
            let target = jump_target(object, place, link, distance);
            jal_form(object, place, insn, register, target)
        }
        Insn::Jalr(register, base, distance) => {
            jalr_form(object, place, insn, register, base, distance, outcome)
        }
        Insn::Ebreak => Ok(Form::Stop),
        _ => going_form(object, place, link, insn),
    }
}

// The two words of a far call.
fn far_form(object: &Object, place: Place, symbol: u32, addend: i32) -> Result<Form, SiteFault>
    requires linked { link_fault object.now ≡ None }
    requires far { link_at object.now place ≡ Some (Pair symbol addend) }
    ensures { result ≡ pair_form object.now place (register_of (word_of object.now (after place 4)))
        (symbol_target object.now symbol addend) }
{
    // The relocations are of the object's code and about its symbols, so both words are of the section.
    let _relocs = object.relocs();
    let second = word_of(object, after(object, place, 4));
    let target = symbol_target(object, symbol, addend);
    pair_form(object, place, register_of(second), target)
}

// What the site at a good place does, by the relocation and the instruction there, and by what a jump through a register
// comes to.
fn form_of(
    object: &Object,
    place: Place,
    link: Option<Link>,
    insn: Option<Insn>,
    outcome: Outcome,
) -> Result<Form, SiteFault>
    requires linked { link_fault object.now ≡ None }
    requires good { IsTrue (is_good object.now place) }
    requires link { link ≡ link_at object.now place }
    requires symbol { IsAboutSymbol object.now link }
    ensures { result ≡ form_of object.now place link insn outcome }
{
    if let Some(Link::Pair { symbol, addend }) = link {
        return far_form(object, place, symbol, addend);
    }
    match insn {
        Some(insn) => insn_form(object, place, link, insn, outcome),
        None => Err(SiteFault::Instruction),
    }
}

/// What the site at a good place does, or why it is at fault (RISC-V unprivileged ISA, chapter RV32I, "Control
/// Transfer Instructions").
///
/// A relocation of a far call makes the AUIPC and the JALR at its place one site; that of a branch or a JAL says its
/// target; that of an ADDI may say where the table of a jump begins; any other is passed over. An error is the first
/// fault of the site, in the order of [`SiteFault`], or memory runs out.
///
/// Conditions: the links are those that `rt_link::resolve` gives for the object, and the place is good.
///
/// It takes constant time, but for looking up places, and no memory. A jump to an entry of a table takes time near
/// linear in the entries, and memory linear in them.
pub fn form_at(
    alloc: Global,
    object: &Object,
    links: &Links,
    place: Place,
) -> Result<Form, FormFault>
    requires links { AreLinksOf object.now links.now }
    requires linked { link_fault object.now ≡ None }
    requires is_good { IsTrue (is_good object.now place) }
    ensures found { IfOk result (λ form. IsAt object.now place (Ok form)) }
    ensures bad { IfErr result (IsFormFault object.now place) }
    ensures only { (other : Result Form SiteFault) → IsAt object.now place other → IsAnswer result other }
    ensures good { IfOk result (IsGoodForm object.now) }
    ensures known { IfOk result (IsKnownForm object.now) }
{
    // The relocations are about the object's symbols, so the link and the entries of a table are too.
    let _relocs = object.relocs();
    let link = links.at(place.section, place.offset);
    let insn = insn_at(object, place);
    let entries = entries_at(alloc, object, links, place, insn)?;
    let outcome = outcome_of(alloc, object, &entries)?;
    Ok(form_of(object, place, link, insn, outcome)?)
}
