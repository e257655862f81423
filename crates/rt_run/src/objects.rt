// Objects, from their bytes to their procedures.
ghost use Rattle.std.specs.Prelude.{◌≡◌, ◌<◌, ℕ, AllPairs, List, None, IfErr, IfOk, OnOk};
ghost use Rattle.rt_elf.specs.Checks.{first_fault};
ghost use Rattle.rt_elf.specs.Object.{IsObject};
ghost use Rattle.rt_link.specs.Checks.{link_fault};
ghost use Rattle.rt_link.specs.Links.{AreLinksOf};
ghost use Rattle.rt_liveness.specs.Ends.{ends_of};
ghost use Rattle.rt_proc.specs.Faults.{HasNoFault};
ghost use Rattle.rt_proc.specs.Procs.{AreProcs};
ghost use Rattle.rt_sigs.specs.Signatures.{Signature};
ghost use Rattle.rt_run.specs.Inside.NoTexts.{IsNoText};
ghost use Rattle.rt_run.specs.Objects.{IsInProfile, IsObjectRefused, IsReadAs, IsRefused};

use crate::no_text::NoText;
use crate::refusal::{ObjectFault, Refusal};
use rt_elf::{ElfFault, Object};
use rt_link::{LinkFault, Links, resolve};
use rt_proc::{CodeFault, Procs, find};
use rt_sigs::Sigs;
use rt_table::ends;
use std::alloc::Global;

/// An object of the profile, with what its relocations mean and its procedures.
#[derive(Drop)]
pub struct Program {
    /// The object.
    pub object: Object,
    /// What its relocations mean.
    pub links: Links,
    /// Its procedures.
    pub procs: Procs,
}

// The object that bytes are read as.
fn read_object(alloc: Global, bytes: &[u8]) -> Result<Object, NoText>
    ensures refused { (signatures : List Signature) → IfErr result (IsNoText (IsRefused signatures bytes.now)) }
    ensures unrefused { OnOk result (first_fault bytes.now ≡ None) }
    ensures found { IfOk result (IsObject bytes.now) }
{
    match rt_elf::read(alloc, bytes) {
        Ok(object) => Ok(object),
        Err(ElfFault::Bad { number, offset }) => {
            Err(NoText::Refused(Refusal::Object(ObjectFault::Bytes(number, offset))))
        }
        Err(ElfFault::Memory) => Err(NoText::Memory),
    }
}

// What an object's relocations mean.
fn links_of(alloc: Global, object: &Object) -> Result<Links, NoText>
    ensures refused { (ends : List ℕ) → IfErr result (IsNoText (IsObjectRefused object.now ends)) }
    ensures linked { OnOk result (link_fault object.now ≡ None) }
    ensures found { IfOk result (AreLinksOf object.now) }
{
    match resolve(alloc, object) {
        Ok(links) => Ok(links),
        Err(
            LinkFault::Bad {
                number,
                section,
                offset,
            },
        ) => Err(NoText::Refused(Refusal::Object(ObjectFault::Relocation(
            number, section, offset,
        )))),
        Err(LinkFault::Memory) => Err(NoText::Memory),
    }
}

// An object's procedures, where the functions of these symbols don't return.
fn procs_of(alloc: Global, object: &Object, links: &Links, ends: &[u32]) -> Result<Procs, NoText>
    requires linked { link_fault object.now ≡ None }
    requires links { AreLinksOf object.now links.now }
    requires ascending { AllPairs ◌<◌ ends.now }
    ensures refused { IfErr result (IsNoText (IsObjectRefused object.now ends.now)) }
    ensures is_sound { OnOk result (HasNoFault object.now ends.now) }
    ensures found { IfOk result (AreProcs object.now ends.now) }
{
    match find(alloc, object, links, ends) {
        Ok(procs) => Ok(procs),
        Err(CodeFault::Bad { number, place }) => Err(NoText::Refused(Refusal::Object(
            ObjectFault::Code(number, place.section, place.offset),
        ))),
        Err(CodeFault::Memory) => Err(NoText::Memory),
    }
}

// The program of an object, with these signatures of functions outside.
fn program_of(alloc: Global, object: Object, sigs: &Sigs) -> Result<Program, NoText>
    ensures refused { IfErr result (IsNoText (IsObjectRefused object (ends_of object sigs.now))) }
    ensures same { IfOk result (λ program. program.object ≡ object) }
    ensures in_profile { IfOk result (λ program. IsInProfile object (ends_of object sigs.now) program.procs) }
    ensures links { IfOk result (λ program. AreLinksOf object program.links) }
{
    let links = match links_of(alloc, &object) {
        Ok(links) => links,
        Err(why) => return Err(why),
    };
    let ends = ends(alloc, &object, sigs)?;
    let procs = procs_of(alloc, &object, &links, ends.items())?;
    Ok(Program {
        object,
        links,
        procs,
    })
}

/// The program of the object that bytes are read as, with these signatures of functions outside, or the first refusal: of
/// the bytes, of the object's relocations, of its code.
pub fn read_program(alloc: Global, bytes: &[u8], sigs: &Sigs) -> Result<Program, NoText>
    ensures refused { IfErr result (IsNoText (IsRefused sigs.now bytes.now)) }
    ensures read { IfOk result (λ program. IsReadAs bytes.now program.object) }
    ensures in_profile { IfOk result (λ program. IsInProfile program.object (ends_of program.object sigs.now) program.procs) }
    ensures links { IfOk result (λ program. AreLinksOf program.object program.links) }
{
    let object = match read_object(alloc, bytes) {
        Ok(object) => object,
        Err(why) => return Err(why),
    };
    program_of(alloc, object, sigs)
}
