// Links from objects.
ghost use Rattle.std.specs.Prelude.{◌≡◌, ◌+◌, ◌<◌, None, IfErr, IfOk, OnOk, is_some, take, length, IsTrue, All};
ghost use Rattle.rt_elf.specs.declared.reloc.Reloc.{Reloc};
ghost use Rattle.rt_elf.specs.Object.{section_of};
ghost use Rattle.rt_elf.specs.Sections.{is_code_section};
ghost use Rattle.rt_link.specs.Checks.{checked, reloc_by, place_fault, partner_fault, places_fault, partners_fault, link_fault, IsFaultOf};
ghost use Rattle.rt_link.specs.Effects.{code_relocs, high_at, head_at, place_of};
ghost use Rattle.rt_link.specs.Kinds.{kind_of, has_effect};
ghost use Rattle.rt_link.specs.Links.{AreHeads, HoldAll, IsOfCode, AreLinksOf};

use crate::fault::{LinkFault, check};
use crate::heads::{Head, Heads};
use crate::kind::{has_effect, is_call, is_pcrel_low, kind_of};
use crate::links::Links;
use crate::named::named_of;
use crate::pair::{has_pair, has_room};
use crate::place::{Place, place_of, symbol_place};
use crate::pointers::pointers_of;
use rt_elf::{Object, Reloc};
use std::alloc::{AllocError, Global};

// The relocations of sections of code, in the order of the file.
fn code_relocs(alloc: Global, object: &Object) -> Result<Vec<Reloc>, AllocError>
    ensures list { IfOk result (λ relocs. relocs.items ≡ code_relocs object.now) }
    ensures known { IfOk result (λ relocs. All (IsOfCode object.now) relocs.items) }
{
    object
        .relocs()
        .iter()
        .filter(|reloc| object.is_code(reloc.section))
        .copied()
        .collect(alloc)
}

// The relocation of an index.
fn reloc_by(object: &Object, relocs: &[Reloc], index: usize) -> Reloc
    requires there { index < length relocs.now }
    requires known { All (IsOfCode object.now) relocs.now }
    ensures value { result ≡ reloc_by relocs.now index }
    ensures section { result.section < length object.now.sections }
    ensures code { IsTrue (is_code_section (section_of object.now result.section)) }
    ensures symbol { result.symbol < length object.now.symbols }
{
    relocs[index]
}

// Whether one of the first relocations, so many, has an effect at a place.
fn has_head(object: &Object, relocs: &[Reloc], index: usize, heads: &Heads, place: Place) -> bool
    requires { AreHeads object.now.symbols (take index relocs.now) heads.now }
    ensures { result ≡ is_some (head_at (take index relocs.now) place) }
{
    heads.get(place).is_some()
}

// The relocation of an index, where the heads of those before it are held.
#[tactic(auto, unfolding(crate::specs::Checks::place_fault))]
fn check_place(
    object: &Object,
    relocs: &[Reloc],
    index: usize,
    heads: &Heads,
) -> Result<(), LinkFault>
    requires there { index < length relocs.now }
    requires known { All (IsOfCode object.now) relocs.now }
    requires heads { AreHeads object.now.symbols (take index relocs.now) heads.now }
    ensures { result ≡ checked (place_fault object.now (take index relocs.now) (reloc_by relocs.now index)) }
{
    let reloc = reloc_by(object, relocs, index);
    let kind = kind_of(reloc.kind);
    let effect = has_effect(kind);
    check(kind.is_none(), 20, &reloc)?;
    check(effect && !has_room(object, &reloc, 4), 21, &reloc)?;
    check(
        effect && has_head(object, relocs, index, heads, place_of(&reloc)),
        22,
        &reloc,
    )
}

// Adds the relocation of an index, if it has an effect, to the heads of those before it.
fn add_head(
    object: &Object,
    relocs: &[Reloc],
    index: usize,
    heads: &mut Heads,
) -> Result<(), AllocError>
    requires there { index < length relocs.now }
    requires known { All (IsOfCode object.now) relocs.now }
    requires heads { AreHeads object.now.symbols (take index relocs.now) heads.old }
    requires alone { place_fault object.now (take index relocs.now) (reloc_by relocs.now index) ≡ None }
    ensures { OnOk result (AreHeads object.now.symbols (take (index + 1) relocs.now) heads.new) }
{
    let reloc = reloc_by(object, relocs, index);
    if has_effect(kind_of(reloc.kind)) {
        let own = symbol_place(object, reloc.symbol);
        heads.insert(place_of(&reloc), Head { reloc, own })?;
    }
    Ok(())
}

// The first time over the relocations.
fn read_places(alloc: Global, object: &Object, relocs: &[Reloc]) -> Result<Heads, LinkFault>
    requires { All (IsOfCode object.now) relocs.now }
    ensures bad { IfErr result (IsFaultOf (places_fault object.now relocs.now)) }
    ensures none { OnOk result (places_fault object.now relocs.now ≡ None) }
    ensures all { IfOk result (HoldAll object.now.symbols relocs.now) }
{
    let mut heads = Heads::new(alloc);
    for index in 0..relocs.len() {
        check_place(object, relocs, index, &heads)?;
        add_head(object, relocs, index, &mut heads)?;
    }
    Ok(heads)
}

// Whether a PCREL_HI20 stands at a place.
fn has_high(object: &Object, relocs: &[Reloc], heads: &Heads, place: Place) -> bool
    requires { HoldAll object.now.symbols relocs.now heads.now }
    ensures { result ≡ is_some (high_at relocs.now place) }
{
    heads.low_at(place).is_some()
}

// The relocation of an index, where all heads are held.
#[tactic(auto, unfolding(crate::specs::Checks::partner_fault))]
fn check_partner(
    object: &Object,
    relocs: &[Reloc],
    index: usize,
    heads: &Heads,
) -> Result<(), LinkFault>
    requires there { index < length relocs.now }
    requires known { All (IsOfCode object.now) relocs.now }
    requires all { HoldAll object.now.symbols relocs.now heads.now }
    ensures { result ≡ checked (partner_fault object.now relocs.now (reloc_by relocs.now index)) }
{
    let reloc = reloc_by(object, relocs, index);
    let kind = kind_of(reloc.kind);
    let own = symbol_place(object, reloc.symbol);
    check(
        is_pcrel_low(kind) && !has_high(object, relocs, heads, own),
        23,
        &reloc,
    )?;
    check(is_call(kind) && !has_pair(object, &reloc), 24, &reloc)
}

// The second time over the relocations.
fn check_partners(object: &Object, relocs: &[Reloc], heads: &Heads) -> Result<(), LinkFault>
    requires known { All (IsOfCode object.now) relocs.now }
    requires all { HoldAll object.now.symbols relocs.now heads.now }
    ensures bad { IfErr result (IsFaultOf (partners_fault object.now relocs.now)) }
    ensures none { OnOk result (partners_fault object.now relocs.now ≡ None) }
{
    for index in 0..relocs.len() {
        check_partner(object, relocs, index, heads)?;
    }
    Ok(())
}

/// What the relocations of the object mean at their places (RISC-V psABI, "Relocations"): those of its code, and the
/// pointers, R_RISCV_32, in its code and data. Other relocations of data have no effect.
///
/// An error is the first check that fails, over all relocations of code in order: first of their types and their
/// places, then of what is with them. [`LinkFault`] lists the checks with their numbers; the place is the relocation's.
/// Relocations of data are never refused.
///
/// Time is that of a sort of the relocations by their places, and memory is linear in their number.
pub fn resolve(alloc: Global, object: &Object) -> Result<Links, LinkFault>
    ensures bad { IfErr result (IsFaultOf (link_fault object.now)) }
    ensures none { OnOk result (link_fault object.now ≡ None) }
    ensures found { IfOk result (AreLinksOf object.now) }
{
    let relocs = code_relocs(alloc, object)?;
    let heads = read_places(alloc, object, &relocs)?;
    check_partners(object, &relocs, &heads)?;
    let pointers = pointers_of(alloc, object)?;
    let named = named_of(alloc, object, &relocs, &heads)?;
    Ok(Links {
        heads,
        pointers,
        named,
    })
}
