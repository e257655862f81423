// An order of what stands beside an existential in its lines.
ghost use Rattle.std.specs.Prelude.{◌≡◌, ◌++◌, map, IfOk, OnOk};
ghost use Rattle.std.specs.BTreeMap.{get};
ghost use Rattle.std.specs.Ordering.{nat_cmp};
ghost use Rattle.rt_refine.specs.Groups.{class_of};
ghost use Rattle.rt_refine.specs.Ranks.{base_rank, label_rank, bound_ranks, pair_ranks};
ghost use Rattle.rt_refine.specs.Refinements.{move};

use crate::grouping::{Classes, moved};
use rt_base::Memory;
use rt_lines::{Base, Dtv, Label, Loc, Word};
use std::alloc::Global;

/// The place of a label, a base or a constant in an order: by its kind, then its number or width, then its offset.
pub type Rank = (u8, u32, i32);

// The label's rank.
fn label_rank(label: Label) -> Rank
    ensures { result ≡ label_rank label }
{
    match label {
        Label::In(Loc::Arg(n)) => (0, u32::from(n), 0),
        Label::In(Loc::Stack(k)) => (1, k, 0),
        Label::Out(n) => (2, u32::from(n), 0),
        Label::Load => (3, 0, 0),
        Label::Store => (4, 0, 0),
        Label::Field(width, offset) => (5, u32::from(width), offset),
    }
}

// The base's rank.
fn base_rank(base: Base) -> Rank
    ensures { result ≡ base_rank base }
{
    match base {
        Base::Proc(n) => (6, n, 0),
        Base::Global(n) => (7, n, 0),
        Base::Exist(n) => (8, n, 0),
        Base::Outer(n) => (9, n, 0),
    }
}

// Adds the ranks of the letters, in order.
fn push_word(ranks: &mut Vec<Rank>, word: &Word) -> Result<(), Memory>
    ensures { OnOk result (ranks.new.items ≡ ranks.old.items ++ map label_rank word.now) }
{
    for label in word.items() {
        ranks.push(label_rank(*label))?;
    }
    Ok(())
}

/// The ranks of the one variable's letters, of the other's base, an existential by its class, and of its letters. The error
/// is out of memory.
pub fn pair_ranks(
    alloc: Global,
    classes: &Classes,
    own: &Dtv,
    other: &Dtv,
) -> Result<Vec<Rank>, Memory>
    ensures { IfOk result (λ ranks. ranks.items ≡ pair_ranks own.now.word (move (class_of (get nat_cmp classes.now)) other.now)) }
{
    let letters = own
        .word
        .items()
        .len()
        .saturating_add(other.word.items().len());
    let mut ranks = Vec::with_capacity(alloc, letters.saturating_add(1))?;
    push_word(&mut ranks, &own.word)?;
    ranks.push(base_rank(moved(classes, other.base)))?;
    push_word(&mut ranks, &other.word)?;
    Ok(ranks)
}

/// The ranks of the variable's letters, and of the constant. The error is out of memory.
pub fn bound_ranks(alloc: Global, own: &Dtv, constant: u16) -> Result<Vec<Rank>, Memory>
    ensures { IfOk result (λ ranks. ranks.items ≡ bound_ranks own.now.word constant) }
{
    let mut ranks = Vec::with_capacity(alloc, own.word.items().len().saturating_add(1))?;
    push_word(&mut ranks, &own.word)?;
    ranks.push((10, u32::from(constant), 0))?;
    Ok(ranks)
}
