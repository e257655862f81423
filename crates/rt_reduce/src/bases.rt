// Which bases have variables of one number, those that lie below each other.
ghost use Rattle.std.specs.Prelude.{◌≡◌, length, slice_index_or, IsTrue, IfOk};
ghost use Rattle.rt_lines.specs.declared.variable.Base.{Base as Origin};
ghost use Rattle.rt_lines.specs.declared.variable.Base.TheVariants.{Exist as Existential};
ghost use Rattle.rt_reduce.specs.Inside.Bases.{AreNoted, IsNoted, Notes};
ghost use Rattle.rt_reduce.specs.declared.bases.Bases.TheVariants.{Several as Unknown};

use rt_base::Memory;
use rt_lines::{Base, Dtv};
use std::alloc::Global;

/// The bases of variables.
#[derive(Clone, Copy)]
pub enum Bases {
    /// There are none.
    None,
    /// They have one base.
    One(Base),
    /// They may have any.
    Several,
}

/// For each number below the count what bases the sides that have it have. The error is out of memory.
pub fn noted(
    alloc: Global,
    sides: &[Dtv],
    numbers: &[usize],
    count: usize,
) -> Result<Vec<Bases>, Memory>
    requires { length numbers.now ≡ length sides.now }
    ensures { IfOk result (λ bases. AreNoted sides.now numbers.now bases.items) }
{
    let mut bases = without_bases(alloc, count)?;
    for i in 0..sides.len() {
        note(&mut bases, numbers[i], sides[i].base);
    }
    Ok(bases)
}

// So many numbers that no side has.
fn without_bases(alloc: Global, count: usize) -> Result<Vec<Bases>, Memory> {
    let mut bases = Vec::with_capacity(alloc, count)?;
    for _ in 0..count {
        bases.push(Bases::None)?;
    }
    Ok(bases)
}

// Notes a base of a number.
fn note(bases: &mut Vec<Bases>, number: usize, base: Base)
    ensures { IsNoted number base bases.old.items bases.new.items }
{
    if number < bases.len() {
        bases[number] = with_base(bases[number], base);
    }
}

// The bases with one more.
fn with_base(bases: Bases, base: Base) -> Bases
    ensures noted { Notes result base }
    ensures kept { (other : Origin) → Notes bases other → Notes result other }
{
    match bases {
        Bases::None => Bases::One(base),
        Bases::One(known) => { if known == base { bases } else { Bases::Several } }
        Bases::Several => Bases::Several,
    }
}

/// Whether no other base than an existential is noted at a number.
pub fn is_alone(bases: &[Bases], number: usize, existential: u32) -> bool
    ensures { IsTrue result → (base : Origin) → Notes (slice_index_or bases.now number Unknown) base →
        base ≡ Existential existential }
{
    match bases.get(number) {
        Some(Bases::One(base)) => *base == Base::Exist(existential),
        Some(Bases::None) => true,
        Some(Bases::Several) => false,
        None => false,
    }
}
