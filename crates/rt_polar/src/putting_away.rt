// Existentials that give their places away, the least with a candidate first, until none has one.
ghost use Rattle.std.specs.Prelude.{◌≡◌, ◌≢◌, ℕ, ◌<◌, ◌≤◌, List, [], ◌∷◌, ◌++◌, Option, Some};
ghost use Rattle.std.specs.Prelude.{None, true, length, slice_set, IfOk, MatchOption, OnOk};
ghost use Rattle.std.specs.BTreeSet.{contains};
ghost use Rattle.std.specs.Ordering.{nat_cmp};
ghost use Rattle.rt_lines.specs.declared.label.Variance.{Variance as Sign};
ghost use Rattle.rt_lines.specs.declared.variable.Dtv.{Dtv as Variable};
ghost use Rattle.rt_lines.specs.declared.variable.Base.TheVariants.{Exist as Existential};
ghost use Rattle.rt_lines.specs.declared.line.Line.{Line as TheLine};
ghost use Rattle.rt_rules.specs.Put.{put_lines};
ghost use Rattle.rt_polar.specs.Index.{has, Names};
ghost use Rattle.rt_polar.specs.Inside.Places.{Agrees, ArePending, ArePlaces, Holds, IsSoleAt, IsTurn, Settles, lines_of, moved};
ghost use Rattle.rt_polar.specs.Inside.Turns.{GivesAway, IsNextTurn};
ghost use Rattle.rt_polar.specs.Puts.{Puts};
ghost use Rattle.rt_polar.specs.Tidied.{tidied};

use crate::index::next_at;
use crate::places::Places;
use crate::row::{KnownSide, Row};
use crate::tidying::self_to_var;
use rt_base::{Memory, Sequence};
use rt_lines::{Base, Line, Lines, Variance};
use std::alloc::Global;
use std::collections::BTreeSet;

// Numbers of existentials that may have a candidate.
type Pending = BTreeSet<u32>;

// An existential that gives its place away, and the slot of the use that goes.
#[derive(Drop)]
struct Turn {
    existential: u32,
    slot: usize,
}

// Adds the base to the pending ones, where it is an existential.
fn add_base(pending: &mut Pending, base: Base) -> Result<(), Memory>
    ensures kept { OnOk result ((n : ℕ) → contains nat_cmp pending.old n ≡ true → contains nat_cmp pending.new n ≡ true) }
    ensures added { OnOk result ((n : ℕ) → base ≡ Existential n → contains nat_cmp pending.new n ≡ true) }
{
    if let Base::Exist(v) = base {
        pending.insert(v)?;
    }
    Ok(())
}

// Adds the existentials that the line names to the pending ones.
fn add_line(pending: &mut Pending, line: &Line) -> Result<(), Memory>
    ensures kept { OnOk result ((n : ℕ) → contains nat_cmp pending.old n ≡ true → contains nat_cmp pending.new n ≡ true) }
    ensures added { OnOk result ((n : ℕ) → Names n line.now → contains nat_cmp pending.new n ≡ true) }
{
    match line {
        Line::Var(x) | Line::Low(_, x) | Line::Up(x, _) => add_base(pending, x.base),
        Line::Same(x, y) | Line::Sub(x, y) => {
            add_base(pending, x.base)?;
            add_base(pending, y.base)
        }
    }
}

// The turn of the existential, if it has a candidate.
fn turn_of(places: &Places, v: u32) -> Option<Turn>
    requires { ArePlaces places.now }
    ensures { MatchOption result
        ((sign : Sign) (z : Variable) (slot : ℕ) → IsSoleAt sign v z places.now.slots.items slot → ⊥)
        (λ t. (t.existential ≡ v) × (sign : Sign) × (z : Variable) × IsTurn sign v z places.now.slots.items t.slot) }
{
    if let Some(slot) = places.sole(v, Variance::Co) {
        return Some(Turn {
            existential: v,
            slot,
        });
    }
    if let Some(slot) = places.sole(v, Variance::Contra) {
        return Some(Turn {
            existential: v,
            slot,
        });
    }
    None
}

// The turn of the least existential with a candidate. It and those before it are no longer pending.
fn next_turn(places: &Places, pending: &mut Pending) -> Option<Turn>
    requires places { ArePlaces places.now }
    requires pending { ArePending (contains nat_cmp pending.old) places.now.slots.items }
    ensures { MatchOption result
        ((n : ℕ) (sign : Sign) (z : Variable) (slot : ℕ) → IsSoleAt sign n z places.now.slots.items slot → ⊥)
        (λ t. (z : Variable) × IsNextTurn t.existential z t.slot places.now.slots.items (contains nat_cmp pending.new)) }
{
    while let Some(v) = pending.pop_first() {
        if let Some(turn) = turn_of(places, v) {
            return Some(turn);
        }
    }
    None
}

// Puts the side in the place of the existential in the line that a slot holds.
fn move_line(
    places: &mut Places,
    pending: &mut Pending,
    slot: usize,
    v: u32,
    side: KnownSide,
) -> Result<(), Memory>
    requires places { ArePlaces places.old }
    requires within { slot < length places.old.slots.items }
    ensures places { OnOk result (ArePlaces places.new) }
    ensures moved { OnOk result ((l : TheLine) → Holds places.old.slots.items slot l →
        Settles (slice_set places.old.slots.items slot None) slot (moved v side l) places.new.slots.items) }
    ensures kept { OnOk result ((n : ℕ) → contains nat_cmp pending.old n ≡ true → contains nat_cmp pending.new n ≡ true) }
    ensures added { OnOk result ((n : ℕ) (l : TheLine) → Holds places.old.slots.items slot l → Names n l →
        contains nat_cmp pending.new n ≡ true) }
{
    let Some(row) = places.clear(slot) else {
        return Ok(());
    };
    add_line(pending, row.line())?;
    places.settle(slot, row.with(v, side)?)
}

// Puts copies of the side in the place of the existential in all lines that name it.
fn move_each(
    places: &mut Places,
    pending: &mut Pending,
    v: u32,
    side: &KnownSide,
) -> Result<(), Memory>
    requires places { ArePlaces places.old }
    requires other_base { side.now.base ≢ Existential v }
    requires own { (n : ℕ) → side.now.base ≡ Existential n → contains nat_cmp pending.old n ≡ true }
    ensures places { OnOk result (ArePlaces places.new) }
    ensures moved { OnOk result (lines_of places.new.slots.items ≡ tidied (put_lines v side.now (lines_of places.old.slots.items))) }
    ensures kept { OnOk result ((n : ℕ) → contains nat_cmp pending.old n ≡ true → contains nat_cmp pending.new n ≡ true) }
    ensures agree { OnOk result (Agrees (contains nat_cmp pending.new) places.old.slots.items places.new.slots.items) }
{
    let mut from = 0;
    while let Some(slot) = next_at(&places.naming, v, from) {
        move_line(places, pending, slot, v, side.copy()?)?;
        from = slot + 1;
    }
    Ok(())
}

// Puts the side in the place of the existential in all lines that name it, the first of which is known. Where it is the
// only one, the side's word becomes its word, and is not copied.
fn move_lines(
    places: &mut Places,
    pending: &mut Pending,
    first: usize,
    v: u32,
    side: KnownSide,
) -> Result<(), Memory>
    requires places { ArePlaces places.old }
    requires names { has places.old.naming v first ≡ true }
    requires first { (i : ℕ) → has places.old.naming v i ≡ true → first ≤ i }
    requires other_base { side.base ≢ Existential v }
    requires own { (n : ℕ) → side.base ≡ Existential n → contains nat_cmp pending.old n ≡ true }
    ensures places { OnOk result (ArePlaces places.new) }
    ensures moved { OnOk result (lines_of places.new.slots.items ≡ tidied (put_lines v side (lines_of places.old.slots.items))) }
    ensures kept { OnOk result ((n : ℕ) → contains nat_cmp pending.old n ≡ true → contains nat_cmp pending.new n ≡ true) }
    ensures agree { OnOk result (Agrees (contains nat_cmp pending.new) places.old.slots.items places.new.slots.items) }
{
    match next_at(&places.naming, v, first + 1) {
        Some(_) => move_each(places, pending, v, &side),
        None => {
            move_line(places, pending, first, v, side)?;
            Ok(())
        }
    }
}

// Clears the slot of a use of the existential, and gives the other side.
fn take_side(places: &mut Places, v: u32, slot: usize) -> Option<KnownSide>
    requires places { ArePlaces places.old }
    requires within { slot < length places.old.slots.items }
    ensures places { ArePlaces places.new }
    ensures slots { places.new.slots.items ≡ slice_set places.old.slots.items slot None }
    ensures side { (sign : Sign) (z : Variable) → IsSoleAt sign v z places.old.slots.items slot → result ≡ Some z }
{
    let Some(row) = places.clear(slot) else {
        return None;
    };
    row.into_other_side(v)
}

// The existential gives its place away.
fn give_away(places: &mut Places, pending: &mut Pending, turn: Turn) -> Result<(), Memory>
    requires places { ArePlaces places.old }
    requires turn { (z : Variable) × IsNextTurn turn.existential z turn.slot places.old.slots.items (contains nat_cmp pending.old) }
    ensures places { OnOk result (ArePlaces places.new) }
    ensures pending { OnOk result (ArePending (contains nat_cmp pending.new) places.new.slots.items) }
    ensures gives { OnOk result ((z : Variable) ×
        IsNextTurn turn.existential z turn.slot places.old.slots.items (contains nat_cmp pending.old)
        × GivesAway turn.existential z places.old.slots.items turn.slot (lines_of places.new.slots.items)) }
{
    let Turn { existential, slot } = turn;
    let Some(side) = take_side(places, existential, slot) else {
        unreachable!()
    };
    add_base(pending, Base::Exist(existential))?;
    add_base(pending, side.base())?;
    match next_at(&places.naming, existential, 0) {
        Some(first) => move_lines(places, pending, first, existential, side),
        None => places.settle(slot, Row::existing(side)),
    }
}

// The lines in slots of their own, tidied.
fn placed(alloc: Global, lines: Lines) -> Result<Places, Memory>
    ensures places { IfOk result (λ places. ArePlaces places) }
    ensures lines { IfOk result (λ places. lines_of places.slots.items ≡ tidied lines) }
{
    let mut places = Places::new(alloc);
    place_all(&mut places, lines)?;
    Ok(places)
}

// Puts the lines into slots of their own, tidied, where there are none.
fn place_all(places: &mut Places, lines: Lines) -> Result<(), Memory>
    requires places { ArePlaces places.old }
    requires none { places.old.slots.items ≡ [] }
    ensures places { OnOk result (ArePlaces places.new) }
    ensures lines { OnOk result (lines_of places.new.slots.items ≡ tidied lines) }
{
    for line in lines.into_vec() {
        place(places, line)?;
    }
    Ok(())
}

// Puts a line into a slot of its own behind the others, tidied.
fn place(places: &mut Places, line: Line) -> Result<(), Memory>
    requires { ArePlaces places.old }
    ensures places { OnOk result (ArePlaces places.new) }
    ensures lines { OnOk result ((lines : List TheLine) → lines_of places.old.slots.items ≡ tidied lines →
        lines_of places.new.slots.items ≡ tidied (lines ++ line ∷ [])) }
{
    let slot = places.add_slot()?;
    places.settle(slot, Row::of(self_to_var(line)))?;
    Ok(())
}

// The existentials that lines in slots name.
fn named(alloc: Global, slots: &[Option<Row>]) -> Result<Pending, Memory>
    ensures { IfOk result
        (λ pending. (i n : ℕ) (l : TheLine) → Holds slots.now i l → Names n l → contains nat_cmp pending n ≡ true) }
{
    let mut pending = BTreeSet::new(alloc);
    for slot in slots {
        if let Some(row) = slot {
            add_line(&mut pending, row.line())?;
        }
    }
    Ok(pending)
}

// Adds the line of a slot, if it holds one.
fn push_line(lines: &mut Vec<Line>, slot: Option<Row>) -> Result<(), Memory>
    ensures { OnOk result (lines.new.items ≡ lines.old.items ++ lines_of (slot ∷ [])) }
{
    if let Some(row) = slot {
        lines.push(row.into_line())?;
    }
    Ok(())
}

// The lines in slots, in their order.
fn gathered(alloc: Global, slots: Vec<Option<Row>>) -> Result<Lines, Memory>
    ensures { IfOk result (λ lines. lines ≡ lines_of slots.items) }
{
    let mut lines = Vec::new(alloc);
    for slot in slots {
        push_line(&mut lines, slot)?;
    }
    Ok(Sequence::from_vec(lines))
}

// Existentials give their places away, the least with a candidate first, until none has one.
fn give_all(alloc: Global, places: &mut Places) -> Result<(), Memory>
    requires { ArePlaces places.old }
    ensures { OnOk result (Puts (lines_of places.new.slots.items) (lines_of places.old.slots.items)) }
{
    let mut pending = named(alloc, &places.slots)?;
    while let Some(turn) = next_turn(places, &mut pending) {
        give_away(places, &mut pending, turn)?;
    }
    Ok(())
}

/// What is left of the lines, tidied, when existentials gave their places away, the least with a candidate first, until
/// none has one. The error is out of memory.
pub fn put_away(alloc: Global, lines: Lines) -> Result<Lines, Memory>
    ensures { IfOk result (λ left. Puts left (tidied lines)) }
{
    let mut places = placed(alloc, lines)?;
    give_all(alloc, &mut places)?;
    gathered(alloc, places.slots)
}
