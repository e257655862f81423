// The fields of existentials that do nothing but hold them, and their numbers.
ghost use Rattle.std.specs.Prelude.{◌≡◌, [], not, fold, flat_map, IfOk, OnOk};
ghost use Rattle.std.specs.BTreeSet.{contains};
ghost use Rattle.std.specs.Ordering.{nat_cmp};
ghost use Rattle.indexmap.specs.IndexSet.{insert_key};
ghost use Rattle.rt_lines.specs.FirstFree.{first_free as first_number};
ghost use Rattle.rt_record.specs.Records.{flow_sides};
ghost use Rattle.rt_record.specs.Slots.{numbers_from, side_number as number_of_side};
ghost use Rattle.rt_record.specs.Slots.{side_slots, slot_eq, slots as fields_of};

use crate::records::Existentials;
use indexmap::IndexSet;
use rt_base::Memory;
use rt_lines::{Base, Dtv, Label, Line, first_free};
use std::alloc::Global;

// A field of an existential.
#[derive(Clone, Copy, PartialEq, Eq, Hash)]
pub(crate) struct Slot {
    // The existential.
    pub(crate) holder: u32,
    // The label of the field.
    pub(crate) field: Label,
}

// Fields in the order of their numbers, and the first number.
#[derive(Drop)]
pub(crate) struct Fields {
    pub(crate) first: u64,
    pub(crate) order: IndexSet<Slot>,
}

// The fields of existentials other than these, with the first number that no existential of the lines has.
pub(crate) fn number_fields(
    alloc: Global,
    spoiled: &Existentials,
    lines: &[Line],
) -> Result<Fields, Memory>
    ensures first { IfOk result (λ fields. fields.first ≡ first_number lines.now) }
    ensures order { IfOk result (λ fields. fields.order.keys ≡ fields_of (λ n. not (contains nat_cmp spoiled.now n)) lines.now) }
{
    let order = slots(alloc, spoiled, lines)?;
    Ok(Fields {
        first: first_free(lines),
        order,
    })
}

// The fields of existentials other than these, each once, in the order in which they come first.
fn slots(alloc: Global, spoiled: &Existentials, lines: &[Line]) -> Result<IndexSet<Slot>, Memory>
    ensures { IfOk result (λ found. found.keys ≡ fields_of (λ n. not (contains nat_cmp spoiled.now n)) lines.now) }
{
    let mut found = IndexSet::new(alloc);
    for line in lines {
        note_line(spoiled, line, &mut found)?;
    }
    Ok(found)
}

// Adds the fields of a line.
fn note_line(spoiled: &Existentials, line: &Line, found: &mut IndexSet<Slot>) -> Result<(), Memory>
    ensures { OnOk result (found.new.keys ≡ fold (insert_key slot_eq) found.old.keys
        (flat_map (side_slots (λ n. not (contains nat_cmp spoiled.now n))) (flow_sides line.now))) }
{
    match line {
        Line::Var(_) | Line::Same(_, _) => Ok(()),
        Line::Sub(x, y) => {
            note(spoiled, x, found)?;
            note(spoiled, y, found)?;
            Ok(())
        }
        Line::Low(_, x) | Line::Up(x, _) => note(spoiled, x, found),
    }
}

// Adds the field of a variable, if it has one.
fn note(spoiled: &Existentials, x: &Dtv, found: &mut IndexSet<Slot>) -> Result<(), Memory>
    ensures { OnOk result (found.new.keys ≡ fold (insert_key slot_eq) found.old.keys
        (side_slots (λ n. not (contains nat_cmp spoiled.now n)) x.now)) }
{
    let Base::Exist(holder) = x.base else {
        return Ok(());
    };
    if spoiled.contains(&holder) {
        return Ok(());
    }
    if let [_, field, ..] = x.word.items() {
        found.insert(Slot {
            holder,
            field: *field,
        })?;
    }
    Ok(())
}

impl Fields {
    // The number of the existential that the variable's field becomes, if it becomes one.
    pub(crate) fn number_of(&self, x: &Dtv) -> Option<u32>
        ensures { result ≡ number_of_side (numbers_from self.now.first self.now.order.keys) x.now }
    {
        match (x.base, x.word.items()) {
            (Base::Exist(holder), [Label::Load | Label::Store, field, ..]) => self.number(Slot {
                holder,
                field: *field,
            }),
            _ => None,
        }
    }

    // The number of a field, if it has one.
    fn number(&self, slot: Slot) -> Option<u32>
        ensures { result ≡ numbers_from self.now.first self.now.order.keys slot.holder slot.field }
    {
        let Some(place) = self.order.get_index_of(&slot) else {
            return None;
        };
        match self.first.checked_add(place as u64) {
            Some(number) => u32::try_from(number).ok(),
            None => None,
        }
    }
}
