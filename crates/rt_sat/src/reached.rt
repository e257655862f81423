// Least counts of states, in the order in which the states are reached.
ghost use Rattle.std.specs.Prelude.{◌≡◌, ◌<◌, ℕ, [], Some, None, cond, IfSome, OnOk};
ghost use Rattle.std.specs.Prelude.{length, option_copied, slice_get, slice_index_or};
ghost use Rattle.std.specs.Map.{lookup};
ghost use Rattle.rt_sat.specs.declared.state.State.{State as Place};
ghost use Rattle.rt_sat.specs.Reached.{key_of};
ghost use Rattle.rt_sat.specs.Searches.{state_eq};

use crate::count::Count;
use crate::state::State;
use rt_base::Memory;
use std::alloc::Global;
use std::marker::Model;

// States, each with a count. What is known of a state costs one look-up, and to forget all costs no more than to drop
// it.
#[derive(Drop)]
pub(crate) struct Reached {
    counts: Vec<(State, Count)>,
    // By the key of a state that has a count the place of that; other numbers stay as they were.
    places: Vec<usize>,
}

impl Model for Reached {
    ghost use Rattle.std.specs.Prelude.{List, ℕ};
    ghost use Rattle.rt_sat.specs.declared.state.State.{State as Place};
    ghost use Rattle.rt_sat.specs.Reached.{ArePlaces};

    ghost Value = { List (Place × ℕ) };

    ghost view = { λ r. r.counts.items };

    ghost invariant = { λ r. ArePlaces r.places.items r.counts.items };
}

impl Reached {
    // None.
    pub(crate) fn new(alloc: Global) -> Reached
        ensures { result ≡ [] }
    {
        Reached {
            counts: Vec::new(alloc),
            places: Vec::new(alloc),
        }
    }

    // How many states there are.
    pub(crate) fn len(&self) -> usize
        ensures { result ≡ length self.now }
    {
        self.counts.len()
    }

    // The state with its count that was reached at an index.
    pub(crate) fn at(&self, index: usize) -> Option<&(State, Count)>
        ensures entry { option_copied result ≡ slice_get self.now index }
        ensures value { IfSome result (λ e. lookup (state_eq e.now.0) self.now ≡ Some e.now.1) }
    {
        if index >= self.counts.len() {
            return None;
        }
        Some(&self.counts[index])
    }

    // The count of a state.
    pub(crate) fn get(&self, state: State) -> Option<&Count>
        ensures value { option_copied result ≡ lookup (state_eq state) self.now }
    {
        match self.place(state) {
            Some(place) => Some(&self.counts[place].1),
            None => None,
        }
    }

    // The place of a state.
    fn place(&self, state: State) -> Option<usize>
        ensures some { IfSome result (λ i. (i < length self.now) ×
            ((e : Place × ℕ) → (slice_index_or self.now i e).0 ≡ state)) }
        ensures none { result ≡ None → lookup (state_eq state) self.now ≡ None }
    {
        let place = number_at(&self.places, key(state));
        if place >= self.counts.len() {
            return None;
        }
        if self.counts[place].0 != state {
            return None;
        }
        Some(place)
    }

    // Puts down a count of a state.
    pub(crate) fn insert(&mut self, state: State, count: Count) -> Result<(), Memory>
        ensures { OnOk result ((q : Place) →
            lookup (state_eq q) self.new ≡ cond (state_eq state q) (Some count) (lookup (state_eq q) self.old)) }
    {
        if let Some(place) = self.place(state) {
            self.counts[place] = (state, count);
            return Ok(());
        }
        let key = key(state);
        widen(&mut self.places, key)?;
        self.places[key] = self.counts.len();
        self.counts.push((state, count))?;
        Ok(())
    }

    // Forgets all.
    pub(crate) fn clear(&mut self)
        ensures { self.new ≡ [] }
    {
        self.counts.clear();
    }
}

// The key of a state.
pub(crate) fn key(state: State) -> usize
    ensures { result ≡ key_of state }
{
    let twice = 2 * (state.variable as usize);
    if state.contra { twice + 1 } else { twice }
}

// The number at a key, nought past the end.
fn number_at(places: &[usize], key: usize) -> usize
    ensures { result ≡ slice_index_or places.now key 0 }
{
    match places.get(key) {
        Some(place) => *place,
        None => 0,
    }
}

// Makes room for the place of a key.
fn widen(places: &mut Vec<usize>, key: usize) -> Result<(), Memory>
    ensures same { (n : ℕ) → slice_index_or places.new.items n 0 ≡ slice_index_or places.old.items n 0 }
    ensures room { OnOk result (key < length places.new.items) }
{
    while places.len() <= key {
        places.push(0)?;
    }
    Ok(())
}
