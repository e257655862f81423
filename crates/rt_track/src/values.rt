// The values of registers.
ghost use Rattle.std.specs.Prelude.{◌≡◌, ◌<◌, All, IfOk, length, map};
ghost use Rattle.rt_track.specs.Changes.{IsAscending};
ghost use Rattle.rt_track.specs.Inside.Nodes.{value_in};
ghost use Rattle.rt_track.specs.Inside.Definitions.{AreDefinitions};

use crate::changes::change_at;
use crate::nodes::Input;
use crate::ops::Ops;
use crate::value::Value;
use rt_base::{Memory, Sequence};
use std::alloc::Global;
use std::collections::HashMap;

/// The values of registers in a body: what each use and each definition of a register holds, if it is the same over all ways.
#[derive(Drop)]
pub struct Values {
    pub(crate) sites: u32,
    // For each register the values of its uses, each from its site on.
    pub(crate) uses: Vec<Sequence<(u32, Value)>>,
    // The values of definitions that have an operation.
    pub(crate) definitions: HashMap<(u32, u8), Value>,
    ghost each: { length uses.items ≡ 32 },
    ghost ascending: { All (λ changes. IsAscending changes) uses.items },
}

#[tactic(auto, unfolding(crate::specs::Told::sites_of, crate::specs::Told::value_at, crate::specs::Told::value_of))]
impl Values {
    ghost use Rattle.rt_track.specs.Told.{sites_of, value_at, value_of};

    /// The value of a use of a register at a site, in time logarithmic in how often it changes. It takes no memory.
    pub fn at(&self, site: u32, reg: u8) -> Value
        requires site { site < sites_of self.now }
        requires reg { reg < 32 }
        ensures { result ≡ value_at self.now site reg }
    {
        change_at(self.uses[reg as usize].items(), site, Value::Multi)
    }

    /// The value of the definition of a register at a site. It takes no memory.
    pub fn of(&self, site: u32, reg: u8) -> Value
        requires site { site < sites_of self.now }
        requires reg { reg < 32 }
        ensures { result ≡ value_of self.now site reg }
    {
        match self.definitions.get(&(site, reg)) {
            Some(value) => *value,
            None => Value::At(site, reg, 0),
        }
    }
}

// The value of an input: several, if it may have none.
fn input_value(input: Input, states: &[Option<Value>]) -> Value
    ensures { result ≡ value_in states.now input }
{
    match input.state(states) {
        Some(value) => value,
        None => Value::Multi,
    }
}

// The values of the uses of a register.
fn valued(
    alloc: Global,
    changes: &[(u32, Input)],
    states: &[Option<Value>],
) -> Result<Vec<(u32, Value)>, Memory>
    ensures { IfOk result (λ values. values.items ≡ map (λ c. (c.0, value_in states.now c.1)) changes.now) }
{
    let mut values = Vec::with_capacity(alloc, changes.len())?;
    for (site, input) in changes {
        values.push((*site, input_value(*input, states)))?;
    }
    Ok(values)
}

/// The values of the uses of each register. The error is out of memory.
pub(crate) fn use_values(
    alloc: Global,
    uses: &[Sequence<(u32, Input)>],
    states: &[Option<Value>],
) -> Result<Vec<Sequence<(u32, Value)>>, Memory>
    ensures { IfOk result (λ values. values.items ≡ map (map (λ c. (c.0, value_in states.now c.1))) uses.now) }
{
    let mut values = Vec::with_capacity(alloc, uses.len())?;
    for changes in uses {
        let valued = valued(alloc, changes.items(), states)?;
        values.push(Sequence::from_vec(valued))?;
    }
    Ok(values)
}

/// The values of definitions that have an operation. The error is out of memory.
pub(crate) fn definition_values(
    alloc: Global,
    ops: &Ops,
    states: &[Option<Value>],
) -> Result<HashMap<(u32, u8), Value>, Memory>
    ensures { IfOk result (AreDefinitions ops.now states.now) }
{
    let mut values = HashMap::with_capacity(alloc, ops.count())?;
    for number in 0..ops.count() {
        let (key, _) = ops.given(number);
        values.insert(key, input_value(Input::Node(number), states))?;
    }
    Ok(values)
}
