// Nodes that take each other's values.
ghost use Rattle.std.specs.Prelude.{◌≡◌};
ghost use Rattle.rt_track.specs.Inside.Nodes.{state_of, IsGiven, IsJoined};

use crate::value::Value;

/// What a node takes: nothing, a value that is known, or what the node of a number has.
#[derive(Clone, Copy)]
pub(crate) enum Input {
    Nothing,
    Known(Value),
    Node(usize),
}

/// How a node's values are made: it has one, it has those of two inputs, each value of an input plus a number, or the sums of
/// the values of two inputs, for the definition of a register at a site.
#[derive(Clone, Copy)]
pub(crate) enum Node {
    Fixed(Value),
    Join(Input, Input),
    AddI(Input, i32),
    Add(Input, Input, u32, u8),
}

// Either value, or several where they differ.
fn joined(left: Option<Value>, right: Option<Value>) -> Option<Value>
    ensures { IsJoined left right result }
{
    let Some(value) = left else {
        return right;
    };
    match right {
        Some(other) if !value.is(other) => Some(Value::Multi),
        _ => left,
    }
}

impl Input {
    /// What an input has, where this is what each node has.
    pub(crate) fn state(self, states: &[Option<Value>]) -> Option<Value>
        ensures { result ≡ state_of states.now self }
    {
        match self {
            Input::Nothing => None,
            Input::Known(value) => Some(value),
            Input::Node(number) => match states.get(number) {
                Some(state) => *state,
                None => None,
            },
        }
    }
}

impl Node {
    /// A value in place of all that a node has by what its inputs have.
    pub(crate) fn given(self, states: &[Option<Value>]) -> Option<Value>
        ensures { IsGiven states.now self result }
    {
        match self {
            Node::Fixed(value) => Some(value),
            Node::Join(left, right) => joined(left.state(states), right.state(states)),
            Node::AddI(input, number) => match input.state(states) {
                Some(value) => Some(value.plus(number)),
                None => None,
            },
            Node::Add(left, right, site, reg) => match (left.state(states), right.state(states)) {
                (Some(value), Some(other)) => Some(value.sum(other, site, reg)),
                _ => None,
            },
        }
    }
}
