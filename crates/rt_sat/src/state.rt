// States of named variables, and edges between them.

use crate::count::Count;

/// A variable, by its number, with the variance of a rest that is to follow it.
#[derive(Clone, Copy, PartialEq, Eq, Hash)]
pub struct State {
    /// The variable's number.
    pub variable: u32,
    /// Whether the rest turns the order round.
    pub contra: bool,
}

/// An edge with a count: with rests that are spellings of one word and whose numbers are so far apart, the first variable
/// lies below the second.
#[derive(Drop)]
pub struct Edge {
    /// Where it begins.
    pub from: State,
    /// Where it ends.
    pub to: State,
    /// How far apart the rests' numbers have to be.
    pub count: Count,
}
